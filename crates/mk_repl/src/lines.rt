//! The physical lines of a text, and some of them.
ghost use Rattle.std.specs.Prelude.{◌≡◌, ◌<◌, ◌≤◌, ◌∷◌, drop, length, take};
ghost use Rattle.mk_lines.specs.Lists.{concat};
ghost use Rattle.mk_lines.specs.PhysicalLines.{physical_lines};
ghost use Rattle.mk_repl.specs.AnswerLines.{lines_between};

use memchr::memchr;

/// How many bytes the first line of a text has, with its line feed.
pub fn line_length(text: &[u8]) -> usize
    requires { 0 < length text.now }
    ensures line { physical_lines text.now
        ≡ take result text.now ∷ physical_lines (drop result text.now) }
    ensures some { 0 < result }
    ensures within { result ≤ length text.now }
{
    match memchr(b'\n', text) {
        Some(feed) => feed + 1,
        None => text.len(),
    }
}

// How many bytes so many lines at the front of a text have, or all lines if there are fewer.
fn lines_length(text: &[u8], count: u64) -> usize
    ensures within { result ≤ length text.now }
    ensures front { take result text.now ≡ concat (take count (physical_lines text.now)) }
    ensures rest { physical_lines (drop result text.now) ≡ drop count (physical_lines text.now) }
{
    let mut at = 0;
    let mut passed = 0;
    while passed < count && at < text.len() {
        let (_, rest) = text.split_at(at);
        at += line_length(rest);
        passed += 1;
    }
    at
}

/// The lines of a text from one number to another, of which the first line has 1: none where there is
/// no such line.
pub fn lines_between(text: &[u8], from: u64, to: u64) -> &[u8]
    ensures { result.now ≡ lines_between from to text.now }
{
    let before = from.saturating_sub(1);
    let (_, rest) = text.split_at(lines_length(text, before));
    let (lines, _) = rest.split_at(lines_length(rest, to.saturating_sub(before)));
    lines
}
