//! Which lines of a text are plain: one physical line each, without a stray byte, as most lines are.
//!
//! A plain line needs no cells. That a line has no stray byte is not asked line by line: a stretch
//! of the text is searched at once, and known for all lines in it.
ghost use Rattle.std.specs.Prelude.{◌≡◌, ◌≤◌, [], ℕ, true, length, IfSome, MatchOption};
ghost use Rattle.mk_tree.specs.Plain.{IsClean, IsFirstLine, IsOneLine};

use memchr::{memchr, memchr2};
use mk_lines::ends::is_continued;
use mk_lines::split::split_first_line;

/// The first logical line of a text.
#[derive(Clone, Copy)]
pub(crate) struct FirstLine {
    /// How many bytes it has.
    pub(crate) length: usize,
    /// Whether it is known to be one physical line with a line feed.
    pub(crate) is_physical: bool,
}

/// The first logical line of a text, or `None` if the text is empty.
pub(crate) fn first_line(text: &[u8]) -> Option<FirstLine>
    ensures line { MatchOption result (text.now ≡ []) (λ first. IsFirstLine text.now first.length) }
    ensures physical { IfSome result (λ first.
        first.is_physical ≡ true → IsOneLine text.now first.length) }
{
    if let Some(length) = first_physical_line(text) {
        return Some(FirstLine {
            length,
            is_physical: true,
        });
    }
    let (line, _) = split_first_line(text)?;
    Some(FirstLine {
        length: line.len(),
        is_physical: false,
    })
}

// How many bytes the first physical line of a text has, if it has a line feed and no line continues
// it.
fn first_physical_line(text: &[u8]) -> Option<usize>
    ensures line { IfSome result (λ length. IsFirstLine text.now length) }
    ensures physical { IfSome result (λ length. IsOneLine text.now length) }
{
    let feed = memchr(b'\n', text)?;
    if is_continued(&text[..feed + 1]) {
        return None;
    }
    Some(feed + 1)
}

/// How many bytes are searched at once.
const STRETCH: usize = 16_384;

/// Up to where a text is known to have no NUL and no carriage return from `start` on: it has none up
/// to `clean`, and it is searched further if that is before `end`.
pub(crate) fn clean_up_to(text: &[u8], clean: usize, start: usize, end: usize) -> usize
    requires order { start ≤ end }
    requires within { end ≤ length text.now }
    requires clean_within { clean ≤ length text.now }
    requires clean { IsClean text.now start clean }
    ensures within { result ≤ length text.now }
    ensures clean { IsClean text.now start result }
{
    if end <= clean {
        return clean;
    }
    let from = clean.max(start);
    let to = if text.len() - from < STRETCH {
        text.len()
    } else {
        from + STRETCH
    };
    match memchr2(b'\0', b'\r', &text[from..to]) {
        Some(found) => from + found,
        None => to,
    }
}
