//! A text as its logical lines.
ghost use Rattle.std.specs.Prelude.{◌≡◌, ◌<◌, ◌≤◌, [], ◌∷◌, ◌++◌, IfOk, IfSome, IsOkUnless, MatchOption, drop, length, take};
ghost use Rattle.mk_lines.specs.LogicalLines.{logical_lines};
ghost use Rattle.mk_lines.specs.Ranges.{line_ranges};
ghost use Rattle.mk_lines.specs.Spans.{Tiles};

use crate::ends::is_continued;
use crate::fault::Fault;
use memchr::memchr;
use std::alloc::Allocator;

/// A part of a text, in bytes from 0: from `start`, its first byte, up to `end`, which is not in
/// it.
#[derive(Clone, Copy, Debug, PartialEq, Eq)]
pub struct Span {
    pub start: usize,
    pub end: usize,
}

/// The logical lines of a text, in order: each is a physical line with all lines that continue it.
///
/// A physical line ends after each LF; the last may have none. The next line, if there is one,
/// continues a line if the run of backslashes directly before its line end (LF, or CR LF) has odd
/// length. The spans follow one another and cover the text; the empty text has none.
///
/// POSIX.1-2024 make, Makefile Syntax ("an escaped newline"); GNU make manual, "Splitting Long
/// Lines".
///
/// # Errors
///
/// [`Fault::NoMemory`] if the list could not grow.
pub fn split<A: Allocator>(alloc: A, text: &[u8]) -> Result<Vec<Span, A>, Fault>
    ensures lines { IfOk result (λ spans. spans.items ≡ line_ranges text.now) }
    ensures covers { IfOk result (λ spans. Tiles spans.items 0 (length text.now)) }
    ensures fault { IsOkUnless result Fault.NoMemory }
{
    let mut spans = Vec::new(alloc);
    let mut start = 0;
    let mut rest = text;
    'lines: while let Some((line, after)) = split_first_line(rest) {
        let end = start + line.len();
        spans.push(Span { start, end })?;
        start = end;
        rest = after;
    }
    Ok(spans)
}

/// The first logical line of a text and what follows it, or `None` if the text is empty.
///
/// Called again on what follows, it gives the lines one after the other, as [`split`] gives their
/// ranges. Takes no memory.
pub fn split_first_line(text: &[u8]) -> Option<(&[u8], &[u8])>
    ensures lines { MatchOption result (text.now ≡ []) (λ parts.
        logical_lines text.now ≡ parts.0.now ∷ logical_lines parts.1.now) }
    ensures joined { IfSome result (λ parts. parts.0.now ++ parts.1.now ≡ text.now) }
    ensures some { IfSome result (λ parts. 0 < length parts.0.now) }
{
    if text.is_empty() {
        return None;
    }
    Some(text.split_at(first_line_length(text)))
}

// How many bytes the first logical line of a text has.
fn first_line_length(text: &[u8]) -> usize
    requires { 0 < length text.now }
    ensures lines { logical_lines text.now
        ≡ take result text.now ∷ logical_lines (drop result text.now) }
    ensures some { 0 < result }
    ensures within { result ≤ length text.now }
{
    // where the line's last physical line begins
    let mut last = 0;
    'lines: while let Some(feed) = memchr(b'\n', &text[last..]) {
        let end = last + feed + 1;
        if !is_continued(&text[last..end]) {
            return end;
        }
        last = end;
    }
    // The last line may have no line feed; or its backslash continues it, and no line follows.
    text.len()
}
