//! Parts of a line's joined text, by their offsets.
ghost use Rattle.std.specs.Prelude.{◌≡◌, ◌≤◌, drop, length};
ghost use Rattle.std.specs.Str.{bytes_eq};
ghost use Rattle.mk_lines.specs.Ranges.{text_at};
ghost use Rattle.mk_tree.specs.LocatedLines.{text_of_line};
ghost use Rattle.mk_tree.specs.Trees.{line_view};

use crate::tree::Line;
use mk_lines::split::Span;
use std::alloc::Allocator;

/// The joined text of a line.
#[inline(always)]
pub fn text_of_line<A: Allocator>(line: &Line<A>) -> &[u8]
    ensures { result.now ≡ text_of_line (line_view line.now) }
{
    line.text()
}

/// A part of a text.
pub fn part(text: &[u8], span: Span) -> &[u8]
    requires rises { span.start ≤ span.end }
    requires within { span.end ≤ length text.now }
    ensures { result.now ≡ text_at text.now span }
{
    &text[span.start..span.end]
}

/// A text from an index on.
pub fn rest(text: &[u8], start: usize) -> &[u8]
    requires { start ≤ length text.now }
    ensures { result.now ≡ drop start text.now }
{
    &text[start..]
}

/// Whether a part of a line's joined text is some text. The line's text is looked at only if the
/// part is as long, since most parts are told apart by their lengths. Takes no memory.
pub fn is_part<A: Allocator>(line: &Line<A>, span: Span, text: &[u8]) -> bool
    requires rises { span.start ≤ span.end }
    requires within { span.end ≤ length (text_of_line (line_view line.now)) }
    ensures { result ≡ bytes_eq (text_at (text_of_line (line_view line.now)) span) text.now }
{
    if span.end - span.start != text.len() {
        return false;
    }
    &line.text()[span.start..span.end] == text
}
