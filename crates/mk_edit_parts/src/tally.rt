//! The words of a line that a rename replaces, counted.
ghost use Rattle.std.specs.Prelude.{◌≡◌, ◌+◌, ◌<◌, ◌≤◌, ◌^◌, [], false, length, IfSome};
ghost use Rattle.mk_lines.specs.Cells.{line_cells};
ghost use Rattle.mk_lines.specs.Ranges.{text_at};
ghost use Rattle.mk_lines.specs.Words.{words_in};
ghost use Rattle.mk_class.specs.Texts.{is_one_of};
ghost use Rattle.mk_tree.specs.LocatedLines.{text_of_line};
ghost use Rattle.mk_tree.specs.Trees.{line_view};
ghost use Rattle.mk_edit_parts.specs.LocatedParts.{IsClassed};
ghost use Rattle.mk_edit_parts.specs.RenamedRanges.{IsWithin, before_ranges, bytes_in, has_parts, no_words, part_ranges, renamed_ranges, tallied};

use crate::glance::first_place;
use crate::word_parts::{parts_of, range_of_word};
use mk_class::Class;
use mk_lines::split::Span;
use mk_lines::words;
use mk_tree::Line;
use mk_tree::part::{part, text_of_line};
use std::alloc::Allocator;

/// A count of words that a rename replaces.
#[derive(Clone, Copy)]
pub struct Tally {
    /// How many words there are.
    pub words: usize,
    /// How many bytes the words have in the line as it stands.
    pub bytes: usize,
    /// Whether one of the words stands at the very front of the line.
    pub at_front: bool,
    /// The raw range of the first of these words, in bytes of the line.
    pub first: Option<Span>,
}

impl Tally {
    // Nothing counted.
    pub(crate) fn none() -> Tally
        ensures { result ≡ no_words }
    {
        Tally {
            words: 0,
            bytes: 0,
            at_front: false,
            first: None,
        }
    }
}

/// Counts the words of a line that are `from`, where a rename replaces words. Takes no memory.
pub fn count_words<A: Allocator>(line: &Line<A>, class: &Class, from: &[u8]) -> Tally
    requires classed { IsClassed (line_view line.now) }
    requires class { class.now ≡ (line_view line.now).class }
    requires few { length (renamed_ranges from.now (line_view line.now)) < 2 ^ 32 }
    requires few_bytes { bytes_in (renamed_ranges from.now (line_view line.now)) ≤ 2 ^ 32 }
    ensures { result ≡ tallied no_words (renamed_ranges from.now (line_view line.now)) }
{
    let none = Tally::none();
    if !has_parts(class) {
        return none;
    }
    let parts = parts_of(line, class);
    let Some(place) = first_place(text_of_line(line), parts, from) else {
        return none;
    };
    let targets = count_in_part(line, parts.targets, from, place, none);
    let normal = count_in_part(line, parts.normal, from, place, targets);
    count_in_part(line, parts.order_only, from, place, normal)
}

/// Whether a line of this class has parts in which words are replaced: whether it is the header of a
/// rule, or an assignment for targets.
pub fn has_parts(class: &Class) -> bool
    ensures { result ≡ has_parts class.now }
{
    matches!(class, Class::Header(_) | Class::TargetAssign(_))
}

/// The count with the words of a part added that are `from`. A part that ends at `place` or before
/// it does not have the word, and is not cut into words.
pub(crate) fn count_in_part<A: Allocator>(
    line: &Line<A>,
    span: Span,
    from: &[u8],
    place: usize,
    tally: Tally,
) -> Tally
    requires within { IsWithin (length (line_cells (line_view line.now).bytes)) span }
    requires passed { span.end ≤ place
        → is_one_of from.now (words_in (text_at (text_of_line (line_view line.now)) span))
        ≡ false }
    requires few { tally.words
        + length (part_ranges (line_cells (line_view line.now).bytes) from.now span) < 2 ^ 32 }
    requires few_bytes { tally.bytes
        + bytes_in (part_ranges (line_cells (line_view line.now).bytes) from.now span)
        ≤ 2 ^ 32 }
    ensures { result
        ≡ tallied tally (part_ranges (line_cells (line_view line.now).bytes) from.now span) }
{
    if span.end <= place {
        return tally;
    }
    let mut tally = tally;
    'words: for word in words(part(text_of_line(line), span)) {
        tally = counted(tally, range_of_word(line, span.start, word, from));
    }
    tally
}

// The count with one more word, if there is one.
fn counted(tally: Tally, range: Option<Span>) -> Tally
    requires few { tally.words < 2 ^ 32 }
    requires few_bytes { tally.bytes + bytes_in (before_ranges range []) ≤ 2 ^ 32 }
    requires rises { IfSome range (λ range. range.start ≤ range.end) }
    ensures { result ≡ tallied tally (before_ranges range []) }
{
    match range {
        None => tally,
        Some(range) => Tally {
            words: tally.words + 1,
            bytes: tally.bytes + (range.end - range.start),
            at_front: tally.at_front || range.start == 0,
            first: tally.first.or(Some(range)),
        },
    }
}
