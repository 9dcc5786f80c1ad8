//! The parts of a line in which a rename replaces words, and these words.
ghost use Rattle.std.specs.Prelude.{◌≡◌, ◌+◌, ◌≤◌, IfSome, length};
ghost use Rattle.mk_lines.specs.Cells.{line_cells};
ghost use Rattle.mk_tree.specs.Trees.{line_view};
ghost use Rattle.mk_edit_parts.specs.LocatedParts.{IsClassed};
ghost use Rattle.mk_edit_parts.specs.RenamedRanges.{ArePartsWithin, IsWithin, range_in, word_parts};

use crate::text::is_same_text;
use mk_class::Class;
use mk_lines::split::Span;
use mk_tree::Line;
use mk_tree::part::{part, text_of_line};
use std::alloc::Allocator;

/// The parts of a line's joined text in which a rename replaces words. A part that a line does not
/// have is empty.
#[derive(Clone, Copy)]
pub struct WordParts {
    /// The targets, of a rule or of an assignment for targets.
    pub targets: Span,
    /// The normal prerequisites.
    pub normal: Span,
    /// The order-only prerequisites.
    pub order_only: Span,
}

/// The parts of a line. The caller has the class of the line at hand.
pub fn parts_of<A: Allocator>(line: &Line<A>, class: &Class) -> WordParts
    requires classed { IsClassed (line_view line.now) }
    requires class { class.now ≡ (line_view line.now).class }
    ensures parts { result ≡ word_parts class.now }
    ensures within { ArePartsWithin (length (line_cells (line_view line.now).bytes)) result }
{
    // The length of a text is bounded, so the offset after its end is a number.
    let _text = text_of_line(line);
    let none = Span { start: 0, end: 0 };
    match class {
        Class::Header(header) => WordParts {
            targets: Span {
                start: 0,
                end: header.targets_end,
            },
            normal: Span {
                start: header.normal_start,
                end: header.normal_end,
            },
            order_only: Span {
                start: if header.has_order_only {
                    header.normal_end + 1
                } else {
                    header.normal_end
                },
                end: header.head_end,
            },
        },
        Class::TargetAssign(assignment) => WordParts {
            targets: Span {
                start: 0,
                end: assignment.targets_end,
            },
            normal: none,
            order_only: none,
        },
        _ => WordParts {
            targets: none,
            normal: none,
            order_only: none,
        },
    }
}

/// The raw range of a word of a line, if the word is `wanted`. The range of the word in the joined
/// text counts from the start of its part.
pub fn range_of_word<A: Allocator>(
    line: &Line<A>,
    part_start: usize,
    word: Span,
    wanted: &[u8],
) -> Option<Span>
    requires rises { word.start ≤ word.end }
    requires within { part_start + word.end ≤ length (line_cells (line_view line.now).bytes) }
    ensures range { result
        ≡ range_in (line_cells (line_view line.now).bytes) part_start wanted.now word }
    ensures within { IfSome result (λ range. IsWithin (length (line_view line.now).bytes) range) }
{
    let text = text_of_line(line);
    let start = part_start + word.start;
    let end = part_start + word.end;
    if is_same_text(part(text, Span { start, end }), wanted) {
        Some(line.raw_range(start, end))
    } else {
        None
    }
}
