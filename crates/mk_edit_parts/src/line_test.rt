//! Tests of lines: which variable a line assigns, and which targets it has.
//!
//! Each test takes the class of the line, which the caller has at hand.
ghost use Rattle.std.specs.Prelude.{◌≡◌, ◌≤◌, length};
ghost use Rattle.mk_class.specs.Texts.{is_one_of};
ghost use Rattle.mk_edit_parts.specs.LocatedParts.{IsClassed, assigns_located, has_value_located, is_rule_for_located, is_target_located, words_before};
ghost use Rattle.mk_tree.specs.LocatedLines.{text_of_line};
ghost use Rattle.mk_lines.specs.Cells.{line_cells};
ghost use Rattle.mk_tree.specs.Trees.{line_view};

use crate::glance::may_have_word;
use crate::text::has_word;
use mk_class::Class;
use mk_lines::split::Span;
use mk_tree::Line;
use mk_tree::part::{is_part, part, text_of_line};
use std::alloc::Allocator;

/// Whether a line assigns the variable of this name.
pub fn assigns<A: Allocator>(line: &Line<A>, class: &Class, name: &[u8]) -> bool
    requires classed { IsClassed (line_view line.now) }
    requires class { class.now ≡ (line_view line.now).class }
    ensures { result ≡ assigns_located name.now (line_view line.now) }
{
    match class {
        Class::Assign(assignment, _) => is_part(line, assignment.name, name),
        _ => false,
    }
}

/// Whether a line is an assignment that has this value.
pub fn has_value<A: Allocator>(line: &Line<A>, class: &Class, value: &[u8]) -> bool
    requires classed { IsClassed (line_view line.now) }
    requires class { class.now ≡ (line_view line.now).class }
    ensures { result ≡ has_value_located value.now (line_view line.now) }
{
    match class {
        Class::Assign(assignment, _) => is_part(line, assignment.value, value),
        _ => false,
    }
}

/// Whether a line is the header of a rule for this target.
pub fn is_rule_for<A: Allocator>(line: &Line<A>, class: &Class, target: &[u8]) -> bool
    requires classed { IsClassed (line_view line.now) }
    requires class { class.now ≡ (line_view line.now).class }
    ensures { result ≡ is_rule_for_located target.now (line_view line.now) }
{
    match class {
        Class::Header(header) => has_word_before(line, header.targets_end, target),
        _ => false,
    }
}

/// Whether a word is a target of a line, of a header or of an assignment for targets.
pub fn has_target<A: Allocator>(line: &Line<A>, class: &Class, word: &[u8]) -> bool
    requires classed { IsClassed (line_view line.now) }
    requires class { class.now ≡ (line_view line.now).class }
    ensures { result ≡ is_target_located word.now (line_view line.now) }
{
    match class {
        Class::Header(header) => has_word_before(line, header.targets_end, word),
        Class::TargetAssign(assignment) => has_word_before(line, assignment.targets_end, word),
        _ => false,
    }
}

// Whether a word is one of those before an offset in the joined text of a line.
fn has_word_before<A: Allocator>(line: &Line<A>, end: usize, word: &[u8]) -> bool
    requires within { end ≤ length (line_cells (line_view line.now).bytes) }
    ensures { result ≡ is_one_of word.now (words_before end (text_of_line (line_view line.now))) }
{
    let text = text_of_line(line);
    let before = Span { start: 0, end };
    may_have_word(text, before, word) && has_word(part(text, before), word)
}
