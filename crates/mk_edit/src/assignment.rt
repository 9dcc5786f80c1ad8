//! The assignment in its line.
ghost use Rattle.std.specs.Prelude.{◌≡◌};
ghost use Rattle.mk_tree.specs.Trees.{line_view};
ghost use Rattle.mk_edit_parts.specs.LocatedParts.{IsClassed};
ghost use Rattle.mk_edit_parts.specs.SeenAssignments.{IsAssignmentAt, IsAssignmentLine};
ghost use Rattle.mk_edit.specs.ValueChangeLines.{value_text_located};

use mk_class::{Assignment, Class};
use mk_tree::Line;
use mk_tree::part::{part, text_of_line};
use std::alloc::Allocator;

/// Where the parts of an assignment's line stand.
pub(crate) fn assignment_of<A: Allocator>(line: &Line<A>) -> Assignment
    requires { IsAssignmentLine (line_view line.now) }
    ensures { IsAssignmentAt (line_view line.now) result }
{
    match line.class() {
        Class::Assign(assignment, _) => assignment,
        // The line of an assignment is one.
        _ => unreachable!(),
    }
}

/// The text of the value of an assignment's line.
pub(crate) fn value_text<A: Allocator>(line: &Line<A>) -> &[u8]
    requires { IsClassed (line_view line.now) }
    ensures { result.now ≡ value_text_located (line_view line.now) }
{
    match line.class() {
        Class::Assign(assignment, _) => part(text_of_line(line), assignment.value),
        _ => b"",
    }
}
