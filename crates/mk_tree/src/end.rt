//! Where the lines of a document end: what an edit at the end has to know.
ghost use Rattle.std.specs.Prelude.{◌≡◌};
ghost use Rattle.mk_tree.specs.Trees.{line_view};
ghost use Rattle.mk_tree.specs.UnreadPrefixes.{IsClassed, is_unread_located};

use crate::part::is_part;
use crate::tree::Line;
use mk_class::{Class, Context};
use std::alloc::Allocator;

/// Where the lines of a document end, as they were read: what an edit at the end has to know.
#[derive(Clone, Copy)]
pub struct DocEnd {
    /// The context after the last line.
    pub context: Context,
    /// Whether one of the lines sets the recipe prefix in a way that is not read.
    pub has_unread_prefix: bool,
}

/// Whether a line sets the recipe prefix in a way that is not read. `class` is the line's class,
/// which the caller has at hand.
#[inline(always)]
pub fn sets_prefix_unread<A: Allocator>(line: &Line<A>, class: &Class) -> bool
    requires classed { IsClassed (line_view line.now) }
    requires class { class.now ≡ (line_view line.now).class }
    ensures { result ≡ is_unread_located (line_view line.now) }
{
    match class {
        Class::Assign(assignment, None) => is_part(line, assignment.name, b".RECIPEPREFIX"),
        Class::DefineHead(is_unread) => *is_unread,
        _ => false,
    }
}
