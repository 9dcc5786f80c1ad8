//! The header in the line of a rule.
ghost use Rattle.mk_tree.specs.Trees.{line_view};
ghost use Rattle.mk_edit_parts.specs.SeenHeaders.{IsHeaderAt, IsRuleLine};

use mk_class::{Class, Header};
use mk_tree::Line;
use std::alloc::Allocator;

/// Where the parts of a rule's line stand.
pub(crate) fn header_of<A: Allocator>(line: &Line<A>) -> Header
    requires { IsRuleLine (line_view line.now) }
    ensures { IsHeaderAt (line_view line.now) result }
{
    match line.class() {
        Class::Header(header) => header,
        // The line of a rule is a header.
        _ => unreachable!(),
    }
}
