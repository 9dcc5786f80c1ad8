//! The views of a line.
ghost use Rattle.std.specs.Prelude.{◌≡◌, MatchOption, Some, None, option_map};
ghost use Rattle.mk_tree.specs.Trees.{line_view};
ghost use Rattle.mk_tree.specs.Views.{assignment_of, conditional_of, define_of, recipe_of, rule_of, target_assignment_of};

use crate::tree::Line;
use crate::views::assignment::{AssignmentRef, TargetAssignmentRef};
use crate::views::clip::clip;
use crate::views::define::defined_name;
use crate::views::rule::RuleRef;
use mk_class::Class;
use std::alloc::Allocator;

/// Which line of a conditional a line is.
#[derive(Clone, Copy, Debug, PartialEq, Eq)]
pub enum Conditional {
    /// The line that opens it: `ifeq`, `ifneq`, `ifdef` or `ifndef`.
    If,
    /// An `else` in it.
    Else,
    /// The line `endif` that ends it.
    Endif,
}

/// The parts of a line by name. Each call tells whether the line is such a line.
impl<A: Allocator> Line<A> {
    /// The parts of an assignment.
    pub fn assignment(&self) -> Option<AssignmentRef<'_>>
        ensures { MatchOption result (assignment_of (line_view self.now) ≡ None)
            (λ seen. assignment_of (line_view self.now) ≡ Some seen) }
    {
        match self.class() {
            Class::Assign(at, _) => Some(AssignmentRef::new(self.text(), 0, &at)),
            _ => None,
        }
    }

    /// The parts of an assignment for targets, such as `main: CFLAGS += -g`.
    pub fn target_assignment(&self) -> Option<TargetAssignmentRef<'_>>
        ensures { MatchOption result (target_assignment_of (line_view self.now) ≡ None)
            (λ seen. target_assignment_of (line_view self.now) ≡ Some seen) }
    {
        match self.class() {
            Class::TargetAssign(at) => Some(TargetAssignmentRef::new(self.text(), at)),
            _ => None,
        }
    }

    /// The parts of the line of a rule.
    pub fn rule(&self) -> Option<RuleRef<'_>>
        ensures { MatchOption result (rule_of (line_view self.now) ≡ None)
            (λ seen. rule_of (line_view self.now) ≡ Some seen) }
    {
        match self.class() {
            Class::Header(at) => Some(RuleRef::new(self.text(), at)),
            _ => None,
        }
    }

    /// The text of a recipe line after its first byte, the recipe prefix. Folds are spaces in it.
    pub fn recipe(&self) -> Option<&[u8]>
        ensures { option_map (λ text. text.now) result ≡ recipe_of (line_view self.now) }
    {
        match self.class() {
            Class::Recipe => Some(clip(self.text(), 1, self.text().len())),
            _ => None,
        }
    }

    /// The name of a define, in the line that begins it. It is empty if the line has none.
    pub fn define(&self) -> Option<&[u8]>
        ensures { option_map (λ name. name.now) result ≡ define_of (line_view self.now) }
    {
        match self.class() {
            Class::DefineHead(_) => Some(defined_name(self.text())),
            _ => None,
        }
    }

    /// Which line of a conditional the line is.
    pub fn conditional(&self) -> Option<Conditional>
        ensures { result ≡ conditional_of (line_view self.now) }
    {
        match self.class() {
            Class::If => Some(Conditional::If),
            Class::Else => Some(Conditional::Else),
            Class::Endif => Some(Conditional::Endif),
            _ => None,
        }
    }
}
