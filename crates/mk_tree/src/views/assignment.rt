//! The parts of an assignment, and of an assignment for targets.
ghost use Rattle.std.specs.Prelude.{◌≡◌};
ghost use Rattle.mk_tree.specs.Views.{assignment_at, target_assignment_at};

use crate::views::clip::clip;
use crate::views::word_texts::WordTexts;
use mk_class::{Assignment, Flavor, Separator, TargetAssignment};
use std::marker::Model;

/// The parts of an assignment, lent by its line. Folds are spaces in them.
#[derive(Debug, Drop)]
pub struct AssignmentRef<'a> {
    modifiers: &'a [u8],
    name: &'a [u8],
    flavor: Flavor,
    value: &'a [u8],
}

impl<'a> Model for AssignmentRef<'a> {
    ghost use Rattle.mk_lines.specs.Words.{words_in};
    ghost use Rattle.mk_tree.specs.Views.{AssignmentView};

    ghost Value = { AssignmentView };

    ghost view = { λ a. record {
      modifiers = words_in a.modifiers.now;
      name = a.name.now;
      flavor = a.flavor;
      value = a.value.now;
    } };
}

impl<'a> AssignmentRef<'a> {
    // The parts of an assignment in a text. Its modifiers begin at an offset.
    pub(crate) fn new(text: &'a [u8], start: usize, at: &Assignment) -> AssignmentRef<'a>
        ensures { result ≡ assignment_at text.now start at.now }
    {
        AssignmentRef {
            modifiers: clip(text, start, at.name.start),
            name: clip(text, at.name.start, at.name.end),
            flavor: at.flavor,
            value: clip(text, at.value.start, at.value.end),
        }
    }

    /// The words before the name, such as `export`.
    pub fn modifiers(&self) -> WordTexts<'a>
        ensures { result ≡ self.now.modifiers }
    {
        WordTexts::new(self.modifiers)
    }

    /// The name of the variable, as it is written: a reference in it is not expanded.
    pub fn name(&self) -> &'a [u8]
        ensures { result.now ≡ self.now.name }
    {
        self.name
    }

    /// The flavor, which the operator tells.
    pub fn flavor(&self) -> Flavor
        ensures { result ≡ self.now.flavor }
    {
        self.flavor
    }

    /// The value, without the blanks around it and without a comment.
    pub fn value(&self) -> &'a [u8]
        ensures { result.now ≡ self.now.value }
    {
        self.value
    }
}

/// The parts of an assignment for targets, lent by its line. Folds are spaces in them.
#[derive(Debug, Drop)]
pub struct TargetAssignmentRef<'a> {
    text: &'a [u8],
    at: TargetAssignment,
}

impl<'a> Model for TargetAssignmentRef<'a> {
    ghost use Rattle.mk_tree.specs.Views.{TargetAssignmentView, target_assignment_at};

    ghost Value = { TargetAssignmentView };

    ghost view = { λ a. target_assignment_at a.text.now a.at };
}

impl<'a> TargetAssignmentRef<'a> {
    // The parts of an assignment for targets in a text.
    pub(crate) fn new(text: &'a [u8], at: TargetAssignment) -> TargetAssignmentRef<'a>
        ensures { result ≡ target_assignment_at text.now at }
    {
        TargetAssignmentRef { text, at }
    }

    /// The targets for which the variable is set.
    pub fn targets(&self) -> WordTexts<'a>
        ensures { result ≡ self.now.targets }
    {
        WordTexts::new(clip(self.text, 0, self.at.targets_end))
    }

    /// What stands between the targets and the assignment.
    pub fn separator(&self) -> Separator
        ensures { result ≡ self.now.separator }
    {
        self.at.separator
    }

    /// The assignment.
    pub fn assignment(&self) -> AssignmentRef<'a>
        ensures { result ≡ self.now.assignment }
    {
        let start = self
            .at
            .targets_end
            .saturating_add(self.at.separator.text().len());
        AssignmentRef::new(self.text, start, &self.at.assignment)
    }
}
