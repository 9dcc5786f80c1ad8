//! The notes on an edit that was made and may do nothing in make.
//!
//! These notes are found in the document as the edit left it: that is the one that an observer
//! gets. A line below with `+=` or `?=` has no note, since make takes its effect together with the
//! value above or not at all, and neither has one that keeps the value, as `X := $(X) -g` does. Lines
//! in another branch have a note of their own, since make never reads them together with the line of
//! the edit.

use crate::address::{line_of, line_of_rule, name_in};
use crate::branch::OtherBranches;
use crate::line::{gives, gives_anew, may_give};
use crate::run_notes::{RunNotes, Walks};
use crate::tally::Tally;
use crate::text::Notes;
use mk_class::Flavor;
use mk_edit_language::{EachEdit, Edit, LineChange, Place};
use mk_edit_parts::address::{Address, address_of};
use mk_edit_parts::text::has_word;
use mk_queries::listing::{Position, assignments_of, numbered};
use mk_tree::Doc;
use std::alloc::{AllocError, Allocator};

impl<B: Allocator + Copy> RunNotes<'_, B> {
    /// The notes on an edit that was made, as a text: why it may do nothing in make. Each line begins with
    /// the name of a file, mostly the number of a line in it, and `note`. The document is the makefile as
    /// the edit left it; the numbers of lines are its own.
    ///
    /// | Edit | Notes |
    /// |---|---|
    /// | each but `RemoveAssign`, `CommentOut`, `Uncomment`, `RemoveRule`, `ChangeValues`, `RenameTarget`, `ExchangeLines` and `EachLine` | where the changed line is in a conditional: that make may skip it, and the line |
    /// | `SetValue`, `SetValueIf`, `AppendValue`, `AddWord`, `RemoveWord`, and `ChangeLine` except for `SetOperator` | where the operator is `?=`: that make takes the value only where the variable has none, and the line |
    /// | the same, `SetOperator` and `AddAssign` | where the variable is assigned again below, and not in another branch of the same conditional: that it is, and the lines that assign it |
    /// | the same | where it is assigned in another branch of the same conditional: that it is, and the lines that assign it |
    /// | the same, and anywhere in the makefile `RemoveAssign`, `CommentOut`, `Uncomment`, `ChangeValues` and `ChangeEach` | where lines below seem to assign it that are not read: that they do, and these lines |
    /// | `AddRule` | for each of its first ten targets that has a rule with colons of the other kind: that make stops if it reads both, and the lines of these rules |
    /// | the same | for each other of them that has a recipe in another rule: that it has, and the lines of these rules |
    /// | the same | where its target may be the default goal now: that it may, and the line of the earlier one |
    /// | `AddRecipe`, `SetRecipe`, `InsertRecipe`, `SetRecipeByText` | where the target by which the rule is called has a recipe in another rule: that it has, and the lines of these rules |
    ///
    /// A rule with `::` is none of those with a recipe that are told of, and a target with `%` has no notes.
    /// A line assigns the variable again if it is a define of its name, or an assignment with an operator
    /// besides `?=` and `+=` whose value does not refer to it. Of many lines the first ten are told of, each
    /// by at most 100 bytes of its text.
    ///
    /// # Errors
    ///
    /// [`AllocError`] if a growth was refused.
    pub fn accepted<A: Allocator, C: Allocator>(
        &mut self,
        line: u64,
        doc: &Doc<A>,
        edit: &Edit<C>,
    ) -> Result<Vec<u8, B>, AllocError> {
        let mut tally = match self.tally.take() {
            Some(tally) => tally,
            None => Tally::of(self.alloc, doc)?,
        };
        tally.follow(edit)?;
        let mut notes = Notes::new(self.alloc, self.names, line, doc);
        let put = notes.made(&tally, &mut self.made, edit);
        self.tally = Some(tally);
        put?;
        Ok(notes.into_text())
    }
}

impl<'a, A: Allocator, B: Allocator + Copy> Notes<'a, A, B> {
    // Puts the notes on an edit that was made.
    fn made<C: Allocator>(
        &mut self,
        tally: &Tally<B>,
        walks: &mut Walks,
        edit: &Edit<C>,
    ) -> Result<(), AllocError> {
        if !tally.may_have_notes(edit) || !walks.may_walk(self)? {
            return Ok(());
        }
        let changed = changed_line(self.doc, edit);
        if let Some(at) = changed {
            self.on_line(at, says_operator(edit))?;
        }
        match (edit, changed) {
            (Edit::AddRule { targets, .. }, _) => self.new_rule(tally, edit, targets, changed),
            (Edit::AddAssign { name, .. }, Some(at)) => self.assigned(name, at),
            (
                Edit::RemoveAssign { name, .. }
                | Edit::CommentOut { name, .. }
                | Edit::Uncomment { name, .. }
                | Edit::ChangeValues { name, .. }
                | Edit::EachLine(EachEdit::ChangeEach { name, .. }),
                _,
            ) => self.unread(name, 0),
            _ => match (address_of(edit), changed) {
                (Some(Address::Rule(nth, target)), _) if has_new_recipe(edit) => {
                    self.other_recipes(nth.unwrap_or(1), target)
                }
                (Some(Address::Rule(..)), _) | (_, None) | (None, _) => Ok(()),
                (Some(address), Some(at)) => self.assigned(name_in(address), at),
            },
        }
    }

    // Puts the notes on the changed line itself: whether it is in a conditional, and whether its operator is
    // `?=`, if the edit does not say the operator.
    fn on_line(&mut self, at: Position, says_operator: bool) -> Result<(), AllocError> {
        let assignment = self.doc.get(at.index).and_then(|line| line.assignment());
        let default = assignment.filter(|it| matches!(it.flavor(), Flavor::Conditional)
            && !says_operator);
        if at.conditionals > 0 {
            self.script(&[b"this change is in a conditional, and make may skip it"])?;
        }
        if let Some(it) = &default {
            self.script(&[
                b"make takes this value only where ",
                it.name(),
                b" has none",
            ])?;
        }
        if default.is_some() || at.conditionals > 0 {
            self.line(Some(at))?;
        }
        Ok(())
    }

    // Puts the notes on the other lines that assign a variable to which an edit has given a value in the line
    // at a position.
    fn assigned(&mut self, name: &[u8], own: Position) -> Result<(), AllocError> {
        let doc = self.doc;
        let own_index = own.index;
        let others = OtherBranches::of(doc, own);
        let again = numbered(doc).filter_map(|(at, line)| {
            let is_here = at.index > own_index && !others.has(at.index);
            (is_here && gives_anew(line, name)).then_some(at)
        });
        let said = b" is assigned again below, and make may take that value";
        self.lines(&[name, said], again)?;
        let elsewhere = numbered(doc).filter_map(|(at, line)| {
            (others.has(at.index) && gives(line, name)).then_some(at)
        });
        let said = b" is assigned in another branch too, and make may take that value";
        self.lines(&[name, said], elsewhere)?;
        self.unread(name, own_index)
    }

    // Puts the notes on the lines from an index on that seem to assign a variable and are not read.
    fn unread(&mut self, name: &[u8], from: usize) -> Result<(), AllocError> {
        let found = numbered(self.doc).filter_map(|(at, line)| {
            (at.index >= from && may_give(line, name)).then_some(at)
        });
        let said = b" has more assignments, in lines that mkedit cannot parse";
        self.lines(&[name, said], found).map(|_| ())
    }
}

// Whether an edit says the operator of its line.
fn says_operator<A: Allocator>(edit: &Edit<A>) -> bool {
    matches!(
        edit,
        Edit::AddAssign { .. }
            | Edit::ChangeLine {
                change: LineChange::SetOperator(_),
                ..
            }
    )
}

// Whether an edit has put a line into a recipe, or has changed one.
fn has_new_recipe<A: Allocator>(edit: &Edit<A>) -> bool {
    matches!(
        edit,
        Edit::AddRecipe { .. }
            | Edit::SetRecipe { .. }
            | Edit::InsertRecipe { .. }
            | Edit::SetRecipeByText { .. }
    )
}

// The line that an edit has changed or put in, or that of the rule of which it has taken a recipe line out;
// none if it has taken its line out, put one in at the end, or changed several.
fn changed_line<A: Allocator, B: Allocator>(doc: &Doc<A>, edit: &Edit<B>) -> Option<Position> {
    match edit {
        Edit::AddAssign { place, .. } | Edit::AddRule { place, .. } => {
            let new = new_index(doc, edit, place)?;
            return numbered(doc).nth(new).map(|(at, _)| at);
        }
        Edit::SetValueIf { name, value, .. } => {
            let mut found = assignments_of(doc, name).filter(|it| it.assignment.value()
                == value.as_slice());
            return match (found.next(), found.next()) {
                (Some(it), None) => Some(it.position),
                _ => None,
            };
        }
        _ => {}
    }
    let address = address_of(edit)?;
    match edit {
        Edit::RemoveAssign { .. }
        | Edit::CommentOut { .. }
        | Edit::Uncomment { .. }
        | Edit::RemoveRule { .. } => None,
        Edit::SetRecipe { number, .. } => {
            let number = *number;
            line_of_rule(doc, address)?
                .recipe_lines()
                .find(|it| it.number == number)
                .map(|it| it.position)
        }
        Edit::SetRecipeByText { line, .. } => {
            let rule = line_of_rule(doc, address)?;
            let mut found = rule.recipe_lines().filter(|it| it.text == line.as_slice());
            match (found.next(), found.next()) {
                (Some(it), None) => Some(it.position),
                _ => None,
            }
        }
        _ => line_of(doc, address),
    }
}

// The index of the line that an edit has put in at a place; none if that is the end.
fn new_index<A: Allocator, B: Allocator>(
    doc: &Doc<A>,
    edit: &Edit<B>,
    place: &Place<B>,
) -> Option<usize> {
    if let Place::Top = place {
        return Some(0);
    }
    let address = address_of(edit)?;
    if let Place::AfterRule { .. } = place {
        let rule = line_of_rule(doc, address)?;
        let last = rule.recipe_lines().last();
        let above = last.map_or(rule.position.index, |it| it.position.index);
        return Some(above.saturating_add(1));
    }
    let index = line_of(doc, address)?.index;
    Some(match place {
        Place::AfterVar { .. } => index.saturating_add(1),
        _ if fits_own_place(edit) => index,
        Place::AfterLastVar { .. } => index.saturating_add(1),
        _ => index.saturating_sub(1),
    })
}

// Whether the new line of an edit fits the address of the line beside which it was put in.
fn fits_own_place<A: Allocator>(edit: &Edit<A>) -> bool {
    match (edit, address_of(edit)) {
        (
            Edit::AddAssign { name, .. },
            Some(Address::Variable(_, other) | Address::LastVariable(other)),
        ) => name.as_slice() == other,
        (Edit::AddRule { targets, .. }, Some(Address::Rule(_, other))) => {
            has_word(targets, other)
        }
        _ => false,
    }
}
