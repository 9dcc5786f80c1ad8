//! The sentence on a field of an edit that may not stand there.

use crate::address::name_in;
use crate::broken::{Test, broken};
use crate::part::Part::Words;
use crate::text::Notes;
use crate::whole_lines::{address_of_site, sought_by};
use mk_class::{is_target, is_word};
use mk_edit_language::{EachEdit, Edit, Field, LineChange, Site, ValueChange};
use mk_edit_parts::address::{Address, address_of, each_address_of};
use mk_edit_parts::block_of;
use mk_tree::WordTexts;
use std::alloc::{AllocError, Allocator};

/// A text of an edit that may not stand there.
#[derive(Clone, Copy)]
struct Tested<'a> {
    /// What a sentence calls it.
    called: &'static str,
    text: &'a [u8],
    test: Test,
}

impl<'a> Tested<'a> {
    fn new(called: &'static str, text: &'a [u8], test: Test) -> Tested<'a> {
        Tested { called, text, test }
    }
}

impl<'a, A: Allocator, B: Allocator + Copy> Notes<'a, A, B> {
    /// Puts which rule a field of an edit breaks.
    pub(crate) fn bad_field<C: Allocator>(
        &mut self,
        edit: &Edit<C>,
        field: Field,
    ) -> Result<(), AllocError> {
        let Tested { called, text, test } = text_of_field(edit, field);
        self.say("@ @", &[Words(called), Words(broken(text, test))])
    }
}

// The text of a field that may not stand there.
fn text_of_field<A: Allocator>(edit: &Edit<A>, field: Field) -> Tested<'_> {
    match (field, edit) {
        (
            Field::Value,
            Edit::SetValue { value, .. }
            | Edit::SetValueIf { value, .. }
            | Edit::AppendValue { value, .. }
            | Edit::AddAssign { value, .. }
            | Edit::ChangeValues {
                change: ValueChange::Set(value)
                | ValueChange::SetIf { value, .. }
                | ValueChange::Append(value),
                ..
            },
        ) => Tested::new("the value", value, Test::Value),
        (
            Field::Old,
            Edit::SetValueIf { old, .. }
            | Edit::ChangeValues {
                change: ValueChange::SetIf { old, .. },
                ..
            },
        ) => Tested::new("the old value", old, Test::Value),
        (
            Field::Word,
            Edit::AddWord { word, .. }
            | Edit::RemoveWord { word, .. }
            | Edit::ChangeValues {
                change: ValueChange::Add(word) | ValueChange::Remove(word),
                ..
            },
        ) => Tested::new("the word", word, Test::ValueWord),
        (Field::Name, Edit::AddAssign { name, .. } | Edit::ChangeValues { name, .. }) => {
            Tested::new("the name", name, Test::Name)
        }
        (_, Edit::ChangeLine { change, .. }) => text_of_change(address_of(edit), change, field),
        (_, Edit::EachLine(each)) => text_of_each(each, field),
        (_, Edit::ExchangeLines { site, block }) => text_of_lines(site, block_of(block), field),
        _ => text_of_rule_field(edit, field),
    }
}

// The text of a field of an edit of whole lines that may not stand there.
fn text_of_lines<'a, A: Allocator>(
    site: &'a Site<A>,
    block: Option<&'a [u8]>,
    field: Field,
) -> Tested<'a> {
    match (field, sought_by(site)) {
        (Field::Block, _) => Tested::new("the block", block.unwrap_or_default(), Test::Block),
        (Field::Old, Some(old)) => Tested::new("the old block", old, Test::Block),
        (_, Some(old)) => Tested::new("the block in PLACE", old, Test::Block),
        (_, None) => text_of_named(address_of_site(site), field),
    }
}

// The text of a field of an edit of several lines that is checked by reading that may not stand there.
fn text_of_each<A: Allocator>(each: &EachEdit<A>, field: Field) -> Tested<'_> {
    match (field, each) {
        (_, EachEdit::ChangeEach { change, .. }) => {
            text_of_change(each_address_of(each), change, field)
        }
        (
            Field::From,
            EachEdit::SubstValues { from, .. }
            | EachEdit::SubstRecipe { from, .. }
            | EachEdit::SubstRecipes { from, .. },
        ) => Tested::new("the text to replace", from, Test::Text),
        (
            Field::To,
            EachEdit::SubstValues { to, .. }
            | EachEdit::SubstRecipe { to, .. }
            | EachEdit::SubstRecipes { to, .. },
        ) => Tested::new("the new text", to, Test::Text),
        _ => text_of_named(each_address_of(each), field),
    }
}

// The text of a field of a change of the line of an assignment that may not stand there.
fn text_of_change<'a, A: Allocator>(
    address: Option<Address<'a>>,
    change: &'a LineChange<A>,
    field: Field,
) -> Tested<'a> {
    match (field, change) {
        (Field::Value, LineChange::Prepend(value) | LineChange::ReplaceWord { value, .. }) => {
            Tested::new("the value", value, Test::Value)
        }
        (Field::Word, LineChange::ReplaceWord { word, .. } | LineChange::InsertWord { word, .. }) =>
            Tested::new("the word", word, Test::ValueWord),
        (Field::New, LineChange::InsertWord { new, .. }) => {
            Tested::new("the new word", new, Test::ValueWord)
        }
        (Field::From, LineChange::Substitute { from, .. }) => {
            Tested::new("the text to replace", from, Test::Text)
        }
        (Field::To, LineChange::Substitute { to, .. }) => {
            Tested::new("the new text", to, Test::Text)
        }
        _ => text_of_named(address, field),
    }
}

// The text of a field of an edit of a rule that may not stand there, or of a field that an address has.
fn text_of_rule_field<A: Allocator>(edit: &Edit<A>, field: Field) -> Tested<'_> {
    match (field, edit) {
        (Field::Word, Edit::AddPrereq { word, .. } | Edit::RemovePrereq { word, .. }) => {
            Tested::new("the word", word, Test::Word)
        }
        (Field::Old, Edit::ReplacePrereq { old, .. }) => {
            Tested::new("the old word", old, Test::Word)
        }
        (Field::New, Edit::ReplacePrereq { new, .. }) => {
            Tested::new("the new word", new, Test::Word)
        }
        (Field::Targets, Edit::AddRule { targets, .. }) => {
            match WordTexts::new(targets).find(|word| !is_target(word)) {
                Some(word) => Tested::new("a target", word, Test::Word),
                None => Tested::new("the list of targets", &[], Test::Word),
            }
        }
        (Field::Prereqs, Edit::AddRule { prereqs, .. }) => {
            let bad = WordTexts::new(prereqs).find(|word| !is_word(word));
            Tested::new("a prerequisite", bad.unwrap_or_default(), Test::Word)
        }
        (
            Field::Line,
            Edit::AddRecipe { line, .. }
            | Edit::SetRecipe { line, .. }
            | Edit::InsertRecipe { line, .. }
            | Edit::SetRecipeByText { line, .. },
        ) => Tested::new("the line", line, Test::Line),
        (Field::Old, Edit::SetRecipeByText { old, .. } | Edit::RemoveRecipeByText { old, .. }) => {
            Tested::new("the old line", old, Test::Line)
        }
        (Field::Old, Edit::RenameTarget { from, .. }) => Tested::new(
            "the old name",
            from,
            Test::Word,
        ),
        (Field::New, Edit::RenameTarget { to, .. }) => Tested::new("the new name", to, Test::Word),
        _ => text_of_address(edit, field),
    }
}

// The name or the target in the address of an edit that may not stand there.
fn text_of_address<A: Allocator>(edit: &Edit<A>, field: Field) -> Tested<'_> {
    text_of_named(address_of(edit), field)
}

// The name or the target in an address that may not stand there.
fn text_of_named(address: Option<Address<'_>>, field: Field) -> Tested<'_> {
    match (field, address) {
        (Field::Place, Some(Address::Rule(_, target))) => {
            Tested::new("the target in PLACE", target, Test::Word)
        }
        (Field::Place, Some(address)) => {
            Tested::new("the name in PLACE", name_in(address), Test::Name)
        }
        (_, Some(Address::Rule(_, target))) => Tested::new("the target", target, Test::Word),
        (_, Some(address)) => Tested::new("the name", name_in(address), Test::Name),
        (_, None) => Tested::new("the field", &[], Test::Line),
    }
}
