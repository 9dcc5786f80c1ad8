//! What an edit asks for, in the words of a script.

use crate::address::{meant_by, name_in, number_of, word_of};
use crate::each_line::word_of_each;
use crate::part::Part::{Number, Text, Words};
use crate::text::Notes;
use crate::whole_lines::first_line;
use mk_edit_language::{Edit, LineChange, Place, Side, Site, ValueChange};
use std::alloc::{AllocError, Allocator};

impl<'a, A: Allocator, B: Allocator + Copy> Notes<'a, A, B> {
    /// Puts the command of an edit with the fields that say what it is about, such as `nth 2 set CC` and
    /// `recipe-set all 3`. What it would write is left out.
    pub(crate) fn asked<C: Allocator>(&mut self, edit: &Edit<C>) -> Result<(), AllocError> {
        if let Some(nth) = number_of(edit) {
            self.say("nth @ ", &[Number(u64::from(nth))])?;
        }
        self.say(command_word(edit), &[])?;
        match edit {
            Edit::AddAssign { place, name, .. } => self.asked_at(place, name),
            Edit::AddRule { place, targets, .. } => self.asked_at(place, targets),
            Edit::ExchangeLines { site, .. } => self.asked_of_site(site),
            _ => self.asked_of_line(edit),
        }
    }

    // Puts the place of a new line, and its name or its targets.
    fn asked_at<'p, C: Allocator>(
        &mut self,
        place: &'p Place<C>,
        new: &'p [u8],
    ) -> Result<(), AllocError> {
        self.place_fields(place)?;
        self.fields(&[new])
    }

    // Puts the fields of a place.
    fn place_fields<C: Allocator>(&mut self, place: &Place<C>) -> Result<(), AllocError> {
        let (word, about) = match place {
            Place::Top => return self.fields(&[b"top"]),
            Place::Bottom => return self.fields(&[b"bottom"]),
            Place::BeforeVar { name, .. } => ("before-var", name.as_slice()),
            Place::AfterVar { name, .. } => ("after-var", name.as_slice()),
            Place::AfterLastVar { name } => ("after-last-var", name.as_slice()),
            Place::BeforeRule { target, .. } => ("before-rule", target.as_slice()),
            Place::AfterRule { target, .. } => ("after-rule", target.as_slice()),
        };
        self.fields(&[word.as_bytes(), about])
    }

    // Puts the fields of the site of whole lines; of lines that are sought, the first.
    fn asked_of_site<C: Allocator>(&mut self, site: &Site<C>) -> Result<(), AllocError> {
        match site {
            Site::AtPlace(place) => self.place_fields(place),
            Site::BeforeLines { old, .. } => self.fields(&[b"before-line", first_line(old)]),
            Site::AfterLines { old, .. } => self.fields(&[b"after-line", first_line(old)]),
            Site::OfLines { old, .. } => self.fields(&[first_line(old)]),
            Site::OfRule { target, .. } => self.fields(&[target]),
        }
    }

    // Puts the name or the target of the lines that an edit means, and the words, the text or the number of a
    // recipe line that it is about.
    fn asked_of_line<C: Allocator>(&mut self, edit: &Edit<C>) -> Result<(), AllocError> {
        if let Some(address) = meant_by(edit) {
            self.fields(&[name_in(address)])?;
        }
        if let Some(word) = word_of(edit) {
            self.fields(&[word])?;
        }
        match edit {
            Edit::ChangeLine {
                change: LineChange::InsertWord { new, .. },
                ..
            }
            | Edit::ReplacePrereq { new, .. } => self.fields(&[new]),
            Edit::SetRecipe { number, .. }
            | Edit::RemoveRecipe { number, .. }
            | Edit::InsertRecipe { number, .. } => self.say(" @", &[Number(u64::from(*number))]),
            _ => Ok(()),
        }
    }

    // Puts fields, each behind a blank, and between quotes if it is empty or has a blank.
    fn fields(&mut self, fields: &[&[u8]]) -> Result<(), AllocError> {
        for field in fields {
            let quote = Words(if is_bare(field) { "" } else { "\"" });
            self.say(" @@@", &[quote, Text(field), quote])?;
        }
        Ok(())
    }
}

// The command of an edit, with the `all` before it.
fn command_word<A: Allocator>(edit: &Edit<A>) -> &'static str {
    match edit {
        Edit::SetValue { .. } => "set",
        Edit::SetValueIf { .. } => "set-if",
        Edit::AppendValue { .. } => "append",
        Edit::AddWord { .. } => "add",
        Edit::RemoveWord { .. } => "drop",
        Edit::ChangeValues { change, .. } => match change {
            ValueChange::Set(_) => "all set",
            ValueChange::SetIf { .. } => "all set-if",
            ValueChange::Append(_) => "all append",
            ValueChange::Add(_) => "all add",
            ValueChange::Remove(_) => "all drop",
        },
        Edit::ChangeLine { change, .. } => line_change_word(change),
        Edit::AddAssign { .. } => "assign",
        Edit::RemoveAssign { .. } => "unset",
        Edit::CommentOut { .. } => "comment-out",
        Edit::Uncomment { .. } => "uncomment",
        Edit::AddRule { .. } => "rule",
        Edit::RemoveRule { .. } => "unrule",
        Edit::AddPrereq { order: true, .. } => "depend-order",
        Edit::AddPrereq { .. } => "depend",
        Edit::RemovePrereq { .. } => "undepend",
        Edit::ReplacePrereq { .. } => "depend-replace",
        Edit::AddRecipe { .. } => "recipe",
        Edit::SetRecipe { .. } => "recipe-set",
        Edit::RemoveRecipe { .. } => "recipe-del",
        Edit::InsertRecipe { .. } => "recipe-insert",
        Edit::SetRecipeByText { .. } => "recipe-replace",
        Edit::RemoveRecipeByText { .. } => "recipe-remove",
        Edit::RenameTarget { .. } => "rename",
        Edit::ExchangeLines { site, block } => match (site, block) {
            (Site::OfLines { .. }, Some(_)) => "line-replace",
            (Site::OfLines { .. }, None) => "line-remove",
            (Site::OfRule { .. }, Some(_)) => "rule-replace",
            (Site::OfRule { .. }, None) => "rule-remove",
            _ => "insert",
        },
        Edit::EachLine(each) => word_of_each(each),
    }
}

// The command of an edit that changes the line of an assignment.
fn line_change_word<A: Allocator>(change: &LineChange<A>) -> &'static str {
    match change {
        LineChange::Prepend(_) => "prepend",
        LineChange::ReplaceWord { .. } => "replace",
        LineChange::InsertWord { side, .. } => match side {
            Side::Before => "add-before",
            Side::After => "add-after",
        },
        LineChange::Substitute { .. } => "subst",
        LineChange::SetOperator(_) => "operator",
    }
}

// Whether a script may have a field without quotes.
fn is_bare(field: &[u8]) -> bool {
    !field.is_empty() && !field.iter().any(|byte| matches!(*byte, b' ' | b'\t'))
}
