//! What is said of edits of several lines that are checked by reading.

use crate::part::Part::{Makefile, Text};
use crate::text::Notes;
use mk_edit_language::{EachEdit, LineChange};
use std::alloc::{AllocError, Allocator};

/// The command of such an edit, with the `all` before it.
pub(crate) fn word_of_each<A: Allocator>(each: &EachEdit<A>) -> &'static str {
    match each {
        EachEdit::ChangeEach { change, .. } => match change {
            LineChange::Prepend(_) => "all prepend",
            LineChange::ReplaceWord { .. } => "all replace",
            LineChange::Substitute { .. } => "all subst",
            LineChange::SetOperator(_) => "all operator",
            // No command says it.
            LineChange::InsertWord { .. } => "all",
        },
        EachEdit::SubstValues { .. } => "values-subst",
        EachEdit::SubstRecipe { .. } => "recipe-subst",
        EachEdit::SubstRecipes { .. } => "recipes-subst",
    }
}

impl<'a, A: Allocator, B: Allocator + Copy> Notes<'a, A, B> {
    /// Puts what none of the lines has that such an edit means.
    pub(crate) fn absent_in_each<C: Allocator>(
        &mut self,
        each: &EachEdit<C>,
    ) -> Result<(), AllocError> {
        match each {
            EachEdit::ChangeEach {
                name,
                change: LineChange::Substitute { from, .. },
            } => self.say(
                "no assignment of @ has the text `@`",
                &[Text(name), Text(from)],
            ),
            EachEdit::ChangeEach { name, change } => {
                let word = match change {
                    LineChange::ReplaceWord { word, .. } => word.as_slice(),
                    _ => &[],
                };
                self.say(
                    "no assignment of @ has the word @",
                    &[Text(name), Text(word)],
                )
            }
            EachEdit::SubstValues { from, .. } => {
                self.say("no value in @ has the text `@`", &[Makefile, Text(from)])
            }
            EachEdit::SubstRecipe { target, from, .. } => self.say(
                "no recipe line of @ has the text `@`",
                &[Text(target), Text(from)],
            ),
            EachEdit::SubstRecipes { from, .. } => self.say(
                "no recipe line in @ has the text `@`",
                &[Makefile, Text(from)],
            ),
        }
    }
}
