//! The sentences on edits that find nothing to do in their line: the word is there already, or what is to
//! be changed or taken out, or the word beside which another is to go, is not there.

use crate::address::{line_of_rule, name_in, word_of};
use crate::part::Part::{Count, Number, Text};
use crate::text::Notes;
use mk_edit_language::{Edit, LineChange, Refusal, ValueChange};
use mk_edit_parts::address::Address;
use mk_queries::listing::RuleLine;
use mk_tree::Doc;
use std::alloc::{AllocError, Allocator};

impl<'a, A: Allocator, B: Allocator + Copy> Notes<'a, A, B> {
    /// Puts what is there, or is not there, where an edit finds nothing to do.
    pub(crate) fn idle<'e, C: Allocator>(
        &mut self,
        edit: &'e Edit<C>,
        address: Address<'e>,
        refusal: Refusal,
    ) -> Result<(), AllocError> {
        match edit {
            Edit::SetRecipe { number, .. } | Edit::RemoveRecipe { number, .. } => {
                self.few_recipe_lines(address, *number)
            }
            // The new line may be the next after the last.
            Edit::InsertRecipe { number, .. } => {
                self.few_recipe_lines(address, number.saturating_sub(1))
            }
            Edit::SetRecipeByText { old, .. } | Edit::RemoveRecipeByText { old, .. } => {
                self.no_recipe_line(address, old)
            }
            _ => self.idle_word(edit, name_in(address), refusal),
        }
    }

    // Puts whether the word of an edit is there, in the value of a variable or among the prerequisites of a
    // target.
    fn idle_word<'e, C: Allocator>(
        &mut self,
        edit: &'e Edit<C>,
        name: &'e [u8],
        refusal: Refusal,
    ) -> Result<(), AllocError> {
        let said = match edit {
            Edit::AddWord { .. } => "@ has the word @ already",
            Edit::RemoveWord { .. } => "@ has no word @",
            Edit::SetValueIf { .. }
            | Edit::ChangeValues {
                change: ValueChange::SetIf { .. },
                ..
            } => "no assignment of @ has the value `@`",
            Edit::ChangeValues {
                change: ValueChange::Add(_),
                ..
            } => "each assignment of @ has the word @ already",
            Edit::ChangeValues { .. } => "no assignment of @ has the word @",
            Edit::ChangeLine {
                change: LineChange::Substitute { .. },
                ..
            } => "the value of @ does not have the text `@`",
            Edit::ChangeLine { .. } if matches!(refusal, Refusal::Already) => {
                "@ has the word @ already"
            }
            Edit::ChangeLine { .. } => "@ has no word @",
            Edit::AddPrereq { order: true, .. } => "@ has the order-only prerequisite @ already",
            Edit::AddPrereq { .. } => "@ depends on @ already",
            Edit::ReplacePrereq { .. } if matches!(refusal, Refusal::Already) => {
                "@ depends on @ already"
            }
            _ => "@ does not depend on @",
        };
        self.say(said, &[Text(name), Text(word_told(edit, refusal))])
    }

    // Puts how many recipe lines a rule has, which are fewer than this.
    fn few_recipe_lines(&mut self, address: Address<'_>, number: u32) -> Result<(), AllocError> {
        if number == 0 {
            return self.say("counting starts at 1", &[]);
        }
        let target = Text(name_in(address));
        let Some(line) = walked_to(self.walks, self.doc, address) else {
            let lines = Count(u64::from(number), "recipe line");
            return self.say("the rule for @ has fewer than @", &[target, lines]);
        };
        let lines = Count(line.recipe_count() as u64, "recipe line");
        self.say("the rule for @ has @", &[target, lines])?;
        match line.rule.inline_recipe() {
            Some(_) => self.say("; the recipe after `;` has no number", &[]),
            None => Ok(()),
        }
    }

    // Puts that no recipe line of a rule has this text, and which one has it once its folds are joined.
    fn no_recipe_line<'e>(
        &mut self,
        address: Address<'e>,
        old: &'e [u8],
    ) -> Result<(), AllocError> {
        let target = Text(name_in(address));
        self.say("no recipe line of @ is `@`", &[target, Text(old)])?;
        let Some(rule) = walked_to(self.walks, self.doc, address) else {
            return Ok(());
        };
        for line in rule.recipe_lines() {
            if line.text == old {
                let number = Number(u64::from(line.number));
                return self.say(
                    "; a folded line reads so: name it by its number, @",
                    &[number],
                );
            }
        }
        Ok(())
    }
}

// The word that is there already, or the word or text that is not there.
fn word_told<A: Allocator>(edit: &Edit<A>, refusal: Refusal) -> &[u8] {
    match (edit, refusal) {
        (
            Edit::ChangeLine {
                change: LineChange::InsertWord { new, .. },
                ..
            }
            | Edit::ReplacePrereq { new, .. },
            Refusal::Already,
        ) => new,
        _ => word_of(edit).unwrap_or_default(),
    }
}

// The rule of an address, if a sentence may walk to it.
fn walked_to<'r, A: Allocator>(
    walks: bool,
    doc: &'r Doc<A>,
    address: Address<'r>,
) -> Option<RuleLine<'r, A>> {
    if walks {
        line_of_rule(doc, address)
    } else {
        None
    }
}
