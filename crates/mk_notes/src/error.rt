//! The line on a refusal.

use crate::part::Part::{Makefile, Number, Words};
use crate::text::Notes;
use mk_edit_language::{Detail, Edit, Refusal};
use mk_queries::Object;
use std::alloc::{AllocError, Allocator};

impl<'a, A: Allocator, B: Allocator + Copy> Notes<'a, A, B> {
    /// Puts the line on a refusal: where the command stands, what it asks for, what is so, and the refusal as
    /// reports name it.
    pub(crate) fn error<C: Allocator>(
        &mut self,
        edit: Option<&Edit<C>>,
        refusal: Refusal,
    ) -> Result<(), AllocError> {
        if self.names.is_json {
            return self.error_object(edit, refusal);
        }
        self.script_line()?;
        self.say(": error: ", &[])?;
        match edit {
            Some(edit) => {
                self.asked(edit)?;
                self.say(": ", &[])?;
                self.sentence(edit, refusal)?;
            }
            None => self.plain_sentence(refusal)?,
        }
        self.named(refusal)
    }

    // Puts the object on a refusal, with the same parts.
    fn error_object<C: Allocator>(
        &mut self,
        edit: Option<&Edit<C>>,
        refusal: Refusal,
    ) -> Result<(), AllocError> {
        let mut object = self.object("refusal", true)?;
        put_refusal(&mut object, refusal)?;
        match edit {
            Some(edit) => self.explain(&mut object, edit, refusal)?,
            None => self.plain_sentence(refusal)?,
        }
        self.end(object)
    }

    // Puts what an edit asks for into an object, and says what is so.
    fn explain<C: Allocator>(
        &mut self,
        object: &mut Object<B>,
        edit: &Edit<C>,
        refusal: Refusal,
    ) -> Result<(), AllocError> {
        self.asked(edit)?;
        self.member(object, "command")?;
        self.sentence(edit, refusal)
    }

    // Puts a refusal as reports name it, at the end of its line.
    fn named(&mut self, refusal: Refusal) -> Result<(), AllocError> {
        let number = u64::from(refusal.number());
        self.say(" [@ @", &[Number(number), Words(refusal.name())])?;
        match refusal.detail() {
            Detail::Count(count) => self.say(" @", &[Number(count)])?,
            Detail::Field(field) => self.say(" @", &[Words(field.name())])?,
            Detail::Nothing => {}
        }
        self.say("]\n", &[])
    }

    /// Puts what is so, where a refusal says it by itself.
    pub(crate) fn plain_sentence(&mut self, refusal: Refusal) -> Result<(), AllocError> {
        let said = match refusal {
            Refusal::OpenDefine => "@ ends inside a define",
            Refusal::TooLong => "@ would have more than 16,777,216 bytes",
            Refusal::Leans => {
                "a line below begins with the recipe prefix and could be read differently"
            }
            Refusal::NothingToUndo => "undo: no edit is left to undo",
            Refusal::NothingToRedo => "redo: no undone edit is left to redo",
            Refusal::GroupOpen => "a group is open: end or cancel it first",
            Refusal::NoGroup => "no group is open to end or cancel",
            _ => "there is no memory",
        };
        self.say(said, &[Makefile])
    }
}

// Puts a refusal into an object, as reports name it.
fn put_refusal<B: Allocator + Copy>(
    object: &mut Object<B>,
    refusal: Refusal,
) -> Result<(), AllocError> {
    object.number("number", usize::from(refusal.number()))?;
    object.string("name", refusal.name())?;
    match refusal.detail() {
        Detail::Count(count) => object.number("detail", count as usize),
        Detail::Field(field) => object.string("detail", field.name()),
        Detail::Nothing => Ok(()),
    }
}
