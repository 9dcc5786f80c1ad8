//! A call of a session as a value, and the session that does it.
//!
//! The clause `stated` says what a call does in bytes and lines alone, so that a reader has few
//! definitions to believe. A law could not be as short: it would name the answers of calls, and so
//! all definitions of edits.
ghost use Rattle.std.specs.Prelude.{is_ok};
ghost use Rattle.mk_edit_language.specs.CommandViews.{command_of};
ghost use Rattle.mk_session.specs.Calls.{IsAnswered};
ghost use Rattle.mk_session.specs.Statement.{IsCall};

use crate::session::Session;
use mk_edit::Refusal;
pub use mk_edit_language::Command;
use std::alloc::Allocator;

impl<A: Allocator + Copy> Session<A> {
    /// Does what a command says.
    ///
    /// # Errors
    ///
    /// The errors of the call that the command stands for.
    pub fn execute(&mut self, command: &Command<A>) -> Result<(), Refusal>
        ensures answered { IsAnswered (command_of command.now) result self.old self.new }
        ensures stated { IsCall command.now (is_ok result) self.old.shown self.new.shown }
    {
        match command {
            Command::Apply(edit) => self.apply(edit),
            Command::Undo => self.undo(),
            Command::Redo => self.redo(),
            Command::Begin => self.begin(),
            Command::End => match self.end() {
                Ok(_) => Ok(()),
                Err(refusal) => Err(refusal),
            },
            Command::Cancel => self.cancel(),
        }
    }
}
