//! Whether several edits can be made as one.
//!
//! The edits are made and taken back: each is an edit of the text to which those before it lead, so
//! there is no shorter way to know.
ghost use Rattle.std.specs.Prelude.{◌≡◌, ◌≤◌, ◌+◌, true, IfErr, OnOk, is_ok, map};
ghost use Rattle.mk_tree.specs.Counting.{AreCounted};
ghost use Rattle.mk_edit_language.specs.EditViews.{edit_of};
ghost use Rattle.mk_session.specs.Groups.{IsGroupRefusal, costs_in_turn};
ghost use Rattle.mk_session.specs.InTurn.{answers, as_group};

use super::Session;
use super::group::{make_all, take_back};
use mk_edit::{Edit, Refusal};
use std::alloc::Allocator;

impl<A: Allocator + Copy> Session<A> {
    /// Tells whether edits can be made as one, and makes none of them: it answers what
    /// [`Session::group`] would answer now. All that is shown stays as it is, also what can be redone.
    ///
    /// The edits read as many lines as they cost in turn.
    ///
    /// # Errors
    ///
    /// Those of [`Session::group`].
    pub fn dry_run(&mut self, edits: &[Edit<A>]) -> Result<(), (usize, Refusal)>
        ensures granted { OnOk result
            (is_ok (answers (as_group (map edit_of edits.now)) self.old.shown) ≡ true) }
        ensures forward { self.old.rereads ≤ self.new.rereads }
        ensures few_read { self.new.rereads
            ≤ self.old.rereads + costs_in_turn (map edit_of edits.now) self.old.shown.text }
        ensures counted { OnOk result (AreCounted self.old.rereads
            (costs_in_turn (map edit_of edits.now) self.old.shown.text) self.new.rereads) }
        ensures same { self.new.shown ≡ self.old.shown }
        ensures refused { IfErr result (λ refused.
            IsGroupRefusal (map edit_of edits.now) self.old.shown refused.0 refused.1) }
    {
        if self.has_open_group() {
            return Err((0, Refusal::GroupOpen));
        }
        if edits.is_empty() {
            return Ok(());
        }
        let back = match make_all(self.alloc, &mut self.doc, edits, &mut self.meter) {
            Ok(back) => back,
            Err(refused) => return Err(refused),
        };
        take_back(back, &mut self.doc);
        Ok(())
    }
}
