//! Several edits as one: all of them, or none.
//!
//! The call does not stand on `begin` and `cancel`: the first edit of an open group drops what can
//! be redone, and a cancel does not bring that back.
ghost use Rattle.std.specs.Prelude.{◌≡◌, ◌≤◌, ◌+◌, ◌<◌, Ok, IfOk, IfErr, OnOk, OnErr, length, map};
ghost use Rattle.mk_tree.specs.Counting.{AreCounted};
ghost use Rattle.mk_tree.specs.Documents.{IsFaithful};
ghost use Rattle.mk_tree.specs.LocatedLines.{located_text};
ghost use Rattle.mk_edit_language.specs.Costs.{cost};
ghost use Rattle.mk_edit_language.specs.EditViews.{edit_of};
ghost use Rattle.mk_edit.specs.Planned.{IsRefusal};
ghost use Rattle.mk_history.specs.Stacks.{FitInTurn};
ghost use Rattle.mk_patch.specs.Moves.{FitMoves, after_moves};
ghost use Rattle.mk_session.specs.Groups.{AreMade, IsGroupRefusal, IsRefusedInTurn, costs_in_turn};
ghost use Rattle.mk_session.specs.InTurn.{answers, as_group};
ghost use Rattle.mk_session.specs.StoredSessions.{after_patches};

use super::{Session, planned};
use mk_class::Meter;
use mk_edit::{Edit, Refusal};
use mk_history::{Change, Sequence};
use mk_index::{IndexedDoc, IndexedPatch};
use std::alloc::Allocator;

impl<A: Allocator + Copy> Session<A> {
    /// Makes edits as one: all of them, or none. They are a group that begins, makes the edits in
    /// their order and ends, so one undo takes them back together. No edits are no step: nothing
    /// changes then, and what can be redone stays.
    ///
    /// The edits read as many lines as they cost in turn.
    ///
    /// # Errors
    ///
    /// The index of an edit among `edits`, from 0, with the reason. All that is shown is then as it
    /// was before the call: the text, and also what can be undone and redone.
    ///
    /// - Index 0 and [`Refusal::GroupOpen`] if a group is open already, also for no edits.
    /// - The first edit that is refused, with its first [`Refusal`] whose cause holds, as
    ///   [`Session::apply`] tells it.
    /// - An edit and [`Refusal::NoMemory`] if a growth was refused and no edit up to this one has a
    ///   cause, but perhaps this one [`Refusal::Misread`], or [`Refusal::Leans`] of whole lines.
    pub fn group(&mut self, edits: &[Edit<A>]) -> Result<(), (usize, Refusal)>
        ensures done { OnOk result
            (answers (as_group (map edit_of edits.now)) self.old.shown ≡ Ok self.new.shown) }
        ensures refused { IfErr result (λ refused.
            IsGroupRefusal (map edit_of edits.now) self.old.shown refused.0 refused.1) }
        ensures same { OnErr result (self.new.shown ≡ self.old.shown) }
        ensures counted { OnOk result (AreCounted self.old.rereads
            (costs_in_turn (map edit_of edits.now) self.old.shown.text) self.new.rereads) }
        ensures few_read { self.new.rereads
            ≤ self.old.rereads + costs_in_turn (map edit_of edits.now) self.old.shown.text }
        ensures forward { self.old.rereads ≤ self.new.rereads }
    {
        if self.has_open_group() {
            return Err((0, Refusal::GroupOpen));
        }
        if edits.is_empty() {
            return Ok(());
        }
        let back = match make_all(self.alloc, &mut self.doc, edits, &mut self.meter) {
            Ok(back) => back,
            Err(refused) => return Err(refused),
        };
        self.history.push(back);
        Ok(())
    }
}

// Makes edits of a document in turn, and gives what takes them all back. If one is refused, those
// before it are taken back, and its index is told.
pub(super) fn make_all<A: Allocator + Copy>(
    alloc: A,
    doc: &mut IndexedDoc<A>,
    edits: &[Edit<A>],
    meter: &mut Meter,
) -> Result<Sequence<IndexedPatch<A>, A>, (usize, Refusal)>
    requires faithful { IsFaithful doc.old }
    requires some { 0 < length edits.now }
    ensures made { IfOk result (λ back. AreMade (map edit_of edits.now) doc.old doc.new back) }
    ensures refused { IfErr result (λ refused.
        IsRefusedInTurn (map edit_of edits.now) (located_text doc.old) refused.0 refused.1) }
    ensures same { OnErr result (doc.new ≡ doc.old) }
    ensures counted { OnOk result (AreCounted meter.old
        (costs_in_turn (map edit_of edits.now) (located_text doc.old)) meter.new) }
    ensures few_read { meter.new
        ≤ meter.old + costs_in_turn (map edit_of edits.now) (located_text doc.old) }
    ensures forward { meter.old ≤ meter.new }
{
    let Ok(mut back) = Sequence::with_capacity(alloc, edits.len()) else {
        return Err((0, refusal_without_room(alloc, doc, &edits[0], meter)));
    };
    for edit in edits {
        match planned(alloc, doc, edit, meter) {
            Ok(patch) => back.push_front(doc.make_planned(patch)),
            Err(refusal) => {
                let index = back.len();
                take_back(back, doc);
                return Err((index, refusal));
            }
        }
    }
    Ok(back)
}

// Why an edit is not made for which there is no room: for its cause, if it has one (of Misread, and of
// Leans of whole lines, it may tell NoMemory).
fn refusal_without_room<A: Allocator + Copy>(
    alloc: A,
    doc: &mut IndexedDoc<A>,
    edit: &Edit<A>,
    meter: &mut Meter,
) -> Refusal
    requires faithful { IsFaithful doc.old }
    ensures refused { IsRefusal (located_text doc.old) (edit_of edit.now) result }
    ensures same { doc.new ≡ doc.old }
    ensures few_read { meter.new ≤ meter.old + cost (located_text doc.old) (edit_of edit.now) }
    ensures forward { meter.old ≤ meter.new }
{
    match planned(alloc, doc, edit, meter) {
        Ok(_) => Refusal::NoMemory,
        Err(refusal) => refusal,
    }
}

// Takes edits of a document back.
pub(super) fn take_back<A: Allocator + Copy>(
    back: Sequence<IndexedPatch<A>, A>,
    doc: &mut IndexedDoc<A>,
)
    requires { FitInTurn FitMoves after_moves back doc.old }
    ensures { doc.new ≡ after_patches back doc.old }
{
    let Ok(_) = back.apply(doc) else {
        unreachable!()
    };
}
