//! A makefile that is edited.
//!
//! Undoing a group passes through documents of which nothing is known but that the moves fit. So
//! the invariant speaks of the documents to which undoing and redoing lead, one for each member of
//! the history. A call that finds no memory is one that the session machine grants: want of memory
//! never stands in place of a refusal.
ghost use Rattle.std.specs.Prelude.{◌≡◌, ◌≤◌, ◌+◌, ◌↔◌, Ok, Err, IfOk, IfErr, IsOkUnless, OnOk, OnErr, length, is_ok, is_some, nat_lt, Some, None};
ghost use Rattle.mk_lines.specs.Limits.{max_text};
ghost use Rattle.mk_tree.specs.Counting.{AreCounted};
ghost use Rattle.mk_tree.specs.Documents.{IsFaithful, IsFaithfulTo, IsTooDeep};
ghost use Rattle.mk_tree.specs.LocatedLines.{located_text};
ghost use Rattle.mk_edit_language.specs.Costs.{cost};
ghost use Rattle.mk_edit_language.specs.EditViews.{edit_of};
ghost use Rattle.mk_edit.specs.Planned.{Plans};
ghost use Rattle.mk_history.specs.Machine.{Apply, Undo, Redo, Begin, End, Cancel};
ghost use Rattle.mk_history.specs.Machine as machine;
ghost use Rattle.mk_session.specs.Sessions.{IsBadDepth, IsBeginRefusal, IsEditRefusal, IsOpeningFault, IsRefusedBy, answer, seen_opened};

mod dry_run;
mod edits;
mod finding;
mod group;
mod shown;

use mk_class::Meter;
use mk_edit::{Edit, Refusal, plan_with};
use mk_history::history::is_bad_depth;
use mk_history::{Change, History, Sequence};
use mk_index::{Expected, Finder, IndexedDoc, IndexedPatch};
use mk_lines::Fault;
use mk_lines::source::MAX_TEXT;
use mk_patch::Patch;
use mk_tree::Doc;
use std::alloc::{Allocator, Global};
use std::marker::Model;

/// A makefile that is edited, with what can be undone and redone, and a group of edits where one is
/// open.
///
/// Contracts see it as the session machine shows itself: the text; the texts that undoing and
/// redoing lead through; the text at the beginning of an open group and the number of the group's
/// edits; and how many lines were read since the session was opened. Each call is one step of that
/// machine.
///
/// An edit that is kept for undo holds the lines that it changed, and no other lines. A line of the
/// text that was opened is a part of that text and keeps it whole. So this text stays in memory as
/// long as the session, also where edits have replaced its lines. A refused call changes nothing.
#[derive(Drop)]
pub struct Session<A: Allocator = Global> {
    alloc: A,
    doc: IndexedDoc<A>,
    history: History<Sequence<IndexedPatch<A>, A>, A>,
    group: Option<Sequence<IndexedPatch<A>, A>>,
    // Counts the lines that were read since the session was opened.
    meter: Meter,
}

impl<A: Allocator> Model for Session<A> {
    ghost use Rattle.mk_session.specs.Sessions.{Seen};
    ghost use Rattle.mk_session.specs.StoredSessions.{IsStored, shown_stored};

    ghost Value = { Seen };

    ghost view = { λ s.
        record { shown = shown_stored s.history s.group s.doc; rereads = s.meter } };

    ghost invariant = { λ s. IsStored s.history s.group s.doc };
}

impl<A: Allocator + Copy> Session<A> {
    /// Opens a text. Up to `depth` edits or groups can be undone.
    ///
    /// # Errors
    ///
    /// The first of these that holds:
    ///
    /// - [`Fault::BadDepth`] if the depth is not from 1 to 10,000.
    /// - [`Fault::TooLong`] if the text has more than 16,777,216 bytes.
    /// - [`Fault::TooDeep`] if more than 256 conditionals are open at once.
    /// - [`Fault::NoMemory`] if a growth was refused. It can hide a text that is too deep, since
    ///   lines are read to see that.
    pub fn open(alloc: A, text: &[u8], depth: u32) -> Result<Session<A>, Fault>
        ensures opened { IfOk result (λ s. s ≡ seen_opened depth text.now) }
        ensures bad_depth { (result ≡ Err Fault.BadDepth) ↔ IsBadDepth depth }
        ensures short { IfOk result (λ _. length text.now ≤ max_text) }
        ensures shallow { IfOk result (λ _. IsTooDeep text.now → ⊥) }
        ensures fault { IfErr result (λ fault. IsOpeningFault depth text.now fault) }
    {
        if is_bad_depth(depth) {
            return Err(Fault::BadDepth);
        }
        if text.len() > MAX_TEXT {
            return Err(Fault::TooLong);
        }
        Session::open_vec(alloc, Vec::from_slice(alloc, text)?, depth)
    }

    /// Opens a text, as [`Session::open`] does. The session keeps the text that it is given, and no
    /// line is copied.
    ///
    /// # Errors
    ///
    /// The errors of [`Session::open`].
    pub fn open_vec(alloc: A, text: Vec<u8, A>, depth: u32) -> Result<Session<A>, Fault>
        ensures opened { IfOk result (λ s. s ≡ seen_opened depth text.items) }
        ensures bad_depth { (result ≡ Err Fault.BadDepth) ↔ IsBadDepth depth }
        ensures short { IfOk result (λ _. length text.items ≤ max_text) }
        ensures shallow { IfOk result (λ _. IsTooDeep text.items → ⊥) }
        ensures fault { IfErr result (λ fault. IsOpeningFault depth text.items fault) }
    {
        if is_bad_depth(depth) {
            return Err(Fault::BadDepth); // before any line is read
        }
        let mut meter = Meter::new();
        let (doc, end) = Doc::parse_with_end(alloc, text, &mut meter)?;
        let finder = Finder::over(&doc, end);
        Session::over(alloc, IndexedDoc::new(doc, finder), depth)
    }

    // A session on a document, with nothing to undo or redo, and with no line read.
    fn over(alloc: A, doc: IndexedDoc<A>, depth: u32) -> Result<Session<A>, Fault>
        requires good { IsBadDepth depth → ⊥ }
        requires faithful { IsFaithful doc }
        ensures opened { IfOk result (λ s. s ≡ seen_opened depth (located_text doc)) }
        ensures fault { IsOkUnless result Fault.NoMemory }
    {
        Ok(Session {
            alloc,
            doc,
            history: History::new(alloc, depth)?,
            group: None,
            meter: Meter::new(),
        })
    }

    /// Tells the session that many edits are to come, and whether renames and others are among them.
    /// Nothing that is shown changes. In a document of 1,024 lines or more the next edit of a variable or
    /// a rule, or the next rename, then makes an index, which otherwise the second one would make. The
    /// index has targets, for renames also prerequisites, and for others also variables; one that has
    /// not all of these is dropped. The call reads no line and takes no memory.
    pub fn expect_edits(&mut self, expected: Expected)
        ensures same { self.new.shown ≡ self.old.shown }
        ensures none_read { self.new.rereads ≡ self.old.rereads }
    {
        self.doc.expect_edits(expected);
    }

    /// Makes an edit. It can be undone next: alone, or, if a group is open, together with the
    /// group's other edits. Nothing can be redone any more. The edit reads exactly as many lines as
    /// it costs.
    ///
    /// # Errors
    ///
    /// The first [`Refusal`] of the edit whose cause holds (one of the first fifteen, or
    /// [`Refusal::Misread`]). [`Refusal::NoMemory`] if a growth was refused and no cause holds, but
    /// perhaps one that needs the new lines: `Misread`, and, of whole lines, [`Refusal::Leans`]. An
    /// open group stays open.
    pub fn apply(&mut self, edit: &Edit<A>) -> Result<(), Refusal>
        ensures done { OnOk result
            (answer (Apply (edit_of edit.now)) self.old.shown ≡ Ok self.new.shown) }
        ensures refused { IfErr result (λ refusal.
            IsEditRefusal (edit_of edit.now) self.old.shown refusal) }
        ensures same { OnErr result (self.new.shown ≡ self.old.shown) }
        ensures counted { OnOk result (AreCounted self.old.rereads
            (cost self.old.shown.text (edit_of edit.now)) self.new.rereads) }
        ensures few_read { self.new.rereads
            ≤ self.old.rereads + cost self.old.shown.text (edit_of edit.now) }
        ensures forward { self.old.rereads ≤ self.new.rereads }
    {
        let patch = match planned(self.alloc, &mut self.doc, edit, &mut self.meter) {
            Ok(patch) => patch,
            Err(refusal) => return Err(refusal),
        };
        match self.group.take() {
            Some(mut group) => {
                if group.reserve(1).is_err() {
                    self.group = Some(group);
                    return Err(Refusal::NoMemory);
                }
                group.push_front(self.doc.make_planned(patch));
                self.group = Some(group);
                self.history.forget();
            }
            None => {
                let Ok(mut member) = Sequence::with_capacity(self.alloc, 1) else {
                    return Err(Refusal::NoMemory);
                };
                member.push_front(self.doc.make_planned(patch));
                self.history.push(member);
            }
        }
        Ok(())
    }

    /// Takes back the last edit or group that stands. It can be redone next. It reads no line and
    /// takes no memory.
    ///
    /// # Errors
    ///
    /// - [`Refusal::GroupOpen`] if a group is open.
    /// - [`Refusal::NothingToUndo`] if there is nothing to undo, or nothing within the depth.
    pub fn undo(&mut self) -> Result<(), Refusal>
        ensures done { OnOk result (answer Undo self.old.shown ≡ Ok self.new.shown) }
        ensures refused { IfErr result (λ refusal.
            IsRefusedBy (answer Undo self.old.shown) refusal) }
        ensures same { OnErr result (self.new.shown ≡ self.old.shown) }
        ensures none_read { self.new.rereads ≡ self.old.rereads }
    {
        if self.has_open_group() {
            return Err(Refusal::GroupOpen);
        }
        match self.history.undo(&mut self.doc) {
            Ok(()) => Ok(()),
            Err(_) => Err(Refusal::NothingToUndo),
        }
    }

    /// Makes the edit or group again that was undone last and not redone since then. It can be
    /// undone next. It reads no line and takes no memory.
    ///
    /// # Errors
    ///
    /// - [`Refusal::GroupOpen`] if a group is open.
    /// - [`Refusal::NothingToRedo`] if there is nothing to redo.
    pub fn redo(&mut self) -> Result<(), Refusal>
        ensures done { OnOk result (answer Redo self.old.shown ≡ Ok self.new.shown) }
        ensures refused { IfErr result (λ refusal.
            IsRefusedBy (answer Redo self.old.shown) refusal) }
        ensures same { OnErr result (self.new.shown ≡ self.old.shown) }
        ensures none_read { self.new.rereads ≡ self.old.rereads }
    {
        if self.has_open_group() {
            return Err(Refusal::GroupOpen);
        }
        match self.history.redo(&mut self.doc) {
            Ok(()) => Ok(()),
            Err(_) => Err(Refusal::NothingToRedo),
        }
    }

    /// Begins a group: the edits up to its end count as one. It reads no line.
    ///
    /// # Errors
    ///
    /// - [`Refusal::GroupOpen`] if a group is open already.
    /// - [`Refusal::NoMemory`] if a growth was refused.
    pub fn begin(&mut self) -> Result<(), Refusal>
        ensures done { OnOk result (answer Begin self.old.shown ≡ Ok self.new.shown) }
        ensures refused { IfErr result (λ refusal.
            IsBeginRefusal (answer Begin self.old.shown) refusal) }
        ensures same { OnErr result (self.new.shown ≡ self.old.shown) }
        ensures none_read { self.new.rereads ≡ self.old.rereads }
    {
        if self.has_open_group() {
            return Err(Refusal::GroupOpen);
        }
        let Ok(group) = Sequence::with_capacity(self.alloc, 1) else {
            return Err(Refusal::NoMemory);
        };
        self.group = Some(group);
        Ok(())
    }

    /// Ends the group, and answers whether it has edits. From now on they count as one; a group
    /// without edits leaves nothing to undo, so an undo after it takes back what was made before. It
    /// reads no line and takes no memory.
    ///
    /// # Errors
    ///
    /// [`Refusal::NoGroup`] if no group is open.
    pub fn end(&mut self) -> Result<bool, Refusal>
        ensures has_edits { IfOk result (λ has_edits. has_edits ≡ nat_lt 0 self.old.shown.pending) }
        ensures done { OnOk result (answer End self.old.shown ≡ Ok self.new.shown) }
        ensures refused { IfErr result (λ refusal.
            IsRefusedBy (answer End self.old.shown) refusal) }
        ensures same { OnErr result (self.new.shown ≡ self.old.shown) }
        ensures none_read { self.new.rereads ≡ self.old.rereads }
    {
        let Some(group) = self.group.take() else {
            return Err(Refusal::NoGroup);
        };
        if !group.is_empty() {
            self.history.push(group);
            Ok(true)
        } else {
            Ok(false)
        }
    }

    /// Takes back the edits of the group and ends the group. These edits have dropped what could be
    /// redone, and it does not come back. It reads no line and takes no memory.
    ///
    /// # Errors
    ///
    /// [`Refusal::NoGroup`] if no group is open.
    pub fn cancel(&mut self) -> Result<(), Refusal>
        ensures done { OnOk result (answer Cancel self.old.shown ≡ Ok self.new.shown) }
        ensures refused { IfErr result (λ refusal.
            IsRefusedBy (answer Cancel self.old.shown) refusal) }
        ensures same { OnErr result (self.new.shown ≡ self.old.shown) }
        ensures none_read { self.new.rereads ≡ self.old.rereads }
    {
        let Some(group) = self.group.take() else {
            return Err(Refusal::NoGroup);
        };
        let Ok(_) = group.apply(&mut self.doc) else {
            unreachable!()
        };
        Ok(())
    }
}

impl<A: Allocator> Session<A> {
    /// The document: the lines that the text has when it is parsed anew. What
    /// [`Doc::write_to`] writes of it is the text. Takes no memory.
    pub fn doc(&self) -> &Doc<A>
        ensures text { IsFaithfulTo result.now self.now.shown.text }
        ensures own { IsFaithful result.now }
        ensures bytes { located_text result.now ≡ self.now.shown.text }
    {
        self.doc.doc()
    }

    /// Whether [`Session::undo`] would take something back now. Takes no memory.
    pub fn can_undo(&self) -> bool
        ensures { result ≡ is_ok (answer Undo self.now.shown) }
    {
        !self.has_open_group() && self.history.can_undo()
    }

    /// Whether [`Session::redo`] would make something again now. Takes no memory.
    pub fn can_redo(&self) -> bool
        ensures { result ≡ is_ok (answer Redo self.now.shown) }
    {
        !self.has_open_group() && self.history.can_redo()
    }

    /// Whether a group is open. Nothing can be undone or redone until the group ends. Takes no
    /// memory.
    pub fn has_open_group(&self) -> bool
        ensures { result ≡ is_some self.now.shown.begun }
    {
        self.group.is_some()
    }

    /// How many lines were read since the session was opened. An undo or a redo reads none, and an
    /// edit as many as it costs, or at most as many if it is refused. The count stays once it is the
    /// greatest `u64`. Takes no memory.
    pub fn rereads(&self) -> u64
        ensures { result ≡ self.now.rereads }
    {
        self.meter.count()
    }
}

// Plans an edit of a document with what is known of it.
fn planned<A: Allocator + Copy>(
    alloc: A,
    doc: &mut IndexedDoc<A>,
    edit: &Edit<A>,
    meter: &mut Meter,
) -> Result<Patch<A>, Refusal>
    requires faithful { IsFaithful doc.old }
    ensures plans { Plans (edit_of edit.now) doc.old meter.old meter.new result }
    ensures same { doc.new ≡ doc.old }
{
    let known = doc.known(alloc, edit);
    plan_with(alloc, doc.doc(), edit, &known, meter)
}
