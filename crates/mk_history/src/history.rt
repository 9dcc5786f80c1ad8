//! What can be undone and redone, up to a depth.
ghost use Rattle.std.specs.Prelude.{◌≡◌, ◌<◌, ◌⊎◌, ◌↔◌, true, false, [], ◌∷◌, length, take, IfOk, OnOk, OnErr, IfErr, IsOk, IsTrue, Err};
ghost use Rattle.mk_history.specs.Chain.{IsChain, Moves};
ghost use Rattle.mk_history.specs.Stacks.{IsBadDepth};

use crate::change::Change;
use circular_buffer::HeapCircularBuffer;
use mk_lines::Fault;
use std::alloc::{Allocator, Global};
use std::marker::Model;
use thiserror::Error;

/// The greatest depth of a history. This project's profile.
pub const MAX_DEPTH: u32 = 10_000;

/// Whether no history has this depth: it is not from 1 to 10,000 ([`MAX_DEPTH`]).
pub fn is_bad_depth(depth: u32) -> bool
    ensures { IsTrue result ↔ IsBadDepth depth }
{
    depth < 1 || depth > MAX_DEPTH
}

/// Why nothing was undone or redone. Nothing was changed.
#[derive(Clone, Copy, Debug, PartialEq, Eq, Error)]
pub enum HistoryError {
    /// There is no change to undo, or none within the depth.
    #[error("nothing to undo")]
    NothingToUndo,
    /// There is no change to redo.
    #[error("nothing to redo")]
    NothingToRedo,
    /// The change found no memory.
    #[error("no memory")]
    NoMemory,
}

/// The changes that can be undone and the changes that can be redone, with the nearest of each list
/// first.
///
/// At most a certain number of them, the depth, are kept. A change in either list is the inverse of
/// a change that was made: undoing makes a change, and puts its inverse first in the list of
/// changes that can be redone; redoing does the same the other way round.
#[derive(Drop)]
pub struct History<C, A: Allocator = Global> {
    done: HeapCircularBuffer<C, A>,
    undone: HeapCircularBuffer<C, A>,
}

impl<C, A: Allocator> Model for History<C, A> {
    ghost use Rattle.std.specs.Prelude.{◌≡◌, ◌+◌, ◌≤◌, length};
    ghost use Rattle.mk_history.specs.Stacks.{Stacks};

    ghost Value = { Stacks C };

    ghost view = { λ h.
        record { depth = h.done.capacity; done = h.done.items; undone = h.undone.items } };

    // Together they are at most as many as the depth, so only a new change can drop one.
    ghost invariant = { λ h.
        (h.undone.capacity ≡ h.done.capacity)
        × (length h.done.items + length h.undone.items ≤ h.done.capacity) };
}

impl<C, A: Allocator> History<C, A> {
    /// Whether there is a change to undo, within the depth. Takes no memory.
    pub fn can_undo(&self) -> bool
        ensures { (result ≡ false) ↔ (self.now.done ≡ []) }
    {
        !self.done.is_empty()
    }

    /// Whether there is a change to redo. Takes no memory.
    pub fn can_redo(&self) -> bool
        ensures { (result ≡ false) ↔ (self.now.undone ≡ []) }
    {
        !self.undone.is_empty()
    }
}

impl<C: Change + Drop, A: Allocator> History<C, A> {
    /// A history of this depth, in which nothing can be undone or redone.
    ///
    /// # Errors
    ///
    /// - [`Fault::BadDepth`] if the depth is not from 1 to 10,000 ([`is_bad_depth`]).
    /// - [`Fault::NoMemory`] if there is no room for `depth` changes.
    pub fn new(alloc: A, depth: u32) -> Result<History<C, A>, Fault>
    where
        A: Copy,
        ensures empty { IfOk result (λ h. h ≡ record { depth = depth; done = []; undone = [] }) }
        ensures bad_depth { (result ≡ Err Fault.BadDepth) ↔ IsBadDepth depth }
        ensures fault { IfErr result (λ e. (e ≡ Fault.BadDepth) ⊎ (e ≡ Fault.NoMemory)) }
    {
        if is_bad_depth(depth) {
            return Err(Fault::BadDepth);
        }
        let room = depth as usize;
        let done = HeapCircularBuffer::with_capacity(alloc, room)?;
        let undone = HeapCircularBuffer::with_capacity(alloc, room)?;
        Ok(History { done, undone })
    }

    /// Keeps the inverse of a change that was made. It can be undone next.
    ///
    /// If there are then more changes than the depth, the oldest is dropped. Nothing can be redone
    /// any more. Takes no memory.
    pub fn push(&mut self, inverse: C)
        ensures { self.new ≡
            record self.old { done = take self.old.depth (inverse ∷ self.old.done); undone = [] } }
    {
        self.forget();
        self.done.push_front(inverse);
    }

    /// Drops all changes that can be redone, and leaves those that can be undone. Takes no memory.
    pub fn forget(&mut self)
        ensures { self.new ≡ record self.old { undone = [] } }
    {
        self.undone.clear();
    }

    /// Undoes the newest change that can be undone. It can be redone next.
    ///
    /// # Errors
    ///
    /// - [`HistoryError::NothingToUndo`] if no change can be undone.
    /// - [`HistoryError::NoMemory`] if the change was refused; it stays the next to be undone. A
    ///   change of a type that is `sure` is never refused.
    pub fn undo(&mut self, state: &mut C::State) -> Result<(), HistoryError>
        requires done { IsChain C.fits C.after self.old.done state.old }
        requires undone { IsChain C.fits C.after self.old.undone state.old }
        ensures step { OnOk result (Moves C.fits C.after
            self.old.done self.old.undone state.old self.new.done self.new.undone state.new) }
        ensures done { IsChain C.fits C.after self.new.done state.new }
        ensures undone { IsChain C.fits C.after self.new.undone state.new }
        ensures depth { self.new.depth ≡ self.old.depth }
        ensures nothing { (result ≡ Err HistoryError.NothingToUndo) ↔ (self.old.done ≡ []) }
        ensures error { IfErr result (λ e.
            (e ≡ HistoryError.NothingToUndo) ⊎ (e ≡ HistoryError.NoMemory)) }
        ensures same { OnErr result ((self.new ≡ self.old) × (state.new ≡ state.old)) }
        ensures sure { C.sure ≡ true → 0 < length self.old.done → IsOk result }
    {
        let Some(change) = self.done.pop_front() else {
            return Err(HistoryError::NothingToUndo);
        };
        match change.apply(state) {
            Ok(inverse) => {
                self.undone.push_front(inverse);
                Ok(())
            }
            Err((change, _)) => {
                self.done.push_front(change);
                Err(HistoryError::NoMemory)
            }
        }
    }

    /// Makes the change again that was undone last and not redone since then. It can be undone
    /// next.
    ///
    /// # Errors
    ///
    /// - [`HistoryError::NothingToRedo`] if no change can be redone.
    /// - [`HistoryError::NoMemory`] if the change was refused; it stays the next to be redone. A
    ///   change of a type that is `sure` is never refused.
    pub fn redo(&mut self, state: &mut C::State) -> Result<(), HistoryError>
        requires done { IsChain C.fits C.after self.old.done state.old }
        requires undone { IsChain C.fits C.after self.old.undone state.old }
        ensures step { OnOk result (Moves C.fits C.after
            self.old.undone self.old.done state.old self.new.undone self.new.done state.new) }
        ensures done { IsChain C.fits C.after self.new.done state.new }
        ensures undone { IsChain C.fits C.after self.new.undone state.new }
        ensures depth { self.new.depth ≡ self.old.depth }
        ensures nothing { (result ≡ Err HistoryError.NothingToRedo) ↔ (self.old.undone ≡ []) }
        ensures error { IfErr result (λ e.
            (e ≡ HistoryError.NothingToRedo) ⊎ (e ≡ HistoryError.NoMemory)) }
        ensures same { OnErr result ((self.new ≡ self.old) × (state.new ≡ state.old)) }
        ensures sure { C.sure ≡ true → 0 < length self.old.undone → IsOk result }
    {
        let Some(change) = self.undone.pop_front() else {
            return Err(HistoryError::NothingToRedo);
        };
        match change.apply(state) {
            Ok(inverse) => {
                self.done.push_front(inverse);
                Ok(())
            }
            Err((change, _)) => {
                self.undone.push_front(change);
                Err(HistoryError::NoMemory)
            }
        }
    }
}
