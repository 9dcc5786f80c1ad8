//! Several changes, one after the other, as one.
ghost use Rattle.std.specs.Prelude.{◌≡◌, ◌≤◌, ◌<◌, ◌+◌, ◌-◌, ◌*◌, ◌^◌, ◌==◌, ◌++◌, [], ◌∷◌, length, min, IfOk, IsOk, OnOk, OnErr};
ghost use Rattle.mk_history.specs.Chain.{IsChain, after_all};

use crate::change::{Change, SureChange};
use circular_buffer::HeapCircularBuffer;
use mk_lines::Fault;
use std::alloc::{AllocError, Allocator, Global};
use std::marker::Model;

/// Changes to be made one after the other, as one change.
/// Each of them is sure, so the whole is sure: no change is refused after another was made. The
/// sequence has room for the changes that take them back, so making it takes no memory. The
/// sequence that takes the whole back has the inverses in the reverse order.
#[derive(Drop)]
pub struct Sequence<C, A: Allocator = Global> {
    // The change to be made first is in front.
    waiting: HeapCircularBuffer<C, A>,
    // It is empty except while the changes are made.
    taken: HeapCircularBuffer<C, A>,
}

impl<C, A: Allocator> Model for Sequence<C, A> {
    ghost use Rattle.std.specs.Prelude.{◌≡◌, ◌≤◌, [], length, min};
    ghost use Rattle.mk_history.specs.Stacks.{Several};

    ghost Value = { Several C };

    ghost view = { λ s.
        record { changes = s.waiting.items; room = min s.waiting.capacity s.taken.capacity } };

    ghost invariant = { λ s.
        (s.taken.items ≡ [])
        × (length s.waiting.items ≤ s.waiting.capacity)
        × (length s.waiting.items ≤ s.taken.capacity) };
}

// Makes each change that waits, and keeps the changes that take these back, with the last in front.
fn make_all<C: SureChange + Drop, A: Allocator>(
    waiting: &mut HeapCircularBuffer<C, A>,
    taken: &mut HeapCircularBuffer<C, A>,
    state: &mut C::State,
)
    requires chain { IsChain C.fits C.after waiting.old.items state.old }
    requires taken { taken.old.items ≡ [] }
    requires room { length waiting.old.items ≤ taken.old.capacity }
    ensures waiting { waiting.new.items ≡ [] }
    ensures count { length taken.new.items ≡ length waiting.old.items }
    ensures waiting_room { waiting.new.capacity ≡ waiting.old.capacity }
    ensures taken_room { taken.new.capacity ≡ taken.old.capacity }
    ensures after { state.new ≡ after_all C.after waiting.old.items state.old }
    ensures fits_back { IsChain C.fits C.after taken.new.items state.new }
    ensures leads_back { after_all C.after taken.new.items state.new ≡ state.old }
{
    while let Some(change) = waiting.pop_front() {
        let Ok(inverse) = change.apply(state) else {
            unreachable!()
        };
        taken.push_front(inverse);
    }
}

// Gives a ring this room, where it has less.
fn widen<T, A: Allocator + Clone>(
    ring: &mut HeapCircularBuffer<T, A>,
    room: usize,
) -> Result<(), AllocError>
    requires { length ring.old.items ≤ ring.old.capacity }
    ensures items { ring.new.items ≡ ring.old.items }
    ensures room { OnOk result (room ≤ ring.new.capacity) }
    ensures kept { ring.old.capacity ≤ ring.new.capacity }
{
    if ring.capacity() < room {
        ring.resize(room)?;
    }
    Ok(())
}

impl<C: SureChange + Drop, A: Allocator> Sequence<C, A> {
    /// No change, with room for `room` changes.
    ///
    /// # Errors
    ///
    /// [`AllocError`] if there is no memory for this room.
    pub fn with_capacity(alloc: A, room: usize) -> Result<Sequence<C, A>, AllocError>
    where
        A: Copy,
        ensures { IfOk result (λ s. s ≡ record { changes = []; room = room }) }
    {
        let waiting = HeapCircularBuffer::with_capacity(alloc, room)?;
        let taken = HeapCircularBuffer::with_capacity(alloc, room)?;
        Ok(Sequence { waiting, taken })
    }

    /// How many changes it has. Takes no memory.
    pub fn len(&self) -> usize
        ensures { result ≡ length self.now.changes }
    {
        self.waiting.len()
    }

    /// Whether it has no change. Takes no memory.
    pub fn is_empty(&self) -> bool
        ensures { result ≡ (length self.now.changes == 0) }
    {
        self.waiting.is_empty()
    }

    /// How many changes it has room for. Takes no memory.
    pub fn room(&self) -> usize
        ensures { result ≡ self.now.room }
    {
        self.waiting.capacity().min(self.taken.capacity())
    }

    /// Makes room for `additional` changes more than the sequence has.
    ///
    /// If there is room already, the call takes no memory and is not refused. Otherwise the room is
    /// at least doubled, so that many small growths take little time together.
    ///
    /// # Errors
    ///
    /// [`AllocError`] if there is no memory for this room. The changes are as they were.
    pub fn reserve(&mut self, additional: usize) -> Result<(), AllocError>
    where
        A: Clone,
        ensures room { OnOk result (length self.old.changes + additional ≤ self.new.room) }
        ensures changes { self.new.changes ≡ self.old.changes }
        ensures kept { self.old.room ≤ self.new.room }
        ensures enough { length self.old.changes + additional ≤ self.old.room → IsOk result }
        ensures same { length self.old.changes + additional ≤ self.old.room → self.new ≡ self.old }
        ensures doubled { OnOk result (self.old.room < length self.old.changes + additional →
            min (2 * self.old.room) (2 ^ 64 - 1) ≤ self.new.room) }
    {
        if additional <= self.room() - self.len() {
            return Ok(());
        }
        let Some(wanted) = self.len().checked_add(additional) else {
            return Err(AllocError);
        };
        let room = wanted.max(self.room().saturating_mul(2));
        widen(&mut self.taken, room)?;
        widen(&mut self.waiting, room)
    }

    /// Puts a change before the others. There has to be room for it. Takes no memory.
    pub fn push_front(&mut self, change: C)
        requires { length self.old.changes < self.old.room }
        ensures { self.new ≡ record self.old { changes = change ∷ self.old.changes } }
    {
        self.waiting.push_front(change);
    }

    /// Puts a change after the others. There has to be room for it. Takes no memory.
    pub fn push_back(&mut self, change: C)
        requires { length self.old.changes < self.old.room }
        ensures { self.new ≡ record self.old { changes = self.old.changes ++ change ∷ [] } }
    {
        self.waiting.push_back(change);
    }
}

impl<C: SureChange + Drop, A: Allocator> Change for Sequence<C, A> {
    type State = C::State;

    ghost use Rattle.std.specs.Prelude.{true};
    ghost use Rattle.mk_history.specs.Stacks.{FitInTurn, after_in_turn};

    ghost fits = { FitInTurn C.fits C.after };

    ghost after = { after_in_turn C.after };

    ghost sure = { true };

    fn apply(self, state: &mut C::State) -> Result<Sequence<C, A>, (Sequence<C, A>, Fault)> {
        let Sequence {
            mut waiting,
            mut taken,
        } = self;
        make_all(&mut waiting, &mut taken, state);
        Ok(Sequence {
            waiting: taken,
            taken: waiting,
        })
    }
}

impl<C: SureChange + Drop, A: Allocator> SureChange for Sequence<C, A> {
    ghost use Rattle.std.specs.Prelude.{refl};

    ghost is_sure = { refl };
}
