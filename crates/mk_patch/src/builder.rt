//! A patch whose steps are being gathered.
ghost use Rattle.std.specs.Prelude.{◌≡◌, ◌<◌, ◌++◌, [], ◌∷◌, length, IfOk};
ghost use Rattle.mk_patch.specs.StepMoves.{move_of};

use crate::patch::Patch;
use crate::step::Step;
use circular_buffer::HeapCircularBuffer;
use std::alloc::{AllocError, Allocator, Global};
use std::marker::Model;

/// A patch whose steps are being gathered. Contracts see the list of their moves, with the first to
/// be made in front, and how many steps there may be.
///
/// It is told beforehand how many steps there may be, and takes all memory that the patch ever
/// needs at once.
#[derive(Drop)]
pub struct PatchBuilder<A: Allocator = Global> {
    // The step to be made first is in front.
    waiting: HeapCircularBuffer<Step<A>, A>,
    // Empty, and with the same room.
    inverses: HeapCircularBuffer<Step<A>, A>,
    room: usize,
    held: usize,
    takes: usize,
}

impl<A: Allocator> Model for PatchBuilder<A> {
    ghost use Rattle.std.specs.Prelude.{◌≡◌, ◌≤◌, [], length};
    ghost use Rattle.mk_patch.specs.Moves.{MovesWithRoom, held_by, taken_by};
    ghost use Rattle.mk_patch.specs.StepMoves.{moves_of};

    ghost Value = { MovesWithRoom };

    ghost view = { λ b. record { moves = moves_of b.waiting.items; room = b.room } };

    ghost invariant = { λ b.
        (b.inverses.items ≡ [])
        × (length b.waiting.items ≤ b.room)
        × (b.waiting.capacity ≡ b.room)
        × (b.inverses.capacity ≡ b.room)
        × (b.held ≡ held_by (moves_of b.waiting.items))
        × (b.takes ≡ taken_by (moves_of b.waiting.items)) };
}

impl<A: Allocator> PatchBuilder<A> {
    /// No step, with room for `room` steps.
    ///
    /// # Errors
    ///
    /// [`AllocError`] if there is no memory for `room` steps and for the steps that take them back.
    pub fn with_room(alloc: A, room: usize) -> Result<PatchBuilder<A>, AllocError>
    where
        A: Copy,
        ensures { IfOk result (λ b. b ≡ record { moves = []; room = room }) }
    {
        let waiting = HeapCircularBuffer::with_capacity(alloc, room)?;
        let inverses = HeapCircularBuffer::with_capacity(alloc, room)?;
        Ok(PatchBuilder {
            waiting,
            inverses,
            room,
            held: 0,
            takes: 0,
        })
    }

    /// Adds a step, which is made after the steps that were added before it. There has to be room
    /// for it. Takes no memory.
    #[tactic(auto, using(crate::proofs::on_moves::MoveLemmas::few))]
    pub fn push(&mut self, step: Step<A>)
        requires { length self.old.moves < self.old.room }
        ensures { self.new ≡ record self.old { moves = self.old.moves ++ move_of step ∷ [] } }
    {
        self.held += step.holds();
        self.takes += step.takes();
        self.waiting.push_back(step);
    }

    /// The patch of the steps, in their order. Takes no memory.
    pub fn finish(self) -> Patch<A>
        ensures { result ≡ self.moves }
    {
        Patch {
            waiting: self.waiting,
            inverses: self.inverses,
            held: self.held,
            takes: self.takes,
        }
    }
}
