//! Several lines that are moved, as one change.
ghost use Rattle.std.specs.Prelude.{◌≡◌, ◌≤◌, ◌<◌, ◌+◌, [], ◌∷◌, None, IfSome, length, option_copied, option_map, slice_get};
ghost use Rattle.mk_patch.specs.Moves.{FitInTurn, FitMoves, after_moves, held_by, taken_by};
ghost use Rattle.mk_patch.specs.StepMoves.{move_of, moves_of};

use crate::step::Step;
use circular_buffer::HeapCircularBuffer;
use mk_tree::{Doc, Draft};
use std::alloc::{Allocator, Global};
use std::marker::Model;

/// Steps to be made one after the other. Contracts see the list of their moves, with the first to
/// be made in front.
///
/// A patch holds the lines that go in, and has room for the lines that come out. So making it moves
/// lines, reads none, takes no memory and is never refused. [`PatchBuilder`](crate::PatchBuilder)
/// gathers its steps.
#[derive(Drop)]
pub struct Patch<A: Allocator = Global> {
    // The step to be made first is in front.
    pub(crate) waiting: HeapCircularBuffer<Step<A>, A>,
    // Room for the steps that take these back. It is empty except while the steps are made.
    pub(crate) inverses: HeapCircularBuffer<Step<A>, A>,
    pub(crate) held: usize,
    pub(crate) takes: usize,
}

impl<A: Allocator> Model for Patch<A> {
    ghost use Rattle.std.specs.Prelude.{◌≡◌, ◌≤◌, List, [], length};
    ghost use Rattle.mk_patch.specs.Moves.{Move, held_by, taken_by};
    ghost use Rattle.mk_patch.specs.StepMoves.{moves_of};

    ghost Value = { List Move };

    ghost view = { λ p. moves_of p.waiting.items };

    ghost invariant = { λ p.
        (p.inverses.items ≡ [])
        × (length p.waiting.items ≤ p.waiting.capacity)
        × (length p.waiting.items ≤ p.inverses.capacity)
        × (p.held ≡ held_by (moves_of p.waiting.items))
        × (p.takes ≡ taken_by (moves_of p.waiting.items)) };
}

// Puts a value in front of others. There has to be room for it.
fn put_front<T: Drop, A: Allocator>(ring: &mut HeapCircularBuffer<T, A>, value: T)
    requires { length ring.old.items < ring.old.capacity }
    ensures items { ring.new.items ≡ value ∷ ring.old.items }
    ensures room { ring.new.capacity ≡ ring.old.capacity }
{
    ring.push_front(value);
}

// Makes each step that waits, and keeps the steps that take these back, with the last in front.
fn make_all<A: Allocator>(
    waiting: &mut HeapCircularBuffer<Step<A>, A>,
    inverses: &mut HeapCircularBuffer<Step<A>, A>,
    draft: &mut Draft<A>,
)
    requires fit { FitInTurn (moves_of waiting.old.items) draft.old }
    requires empty { inverses.old.items ≡ [] }
    requires room { length waiting.old.items ≤ inverses.old.capacity }
    ensures waiting { waiting.new.items ≡ [] }
    ensures count { length inverses.new.items ≡ length waiting.old.items }
    ensures waiting_room { waiting.new.capacity ≡ waiting.old.capacity }
    ensures inverses_room { inverses.new.capacity ≡ inverses.old.capacity }
    ensures after { draft.new ≡ after_moves (moves_of waiting.old.items) draft.old }
    ensures fits_back { FitInTurn (moves_of inverses.new.items) draft.new }
    ensures leads_back { after_moves (moves_of inverses.new.items) draft.new ≡ draft.old }
    ensures held { held_by (moves_of inverses.new.items) ≡ taken_by (moves_of waiting.old.items) }
    ensures takes { taken_by (moves_of inverses.new.items) ≡ held_by (moves_of waiting.old.items) }
{
    while let Some(step) = waiting.pop_front() {
        put_front(inverses, step.make(draft));
    }
}

impl<A: Allocator> Patch<A> {
    /// How many lines it holds: the lines that it puts in count, and the new bytes of a last line.
    /// Takes no memory.
    pub fn held(&self) -> usize
        ensures { result ≡ held_by self.now }
    {
        self.held
    }

    /// How many lines come out when it is made; the old bytes of a last line count as one. Takes no
    /// memory.
    pub fn takes(&self) -> usize
        ensures { result ≡ taken_by self.now }
    {
        self.takes
    }

    /// How many steps it makes. Takes no memory.
    pub fn step_count(&self) -> usize
        ensures { result ≡ length self.now }
    {
        self.waiting.len()
    }

    /// The step with this number, from 0, in the order in which they are made. `None` if it has no
    /// more than `number` steps. Takes no memory.
    pub fn step(&self, number: usize) -> Option<&Step<A>>
        ensures { option_map move_of (option_copied result) ≡ slice_get self.now number }
    {
        self.waiting.get(number)
    }

    /// The step that it makes, if it makes just one. Takes no memory.
    pub fn only_step(&self) -> Option<&Step<A>>
        ensures only { IfSome result (λ step. self.now ≡ move_of step.now ∷ []) }
        ensures none { result ≡ None → length self.now ≡ 1 → ⊥ }
    {
        if self.waiting.len() == 1 {
            self.waiting.front()
        } else {
            None
        }
    }

    /// Makes the patch, and gives the patch that takes it back. Takes no memory and is never
    /// refused.
    ///
    /// It may move lines of conditionals: between two of its steps the conditionals need not fit.
    pub fn make(self, doc: &mut Doc<A>) -> Patch<A>
        requires { FitMoves self doc.old }
        ensures after { doc.new ≡ after_moves self doc.old }
        ensures fits_back { FitMoves result doc.new }
        ensures leads_back { after_moves result doc.new ≡ doc.old }
        ensures held { held_by result ≡ taken_by self }
        ensures takes { taken_by result ≡ held_by self }
        ensures number { length doc.new + taken_by self ≡ length doc.old + held_by self }
    {
        let Patch {
            mut waiting,
            mut inverses,
            held,
            takes,
        } = self;
        let mut draft = doc.take_draft();
        make_all(&mut waiting, &mut inverses, &mut draft);
        *doc = draft.into_doc();
        Patch {
            waiting: inverses,
            inverses: waiting,
            held: takes,
            takes: held,
        }
    }
}
