//! One line that is moved.
ghost use Rattle.std.specs.Prelude.{◌≡◌};
ghost use Rattle.mk_patch.specs.Moves.{FitsMove, after_move, held_by_move, taken_by_move};
ghost use Rattle.mk_patch.specs.StepMoves.{move_of};

use mk_lines::source::MAX_TEXT;
use mk_tree::{Draft, Line, LineBytes};
use std::alloc::{Allocator, Global};

/// One line that is moved, or the line end of the last line. Contracts see it as a move
/// (`move_of`).
///
/// Indices are those in the document when the step is made, from 0. A step that is made becomes the
/// step that takes it back: the line goes from the one into the other, so no memory is taken.
#[derive(Drop)]
pub enum Step<A: Allocator = Global> {
    /// Puts a line before the line at an index, or at the end.
    PutIn(usize, Line<A>),
    /// Takes out the line at an index.
    TakeOut(usize),
    /// Puts a line in the place of the one at an index.
    Exchange(usize, Line<A>),
    /// Puts other bytes in the place of the last line's bytes: the same text, perhaps with another
    /// line end.
    SwapEnd(LineBytes<A>),
}

impl<A: Allocator> Step<A> {
    /// How many lines it holds: 1 for a line that goes in, and for the last line's new bytes;
    /// otherwise 0. Takes no memory.
    pub fn holds(&self) -> usize
        ensures { result ≡ held_by_move (move_of self.now) }
    {
        match self {
            Step::TakeOut(_) => 0,
            _ => 1,
        }
    }

    /// How many lines come out when it is made: 1 for a line that comes out, and for the last
    /// line's old bytes; otherwise 0. Takes no memory.
    pub fn takes(&self) -> usize
        ensures { result ≡ taken_by_move (move_of self.now) }
    {
        match self {
            Step::PutIn(..) => 0,
            _ => 1,
        }
    }

    /// Makes the step, and gives the step that takes it back. Takes no memory and is never refused.
    ///
    /// Lines of conditionals may go in and come out too, since a draft does not ask that the
    /// conditionals fit.
    pub fn make(self, draft: &mut Draft<A>) -> Step<A>
        requires { FitsMove (move_of self) draft.old }
        ensures after { draft.new ≡ after_move (move_of self) draft.old }
        ensures fits_back { FitsMove (move_of result) draft.new }
        ensures leads_back { after_move (move_of result) draft.new ≡ draft.old }
        ensures held { held_by_move (move_of result) ≡ taken_by_move (move_of self) }
        ensures takes { taken_by_move (move_of result) ≡ held_by_move (move_of self) }
    {
        prove!(draft.size() <= MAX_TEXT); // so that the inverse fits
        match self {
            Step::PutIn(at, line) => {
                draft.insert(at, line);
                Step::TakeOut(at)
            }
            Step::TakeOut(at) => {
                let out = draft.remove(at);
                Step::PutIn(at, out)
            }
            Step::Exchange(at, line) => {
                let old = draft.replace(at, line);
                Step::Exchange(at, old)
            }
            Step::SwapEnd(bytes) => {
                let old = draft.swap_end(bytes);
                Step::SwapEnd(old)
            }
        }
    }
}
