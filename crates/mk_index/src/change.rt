//! A patch is a change of an indexed document that is never refused.
ghost use Rattle.std.specs.Prelude.{◌≡◌, ◌+◌, IfOk, IsOk, length};
ghost use Rattle.mk_patch.specs.Moves.{FitMoves, after_moves, held_by, taken_by};

use crate::document::IndexedDoc;
use mk_history::{Change, SureChange};
use mk_lines::Fault;
use mk_patch::Patch;
use std::alloc::{Allocator, Global};
use std::marker::Model;

/// A patch as a change of a document with its index. Contracts see the list of the patch's moves.
#[derive(Drop)]
pub struct IndexedPatch<A: Allocator = Global> {
    pub(crate) patch: Patch<A>,
}

impl<A: Allocator> Model for IndexedPatch<A> {
    ghost use Rattle.std.specs.Prelude.{List};
    ghost use Rattle.mk_patch.specs.Moves.{Move};

    ghost Value = { List Move };

    ghost view = { λ p. p.patch };
}

/// A patch fits the documents that its moves fit, and leads where they lead.
impl<A: Allocator + Copy> Change for IndexedPatch<A> {
    type State = IndexedDoc<A>;

    ghost use Rattle.std.specs.Prelude.{true};
    ghost use Rattle.mk_patch.specs.Moves.{FitMoves, after_moves};

    ghost fits = { FitMoves };

    ghost after = { after_moves };

    ghost sure = { true };

    /// Makes the patch, as [`IndexedDoc::make`] does, and gives the patch that takes it back. What goes
    /// in by the one comes out by the other. Never refused. Takes no memory.
    fn apply(self, state: &mut IndexedDoc<A>) -> Result<IndexedPatch<A>, (IndexedPatch<A>, Fault)>
        requires { FitMoves self state.old }
        ensures after { IfOk result (λ inverse. state.new ≡ after_moves self state.old) }
        ensures fits_back { IfOk result (λ inverse. FitMoves inverse state.new) }
        ensures leads_back { IfOk result (λ inverse. after_moves inverse state.new ≡ state.old) }
        ensures held { IfOk result (λ inverse. held_by inverse ≡ taken_by self) }
        ensures takes { IfOk result (λ inverse. taken_by inverse ≡ held_by self) }
        ensures number { length state.new + taken_by self ≡ length state.old + held_by self }
        ensures sure { IsOk result }
    {
        Ok(state.make(self.patch))
    }
}

impl<A: Allocator + Copy> SureChange for IndexedPatch<A> {
    ghost use Rattle.std.specs.Prelude.{refl};

    ghost is_sure = { refl };
}
