//! A history and a sequence of changes, each of which sets a byte of a text of four; and a patch.
ghost use Rattle.std.specs.Prelude.{◌≡◌, [], ◌∷◌, IfOk};

use mk_history::laws::{
    depth_bounds, groups_are_one_edit, groups_make_the_steps, history_makes_the_steps,
    undo_brings_back, what_is_seen_is_the_machine,
};
use mk_history::{Change, History, HistoryError, Sequence, SureChange};
use mk_lines::Fault;
use mk_patch::{Patch, PatchBuilder, Step};
use std::alloc::AllocError;
use test_support::{Case, Heap};

/// Sets a byte.
#[derive(Clone, Copy, Drop)]
struct SetByte {
    at: usize,
    byte: u8,
}

impl Change for SetByte {
    type State = [u8; 4];

    ghost use Rattle.std.specs.Prelude.{◌<◌, true, slice_set};

    ghost fits = { λ change text. change.at < 4 };

    ghost after = { λ change text. slice_set text change.at change.byte };

    ghost sure = { true };

    fn apply(self, text: &mut [u8; 4]) -> Result<SetByte, (SetByte, Fault)> {
        let byte = text[self.at];
        text[self.at] = self.byte;
        Ok(SetByte { at: self.at, byte })
    }
}

impl SureChange for SetByte {
    ghost use Rattle.std.specs.Prelude.{refl};

    ghost is_sure = { refl };
}

/// Calls each law.
pub fn laws(case: &Case<'_>) -> Result<Vec<u8>, Fault> {
    undo_brings_back::<SetByte, [u8; 4], u8>();
    groups_are_one_edit::<SetByte, [u8; 4], u8>();
    depth_bounds::<SetByte, [u8; 4], u8>();
    what_is_seen_is_the_machine::<SetByte, [u8; 4], u8>();
    history_makes_the_steps::<SetByte, SetByte, [u8; 4], u8>();
    groups_make_the_steps::<SetByte, SetByte, [u8; 4], u8>();
    Ok(Vec::from_slice(case.alloc, b"called")?)
}

/// The texts of the errors of a history.
pub fn errors(case: &Case<'_>) -> Result<Vec<u8>, Fault> {
    let (undo, redo) = (HistoryError::NothingToUndo, HistoryError::NothingToRedo);
    let memory = HistoryError::NoMemory;
    Ok(format!(in case.alloc; "{undo}, {redo}, {memory}")?.into_bytes())
}

/// The text `abcd` after a change, its undo and its redo, each with whether it can be undone and redone.
pub fn history(case: &Case<'_>) -> Result<Vec<u8>, Fault> {
    let mut history = History::new(case.heap, 2)?;
    undone_and_redone(case, &mut history)
}

#[tactic(auto, using(mk_history::proofs::on_histories::ChainLemmas::chains))]
fn undone_and_redone<'h>(
    case: &Case<'h>,
    history: &mut History<SetByte, &'h Heap>,
) -> Result<Vec<u8>, Fault>
    requires { history.old ≡ record { depth = 2; done = []; undone = [] } }
{
    let mut text = *b"abcd";
    let Ok(inverse) = (SetByte { at: 3, byte: b'z' }).apply(&mut text) else {
        unreachable!()
    };
    history.push(inverse);
    let (undo, undone) = (history.undo(&mut text), text);
    let (redo, redone) = (history.redo(&mut text), text);
    history.forget();
    let (can_undo, can_redo) = (history.can_undo(), history.can_redo());
    let shown = format!(in case.alloc;
        "{undo:?} {undone:?} {redo:?} {redone:?} {can_undo} {can_redo}"
    )?;
    Ok(shown.into_bytes())
}

/// The first byte is set twice, and the second once.
fn three_sets(heap: &Heap) -> Result<Sequence<SetByte, &Heap>, AllocError>
    ensures { IfOk result (λ s. s.changes
        ≡ record { at = 0; byte = 1 } ∷ record { at = 0; byte = 2 } ∷ record { at = 1; byte = 3 } ∷
        []) }
{
    let mut sets = Sequence::with_capacity(heap, 1)?;
    sets.push_back(SetByte { at: 0, byte: 2 });
    sets.reserve(2)?;
    sets.push_back(SetByte { at: 1, byte: 3 });
    sets.push_front(SetByte { at: 0, byte: 1 });
    Ok(sets)
}

/// Four sevens after some changes as one, and after these are taken back.
pub fn sequence(case: &Case<'_>) -> Result<Vec<u8>, Fault> {
    let mut text = [7; 4];
    let sets = three_sets(case.heap)?;
    let (length, room) = (sets.len(), sets.room() >= 3 && !sets.is_empty());
    let Ok(inverse) = sets.apply(&mut text) else {
        unreachable!()
    };
    let made = text;
    let Ok(_) = inverse.apply(&mut text) else {
        unreachable!()
    };
    Ok(format!(in case.alloc; "{length} {room} {made:?} {text:?}")?.into_bytes())
}

/// What a patch that takes out two lines tells of its steps.
pub fn patch(case: &Case<'_>) -> Result<Vec<u8>, Fault> {
    let patch = two_steps(case.heap)?;
    steps_of(case, &patch)
}

fn two_steps(heap: &Heap) -> Result<Patch<&Heap>, AllocError> {
    let mut builder = PatchBuilder::with_room(heap, 2)?;
    builder.push(Step::TakeOut(0));
    builder.push(Step::TakeOut(0));
    Ok(builder.finish())
}

fn steps_of(case: &Case<'_>, patch: &Patch<&Heap>) -> Result<Vec<u8>, Fault> {
    let (steps, held, takes) = (patch.step_count(), patch.held(), patch.takes());
    let second = matches!(patch.step(1), Some(Step::TakeOut(0)));
    let only = patch.only_step().is_some();
    Ok(format!(in case.alloc; "{steps} {held} {takes} {second} {only}")?.into_bytes())
}
