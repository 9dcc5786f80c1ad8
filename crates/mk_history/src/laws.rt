//! Laws that hold for every list of calls, each as the contract of a function that does nothing.
//!
//! A session is a text with a history. It is opened on a text and changed by edits, undos, redos
//! and groups of edits. The definitions of `specs/` give the session machine: the first text, the
//! edits that stand, the edits that were undone, and what each call answers. They also give what is
//! seen of the machine: its text, the texts back and forward, and the text at the beginning of an
//! open group. `E` are the edits, `T` the texts, `R` the causes for which an edit is refused, and
//! `act` says what an edit makes of a text.
//!
//! `proofs/on_histories` has lemmas for the laws that the prover does not find by itself:
//! `MachineLemmas`, `ShownLemmas` and `HistoryLemmas`. The crates above cite these lemmas too.
ghost use Rattle.std.specs.Prelude.{Result};
ghost use Rattle.mk_history.specs.Claims.{UndoesAll, RedoesUndo, Accepts, Cancels, Ends, Stands, StaysWithin, IsSeen, Follows, FollowsOpened, EditSteps, UndoSteps, RedoSteps, BeginSteps, GroupEditSteps, EndSteps, EmptyEndSteps, CancelSteps, GroupRefuses};

use crate::change::Change;

/// While every edit that stands can be undone, as many undos as edits or groups stand bring back
/// the first text. A redo after an undo gives back what was before the undo. The text is the first
/// text after the edits that stand, in the order in which they were made.
pub fn undo_brings_back<E, T, R>()
    ensures all { (act : E → T → Result T R) → UndoesAll act }
    ensures redo { (act : E → T → Result T R) → RedoesUndo act }
    ensures stands { (act : E → T → Result T R) → Stands act }
{}

/// An accepted edit leads to the text that it makes, inside a group and outside; a group that is
/// cancelled leaves the text of its beginning; and the end of a group leaves the text.
pub fn groups_are_one_edit<E, T, R>()
    ensures accepted { (act : E → T → Result T R) → Accepts act }
    ensures cancelled { (act : E → T → Result T R) → Cancels act }
    ensures ended { (act : E → T → Result T R) → Ends act }
{}

/// After any calls, the edits or groups that can be undone and redone are at most as many as the
/// depth.
pub fn depth_bounds<E, T, R>()
    ensures { (act : E → T → Result T R) → StaysWithin act }
{}

/// Over any calls, each of which may find no memory, what is seen is what the machine shows. What
/// is seen of a call's answer follows from what was seen before the call. So anything that shows a
/// machine at first and makes these steps shows the machine after the same calls with the same
/// replies.
pub fn what_is_seen_is_the_machine<E, T, R>()
    ensures call { (act : E → T → Result T R) → IsSeen act }
    ensures calls { (act : E → T → Result T R) → Follows act }
    ensures opened { (act : E → T → Result T R) → FollowsOpened act }
{}

/// A state with its [`History`](crate::History) makes the steps of what is seen: an edit makes one
/// if its inverse is pushed, and an undo and a redo make one by their contracts.
pub fn history_makes_the_steps<C: Change, E, T, R>()
    ensures edit { (text : C.State → T) (act : E → T → Result T R) →
        EditSteps C.fits C.after text act }
    ensures undo { (text : C.State → T) (act : E → T → Result T R) →
        UndoSteps C.fits C.after text act }
    ensures redo { (text : C.State → T) (act : E → T → Result T R) →
        RedoSteps C.fits C.after text act }
{}

/// Groups make the steps too. A group that is begun is an empty [`Sequence`](crate::Sequence),
/// which gets the inverse of each edit in front. It is pushed at the end of the group, or made if
/// the group is cancelled. Edits of a group drop what could be redone.
pub fn groups_make_the_steps<C: Change, E, T, R>()
    ensures edit { (text : C.State → T) (act : E → T → Result T R) →
        GroupEditSteps C.after text act }
    ensures begin { (text : C.State → T) (act : E → T → Result T R) →
        BeginSteps C.after text act }
    ensures end { (text : C.State → T) (act : E → T → Result T R) →
        EndSteps C.after text act }
    ensures empty_end { (text : C.State → T) (act : E → T → Result T R) →
        EmptyEndSteps C.after text act }
    ensures cancel { (text : C.State → T) (act : E → T → Result T R) →
        CancelSteps C.after text act }
    ensures refused { (text : C.State → T) (act : E → T → Result T R) →
        GroupRefuses C.after text act }
{}
