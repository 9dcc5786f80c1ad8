//! Laws that hold for a session over any list of calls, each as the contract of a function that
//! does nothing.
//!
//! They are about what is seen of a session, and about calls with their replies, as the contracts
//! of [`Session`](crate::Session)'s calls say. The last ones are for callers: they take the clauses
//! `done` of a few calls, and say what the text is then.
ghost use Rattle.std.specs.Prelude.{Bool, List, ℕ};
ghost use Rattle.mk_edit_language.specs.declared.command.Command.{Command};
ghost use Rattle.mk_session.specs.CallerLaws.{AGroupCanBeUndone, AnEditCanBeUndone, BeginOpensAGroup, CancelShowsTheBeginning, CancelTakesBackAllEdits, EditsKeepTheirOtherLines, EditsReplaceTheirSpans, EditsStayInTheirGroup, NoEditsAreNoStep, RedoMakesAgain, UndoTakesBackAGroup, UndoTakesBackAllEdits, UndoTakesBackARedo, UndoTakesBackAnEdit};
ghost use Rattle.mk_session.specs.SessionLaws.{GrantedEditsAreMade, OtherCallsChangeNothing, ReplaysWhatStands, UndoingAllGivesTheFirstText};
ghost use Rattle.mk_session.specs.Statement.{AreTakenBack};

use std::alloc::Allocator;

/// After any calls, a session shows what the session machine shows: its bytes are those of the text
/// that was opened, with the edits that stand replayed over it. The session has read at most as
/// many lines again as the calls cost.
pub fn standing_edits_are_replayed()
    ensures { ReplaysWhatStands }
{}

/// After any calls, if all edits that stand are within the depth and no group is open, undoing all
/// edits and groups that stand gives back the text that was opened.
pub fn undoing_all_gives_the_first_text()
    ensures { UndoingAllGivesTheFirstText }
{}

/// An edit that is granted changes the reading by exactly its stated change, and changes no byte
/// outside its spans. A call that is not granted changes nothing.
pub fn edits_are_made_or_nothing_changes()
    ensures made { GrantedEditsAreMade }
    ensures kept { OtherCallsChangeNothing }
{}

/// For a program that says what an edit makes of the text: an edit that is made has spans, and the text
/// is the text before with these replaced, so that the laws of `mk_edit_language::laws` speak of it. An
/// edit of one place, which is any but a rename, an edit of several lines and an edit of whole lines,
/// leaves the lines above and below its place, bytes and classes; a last line without a line end gets
/// one where a new line follows it.
pub fn edits_leave_the_rest()
    ensures spans { EditsReplaceTheirSpans }
    ensures lines { EditsKeepTheirOtherLines }
{}

/// For a program that tries an edit and takes it back: after an edit outside a group, an undo shows
/// the text before the edit. The undo is granted, unless the depth is 0, which no session has that
/// was opened.
pub fn undo_takes_back_an_edit()
    ensures text { UndoTakesBackAnEdit }
    ensures granted { AnEditCanBeUndone }
{}

/// An undo and a redo take each other back: the second of them is granted, and what is seen is what
/// was seen before the first.
pub fn undo_and_redo_take_each_other_back()
    ensures redo { RedoMakesAgain }
    ensures undo { UndoTakesBackARedo }
{}

/// For a program that makes the calls of a group one by one, in a loop too: a group that has begun
/// at a text stays open over each edit. Its cancel shows that text, and so does an undo right after
/// its end, if it has edits.
pub fn groups_lead_back()
    ensures begun { BeginOpensAGroup }
    ensures stays { EditsStayInTheirGroup }
    ensures cancelled { CancelShowsTheBeginning }
    ensures undone { UndoTakesBackAGroup }
{}

/// The same of the calls of a group together, which [`Session::group`](crate::Session::group) makes
/// in one: a cancel shows the text before the group, and so does one undo after a group that has
/// edits. The undo is granted, unless the depth is 0. A group without edits changes nothing that an
/// undo or a redo leads to.
pub fn groups_are_taken_back()
    ensures cancelled { CancelTakesBackAllEdits }
    ensures undone { UndoTakesBackAllEdits }
    ensures granted { AGroupCanBeUndone }
    ensures empty { NoEditsAreNoStep }
{}

/// Calls, each of which does what the clause `stated` of [`execute`](crate::Session::execute) says,
/// are taken back by undos: after calls of which no more were done than the depth, outside a group,
/// as many undos as calls were done give back the bytes of the text that was opened.
///
/// It stands on bytes, lines and what a session shows alone: docs/BELIEVED.md has all its
/// definitions.
pub fn calls_are_taken_back<A: Allocator>()
    ensures { (depth : ℕ) (text : List ℕ) (calls : List (Command A × Bool)) →
        AreTakenBack depth text calls }
{}
