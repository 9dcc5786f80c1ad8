//! The patch of an edit of several lines of which no cause holds but perhaps that a new line is misread.
//!
//! Each line that the edit changes is exchanged for the line after the edit, which is read in the context
//! of the old one; the edit is refused if one of them does not read as it says. The lines are exchanged
//! in two turns, as those of a rename: first the lines that get no longer, then the lines that get
//! longer.
ghost use Rattle.std.specs.Prelude.{◌≡◌, ◌≤◌, ◌<◌, ◌+◌, ◌++◌, ◌∷◌, [], IfOk, length, map};
ghost use Rattle.mk_lines.specs.Limits.{max_text};
ghost use Rattle.mk_lines.specs.LogicalLines.{logical_lines};
ghost use Rattle.mk_class.specs.Classes.Class.{Recipe};
ghost use Rattle.mk_class.specs.ClassTable.{class_of};
ghost use Rattle.mk_tree.specs.LineTexts.{line_in};
ghost use Rattle.mk_tree.specs.LocatedLines.{located_line};
ghost use Rattle.mk_tree.specs.Trees.{line_view};
ghost use Rattle.mk_edit_language.specs.EachLine.{InAssignment, InRecipe};
ghost use Rattle.mk_edit_parts.specs.EachLineWalks.{each_change_view};
ghost use Rattle.mk_edit_parts.specs.LineChangePlaces.{rewrite_view};
ghost use Rattle.mk_edit.specs.EachLinePatches.{AreChangeable, IsChangeable, any_misread, each_moves, is_note_misread, is_of_turn, line_after, misread_in, turn_moves};
ghost use Rattle.mk_edit.specs.EachLineSurveys.{noted_view};
ghost use Rattle.mk_edit.specs.LineChangePlans.{AreRead};

use crate::assignment::assignment_of;
use crate::change_line::{changed_line, fits_line};
use crate::each_line_notes::Noted;
use crate::moves::builder;
use crate::rename_target_effect::Turn;
use mk_class::Meter;
use mk_edit_language::Refusal;
use mk_edit_parts::each_line::EachChange;
use mk_edit_parts::line_change::{LineRewrite, places_of};
use mk_edit_parts::recipe_change::{reads_as_stated, recipe_after};
use mk_lines::Fault;
use mk_patch::{Patch, PatchBuilder, Step};
use mk_tree::Line;
use std::alloc::Allocator;

/// The patch that changes the lines that are noted. Each of them is read once.
///
/// # Errors
///
/// [`Refusal::Misread`] if a new line does not read as the edit says. [`Refusal::NoMemory`] if a growth
/// was refused.
pub(crate) fn each_line_patch<A: Allocator + Copy>(
    alloc: A,
    notes: &[Noted<'_, A>],
    change: EachChange<'_>,
    meter: &mut Meter,
) -> Result<Patch<A>, Refusal>
    requires { AreChangeable (each_change_view change) (map noted_view notes.now) }
    ensures moves { IfOk result (λ patch.
        patch ≡ each_moves (each_change_view change.entry) (map noted_view notes.now)) }
    ensures read { AreRead (length notes.now)
        (any_misread (each_change_view change.entry) (map noted_view notes.now)) meter.old meter.new
        result }
{
    let mut patch = builder(alloc, notes.len())?;
    exchange_in_turn(alloc, notes, change, Turn::NoLonger, &mut patch, meter)?;
    exchange_in_turn(alloc, notes, change, Turn::Longer, &mut patch, meter)?;
    Ok(patch.finish())
}

// Adds the steps of a turn to a patch: the lines that are exchanged in it.
fn exchange_in_turn<A: Allocator + Copy>(
    alloc: A,
    notes: &[Noted<'_, A>],
    change: EachChange<'_>,
    turn: Turn,
    patch: &mut PatchBuilder<A>,
    meter: &mut Meter,
) -> Result<(), Refusal>
    requires can { AreChangeable (each_change_view change) (map noted_view notes.now) }
    requires room { length patch.old.moves
        + length (turn_moves turn (each_change_view change) (map noted_view notes.now))
        ≤ patch.old.room }
    ensures moves { IfOk result (λ _. patch.new ≡ record patch.old {
      moves = patch.old.moves
          ++ turn_moves turn (each_change_view change.entry) (map noted_view notes.now);
    }) }
    ensures read { AreRead
        (length (turn_moves turn (each_change_view change.entry) (map noted_view notes.now)))
        (misread_in turn (each_change_view change.entry) (map noted_view notes.now))
        meter.old meter.new result }
{
    'notes: for noted in notes {
        if is_of_turn(noted.is_longer, turn) {
            let line = line_after(alloc, noted, change, meter)?;
            patch.push(Step::Exchange(noted.place.at, line));
        }
    }
    Ok(())
}

// Whether a line that becomes longer, or does not, is exchanged in this turn.
fn is_of_turn(is_longer: bool, turn: Turn) -> bool
    ensures { result ≡ is_of_turn turn is_longer }
{
    match turn {
        Turn::NoLonger => !is_longer,
        Turn::Longer => is_longer,
    }
}

// The line that is noted, after the edit.
//
// # Errors
//
// [`Refusal::Misread`] if it does not read as the edit says. [`Refusal::NoMemory`] if a growth was
// refused.
fn line_after<A: Allocator + Copy>(
    alloc: A,
    noted: &Noted<'_, A>,
    change: EachChange<'_>,
    meter: &mut Meter,
) -> Result<Line<A>, Refusal>
    requires { IsChangeable (each_change_view change) (noted_view noted.now) }
    ensures line { IfOk result (λ line.
        line_view line ≡ line_after (each_change_view change.entry) (noted_view noted.now)) }
    ensures read { AreRead 1
        (is_note_misread (each_change_view change.entry) (noted_view noted.now)) meter.old meter.new
        result }
{
    match change {
        EachChange::InAssignment(rewrite) => assignment_after(alloc, noted, rewrite, meter),
        EachChange::InRecipe { from, to } => recipe_line_after(alloc, noted, from, to, meter),
    }
}

// The line of an assignment that is noted, after the edit.
//
// # Errors
//
// Those of [`changed_line`].
fn assignment_after<A: Allocator + Copy>(
    alloc: A,
    noted: &Noted<'_, A>,
    change: LineRewrite<'_>,
    meter: &mut Meter,
) -> Result<Line<A>, Refusal>
    requires { IsChangeable (InAssignment (rewrite_view change)) (noted_view noted.now) }
    ensures line { IfOk result (λ line.
        line_view line ≡ line_after (InAssignment (rewrite_view change.entry)) (noted_view noted.now)) }
    ensures read { AreRead 1
        (is_note_misread (InAssignment (rewrite_view change.entry)) (noted_view noted.now)) meter.old
        meter.new result }
{
    let line = noted.line;
    let assignment = assignment_of(line);
    let places = places_of(alloc, change, line, assignment);
    let Some(ranges) = places.ranges else {
        return Err(Refusal::NoMemory);
    };
    changed_line(
        alloc,
        change,
        &noted.place,
        line,
        assignment,
        &ranges,
        meter,
    )
}

// The recipe line that is noted, with a text in the place of each occurrence of another.
//
// # Errors
//
// [`Refusal::Misread`] if it is not read as the recipe line of this text. [`Refusal::NoMemory`] if a
// growth was refused.
fn recipe_line_after<A: Allocator + Copy>(
    alloc: A,
    noted: &Noted<'_, A>,
    from: &[u8],
    to: &[u8],
    meter: &mut Meter,
) -> Result<Line<A>, Refusal>
    requires { IsChangeable (InRecipe from.now to.now) (noted_view noted.now) }
    ensures line { IfOk result (λ line.
        line_view line ≡ line_after (InRecipe from.now to.now) (noted_view noted.now)) }
    ensures read { AreRead 1 (is_note_misread (InRecipe from.now to.now) (noted_view noted.now))
        meter.old meter.new result }
{
    let old = noted.line.bytes();
    let Ok(bytes) = recipe_after(alloc, old, from, to, old.len()) else {
        return Err(Refusal::NoMemory);
    };
    if !fits_line(old, &bytes) {
        return Err(Refusal::Misread);
    }
    let line = match Line::read(alloc, bytes, noted.place.context, meter) {
        Ok(line) => line,
        Err(Fault::NoMemory) => return Err(Refusal::NoMemory),
        // A line that opens one conditional too many is no recipe line.
        Err(_) => return Err(Refusal::Misread),
    };
    if reads_as_stated(old, &line) {
        Ok(line)
    } else {
        Err(Refusal::Misread)
    }
}
