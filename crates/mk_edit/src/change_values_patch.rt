//! The patch of a change of values whose causes are decided.
//!
//! Each line that the change changes is exchanged for the line after the change. One line may get
//! shorter and another longer, and the text has to stay within its limit after each step. So the
//! lines are exchanged in two turns, as those of a rename: first the lines that get no longer, then
//! the lines that get longer.
ghost use Rattle.std.specs.Prelude.{◌≡◌, ◌≤◌, ◌+◌, ◌++◌, IfOk, if◌then◌else◌, Some, None, length, map, option_map};
ghost use Rattle.mk_tree.specs.Trees.{line_view};
ghost use Rattle.mk_edit_parts.specs.LocatedParts.{IsClassed};
ghost use Rattle.mk_edit.specs.ChangeValuesPatches.{AreChangeable, IsChangeable, changing_moves, is_of_turn, is_turn_for, line_changed, turn_moves};
ghost use Rattle.mk_edit.specs.ChangeValuesSurveys.{meant_view};
ghost use Rattle.mk_edit.specs.Planned.{ReadsAnew};
ghost use Rattle.mk_edit.specs.ValueChangeLines.{change_view};

use crate::change_values_places::Meant;
use crate::moves::{builder, read_line};
use crate::rename_target_effect::Turn;
use crate::value_change::{Change, bytes_changed, is_longer};
use mk_class::Meter;
use mk_edit_language::Refusal;
use mk_patch::{Patch, PatchBuilder, Step};
use mk_tree::Line;
use std::alloc::Allocator;

/// The patch that changes the lines at these places. Each of them is read once.
///
/// # Errors
///
/// [`Refusal::NoMemory`] if a growth was refused.
pub(crate) fn change_values_patch<A: Allocator + Copy>(
    alloc: A,
    places: &[Meant<'_, A>],
    change: Change<'_>,
    meter: &mut Meter,
) -> Result<Patch<A>, Refusal>
    requires { AreChangeable (change_view change) (map meant_view places.now) }
    ensures moves { IfOk result (λ patch. patch
        ≡ changing_moves (change_view change.entry) (map meant_view places.now)) }
    ensures reads { ReadsAnew (length places.now) meter.old meter.new result }
{
    let mut patch = builder(alloc, places.len())?;
    exchange_changed(alloc, places, change, Turn::NoLonger, &mut patch, meter)?;
    exchange_changed(alloc, places, change, Turn::Longer, &mut patch, meter)?;
    Ok(patch.finish())
}

// Adds the steps of a turn to a patch: the lines that are exchanged in it.
fn exchange_changed<A: Allocator + Copy>(
    alloc: A,
    places: &[Meant<'_, A>],
    change: Change<'_>,
    turn: Turn,
    patch: &mut PatchBuilder<A>,
    meter: &mut Meter,
) -> Result<(), Refusal>
    requires can { AreChangeable (change_view change) (map meant_view places.now) }
    requires room { length patch.old.moves
        + length (turn_moves turn (change_view change) (map meant_view places.now))
        ≤ patch.old.room }
    ensures moves { IfOk result (λ _. patch.new ≡ record patch.old {
      moves = patch.old.moves
          ++ turn_moves turn (change_view change.entry) (map meant_view places.now);
    }) }
    ensures reads { ReadsAnew
        (length (turn_moves turn (change_view change.entry) (map meant_view places.now)))
        meter.old meter.new result }
{
    'places: for meant in places {
        let changed = changed_in_turn(alloc, meant, change, turn, meter)?;
        if let Some(changed) = changed {
            patch.push(Step::Exchange(meant.place.at, changed));
        }
    }
    Ok(())
}

// The line after the change, if it is exchanged in this turn.
fn changed_in_turn<A: Allocator + Copy>(
    alloc: A,
    meant: &Meant<'_, A>,
    change: Change<'_>,
    turn: Turn,
    meter: &mut Meter,
) -> Result<Option<Line<A>>, Refusal>
    requires { IsChangeable (change_view change) (meant_view meant.now) }
    ensures line { IfOk result (λ changed. option_map line_view changed
        ≡ (if is_of_turn turn (change_view change.entry) (meant_view meant.now)
        then Some (line_changed (change_view change.entry) (meant_view meant.now))
        else None)) }
    ensures reads { ReadsAnew
        (if is_of_turn turn (change_view change.entry) (meant_view meant.now) then 1 else 0)
        meter.old meter.new result }
{
    let line = meant.line;
    if !is_exchanged(change, line, turn) {
        return Ok(None);
    }
    let Ok(bytes) = bytes_changed(alloc, change, &meant.place, line) else {
        return Err(Refusal::NoMemory);
    };
    let changed = read_line(alloc, bytes, meant.place.context, meter)?;
    Ok(Some(changed))
}

// Whether a line that is changed is exchanged in this turn.
fn is_exchanged<A: Allocator>(change: Change<'_>, line: &Line<A>, turn: Turn) -> bool
    requires { IsClassed (line_view line.now) }
    ensures { result ≡ is_turn_for turn (change_view change.entry) (line_view line.now) }
{
    match turn {
        Turn::NoLonger => !is_longer(change, line),
        Turn::Longer => is_longer(change, line),
    }
}
