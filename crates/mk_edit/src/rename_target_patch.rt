//! The patch of a rename whose causes are decided.
//!
//! Each line that holds the word is exchanged for the line after the rename. One line may get
//! shorter and another longer, and the text has to stay within its limit after each step. So the
//! lines are exchanged in two turns: first the lines that get no longer, then the lines that get
//! longer.
ghost use Rattle.std.specs.Prelude.{◌≡◌, ◌≤◌, ◌+◌, ◌++◌, IfOk, if◌then◌else◌, length, map, option_map};
ghost use Rattle.mk_lines.specs.Limits.{max_text};
ghost use Rattle.mk_class.specs.ClassedLines.{classed_lines};
ghost use Rattle.mk_class.specs.Contexts.{start};
ghost use Rattle.mk_tree.specs.Documents.{IsFaithful};
ghost use Rattle.mk_tree.specs.LocatedLines.{located_text};
ghost use Rattle.mk_tree.specs.Trees.{line_view};
ghost use Rattle.mk_edit_language.specs.Costs.{cost};
ghost use Rattle.mk_edit_language.specs.Edits.{RenameTarget};
ghost use Rattle.mk_edit_language.specs.Refusals.{causes, first_cause};
ghost use Rattle.mk_edit.specs.Planned.{IsPlanned, ReadsAnew};
ghost use Rattle.mk_edit.specs.RenameTargetEffects.{effect_on};
ghost use Rattle.mk_edit.specs.RenameTargetPatches.{CanBeRenamed, CanEachBeRenamed, exchanged_count, held_places, held_view, is_exchanged, line_renamed, tally_of, turn_moves};

use crate::moves::{builder, read_line};
use crate::rename_target_effect::{Effect, Turn, is_of_turn};
use crate::rename_target_places::Held;
use mk_class::Meter;
use mk_edit_language::Refusal;
use mk_edit_parts::renamed_line::renamed_bytes;
use mk_patch::{Patch, PatchBuilder, Step};
use mk_tree::{Doc, Line};
use std::alloc::Allocator;

// The lines of a turn.
#[derive(Clone, Copy)]
struct Batch {
    turn: Turn,
    // How many they are.
    lines: usize,
}

/// The patch that replaces a word in all targets and prerequisites. The caller knows that no cause
/// of refusal holds, what the rename does to the lines, and those that hold the old word, each with
/// its place. Each of these lines is read once.
///
/// # Errors
///
/// [`Refusal::NoMemory`] if a growth was refused.
pub(crate) fn rename_target_patch<A: Allocator + Copy>(
    alloc: A,
    doc: &Doc<A>,
    places: &[Held<'_, A>],
    from: &[u8],
    to: &[u8],
    effect: Effect,
    meter: &mut Meter,
) -> Result<Patch<A>, Refusal>
    requires faithful { IsFaithful doc.now }
    requires places { map held_view places.now ≡ held_places from.now doc.now }
    requires effect { effect ≡ effect_on from.now to.now start doc.now }
    requires accepted { first_cause (causes (located_text doc.now)
        (classed_lines (located_text doc.now)) (RenameTarget from.now to.now)) ≡ None }
    ensures planned { IfOk result (λ patch.
        IsPlanned (RenameTarget from.now to.now) doc.now patch) }
    ensures reads { ReadsAnew (cost (located_text doc.now) (RenameTarget from.now to.now))
        meter.old meter.new result }
{
    // The contract of `size` says that the text is within its limit.
    let _size = doc.size();
    let mut patch = builder(alloc, effect.no_longer + effect.longer)?;
    let shrinking = Batch {
        turn: Turn::NoLonger,
        lines: effect.no_longer,
    };
    let growing = Batch {
        turn: Turn::Longer,
        lines: effect.longer,
    };
    exchange_lines(alloc, doc, places, &mut patch, from, to, shrinking, meter)?;
    exchange_lines(alloc, doc, places, &mut patch, from, to, growing, meter)?;
    Ok(patch.finish())
}

// Adds the steps of a turn to a patch: the lines that are exchanged in it. They are sought among the
// lines that hold the word, and not sought at all if the turn has none.
fn exchange_lines<A: Allocator + Copy>(
    alloc: A,
    doc: &Doc<A>,
    places: &[Held<'_, A>],
    patch: &mut PatchBuilder<A>,
    from: &[u8],
    to: &[u8],
    batch: Batch,
    meter: &mut Meter,
) -> Result<(), Refusal>
    requires faithful { IsFaithful doc.now }
    requires can { CanEachBeRenamed from.now to.now start doc.now }
    requires places { map held_view places.now ≡ held_places from.now doc.now }
    requires lines { batch.lines ≡ exchanged_count batch.turn from.now to.now doc.now }
    requires room { length patch.old.moves + exchanged_count batch.turn from.now to.now doc.now
        ≤ patch.old.room }
    ensures moves { IfOk result (λ _. patch.new
        ≡ record patch.old { moves = patch.old.moves ++ turn_moves batch.turn from.now to.now doc.now }) }
    ensures reads { ReadsAnew (exchanged_count batch.turn from.now to.now doc.now)
        meter.old meter.new result }
{
    if batch.lines == 0 {
        return Ok(());
    }
    // The contract of `len` bounds the number of lines, as counting them asks.
    let _count = doc.len();
    'places: for held in places {
        let renamed = line_of_turn(alloc, held, from, to, batch.turn, meter)?;
        if let Some(renamed) = renamed {
            patch.push(Step::Exchange(held.place.at, renamed));
        }
    }
    Ok(())
}

// The line after the rename, if it is exchanged in this turn.
fn line_of_turn<A: Allocator + Copy>(
    alloc: A,
    held: &Held<'_, A>,
    from: &[u8],
    to: &[u8],
    turn: Turn,
    meter: &mut Meter,
) -> Result<Option<Line<A>>, Refusal>
    requires can { CanBeRenamed from.now to.now held.now.place.context
        (line_view held.now.line.now) }
    requires tally { held.now.tally ≡ tally_of from.now (line_view held.now.line.now) }
    ensures line { IfOk result (λ renamed. option_map line_view renamed
        ≡ (if is_exchanged turn from.now to.now (line_view held.now.line.now)
        then Some (line_renamed from.now to.now held.now.place.context
        (line_view held.now.line.now))
        else None)) }
    ensures reads { ReadsAnew
        (if is_exchanged turn from.now to.now (line_view held.now.line.now) then 1 else 0)
        meter.old meter.new result }
{
    let tally = held.tally;
    let line = held.line;
    if !is_of_turn(tally, to.len(), turn) {
        return Ok(None);
    }
    let class = line.class();
    let room = line.bytes().len() - tally.bytes + tally.words * to.len();
    let Ok(bytes) = renamed_bytes(alloc, line, &class, from, to, room, tally) else {
        return Err(Refusal::NoMemory);
    };
    let renamed = read_line(alloc, bytes, held.place.context, meter)?;
    Ok(Some(renamed))
}
