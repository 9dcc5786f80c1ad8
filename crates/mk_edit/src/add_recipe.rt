//! A new recipe line, planned.
ghost use Rattle.std.specs.Prelude.{◌≡◌, ◌≤◌, ◌+◌, length};
ghost use Rattle.mk_tree.specs.Documents.{IsFaithful};
ghost use Rattle.mk_tree.specs.RecipeLines.{recipe_run};
ghost use Rattle.mk_edit_language.specs.EditViews.{edit_of};
ghost use Rattle.mk_edit_parts.specs.RecipeWalks.{lines_from};
ghost use Rattle.mk_edit_parts.specs.Seeking.{IsLineKnown};
ghost use Rattle.mk_edit.specs.Planned.{Plans};
ghost use Rattle.mk_edit.specs.RecipeEdits.{IsAddRecipe, place_for, place_index};

use crate::add_line::add_line;
use mk_class::Meter;
use mk_edit_language::{Edit, Refusal};
use mk_edit_parts::find::find;
use mk_edit_parts::place::after_lines;
use mk_edit_parts::recipe::{recipe_below, recipe_gap};
use mk_edit_parts::seek::Sought;
use mk_patch::Patch;
use mk_tree::Doc;
use std::alloc::Allocator;

/// Plans a new recipe line. It goes before the recipe line of this number of its rule, from 1.
/// Without a number, or if the number is one more than the rule has recipe lines, it goes after the
/// last one, or after the header if the rule has none. The call reads the new line.
///
/// # Errors
///
/// The first cause of the edit that holds: the causes of [`find`]; [`Refusal::Absent`] if the number
/// is 0 or too high; [`Refusal::Straddles`] if a line of a conditional stands between the header and
/// the last recipe line; and the causes of the line's place. If no cause holds,
/// [`Refusal::NoMemory`] if a growth was refused.
pub(crate) fn plan_add_recipe<A: Allocator + Copy>(
    alloc: A,
    doc: &Doc<A>,
    edit: &Edit<A>,
    known: Option<Sought>,
    number: Option<u32>,
    meter: &mut Meter,
) -> Result<Patch<A>, Refusal>
    requires faithful { IsFaithful doc.now }
    requires kind { IsAddRecipe (place_for number) (edit_of edit.now) }
    requires known { IsLineKnown (edit_of edit.now) doc.now known }
    ensures { Plans (edit_of edit.now) doc.now meter.old meter.new result }
{
    // The contract of `len` bounds the number of lines, so that indices can be added to.
    let _count = doc.len();
    let header = find(doc, edit, known)?;
    let recipe = recipe_below(doc, header.at + 1);
    let Some(at) = index_for(doc, header.at + 1, number, recipe.end) else {
        return Err(Refusal::Absent);
    };
    if recipe.is_split {
        return Err(Refusal::Straddles);
    }
    let place = after_lines(doc, header, at - header.at);
    add_line(alloc, doc, edit, place, meter)
}

// The index where the new recipe line of a header goes: where it gets this number, or after the last
// one, where the recipe ends. The header stands directly before the index `from`.
fn index_for<A: Allocator>(
    doc: &Doc<A>,
    from: usize,
    number: Option<u32>,
    end: usize,
) -> Option<usize>
    requires faithful { IsFaithful doc.now }
    requires in_range { from ≤ length doc.now }
    requires end { end ≡ from + length (recipe_run (lines_from doc.now from)) }
    ensures { result ≡ place_index (place_for number) from (lines_from doc.now from) }
{
    match number {
        Some(number) => recipe_gap(doc, from, number),
        None => Some(end),
    }
}
