//! New lines, planned: those of assignments and of rules, and what all new lines share.
ghost use Rattle.mk_class.specs.ClassedLines.{classed_lines};
ghost use Rattle.mk_tree.specs.Documents.{IsFaithful};
ghost use Rattle.mk_tree.specs.LocatedLines.{located_text};
ghost use Rattle.mk_edit_language.specs.Stretches.{insertion};
ghost use Rattle.mk_edit_language.specs.EditViews.{edit_of, place_of};
ghost use Rattle.mk_edit_parts.specs.NewPlaces.{IsInsertedAt};
ghost use Rattle.mk_edit_parts.specs.Seeking.{IsLineKnown};
ghost use Rattle.mk_edit.specs.Insertions.{IsDecidedByPlace, IsOfNewLine, IsOfPlace};
ghost use Rattle.mk_edit.specs.Planned.{Plans};

use crate::insertion::place_refusal;
use crate::moves::insert_line;
use mk_class::Meter;
use mk_edit_language::{Edit, Place, Refusal};
use mk_edit_parts::find::find;
use mk_edit_parts::line_end::doc_line_end;
use mk_edit_parts::new_line::{begins_with_prefix, new_line};
use mk_edit_parts::place::place_of_new;
use mk_edit_parts::seek::{Found, Sought};
use mk_patch::Patch;
use mk_tree::Doc;
use std::alloc::Allocator;

/// Plans the new line of an assignment or of a rule. It reads the new line.
///
/// # Errors
///
/// The first cause of the edit that holds: the causes of [`find`]; [`Refusal::Straddles`] if the new line
/// goes after a rule whose recipe has a line of a conditional in it; [`Refusal::RecipePrefix`] if the new
/// line would begin with the recipe prefix in force at its place; and the causes of [`place_refusal`]. If
/// no cause holds, [`Refusal::NoMemory`] if a growth was refused.
pub(crate) fn plan_add_line<A: Allocator + Copy>(
    alloc: A,
    doc: &Doc<A>,
    edit: &Edit<A>,
    place: &Place<A>,
    known: Option<Sought>,
    meter: &mut Meter,
) -> Result<Patch<A>, Refusal>
    requires faithful { IsFaithful doc.now }
    requires kind { IsOfPlace (place_of place.now) (edit_of edit.now) }
    requires known { IsLineKnown (edit_of edit.now) doc.now known }
    ensures { Plans (edit_of edit.now) doc.now meter.old meter.new result }
{
    let found = find(doc, edit, known)?;
    let Some(place) = place_of_new(doc, place, found) else {
        return Err(Refusal::Straddles);
    };
    if begins_with_prefix(edit, place.context.prefix()) {
        return Err(Refusal::RecipePrefix);
    }
    add_line(alloc, doc, edit, place, meter)
}

/// Plans the new line of an edit at its place. It asks that no cause holds that comes before the
/// causes of the place. It reads the new line.
///
/// # Errors
///
/// The first of the causes of [`place_refusal`] that holds. If none of them holds,
/// [`Refusal::NoMemory`] if a growth was refused.
pub(crate) fn add_line<A: Allocator + Copy>(
    alloc: A,
    doc: &Doc<A>,
    edit: &Edit<A>,
    place: Found,
    meter: &mut Meter,
) -> Result<Patch<A>, Refusal>
    requires faithful { IsFaithful doc.now }
    requires kind { IsOfNewLine (edit_of edit.now) }
    requires decided { IsDecidedByPlace (located_text doc.now) (edit_of edit.now) }
    requires inserted { IsInsertedAt doc.now
        (insertion (classed_lines (located_text doc.now)) (edit_of edit.now)) place }
    ensures { Plans (edit_of edit.now) doc.now meter.old meter.new result }
{
    if let Some(refusal) = place_refusal(doc, edit, &place) {
        return Err(refusal);
    }
    let end = doc_line_end(doc);
    let Ok(bytes) = new_line(alloc, edit, place.context.prefix(), end) else {
        return Err(Refusal::NoMemory);
    };
    insert_line(alloc, doc, place, bytes, meter)
}
