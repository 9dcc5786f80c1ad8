//! The removal of an assignment.
ghost use Rattle.std.specs.Prelude.{◌≡◌, ◌≤◌, ◌+◌, ℕ, Some, length};
ghost use Rattle.mk_class.specs.ClassedLines.{classed_lines};
ghost use Rattle.mk_tree.specs.Documents.{IsFaithful};
ghost use Rattle.mk_tree.specs.LocatedLines.{located_text};
ghost use Rattle.mk_edit_language.specs.LineCauses.{removal_leans};
ghost use Rattle.mk_edit_language.specs.EditViews.{edit_of};
ghost use Rattle.mk_edit_parts.specs.AddressViews.{IsRemoveAssign};
ghost use Rattle.mk_edit_parts.specs.Seeking.{IsLineKnown};
ghost use Rattle.mk_edit.specs.Planned.{Plans};
ghost use Rattle.mk_edit.specs.PlannedMoves.{stretch_at};
ghost use Rattle.mk_edit_parts.specs.Found.{IsPlaceOf};

use crate::moves::take_out;
use mk_edit_language::{Edit, Refusal};
use mk_edit_parts::find::find;
use mk_edit_parts::lean::leans;
use mk_edit_parts::place::after_lines;
use mk_edit_parts::seek::{Found, Sought};
use mk_patch::Patch;
use mk_tree::Doc;
use std::alloc::Allocator;

/// Plans an edit that takes out the line of an assignment. It reads no line anew.
///
/// # Errors
///
/// The first cause of the edit that holds: the causes of [`find`], or [`Refusal::Leans`]. If no
/// cause holds, [`Refusal::NoMemory`] if a growth was refused.
pub(crate) fn plan_remove_assign<A: Allocator + Copy>(
    alloc: A,
    doc: &Doc<A>,
    edit: &Edit<A>,
    known: Option<Sought>,
) -> Result<Patch<A>, Refusal>
    requires faithful { IsFaithful doc.now }
    requires kind { IsRemoveAssign (edit_of edit.now) }
    requires known { IsLineKnown (edit_of edit.now) doc.now known }
    ensures { (read : ℕ) → Plans (edit_of edit.now) doc.now read read result }
{
    // The contract of `size` says that the text is within the limit, so that no removal is too
    // long.
    let _size = doc.size();
    let place = find(doc, edit, known)?;
    let Found { at, .. } = place;
    if removal_leans(doc, place, 1) {
        return Err(Refusal::Leans);
    }
    take_out(alloc, at, 1)
}

/// Whether the lines below would be read in another way without `count` lines from a place on. The
/// call reads no line anew and takes no memory.
pub(crate) fn removal_leans<A: Allocator>(doc: &Doc<A>, place: Found, count: usize) -> bool
    requires faithful { IsFaithful doc.now }
    requires place { IsPlaceOf doc.now place }
    requires in_range { place.at + count ≤ length doc.now }
    ensures { result
        ≡ removal_leans (Some (stretch_at (classed_lines (located_text doc.now)) place.at count)) }
{
    let after = after_lines(doc, place, count);
    let prefix = place.context.prefix();
    leans(
        doc,
        after.at,
        prefix,
        place.context.flag(),
        after.context.flag(),
    )
}
