//! A prerequisite put in the place of another, planned.
ghost use Rattle.std.specs.Prelude.{◌≡◌};
ghost use Rattle.mk_tree.specs.Documents.{IsFaithful};
ghost use Rattle.mk_edit_language.specs.Edits.{ReplacePrereq};
ghost use Rattle.mk_edit_language.specs.EditViews.{edit_of};
ghost use Rattle.mk_edit_parts.specs.Seeking.{IsLineKnown};
ghost use Rattle.mk_edit.specs.Planned.{Plans};
ghost use Rattle.mk_edit.specs.PrerequisiteEdits.{IsChangeOfPrereqs};

use crate::change_line::is_too_long;
use crate::header::header_of;
use crate::moves::replace_line;
use mk_class::Meter;
use mk_edit_language::{Edit, Refusal};
use mk_edit_parts::find::find;
use mk_edit_parts::prerequisite::{
    count_prerequisites, is_prerequisite, with_prerequisite_replaced,
};
use mk_edit_parts::seek::Sought;
use mk_patch::Patch;
use mk_tree::Doc;
use std::alloc::Allocator;

/// Plans the line of a rule with a new prerequisite in the place of an old one, wherever that stands in
/// the two lists.
///
/// # Errors
///
/// The first cause of the edit that holds: the causes of [`find`]; [`Refusal::Absent`] if the old word is
/// in neither list; [`Refusal::Already`] if the new one is in one of them; and [`Refusal::TooLong`]. If no
/// cause holds, [`Refusal::NoMemory`] if a growth was refused.
pub(crate) fn plan_replace_prereq<A: Allocator + Copy>(
    alloc: A,
    doc: &Doc<A>,
    edit: &Edit<A>,
    known: Option<Sought>,
    old: &[u8],
    new: &[u8],
    meter: &mut Meter,
) -> Result<Patch<A>, Refusal>
    requires faithful { IsFaithful doc.now }
    requires kind { IsChangeOfPrereqs (ReplacePrereq old.now new.now) (edit_of edit.now) }
    requires known { IsLineKnown (edit_of edit.now) doc.now known }
    ensures { Plans (edit_of edit.now) doc.now meter.old meter.new result }
{
    let size = doc.size();
    let place = find(doc, edit, known)?;
    let line = doc.line(place.at);
    let header = header_of(line);
    if !is_prerequisite(line, header, old) {
        return Err(Refusal::Absent);
    }
    if is_prerequisite(line, header, new) {
        return Err(Refusal::Already);
    }
    let count = count_prerequisites(line, header, old);
    if is_too_long(count.words, count.bytes, new.len(), size) {
        return Err(Refusal::TooLong);
    }
    let Ok(bytes) = with_prerequisite_replaced(alloc, line, header, old, new) else {
        return Err(Refusal::NoMemory);
    };
    replace_line(alloc, doc, place, bytes, meter)
}
