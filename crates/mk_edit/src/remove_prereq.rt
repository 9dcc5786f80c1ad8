//! A prerequisite taken out of a rule, planned.
ghost use Rattle.std.specs.Prelude.{◌≡◌};
ghost use Rattle.mk_tree.specs.Documents.{IsFaithful};
ghost use Rattle.mk_edit_language.specs.Edits.{RemovePrereq};
ghost use Rattle.mk_edit_language.specs.EditViews.{edit_of};
ghost use Rattle.mk_edit_parts.specs.Seeking.{IsLineKnown};
ghost use Rattle.mk_edit.specs.Planned.{Plans};
ghost use Rattle.mk_edit.specs.PrerequisiteEdits.{IsChangeOfPrereqs};

use crate::header::header_of;
use crate::moves::replace_line;
use mk_class::Meter;
use mk_edit_language::{Edit, Refusal};
use mk_edit_parts::find::find;
use mk_edit_parts::prerequisite::{is_prerequisite, without_prerequisite};
use mk_edit_parts::seek::Sought;
use mk_patch::Patch;
use mk_tree::Doc;
use std::alloc::Allocator;

/// Plans the line of a rule without a prerequisite: the word goes wherever it stands in the two
/// lists.
///
/// # Errors
///
/// The first cause of the edit that holds: the causes of [`find`], or [`Refusal::Absent`] if the
/// word is in neither list. If no cause holds, [`Refusal::NoMemory`] if a growth was refused.
pub(crate) fn plan_remove_prereq<A: Allocator + Copy>(
    alloc: A,
    doc: &Doc<A>,
    edit: &Edit<A>,
    known: Option<Sought>,
    word: &[u8],
    meter: &mut Meter,
) -> Result<Patch<A>, Refusal>
    requires faithful { IsFaithful doc.now }
    requires kind { IsChangeOfPrereqs (RemovePrereq word.now) (edit_of edit.now) }
    requires known { IsLineKnown (edit_of edit.now) doc.now known }
    ensures { Plans (edit_of edit.now) doc.now meter.old meter.new result }
{
    // The contract of `size` says that the text is within the limit, and so is the text without a
    // word.
    let _size = doc.size();
    let place = find(doc, edit, known)?;
    let line = doc.line(place.at);
    let header = header_of(line);
    if !is_prerequisite(line, header, word) {
        return Err(Refusal::Absent);
    }
    let Ok(bytes) = without_prerequisite(alloc, line, header, word) else {
        return Err(Refusal::NoMemory);
    };
    replace_line(alloc, doc, place, bytes, meter)
}
