//! A new prerequisite of a rule, planned.
ghost use Rattle.std.specs.Prelude.{◌≡◌};
ghost use Rattle.mk_lines.specs.Cells.{Cell};
ghost use Rattle.mk_class.specs.Headers;
ghost use Rattle.mk_tree.specs.Documents.{IsFaithful};
ghost use Rattle.mk_tree.specs.Trees.{line_view};
ghost use Rattle.mk_edit_language.specs.Edits.{AddPrereq};
ghost use Rattle.mk_edit_language.specs.EditViews.{edit_of};
ghost use Rattle.mk_edit_language.specs.RuleCauses.{has_prereq};
ghost use Rattle.mk_edit_parts.specs.Seeking.{IsLineKnown};
ghost use Rattle.mk_edit_parts.specs.SeenHeaders.{HasHeader, IsHeaderSeen};
ghost use Rattle.mk_edit.specs.Planned.{Plans};
ghost use Rattle.mk_edit.specs.PrerequisiteEdits.{IsChangeOfPrereqs};

use crate::header::header_of;
use crate::moves::replace_line;
use mk_class::{Header, Meter};
use mk_edit_language::{Edit, Refusal};
use mk_edit_parts::find::find;
use mk_edit_parts::prerequisite::{has_normal, has_order_only, len_of_new, with_prerequisite};
use mk_edit_parts::seek::Sought;
use mk_lines::source::MAX_TEXT;
use mk_patch::Patch;
use mk_tree::{Doc, Line};
use std::alloc::Allocator;

/// Plans a new prerequisite of a rule, which goes last in its list: in the order-only prerequisites
/// if `order` says so, and otherwise in the normal ones.
///
/// # Errors
///
/// The first cause of the edit that holds: the causes of [`find`]; [`Refusal::Already`] if the word
/// is in that list; and [`Refusal::TooLong`]. If no cause holds, [`Refusal::NoMemory`] if a growth
/// was refused.
pub(crate) fn plan_add_prereq<A: Allocator + Copy>(
    alloc: A,
    doc: &Doc<A>,
    edit: &Edit<A>,
    known: Option<Sought>,
    order: bool,
    word: &[u8],
    meter: &mut Meter,
) -> Result<Patch<A>, Refusal>
    requires faithful { IsFaithful doc.now }
    requires kind { IsChangeOfPrereqs (AddPrereq order word.now) (edit_of edit.now) }
    requires known { IsLineKnown (edit_of edit.now) doc.now known }
    ensures { Plans (edit_of edit.now) doc.now meter.old meter.new result }
{
    let size = doc.size();
    let place = find(doc, edit, known)?;
    let line = doc.line(place.at);
    let header = header_of(line);
    if is_in_list(line, header, order, word) {
        return Err(Refusal::Already);
    }
    if size + len_of_new(line, header, order, word) > MAX_TEXT {
        return Err(Refusal::TooLong);
    }
    let Ok(bytes) = with_prerequisite(alloc, line, header, order, word) else {
        return Err(Refusal::NoMemory);
    };
    replace_line(alloc, doc, place, bytes, meter)
}

// Whether a word is already in the list of prerequisites that it is put in.
fn is_in_list<A: Allocator>(line: &Line<A>, header: Header, order: bool, word: &[u8]) -> bool
    requires { HasHeader (line_view line.now) header }
    ensures { (h : Headers.Header Cell) → IsHeaderSeen (line_view line.now) header h
        → result ≡ has_prereq (AddPrereq order word.now) h }
{
    if order {
        has_order_only(line, header, word)
    } else {
        has_normal(line, header, word)
    }
}
