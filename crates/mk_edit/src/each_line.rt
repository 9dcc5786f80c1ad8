//! An edit of several lines that is checked by reading, planned.
ghost use Rattle.std.specs.Prelude.{◌≡◌};
ghost use Rattle.mk_tree.specs.Documents.{IsFaithful};
ghost use Rattle.mk_edit_language.specs.Edits.{EachLine};
ghost use Rattle.mk_edit_language.specs.EditViews.{each_edit_of, edit_of};
ghost use Rattle.mk_edit_parts.specs.Windows.{AreWindows, concerns_each, first_place};
ghost use Rattle.mk_edit.specs.Planned.{Plans};

use crate::each_line_causes::accepted_lines;
use crate::each_line_patch::each_line_patch;
use mk_class::Meter;
use mk_edit_language::{EachEdit, Edit, Refusal};
use mk_edit_parts::each_line::each_change;
use mk_edit_parts::window::Window;
use mk_patch::Patch;
use mk_tree::Doc;
use std::alloc::Allocator;

/// Plans an edit of several lines. No line outside the windows concerns the edit, but for the recipe lines
/// of the rules that it means.
///
/// # Errors
///
/// The first cause of the edit that holds, as [`accepted_lines`] answers it, or
/// [`Refusal::Misread`] if no other holds and a new line does not read as the edit says.
/// [`Refusal::NoMemory`] if a growth was refused and no cause holds but perhaps the last.
pub(crate) fn plan_each_line<A: Allocator + Copy>(
    alloc: A,
    doc: &Doc<A>,
    edit: &Edit<A>,
    windows: &[Window],
    each: &EachEdit<A>,
    meter: &mut Meter,
) -> Result<Patch<A>, Refusal>
    requires faithful { IsFaithful doc.now }
    requires kind { edit_of edit.now ≡ EachLine (each_edit_of each.now) }
    requires windows { AreWindows (concerns_each (each_edit_of each.now)) first_place doc.now
        windows.now }
    ensures { Plans (edit_of edit.now) doc.now meter.old meter.new result }
{
    // The contract of `size` says that the text is within its limit.
    let _size = doc.size();
    let change = each_change(each);
    let notes = accepted_lines(alloc, doc, edit, windows, each, change)?;
    let Some(notes) = notes else {
        return Err(Refusal::NoMemory);
    };
    each_line_patch(alloc, &notes, change, meter)
}
