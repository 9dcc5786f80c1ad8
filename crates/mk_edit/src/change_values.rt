//! A change of all values of a name, planned.
ghost use Rattle.std.specs.Prelude.{◌≡◌};
ghost use Rattle.mk_tree.specs.Documents.{IsFaithful};
ghost use Rattle.mk_edit_language.specs.Edits.{ChangeValue, Every};
ghost use Rattle.mk_edit_language.specs.EditViews.{edit_of};
ghost use Rattle.mk_edit_parts.specs.Windows.{AreWindows, concerns_name, first_place};
ghost use Rattle.mk_edit.specs.Planned.{Plans};
ghost use Rattle.mk_edit.specs.ValueChangeLines.{change_view};

use crate::change_values_causes::accepted_change;
use crate::change_values_patch::change_values_patch;
use crate::value_change::Change;
use mk_class::Meter;
use mk_edit_language::{Edit, Refusal};
use mk_edit_parts::window::Window;
use mk_patch::Patch;
use mk_tree::Doc;
use std::alloc::Allocator;

/// Plans a change of all values of a name. No line outside the windows concerns the name.
///
/// # Errors
///
/// The first cause of the edit that holds, as [`accepted_change`] answers it. If no cause holds,
/// [`Refusal::NoMemory`] if a growth was refused.
pub(crate) fn plan_change_values<A: Allocator + Copy>(
    alloc: A,
    doc: &Doc<A>,
    edit: &Edit<A>,
    windows: &[Window],
    name: &[u8],
    change: Change<'_>,
    meter: &mut Meter,
) -> Result<Patch<A>, Refusal>
    requires faithful { IsFaithful doc.now }
    requires kind { edit_of edit.now ≡ ChangeValue Every name.now (change_view change) }
    requires windows { AreWindows (concerns_name name.now) first_place doc.now windows.now }
    ensures { Plans (edit_of edit.now) doc.now meter.old meter.new result }
{
    // The contract of `size` says that the text is within its limit.
    let _size = doc.size();
    let places = accepted_change(alloc, doc, edit, windows, name, change)?;
    let Some(places) = places else {
        return Err(Refusal::NoMemory);
    };
    change_values_patch(alloc, &places, change, meter)
}
