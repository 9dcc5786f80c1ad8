//! A rename, planned.
ghost use Rattle.std.specs.Prelude.{◌≡◌};
ghost use Rattle.mk_tree.specs.Documents.{IsFaithful};
ghost use Rattle.mk_edit_language.specs.Edits.{RenameTarget};
ghost use Rattle.mk_edit_language.specs.EditViews.{edit_of};
ghost use Rattle.mk_edit_parts.specs.Windows.{AreWindows, concerns_rename, first_place};
ghost use Rattle.mk_edit.specs.Planned.{Plans};

use crate::rename_target_causes::accepted_rename;
use crate::rename_target_effect::Survey;
use crate::rename_target_patch::rename_target_patch;
use mk_class::Meter;
use mk_edit_language::{Edit, Refusal};
use mk_edit_parts::window::Window;
use mk_patch::Patch;
use mk_tree::Doc;
use std::alloc::Allocator;

/// Plans a rename: a word in all targets and prerequisites becomes another one. No line outside the
/// windows concerns the rename.
///
/// # Errors
///
/// The first cause of the edit that holds, as [`accepted_rename`] answers it. If no cause holds,
/// [`Refusal::NoMemory`] if a growth was refused.
pub(crate) fn plan_rename_target<A: Allocator + Copy>(
    alloc: A,
    doc: &Doc<A>,
    edit: &Edit<A>,
    windows: &[Window],
    from: &[u8],
    to: &[u8],
    meter: &mut Meter,
) -> Result<Patch<A>, Refusal>
    requires faithful { IsFaithful doc.now }
    requires kind { edit_of edit.now ≡ RenameTarget from.now to.now }
    requires windows { AreWindows (concerns_rename from.now to.now) first_place doc.now windows.now }
    ensures { Plans (edit_of edit.now) doc.now meter.old meter.new result }
{
    let Survey { effect, places } = accepted_rename(alloc, doc, edit, windows, from, to)?;
    let Some(places) = places else {
        return Err(Refusal::NoMemory);
    };
    rename_target_patch(alloc, doc, &places, from, to, effect, meter)
}
