//! A change of the value of one assignment, planned.
ghost use Rattle.std.specs.Prelude.{◌≡◌};
ghost use Rattle.mk_tree.specs.Documents.{IsFaithful};
ghost use Rattle.mk_tree.specs.Trees.{line_view};
ghost use Rattle.mk_edit_language.specs.EditViews.{edit_of};
ghost use Rattle.mk_edit_parts.specs.LocatedParts.{IsClassed};
ghost use Rattle.mk_edit_parts.specs.Seeking.{IsLineKnown};
ghost use Rattle.mk_edit.specs.ChangeValuesSurveys.{found_in};
ghost use Rattle.mk_edit.specs.Planned.{Plans};
ghost use Rattle.mk_edit.specs.ValueChangeLines.{IsChangeOfOne, change_view};

use crate::change_values_causes::first_of_findings;
use crate::change_values_survey::Findings;
use crate::moves::replace_line;
use crate::value_change::{Change, bytes_changed, has_effect, is_open, spared_by};
use mk_class::Meter;
use mk_edit_language::{Edit, Refusal};
use mk_edit_parts::find::find;
use mk_edit_parts::seek::Sought;
use mk_patch::Patch;
use mk_tree::{Doc, Line};
use std::alloc::Allocator;

/// Plans an edit that changes the value of one assignment so.
///
/// # Errors
///
/// The first cause of the edit that holds: the causes of [`find`]; [`Refusal::Already`] or
/// [`Refusal::Absent`] if the change does nothing; [`Refusal::OpenValue`]; and [`Refusal::TooLong`].
/// If no cause holds, [`Refusal::NoMemory`] if a growth was refused.
pub(crate) fn plan_change_value<A: Allocator + Copy>(
    alloc: A,
    doc: &Doc<A>,
    edit: &Edit<A>,
    known: Option<Sought>,
    change: Change<'_>,
    meter: &mut Meter,
) -> Result<Patch<A>, Refusal>
    requires faithful { IsFaithful doc.now }
    requires edit { IsChangeOfOne (change_view change) (edit_of edit.now) }
    requires known { IsLineKnown (edit_of edit.now) doc.now known }
    ensures { Plans (edit_of edit.now) doc.now meter.old meter.new result }
{
    let found = find(doc, edit, known)?;
    let line = doc.line(found.at);
    if let Some(refusal) = first_of_findings(found_in(line, change), change, doc.size()) {
        return Err(refusal);
    }
    let Ok(bytes) = bytes_changed(alloc, change, &found, line) else {
        return Err(Refusal::NoMemory);
    };
    replace_line(alloc, doc, found, bytes, meter)
}

// What a change finds in the line of the assignment that it means.
fn found_in<A: Allocator>(line: &Line<A>, change: Change<'_>) -> Findings
    requires { IsClassed (line_view line.now) }
    ensures { result ≡ found_in (change_view change.entry) (line_view line.now) }
{
    Findings {
        has_unread_prefix: false,
        is_there: true,
        is_open: is_open(change, line),
        lines: usize::from(has_effect(change, line)),
        spared: spared_by(change, line),
    }
}
