//! The causes of refusal of a change of all values of a name, in their order.
ghost use Rattle.std.specs.Prelude.{◌≡◌, ◌+◌, ◌*◌, ◌≤◌, IfOk, IfErr, IfSome, None, Some, map, nat_lt};
ghost use Rattle.mk_lines.specs.Limits.{max_text};
ghost use Rattle.mk_class.specs.ClassedLines.{classed_lines};
ghost use Rattle.mk_tree.specs.Documents.{IsFaithful};
ghost use Rattle.mk_tree.specs.LocatedLines.{located_text};
ghost use Rattle.mk_edit_language.specs.Refusals.{causes, first_cause};
ghost use Rattle.mk_edit_language.specs.Edits.{ChangeValue, Every};
ghost use Rattle.mk_edit_language.specs.EditViews.{edit_of};
ghost use Rattle.mk_edit_parts.specs.Windows.{AreWindows, concerns_name, first_place};
ghost use Rattle.mk_edit.specs.ChangeValuesSurveys.{first_of_findings, idle, meant_places, meant_view};
ghost use Rattle.mk_edit.specs.ValueChangeLines.{change_view};

use crate::change_values_places::Meant;
use crate::change_values_survey::{Findings, change_values_survey};
use crate::value_change::{Change, put_by};
use mk_edit_language::{Edit, Refusal};
use mk_edit_parts::argument::{bad_field, is_reserved};
use mk_edit_parts::window::Window;
use mk_lines::source::MAX_TEXT;
use mk_tree::Doc;
use std::alloc::Allocator;

/// The places of the lines of a document that a change of all values of a name changes, if no cause
/// of refusal holds; `None` if a growth was refused. The call decides, in this order, whether a field fails its
/// test, or the name is reserved; whether the recipe prefix is set in a way that is not read; whether
/// no line assigns the name; whether no line would be changed; whether the value of a line that would
/// be changed is open; and whether the text would be too long. It walks once over the lines of the
/// windows, outside of which no line concerns the name, and reads no line anew. It takes memory for
/// the places alone, and decides the same without it.
///
/// # Errors
///
/// The first refusal whose cause holds.
pub(crate) fn accepted_change<'a, A: Allocator + Copy>(
    alloc: A,
    doc: &'a Doc<A>,
    edit: &Edit<A>,
    windows: &[Window],
    name: &[u8],
    change: Change<'_>,
) -> Result<Option<Vec<Meant<'a, A>, A>>, Refusal>
    requires faithful { IsFaithful doc.now }
    requires kind { edit_of edit.now ≡ ChangeValue Every name.now (change_view change) }
    requires windows { AreWindows (concerns_name name.now) first_place doc.now windows.now }
    ensures places { IfOk result (λ noted. IfSome noted (λ places.
        map meant_view places.items
        ≡ meant_places name.now (change_view change.entry) doc.now)) }
    ensures accepted { IfOk result (λ _. first_cause (causes (located_text doc.now)
        (classed_lines (located_text doc.now)) (edit_of edit.now)) ≡ None) }
    ensures refused { IfErr result (λ refusal. first_cause (causes (located_text doc.now)
        (classed_lines (located_text doc.now)) (edit_of edit.now)) ≡ Some refusal) }
{
    if let Some(field) = bad_field(edit) {
        return Err(Refusal::BadArgument(field));
    }
    if is_reserved(edit) {
        return Err(Refusal::Reserved);
    }
    let survey = change_values_survey(alloc, doc, windows, name, change);
    match first_of_findings(survey.findings, change, doc.size()) {
        Some(refusal) => Err(refusal),
        None => Ok(survey.places),
    }
}

/// The first refusal whose cause lies in the lines of a document of this size, by what a change of
/// values finds among them, or a change of one value in its line.
pub(crate) fn first_of_findings(
    findings: Findings,
    change: Change<'_>,
    size: usize,
) -> Option<Refusal>
    requires within { size ≤ max_text }
    requires few { findings.spared ≤ 2 * max_text }
    ensures { result ≡ first_of_findings (change_view change.entry) findings size }
{
    if findings.has_unread_prefix {
        return Some(Refusal::RecipePrefix);
    }
    if !findings.is_there {
        return Some(Refusal::NoSuch);
    }
    if let Some(refusal) = idle(change, findings.lines) {
        return Some(refusal);
    }
    if findings.is_open {
        return Some(Refusal::OpenValue);
    }
    if is_too_long(size, findings, put_by(change)) {
        return Some(Refusal::TooLong);
    }
    None
}

// The refusal of a change that changes this many lines: if it changes none, the word is there already,
// or the word or the value is absent.
fn idle(change: Change<'_>, lines: usize) -> Option<Refusal>
    ensures { result ≡ idle (change_view change.entry) lines }
{
    match change {
        Change::Add(_) if lines == 0 => Some(Refusal::Already),
        Change::Remove(_) | Change::SetIf(..) if lines == 0 => Some(Refusal::Absent),
        _ => None,
    }
}

// Whether a text of this size is longer than a text may be, after a change that finds this and puts
// `put` bytes into each line.
fn is_too_long(size: usize, findings: Findings, put: usize) -> bool
    requires within { size ≤ max_text }
    requires few { findings.spared ≤ 2 * max_text }
    ensures { result ≡ nat_lt (max_text + findings.spared) (size + findings.lines * put) }
{
    // The new bytes alone may be more than a number can say. Then the text is too long.
    findings.lines.saturating_mul(put) > MAX_TEXT - size + findings.spared
}
