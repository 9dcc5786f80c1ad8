//! The causes of refusal of an edit of several lines, in their order, but for
//! [`Misread`](mk_edit_language::Refusal::Misread), which the new lines decide.
ghost use Rattle.std.specs.Prelude.{◌≡◌, ◌≤◌, ◌∷◌, [], IfOk, IfErr, IfSome, None, Some, map};
ghost use Rattle.mk_lines.specs.Limits.{max_text};
ghost use Rattle.mk_class.specs.ClassedLines.{classed_lines};
ghost use Rattle.mk_tree.specs.Documents.{IsFaithful};
ghost use Rattle.mk_tree.specs.LocatedLines.{located_text};
ghost use Rattle.mk_edit_language.specs.Edits.{EachLine};
ghost use Rattle.mk_edit_language.specs.EachLine.{each_change};
ghost use Rattle.mk_edit_language.specs.EditViews.{each_edit_of, edit_of};
ghost use Rattle.mk_edit_language.specs.LineCauses.{misread};
ghost use Rattle.mk_edit_language.specs.Refusals.{causes, first_cause};
ghost use Rattle.mk_edit_parts.specs.EachLineWalks.{each_change_view};
ghost use Rattle.mk_edit_parts.specs.Windows.{AreWindows, concerns_each, first_place};
ghost use Rattle.mk_edit.specs.EachLinePatches.{AreChangeable};
ghost use Rattle.mk_edit.specs.EachLineSurveys.{IsOfLines, first_of_findings, noted_lines, noted_view};

use crate::each_line_notes::Noted;
use crate::each_line_survey::{Findings, each_line_survey};
use mk_edit_language::{EachEdit, Edit, Refusal};
use mk_edit_parts::argument::{bad_field, is_reserved};
use mk_edit_parts::each_line::{EachChange, is_missing};
use mk_edit_parts::window::Window;
use mk_lines::source::MAX_TEXT;
use mk_tree::Doc;
use std::alloc::Allocator;

/// The lines of a document that an edit of several lines changes, if no cause of refusal holds but
/// perhaps that a new line is misread; `None` if a growth was refused. The call decides, in this order,
/// whether a field fails its test, or the name or the target is reserved; whether the recipe prefix is
/// set in a way that is not read; whether there is no such assignment or rule; whether no line would be
/// changed; and whether the text would be too long. It walks over the lines as
/// [`each_line_survey`] does. It takes memory for the notes alone, and decides the same without it.
///
/// # Errors
///
/// The first refusal whose cause holds.
pub(crate) fn accepted_lines<'a, A: Allocator + Copy>(
    alloc: A,
    doc: &'a Doc<A>,
    edit: &Edit<A>,
    windows: &[Window],
    each: &EachEdit<A>,
    change: EachChange<'_>,
) -> Result<Option<Vec<Noted<'a, A>, A>>, Refusal>
    requires faithful { IsFaithful doc.now }
    requires kind { edit_of edit.now ≡ EachLine (each_edit_of each.now) }
    requires change { each_change_view change ≡ each_change (each_edit_of each.now) }
    requires windows { AreWindows (concerns_each (each_edit_of each.now)) first_place doc.now
        windows.now }
    ensures notes { IfOk result (λ noted. IfSome noted (λ notes.
        map noted_view notes.items ≡ noted_lines (each_edit_of each.now) doc.now)) }
    ensures lines { IfOk result (λ _. IsOfLines (each_edit_of each.now)) }
    ensures changeable { IfOk result (λ _.
        AreChangeable (each_change_view change.entry) (noted_lines (each_edit_of each.now) doc.now)) }
    ensures accepted { IfOk result (λ _. first_cause (causes (located_text doc.now)
        (classed_lines (located_text doc.now)) (edit_of edit.now))
        ≡ first_cause (misread (classed_lines (located_text doc.now)) (edit_of edit.now) ∷ [])) }
    ensures refused { IfErr result (λ refusal. first_cause (causes (located_text doc.now)
        (classed_lines (located_text doc.now)) (edit_of edit.now)) ≡ Some refusal) }
{
    if let Some(field) = bad_field(edit) {
        return Err(Refusal::BadArgument(field));
    }
    if is_reserved(edit) {
        return Err(Refusal::Reserved);
    }
    let survey = each_line_survey(alloc, doc, windows, each, change);
    match first_of_findings(survey.findings, each, doc.size()) {
        Some(refusal) => Err(refusal),
        None => Ok(survey.notes),
    }
}

// The first refusal whose cause lies in the lines of a document of this size, by what an edit finds
// among them, but for those that the new lines decide.
fn first_of_findings<A: Allocator>(
    findings: Findings,
    edit: &EachEdit<A>,
    size: usize,
) -> Option<Refusal>
    requires within { size ≤ max_text }
    requires few { findings.taken ≤ max_text }
    ensures { result ≡ first_of_findings (each_edit_of edit.now) findings size }
{
    if findings.has_unread_prefix {
        return Some(Refusal::RecipePrefix);
    }
    if is_missing(edit, findings.reach.count) {
        return Some(Refusal::NoSuch);
    }
    if findings.lines == 0 {
        return Some(Refusal::Absent);
    }
    if findings.put > MAX_TEXT - size + findings.taken {
        return Some(Refusal::TooLong);
    }
    None
}
