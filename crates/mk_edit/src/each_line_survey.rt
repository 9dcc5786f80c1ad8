//! What an edit of several lines finds among the lines of a document, seen by one walk.
ghost use Rattle.std.specs.Prelude.{◌≡◌, ◌+◌, ◌<◌, ◌≤◌, ◌&&◌, IfSome, drop, false, length, map, not, true};
ghost use Rattle.mk_lines.specs.Limits.{max_text};
ghost use Rattle.mk_tree.specs.Admissions.{AreAdmitted};
ghost use Rattle.mk_tree.specs.Documents.{IsFaithful};
ghost use Rattle.mk_tree.specs.Trees.{line_view};
ghost use Rattle.mk_edit_language.specs.EachLine.{each_change};
ghost use Rattle.mk_edit_language.specs.EditViews.{each_edit_of};
ghost use Rattle.mk_edit_parts.specs.EachLineWalks.{each_change_view, is_meant_located};
ghost use Rattle.mk_edit_parts.specs.LocatedParts.{IsClassed};
ghost use Rattle.mk_edit_parts.specs.Windows.{AreWindows, concerns_each, first_place};
ghost use Rattle.mk_edit.specs.EachLineSurveys.{IsCountable, IsOfLines, IsSurveyedTo, findings_on, found_by, noted_lines, noted_view, nothing_found, places_meant};

use crate::each_line_count::{PlaceCount, count_places, gets_longer};
use crate::each_line_notes::{Noted, with_noted};
use mk_class::{Class, Context};
use mk_edit_language::EachEdit;
use mk_edit_parts::each_line::{EachChange, Reach, is_meant, reach_after};
use mk_edit_parts::seek::Found;
use mk_edit_parts::window::Window;
use mk_tree::end::sets_prefix_unread;
use mk_tree::{Doc, Line};
use std::alloc::Allocator;

/// What an edit of several lines finds among some lines.
#[derive(Clone, Copy)]
pub(crate) struct Findings {
    /// Whether a line sets the recipe prefix in a way that is not read.
    pub has_unread_prefix: bool,
    /// How far the walk for the lines that the edit means has come.
    pub reach: Reach,
    /// How many lines the edit changes.
    pub lines: usize,
    /// How many bytes it takes out of these lines.
    pub taken: usize,
    /// How many bytes it puts into them; `usize::MAX` if they are more.
    pub put: usize,
}

/// What the walk that decides an edit of several lines has seen.
#[derive(Drop)]
pub(crate) struct Survey<'a, A: Allocator> {
    /// What the edit finds.
    pub findings: Findings,
    /// The lines that it changes, in their order. `None` if a growth was refused.
    pub notes: Option<Vec<Noted<'a, A>, A>>,
    /// The place that the walk has come to.
    pub place: Found,
}

/// What an edit of several lines finds among the lines of a document, and which of them it changes. The
/// call walks once over the lines of the windows, and over the lines below them that belong to the recipe
/// of a rule that the edit means; no other line concerns the edit. It reads no line anew. It takes time
/// linear in the number of these lines, and goes at most twice down the tree for each window. It takes
/// memory for the notes alone, and goes on without it.
pub(crate) fn each_line_survey<'a, A: Allocator + Copy>(
    alloc: A,
    doc: &'a Doc<A>,
    windows: &[Window],
    edit: &EachEdit<A>,
    change: EachChange<'_>,
) -> Survey<'a, A>
    requires faithful { IsFaithful doc.now }
    requires change { each_change_view change ≡ each_change (each_edit_of edit.now) }
    requires lines { IsOfLines (each_edit_of edit.now) }
    requires windows { AreWindows (concerns_each (each_edit_of edit.now)) first_place doc.now
        windows.now }
    ensures findings { result.findings ≡ findings_on (each_edit_of edit.now) doc.now }
    ensures few { result.findings.taken ≤ max_text }
    ensures notes { IfSome result.notes (λ notes. map noted_view notes.items
        ≡ noted_lines (each_edit_of edit.now) doc.now) }
{
    // The contract of `size` bounds the number of lines and of their bytes; that of `iter` says that each
    // line is admitted where it stands.
    let _size = doc.size();
    let _lines = doc.iter();
    let mut survey = Survey {
        findings: nothing_found(),
        notes: Some(Vec::new(alloc)),
        place: Found {
            at: 0,
            context: Context::start(),
        },
    };
    'windows: for window in windows {
        let Window { place, count } = *window;
        if survey.findings.reach.is_in_rule {
            survey = surveyed(doc, edit, change, place.at, true, survey);
        }
        let end = place.at + count;
        survey.place = place;
        survey = surveyed(doc, edit, change, end, false, survey);
    }
    survey
}

// A survey with the lines from its place up to the line of the index `end`; or up to the end of the
// recipe of the rule that it is in, if only this is to be seen and it ends above.
fn surveyed<'a, A: Allocator>(
    doc: &'a Doc<A>,
    edit: &EachEdit<A>,
    change: EachChange<'_>,
    end: usize,
    is_only_rule: bool,
    survey: Survey<'a, A>,
) -> Survey<'a, A>
    requires faithful { IsFaithful doc.now }
    requires change { each_change_view change ≡ each_change (each_edit_of edit.now) }
    requires lines { IsOfLines (each_edit_of edit.now) }
    requires ahead { survey.place.at ≤ end }
    requires in_range { end ≤ length doc.now }
    requires admitted { AreAdmitted survey.place.context (drop survey.place.at doc.now) }
    requires surveyed { IsSurveyedTo (each_edit_of edit.now) doc.now survey.place survey.findings
        (λ n. n.items) survey.notes }
    ensures lower { survey.entry.place.at ≤ result.place.at }
    ensures upper { result.place.at ≤ end }
    ensures over { (is_only_rule && not result.findings.reach.is_in_rule) ≡ false
        → result.place.at ≡ end }
    ensures surveyed { IsSurveyedTo (each_edit_of edit.now) doc.now result.place result.findings
        (λ n. n.items) result.notes }
{
    // The contract of `size` bounds the number of lines and of their bytes.
    let _size = doc.size();
    let Survey {
        mut findings,
        mut notes,
        place,
    } = survey;
    let mut at = place.at;
    let mut context = place.context;
    'lines: for line in doc.lines_from(at) {
        if at == end || (is_only_rule && !findings.reach.is_in_rule) {
            break;
        }
        let class = line.class();
        let places = places_meant(edit, change, line, &class, findings.reach);
        findings = found(findings, edit, line, &class, places);
        if places.count > 0 {
            let noted = Noted {
                place: Found { at, context },
                line,
                is_longer: gets_longer(places),
            };
            notes = with_noted(notes, noted);
        }
        at += 1;
        context = context.step(&class);
    }
    Survey {
        findings,
        notes,
        place: Found { at, context },
    }
}

// What is found among no lines.
fn nothing_found() -> Findings
    ensures { result ≡ nothing_found }
{
    Findings {
        has_unread_prefix: false,
        reach: Reach::none(),
        lines: 0,
        taken: 0,
        put: 0,
    }
}

// The places of a line that an edit replaces. A line that it does not mean has none.
fn places_meant<A: Allocator>(
    edit: &EachEdit<A>,
    change: EachChange<'_>,
    line: &Line<A>,
    class: &Class,
    reach: Reach,
) -> PlaceCount
    requires classed { IsClassed (line_view line.now) }
    requires class { class.now ≡ (line_view line.now).class }
    requires change { each_change_view change ≡ each_change (each_edit_of edit.now) }
    requires can { is_meant_located (each_edit_of edit.now) reach (line_view line.now) ≡ true
        → IsCountable (each_change_view change) (line_view line.now) }
    ensures { result ≡ places_meant (each_edit_of edit.now) reach (line_view line.now) }
{
    if is_meant(edit, line, class, reach) {
        count_places(change, line)
    } else {
        PlaceCount {
            count: 0,
            bytes: 0,
            new: 0,
        }
    }
}

// What is found with one line more, in which these places are replaced.
fn found<A: Allocator>(
    findings: Findings,
    edit: &EachEdit<A>,
    line: &Line<A>,
    class: &Class,
    places: PlaceCount,
) -> Findings
    requires classed { IsClassed (line_view line.now) }
    requires class { class.now ≡ (line_view line.now).class }
    requires few_passed { findings.reach.count < max_text }
    requires few_lines { findings.lines < max_text }
    requires few_bytes { findings.taken + places.bytes ≤ max_text }
    ensures { result ≡ found_by (each_edit_of edit.now) (line_view line.now) places findings }
{
    let mut found = findings;
    found.has_unread_prefix |= sets_prefix_unread(line, class);
    found.reach = reach_after(edit, line, class, findings.reach);
    if places.count > 0 {
        found.lines += 1;
    }
    found.taken += places.bytes;
    let put = places.count.saturating_mul(places.new);
    found.put = findings.put.saturating_add(put);
    found
}
