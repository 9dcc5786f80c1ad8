//! What a change of all values of a name finds among the lines of a document, seen by one walk.
ghost use Rattle.std.specs.Prelude.{◌≡◌, ◌+◌, ◌*◌, ◌<◌, ◌≤◌, ◌^◌, IfSome, drop, length, map};
ghost use Rattle.mk_lines.specs.Limits.{max_text};
ghost use Rattle.mk_tree.specs.Admissions.{AreAdmitted};
ghost use Rattle.mk_tree.specs.Documents.{IsFaithful};
ghost use Rattle.mk_tree.specs.Origins.{lines_between};
ghost use Rattle.mk_tree.specs.Trees.{line_view};
ghost use Rattle.mk_edit_parts.specs.LocatedParts.{IsClassed};
ghost use Rattle.mk_edit_parts.specs.Windows.{AreWindows, below_all, concerns_name, first_place};
ghost use Rattle.mk_edit.specs.ValueChangeLines.{change_view, is_changed_located, spared_by};
ghost use Rattle.mk_edit.specs.ChangeValuesSurveys.{IsSurveyedTo, findings_on, found_by, meant_places, meant_view, nothing_found};

use crate::change_values_places::{Meant, with_meant};
use crate::value_change::{Change, has_effect, is_open, spared_by};
use mk_class::Class;
use mk_edit_parts::line_test::assigns;
use mk_edit_parts::seek::Found;
use mk_edit_parts::window::Window;
use mk_tree::end::sets_prefix_unread;
use mk_tree::{Doc, Line};
use std::alloc::Allocator;

/// What a change of values finds among some lines.
#[derive(Clone, Copy)]
pub(crate) struct Findings {
    /// Whether a line sets the recipe prefix in a way that is not read.
    pub has_unread_prefix: bool,
    /// Whether a line assigns the name.
    pub is_there: bool,
    /// Whether the change would be refused for the value of a line that it changes.
    pub is_open: bool,
    /// How many lines the change changes.
    pub lines: usize,
    /// How many of the bytes that it puts into these lines do not make them longer.
    pub spared: usize,
}

/// What the walk that decides a change of values has seen.
#[derive(Drop)]
pub(crate) struct Survey<'a, A: Allocator> {
    /// What the change finds.
    pub findings: Findings,
    /// The places of the lines that it changes, in their order, each with the line itself. `None` if a
    /// growth was refused.
    pub places: Option<Vec<Meant<'a, A>, A>>,
}

/// What a change of all values of a name finds among the lines of a document, and which of them it
/// changes. The call walks once over the lines of the windows, outside of which no line concerns the
/// name, and reads no line anew. It takes time linear in the number of these lines, and goes one way
/// down the tree for each window. It takes memory for the places alone, and goes on without it.
pub(crate) fn change_values_survey<'a, A: Allocator + Copy>(
    alloc: A,
    doc: &'a Doc<A>,
    windows: &[Window],
    name: &[u8],
    change: Change<'_>,
) -> Survey<'a, A>
    requires faithful { IsFaithful doc.now }
    requires windows { AreWindows (concerns_name name.now) first_place doc.now windows.now }
    ensures findings { result.findings
        ≡ findings_on name.now (change_view change.entry) doc.now }
    ensures few { result.findings.spared ≤ 2 * max_text }
    ensures places { IfSome result.places (λ places. map meant_view places.items
        ≡ meant_places name.now (change_view change.entry) doc.now) }
{
    // The contract of `size` says that the text is within the limit, and so is what is spared; that of
    // `iter` says that each line is admitted where it stands.
    let _size = doc.size();
    let _lines = doc.iter();
    let mut survey = Survey {
        findings: nothing_found(),
        places: Some(Vec::new(alloc)),
    };
    'windows: for window in windows {
        survey = surveyed(doc, *window, name, change, survey);
    }
    survey
}

// A survey with the lines of one more window.
fn surveyed<'a, A: Allocator>(
    doc: &'a Doc<A>,
    window: Window,
    name: &[u8],
    change: Change<'_>,
    survey: Survey<'a, A>,
) -> Survey<'a, A>
    requires faithful { IsFaithful doc.now }
    requires in_range { window.place.at + window.count ≤ length doc.now }
    requires admitted { AreAdmitted window.place.context (drop window.place.at doc.now) }
    requires surveyed { IsSurveyedTo name.now (change_view change) doc.now window.place
        survey.findings (λ p. p.items) survey.places }
    ensures { IsSurveyedTo name.now (change_view change.entry) doc.now
        (below_all window.place (lines_between window.place.at window.count doc.now))
        result.findings (λ p. p.items) result.places }
{
    // The contract of `size` bounds the number of lines.
    let _size = doc.size();
    let Survey {
        mut findings,
        mut places,
    } = survey;
    let mut context = window.place.context;
    let mut at = window.place.at;
    let end = at + window.count;
    'lines: for line in doc.lines_from(at) {
        if at == end {
            break;
        }
        let class = line.class();
        let is_changed = changes_line(line, &class, name, change);
        findings = found(findings, line, &class, name, change, is_changed);
        if is_changed {
            let place = Found { at, context };
            places = with_meant(places, Meant { place, line });
        }
        at += 1;
        context = context.step(&class);
    }
    Survey { findings, places }
}

// What is found among no lines.
fn nothing_found() -> Findings
    ensures { result ≡ nothing_found }
{
    Findings {
        has_unread_prefix: false,
        is_there: false,
        is_open: false,
        lines: 0,
        spared: 0,
    }
}

// Whether a change changes a line: the line assigns the name, and the change does something to its
// value.
fn changes_line<A: Allocator>(
    line: &Line<A>,
    class: &Class,
    name: &[u8],
    change: Change<'_>,
) -> bool
    requires classed { IsClassed (line_view line.now) }
    requires class { class.now ≡ (line_view line.now).class }
    ensures { result
        ≡ is_changed_located name.now (change_view change.entry) (line_view line.now) }
{
    assigns(line, class, name) && has_effect(change, line)
}

// What is found among some lines and one line more. The caller knows whether the change changes it.
fn found<A: Allocator>(
    findings: Findings,
    line: &Line<A>,
    class: &Class,
    name: &[u8],
    change: Change<'_>,
    is_changed: bool,
) -> Findings
    requires classed { IsClassed (line_view line.now) }
    requires class { class.now ≡ (line_view line.now).class }
    requires changed { is_changed
        ≡ is_changed_located name.now (change_view change) (line_view line.now) }
    requires few_lines { findings.lines ≤ max_text }
    requires few { findings.spared + spared_by (change_view change) (line_view line.now)
        < 2 ^ 32 }
    ensures { result
        ≡ found_by name.now (change_view change.entry) (line_view line.now) findings }
{
    let mut found = findings;
    found.has_unread_prefix |= sets_prefix_unread(line, class);
    found.is_there |= assigns(line, class, name);
    if is_changed {
        found.is_open |= is_open(change, line);
        found.lines += 1;
        found.spared += spared_by(change, line);
    }
    found
}
