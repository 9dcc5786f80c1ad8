//! The runs for a block in a document: lines that follow each other and say together what the block
//! says. They are found by a walk over the kept lines, or over those of some windows.
//!
//! A walk tries a run at each line. Where the first line says something else, that costs one
//! comparison. Where a block begins with lines that are the same, those of the document are counted and
//! not compared again. The worst case, lines that say a part of a long block over and over, costs as many
//! comparisons as the document has lines times those of the block. No call reads a line anew or takes
//! memory.
ghost use Rattle.std.specs.Prelude.{◌≡◌, ◌+◌, ◌<◌, ◌≤◌, ◌==◌, ◌||◌, [], ◌∷◌, IfSome, get_or, is_some, drop, length, false, not};
ghost use Rattle.std.specs.List.{list_any};
ghost use Rattle.mk_lines.specs.Limits.{max_text};
ghost use Rattle.mk_class.specs.ClassedLines.{classed_lines};
ghost use Rattle.mk_tree.specs.Admissions.{AreAdmitted};
ghost use Rattle.mk_tree.specs.Documents.{IsFaithful};
ghost use Rattle.mk_tree.specs.LocatedLines.{located_text};
ghost use Rattle.mk_tree.specs.Origins.{lines_between};
ghost use Rattle.mk_tree.specs.Trees.{line_view};
ghost use Rattle.mk_edit_language.specs.LineRuns.{block_lines, is_in_run, runs};
ghost use Rattle.mk_edit_language.specs.Stretches.{Stretch};
ghost use Rattle.mk_edit_parts.specs.Found.{IsPlaceOf};
ghost use Rattle.mk_edit_parts.specs.LineRunsFound.{AreRunMatches, block_seen, numbered};
ghost use Rattle.mk_edit_parts.specs.LineRunWalks.{BeginSame, SayAlone, has_line_feed, holds, is_reached, reached, run_length, with_run, with_runs};
ghost use Rattle.mk_edit_parts.specs.Seeking.{wanted_of};
ghost use Rattle.mk_edit_parts.specs.Windows.{AreWindows, first_place, says_first};

use crate::block::{Left, after_line, after_same, block_front, line_count, same_lines, says_alone};
use crate::seek::Found;
use crate::window::Window;
use mk_lines::source::MAX_TEXT;
use mk_tree::{Doc, Line};
use std::alloc::Allocator;

/// The runs for a block in a document.
#[derive(Clone, Copy)]
pub struct RunMatches {
    /// How many there are.
    pub count: usize,
    /// The lines of the run of the number that is wanted, or of the first run if none is.
    pub found: Option<Window>,
}

/// The runs for a block, and the run of a number from 1; the first if no number is given. Runs may
/// overlap, and are numbered by where they begin. The call walks over the lines of some windows alone,
/// outside of which no line begins as the block does.
pub fn run_matches<A: Allocator>(
    doc: &Doc<A>,
    windows: &[Window],
    block: &[u8],
    nth: Option<u32>,
) -> RunMatches
    requires faithful { IsFaithful doc.now }
    requires windows { AreWindows (says_first (block_lines block.now)) first_place doc.now
        windows.now }
    ensures matches { AreRunMatches (classed_lines (located_text doc.now)) (block_lines block.now)
        nth result }
    ensures within { IfSome result.found (λ run. run.place.at + run.count ≤ length doc.now) }
    ensures place { IfSome result.found (λ run. IsPlaceOf doc.now run.place) }
{
    // The contract of `iter` says that each line is admitted where it stands.
    let _lines = doc.iter();
    let wanted = wanted(nth);
    let same = same_lines(block);
    let mut matches = RunMatches {
        count: 0,
        found: None,
    };
    'windows: for window in windows {
        matches = matches_in(doc, *window, block, same, wanted, matches);
    }
    matches
}

// What is found with each run that begins with a line of one more window. So many of the first lines of
// the block are the same.
fn matches_in<A: Allocator>(
    doc: &Doc<A>,
    window: Window,
    block: &[u8],
    same: usize,
    wanted: usize,
    matches: RunMatches,
) -> RunMatches
    requires same { BeginSame (get_or (block_lines block.now) 0 []) same (block_lines block.now) }
    requires in_range { window.place.at + window.count ≤ length doc.now }
    requires admitted { AreAdmitted window.place.context (drop window.place.at doc.now) }
    requires few { matches.count ≤ window.place.at }
    ensures { result ≡ with_runs (block_lines block.now) wanted window.place
        (lines_between window.place.at window.count doc.now)
        (drop (window.place.at + window.count) doc.now) matches }
{
    prove!(doc.len() <= MAX_TEXT);
    let mut found = matches;
    let Found { at, context } = window.place;
    let mut at = at;
    let mut context = context;
    let mut known = 0;
    let mut lines = doc.lines_from(at);
    'lines: for passed in 0..window.count {
        let Some(line) = lines.next() else {
            unreachable!()
        };
        known = known_at(doc, at, block, same, known);
        let run = length_past(doc, line, at, block, known.min(same));
        found = with_run(found, wanted, Found { at, context }, run);
        context = context.step(&line.class());
        known = known.saturating_sub(1);
        at += 1;
    }
    found
}

// How many lines from an index on are known to say what a block begins with, and nothing else: those
// that were known, or, if there were none, those that are there. They are counted only for a block whose
// first lines are the same.
fn known_at<A: Allocator>(doc: &Doc<A>, at: usize, block: &[u8], same: usize, known: usize) -> usize
    requires in_range { at ≤ length doc.now }
    requires known { SayAlone (get_or (block_lines block.now) 0 []) known (drop at doc.now) }
    ensures { SayAlone (get_or (block_lines block.now) 0 []) result (drop at doc.now) }
{
    if same < 2 || known > 0 {
        known
    } else {
        alone_from(doc, at, block_front(block))
    }
}

// How many lines from an index on say a text, and nothing else.
fn alone_from<A: Allocator>(doc: &Doc<A>, at: usize, text: &[u8]) -> usize
    requires in_range { at ≤ length doc.now }
    requires one_line { has_line_feed text.now ≡ false }
    ensures { SayAlone text.now result (drop at doc.now) }
{
    prove!(doc.len() <= MAX_TEXT);
    let mut count = 0;
    let mut lines = doc.lines_from(at);
    'lines: while let Some(line) = lines.next() {
        if !says_alone(line.bytes(), text) {
            return count;
        }
        count += 1;
    }
    count
}

// How many lines the run has that begins with the line at an index, if one does. So many lines from
// there on say what as many of the block's first lines say, and nothing else.
fn length_past<A: Allocator>(
    doc: &Doc<A>,
    line: &Line<A>,
    at: usize,
    block: &[u8],
    passed: usize,
) -> Option<usize>
    requires here { drop at doc.now ≡ line_view line.now ∷ drop (at + 1) doc.now }
    requires in_range { at < length doc.now }
    requires same { BeginSame (get_or (block_lines block.now) 0 []) passed (block_lines block.now) }
    requires alone { SayAlone (get_or (block_lines block.now) 0 []) passed (drop at doc.now) }
    ensures run { result
        ≡ run_length (block_lines block.now) (line_view line.now ∷ drop (at + 1) doc.now) }
    ensures within { IfSome result (λ count. at + count ≤ length doc.now) }
{
    prove!(doc.len() <= MAX_TEXT);
    if passed == 0 {
        return length_at(doc, line, at + 1, block);
    }
    let Some(rest) = after_same(block, block_front(block), passed) else {
        return Some(passed);
    };
    match length_from(doc, at + passed, rest) {
        Some(count) => Some(passed + count),
        None => None,
    }
}

/// Whether some lines of a document lie within a run for a block: `count` lines, the first of which
/// stands at the index `at`. If they are none, their place lies within the run at its ends too.
pub fn is_in_run<A: Allocator>(doc: &Doc<A>, at: usize, count: usize, block: &[u8]) -> bool
    requires faithful { IsFaithful doc.now }
    requires in_range { at + count ≤ length doc.now }
    ensures { (stretch : Stretch) → length stretch.above ≡ at → length stretch.lines ≡ count
        → result
        ≡ is_in_run (block_lines block.now) (classed_lines (located_text doc.now)) stretch }
{
    prove!(doc.len() <= MAX_TEXT);
    // A run has no more lines than its block, so that one which begins above does not reach the end.
    let first = (at + count).saturating_sub(line_count(block));
    let mut lines = doc.lines_from(first);
    'lines: for start in first..doc.len() {
        let Some(line) = lines.next() else {
            unreachable!()
        };
        if start > at {
            return false;
        }
        let run = length_at(doc, line, start + 1, block);
        if holds(start, at, at + count, run) {
            return true;
        }
    }
    false
}

/// Whether each run for a block that may be meant lies within a run for another block: the run of a
/// number from 1, or each if no number is given. `matches` is what [`run_matches`] answers for this
/// block and this number. There is no other block if lines are taken out, and no run lies within
/// nothing.
pub fn is_exchanged<A: Allocator>(
    doc: &Doc<A>,
    block: &[u8],
    nth: Option<u32>,
    matches: RunMatches,
    new: Option<&[u8]>,
) -> bool
    requires faithful { IsFaithful doc.now }
    requires matches { AreRunMatches (classed_lines (located_text doc.now)) (block_lines block.now)
        nth matches }
    ensures { result
        ≡ not (list_any (λ run. not (is_in_run (block_seen new.entry)
        (classed_lines (located_text doc.now)) run))
        (numbered nth (runs (block_lines block.now) (classed_lines (located_text doc.now))))) }
{
    let RunMatches { count, found } = matches;
    let Some(run) = found else {
        return true;
    };
    let Some(new) = new else {
        return false;
    };
    if is_one(nth, count) {
        is_in_run(doc, run.place.at, run.count, new)
    } else {
        are_in_runs(doc, block, new)
    }
}

// Whether one of so many runs may be meant: that of a number, or the only one.
fn is_one(nth: Option<u32>, count: usize) -> bool
    ensures { result ≡ (is_some nth || (count == 1)) }
{
    nth.is_some() || count == 1
}

// Whether each run for a block lies within a run for another block.
fn are_in_runs<A: Allocator>(doc: &Doc<A>, block: &[u8], new: &[u8]) -> bool
    requires { IsFaithful doc.now }
    ensures { result
        ≡ not (list_any (λ run. not (is_in_run (block_lines new.now)
        (classed_lines (located_text doc.now)) run))
        (runs (block_lines block.now) (classed_lines (located_text doc.now)))) }
{
    prove!(doc.len() <= MAX_TEXT);
    let mut reach = 0;
    let mut lines = doc.iter();
    'lines: for at in 0..doc.len() {
        let Some(line) = lines.next() else {
            unreachable!()
        };
        let new_run = length_at(doc, line, at + 1, new);
        let run = length_at(doc, line, at + 1, block);
        reach = reached(reach, at, new_run);
        if !is_reached(reach, at, run) {
            return false;
        }
    }
    true
}

// What is found with the run that begins at a place, if there is one.
fn with_run(matches: RunMatches, wanted: usize, place: Found, run: Option<usize>) -> RunMatches
    requires few { matches.count < max_text }
    ensures { result ≡ with_run wanted place run matches }
{
    let Some(lines) = run else {
        return matches;
    };
    let count = matches.count + 1;
    let found = if count == wanted {
        Some(Window {
            place,
            count: lines,
        })
    } else {
        matches.found
    };
    RunMatches { count, found }
}

// Whether a run of some lines from an index on, if there is one, holds a stretch from an index on up
// to another.
fn holds(start: usize, at: usize, end: usize, run: Option<usize>) -> bool
    requires few { IfSome run (λ count. start + count ≤ max_text) }
    ensures { result ≡ holds start at end run }
{
    match run {
        Some(count) => start <= at && end <= start + count,
        None => false,
    }
}

// How far the runs reach that were passed: one more than the index of their furthest end, or 0 if
// there are none. One more run may begin at an index.
fn reached(reach: usize, at: usize, run: Option<usize>) -> usize
    requires few { IfSome run (λ count. at + count ≤ max_text) }
    ensures { result ≡ reached reach at run }
{
    match run {
        Some(count) => reach.max(at + count + 1),
        None => reach,
    }
}

// Whether a run of some lines from an index on, if there is one, ends within what is reached.
fn is_reached(reach: usize, at: usize, run: Option<usize>) -> bool
    requires few { IfSome run (λ count. at + count ≤ max_text) }
    ensures { result ≡ is_reached reach at run }
{
    match run {
        Some(count) => at + count < reach,
        None => true,
    }
}

// How many lines the run has that begins with a line, if one does. The lines after it stand from the
// index `below` on.
fn length_at<A: Allocator>(
    doc: &Doc<A>,
    line: &Line<A>,
    below: usize,
    block: &[u8],
) -> Option<usize>
    requires in_range { below ≤ length doc.now }
    ensures run { result
        ≡ run_length (block_lines block.now) (line_view line.now ∷ drop below doc.now) }
    ensures within { IfSome result (λ count. below + count ≤ length doc.now + 1) }
{
    prove!(doc.len() <= MAX_TEXT);
    match after_line(line.bytes(), block) {
        Left::Other => None,
        Left::Nothing => Some(1),
        Left::Lines(left) => match length_from(doc, below, left) {
            Some(count) => Some(count + 1),
            None => None,
        },
    }
}

// How many lines the run has that begins with the line at an index, if one does.
fn length_from<A: Allocator>(doc: &Doc<A>, from: usize, block: &[u8]) -> Option<usize>
    requires in_range { from ≤ length doc.now }
    ensures run { result ≡ run_length (block_lines block.now) (drop from doc.now) }
    ensures within { IfSome result (λ count. from + count ≤ length doc.now) }
{
    prove!(doc.len() <= MAX_TEXT);
    let mut left = block;
    let mut count = 0;
    let mut lines = doc.lines_from(from);
    'lines: while let Some(line) = lines.next() {
        count += 1;
        match after_line(line.bytes(), left) {
            Left::Other => return None,
            Left::Nothing => return Some(count),
            Left::Lines(more) => left = more,
        }
    }
    None
}

// The number of the run that is wanted, from 1; 1 if no number is given.
fn wanted(nth: Option<u32>) -> usize
    ensures { result ≡ wanted_of nth }
{
    match nth {
        Some(nth) => nth as usize,
        None => 1,
    }
}
