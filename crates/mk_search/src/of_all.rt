//! One command for many equal changes.

use crate::bench::{Bench, script_of};
use crate::fault::DeriveError;
use crate::of_recipe::recipe_text;
use crate::step::{Step, steps_between};
use crate::text::{SeenLine, Text, read};
use crate::text_change::{Carrier, TextChange, changes_of, distance};
use mk_edit_language::Edit;
use mk_lines::Fault;
use mk_tree::{Doc, text_of};
use std::alloc::{AllocError, Global};

// The fewest lines of the file for which one command is sought.
const FEWEST: usize = 3;
// The fewest lines of one rule, or of one variable, for which one is sought.
const FEWEST_OF_ONE: usize = 2;
// The most changed lines that are looked at.
const MOST_LINES: usize = 1000;
// The most commands that are tried.
const MOST_TRIED: usize = 64;

// A line that becomes another one.
#[derive(Clone, Copy)]
struct Pair<'a, 'b> {
    at: usize,
    old: SeenLine<'a>,
    new: SeenLine<'b>,
}

// A command that may make equal changes, and in how many lines.
#[derive(Drop)]
struct Candidate {
    edit: Edit,
    // The last line that it may change.
    last: usize,
    count: usize,
    fewest: usize,
}

impl Candidate {
    // Counts a change of the line at an index, once.
    fn meets(&mut self, at: usize) {
        if self.last != at {
            self.last = at;
            self.count = self.count.saturating_add(1);
        }
    }
}

/// Keeps commands that make many equal changes each, and touch no other line.
pub(crate) fn tries_all(bench: &mut Bench, new: &Text<'_>) -> Result<(), DeriveError> {
    let alloc = bench.alloc();
    let text = text_of(alloc, bench.doc())?;
    let doc = read(alloc, text.as_slice())?;
    let old = Text::new(alloc, &doc, text.as_slice())?;
    let pairs = pairs_of(alloc, &old, new)?;
    let candidates = candidates_of(alloc, pairs.as_slice())?;
    tries_best(bench, candidates, &old, pairs.as_slice())
}

// The lines that become others.
fn pairs_of<'a, 'b>(
    alloc: Global,
    old: &Text<'a>,
    new: &Text<'b>,
) -> Result<Vec<Pair<'a, 'b>>, Fault> {
    let mut pairs = Vec::new(alloc);
    for step in &steps_between(alloc, old, new)? {
        if let Some(pair) = pair_at(old, new, *step) {
            pairs.push(pair)?;
        }
    }
    Ok(pairs)
}

// The line that becomes another one by a step, if that is all.
fn pair_at<'a, 'b>(old: &Text<'a>, new: &Text<'b>, step: Step) -> Option<Pair<'a, 'b>> {
    if step.removed() != 1 || step.added() != 1 {
        return None;
    }
    Some(Pair {
        at: step.old_start,
        old: old.line(step.old_start)?,
        new: new.line(step.new_start)?,
    })
}

// The commands that may make the changes of some lines.
fn candidates_of(alloc: Global, pairs: &[Pair<'_, '_>]) -> Result<Vec<Candidate>, Fault> {
    let mut candidates = Vec::new(alloc);
    for pair in pairs.iter().take(MOST_LINES) {
        push_candidates(alloc, *pair, &mut candidates)?;
    }
    Ok(candidates)
}

// Keeps commands, those first that may make most changes.
fn tries_best(
    bench: &mut Bench,
    mut candidates: Vec<Candidate>,
    old: &Text<'_>,
    pairs: &[Pair<'_, '_>],
) -> Result<(), DeriveError> {
    for _ in 0..MOST_TRIED {
        let Some(candidate) = take_best(&mut candidates) else {
            break;
        };
        tries_candidate(bench, candidate.edit, old, pairs)?;
    }
    Ok(())
}

// Takes the candidate with the most changes out, if one has enough.
fn take_best(candidates: &mut Vec<Candidate>) -> Option<Candidate> {
    let at = best_of(candidates.as_slice())?;
    if at < candidates.len() {
        Some(candidates.remove(at))
    } else {
        None
    }
}

// The index of the first candidate with the most changes, if one has enough.
fn best_of(candidates: &[Candidate]) -> Option<usize> {
    let mut best = None;
    let mut most = 0usize;
    for (at, candidate) in candidates.iter().enumerate() {
        if candidate.count >= candidate.fewest && candidate.count > most {
            most = candidate.count;
            best = Some(at);
        }
    }
    best
}

// What one line has in the place of another, where an edit of texts finds it: in such lines of one name or
// target, and in all such lines.
#[derive(Clone, Copy)]
struct Carried<'a, 'b> {
    old: &'a [u8],
    new: &'b [u8],
    one: Carrier<'a>,
    all: Carrier<'a>,
}

// What a pair has that edits of texts find.
fn carried_by<'a, 'b>(pair: Pair<'a, 'b>) -> Option<Carried<'a, 'b>> {
    if let (Some(old), Some(new)) = (pair.old.assignment(), pair.new.assignment()) {
        return Some(Carried {
            old: old.value(),
            new: new.value(),
            one: Carrier::EachValue(old.name()),
            all: Carrier::Values,
        });
    }
    let target = pair.old.recipe_target()?;
    Some(Carried {
        old: recipe_text(pair.old)?,
        new: recipe_text(pair.new)?,
        one: Carrier::Recipe(target),
        all: Carrier::Recipes,
    })
}

// Counts the commands that may make the changes of a line.
fn push_candidates(
    alloc: Global,
    pair: Pair<'_, '_>,
    candidates: &mut Vec<Candidate>,
) -> Result<(), Fault> {
    if let (Some(old), Some(new)) = (pair.old.target(), pair.new.target()) {
        if old != new {
            count(Edit::rename(alloc, old, new)?, pair.at, 1, candidates)?;
        }
        return Ok(());
    }
    let Some(carried) = carried_by(pair) else {
        return Ok(());
    };
    for change in &changes_of(alloc, carried.old, carried.new)? {
        count_change(
            alloc,
            *change,
            carried.one,
            pair.at,
            FEWEST_OF_ONE,
            candidates,
        )?;
        count_change(alloc, *change, carried.all, pair.at, FEWEST, candidates)?;
    }
    Ok(())
}

// Counts the commands that make a change in the line at an index, alone and with the rest of its words.
fn count_change(
    alloc: Global,
    change: TextChange<'_>,
    carrier: Carrier<'_>,
    at: usize,
    fewest: usize,
    candidates: &mut Vec<Candidate>,
) -> Result<(), AllocError> {
    for around in [None, Some(0)] {
        if let Some(edit) = change.edit(alloc, carrier, around)? {
            count(edit, at, fewest, candidates)?;
        }
    }
    Ok(())
}

// Counts a command for the line at an index.
fn count(
    edit: Edit,
    at: usize,
    fewest: usize,
    candidates: &mut Vec<Candidate>,
) -> Result<(), AllocError> {
    for candidate in candidates.iter_mut() {
        if candidate.edit == edit {
            candidate.meets(at);
            return Ok(());
        }
    }
    candidates.push(Candidate {
        edit,
        last: at,
        count: 1,
        fewest,
    })?;
    Ok(())
}

// Keeps a command if it makes each line that it changes more like the one that this line is to become.
fn tries_candidate(
    bench: &mut Bench,
    edit: Edit,
    old: &Text<'_>,
    pairs: &[Pair<'_, '_>],
) -> Result<(), DeriveError> {
    let edits = [edit];
    let Some(script) = script_of(bench.alloc(), b"", &edits)? else {
        return Ok(());
    };
    if !bench.makes_all(&edits)? {
        return Ok(());
    }
    if leads_nearer(bench.alloc(), bench.doc(), old, pairs)? {
        bench.begin_place();
        bench.keep(script.as_slice())?;
    } else {
        bench.cancel();
    }
    Ok(())
}

// Whether each line of a document is the old line, or is more like the one that this is to become.
fn leads_nearer(
    alloc: Global,
    doc: &Doc,
    old: &Text<'_>,
    pairs: &[Pair<'_, '_>],
) -> Result<bool, Fault> {
    if doc.len() != old.len() {
        return Ok(false);
    }
    let mut rest = pairs;
    for (at, line) in doc.iter().enumerate() {
        match rest {
            [pair, below @ ..] if pair.at == at => {
                rest = below;
                if !is_nearer(alloc, line.bytes(), *pair)? {
                    return Ok(false);
                }
            }
            _ if !is_line(old, at, line.bytes()) => return Ok(false),
            _ => {}
        }
    }
    Ok(true)
}

// Whether the line at an index has these bytes, if there is one.
fn is_line(text: &Text<'_>, at: usize, bytes: &[u8]) -> bool {
    match text.line(at) {
        Some(line) => line.bytes() == bytes,
        None => true,
    }
}

// Whether a line is the old one of a pair, or more like the new one than that.
fn is_nearer(alloc: Global, bytes: &[u8], pair: Pair<'_, '_>) -> Result<bool, Fault> {
    if bytes == pair.old.bytes() || bytes == pair.new.bytes() {
        return Ok(true);
    }
    let before = distance(alloc, pair.old.bytes(), pair.new.bytes())?;
    Ok(distance(alloc, bytes, pair.new.bytes())? < before)
}
