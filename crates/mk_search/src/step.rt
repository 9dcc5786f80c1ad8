//! The steps that lead from the lines of the old makefile to those of the new one.

use crate::kinship::{have_one_name, kinship};
use crate::text::{SeenLine, Text};
use mk_diff::differences;
use mk_lines::Fault;
use std::alloc::{AllocError, Global};

// Stretches with fewer lines between them are aligned together.
const NEAR: usize = 8;
// The most pairs of lines that are compared to align a stretch.
const MOST_PAIRS: usize = 40_000;

/// Some old lines, and the new lines in their place. Lines are counted from 0, and the ends are not in it.
#[derive(Clone, Copy)]
pub(crate) struct Step {
    pub old_start: usize,
    pub old_end: usize,
    pub new_start: usize,
    pub new_end: usize,
}

impl Step {
    /// How many old lines there are.
    pub fn removed(self) -> usize {
        self.old_end.saturating_sub(self.old_start)
    }

    /// How many new lines there are.
    pub fn added(self) -> usize {
        self.new_end.saturating_sub(self.new_start)
    }

    // How many pairs of an old line and a new one there are.
    fn pairs(self) -> usize {
        self.removed().saturating_mul(self.added())
    }

    /// The step with all lines down to the end of a step below it.
    pub fn down_to(self, below: Step) -> Step {
        Step {
            old_end: below.old_end,
            new_end: below.new_end,
            ..self
        }
    }

    // Whether it has no lines.
    fn is_empty(self) -> bool {
        self.removed() == 0 && self.added() == 0
    }
}

/// The stretches in which two lists differ, in order, as steps.
///
/// # Errors
///
/// [`Fault::NoMemory`] if a list could not grow.
pub(crate) fn stretches(alloc: Global, old: &[&[u8]], new: &[&[u8]]) -> Result<Vec<Step>, Fault> {
    let mut steps = Vec::new(alloc);
    for stretch in &differences(alloc, old, new)? {
        steps.push(Step {
            old_start: stretch.old_start,
            old_end: stretch.old_end,
            new_start: stretch.new_start,
            new_end: stretch.new_end,
        })?;
    }
    Ok(steps)
}

/// The steps from one makefile to another, in order. A line that becomes another one is a step by itself.
///
/// # Errors
///
/// [`Fault::NoMemory`] if a list could not grow.
pub(crate) fn steps_between(
    alloc: Global,
    old: &Text<'_>,
    new: &Text<'_>,
) -> Result<Vec<Step>, Fault> {
    let mut steps = Vec::new(alloc);
    for region in &regions(alloc, old, new)? {
        align(alloc, old, new, *region, &mut steps)?;
    }
    Ok(steps)
}

// The stretches in which two makefiles differ, with those together that have few lines between them.
fn regions(alloc: Global, old: &Text<'_>, new: &Text<'_>) -> Result<Vec<Step>, Fault> {
    let old_lines = old.line_bytes(alloc)?;
    let new_lines = new.line_bytes(alloc)?;
    let stretches = stretches(alloc, old_lines.as_slice(), new_lines.as_slice())?;
    Ok(joined(alloc, stretches.as_slice())?)
}

// Steps with those together that have few lines between them.
fn joined(alloc: Global, steps: &[Step]) -> Result<Vec<Step>, AllocError> {
    let mut regions = Vec::new(alloc);
    let [first, others @ ..] = steps else {
        return Ok(regions);
    };
    let mut open = *first;
    for step in others {
        let together = open.down_to(*step);
        if step.old_start.saturating_sub(open.old_end) < NEAR && together.pairs() <= MOST_PAIRS {
            open = together;
        } else {
            regions.push(open)?;
            open = *step;
        }
    }
    regions.push(open)?;
    Ok(regions)
}

// Puts the steps of a region behind those above it.
fn align(
    alloc: Global,
    old: &Text<'_>,
    new: &Text<'_>,
    region: Step,
    steps: &mut Vec<Step>,
) -> Result<(), AllocError> {
    let old_lines = old.between(region.old_start, region.old_end);
    let new_lines = new.between(region.new_start, region.new_end);
    if region.pairs() > MOST_PAIRS {
        steps.push(region)?;
        return Ok(());
    }
    let table = weights(alloc, old_lines, new_lines)?;
    let mut walk = Alignment {
        open: Step {
            old_end: region.old_start,
            new_end: region.new_start,
            ..region
        },
        steps,
    };
    walk.go(table.as_slice(), old_lines, new_lines)?;
    walk.flush()
}

// The steps of a region so far, with the one that is not at its end yet.
#[derive(Drop)]
struct Alignment<'s> {
    open: Step,
    steps: &'s mut Vec<Step>,
}

impl<'s> Alignment<'s> {
    // Goes through the lines of the region, by the weights of what each of them may become.
    fn go(
        &mut self,
        table: &[Vec<usize>],
        old_lines: &[SeenLine<'_>],
        new_lines: &[SeenLine<'_>],
    ) -> Result<(), AllocError> {
        let mut rows = table;
        let mut old_rest = old_lines;
        let mut new_rest = new_lines;
        for _ in 0..old_lines.len().saturating_add(new_lines.len()) {
            match (choice_of(rows, old_rest, new_rest), old_rest, new_rest) {
                (Choice::Both, [line, old_below @ ..], [other, new_below @ ..]) => {
                    self.both(*line, *other)?;
                    old_rest = old_below;
                    new_rest = new_below;
                    rows = above(rows);
                }
                (Choice::Old, [_, below @ ..], _) => {
                    self.old();
                    old_rest = below;
                    rows = above(rows);
                }
                (_, _, [_, below @ ..]) => {
                    self.new_line();
                    new_rest = below;
                }
                _ => return Ok(()),
            }
        }
        Ok(())
    }

    // An old line that stays or becomes a new one. It is a step by itself if it is changed by its name.
    fn both(&mut self, old: SeenLine<'_>, new: SeenLine<'_>) -> Result<(), AllocError> {
        let is_equal = old.bytes() == new.bytes();
        if !is_equal && !have_one_name(old, new) {
            self.old();
            self.new_line();
            return Ok(());
        }
        self.flush()?;
        self.old();
        self.new_line();
        if is_equal {
            self.restart();
            Ok(())
        } else {
            self.flush()
        }
    }

    // An old line that goes.
    fn old(&mut self) {
        self.open.old_end = self.open.old_end.saturating_add(1);
    }

    // A new line.
    fn new_line(&mut self) {
        self.open.new_end = self.open.new_end.saturating_add(1);
    }

    // Ends the step that is open.
    fn flush(&mut self) -> Result<(), AllocError> {
        if !self.open.is_empty() {
            self.steps.push(self.open)?;
        }
        self.restart();
        Ok(())
    }

    // Begins a step where the last one ends.
    fn restart(&mut self) {
        self.open.old_start = self.open.old_end;
        self.open.new_start = self.open.new_end;
    }
}

// What becomes of the first lines of two texts.
#[derive(Clone, Copy)]
enum Choice {
    // The old one becomes the new one.
    Both,
    // The old one goes.
    Old,
    // The new one comes.
    New,
}

// The choice for the first of the lines that are left.
fn choice_of(rows: &[Vec<usize>], old: &[SeenLine<'_>], new: &[SeenLine<'_>]) -> Choice {
    match (old, new) {
        ([line, ..], [other, ..]) => chosen(rows, new.len(), kinship(*line, *other)),
        ([_, ..], []) => Choice::Old,
        ([], _) => Choice::New,
    }
}

// The choice that weighs most. The last row is that of the old lines here, and the one above it that of those
// below; `at` is the place of the new lines here in a row.
fn chosen(rows: &[Vec<usize>], at: usize, kinship: usize) -> Choice {
    let [.., below, here] = rows else {
        return Choice::Old;
    };
    let best = weight_at(here, at);
    let both = weight_at(below, at.saturating_sub(1)).saturating_add(kinship);
    if kinship > 0 && best == both {
        Choice::Both
    } else if best == weight_at(below, at) {
        Choice::Old
    } else {
        Choice::New
    }
}

// The rows without the last one.
fn above(rows: &[Vec<usize>]) -> &[Vec<usize>] {
    match rows {
        [others @ .., _] => others,
        [] => rows,
    }
}

// The weight at a place of a row.
fn weight_at(row: &[usize], at: usize) -> usize {
    row.get(at).copied().unwrap_or(0)
}

// For the old lines from each on, from none of them to all, and the same of the new lines: what they weigh
// at most if each becomes one below the others.
fn weights(
    alloc: Global,
    old: &[SeenLine<'_>],
    new: &[SeenLine<'_>],
) -> Result<Vec<Vec<usize>>, AllocError> {
    let mut table = Vec::new(alloc);
    let mut last = Vec::new(alloc);
    for _ in 0..new.len().saturating_add(1) {
        last.push(0usize)?;
    }
    for line in old.iter().rev() {
        let row = next_row(alloc, *line, new, last.as_slice())?;
        table.push(last)?;
        last = row;
    }
    table.push(last)?;
    Ok(table)
}

// The row of the old lines from one on, by the row of those below it.
fn next_row(
    alloc: Global,
    line: SeenLine<'_>,
    new: &[SeenLine<'_>],
    below: &[usize],
) -> Result<Vec<usize>, AllocError> {
    let mut row = Vec::new(alloc);
    let mut last = 0usize;
    row.push(last)?;
    for (at, other) in new.iter().rev().enumerate() {
        let both = weight_at(below, at).saturating_add(kinship(line, *other));
        last = last.max(both).max(weight_at(below, at.saturating_add(1)));
        row.push(last)?;
    }
    Ok(row)
}
