//! The search for a script.

use crate::aim::Aim;
use crate::bench::Bench;
use crate::fault::{DeriveError, Makefile, Unwritten};
use crate::of_all::tries_all;
use crate::of_lines::{exchange, tries_lines};
use crate::of_new_lines::{after_line_above, tries_new_lines};
use crate::of_recipe::{recipe_text, tries_recipe};
use crate::of_rule::tries_prereqs;
use crate::of_value::tries_value;
use crate::step::{Step, steps_between};
use crate::text::{SeenLine, Text, block_of, read};
use mk_edit_language::{Edit, Refusal};
use mk_tree::{Doc, text_of};
use std::alloc::{AllocError, Global};

// With how many steps below it a step is joined, but for the last one.
const MOST_JOINED: usize = 16;
// The most lines that are taken out by their names.
const MOST_GONE: usize = 3;

/// A step from one makefile to the other, in both.
#[derive(Clone, Copy)]
pub(crate) struct Spot<'a> {
    pub old: &'a Text<'a>,
    pub new: &'a Text<'a>,
    pub step: Step,
}

impl<'a> Spot<'a> {
    /// Another step between the same makefiles.
    pub fn at(self, step: Step) -> Spot<'a> {
        Spot { step, ..self }
    }

    /// The old lines of the step.
    pub fn gone(self) -> &'a [SeenLine<'a>] {
        self.old.between(self.step.old_start, self.step.old_end)
    }

    /// The new lines of the step.
    pub fn come(self) -> &'a [SeenLine<'a>] {
        self.new.between(self.step.new_start, self.step.new_end)
    }

    /// So many lines above the step, as far as there are such.
    pub fn above(self, count: usize) -> &'a [SeenLine<'a>] {
        let end = self.step.new_start;
        self.new.between(end.saturating_sub(count), end)
    }

    /// So many lines below the step, as far as there are such.
    pub fn below(self, count: usize) -> &'a [SeenLine<'a>] {
        let start = self.step.old_end;
        self.old.between(start, start.saturating_add(count))
    }

    /// The text to which the step leads.
    pub fn aim(self) -> Aim<'a> {
        Aim {
            front: self.new.before(self.step.new_end),
            back: self.old.after(self.step.old_end),
        }
    }
}

/// The script that the search finds.
///
/// # Errors
///
/// [`DeriveError::NoCommand`] with lines that no command writes, and [`DeriveError::NoMemory`].
pub fn found<'a>(
    alloc: Global,
    old: &[u8],
    target: &'a Doc,
    new: &'a [u8],
) -> Result<Vec<u8>, DeriveError> {
    let mut bench = Bench::open(alloc, old)?;
    let new = Text::new(alloc, target, new)?;
    tries_all(&mut bench, &new)?;
    keep_steps(&mut bench, &new)?;
    Ok(bench.into_script())
}

// Keeps commands for each step from the makefile of the bench to the new one.
fn keep_steps(bench: &mut Bench, new: &Text<'_>) -> Result<(), DeriveError> {
    let alloc = bench.alloc();
    let text = text_of(alloc, bench.doc())?;
    let doc = read(alloc, text.as_slice())?;
    let old = Text::new(alloc, &doc, text.as_slice())?;
    let steps = steps_between(alloc, &old, new)?;
    let mut left = steps.as_slice();
    for _ in 0..steps.len() {
        let [step, below @ ..] = left else {
            break;
        };
        let step = *step;
        let spot = Spot {
            old: &old,
            new: &*new,
            step,
        };
        left = keep_step(bench, spot, below)?;
    }
    Ok(())
}

// Keeps commands for one step, and for some of the steps below it if it has to be joined with them; answers the
// others.
fn keep_step<'s>(
    bench: &mut Bench,
    spot: Spot<'_>,
    below: &'s [Step],
) -> Result<&'s [Step], DeriveError> {
    bench.begin_place();
    if tries_step(bench, spot)? || tries_numbered(bench, spot)? {
        return Ok(below);
    }
    match tries_joined(bench, spot, below)? {
        Some(left) => Ok(left),
        None => Err(DeriveError::NoCommand(unwritten(bench, spot)?)),
    }
}

// Tries commands for one step, in the order in which they are preferred.
fn tries_step(bench: &mut Bench, spot: Spot<'_>) -> Result<bool, DeriveError> {
    let step = spot.step;
    match (step.removed(), step.added()) {
        (0, _) => tries_new_lines(bench, spot),
        (_, 0) => Ok(tries_gone(bench, spot)? || tries_lines(bench, spot)?),
        (1, 1) => Ok(tries_line(bench, spot)? || tries_lines(bench, spot)?),
        _ => tries_lines(bench, spot),
    }
}

// Tries to make one line of another by what they have in common.
fn tries_line(bench: &mut Bench, spot: Spot<'_>) -> Result<bool, DeriveError> {
    let ([old], [new]) = (spot.gone(), spot.come()) else {
        return Ok(false);
    };
    let (old, new, aim) = (*old, *new, spot.aim());
    match (old.assignment(), new.assignment()) {
        (Some(old), Some(new)) => tries_value(bench, &old, &new, aim),
        (Some(old), None) => bench.tries(Edit::comment_out(bench.alloc(), old.name()), aim),
        (None, Some(new)) => bench.tries(Edit::uncomment(bench.alloc(), new.name()), aim),
        (None, None) => tries_rule(bench, old, new, aim),
    }
}

// Tries to make one line of another that assigns no variable.
fn tries_rule(
    bench: &mut Bench,
    old: SeenLine<'_>,
    new: SeenLine<'_>,
    aim: Aim<'_>,
) -> Result<bool, DeriveError> {
    match (old.rule(), new.rule()) {
        (Some(old), Some(new)) => tries_prereqs(bench, &old, &new, aim),
        _ => tries_recipe(bench, old, new, aim),
    }
}

// Tries to take out the lines of a step by their names.
fn tries_gone(bench: &mut Bench, spot: Spot<'_>) -> Result<bool, DeriveError> {
    if let [first, ..] = spot.gone()
        && let Some(target) = first.target()
    {
        return tries_rule_gone(bench, target, spot.aim());
    }
    let mut edits = Vec::new(bench.alloc());
    for line in spot.gone() {
        match line_gone(bench.alloc(), *line)? {
            Some(edit) => edits.push(edit)?,
            None => return Ok(false),
        }
    }
    if edits.len() > MOST_GONE {
        return Ok(false);
    }
    bench.tries_all(edits.as_slice(), spot.aim())
}

// Tries to take out the line of a rule, or all of the rule.
fn tries_rule_gone(bench: &mut Bench, target: &[u8], aim: Aim<'_>) -> Result<bool, DeriveError> {
    Ok(
        bench.tries(Edit::unrule(bench.alloc(), target), aim)?
            || bench.tries(Edit::rule_remove(bench.alloc(), target), aim)?,
    )
}

// The edit that takes out a line by its name, or the text of its recipe line; `None` if it has neither.
fn line_gone(alloc: Global, line: SeenLine<'_>) -> Result<Option<Edit>, AllocError> {
    if let Some(name) = line.name() {
        return Ok(Some(Edit::unset(alloc, name)?));
    }
    match (line.recipe_target(), recipe_text(line)) {
        (Some(target), Some(text)) => Ok(Some(Edit::recipe_remove(alloc, target, text)?)),
        _ => Ok(None),
    }
}

// Tries to exchange the lines of a step together with those of the steps below it, and of these with as few
// as is enough; answers the steps that are left.
fn tries_joined<'s>(
    bench: &mut Bench,
    spot: Spot<'_>,
    below: &'s [Step],
) -> Result<Option<&'s [Step]>, DeriveError> {
    let mut left = below;
    for count in 0..below.len() {
        let [last, others @ ..] = left else {
            break;
        };
        left = others;
        if count < MOST_JOINED || others.is_empty() {
            let step = spot.step.down_to(*last);
            if tries_lines(bench, spot.at(step))? {
                return Ok(Some(others));
            }
        }
    }
    Ok(None)
}

// Tries commands that name a line by its number among those that say the same.
fn tries_numbered(bench: &mut Bench, spot: Spot<'_>) -> Result<bool, DeriveError> {
    match numbered_edit(bench.alloc(), spot)? {
        Some(edit) => bench.tries_numbered(&edit, spot.aim()),
        None => Ok(false),
    }
}

// The edit that exchanges the lines of a step, or puts them in after the line above.
fn numbered_edit(alloc: Global, spot: Spot<'_>) -> Result<Option<Edit>, AllocError> {
    if spot.step.removed() == 0 {
        after_line_above(alloc, spot)
    } else {
        Ok(Some(exchange(alloc, spot, (0, 0))?))
    }
}

// The lines of a step that no command writes.
fn unwritten(bench: &Bench, spot: Spot<'_>) -> Result<Unwritten, AllocError> {
    let step = spot.step;
    let (makefile, text, start, end) = if step.added() == 0 {
        (Makefile::Old, spot.old, step.old_start, step.old_end)
    } else {
        (Makefile::New, spot.new, step.new_start, step.new_end)
    };
    let first = feeds(text.before(start)).saturating_add(1);
    Ok(Unwritten {
        makefile,
        first,
        last: feeds(text.before(end)).max(first),
        refusal: refusal_of(bench, spot)?,
    })
}

// Why the last command was refused, if the lines differ in more than their line ends.
fn refusal_of(bench: &Bench, spot: Spot<'_>) -> Result<Option<Refusal>, AllocError> {
    let old = block_of(bench.alloc(), spot.gone())?;
    let new = block_of(bench.alloc(), spot.come())?;
    Ok(if old == new { None } else { bench.refusal() })
}

// How many line feeds a text has.
fn feeds(text: &[u8]) -> usize {
    let mut feeds = 0usize;
    for byte in text {
        if *byte == b'\n' {
            feeds = feeds.saturating_add(1);
        }
    }
    feeds
}
