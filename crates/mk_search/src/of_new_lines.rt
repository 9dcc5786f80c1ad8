//! Commands that put in new lines: beside a line that has a name, at an end of the file, or beside lines by
//! what they say.
//!
//! Where the lines above are those at the end of the new ones, the new lines could as well stand further up,
//! and the text is the same; and so downwards. Each of these is a shift. What stands below is the old
//! makefile yet, what stands above is the new one.

use crate::aim::Aim;
use crate::bench::Bench;
use crate::fault::DeriveError;
use crate::of_lines::tries_lines;
use crate::of_recipe::recipe_text;
use crate::search::Spot;
use crate::step::Step;
use crate::text::{SeenLine, block_of, part};
use crate::text_change::word_length;
use mk_edit_language::{Edit, Place, Site};
use std::alloc::{AllocError, Global};

// The most lines by which new lines are shifted.
const MOST_SHIFTS: usize = 16;
// The most recipe lines that are added one by one.
const MOST_RECIPE_LINES: usize = 3;
// The most bytes of lines by which a place is named, if other lines name it too.
const SHORT: usize = 400;
// How many lines above or below are named, until all together are unlike others.
const AROUND: [usize; 4] = [1, 2, 3, 5];

/// Tries to put in the new lines of a step.
pub(crate) fn tries_new_lines(bench: &mut Bench, spot: Spot<'_>) -> Result<bool, DeriveError> {
    let shifts = shifts_of(bench.alloc(), spot)?;
    let shifts = shifts.as_slice();
    Ok(
        tries_recipe_lines(bench, spot)?
            || tries_beside_names(bench, spot, shifts)?
            || tries_at_end(bench, spot)?
            || tries_beside_lines(bench, spot, shifts)?
            || tries_lines(bench, spot)?,
    )
}

// Beside which lines new ones are put, by what these say.
#[derive(Clone, Copy)]
enum Beside {
    // Short ones, not all of them comments, which change more often.
    Code,
    // Short ones.
    Short,
    // Any but blank ones.
    Any,
}

// The step and its shifts: upwards, then downwards. Those with whole parts alone, if there are such.
fn shifts_of(alloc: Global, spot: Spot<'_>) -> Result<Vec<Step>, AllocError> {
    let mut shifts = Vec::new(alloc);
    let mut next = Some(spot.step);
    let mut down = shifted_down(spot);
    for _ in 0..MOST_SHIFTS {
        let Some(step) = next.or(down) else {
            break;
        };
        shifts.push(step)?;
        let shift = spot.at(step);
        if next.is_some() {
            next = shifted_up(shift);
        } else {
            down = shifted_down(shift);
        }
    }
    whole_shifts(alloc, spot, shifts)
}

// The shifts with whole parts alone, if there are such.
fn whole_shifts(alloc: Global, spot: Spot<'_>, shifts: Vec<Step>) -> Result<Vec<Step>, AllocError> {
    let mut whole = Vec::new(alloc);
    for step in &shifts {
        if are_whole(spot.at(*step).come()) {
            whole.push(*step)?;
        }
    }
    Ok(if whole.is_empty() { shifts } else { whole })
}

// Whether lines open as many conditionals and defines as they end, each before its end, also where they are
// not read so.
fn are_whole(lines: &[SeenLine<'_>]) -> bool {
    let mut open = 0usize;
    for line in lines {
        match open_behind(open, first_word(line.bytes())) {
            Some(still) => open = still,
            None => return false,
        }
    }
    open == 0
}

// How many conditionals and defines are open behind a line that begins with a word; `None` if it ends one that
// none is.
fn open_behind(open: usize, word: &[u8]) -> Option<usize> {
    match word {
        b"if" | b"ifdef" | b"ifndef" | b"ifeq" | b"ifneq" | b"define" => {
            Some(open.saturating_add(1))
        }
        b"endif" | b"endef" => open.checked_sub(1),
        b"else" if open == 0 => None,
        _ => Some(open),
    }
}

// The word that a line begins with, if it does not begin with a tab.
fn first_word(line: &[u8]) -> &[u8] {
    if line.starts_with(b"\t") {
        return &[];
    }
    let text = line.trim_ascii_start();
    part(text, 0, word_length(text))
}

// The step a line further up, if the text is the same.
fn shifted_up(spot: Spot<'_>) -> Option<Step> {
    let step = spot.step;
    let above = spot.new.line_before(step.new_start)?;
    let last = spot.new.line_before(step.new_end)?;
    if above.bytes() != last.bytes() {
        return None;
    }
    Some(Step {
        new_start: step.new_start.checked_sub(1)?,
        new_end: step.new_end.checked_sub(1)?,
        old_start: step.old_start.checked_sub(1)?,
        old_end: step.old_end.checked_sub(1)?,
    })
}

// The step a line further down, if the text is the same.
fn shifted_down(spot: Spot<'_>) -> Option<Step> {
    let step = spot.step;
    let first = spot.new.line(step.new_start)?;
    let below = spot.old.line(step.old_end)?;
    if first.bytes() != below.bytes() {
        return None;
    }
    Some(Step {
        new_start: step.new_start.saturating_add(1),
        new_end: step.new_end.saturating_add(1),
        old_start: step.old_start.saturating_add(1),
        old_end: step.old_end.saturating_add(1),
    })
}

// Tries to put recipe lines behind the recipe of their rule.
fn tries_recipe_lines(bench: &mut Bench, spot: Spot<'_>) -> Result<bool, DeriveError> {
    let lines = spot.come();
    if lines.len() > MOST_RECIPE_LINES {
        return Ok(false);
    }
    let mut edits = Vec::new(bench.alloc());
    for line in lines {
        let (Some(target), Some(text)) = (line.recipe_target(), recipe_text(*line)) else {
            return Ok(false);
        };
        edits.push(Edit::recipe(bench.alloc(), target, text)?)?;
    }
    bench.tries_all(edits.as_slice(), spot.aim())
}

// Tries to put in the new lines of each shift beside a line that has a name, or behind a rule.
fn tries_beside_names(
    bench: &mut Bench,
    spot: Spot<'_>,
    shifts: &[Step],
) -> Result<bool, DeriveError> {
    for step in shifts {
        let shift = spot.at(*step);
        if tries_below_name(bench, shift, spot.aim())?
            || tries_above_name(bench, shift, spot.aim())?
        {
            return Ok(true);
        }
    }
    Ok(false)
}

// Tries to put in new lines below a line that assigns a variable, or behind a rule.
fn tries_below_name(bench: &mut Bench, shift: Spot<'_>, aim: Aim<'_>) -> Result<bool, DeriveError> {
    let Some(above) = shift.new.line_before(shift.step.new_start) else {
        return Ok(false);
    };
    if let Some(name) = above.name() {
        return tries_behind_var(bench, name, shift.come(), aim);
    }
    match above.target().or(above.recipe_target()) {
        Some(target) => {
            let place = Place::after_rule(bench.alloc(), target)?;
            tries_at_place(bench, place, shift.come(), aim)
        }
        None => Ok(false),
    }
}

// Tries to put in new lines behind the assignment of a variable, or the last one.
fn tries_behind_var(
    bench: &mut Bench,
    name: &[u8],
    lines: &[SeenLine<'_>],
    aim: Aim<'_>,
) -> Result<bool, DeriveError> {
    let place = Place::after_var(bench.alloc(), name)?;
    if tries_at_place(bench, place, lines, aim)? {
        return Ok(true);
    }
    let place = Place::after_last_var(bench.alloc(), name)?;
    tries_at_place(bench, place, lines, aim)
}

// Tries to put in new lines before a line that assigns a variable, or the line of a rule.
fn tries_above_name(bench: &mut Bench, shift: Spot<'_>, aim: Aim<'_>) -> Result<bool, DeriveError> {
    let Some(below) = shift.old.line(shift.step.old_end) else {
        return Ok(false);
    };
    let place = match (below.name(), below.target()) {
        (Some(name), _) => Place::before_var(bench.alloc(), name)?,
        (None, Some(target)) => Place::before_rule(bench.alloc(), target)?,
        (None, None) => return Ok(false),
    };
    tries_at_place(bench, place, shift.come(), aim)
}

// Tries to put in lines at a place: an assignment as such, and other lines by what they say.
fn tries_at_place(
    bench: &mut Bench,
    place: Place,
    lines: &[SeenLine<'_>],
    aim: Aim<'_>,
) -> Result<bool, DeriveError> {
    if let [line] = lines
        && tries_assign(bench, &place, *line, aim)?
    {
        return Ok(true);
    }
    tries_at_site(bench, Site::AtPlace(place), lines, aim)
}

// Tries to put in a line that is an assignment at a place.
fn tries_assign(
    bench: &mut Bench,
    place: &Place,
    line: SeenLine<'_>,
    aim: Aim<'_>,
) -> Result<bool, DeriveError> {
    let Some(new) = line.assignment() else {
        return Ok(false);
    };
    let place = place.clone()?;
    let edit = place.assign(bench.alloc(), new.name(), new.flavor(), new.value());
    bench.tries(edit, aim)
}

// Tries to put in lines at a site.
fn tries_at_site(
    bench: &mut Bench,
    site: Site,
    lines: &[SeenLine<'_>],
    aim: Aim<'_>,
) -> Result<bool, DeriveError> {
    let block = block_of(bench.alloc(), lines)?;
    bench.tries(site.insert(bench.alloc(), block.as_slice()), aim)
}

// Tries to put in the new lines at the end or the start of the file.
fn tries_at_end(bench: &mut Bench, spot: Spot<'_>) -> Result<bool, DeriveError> {
    let place = if spot.step.new_end == spot.new.len() {
        Place::Bottom
    } else if spot.step.new_start == 0 {
        Place::Top
    } else {
        return Ok(false);
    };
    tries_at_place(bench, place, spot.come(), spot.aim())
}

// Tries to put in the new lines beside some lines by what these say.
fn tries_beside_lines(
    bench: &mut Bench,
    spot: Spot<'_>,
    shifts: &[Step],
) -> Result<bool, DeriveError> {
    for beside in [Beside::Code, Beside::Short, Beside::Any] {
        for count in AROUND {
            if tries_beside_so_many(bench, spot, shifts, count, beside)? {
                return Ok(true);
            }
        }
    }
    Ok(false)
}

// Tries to put in the new lines of each shift beside so many lines by what these say.
fn tries_beside_so_many(
    bench: &mut Bench,
    spot: Spot<'_>,
    shifts: &[Step],
    count: usize,
    beside: Beside,
) -> Result<bool, DeriveError> {
    for step in shifts {
        let shift = spot.at(*step);
        if tries_after(bench, shift, shift.above(count), beside, spot.aim())?
            || tries_before(bench, shift, shift.below(count), beside, spot.aim())?
        {
            return Ok(true);
        }
    }
    Ok(false)
}

// Tries to put in the new lines of a shift after some lines.
fn tries_after(
    bench: &mut Bench,
    shift: Spot<'_>,
    above: &[SeenLine<'_>],
    beside: Beside,
    aim: Aim<'_>,
) -> Result<bool, DeriveError> {
    if !beside.is_fit(above) {
        return Ok(false);
    }
    let old = block_of(bench.alloc(), above)?;
    tries_at_site(
        bench,
        Site::AfterLines { nth: None, old },
        shift.come(),
        aim,
    )
}

// Tries to put in the new lines of a shift before some lines.
fn tries_before(
    bench: &mut Bench,
    shift: Spot<'_>,
    below: &[SeenLine<'_>],
    beside: Beside,
    aim: Aim<'_>,
) -> Result<bool, DeriveError> {
    if !beside.is_fit(below) {
        return Ok(false);
    }
    let old = block_of(bench.alloc(), below)?;
    tries_at_site(
        bench,
        Site::BeforeLines { nth: None, old },
        shift.come(),
        aim,
    )
}

impl Beside {
    // Whether new lines may be put beside some lines.
    fn is_fit(self, lines: &[SeenLine<'_>]) -> bool {
        match self {
            Beside::Code => has_code(lines) && length_of(lines) <= SHORT,
            Beside::Short => has_text(lines) && length_of(lines) <= SHORT,
            Beside::Any => has_text(lines),
        }
    }
}

// How many bytes lines have.
fn length_of(lines: &[SeenLine<'_>]) -> usize {
    let mut length = 0usize;
    for line in lines {
        length = length.saturating_add(line.bytes().len());
    }
    length
}

// Whether lines are not all blank.
fn has_text(lines: &[SeenLine<'_>]) -> bool {
    for line in lines {
        if !line.is_blank() {
            return true;
        }
    }
    false
}

// Whether lines are not all blank or comments.
fn has_code(lines: &[SeenLine<'_>]) -> bool {
    for line in lines {
        if !line.is_blank() && !line.is_comment() {
            return true;
        }
    }
    false
}

/// The edit that puts in the new lines of a step after the line above them, by what this says; `None` at the
/// start of the file.
pub(crate) fn after_line_above(alloc: Global, spot: Spot<'_>) -> Result<Option<Edit>, AllocError> {
    let above = spot.above(1);
    if above.is_empty() {
        return Ok(None);
    }
    let old = block_of(alloc, above)?;
    let block = block_of(alloc, spot.come())?;
    let site = Site::AfterLines { nth: None, old };
    Ok(Some(site.insert(alloc, block.as_slice())?))
}
