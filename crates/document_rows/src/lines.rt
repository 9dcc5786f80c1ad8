//! Lines, cells, units and words.
ghost use Rattle.std.specs.Prelude.{◌<◌};

use crate::documents::copied;
use mk_lines::cells::cells;
use mk_lines::ends::{file_line_end, is_continued, is_open, line_end, without_line_end};
use mk_lines::source::read_all;
use mk_lines::split::{split, split_first_line};
use mk_lines::{
    Fault, Span, after_first_unit, is_closed, split_first_unit, split_first_word, units, words,
};
use test_support::text::{joined, number};
use test_support::{Case, MemorySource};

/// The texts of the faults, with a bar behind each.
pub fn faults(case: &Case<'_>) -> Result<Vec<u8>, Fault> {
    let mut shown = String::new(case.alloc);
    for fault in [
        Fault::NoMemory,
        Fault::TooLong,
        Fault::TooDeep,
        Fault::BadDepth,
        Fault::Read,
        Fault::Write,
    ] {
        shown.push_str(&fault.to_string(case.alloc)?)?;
        shown.push_str("|")?;
    }
    Ok(shown.into_bytes())
}

/// Reads a source that moves so many bytes a call, and fails at a call unless its number is 0: how many
/// bytes, how many calls come after that one, and how many bytes are not read.
pub fn read(case: &Case<'_>, text: &[u8], step: &[u8], call: &[u8]) -> Result<Vec<u8>, Fault> {
    let step = number(step).clamp(1, 1_000_000) as usize;
    let call = number(call);
    let mut source = MemorySource::new(text, step).failing_at(Some(call));
    let answer = match read_all(case.alloc, &mut source) {
        Ok(text) => Ok(text.len()),
        Err(fault) => Err(fault),
    };
    let after = if call == 0 {
        0
    } else {
        source.calls().saturating_sub(call)
    };
    let left = source.left();
    Ok(format!(in case.alloc; "{answer:?}, calls after it {after}, left {left}")?.into_bytes())
}

/// A whole text.
pub fn read_whole(case: &Case<'_>, text: &[u8]) -> Result<Vec<u8>, Fault> {
    copied(case, read_all(case.heap, &mut MemorySource::new(text, 100)))
}

/// The joined text of a line, whether it has a bad fold, and whether it has a stray byte.
pub fn joined_line(case: &Case<'_>, line: &[u8]) -> Result<Vec<u8>, Fault> {
    let kept = cells(case.heap, line)?;
    let (bad_fold, stray) = (kept.has_bad_fold(), kept.has_stray());
    let said = format!(in case.alloc; ", bad fold {bad_fold}, stray {stray}")?;
    let mut shown = Vec::from_slice(case.alloc, kept.text(line))?;
    shown.extend_from_slice(said.as_bytes())?;
    Ok(shown)
}

/// The spans of the lines of a text, and how long the first is.
pub fn lines_of(case: &Case<'_>, text: &[u8]) -> Result<Vec<u8>, Fault> {
    let spans = split(case.heap, text)?;
    let first = split_first_line(text).map_or(0, |(first, _)| first.len());
    Ok(format!(in case.alloc; "{first}: {spans:?}")?.into_bytes())
}

/// How a line ends, and its bytes before that.
pub fn end_of(case: &Case<'_>, line: &[u8]) -> Result<Vec<u8>, Fault> {
    let (end, file_end) = (line_end(line), file_line_end(line));
    let (continued, open) = (is_continued(line), is_open(line));
    let said = format!(in case.alloc; "{end:?}, {file_end:?}, {continued}, {open}: ")?;
    Ok(joined(case.alloc, &[said.as_bytes(), without_line_end(line)])?)
}

/// The units and words of a text, and whether it is closed.
pub fn units_of(case: &Case<'_>, text: &[u8]) -> Result<Vec<u8>, Fault> {
    let units = units(text).collect::<Vec<Span>>(case.alloc)?;
    let words = words(text).collect::<Vec<Span>>(case.alloc)?;
    let closed = is_closed(text);
    Ok(format!(in case.alloc; "{closed} {units:?} {words:?}")?.into_bytes())
}

/// The first unit of a text, what follows it, its first word, and what follows that.
pub fn first_of(case: &Case<'_>, text: &[u8]) -> Result<Vec<u8>, Fault> {
    let (unit, after_unit) = split_first_unit(text).unwrap_or_default();
    let (word, after_word) = split_first_word(text).unwrap_or_default();
    let same = after_first_unit(text);
    let parts = [
        unit, b"|", after_unit, b"|", same, b"|", word, b"|", after_word,
    ];
    Ok(joined(case.alloc, &parts)?)
}
