//! Whole new lines: their text, and the lines that it has where it goes.
ghost use Rattle.std.specs.Prelude.{◌≡◌, ◌⊎◌, ◌+◌, ◌-◌, ◌^◌, ◌<◌, ◌≤◌, ◌==◌, ◌∷◌, ◌++◌, [], count_by, false, min, length, reverse, IfErr, IfOk, OnOk};
ghost use Rattle.mk_lines.specs.Limits.{max_text};
ghost use Rattle.mk_lines.specs.LogicalLines.{has_no_line_end, logical_lines};
ghost use Rattle.mk_class.specs.ListTests.{is_empty, last_passes};
ghost use Rattle.mk_class.specs.Contexts.{max_conditionals};
ghost use Rattle.mk_class.specs.Classes.Class.{If};
ghost use Rattle.mk_class.specs.ClassTable.{class_of};
ghost use Rattle.mk_class.specs.LineReads.{OpensTooDeep};
ghost use Rattle.mk_class.specs.ClassedLines.{classed_lines};
ghost use Rattle.mk_tree.specs.Counting.{AreCounted};
ghost use Rattle.mk_tree.specs.Documents.{IsFaithful};
ghost use Rattle.mk_tree.specs.LineTexts.{line_in};
ghost use Rattle.mk_tree.specs.LocatedLines.{located_line, located_text};
ghost use Rattle.mk_tree.specs.Trees.{line_view};
ghost use Rattle.mk_edit_language.specs.LineExchanges.{with_line_ends};
ghost use Rattle.mk_edit_language.specs.LineRuns.{block_lines};
ghost use Rattle.mk_edit_parts.specs.LineRunsFound.{block_seen};
ghost use Rattle.mk_edit.specs.ExchangePlans.{AreReadInto, AreTooDeepIn, begins_with_line_feed, byte_ended, ends_by, ends_for, more_of};
ghost use Rattle.mk_edit.specs.PlannedMoves.{stretch_at};

use crate::insertion::end_len;
use crate::lines_end::{LinesEnd, is_of_prefix};
use mk_class::{Context, Meter};
use mk_edit_language::Refusal;
use mk_edit_parts::line_end::{doc_line_end, line_end_bytes};
use mk_edit_parts::line_feeds;
use mk_edit_parts::seek::Found;
use mk_lines::Fault;
use mk_lines::ends::{End, line_end};
use mk_lines::split::split_first_line;
use mk_patch::{PatchBuilder, Step};
use mk_tree::{Doc, Line};
use std::alloc::{AllocError, Allocator};

/// The line ends of new lines.
#[derive(Clone, Copy)]
pub(crate) struct LineEnds {
    /// That of each but the last.
    pub each: End,
    /// That of the last.
    pub last: End,
}

/// The line ends of new lines in the place of `count` lines, the first of which stands at the index `at`:
/// each has that of the last line that goes, or the file's. If the last line that goes has none, the last new one has none either, unless
/// it would be empty.
pub(crate) fn ends_for<A: Allocator>(
    doc: &Doc<A>,
    at: usize,
    count: usize,
    block: Option<&[u8]>,
) -> LineEnds
    requires faithful { IsFaithful doc.now }
    requires in_range { at + count ≤ length doc.now }
    ensures { result ≡ ends_for (located_text doc.now) (block_seen block.entry)
        (stretch_at (classed_lines (located_text doc.now)) at count) }
{
    let file = doc_line_end(doc);
    if count == 0 {
        return LineEnds {
            each: file,
            last: file,
        };
    }
    // The contract of `len` bounds the number of lines.
    let _count = doc.len();
    let last = doc.line(at + count - 1);
    ends_by(file, line_end(last.bytes()), is_last_empty(block))
}

// The line ends of new lines, by the line end of the file and that of the last line that goes, and
// whether the last new line is empty.
fn ends_by(file: End, end: End, is_last_empty: bool) -> LineEnds
    ensures { result ≡ ends_by file end is_last_empty }
{
    match end {
        End::None => LineEnds {
            each: file,
            last: if is_last_empty { file } else { End::None },
        },
        End::Lf | End::CrLf => LineEnds {
            each: end,
            last: end,
        },
    }
}

// Whether the last line of a block is empty; false if there is no block.
fn is_last_empty(block: Option<&[u8]>) -> bool
    ensures { result ≡ last_passes is_empty (block_seen block.entry) }
{
    match block {
        Some(block) => ends_in_line_feed(block),
        None => false,
    }
}

// Whether a text is empty or its last byte is a line feed.
fn ends_in_line_feed(text: &[u8]) -> bool
    ensures { result ≡ begins_with_line_feed (reverse text.now) }
{
    matches!(text, [] | [.., b'\n'])
}

/// How many bytes new lines have with these line ends, or the greatest `usize` if they have more.
pub(crate) fn text_len(block: Option<&[u8]>, ends: LineEnds) -> usize
    requires { has_no_line_end ends.each ≡ false }
    ensures { result ≡ min
        (length (with_line_ends ends.each ends.last (block_seen block.entry))) (2 ^ 64 - 1) }
{
    match block {
        Some(block) => block_len(block, ends),
        None => 0,
    }
}

// The same of the lines of a block.
fn block_len(block: &[u8], ends: LineEnds) -> usize
    requires { has_no_line_end ends.each ≡ false }
    ensures { result ≡ min
        (length (with_line_ends ends.each ends.last (block_lines block.now))) (2 ^ 64 - 1) }
{
    block
        .len()
        .saturating_add(more_len(ends.each, block))
        .saturating_add(end_len(ends.last))
}

// How many bytes more a text has if each of its line feeds becomes this line end, which is not none.
fn more_len(end: End, text: &[u8]) -> usize
    ensures { result ≡ more_of end text.now }
{
    match end {
        End::CrLf => line_feeds(text),
        End::Lf | End::None => 0,
    }
}

/// The text of new lines with these line ends.
///
/// # Errors
///
/// [`AllocError`] if there is no memory for it.
pub(crate) fn new_text<A: Allocator>(
    alloc: A,
    block: Option<&[u8]>,
    ends: LineEnds,
) -> Result<Vec<u8, A>, AllocError>
    requires { has_no_line_end ends.each ≡ false }
    ensures { IfOk result (λ text. text.items
        ≡ with_line_ends ends.each ends.last (block_seen block.entry)) }
{
    match block {
        Some(block) => block_text(alloc, block, ends),
        None => Ok(Vec::new(alloc)),
    }
}

// The text of the lines of a block with these line ends.
fn block_text<A: Allocator>(
    alloc: A,
    block: &[u8],
    ends: LineEnds,
) -> Result<Vec<u8, A>, AllocError>
    requires { has_no_line_end ends.each ≡ false }
    ensures { IfOk result (λ text. text.items
        ≡ with_line_ends ends.each ends.last (block_lines block.now)) }
{
    let mut text = Vec::with_capacity(alloc, block_len(block, ends))?;
    'bytes: for byte in block {
        put_byte(&mut text, *byte, ends.each)?;
    }
    text.extend_from_slice(line_end_bytes(ends.last))?;
    Ok(text)
}

// Puts a byte of a block behind a text: a line end for a line feed, and any other byte as it is.
fn put_byte<A: Allocator>(text: &mut Vec<u8, A>, byte: u8, end: End) -> Result<(), AllocError>
    ensures { OnOk result (text.new.items ≡ text.old.items ++ byte_ended end byte) }
{
    if byte == b'\n' {
        text.extend_from_slice(line_end_bytes(end))?;
    } else {
        text.push(byte)?;
    }
    Ok(())
}

/// How many logical lines a text has.
pub(crate) fn line_count(text: &[u8]) -> usize
    ensures number { result ≡ length (logical_lines text.now) }
    ensures few { result ≤ length text.now }
{
    let mut count = 0;
    let mut rest = text;
    'lines: while let Some((_, after)) = split_first_line(rest) {
        count += 1;
        rest = after;
    }
    count
}

/// Reads the lines of a text, the first of which goes to a place, and adds the steps to a patch that put
/// them in. Answers what they leave below them.
///
/// # Errors
///
/// [`Refusal::Misread`] if a line opens one conditional too many. [`Refusal::NoMemory`] if a growth was
/// refused.
pub(crate) fn read_into<A: Allocator + Copy>(
    alloc: A,
    patch: &mut PatchBuilder<A>,
    text: &[u8],
    place: Found,
    meter: &mut Meter,
) -> Result<LinesEnd, Refusal>
    requires few { place.at ≤ max_text }
    requires fits { place.context.defines + length text.now ≤ max_text }
    requires room { length patch.old.moves + length (logical_lines text.now) ≤ patch.old.room }
    ensures read { IfOk result (λ end. AreReadInto place text.now patch.old patch.new end) }
    ensures refused { IfErr result (λ refusal. (refusal ≡ Refusal.NoMemory)
        ⊎ ((refusal ≡ Refusal.Misread) × AreTooDeepIn place.context text.now)) }
    ensures counted { OnOk result
        (AreCounted meter.old (length (logical_lines text.now)) meter.new) }
    ensures few_read { meter.new ≤ meter.old + length (logical_lines text.now) }
    ensures forward { meter.old ≤ meter.new }
{
    // The contract of `conds` says that no more than 256 conditionals are open.
    let _conditionals = place.context.conds();
    let mut at = place.at;
    let mut context = place.context;
    let mut has_prefix = false;
    let mut rest = text;
    'lines: while let Some((bytes, after)) = split_first_line(rest) {
        let line = read_line(alloc, bytes, context, meter)?;
        let class = line.class();
        has_prefix |= is_of_prefix(&line, &class);
        context = context.step(&class);
        patch.push(Step::PutIn(at, line));
        at += 1;
        rest = after;
    }
    Ok(LinesEnd {
        context,
        is_of_prefix: has_prefix,
    })
}

// A line of these bytes, read in a context.
//
// # Errors
//
// [`Refusal::Misread`] if it opens one conditional too many. [`Refusal::NoMemory`] if a growth was
// refused.
fn read_line<A: Allocator + Copy>(
    alloc: A,
    bytes: &[u8],
    context: Context,
    meter: &mut Meter,
) -> Result<Line<A>, Refusal>
    requires one { logical_lines bytes.now ≡ bytes.now ∷ [] }
    requires defines { context.defines < max_text }
    ensures line { IfOk result (λ line.
        line_view line ≡ located_line (line_in context bytes.now)) }
    ensures shallow { IfOk result (λ _.
        class_of context bytes.now ≡ If → context.conditionals < max_conditionals) }
    ensures refused { IfErr result (λ refusal. (refusal ≡ Refusal.NoMemory)
        ⊎ ((refusal ≡ Refusal.Misread) × OpensTooDeep context bytes.now)) }
    ensures counted { OnOk result (AreCounted meter.old 1 meter.new) }
    ensures few_read { meter.new ≤ meter.old + 1 }
    ensures forward { meter.old ≤ meter.new }
{
    let Ok(bytes) = Vec::from_slice(alloc, bytes) else {
        return Err(Refusal::NoMemory);
    };
    match Line::read(alloc, bytes, context, meter) {
        Ok(line) => Ok(line),
        Err(Fault::NoMemory) => Err(Refusal::NoMemory),
        Err(_) => Err(Refusal::Misread),
    }
}
