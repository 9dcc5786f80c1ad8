//! Blocks: lines that are written as one text, with a line feed between two of them. Which texts may be
//! blocks, and what a line of a document says of one, is told without cutting either into a list: the
//! line's physical lines are compared one by one with the block's lines.
ghost use Rattle.std.specs.Prelude.{◌≡◌, ◌==◌, count_by, IsTrue, MatchOption, ◌-◌, ◌<◌, ◌≤◌, [], ◌∷◌, drop, false, get_or, length, take};
ghost use Rattle.std.specs.List.{list_any};
ghost use Rattle.mk_lines.specs.LogicalLines.{ends_with_odd_run};
ghost use Rattle.mk_lines.specs.PhysicalLines.{physical_lines};
ghost use Rattle.mk_edit_language.specs.EditViews.{lines_of};
ghost use Rattle.mk_edit_language.specs.LineRuns.{after_texts, block_lines, is_block, texts_of};
ghost use Rattle.mk_edit_parts.specs.LineRunsFound.{block_seen};
ghost use Rattle.mk_edit_parts.specs.LineRunWalks.{BeginSame, has_line_feed, is_stray_byte, lines_left};
ghost use Rattle.mk_edit_parts.specs.Windows.{first_text};

use memchr::memchr;
use mk_lines::ends::{is_continued, without_line_end};
use std::alloc::Allocator;

/// The text of a block, if there is one.
pub fn block_of<A: Allocator>(block: &Option<Vec<u8, A>>) -> Option<&[u8]>
    ensures { block_seen result ≡ lines_of block.now }
{
    match block {
        Some(block) => Some(block),
        None => None,
    }
}

/// Whether a text may be a block: it has no carriage return or NUL, and it does not close with a run
/// of backslashes of odd length, which would continue its last line.
pub(crate) fn is_block(text: &[u8]) -> bool
    ensures { result ≡ is_block (block_lines text.now) }
{
    !has_stray_byte(text) && !ends_with_odd_run(text)
}

// Whether a text has a carriage return or a NUL.
fn has_stray_byte(text: &[u8]) -> bool
    ensures { result ≡ list_any is_stray_byte text.now }
{
    text.iter().any(|byte| is_stray_byte(*byte))
}

// Whether a byte is a carriage return or a NUL.
fn is_stray_byte(byte: u8) -> bool
    ensures { result ≡ is_stray_byte byte }
{
    matches!(byte, b'\r' | 0)
}

// Whether a text closes with a run of backslashes of odd length.
fn ends_with_odd_run(text: &[u8]) -> bool
    ensures { result ≡ ends_with_odd_run text.now }
{
    match text {
        [.., b'\n'] => false,
        _ => is_continued(text),
    }
}

/// How many lines a block has.
pub(crate) fn line_count(block: &[u8]) -> usize
    ensures { result ≡ length (block_lines block.now) }
{
    line_feeds(block) + 1
}

/// How many line feeds a text has.
pub fn line_feeds(text: &[u8]) -> usize
    ensures number { result ≡ count_by (λ b. b == 10) text.now }
    ensures few { result ≤ length text.now }
{
    text.iter().filter(|byte| **byte == b'\n').count()
}

/// The first line of a block.
pub fn block_front(block: &[u8]) -> &[u8]
    ensures first { result.now ≡ get_or (block_lines block.now) 0 [] }
    ensures one_line { has_line_feed result.now ≡ false }
{
    match memchr(b'\n', block) {
        Some(feed) => &block[..feed],
        None => block,
    }
}

/// How many of the first lines of a block are the same.
pub(crate) fn same_lines(block: &[u8]) -> usize
    ensures { BeginSame (get_or (block_lines block.now) 0 []) result (block_lines block.now) }
{
    let first = block_front(block);
    let all = line_count(block);
    let mut left = block;
    'lines: for count in 0..all {
        match after_text(first, left) {
            Left::Other => return count,
            Left::Nothing => return count + 1,
            Left::Lines(lines) => left = lines,
        }
    }
    all
}

/// What is left of a block after so many lines, each of which is this text; `None` if no line is left.
pub(crate) fn after_same<'a>(block: &'a [u8], first: &[u8], passed: usize) -> Option<&'a [u8]>
    requires { BeginSame first.now passed (block_lines block.now) }
    ensures { MatchOption result (drop passed (block_lines block.now) ≡ [])
        (λ rest. block_lines rest.now ≡ drop passed (block_lines block.now)) }
{
    let cut = passed * (first.len() + 1);
    if cut > block.len() {
        return None;
    }
    Some(&block[cut..])
}

/// Whether the one physical line of a line says a text.
pub(crate) fn says_alone(line: &[u8], text: &[u8]) -> bool
    requires { has_line_feed text.now ≡ false }
    ensures { IsTrue result → texts_of line.now ≡ text.now ∷ [] }
{
    matches!(after_line(line, text), Left::Nothing)
}

/// What the first physical line of a line says; nothing, if the line has no byte.
pub fn line_front(line: &[u8]) -> &[u8]
    ensures { result.now ≡ first_text line.now }
{
    if line.is_empty() {
        return line;
    }
    first_text(line).0
}

/// What is left of a block after some texts.
#[derive(Clone, Copy)]
pub(crate) enum Left<'a> {
    /// The block begins with other lines.
    Other,
    /// The texts are all its lines.
    Nothing,
    /// The texts are its first lines, and these are the others.
    Lines(&'a [u8]),
}

/// What is left of a block after what a line says: its physical lines without their line ends. Takes
/// no memory, and time linear in the line's bytes.
pub(crate) fn after_line<'a>(line: &[u8], block: &'a [u8]) -> Left<'a>
    ensures { lines_left result ≡ after_texts (texts_of line.now) (block_lines block.now) }
{
    let mut ahead = line;
    let mut left = Left::Lines(block);
    'lines: while !ahead.is_empty() {
        let (text, rest) = first_text(ahead);
        let Left::Lines(lines) = left else {
            return Left::Other;
        };
        left = after_text(text, lines);
        ahead = rest;
    }
    left
}

// What is left of a block after one text. The block is compared with the text alone, however long its
// first line is.
fn after_text<'a>(text: &[u8], block: &'a [u8]) -> Left<'a>
    requires { has_line_feed text.now ≡ false }
    ensures { lines_left result ≡ after_texts (text.now ∷ []) (block_lines block.now) }
{
    let Some(rest) = block.strip_prefix(text) else {
        return Left::Other;
    };
    let Some((first, lines)) = rest.split_first() else {
        return Left::Nothing;
    };
    if *first == b'\n' {
        Left::Lines(lines)
    } else {
        Left::Other
    }
}

// The text of the first of some physical lines, without its line end, and the lines after it.
fn first_text(lines: &[u8]) -> (&[u8], &[u8])
    requires { 0 < length lines.now }
    ensures texts { texts_of lines.now ≡ result.0.now ∷ texts_of result.1.now }
    ensures one_line { has_line_feed result.0.now ≡ false }
    ensures fewer { length result.1.now < length lines.now }
{
    let (first, rest) = lines.split_at(first_length(lines));
    (without_line_end(first), rest)
}

// How many bytes the first of some physical lines has.
fn first_length(lines: &[u8]) -> usize
    requires { 0 < length lines.now }
    ensures lines { physical_lines lines.now
        ≡ take result lines.now ∷ physical_lines (drop result lines.now) }
    ensures one_line { has_line_feed (take (result - 1) lines.now) ≡ false }
    ensures some { 0 < result }
    ensures within { result ≤ length lines.now }
{
    match memchr(b'\n', lines) {
        Some(feed) => feed + 1,
        None => lines.len(),
    }
}
