//! The prerequisites in the line of a rule: whether a word is one of them, and the line with one
//! more, one fewer, or one in the place of another.
ghost use Rattle.std.specs.Prelude.{◌≡◌, ◌≤◌, ◌<◌, ◌+◌, ◌++◌, ◌^◌, ◌&&◌, ◌==◌, not, if◌then◌else◌, length, IfOk, IsOk};
ghost use Rattle.mk_lines.specs.PhysicalLines.{line_end, line_end_bytes};
ghost use Rattle.mk_lines.specs.Cells.{Cell, line_cells, joined_text};
ghost use Rattle.mk_lines.specs.Pieces.{new_bytes};
ghost use Rattle.mk_lines.specs.Ranges.{text_at, word_ranges};
ghost use Rattle.mk_class.specs.Headers;
ghost use Rattle.mk_tree.specs.Trees.{line_view};
ghost use Rattle.mk_edit_language.specs.RuleCauses.{is_normal, is_order_only, is_prereq};
ghost use Rattle.mk_edit_language.specs.WordPieces.{add_pieces, remove_pieces, replace_pieces};
ghost use Rattle.mk_tree.specs.LocatedLines.{text_of_line};
ghost use Rattle.mk_edit_parts.specs.RenamedRanges.{bytes_in, no_words, tallied};
ghost use Rattle.mk_edit_parts.specs.ReplacedPrerequisites.{prerequisite_ranges};
ghost use Rattle.mk_edit_parts.specs.SeenHeaders.{HasHeader, IsHeaderSeen};
ghost use Rattle.mk_class.specs.LineParts.{order_only_span, normal_span};
ghost use Rattle.mk_edit_parts.specs.WordCuts.{without_words};
ghost use Rattle.mk_edit_parts.specs.NewPrerequisites.{after_new, before_new, new_word_text, part_of_new, offset_of_new, words_end};

use crate::raw_part::{raw_part, raw_rest};
use crate::renamed_line::write_part;
use crate::tally::{Tally, count_in_part};
use crate::text::{has_word, is_same_text};
use mk_class::Header;
use mk_lines::split::Span;
use mk_lines::words;
use mk_tree::Line;
use mk_tree::part::{part, rest, text_of_line};
use std::alloc::{AllocError, Allocator};

/// Whether a word is among the normal prerequisites.
pub fn has_normal<A: Allocator>(line: &Line<A>, header: Header, word: &[u8]) -> bool
    requires { HasHeader (line_view line.now) header }
    ensures { (h : Headers.Header Cell) → IsHeaderSeen (line_view line.now) header h
        → result ≡ is_normal word.now h }
{
    has_word(part(text_of_line(line), normal(header)), word)
}

/// Whether a word is among the order-only prerequisites.
pub fn has_order_only<A: Allocator>(line: &Line<A>, header: Header, word: &[u8]) -> bool
    requires { HasHeader (line_view line.now) header }
    ensures { (h : Headers.Header Cell) → IsHeaderSeen (line_view line.now) header h
        → result ≡ is_order_only word.now h }
{
    has_word(part(text_of_line(line), order_only(header)), word)
}

/// Whether a word is among the prerequisites of either kind.
pub fn is_prerequisite<A: Allocator>(line: &Line<A>, header: Header, word: &[u8]) -> bool
    requires { HasHeader (line_view line.now) header }
    ensures { (h : Headers.Header Cell) → IsHeaderSeen (line_view line.now) header h
        → result ≡ is_prereq word.now h }
{
    has_normal(line, header, word) || has_order_only(line, header, word)
}

// Where the normal prerequisites stand in the joined text.
fn normal(header: Header) -> Span
    ensures { result ≡ normal_span header }
{
    Span {
        start: header.normal_start,
        end: header.normal_end,
    }
}

// Where the order-only prerequisites stand in the joined text; without any, an empty range at the
// end of the head.
fn order_only(header: Header) -> Span
    requires { (order_only_span header).start ≤ header.head_end }
    ensures { result ≡ order_only_span header }
{
    let start = if header.has_order_only {
        header.normal_end + 1
    } else {
        header.normal_end
    };
    Span {
        start,
        end: header.head_end,
    }
}

// ---- a new prerequisite

/// Where a new prerequisite goes into the joined text: after the last word of its list, or at the
/// front of the list if it has no word.
pub fn offset_of_new<A: Allocator>(line: &Line<A>, header: Header, order: bool) -> usize
    requires { HasHeader (line_view line.now) header }
    ensures { result ≡ offset_of_new order (text_of_line (line_view line.now)) header }
{
    words_end(text_of_line(line), part_of_new(header, order))
}

// The list in which a new prerequisite goes last. Without a `|`, an order-only one follows the
// normal ones.
fn part_of_new(header: Header, order: bool) -> Span
    requires { (order_only_span header).start ≤ header.head_end }
    ensures { result ≡ part_of_new order header }
{
    if order && header.has_order_only {
        order_only(header)
    } else {
        normal(header)
    }
}

// Where the last word of a part of a text ends; the start of the part if it has no word.
fn words_end(text: &[u8], span: Span) -> usize
    requires rises { span.start ≤ span.end }
    requires within { span.end ≤ length text.now }
    ensures { result ≡ words_end text.now span }
{
    let mut end = 0;
    'words: for word in words(part(text, span)) {
        end = word.end;
    }
    span.start + end
}

/// What is written before a new prerequisite: a space; or a `|` between two spaces, if the line
/// needs one.
pub fn before_new(header: Header, order: bool) -> &'static [u8]
    ensures { result.now ≡ before_new order header }
{
    if order && !header.has_order_only {
        b" | "
    } else {
        b" "
    }
}

/// What is written after a new prerequisite at an offset: a space if a `|` would follow it
/// directly, and otherwise nothing.
pub fn after_new(header: Header, order: bool, offset: usize) -> &'static [u8]
    ensures { result.now ≡ after_new order offset header }
{
    if !order && header.has_order_only && offset == header.normal_end {
        b" "
    } else {
        b""
    }
}

/// How many bytes a new prerequisite adds to a line.
pub fn len_of_new<A: Allocator>(line: &Line<A>, header: Header, order: bool, word: &[u8]) -> usize
    requires { HasHeader (line_view line.now) header }
    ensures { result
        ≡ length (new_word_text order
        (offset_of_new order (text_of_line (line_view line.now)) header) word.now header) }
{
    let offset = offset_of_new(line, header, order);
    before_new(header, order).len() + word.len() + after_new(header, order, offset).len()
}

/// The line with a new prerequisite. All memory is taken at once.
///
/// # Errors
///
/// [`AllocError`] if there is no memory for it.
pub fn with_prerequisite<A: Allocator + Copy>(
    alloc: A,
    line: &Line<A>,
    header: Header,
    order: bool,
    word: &[u8],
) -> Result<Vec<u8, A>, AllocError>
    requires header { HasHeader (line_view line.now) header }
    requires short { length (line_view line.now).bytes + length word.now < 2 ^ 32 }
    ensures { IfOk result (λ bytes.
        (h : Headers.Header Cell) → IsHeaderSeen (line_view line.now) header h
        → bytes.items
        ≡ new_bytes (add_pieces order word.now h) ++ line_end_bytes
        (line_end (line_view line.now).bytes)) }
{
    let offset = offset_of_new(line, header, order);
    let mut bytes = Vec::with_capacity(alloc, line.bytes().len() + word.len() + 3)?;
    bytes.extend_from_slice(raw_part(
        line,
        Span {
            start: 0,
            end: offset,
        },
    ))?;
    bytes.extend_from_slice(before_new(header, order))?;
    bytes.extend_from_slice(word)?;
    bytes.extend_from_slice(after_new(header, order, offset))?;
    bytes.extend_from_slice(raw_rest(line, offset))?;
    Ok(bytes)
}

// ---- a prerequisite taken out

/// The line without a prerequisite: the word goes wherever it stands in the two lists, each time
/// with the blanks and folds directly before it. All memory is taken at once.
///
/// # Errors
///
/// [`AllocError`] if there is no memory for it.
pub fn without_prerequisite<A: Allocator + Copy>(
    alloc: A,
    line: &Line<A>,
    header: Header,
    word: &[u8],
) -> Result<Vec<u8, A>, AllocError>
    requires { HasHeader (line_view line.now) header }
    ensures { IfOk result (λ bytes.
        (h : Headers.Header Cell) → IsHeaderSeen (line_view line.now) header h
        → bytes.items
        ≡ new_bytes (remove_pieces word.now h) ++ line_end_bytes
        (line_end (line_view line.now).bytes)) }
{
    let normal = normal(header);
    let order_only = order_only(header);
    let mut bytes = Vec::with_capacity(alloc, line.bytes().len())?;
    bytes.extend_from_slice(raw_part(
        line,
        Span {
            start: 0,
            end: normal.start,
        },
    ))?;
    put_without(&mut bytes, line, normal, word)?;
    bytes.extend_from_slice(raw_part(
        line,
        Span {
            start: normal.end,
            end: order_only.start,
        },
    ))?;
    put_without(&mut bytes, line, order_only, word)?;
    bytes.extend_from_slice(raw_rest(line, order_only.end))?;
    Ok(bytes)
}

// Puts the raw bytes of a part of a line after some bytes, without each word that is this one and
// what stands between it and the word before it.
fn put_without<A: Allocator>(
    bytes: &mut Vec<u8, A>,
    line: &Line<A>,
    span: Span,
    word: &[u8],
) -> Result<(), AllocError>
    requires rises { span.start ≤ span.end }
    requires within { span.end ≤ length (line_cells (line_view line.now).bytes) }
    ensures { IsOk result
        → bytes.new.items
        ≡ bytes.old.items
        ++ without_words (line_cells (line_view line.now).bytes) span.start
        (text_at (text_of_line (line_view line.now)) span) word.now span.start
        (word_ranges (text_at (text_of_line (line_view line.now)) span)) span.end }
{
    let text = part(text_of_line(line), span);
    let mut done = span.start;
    'words: for found in words(text) {
        let end = span.start + found.end;
        if !is_same_text(part(text, found), word) {
            bytes.extend_from_slice(raw_part(line, Span { start: done, end }))?;
        }
        done = end;
    }
    let left = Span {
        start: done,
        end: span.end,
    };
    bytes.extend_from_slice(raw_part(line, left))
}

// ---- a prerequisite replaced

/// Counts the prerequisites that are a word. Takes no memory.
pub fn count_prerequisites<A: Allocator>(line: &Line<A>, header: Header, word: &[u8]) -> Tally
    requires header { HasHeader (line_view line.now) header }
    requires few { length (prerequisite_ranges word.now (line_view line.now) header) < 2 ^ 32 }
    requires few_bytes { bytes_in (prerequisite_ranges word.now (line_view line.now) header)
        ≤ 2 ^ 32 }
    ensures { result
        ≡ tallied no_words (prerequisite_ranges word.now (line_view line.now) header) }
{
    let found = count_in_part(line, normal(header), word, 0, Tally::none());
    count_in_part(line, order_only(header), word, 0, found)
}

/// The line with a new prerequisite in the place of an old one, wherever that stands in the two lists.
///
/// # Errors
///
/// [`AllocError`] if there is no memory for it.
pub fn with_prerequisite_replaced<A: Allocator + Copy>(
    alloc: A,
    line: &Line<A>,
    header: Header,
    old: &[u8],
    new: &[u8],
) -> Result<Vec<u8, A>, AllocError>
    requires { HasHeader (line_view line.now) header }
    ensures { IfOk result (λ bytes.
        (h : Headers.Header Cell) → IsHeaderSeen (line_view line.now) header h
        → bytes.items
        ≡ new_bytes (replace_pieces old.now new.now h) ++ line_end_bytes
        (line_end (line_view line.now).bytes)) }
{
    let mut bytes = Vec::with_capacity(alloc, line.bytes().len())?;
    let normal_end = write_part(&mut bytes, line, normal(header), old, new, 0)?;
    let end = write_part(&mut bytes, line, order_only(header), old, new, normal_end)?;
    bytes.extend_from_slice(rest(line.bytes(), end))?;
    Ok(bytes)
}
