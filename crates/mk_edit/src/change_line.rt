//! A change of an assignment's line that is checked by reading, planned.
//!
//! The new line is made of the old one, with a text in some places of it. It is read in the context
//! of the old one, and the edit is refused as `Misread` where it does not read as the edit says.
ghost use Rattle.std.specs.Prelude.{◌≡◌, ◌⊎◌, ◌+◌, ◌<◌, ◌≤◌, ◌∷◌, [], true, false, not, ◌&&◌, ◌||◌, ◌*◌, nat_lt, None, drop, length, IfOk, IfErr, OnOk};
ghost use Rattle.mk_lines.specs.Cells.{line_cells};
ghost use Rattle.mk_lines.specs.Limits.{max_text};
ghost use Rattle.mk_lines.specs.LogicalLines.{ends_line, is_open, logical_lines};
ghost use Rattle.mk_tree.specs.Counting.{AreCounted};
ghost use Rattle.mk_tree.specs.Documents.{IsFaithful};
ghost use Rattle.mk_tree.specs.LineTexts.{line_in};
ghost use Rattle.mk_tree.specs.LocatedLines.{located_line, text_of_line};
ghost use Rattle.mk_tree.specs.Trees.{line_view};
ghost use Rattle.mk_tree.specs.Views.{assignment_of};
ghost use Rattle.mk_edit_language.specs.EditViews.{edit_of};
ghost use Rattle.mk_edit_language.specs.EachLine.{InAssignment};
ghost use Rattle.mk_edit_language.specs.LineChanges.{fits_line, flavor_after, is_one, stated, trimmed};
ghost use Rattle.mk_edit_parts.specs.LineChangePlaces.{change_places, raw_ranges, rewrite_view, separator_place};
ghost use Rattle.mk_edit_parts.specs.RenamedRanges.{AreWithin};
ghost use Rattle.mk_edit_parts.specs.RenamedTexts.{AreApart, rewritten};
ghost use Rattle.mk_edit_parts.specs.Seeking.{IsLineKnown};
ghost use Rattle.mk_edit_parts.specs.SeenAssignments.{IsAssignmentAt};
ghost use Rattle.mk_edit.specs.LineChangePlans.{AreRead, CanRewrite, IsAssigning, IsLineChange, IsMadeOf, IsSought, Reads, are_same_texts, first_of_words, is_changed_misread, is_operator, is_read_as, line_changed, value_made};
ghost use Rattle.mk_edit.specs.Planned.{Plans};
ghost use Rattle.mk_edit.specs.ValueChangeLines.{value_text_located};

use crate::assignment::{assignment_of, value_text};
use crate::moves::exchange;
use mk_class::blank::{begins_with_blank, ends_with_blank};
use mk_class::{Assignment, Context, Flavor, Meter};
use mk_edit_language::{Edit, Refusal};
use mk_edit_parts::find::find;
use mk_edit_parts::line_change::{
    LineRewrite, new_length, new_text, places_of, rewritten_line, separator_bytes, separator_place,
    separator_text,
};
use mk_edit_parts::renamed_line::rewritten;
use mk_edit_parts::seek::{Found, Sought};
use mk_edit_parts::text::{has_word, is_same_text};
use mk_lines::ends::{End, is_continued, is_open, line_end};
use mk_lines::source::MAX_TEXT;
use mk_lines::split::{Span, split_first_line};
use mk_lines::{Fault, words};
use mk_patch::Patch;
use mk_tree::part::{part, rest, text_of_line};
use mk_tree::{Doc, Line, WordTexts};
use std::alloc::{AllocError, Allocator};

/// Plans a change of an assignment's line that is checked by reading.
///
/// # Errors
///
/// The first cause of the edit that holds: the causes of [`find`]; [`Refusal::Absent`] if no place
/// of the line is changed; [`Refusal::Already`] and [`Refusal::Ambiguous`], of a word that goes
/// beside another; [`Refusal::TooLong`]; and [`Refusal::Misread`] if the new line does not
/// read as the edit says. [`Refusal::NoMemory`] if a growth was refused and none of these holds but
/// perhaps the last.
pub(crate) fn plan_change_line<A: Allocator + Copy>(
    alloc: A,
    doc: &Doc<A>,
    edit: &Edit<A>,
    known: Option<Sought>,
    change: LineRewrite<'_>,
    meter: &mut Meter,
) -> Result<Patch<A>, Refusal>
    requires faithful { IsFaithful doc.now }
    requires edit { IsLineChange (rewrite_view change) (edit_of edit.now) }
    requires known { IsLineKnown (edit_of edit.now) doc.now known }
    ensures { Plans (edit_of edit.now) doc.now meter.old meter.new result }
{
    let size = doc.size();
    let found = find(doc, edit, known)?;
    let line = doc.line(found.at);
    let assignment = assignment_of(line);
    let places = places_of(alloc, change, line, assignment);
    if let Some(refusal) = first_of_words(change, places.count, value_text(line)) {
        return Err(refusal);
    }
    let separator = separator_place(change, line, assignment);
    let new_length = new_length(change, separator_bytes(line, separator), value_text(line));
    if is_too_long(places.count, places.bytes, new_length, size) {
        return Err(Refusal::TooLong);
    }
    let Some(ranges) = places.ranges else {
        return Err(Refusal::NoMemory);
    };
    let line = changed_line(alloc, change, &found, line, assignment, &ranges, meter)?;
    exchange(alloc, found.at, line)
}

/// The line of an assignment after a change, read in the context where it stands, by the ranges of the
/// line's joined text that the change replaces. The call reads one line.
///
/// # Errors
///
/// [`Refusal::Misread`] if the new line does not read as the change says. [`Refusal::NoMemory`] if a
/// growth was refused.
pub(crate) fn changed_line<A: Allocator + Copy>(
    alloc: A,
    change: LineRewrite<'_>,
    place: &Found,
    line: &Line<A>,
    assignment: Assignment,
    ranges: &[Span],
    meter: &mut Meter,
) -> Result<Line<A>, Refusal>
    requires own { IsAssigning place.now.context (line_view line.now) }
    requires at { IsAssignmentAt (line_view line.now) assignment }
    requires sought { IsSought (rewrite_view change) }
    requires ranges { ranges.now
        ≡ change_places (rewrite_view change) (text_of_line (line_view line.now)) assignment }
    requires one { first_of_words (rewrite_view change) (length ranges.now)
        (value_text_located (line_view line.now)) ≡ None }
    requires defines { place.now.context.defines < max_text }
    ensures line { IfOk result (λ new. line_view new ≡ line_changed
        (InAssignment (rewrite_view change.entry)) place.now.context (line_view line.now).bytes) }
    ensures read { AreRead 1 (is_changed_misread (InAssignment (rewrite_view change.entry))
        place.now.context (line_view line.now).bytes) meter.old meter.new result }
{
    let made = match made_line(alloc, change, place, line, assignment, ranges) {
        Ok(made) => made,
        Err(_) => return Err(Refusal::NoMemory),
    };
    let Made { bytes, front } = made;
    if !fits_line(line.bytes(), &bytes) {
        return Err(Refusal::Misread);
    }
    let flavor = flavor_after(change, assignment.flavor);
    let value = stated(change, rest(&front, assignment.value.start));
    read_back(alloc, line, bytes, value, flavor, place.context, meter)
}

// The first refusal of a change that finds so many places in a value, but for the text's length: it
// finds none, or it puts a word beside another, and the new one is there already, or the other stands
// there several times.
fn first_of_words(change: LineRewrite<'_>, count: usize, value: &[u8]) -> Option<Refusal>
    ensures { result ≡ first_of_words (rewrite_view change.entry) count value.now }
{
    if count == 0 {
        return Some(Refusal::Absent);
    }
    match change {
        LineRewrite::InsertWord { new, .. } if has_word(value, new) => Some(Refusal::Already),
        LineRewrite::InsertWord { .. } if count > 1 => Some(Refusal::Ambiguous(count as u64)),
        _ => None,
    }
}

/// Whether a text of this size is too long after a change that puts texts of this length in so many
/// places, which have so many bytes.
pub(crate) fn is_too_long(count: usize, bytes: usize, new_length: usize, size: usize) -> bool
    requires within { size ≤ max_text }
    requires few { bytes ≤ max_text }
    ensures { result ≡ nat_lt (max_text + bytes) (size + count * new_length) }
{
    // The new bytes alone may be more than a number can say. Then the text is too long.
    count.saturating_mul(new_length) > MAX_TEXT - size + bytes
}

// The flavor of an assignment after a change of its line.
fn flavor_after(change: LineRewrite<'_>, flavor: Flavor) -> Flavor
    ensures { result ≡ flavor_after (rewrite_view change.entry) flavor }
{
    match change {
        LineRewrite::SetOperator(operator) => operator,
        _ => flavor,
    }
}

/// The line that a change makes.
#[derive(Drop)]
struct Made<A: Allocator> {
    /// Its bytes.
    bytes: Vec<u8, A>,
    /// What it is said to be read as, up to the end of its value.
    front: Vec<u8, A>,
}

// The line that a change makes in the place of an assignment's line, by the ranges of the line's
// joined text that it replaces, and what it is said to be read as.
fn made_line<A: Allocator + Copy>(
    alloc: A,
    change: LineRewrite<'_>,
    place: &Found,
    line: &Line<A>,
    assignment: Assignment,
    ranges: &[Span],
) -> Result<Made<A>, AllocError>
    requires own { IsAssigning place.now.context (line_view line.now) }
    requires at { IsAssignmentAt (line_view line.now) assignment }
    requires sought { IsSought (rewrite_view change) }
    requires ranges { ranges.now
        ≡ change_places (rewrite_view change) (text_of_line (line_view line.now)) assignment }
    requires one { first_of_words (rewrite_view change) (length ranges.now)
        (value_text_located (line_view line.now)) ≡ None }
    ensures made { IfOk result (λ made. IsMadeOf (rewrite_view change.entry) place.now.context
        (line_view line.now) made.bytes.items
        (stated (rewrite_view change.entry) (drop assignment.value.start made.front.items))) }
    ensures front { IfOk result (λ made. assignment.value.start ≤ length made.front.items) }
{
    let value = value_text(line);
    let separator = separator_place(change, line, assignment);
    let written = new_text(alloc, change, separator_bytes(line, separator), value)?;
    let read = new_text(alloc, change, separator_text(line, separator), value)?;
    let bytes = new_bytes(alloc, line, ranges, written.as_slice())?;
    let front = new_front(alloc, change, line, assignment, ranges, read.as_slice())?;
    Ok(Made { bytes, front })
}

// The bytes of a line with a new text in the place of some ranges of its joined text.
fn new_bytes<A: Allocator + Copy>(
    alloc: A,
    line: &Line<A>,
    ranges: &[Span],
    new: &[u8],
) -> Result<Vec<u8, A>, AllocError>
    requires within { AreWithin (length (line_cells (line_view line.now).bytes)) ranges.now }
    requires apart { AreApart 0 (length (line_view line.now).bytes)
        (raw_ranges (line_cells (line_view line.now).bytes) ranges.now) }
    ensures { IfOk result (λ bytes. bytes.items
        ≡ rewritten (line_view line.now).bytes new.now
        (raw_ranges (line_cells (line_view line.now).bytes) ranges.now)) }
{
    let more = ranges.len().saturating_mul(new.len());
    let room = line.bytes().len().saturating_add(more);
    rewritten_line(alloc, line, ranges, new, room)
}

// What a line is said to be read as, up to the end of its value, after a change that puts a new text in
// the place of some ranges of its joined text. The new operator of a change of the operator, which stands
// before the value, is not put in.
fn new_front<A: Allocator + Copy>(
    alloc: A,
    change: LineRewrite<'_>,
    line: &Line<A>,
    assignment: Assignment,
    ranges: &[Span],
    new: &[u8],
) -> Result<Vec<u8, A>, AllocError>
    requires can { CanRewrite (rewrite_view change) (text_of_line (line_view line.now)) assignment
        ranges.now new.now }
    ensures value { IfOk result (λ front.
        stated (rewrite_view change.entry) (drop assignment.value.start front.items)
        ≡ value_made (rewrite_view change.entry) (text_of_line (line_view line.now)) assignment
        ranges.now new.now) }
    ensures front { IfOk result (λ front. assignment.value.start ≤ length front.items) }
{
    let end = assignment.value.end;
    let front = part(text_of_line(line), Span { start: 0, end });
    if is_operator(change) {
        return Vec::from_slice(alloc, front);
    }
    let more = ranges.len().saturating_mul(new.len());
    rewritten(alloc, front, ranges, new, front.len().saturating_add(more))
}

// Whether a change is one of the operator.
fn is_operator(change: LineRewrite<'_>) -> bool
    ensures { result ≡ is_operator (rewrite_view change.entry) }
{
    matches!(change, LineRewrite::SetOperator(_))
}

// The value that a line is said to have after a change, by its text: where a text is replaced, without
// the blanks at its ends.
fn stated<'a>(change: LineRewrite<'_>, value: &'a [u8]) -> &'a [u8]
    ensures { result.now ≡ stated (rewrite_view change.entry) value.now }
{
    match change {
        LineRewrite::Substitute { .. } => trimmed(value),
        _ => value,
    }
}

// A text without the blanks at its two ends. A blank in a reference or after a backslash is none of
// these. Most texts end in no blank, and are not cut into words.
fn trimmed(text: &[u8]) -> &[u8]
    ensures { result.now ≡ trimmed text.now }
{
    if !begins_with_blank(text) && !ends_with_blank(text) {
        return text;
    }
    let mut words = words(text);
    let Some(first) = words.next() else {
        return &[];
    };
    let start = first.start;
    let mut end = first.end;
    'words: for word in words {
        end = word.end;
    }
    part(text, Span { start, end })
}

/// Whether a line can stand in the place of another: it is one logical line, it ends a line if the other
/// does, and it is not open if the other is not.
pub(crate) fn fits_line(old: &[u8], new: &[u8]) -> bool
    ensures { result ≡ fits_line old.now new.now }
{
    is_one_line(new) && (!ends_line(old) || ends_line(new)) && (!is_open(new) || is_open(old))
}

// Whether a text is one logical line.
fn is_one_line(text: &[u8]) -> bool
    ensures { result ≡ is_one (logical_lines text.now) }
{
    match split_first_line(text) {
        Some((_, after)) => after.is_empty(),
        None => false,
    }
}

// Whether a text ends a line, so that what follows it begins a new one.
fn ends_line(text: &[u8]) -> bool
    ensures { result ≡ ends_line text.now }
{
    text.is_empty() || (line_end(text) != End::None && !is_continued(text))
}

// The line that was made, read in the context of the old one.
//
// # Errors
//
// [`Refusal::Misread`] if it is not read as the old assignment with this flavor and the value that it
// is said to have. [`Refusal::NoMemory`] if a growth was refused.
fn read_back<A: Allocator + Copy>(
    alloc: A,
    old: &Line<A>,
    bytes: Vec<u8, A>,
    value: &[u8],
    flavor: Flavor,
    context: Context,
    meter: &mut Meter,
) -> Result<Line<A>, Refusal>
    requires one { logical_lines bytes.items ≡ bytes.items ∷ [] }
    requires defines { context.defines < max_text }
    requires own { IsAssigning context (line_view old.now) }
    ensures line { IfOk result (λ line.
        line_view line ≡ located_line (line_in context bytes.items)) }
    ensures reads { IfOk result (λ _.
        Reads true context (line_view old.now) bytes.items flavor value.now) }
    ensures refused { IfErr result (λ refusal.
        (refusal ≡ Refusal.NoMemory) ⊎ ((refusal ≡ Refusal.Misread)
        × Reads false context (line_view old.now) bytes.items flavor value.now)) }
    ensures counted { OnOk result (AreCounted meter.old 1 meter.new) }
    ensures few_read { meter.new ≤ meter.old + 1 }
    ensures forward { meter.old ≤ meter.new }
{
    let line = match Line::read(alloc, bytes, context, meter) {
        Ok(line) => line,
        Err(Fault::NoMemory) => return Err(Refusal::NoMemory),
        // A line that opens one conditional too many is no assignment.
        Err(_) => return Err(Refusal::Misread),
    };
    if is_read_as(old, &line, flavor, value) {
        Ok(line)
    } else {
        Err(Refusal::Misread)
    }
}

// Whether a new line is read as the assignment of an old one with this flavor and this value.
fn is_read_as<A: Allocator>(old: &Line<A>, new: &Line<A>, flavor: Flavor, value: &[u8]) -> bool
    ensures { result
        ≡ is_read_as (assignment_of (line_view old.now)) (assignment_of (line_view new.now)) flavor
        value.now }
{
    match (old.assignment(), new.assignment()) {
        (Some(old), Some(new)) => {
            have_same_texts(old.modifiers(), new.modifiers())
                && is_same_text(old.name(), new.name())
                && is_same_text(new.flavor().text().as_bytes(), flavor.text().as_bytes())
                && is_same_text(new.value(), value)
        }
        _ => false,
    }
}

// Whether two lists of texts are the same.
fn have_same_texts(left: WordTexts<'_>, right: WordTexts<'_>) -> bool
    ensures { result ≡ are_same_texts left.entry right.entry }
{
    let mut others = right;
    'texts: for text in left {
        match others.next() {
            Some(other) if is_same_text(text, other) => {}
            _ => return false,
        }
    }
    others.next().is_none()
}
