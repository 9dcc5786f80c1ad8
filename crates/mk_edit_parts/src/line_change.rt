//! The places of an assignment's line that a change replaces, if the change is checked by reading,
//! and the text that goes there.
//!
//! A cause of refusal is told before a want of memory. So a growth that is refused does not end the
//! search for places: their ranges are dropped, and the places are counted on.
ghost use Rattle.std.specs.Cow.{cow_slice_items};
ghost use Rattle.std.specs.Prelude.{◌≡◌, ◌+◌, ◌<◌, ◌≤◌, ◌^◌, [], ◌∷◌, ◌++◌, None, Some, length, IfOk, IfSome, option_map};
ghost use Rattle.memchr.specs.Find.{matches};
ghost use Rattle.mk_lines.specs.Cells.{line_cells};
ghost use Rattle.mk_lines.specs.Ranges.{raw_range, text_at, word_ranges};
ghost use Rattle.mk_class.specs.Assignments.{operator_length};
ghost use Rattle.mk_tree.specs.LocatedLines.{text_of_line};
ghost use Rattle.mk_tree.specs.Trees.{line_view};
ghost use Rattle.mk_edit_language.specs.EditViews.{line_change_of};
ghost use Rattle.mk_edit_parts.specs.LineChangePlaces.{AreNoted, CanNote, change_places, new_text, operator_start, raw_ranges, rewrite_view, separator_among, separator_bytes, separator_place, separator_text, text_places, word_place, word_places};
ghost use Rattle.mk_edit_parts.specs.RenamedRanges.{AreWithin, IsWithin, bytes_in};
ghost use Rattle.mk_edit_parts.specs.RenamedTexts.{AreApart, rewritten};
ghost use Rattle.mk_edit_parts.specs.SeenAssignments.{HasAssignment};

use crate::raw_part::raw_part;
use crate::renamed_line::write_word;
use crate::text::is_same_text;
use memchr::memmem::find_iter;
use mk_class::{Assignment, Flavor};
use mk_edit_language::{LineChange, Side};
use mk_lines::split::Span;
use mk_lines::{after_blanks, words};
use mk_tree::Line;
use mk_tree::part::{part, rest, text_of_line};
use std::alloc::{AllocError, Allocator};
use std::borrow::CowSlice;

/// A change of the line of an assignment, with its texts where they stand in the edit.
#[derive(Clone, Copy)]
pub enum LineRewrite<'a> {
    /// Puts this text before the value.
    Prepend(&'a [u8]),
    /// Puts a text in the place of a word of the value, wherever it stands there.
    ReplaceWord {
        /// The word.
        word: &'a [u8],
        /// The text in its place.
        value: &'a [u8],
    },
    /// Puts a word beside another one of the value.
    InsertWord {
        /// On which side of the other word it goes.
        side: Side,
        /// The other word.
        word: &'a [u8],
        /// The new word.
        new: &'a [u8],
    },
    /// Puts a text in the place of each occurrence of another in the value.
    Substitute {
        /// The text to look for.
        from: &'a [u8],
        /// The text in its place.
        to: &'a [u8],
    },
    /// Puts this operator in the place of the operator.
    SetOperator(Flavor),
}

/// A change of the line of an assignment, without a copy of its texts.
pub fn rewrite_of<A: Allocator>(change: &LineChange<A>) -> LineRewrite<'_>
    ensures { rewrite_view result ≡ line_change_of change.now }
{
    match change {
        LineChange::Prepend(value) => LineRewrite::Prepend(value),
        LineChange::ReplaceWord { word, value } => LineRewrite::ReplaceWord { word, value },
        LineChange::InsertWord { side, word, new } => LineRewrite::InsertWord {
            side: *side,
            word,
            new,
        },
        LineChange::Substitute { from, to } => LineRewrite::Substitute { from, to },
        LineChange::SetOperator(flavor) => LineRewrite::SetOperator(*flavor),
    }
}

/// The places of a line that a change replaces.
#[derive(Drop)]
pub struct Places<A: Allocator> {
    /// How many there are.
    pub count: usize,
    /// How many bytes they have in the line as it stands.
    pub bytes: usize,
    /// Their ranges in the line's joined text, in order. `None` if a growth was refused.
    pub ranges: Option<Vec<Span, A>>,
}

/// The places of an assignment's line that a change replaces.
pub fn places_of<A: Allocator + Copy>(
    alloc: A,
    change: LineRewrite<'_>,
    line: &Line<A>,
    assignment: Assignment,
) -> Places<A>
    requires assignment { HasAssignment (line_view line.now) assignment }
    requires can { CanNote (line_cells (line_view line.now).bytes)
        (change_places (rewrite_view change) (text_of_line (line_view line.now)) assignment) }
    ensures { AreNoted (line_cells (line_view line.now).bytes)
        (change_places (rewrite_view change.entry) (text_of_line (line_view line.now))
        assignment) [] result }
{
    let places = Places {
        count: 0,
        bytes: 0,
        ranges: Some(Vec::new(alloc)),
    };
    with_places(places, change, line, assignment)
}

/// The places of an assignment's line that a change replaces, counted alone: it has no ranges, and takes
/// no memory.
pub fn count_of<A: Allocator>(
    change: LineRewrite<'_>,
    line: &Line<A>,
    assignment: Assignment,
) -> Places<A>
    requires assignment { HasAssignment (line_view line.now) assignment }
    requires can { CanNote (line_cells (line_view line.now).bytes)
        (change_places (rewrite_view change) (text_of_line (line_view line.now)) assignment) }
    ensures { AreNoted (line_cells (line_view line.now).bytes)
        (change_places (rewrite_view change.entry) (text_of_line (line_view line.now))
        assignment) [] result }
{
    let places = Places {
        count: 0,
        bytes: 0,
        ranges: None,
    };
    with_places(places, change, line, assignment)
}

// The places with those of an assignment's line that a change replaces.
fn with_places<A: Allocator>(
    places: Places<A>,
    change: LineRewrite<'_>,
    line: &Line<A>,
    assignment: Assignment,
) -> Places<A>
    requires assignment { HasAssignment (line_view line.now) assignment }
    requires can { CanNote (line_cells (line_view line.now).bytes)
        (change_places (rewrite_view change) (text_of_line (line_view line.now)) assignment) }
    requires none { AreNoted (line_cells (line_view line.now).bytes) [] [] places }
    ensures { AreNoted (line_cells (line_view line.now).bytes)
        (change_places (rewrite_view change.entry) (text_of_line (line_view line.now))
        assignment) [] result }
{
    let value = assignment.value;
    match change {
        LineRewrite::Prepend(_) => {
            let start = value.start;
            noted(places, line, Span { start, end: start })
        }
        LineRewrite::ReplaceWord { word, .. } => with_words(places, line, value, None, word),
        LineRewrite::InsertWord { side, word, .. } => {
            with_words(places, line, value, Some(side), word)
        }
        LineRewrite::Substitute { from, .. } => with_texts(places, line, value, from),
        LineRewrite::SetOperator(_) => {
            let start = operator_start(text_of_line(line), assignment.name.end);
            let end = start + assignment.flavor.text().len();
            noted(places, line, Span { start, end })
        }
    }
}

// The places with those at the words of a value that are this word: the word, or a side of it.
fn with_words<A: Allocator>(
    places: Places<A>,
    line: &Line<A>,
    value: Span,
    side: Option<Side>,
    wanted: &[u8],
) -> Places<A>
    requires within { IsWithin (length (line_cells (line_view line.now).bytes)) value }
    requires can { CanNote (line_cells (line_view line.now).bytes)
        (word_places (text_of_line (line_view line.now)) value.start side wanted.now
        (word_ranges (text_at (text_of_line (line_view line.now)) value))) }
    requires none { AreNoted (line_cells (line_view line.now).bytes) [] [] places }
    ensures { AreNoted (line_cells (line_view line.now).bytes)
        (word_places (text_of_line (line_view line.now)) value.start side wanted.now
        (word_ranges (text_at (text_of_line (line_view line.now)) value))) [] result }
{
    let text = text_of_line(line);
    let mut places = places;
    'words: for word in words(part(text, value)) {
        let start = value.start + word.start;
        let end = value.start + word.end;
        if is_same_text(part(text, Span { start, end }), wanted) {
            places = noted(places, line, word_place(side, Span { start, end }));
        }
    }
    places
}

// The range of a word, or the empty range on one side of it.
fn word_place(side: Option<Side>, word: Span) -> Span
    ensures { result ≡ word_place side word }
{
    let Span { start, end } = word;
    match side {
        None => word,
        Some(Side::Before) => Span { start, end: start },
        Some(Side::After) => Span { start: end, end },
    }
}

// The places with the occurrences of a text in a value.
fn with_texts<A: Allocator>(
    places: Places<A>,
    line: &Line<A>,
    value: Span,
    wanted: &[u8],
) -> Places<A>
    requires within { IsWithin (length (line_cells (line_view line.now).bytes)) value }
    requires can { CanNote (line_cells (line_view line.now).bytes)
        (text_places value.start (length wanted.now)
        (matches (text_at (text_of_line (line_view line.now)) value) wanted.now 0)) }
    requires none { AreNoted (line_cells (line_view line.now).bytes) [] [] places }
    ensures { AreNoted (line_cells (line_view line.now).bytes)
        (text_places value.start (length wanted.now)
        (matches (text_at (text_of_line (line_view line.now)) value) wanted.now 0)) [] result }
{
    let text = part(text_of_line(line), value);
    let mut places = places;
    'texts: for at in find_iter(text, wanted) {
        let start = value.start + at;
        let end = start + wanted.len();
        places = noted(places, line, Span { start, end });
    }
    places
}

// The places with one more, by its range in the line's joined text.
fn noted<A: Allocator>(places: Places<A>, line: &Line<A>, range: Span) -> Places<A>
    requires within { IsWithin (length (line_cells (line_view line.now).bytes)) range }
    requires few { places.count < 2 ^ 32 }
    requires few_bytes { places.bytes
        + bytes_in (raw_ranges (line_cells (line_view line.now).bytes) (range ∷ [])) ≤ 2 ^ 32 }
    ensures count { result.count ≡ places.count + 1 }
    ensures bytes { result.bytes ≡ places.bytes
        + bytes_in (raw_ranges (line_cells (line_view line.now).bytes) (range ∷ [])) }
    ensures ranges { IfSome result.ranges (λ after. Some after.items
        ≡ option_map (λ before. before.items ++ range ∷ []) places.ranges) }
{
    let Places {
        count,
        bytes,
        ranges,
    } = places;
    let raw = line.raw_range(range.start, range.end);
    Places {
        count: count + 1,
        bytes: bytes + (raw.end - raw.start),
        ranges: with_range(ranges, range),
    }
}

// Some ranges with one more behind them. `None` if there are none, or if a growth was refused.
fn with_range<A: Allocator>(ranges: Option<Vec<Span, A>>, range: Span) -> Option<Vec<Span, A>>
    ensures { IfSome result (λ after. Some after.items
        ≡ option_map (λ before. before.items ++ range ∷ []) ranges) }
{
    let mut ranges = ranges?;
    match ranges.push(range) {
        Ok(()) => Some(ranges),
        Err(_) => None,
    }
}

// Where the operator of an assignment begins in the text of its line, in which the name ends at an
// offset.
fn operator_start(text: &[u8], name_end: usize) -> usize
    requires { name_end ≤ length text.now }
    ensures { result ≡ operator_start text.now name_end }
{
    text.len() - after_blanks(rest(text, name_end)).len()
}

/// A line with a new text in the place of each of some ranges of its joined text, which stand in order
/// and apart. `room` is the memory that is taken at first.
///
/// # Errors
///
/// [`AllocError`] if there is no memory for it.
pub fn rewritten_line<A: Allocator>(
    alloc: A,
    line: &Line<A>,
    ranges: &[Span],
    new: &[u8],
    room: usize,
) -> Result<Vec<u8, A>, AllocError>
    requires within { AreWithin (length (line_cells (line_view line.now).bytes)) ranges.now }
    requires apart { AreApart 0 (length (line_view line.now).bytes)
        (raw_ranges (line_cells (line_view line.now).bytes) ranges.now) }
    ensures { IfOk result (λ all. all.items
        ≡ rewritten (line_view line.now).bytes new.now
        (raw_ranges (line_cells (line_view line.now).bytes) ranges.now)) }
{
    let bytes = line.bytes();
    let mut all = Vec::with_capacity(alloc, room)?;
    let mut done = 0;
    let mut left = ranges;
    'left: while let [range, after @ ..] = left {
        let raw = line.raw_range(range.start, range.end);
        write_word(&mut all, bytes, done, raw, new)?;
        done = raw.end;
        left = after;
    }
    all.extend_from_slice(rest(bytes, done))?;
    Ok(all)
}

/// The range of a line's joined text that separates a new word from the one beside which a change
/// puts it: what stands between that word and its neighbour on this side, or if it has none there, on
/// the other side. `None` if it is the only word, or if the change puts no word beside another.
pub fn separator_place<A: Allocator>(
    change: LineRewrite<'_>,
    line: &Line<A>,
    assignment: Assignment,
) -> Option<Span>
    requires { HasAssignment (line_view line.now) assignment }
    ensures { result ≡ separator_place (rewrite_view change.entry)
        (text_of_line (line_view line.now)) assignment }
{
    match change {
        LineRewrite::InsertWord { side, word, .. } => {
            separator_beside(text_of_line(line), assignment.value, side, word)
        }
        _ => None,
    }
}

// The range that separates the first word of a part of a text that is this one from its neighbour.
fn separator_beside(text: &[u8], value: Span, side: Side, wanted: &[u8]) -> Option<Span>
    requires within { IsWithin (length text.now) value }
    ensures { result ≡ separator_among side text.now value.start wanted.now None
        (word_ranges (text_at text.now value)) }
{
    let mut words = words(part(text, value));
    let mut word_end = None;
    'words: while let Some(word) = words.next() {
        let start = value.start + word.start;
        let end = value.start + word.end;
        if is_same_text(part(text, Span { start, end }), wanted) {
            let before = word_end.map(|word_end| Span {
                start: word_end,
                end: start,
            });
            let after = words.next().map(|next| Span {
                start: end,
                end: value.start + next.start,
            });
            return match side {
                Side::Before => before.or(after),
                Side::After => after.or(before),
            };
        }
        word_end = Some(end);
    }
    None
}

/// What a separator is read as: the joined text of its range, or a space if it has none.
pub fn separator_text<A: Allocator>(line: &Line<A>, separator: Option<Span>) -> &[u8]
    requires { IfSome separator (IsWithin (length (line_cells (line_view line.now).bytes))) }
    ensures { result.now ≡ separator_text (text_of_line (line_view line.now)) separator }
{
    match separator {
        Some(range) => part(text_of_line(line), range),
        None => b" ",
    }
}

/// The bytes of a separator in the line, or a space if it has no range.
pub fn separator_bytes<A: Allocator>(line: &Line<A>, separator: Option<Span>) -> &[u8]
    requires { IfSome separator (IsWithin (length (line_cells (line_view line.now).bytes))) }
    ensures { result.now ≡ separator_bytes (line_cells (line_view line.now).bytes) separator }
{
    match separator {
        Some(range) => raw_part(line, range),
        None => b" ",
    }
}

/// How many bytes the text has that goes to each place, by the bytes of the separator and the old
/// value.
pub fn new_length(change: LineRewrite<'_>, separator: &[u8], value: &[u8]) -> usize
    ensures { result ≡ length (new_text (rewrite_view change.entry) separator.now value.now) }
{
    match change {
        LineRewrite::Prepend(text) => text.len() + usize::from(!value.is_empty()),
        LineRewrite::ReplaceWord { value, .. } => value.len(),
        LineRewrite::InsertWord { new, .. } => new.len() + separator.len(),
        LineRewrite::Substitute { to, .. } => to.len(),
        LineRewrite::SetOperator(flavor) => flavor.text().len(),
    }
}

/// The text that goes to each place, by the change, the separator and the old value. It takes memory only
/// where it is made of two texts.
///
/// # Errors
///
/// [`AllocError`] if there is no memory for it.
pub fn new_text<'a, A: Allocator>(
    alloc: A,
    change: LineRewrite<'a>,
    separator: &[u8],
    value: &[u8],
) -> Result<CowSlice<'a, u8, A>, AllocError>
    ensures { IfOk result (λ text. cow_slice_items text
        ≡ new_text (rewrite_view change.entry) separator.now value.now) }
{
    match change {
        LineRewrite::Prepend(text) => {
            let space: &[u8] = if value.is_empty() { b"" } else { b" " };
            joined(alloc, text, space)
        }
        LineRewrite::ReplaceWord { value, .. } => Ok(CowSlice::Borrowed(value)),
        LineRewrite::InsertWord {
            side: Side::Before,
            new,
            ..
        } => joined(alloc, new, separator),
        LineRewrite::InsertWord {
            side: Side::After,
            new,
            ..
        } => joined(alloc, separator, new),
        LineRewrite::Substitute { to, .. } => Ok(CowSlice::Borrowed(to)),
        LineRewrite::SetOperator(flavor) => Ok(CowSlice::Borrowed(flavor.text().as_bytes())),
    }
}

// Two texts, one after the other.
fn joined<'a, A: Allocator>(
    alloc: A,
    left: &[u8],
    right: &[u8],
) -> Result<CowSlice<'a, u8, A>, AllocError>
    ensures { IfOk result (λ all. cow_slice_items all ≡ left.now ++ right.now) }
{
    let mut all = Vec::with_capacity(alloc, left.len() + right.len())?;
    all.extend_from_slice(left)?;
    all.extend_from_slice(right)?;
    Ok(CowSlice::Owned(all))
}
