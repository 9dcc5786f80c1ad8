//! A change of a value, as an edit says it, and what it does to the line of one assignment.
ghost use Rattle.std.specs.Prelude.{◌≡◌, ◌≤◌, ◌++◌, IfOk, false, take, drop, length};
ghost use Rattle.mk_tree.specs.Trees.{line_view};
ghost use Rattle.mk_edit_language.specs.Edits.{Set};
ghost use Rattle.mk_edit_language.specs.EditViews.{value_change_of};
ghost use Rattle.mk_edit_parts.specs.LineRanges.{value_range_located};
ghost use Rattle.mk_edit_parts.specs.LocatedParts.{IsClassed};
ghost use Rattle.mk_edit.specs.ValueChangeLines.{IsOwnLine, bytes_changed, bytes_put, change_view, has_effect_located, is_longer, is_open_located, put_by, space_after, spared_by};

use crate::assignment::{assignment_of, value_text};
use mk_edit_language::ValueChange;
use mk_edit_parts::range::{ends_in_fold, value_range, with_replaced};
use mk_edit_parts::seek::Found;
use mk_edit_parts::text::{has_word, is_same_text};
use mk_edit_parts::value_words::{bares_end, without_word};
use mk_lines::is_closed;
use mk_tree::Line;
use std::alloc::{AllocError, Allocator};

/// What an edit does to a value, of one assignment or of each of a name.
#[derive(Clone, Copy)]
pub(crate) enum Change<'a> {
    /// Puts this value in its place, which may be empty.
    Set(&'a [u8]),
    /// Puts the second value in its place, if it is the first.
    SetIf(&'a [u8], &'a [u8]),
    /// Puts this text after it.
    Append(&'a [u8]),
    /// Puts this word after it, if it does not have the word.
    Add(&'a [u8]),
    /// Takes this word out of it, if it has the word.
    Remove(&'a [u8]),
}

/// A change of each value of a name.
pub(crate) fn change_of<A: Allocator>(change: &ValueChange<A>) -> Change<'_>
    ensures { change_view result ≡ value_change_of change.now }
{
    match change {
        ValueChange::Set(value) => Change::Set(value),
        ValueChange::SetIf { old, value } => Change::SetIf(old, value),
        ValueChange::Append(text) => Change::Append(text),
        ValueChange::Add(word) => Change::Add(word),
        ValueChange::Remove(word) => Change::Remove(word),
    }
}

/// Whether a change does something to the value of an assignment's line: a value goes in the place of
/// another if it is that one, a word is added if the value does not have it, and taken out if the value
/// has it.
pub(crate) fn has_effect<A: Allocator>(change: Change<'_>, line: &Line<A>) -> bool
    requires { IsClassed (line_view line.now) }
    ensures { result ≡ has_effect_located (change_view change.entry) (line_view line.now) }
{
    match change {
        Change::Set(_) | Change::Append(_) => true,
        Change::SetIf(old, _) => is_same_text(value_text(line), old),
        Change::Add(word) => !has_word(value_text(line), word),
        Change::Remove(word) => has_word(value_text(line), word),
    }
}

/// Whether a change would be refused for the value of an assignment's line with
/// [`OpenValue`](mk_edit_language::Refusal::OpenValue): the value is not closed, and is not replaced;
/// a word after it would not be read as a word of its own; or what follows a word that goes would be
/// read together with the word before it.
pub(crate) fn is_open<A: Allocator>(change: Change<'_>, line: &Line<A>) -> bool
    requires { IsClassed (line_view line.now) }
    ensures { result ≡ is_open_located (change_view change.entry) (line_view line.now) }
{
    let value = value_text(line);
    match change {
        Change::Set(_) | Change::SetIf(..) => false,
        Change::Append(_) => !is_closed(value),
        Change::Add(_) => !is_closed(value) || ends_in_fold(line),
        Change::Remove(word) => !is_closed(value) || bares_end(value, word),
    }
}

/// How many bytes a change puts into each line that it changes, with a space before a text that is
/// put after a value.
pub(crate) fn put_by(change: Change<'_>) -> usize
    ensures { result ≡ put_by (change_view change.entry) }
{
    match change {
        Change::Set(value) | Change::SetIf(_, value) => value.len(),
        Change::Append(text) | Change::Add(text) => text.len() + 1,
        Change::Remove(_) => 0,
    }
}

/// How many of these bytes do not make the line longer: the bytes of the value that is replaced, or
/// the space, if the value is empty. A word that is taken out makes no line longer, and is not
/// counted.
pub(crate) fn spared_by<A: Allocator>(change: Change<'_>, line: &Line<A>) -> usize
    requires { IsClassed (line_view line.now) }
    ensures { result ≡ spared_by (change_view change.entry) (line_view line.now) }
{
    match change {
        Change::Set(value) | Change::SetIf(_, value) => {
            let range = value_range(line, value.is_empty());
            range.end.saturating_sub(range.start)
        }
        Change::Append(_) | Change::Add(_) => usize::from(value_text(line).is_empty()),
        Change::Remove(_) => 0,
    }
}

/// Whether a line that a change changes gets longer. If it does not, it gets no longer.
pub(crate) fn is_longer<A: Allocator>(change: Change<'_>, line: &Line<A>) -> bool
    requires { IsClassed (line_view line.now) }
    ensures { result ≡ is_longer (change_view change.entry) (line_view line.now) }
{
    match change {
        Change::Set(value) | Change::SetIf(_, value) => spared_by(change, line) < value.len(),
        Change::Append(_) | Change::Add(_) => true,
        Change::Remove(_) => false,
    }
}

/// The bytes of a line after a change that changes it. All memory is taken at once.
///
/// # Errors
///
/// [`AllocError`] if there is no memory for them.
pub(crate) fn bytes_changed<A: Allocator + Copy>(
    alloc: A,
    change: Change<'_>,
    place: &Found,
    line: &Line<A>,
) -> Result<Vec<u8, A>, AllocError>
    requires { IsOwnLine (change_view change) place.now.context (line_view line.now) }
    ensures { IfOk result (λ bytes. bytes.items
        ≡ bytes_changed (change_view change.entry) place.now.context (line_view line.now)) }
{
    match change {
        Change::Set(value) => with_value(alloc, place, line, value),
        Change::SetIf(_, value) => with_value(alloc, place, line, value),
        Change::Append(text) => with_text_after(alloc, line, text),
        Change::Add(word) => with_text_after(alloc, line, word),
        Change::Remove(word) => without_word(alloc, line, assignment_of(line), word),
    }
}

// The bytes of an assignment's line with another value, which may be empty.
fn with_value<A: Allocator + Copy>(
    alloc: A,
    place: &Found,
    line: &Line<A>,
    value: &[u8],
) -> Result<Vec<u8, A>, AllocError>
    requires { IsOwnLine (Set value.now) place.now.context (line_view line.now) }
    ensures { IfOk result (λ bytes. bytes.items
        ≡ bytes_changed (Set value.now) place.now.context (line_view line.now)) }
{
    let range = value_range(line, value.is_empty());
    with_replaced(alloc, line.bytes(), range, value)
}

// The bytes of an assignment's line with a text after its value.
fn with_text_after<A: Allocator>(
    alloc: A,
    line: &Line<A>,
    text: &[u8],
) -> Result<Vec<u8, A>, AllocError>
    requires classed { IsClassed (line_view line.now) }
    requires within { (value_range_located false (line_view line.now)).end
        ≤ length (line_view line.now).bytes }
    ensures { IfOk result (λ bytes. bytes.items ≡ bytes_put text.now (line_view line.now)) }
{
    let range = value_range(line, false);
    let space = space_after(value_text(line));
    with_put_in(alloc, line.bytes(), range.end, space, text)
}

// What stands between a value and a text that is put after it.
fn space_after(value: &[u8]) -> &'static [u8]
    ensures space { result.now ≡ space_after value.now }
    ensures short { length result.now ≤ 1 }
{
    if value.is_empty() { b"" } else { b" " }
}

// Bytes with a text put in at a place, and a space or nothing before it, in memory of their own. All
// memory is taken at once.
fn with_put_in<A: Allocator>(
    alloc: A,
    bytes: &[u8],
    at: usize,
    space: &[u8],
    text: &[u8],
) -> Result<Vec<u8, A>, AllocError>
    requires within { at ≤ length bytes.now }
    requires short { length space.now ≤ 1 }
    ensures { IfOk result (λ all.
        all.items ≡ take at bytes.now ++ (space.now ++ (text.now ++ drop at bytes.now))) }
{
    let mut all = Vec::with_capacity(alloc, bytes.len() + space.len() + text.len())?;
    all.extend_from_slice(&bytes[..at])?;
    all.extend_from_slice(space)?;
    all.extend_from_slice(text)?;
    all.extend_from_slice(&bytes[at..])?;
    Ok(all)
}
