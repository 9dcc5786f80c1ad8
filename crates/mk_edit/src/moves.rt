//! The patches of edits whose causes are decided: a line put in the place of another, lines taken
//! out, a new line.
//!
//! An edit decides its causes, builds the bytes of its new line, and calls one of these functions.
//! All memory that the edit takes beside those bytes is taken here, except the notes of a rename.
ghost use Rattle.std.specs.Prelude.{◌≡◌, ◌<◌, ◌≤◌, ◌+◌, ◌^◌, ◌∷◌, ◌++◌, [], length, replicate, IfOk, IsOkUnless};
ghost use Rattle.mk_lines.specs.Limits.{max_text};
ghost use Rattle.mk_tree.specs.Documents.{IsFaithful};
ghost use Rattle.mk_tree.specs.LineTexts.{line_in};
ghost use Rattle.mk_tree.specs.LocatedLines.{last_line, located_line};
ghost use Rattle.mk_tree.specs.Trees.{line_view};
ghost use Rattle.mk_lines.specs.LogicalLines.{logical_lines};
ghost use Rattle.mk_patch.specs.Moves.{Exchange, IsPlain, TakeOut};
ghost use Rattle.mk_patch.specs.StepMoves.{move_of};
ghost use Rattle.mk_edit.specs.Planned.{ReadsAnew};
ghost use Rattle.mk_edit.specs.PlannedMoves.{CanInsert, CanReplace, ending_moves, follows_unended, inserting_moves, is_unended, last_bytes_ended, replacing_moves};
ghost use Rattle.mk_edit_parts.specs.Found.{IsPlaceOf};

use mk_class::{Context, Meter};
use mk_edit_language::Refusal;
use mk_edit_parts::line_end::{doc_line_end, with_line_end};
use mk_edit_parts::seek::Found;
use mk_lines::Fault;
use mk_lines::ends::{End, line_end};
use mk_patch::{Patch, PatchBuilder, Step};
use mk_tree::{Doc, Line, LineBytes};
use std::alloc::Allocator;

/// The patch that puts a line of these bytes in the place of another line. It reads the new line.
///
/// # Errors
///
/// [`Refusal::NoMemory`] if a growth was refused.
pub(crate) fn replace_line<A: Allocator + Copy>(
    alloc: A,
    doc: &Doc<A>,
    place: Found,
    bytes: Vec<u8, A>,
    meter: &mut Meter,
) -> Result<Patch<A>, Refusal>
    requires place { IsPlaceOf doc.now place }
    requires can { CanReplace doc.now place.at bytes.items }
    ensures moves { IfOk result (λ patch. patch ≡ replacing_moves doc.now place.at bytes.items) }
    ensures reads { ReadsAnew 1 meter.old meter.new result }
{
    // The contract of `len` bounds the number of lines, as reading asks.
    let _count = doc.len();
    let line = read_line(alloc, bytes, place.context, meter)?;
    exchange(alloc, place.at, line)
}

/// The patch that puts a line in the place of another.
///
/// # Errors
///
/// [`Refusal::NoMemory`] if a growth was refused.
pub(crate) fn exchange<A: Allocator + Copy>(
    alloc: A,
    at: usize,
    line: Line<A>,
) -> Result<Patch<A>, Refusal>
    ensures moves { IfOk result (λ patch. patch ≡ Exchange at (line_view line) ∷ []) }
    ensures refused { IsOkUnless result Refusal.NoMemory }
{
    let mut patch = builder(alloc, 1)?;
    patch.push(Step::Exchange(at, line));
    Ok(patch.finish())
}

/// The patch that takes out `count` lines, the first of which stands at a place.
///
/// # Errors
///
/// [`Refusal::NoMemory`] if a growth was refused.
pub(crate) fn take_out<A: Allocator + Copy>(
    alloc: A,
    at: usize,
    count: usize,
) -> Result<Patch<A>, Refusal>
    ensures moves { IfOk result (λ patch. patch ≡ replicate count (TakeOut at)) }
    ensures refused { IsOkUnless result Refusal.NoMemory }
{
    let mut patch = builder(alloc, count)?;
    take_lines(&mut patch, at, count);
    Ok(patch.finish())
}

/// Adds the steps to a patch that take out `count` lines, the first of which stands at a place.
pub(crate) fn take_lines<A: Allocator>(patch: &mut PatchBuilder<A>, at: usize, count: usize)
    requires { length patch.old.moves + count ≤ patch.old.room }
    ensures { patch.new
        ≡ record patch.old { moves = patch.old.moves ++ replicate count (TakeOut at) } }
{
    'lines: for taken in 0..count {
        patch.push(Step::TakeOut(at));
    }
}

/// The patch that puts a line of these bytes before the line at a place, or at the end. If the new
/// line follows a last line without a line end, that line gets the file's line end. The call reads
/// the new line.
///
/// # Errors
///
/// [`Refusal::NoMemory`] if a growth was refused.
pub(crate) fn insert_line<A: Allocator + Copy>(
    alloc: A,
    doc: &Doc<A>,
    place: Found,
    bytes: Vec<u8, A>,
    meter: &mut Meter,
) -> Result<Patch<A>, Refusal>
    requires faithful { IsFaithful doc.now }
    requires place { IsPlaceOf doc.now place }
    requires can { CanInsert doc.now place.at bytes.items }
    ensures moves { IfOk result (λ patch. patch ≡ inserting_moves doc.now place.at bytes.items) }
    ensures reads { ReadsAnew 1 meter.old meter.new result }
{
    // The contract of `size` says that no line is empty. So the number of lines is bounded, as
    // reading asks.
    let _size = doc.size();
    let mut patch = ending(alloc, doc, place.at, 1)?;
    let line = read_line(alloc, bytes, place.context, meter)?;
    patch.push(Step::PutIn(place.at, line));
    Ok(patch.finish())
}

/// A patch of the step by which the last line gets the file's line end, if new lines at a place would
/// follow it and it has none. The patch has room for `more` steps.
///
/// # Errors
///
/// [`Refusal::NoMemory`] if a growth was refused.
pub(crate) fn ending<A: Allocator + Copy>(
    alloc: A,
    doc: &Doc<A>,
    at: usize,
    more: usize,
) -> Result<PatchBuilder<A>, Refusal>
    requires faithful { IsFaithful doc.now }
    requires few { more < 2 ^ 63 }
    ensures moves { IfOk result (λ patch. patch ≡ record {
      moves = ending_moves (follows_unended doc.now at) doc.now;
      room = more + 1;
    }) }
    ensures refused { IsOkUnless result Refusal.NoMemory }
{
    let mut patch = builder(alloc, more + 1)?;
    if follows_unended(doc, at) {
        patch.push(Step::SwapEnd(last_line_ended(alloc, doc)?));
    }
    Ok(patch)
}

/// A patch of no step, with room for `room` steps.
///
/// # Errors
///
/// [`Refusal::NoMemory`] if there is no memory for this room.
pub(crate) fn builder<A: Allocator + Copy>(
    alloc: A,
    room: usize,
) -> Result<PatchBuilder<A>, Refusal>
    ensures empty { IfOk result (λ patch. patch ≡ record { moves = []; room = room }) }
    ensures refused { IsOkUnless result Refusal.NoMemory }
{
    match PatchBuilder::with_room(alloc, room) {
        Ok(patch) => Ok(patch),
        Err(_) => Err(Refusal::NoMemory),
    }
}

/// Whether a line put in at this place would follow a last line without a line end.
pub(crate) fn follows_unended<A: Allocator>(doc: &Doc<A>, at: usize) -> bool
    ensures { result ≡ follows_unended doc.now at }
{
    at == doc.len() && is_last_unended(doc)
}

// Whether there is a last line without a line end.
fn is_last_unended<A: Allocator>(doc: &Doc<A>) -> bool
    ensures { result ≡ is_unended (last_line doc.now) }
{
    let count = doc.len();
    count != 0 && line_end(doc.line(count - 1).bytes()) == End::None
}

// The bytes of the last line with the file's line end after them.
fn last_line_ended<A: Allocator + Copy>(alloc: A, doc: &Doc<A>) -> Result<LineBytes<A>, Refusal>
    requires faithful { IsFaithful doc.now }
    requires some_lines { 0 < length doc.now }
    ensures bytes { IfOk result (λ bytes. bytes ≡ last_bytes_ended doc.now) }
    ensures refused { IsOkUnless result Refusal.NoMemory }
{
    let last = doc.line(doc.len() - 1);
    let Ok(bytes) = with_line_end(alloc, last.bytes(), doc_line_end(doc)) else {
        return Err(Refusal::NoMemory);
    };
    match LineBytes::new(bytes) {
        Ok(bytes) => Ok(bytes),
        Err(_) => Err(Refusal::NoMemory),
    }
}

/// A line of these bytes, read in a context. It is of no conditional.
///
/// # Errors
///
/// [`Refusal::NoMemory`] if a growth was refused.
pub(crate) fn read_line<A: Allocator + Copy>(
    alloc: A,
    bytes: Vec<u8, A>,
    context: Context,
    meter: &mut Meter,
) -> Result<Line<A>, Refusal>
    requires one { logical_lines bytes.items ≡ bytes.items ∷ [] }
    requires plain { IsPlain (located_line (line_in context bytes.items)) }
    requires defines { context.defines < max_text }
    ensures line { IfOk result (λ line.
        line_view line ≡ located_line (line_in context bytes.items)) }
    ensures reads { ReadsAnew 1 meter.old meter.new result }
{
    match Line::read(alloc, bytes, context, meter) {
        Ok(line) => Ok(line),
        Err(Fault::NoMemory) => Err(Refusal::NoMemory),
        // A line that opens no conditional is never too deep.
        Err(_) => unreachable!(),
    }
}
