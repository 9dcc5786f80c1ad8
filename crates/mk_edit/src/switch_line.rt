//! An assignment that becomes a comment, and a comment that becomes an assignment again, planned.
ghost use Rattle.std.specs.Prelude.{◌≡◌, ◌⊎◌, ◌<◌, ◌≤◌, ◌+◌, ◌∷◌, [], List, true, false, length, IfOk, IfErr, OnOk};
ghost use Rattle.mk_lines.specs.Limits.{max_text};
ghost use Rattle.mk_lines.specs.LogicalLines.{logical_lines};
ghost use Rattle.mk_class.specs.ClassTable.{class_of};
ghost use Rattle.mk_class.specs.ClassedLines.{classed_lines};
ghost use Rattle.mk_tree.specs.Counting.{AreCounted};
ghost use Rattle.mk_tree.specs.Documents.{IsFaithful};
ghost use Rattle.mk_tree.specs.LineTexts.{StandingLine, line_in};
ghost use Rattle.mk_tree.specs.LocatedLines.{located_line, located_text};
ghost use Rattle.mk_tree.specs.Trees.{line_view};
ghost use Rattle.mk_edit_language.specs.Addresses.{assigns};
ghost use Rattle.mk_edit_language.specs.Edits.{CommentOut, Uncomment};
ghost use Rattle.mk_edit_language.specs.EditViews.{edit_of};
ghost use Rattle.mk_edit_language.specs.SwitchedLines.{leans_on_assignment, line_switched};
ghost use Rattle.mk_edit_parts.specs.Seeking.{IsLineKnown};
ghost use Rattle.mk_edit.specs.Planned.{Plans};
ghost use Rattle.mk_edit.specs.SwitchPlans.{IsSwitch, StandsAt};

use crate::change_line::fits_line;
use crate::moves::{exchange, replace_line};
use mk_class::{Meter, RuleFlag};
use mk_edit_language::{Edit, Refusal};
use mk_edit_parts::comment::comment_mark;
use mk_edit_parts::find::find;
use mk_edit_parts::lean::leans;
use mk_edit_parts::line_test::assigns;
use mk_edit_parts::range::with_replaced;
use mk_edit_parts::seek::{Found, Sought};
use mk_lines::Fault;
use mk_lines::source::MAX_TEXT;
use mk_lines::split::Span;
use mk_patch::Patch;
use mk_tree::{Doc, Line};
use std::alloc::{AllocError, Allocator};

/// Plans a `#` before the line of an assignment. It reads the new line.
///
/// # Errors
///
/// The first cause of the edit that holds: the causes of [`find`]; [`Refusal::Leans`]; and
/// [`Refusal::TooLong`]. If no cause holds, [`Refusal::NoMemory`] if a growth was refused.
pub(crate) fn plan_comment_out<A: Allocator + Copy>(
    alloc: A,
    doc: &Doc<A>,
    edit: &Edit<A>,
    known: Option<Sought>,
    name: &[u8],
    meter: &mut Meter,
) -> Result<Patch<A>, Refusal>
    requires faithful { IsFaithful doc.now }
    requires kind { IsSwitch CommentOut name.now (edit_of edit.now) }
    requires known { IsLineKnown (edit_of edit.now) doc.now known }
    ensures { Plans (edit_of edit.now) doc.now meter.old meter.new result }
{
    let size = doc.size();
    let place = find(doc, edit, known)?;
    let line = doc.line(place.at);
    if leans_on_assignment(doc, &place) {
        return Err(Refusal::Leans);
    }
    if size == MAX_TEXT {
        return Err(Refusal::TooLong);
    }
    let Ok(bytes) = commented_out(alloc, line) else {
        return Err(Refusal::NoMemory);
    };
    replace_line(alloc, doc, place, bytes, meter)
}

/// Plans the line of an assignment in the place of the comment that says it. It reads the new line.
///
/// # Errors
///
/// The first cause of the edit that holds: the causes of [`find`]; [`Refusal::Misread`] if the new line is
/// no assignment of the name; and [`Refusal::Leans`]. [`Refusal::NoMemory`] if a growth was refused and
/// none of these holds but perhaps one of the last two.
pub(crate) fn plan_uncomment<A: Allocator + Copy>(
    alloc: A,
    doc: &Doc<A>,
    edit: &Edit<A>,
    known: Option<Sought>,
    name: &[u8],
    meter: &mut Meter,
) -> Result<Patch<A>, Refusal>
    requires faithful { IsFaithful doc.now }
    requires kind { IsSwitch Uncomment name.now (edit_of edit.now) }
    requires known { IsLineKnown (edit_of edit.now) doc.now known }
    ensures { Plans (edit_of edit.now) doc.now meter.old meter.new result }
{
    // The contract of `size` bounds the number of lines, as reading asks.
    let _size = doc.size();
    let place = find(doc, edit, known)?;
    let line = doc.line(place.at);
    let leans = leans_on_assignment(doc, &place);
    let Ok(bytes) = uncommented(alloc, line) else {
        return Err(Refusal::NoMemory);
    };
    if !fits_line(line.bytes(), &bytes) {
        return Err(Refusal::Misread);
    }
    let new = read_assignment(alloc, bytes, &place, name, meter)?;
    if leans {
        return Err(Refusal::Leans);
    }
    exchange(alloc, place.at, new)
}

// The bytes of a line with a `#` before it.
fn commented_out<A: Allocator>(alloc: A, line: &Line<A>) -> Result<Vec<u8, A>, AllocError>
    ensures { IfOk result (λ bytes. bytes.items ≡ line_switched CommentOut (line_view line.now).bytes) }
{
    let front = Span { start: 0, end: 0 };
    with_replaced(alloc, line.bytes(), front, b"#")
}

// The bytes of a line without the mark of a comment.
fn uncommented<A: Allocator>(alloc: A, line: &Line<A>) -> Result<Vec<u8, A>, AllocError>
    ensures { IfOk result (λ bytes. bytes.items ≡ line_switched Uncomment (line_view line.now).bytes) }
{
    let mark = comment_mark(line.bytes());
    with_replaced(alloc, line.bytes(), mark, b"")
}

// Whether the lines below the line at a place would be read in another way below an assignment there than
// below a comment.
fn leans_on_assignment<A: Allocator>(doc: &Doc<A>, place: &Found) -> bool
    requires faithful { IsFaithful doc.now }
    requires in_range { place.now.at < length doc.now }
    ensures { (spot : StandingLine) → StandsAt (classed_lines (located_text doc.now)) spot place.now
        → result ≡ leans_on_assignment spot }
{
    // The contract of `len` bounds the number of lines.
    let _count = doc.len();
    let Found { at, context } = *place;
    leans(doc, at + 1, context.prefix(), context.flag(), RuleFlag::Off)
}

// A line of these bytes, read at a place, if it assigns a name.
//
// # Errors
//
// [`Refusal::Misread`] if it does not; [`Refusal::NoMemory`] if a growth was refused.
fn read_assignment<A: Allocator + Copy>(
    alloc: A,
    bytes: Vec<u8, A>,
    place: &Found,
    name: &[u8],
    meter: &mut Meter,
) -> Result<Line<A>, Refusal>
    requires one { logical_lines bytes.items ≡ bytes.items ∷ [] }
    requires defines { place.now.context.defines < max_text }
    ensures line { IfOk result (λ line.
        line_view line ≡ located_line (line_in place.now.context bytes.items)) }
    ensures assigns { IfOk result (λ _.
        assigns name.now (class_of place.now.context bytes.items) ≡ true) }
    ensures refused { IfErr result (λ refusal. (refusal ≡ Refusal.NoMemory)
        ⊎ ((refusal ≡ Refusal.Misread)
        × (assigns name.now (class_of place.now.context bytes.items) ≡ false))) }
    ensures counted { OnOk result (AreCounted meter.old 1 meter.new) }
    ensures few_read { meter.new ≤ meter.old + 1 }
    ensures forward { meter.old ≤ meter.new }
{
    let line = match Line::read(alloc, bytes, place.context, meter) {
        Ok(line) => line,
        Err(Fault::NoMemory) => return Err(Refusal::NoMemory),
        // A line that opens one conditional too many is no assignment.
        Err(_) => return Err(Refusal::Misread),
    };
    if assigns(&line, &line.class(), name) {
        Ok(line)
    } else {
        Err(Refusal::Misread)
    }
}
