//! The plan of one edit, and the patch that it gives.
ghost use Rattle.std.specs.Prelude.{IfOk};
ghost use Rattle.mk_patch.specs.Moves.{FitMoves};
ghost use Rattle.mk_tree.specs.Documents.{IsFaithful};

use crate::checks::check_reply;
use crate::document::{check_lines, parsed, text_of};
use crate::rows::Row;
use mk_class::Meter;
use mk_edit::plan;
use mk_patch::Patch;
use mk_session::{Command, Edit};
use mk_tree::Doc;
use std::alloc::Global;
use test_support::Heap;
use test_support::difference::{Stop, at_most, same_text, same_word};

/// Plans the only edit of a row, if it has no other command.
pub fn check_only_plan<'h>(alloc: Global, heap: &'h Heap, row: &Row<'_, 'h>) -> Result<(), Stop> {
    let [only] = row.commands.as_slice() else {
        return Ok(());
    };
    match &only.command {
        Command::Apply(edit) => check_plan(alloc, heap, row, only.reply, edit),
        _ => Ok(()),
    }
}

/// Plans the edit of a row of one edit on its makefile.
fn check_plan<'h>(
    alloc: Global,
    heap: &'h Heap,
    row: &Row<'_, 'h>,
    reply: &str,
    edit: &Edit<&'h Heap>,
) -> Result<(), Stop> {
    let mut meter = Meter::new();
    let mut doc = parsed(alloc, heap, row.makefile.as_slice(), &mut meter)?;
    check_planned(alloc, heap, row, reply, edit, &mut doc, meter)
}

/// The plan reads no more lines than the edit costs, and refuses what the row expects to be refused. Its
/// patch leads to the expected text and back, and there again.
fn check_planned<'h>(
    alloc: Global,
    heap: &'h Heap,
    row: &Row<'_, 'h>,
    reply: &str,
    edit: &Edit<&'h Heap>,
    doc: &mut Doc<&'h Heap>,
    mut meter: Meter,
) -> Result<(), Stop>
    requires { IsFaithful doc.old }
{
    let before = meter.count();
    let planned = plan(heap, doc, edit, &mut meter);
    let read = meter.count().saturating_sub(before);
    match planned {
        Ok(patch) => {
            check_accepted(alloc, row, reply, read, &patch)?;
            check_patch(alloc, row, doc, patch)
        }
        Err(refusal) => {
            check_read(alloc, row, read)?;
            check_reply(alloc, "the reply of the plan", reply, Err(refusal))
        }
    }
}

/// Fails if a plan reads more lines than its row says.
fn check_read(alloc: Global, row: &Row<'_, '_>, read: u64) -> Result<(), Stop> {
    at_most(alloc, "the lines read by the plan", row.cost, read)
}

/// Fails if a row expects a refusal, or if its plan reads more lines than it says, or the patch holds or takes
/// more, and a line more: a last line gets a line end where a line is put in after it.
fn check_accepted(
    alloc: Global,
    row: &Row<'_, '_>,
    reply: &str,
    read: u64,
    patch: &Patch<&Heap>,
) -> Result<(), Stop> {
    check_read(alloc, row, read)?;
    same_word(alloc, "the reply of the plan", reply, "done")?;
    let (cost, size) = (one_more(row.cost), one_more(row.size));
    let (held, takes) = (patch.held() as u64, patch.takes() as u64);
    at_most(alloc, "the lines held by the patch", cost, held)?;
    at_most(alloc, "the lines that the patch takes", size, takes)
}

fn one_more(limit: Option<u64>) -> Option<u64> {
    match limit {
        Some(limit) => Some(limit.saturating_add(1)),
        None => None,
    }
}

/// Makes a patch, takes it back and makes it again.
fn check_patch<'h>(
    alloc: Global,
    row: &Row<'_, 'h>,
    doc: &mut Doc<&'h Heap>,
    patch: Patch<&'h Heap>,
) -> Result<(), Stop>
    requires { FitMoves patch doc.old }
{
    let expected = row.expected.as_ref();
    let what = "the text after the patch";
    let back = check_making(alloc, what, expected, doc, patch)?;
    let what = "the text after the patch was taken back";
    let again = check_making(alloc, what, Some(&row.makefile), doc, back)?;
    let what = "the text after the patch was made again";
    let _ = check_making(alloc, what, expected, doc, again)?;
    Ok(())
}

/// Makes a patch, which has to lead to a text, and gives the one that takes it back.
fn check_making<'h>(
    alloc: Global,
    what: &'static str,
    expected: Option<&Vec<u8>>,
    doc: &mut Doc<&'h Heap>,
    patch: Patch<&'h Heap>,
) -> Result<Patch<&'h Heap>, Stop>
    requires { FitMoves patch doc.old }
    ensures { IfOk result (λ back. FitMoves back doc.new) }
{
    let back = patch.make(doc);
    check_made(alloc, what, expected, doc)?;
    Ok(back)
}

/// Fails if a document has another text, or is not what the parse of it gives.
fn check_made(
    alloc: Global,
    what: &'static str,
    expected: Option<&Vec<u8>>,
    doc: &Doc<&Heap>,
) -> Result<(), Stop> {
    if let Some(expected) = expected {
        let text = text_of(alloc, doc)?;
        same_text(alloc, what, expected, text.as_slice())?;
    }
    check_lines(alloc, doc)
}
