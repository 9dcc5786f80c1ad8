//! A row with each growth of its commands refused in turn.

use crate::checks::{check_in_session, check_reply};
use crate::document::has_text;
use crate::rows::{Expectation, Row};
use mk_session::{Command, Edit, Refusal, Session};
use std::alloc::Global;
use test_support::Heap;
use test_support::difference::{Stop, holds};

/// Runs the commands of a row in a session, once for each of their growths, which is refused then.
pub fn check_growths<'h>(alloc: Global, heap: &'h Heap, row: &Row<'_, 'h>) -> Result<(), Stop> {
    for admitted in 0..1_000u64 {
        if !check_in_session(alloc, heap, row, Some(admitted))? {
            return Ok(());
        }
    }
    holds(alloc, "a growth is not refused", false)
}

/// Refuses the growth after so many others, and says whether there are so many.
///
/// - A command that finds no memory changes nothing, and is made afterwards. Of the refusals none but
///   `Misread` may be hidden by it, and `Leans` of whole lines and of `uncomment`.
/// - The text at the end is the expected one.
/// - The end of a group, undoing all and redoing it take no memory.
pub fn check_refused_growth<'h>(
    alloc: Global,
    heap: &Heap,
    session: &mut Session<&'h Heap>,
    row: &Row<'_, 'h>,
    admitted: u64,
) -> Result<bool, Stop> {
    heap.refuse_one_after(admitted);
    check_commands(alloc, heap, session, row)?;
    let is_refused = heap.has_refused();
    heap.refuse_all();
    check_without_memory(alloc, heap, session, row)?;
    Ok(is_refused)
}

/// Runs the commands of a row.
fn check_commands<'h>(
    alloc: Global,
    heap: &Heap,
    session: &mut Session<&'h Heap>,
    row: &Row<'_, 'h>,
) -> Result<(), Stop> {
    for expectation in row.commands.iter() {
        let size = session.doc().size();
        let answer = session.execute(&expectation.command);
        if answer == Err(Refusal::NoMemory) && heap.has_refused() {
            let what = "a command without memory leaves the size of the text";
            holds(alloc, what, session.doc().size() == size)?;
            holds(
                alloc,
                "no memory hides no refusal",
                may_be_hidden(expectation),
            )?;
            check_again(alloc, session, expectation)?;
        } else {
            let what = "the reply where a growth may be refused";
            check_reply(alloc, what, expectation.reply, answer)?;
        }
    }
    check_end(alloc, "the text where a growth was refused", session, row)
}

/// Whether want of memory may hide the reply to a command: of the refusals one that needs the new lines.
fn may_be_hidden(expectation: &Expectation<'_, '_>) -> bool {
    let reads_first = matches!(
        &expectation.command,
        Command::Apply(Edit::ExchangeLines { .. } | Edit::Uncomment { .. })
    );
    let reply = expectation.reply;
    reply == "done" || reply == "21 Misread" || (reads_first && reply == "14 Leans")
}

/// Runs a command that has found no memory once more.
fn check_again<'h>(
    alloc: Global,
    session: &mut Session<&'h Heap>,
    expectation: &Expectation<'_, 'h>,
) -> Result<(), Stop> {
    let answer = session.execute(&expectation.command);
    check_reply(alloc, "the reply once more", expectation.reply, answer)
}

/// Fails if a session has not the text that is expected at the end.
fn check_end(
    alloc: Global,
    what: &'static str,
    session: &Session<&Heap>,
    row: &Row<'_, '_>,
) -> Result<(), Stop> {
    match &row.expected {
        Some(expected) => holds(alloc, what, has_text(session.doc(), expected)),
        None => Ok(()),
    }
}

/// Ends a group that is open, undoes all and does it again while each growth is refused.
fn check_without_memory(
    alloc: Global,
    heap: &Heap,
    session: &mut Session<&Heap>,
    row: &Row<'_, '_>,
) -> Result<(), Stop> {
    let _ = session.end();
    let most = row.commands.len();
    let count = count_undos(session, most);
    let is_first = has_text(session.doc(), &row.makefile) || most > row.depth as usize;
    holds(alloc, "the text after undos without memory", is_first)?;
    holds(
        alloc,
        "what is undone is redone without memory",
        are_redone(session, count),
    )?;
    check_end(alloc, "the text after redos without memory", session, row)?;
    holds(alloc, "undo and redo take no memory", !heap.has_refused())
}

/// Undoes all, at most so many steps, and says how many.
fn count_undos(session: &mut Session<&Heap>, most: usize) -> usize {
    for count in 0..most {
        if session.undo().is_err() {
            return count;
        }
    }
    most
}

/// Redoes so many steps, and says whether there are as many.
fn are_redone(session: &mut Session<&Heap>, count: usize) -> bool {
    for _ in 0..count {
        if session.redo().is_err() {
            return false;
        }
    }
    true
}
