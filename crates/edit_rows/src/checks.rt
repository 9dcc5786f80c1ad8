//! The checks of a row by a session: its commands, and all that was done undone and done again.

use crate::document::{check_lines, text_of};
use crate::growths::check_refused_growth;
use crate::rows::{Expectation, Row};
use mk_session::{Detail, Refusal, Session};
use std::alloc::{AllocError, Global};
use test_support::Heap;
use test_support::difference::{Stop, at_most, no_fault, same_number, same_text, same_word};

/// Runs the commands of a row in a session, and refuses the growth after so many others if there is a number.
/// Whether one was refused.
pub fn check_in_session<'h>(
    alloc: Global,
    heap: &'h Heap,
    row: &Row<'_, 'h>,
    admitted: Option<u64>,
) -> Result<bool, Stop> {
    heap.refuse_none();
    let mut session = opened(alloc, heap, row)?;
    match admitted {
        Some(admitted) => check_refused_growth(alloc, heap, &mut session, row, admitted),
        None => check_session(alloc, &mut session, row),
    }
}

/// The session of a row.
fn opened<'h>(alloc: Global, heap: &'h Heap, row: &Row<'_, '_>) -> Result<Session<&'h Heap>, Stop> {
    let session = Session::open(heap, row.makefile.as_slice(), row.depth);
    no_fault(alloc, "the opening of the makefile", session)
}

/// Runs the commands of a row in its session, and undoes and redoes them.
///
/// - Each reply and the text at the end are the expected ones.
/// - A refused command leaves the text.
/// - After each command the document is what the parse of its text gives.
/// - Undoing all leads to the first text, and redoing it to the last, through the same texts.
fn check_session<'h>(
    alloc: Global,
    session: &mut Session<&'h Heap>,
    row: &Row<'_, 'h>,
) -> Result<bool, Stop> {
    for expectation in row.commands.iter() {
        check_command(alloc, session, expectation)?;
    }
    if let Some(expected) = &row.expected {
        check_text(alloc, "the text at the end", expected, session)?;
    }
    let what = "the lines read by the session";
    at_most(alloc, what, row.cost, session.rereads())?;
    let _ = session.end();
    let read = session.rereads();
    check_undos_and_redos(alloc, session, row)?;
    let what = "the lines read by undos and redos";
    same_number(alloc, what, read, session.rereads())?;
    Ok(false)
}

/// Fails if a session has another text.
fn check_text(
    alloc: Global,
    what: &'static str,
    expected: &[u8],
    session: &Session<&Heap>,
) -> Result<(), Stop> {
    let text = text_of(alloc, session.doc())?;
    same_text(alloc, what, expected, text.as_slice())
}

/// Runs a command.
fn check_command<'h>(
    alloc: Global,
    session: &mut Session<&'h Heap>,
    expectation: &Expectation<'_, 'h>,
) -> Result<(), Stop> {
    let before = text_of(alloc, session.doc())?;
    let answer = session.execute(&expectation.command);
    check_reply(alloc, "the reply", expectation.reply, answer)?;
    if answer.is_err() {
        check_text(alloc, "the text after a refusal", &before, session)?;
    }
    check_lines(alloc, session.doc())
}

/// Fails if an answer is another one.
pub fn check_reply(
    alloc: Global,
    what: &'static str,
    expected: &str,
    answer: Result<(), Refusal>,
) -> Result<(), Stop> {
    let reply = reply_of(alloc, answer)?;
    same_word(alloc, what, expected, reply.as_str())
}

/// An answer as a row has it: `done`, or the number, the name and the detail of the refusal.
fn reply_of(alloc: Global, answer: Result<(), Refusal>) -> Result<String, AllocError> {
    let Err(refusal) = answer else {
        return String::from_str(alloc, "done");
    };
    let number = refusal.number();
    match refusal.detail() {
        Detail::Count(count) => format!(in alloc; "{number} {refusal} {count}"),
        Detail::Field(field) => format!(in alloc; "{number} {refusal} {}", field.name()),
        Detail::Nothing => format!(in alloc; "{number} {refusal}"),
    }
}

/// Undoes all that can be undone, which leads to the first text if the depth is enough, and does it
/// again.
fn check_undos_and_redos<'h>(
    alloc: Global,
    session: &mut Session<&'h Heap>,
    row: &Row<'_, 'h>,
) -> Result<(), Stop> {
    let texts = undone(alloc, session, row.commands.len())?;
    if row.commands.len() <= row.depth as usize {
        check_text(alloc, "the text after all undos", &row.makefile, session)?;
    }
    for expected in texts.iter().rev() {
        check_reply(alloc, "the reply to a redo", "done", session.redo())?;
        check_text(alloc, "the text after a redo", expected, session)?;
        check_lines(alloc, session.doc())?;
    }
    Ok(())
}

/// Undoes all that can be undone, at most so many steps. It gives the text before each of them.
fn undone(alloc: Global, session: &mut Session<&Heap>, most: usize) -> Result<Vec<Vec<u8>>, Stop> {
    let mut texts = Vec::new(alloc);
    for _ in 0..most {
        let text = text_of(alloc, session.doc())?;
        if session.undo().is_err() {
            break;
        }
        check_lines(alloc, session.doc())?;
        texts.push(text)?;
    }
    let what = "the reply to the last undo";
    check_reply(alloc, what, "16 NothingToUndo", session.undo())?;
    Ok(texts)
}
