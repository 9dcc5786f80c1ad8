//! Groups of edits that are one call, and their dry runs.

use crate::sessions::{Growing, edit_of, execute_each, with_text};
use bstr::ByteSlice;
use mk_lines::Fault;
use mk_session::{Edit, Refusal, Session};
use test_support::{Case, Heap};

/// The answer of a session to a group of edits or to its dry run, once it has executed a script; whether the
/// session can undo and redo then; and its text.
pub fn answered<'h>(
    case: &Case<'h>,
    session: &mut Session<&'h Heap>,
    [before, edits]: [&[u8]; 2],
    is_dry: bool,
) -> Result<Vec<u8>, Fault> {
    let mut replies = String::new(case.alloc);
    execute_each(case.heap, session, before, Growing::AsBefore, &mut replies)?;
    answer_lines(case, session, edits, is_dry)
}

fn answer_lines<'h>(
    case: &Case<'h>,
    session: &mut Session<&'h Heap>,
    lines: &[u8],
    is_dry: bool,
) -> Result<Vec<u8>, Fault> {
    let edits = edits_of(case, lines)?;
    answer(case, session, &edits, is_dry)
}

/// The edits of lines.
fn edits_of<'h>(case: &Case<'h>, lines: &[u8]) -> Result<Vec<Edit<&'h Heap>>, Fault> {
    let mut edits = Vec::new(case.alloc);
    for line in lines.lines() {
        edits.push(edit_of(case.heap, line)?)?;
    }
    Ok(edits)
}

/// The answer of a session. A call without memory has to leave the session as it was, and has to be made
/// afterwards: else its answer is a write fault.
fn answer<'h>(
    case: &Case<'h>,
    session: &mut Session<&'h Heap>,
    edits: &[Edit<&'h Heap>],
    is_dry: bool,
) -> Result<Vec<u8>, Fault> {
    let before = shown(case, "", session)?;
    let answer = make(session, edits, is_dry);
    if matches!(answer, Err((_, Refusal::NoMemory))) {
        let is_kept = shown(case, "", session)? == before;
        let is_made = make(session, edits, false).is_ok();
        return Err(if is_kept && is_made {
            Fault::NoMemory
        } else {
            Fault::Write
        });
    }
    let said = format!(in case.alloc; "{answer:?} ")?;
    shown(case, &said, session)
}

/// Makes edits as a group, or tries them. That no contract says what comes of it keeps the proofs short of
/// all that ask for it.
fn make<'h>(
    session: &mut Session<&'h Heap>,
    edits: &[Edit<&'h Heap>],
    is_dry: bool,
) -> Result<(), (usize, Refusal)> {
    if is_dry {
        session.dry_run(edits)
    } else {
        session.group(edits)
    }
}

/// A front, whether a session can undo and redo, and its text.
fn shown(case: &Case<'_>, front: &str, session: &Session<&Heap>) -> Result<Vec<u8>, Fault> {
    let (undo, redo) = (session.can_undo(), session.can_redo());
    let said = format!(in case.alloc; "{front}{undo} {redo} ")?;
    with_text(case, &said, session)
}
