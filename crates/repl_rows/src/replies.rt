//! What a line asks for, and what is replied to it.

use bstr::ByteSlice;
use mk_lines::{ByteSink, Fault};
use mk_repl::{
    Executed, Reverted, answer_line, answer_lines, execute_line, line_length, lines_between,
    read_request, revert,
};
use mk_session::{Refusal, Session};
use mk_tree::text_of;
use std::fmt::Write as _;
use test_support::text::{joined, number};
use test_support::{Case, Heap, MemorySink};

/// What a line asks for, if it asks.
pub fn request(case: &Case<'_>, line: &[u8]) -> Result<Vec<u8>, Fault> {
    let request = read_request(line);
    Ok(format!(in case.alloc; "{request:?}")?.into_bytes())
}

/// The lines of an answer.
pub fn lines_of_answer(case: &Case<'_>, text: &[u8]) -> Result<Vec<u8>, Fault> {
    let lines = answer_lines(case.heap, text)?;
    copy_of(case, &lines)
}

fn copy_of(case: &Case<'_>, text: &[u8]) -> Result<Vec<u8>, Fault> {
    Ok(Vec::from_slice(case.alloc, text)?)
}

/// The lines of a text between two numbers, from 1, and how long the first line of the text is.
pub fn between(case: &Case<'_>, text: &[u8], from: &[u8], to: &[u8]) -> Result<Vec<u8>, Fault> {
    let length = if text.is_empty() {
        0
    } else {
        line_length(text)
    };
    let length = format!(in case.alloc; "{length}: ")?;
    let lines = lines_between(text, number(from), number(to));
    Ok(joined(case.alloc, &[length.as_bytes(), lines])?)
}

/// A session over a makefile. That no contract says what it holds keeps the proofs of the two short that ask
/// for one.
fn open<'h>(heap: &'h Heap, makefile: &[u8], depth: u32) -> Result<Session<&'h Heap>, Fault> {
    Session::open(heap, makefile, depth)
}

/// Makes a call on a session over the first text of a case. It owns the session, as [`write`] does, and hands
/// it out by a reference: a function that owns one drops it on each way out, which makes its proof long.
pub fn answer(case: &Case<'_>) -> Result<Option<Vec<u8>>, Fault> {
    let [makefile, text] = case.fields else {
        return Ok(None);
    };
    let depth = if case.table == "revert" {
        u32::try_from(number(text)).unwrap_or(0)
    } else {
        100
    };
    let mut session = open(case.heap, makefile, depth)?;
    answer_in(case, &mut session, makefile, text)
}

fn answer_in<'h>(
    case: &Case<'h>,
    session: &mut Session<&'h Heap>,
    makefile: &[u8],
    text: &[u8],
) -> Result<Option<Vec<u8>>, Fault> {
    let answer = match case.table {
        "replies" => heard(case, session, text),
        "reply" => reply(case, session, makefile, text),
        "revert" => reverted(case, session, makefile),
        _ => return Ok(None),
    };
    Ok(Some(answer?))
}

/// Writes the replies of a session to lines, one for each that is a command.
pub fn write(
    case: &Case<'_>,
    makefile: &[u8],
    lines: &[u8],
    out: &mut MemorySink,
) -> Result<bool, Fault> {
    let mut session = open(case.heap, makefile, 100)?;
    write_replies(case, &mut session, lines, out)
}

fn write_replies<'h>(
    case: &Case<'h>,
    session: &mut Session<&'h Heap>,
    lines: &[u8],
    out: &mut MemorySink,
) -> Result<bool, Fault> {
    let mut heard = String::new(case.alloc);
    answer_each(case, session, lines, out, &mut heard)?;
    Ok(true)
}

/// Writes the replies of a session to lines, and pushes what each line is to it. A bar stands between two
/// lines.
fn answer_each<'h>(
    case: &Case<'h>,
    session: &mut Session<&'h Heap>,
    lines: &[u8],
    out: &mut MemorySink,
    heard: &mut String,
) -> Result<(), Fault> {
    for line in lines.split_str(b"|") {
        if out.failed() {
            return Err(Fault::Write);
        }
        let handled = answer_line(case.heap, session, line, out, &mut ())?;
        write!(heard, "{handled:?} ")?;
    }
    Ok(())
}

/// What each line is to a session, and the replies.
fn heard<'h>(
    case: &Case<'h>,
    session: &mut Session<&'h Heap>,
    lines: &[u8],
) -> Result<Vec<u8>, Fault> {
    let mut heard = String::new(case.alloc);
    let mut out = MemorySink::new(Vec::new(case.alloc), 3);
    answer_each(case, session, lines, &mut out, &mut heard)?;
    Ok(joined(case.alloc, &[heard.as_bytes(), out.bytes()])?)
}

/// The reply of a session to a line, and its text. A reply that tells want of memory has to leave the text.
fn reply<'h>(
    case: &Case<'h>,
    session: &mut Session<&'h Heap>,
    makefile: &[u8],
    line: &[u8],
) -> Result<Vec<u8>, Fault> {
    let mut out = MemorySink::new(Vec::new(case.alloc), 100);
    answer_line(case.heap, session, line, &mut out, &mut ())?;
    let text = text_of(case.alloc, session.doc())?;
    if out.bytes() == b"fault no memory\n".as_slice() && text.as_slice() == makefile {
        return Err(Fault::NoMemory);
    }
    Ok(joined(case.alloc, &[out.bytes(), &text])?)
}

/// What is answered to a revert of two edits in a session, and to one in a group.
fn reverted<'h>(
    case: &Case<'h>,
    session: &mut Session<&'h Heap>,
    makefile: &[u8],
) -> Result<Vec<u8>, Fault> {
    for line in [b"set CC a", b"set CC b"] {
        if execute_line(case.heap, session, line, &mut ()) != Executed::Done {
            return Err(Fault::NoMemory);
        }
    }
    let alone = reverted_to(case.heap, session, makefile);
    if alone == Ok(Reverted::Unknown) || session.begin() == Err(Refusal::NoMemory) {
        return Err(Fault::NoMemory);
    }
    let in_group = reverted_to(case.heap, session, makefile);
    Ok(format!(in case.alloc; "{alone:?}, {in_group:?}")?.into_bytes())
}

/// What comes of a revert. That no contract says it keeps the proof of its caller short.
fn reverted_to<'h>(
    heap: &'h Heap,
    session: &mut Session<&'h Heap>,
    makefile: &[u8],
) -> Result<Reverted, Refusal> {
    revert(heap, session, makefile)
}
