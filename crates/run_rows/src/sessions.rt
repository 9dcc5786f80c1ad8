//! Sessions: how they are shown, what they do without memory, and the growths that they take.
//!
//! [`answer`] and [`first_growths`] alone own a session, and hand it out by a reference: a function that owns
//! one drops it on each way out, which makes its proof long.

use crate::{groups, index, made, memory};
use bstr::ByteSlice;
use mk_lines::Fault;
use mk_script::{Step, parse_script};
use mk_session::{Command, Edit, Expected, Refusal, Session};
use std::alloc::{AllocError, Allocator};
use std::fmt::Write as _;
use test_support::text::{joined, number};
use test_support::{Case, Growths, Heap};

/// The command of a line of a script. A line that is none is a read fault.
fn command_of<A: Allocator + Copy>(alloc: A, line: &[u8]) -> Result<Command<A>, Fault> {
    match last_of(steps_of(alloc, line)?) {
        Some(Step::Alone(numbered)) => Ok(numbered.command),
        _ => Err(Fault::Read),
    }
}

fn steps_of<A: Allocator + Copy>(alloc: A, line: &[u8]) -> Result<Vec<Step<A>, A>, Fault> {
    match parse_script(alloc, line) {
        Ok(steps) => Ok(steps),
        Err(_) => Err(Fault::NoMemory),
    }
}

fn last_of<A: Allocator>(mut steps: Vec<Step<A>, A>) -> Option<Step<A>> {
    steps.pop()
}

/// The edit of a line of a script. A line that is none is a read fault.
pub fn edit_of<A: Allocator + Copy>(alloc: A, line: &[u8]) -> Result<Edit<A>, Fault> {
    match command_of(alloc, line)? {
        Command::Apply(edit) => Ok(edit),
        _ => Err(Fault::Read),
    }
}

/// A session over a makefile. That no contract says what it holds keeps the proofs of the two short that ask
/// for one.
fn open<'h>(heap: &'h Heap, makefile: &[u8], depth: u32) -> Result<Session<&'h Heap>, Fault> {
    Session::open(heap, makefile, depth)
}

/// Makes a call on a session over the first text of a case.
pub fn answer(case: &Case<'_>) -> Result<Option<Vec<u8>>, Fault> {
    let [makefile, texts @ ..] = case.fields else {
        return Ok(None);
    };
    let mut session = open(case.heap, makefile, depth_of(case.table, texts))?;
    answer_in(case, &mut session, texts)
}

/// The depth of the session of a table.
fn depth_of(table: &str, texts: &[Vec<u8>]) -> u32 {
    match (table, texts) {
        ("session", [depth]) => u32::try_from(number(depth)).unwrap_or(0),
        _ => 100,
    }
}

fn answer_in<'h>(
    case: &Case<'h>,
    session: &mut Session<&'h Heap>,
    texts: &[Vec<u8>],
) -> Result<Option<Vec<u8>>, Fault> {
    let answer = match (case.table, texts) {
        ("session", [_]) => with_text(case, "", session),
        ("session-shown", [script]) => shown(case, session, script),
        ("same-growths", [line]) => same_growths(case, session, line),
        ("without-memory", [before, script]) => without_memory(case, session, before, script),
        ("group", [before, edits]) => groups::answered(case, session, [before, edits], false),
        ("dry-run", [before, edits]) => groups::answered(case, session, [before, edits], true),
        ("applied", [call]) => made::applied(case, session, call),
        ("found-lines", [name]) => index::found_lines(case, session, name),
        ("memory-by-index", [edit, lines]) => memory::by_index(case, session, edit, lines),
        ("memory-by-edits", [edit, edits]) => memory::by_edits(case, session, edit, edits),
        _ => return Ok(None),
    };
    Ok(Some(answer?))
}

/// What a heap does while a session executes a line.
#[derive(Clone, Copy)]
pub enum Growing {
    /// What it does before.
    AsBefore,
    /// It counts growths.
    Counted,
    /// It refuses each growth.
    Refused,
}

/// The answer of a session to a line. The memory of the line itself is never refused, unless it was before.
fn execute<'h>(
    heap: &'h Heap,
    session: &mut Session<&'h Heap>,
    line: &[u8],
    growing: Growing,
) -> Result<Result<(), Refusal>, Fault> {
    if !matches!(growing, Growing::AsBefore) {
        heap.refuse_none();
    }
    let command = command_of(heap, line)?;
    match growing {
        Growing::AsBefore => {}
        Growing::Counted => heap.refuse_none(),
        Growing::Refused => heap.refuse_all(),
    }
    Ok(make(session, &command))
}

/// Executes a command. That no contract says what comes of it keeps the proof of what owns the command short.
fn make<A: Allocator + Copy>(
    session: &mut Session<A>,
    command: &Command<A>,
) -> Result<(), Refusal> {
    session.execute(command)
}

/// The growths that a session takes to execute a line, which it may not refuse.
pub fn growths_of<'h>(
    heap: &'h Heap,
    session: &mut Session<&'h Heap>,
    line: &[u8],
) -> Result<Growths, Fault> {
    match execute(heap, session, line, Growing::Counted)? {
        Ok(()) => Ok(heap.passed()),
        Err(_) => Err(Fault::Read),
    }
}

/// Has a session execute the lines of a script, and pushes its replies: `done`, or the name of a refusal.
/// Whether a growth of the session was refused.
pub fn execute_each<'h>(
    heap: &'h Heap,
    session: &mut Session<&'h Heap>,
    script: &[u8],
    growing: Growing,
    replies: &mut String,
) -> Result<bool, Fault> {
    let mut is_refused = false;
    for line in script.lines() {
        let answer = execute(heap, session, line, growing)?;
        is_refused |= heap.has_refused();
        push_reply(replies, answer)?;
    }
    Ok(is_refused)
}

fn push_reply(replies: &mut String, answer: Result<(), Refusal>) -> Result<(), Fault> {
    let reply = match answer {
        Ok(()) => "done",
        Err(Refusal::NoMemory) => return Err(Fault::NoMemory),
        Err(refusal) => refusal.name(),
    };
    replies.push_str(reply)?;
    replies.push_str(" ")?;
    Ok(())
}

/// A front, and the text of a session.
pub fn with_text<A: Allocator>(
    case: &Case<'_>,
    front: &str,
    session: &Session<A>,
) -> Result<Vec<u8>, Fault> {
    let mut shown = Vec::from_slice(case.alloc, front.as_bytes())?;
    push_text(&mut shown, session)?;
    Ok(shown)
}

fn push_text<A: Allocator>(text: &mut Vec<u8>, session: &Session<A>) -> Result<(), AllocError> {
    for line in session.doc().iter() {
        text.extend_from_slice(line.bytes())?;
    }
    Ok(())
}

/// How a session is shown after each command of a script.
fn shown<'h>(
    case: &Case<'h>,
    session: &mut Session<&'h Heap>,
    script: &[u8],
) -> Result<Vec<u8>, Fault> {
    let mut shown = String::new(case.alloc);
    for line in script.lines() {
        let _ = execute(case.heap, session, line, Growing::AsBefore)?;
        writeln!(shown, "{session:?}")?;
    }
    Ok(shown.into_bytes())
}

/// Whether something is so.
pub fn said(case: &Case<'_>, is_so: bool) -> Result<Vec<u8>, Fault> {
    Ok(is_so.to_string(case.alloc)?.into_bytes())
}

/// Whether an edit that is made 200 times takes the same growths each time.
fn same_growths<'h>(
    case: &Case<'h>,
    session: &mut Session<&'h Heap>,
    line: &[u8],
) -> Result<Vec<u8>, Fault> {
    let first = growths_of(case.heap, session, line)?;
    let mut are_same = true;
    for _ in 0..200 {
        are_same &= growths_of(case.heap, session, line)? == first;
    }
    said(case, are_same)
}

/// The replies of a session, once it has executed a script, to the commands of another one while each growth
/// is refused; whether these ask for memory, and how many lines they read; and the text.
fn without_memory<'h>(
    case: &Case<'h>,
    session: &mut Session<&'h Heap>,
    before: &[u8],
    script: &[u8],
) -> Result<Vec<u8>, Fault> {
    let (heap, alloc) = (case.heap, case.alloc);
    let mut replies = String::new(alloc);
    execute_each(heap, session, before, Growing::AsBefore, &mut replies)?;
    replies.clear();
    let read = session.rereads();
    let asks = execute_each(heap, session, script, Growing::Refused, &mut replies)?;
    let read = session.rereads().saturating_sub(read);
    let said = format!(in alloc; "{replies}asks {asks}, reads {read}: ")?;
    with_text(case, &said, session)
}

/// What a session does before its first edit.
#[derive(Clone, Copy)]
pub enum Start {
    /// Nothing.
    Nothing,
    /// It is told that edits besides renames are to come.
    Expecting,
    /// It begins a group.
    Begin,
}

/// The growths of the first edit of a session.
pub fn first_growths(
    heap: &Heap,
    makefile: &[u8],
    edit: &[u8],
    start: Start,
) -> Result<Growths, Fault> {
    let mut session = open(heap, makefile, 100)?;
    growths_from(heap, &mut session, edit, start)
}

fn growths_from<'h>(
    heap: &'h Heap,
    session: &mut Session<&'h Heap>,
    edit: &[u8],
    start: Start,
) -> Result<Growths, Fault> {
    match start {
        Start::Nothing => {}
        Start::Expecting => session.expect_edits(index::OTHERS),
        Start::Begin => {
            growths_of(heap, session, b"begin")?;
        }
    }
    growths_of(heap, session, edit)
}
