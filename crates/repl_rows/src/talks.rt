//! The lines of a source, and a whole talk: with devices that move little or fail, and without memory.

use mk_lines::sink::{write_all, write_parts};
use mk_lines::{ByteSink, ByteSource, Fault};
use mk_repl::{After, Handler, LineRead, Unread, read_line, serve, write_greeting, write_unread};
use test_support::text::{joined, number};
use test_support::{Case, Heap, MemorySink, MemorySource};

/// How each line of a text is read, and the lines, up to 10 of them. A bar stands behind each.
pub fn lines_of(case: &Case<'_>, text: &[u8]) -> Result<Vec<u8>, Fault> {
    let mut line = Vec::new(case.heap);
    lines_by(case, text, &mut line)
}

fn lines_by<'h>(
    case: &Case<'h>,
    text: &[u8],
    line: &mut Vec<u8, &'h Heap>,
) -> Result<Vec<u8>, Fault> {
    let mut source = MemorySource::new(text, 100_000);
    let mut shown = Vec::new(case.alloc);
    for _ in 0..10 {
        if source.failed() {
            return Err(Fault::Read);
        }
        let read = read_line(&mut source, line)?;
        push_line(case, &mut shown, read, source.left(), line)?;
        if read == LineRead::End {
            break;
        }
    }
    Ok(shown)
}

/// Pushes how a line was read, how many bytes are left, and the line with a bar.
fn push_line(
    case: &Case<'_>,
    shown: &mut Vec<u8>,
    read: LineRead,
    left: usize,
    line: &[u8],
) -> Result<(), Fault> {
    let said = format!(in case.alloc; "{read:?} {left} ")?;
    shown.extend_from_slice(said.as_bytes())?;
    match read {
        LineRead::Line => shown.extend_from_slice(line)?,
        LineRead::TooLong => {}
        LineRead::End => return Ok(()),
    }
    shown.push(b'|')?;
    Ok(())
}

/// How the first line of a text is read whose reads fail, from the one of a number to the one before another
/// number.
pub fn failing_line(
    case: &Case<'_>,
    text: &[u8],
    from: &[u8],
    to: &[u8],
) -> Result<Vec<u8>, Fault> {
    for call in number(from)..number(to) {
        let mut source = MemorySource::new(text, 1).failing_at(Some(call));
        let read = read_line(&mut source, &mut Vec::new(case.alloc));
        if read != Err(Fault::Read) {
            return Ok(format!(in case.alloc; "{read:?} at {call}")?.into_bytes());
        }
    }
    Ok(Vec::from_slice(case.alloc, b"each fails")?)
}

/// Replies to a command with its text between brackets, prompts for each line of a block, and ends at a command
/// that begins with `q`.
#[derive(Drop)]
struct Echo;

impl Handler for Echo {
    fn greet<W: ByteSink>(&self, out: &mut W) -> Result<(), Fault> {
        write_greeting(out)
    }

    fn prompt<W: ByteSink>(&self, out: &mut W) -> Result<(), Fault> {
        write_all(out, b"?")
    }

    fn reject<W: ByteSink>(&mut self, why: Unread, out: &mut W) -> Result<(), Fault> {
        write_unread(why, out)
    }

    fn handle<W: ByteSink>(&mut self, text: &[u8], out: &mut W) -> Result<After, Fault> {
        write_parts(out, &[b"[", text, b"]\n"])?;
        Ok(if text.first() == Some(&b'q') {
            After::Ends
        } else {
            After::GoesOn
        })
    }
}

/// What goes out in a talk about some lines whose read of a number fails: the answer, how many flushes come,
/// how many bytes are not read, and the bytes that are out. Nothing may be out without memory: that would be
/// a write fault. Where there is none for the lines of a block, the talk goes on.
pub fn talk(case: &Case<'_>, lines: &[u8], call: &[u8]) -> Result<Vec<u8>, Fault> {
    let mut source = MemorySource::new(lines, 1_000).failing_at(Some(number(call)));
    let mut out = MemorySink::new(Vec::new(case.alloc), 100);
    let talked = serve(case.heap, &mut source, &mut Echo, &mut out);
    talked_of(case, talked, &out, source.left())
}

fn talked_of(
    case: &Case<'_>,
    talked: Result<(), Fault>,
    out: &MemorySink,
    left: usize,
) -> Result<Vec<u8>, Fault> {
    if talked == Err(Fault::NoMemory) {
        return Err(if out.writes() == 0 {
            Fault::NoMemory
        } else {
            Fault::Write
        });
    }
    if out.bytes().ends_with(b"fault no memory\n[q\n]\n") {
        return Err(Fault::NoMemory);
    }
    let flushes = out.flushes();
    let said = format!(in case.alloc; "{talked:?}, flushes {flushes}, left {left}: ")?;
    Ok(joined(case.alloc, &[said.as_bytes(), out.bytes()])?)
}

/// Whether a front of a text is out where each write of a talk fails in turn.
pub fn failing_talk(case: &Case<'_>, lines: &[u8], text: &[u8]) -> Result<Vec<u8>, Fault> {
    for call in 1..100u64 {
        let mut source = MemorySource::new(lines, 3);
        let mut out = MemorySink::new(Vec::new(case.alloc), 3).failing_at(Some(call));
        let talked = serve(case.alloc, &mut source, &mut Echo, &mut out);
        if out.writes() < call {
            let is_out = talked.is_ok() && out.bytes() == text;
            return Ok(is_out.to_string(case.alloc)?.into_bytes());
        }
        if talked != Err(Fault::Write) || !text.starts_with(out.bytes()) {
            break;
        }
    }
    Ok(Vec::from_slice(case.alloc, b"no front")?)
}
