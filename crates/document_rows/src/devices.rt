//! A reader and a writer of std whose calls end as the bytes of a text say: a digit moves at most so many
//! bytes, `i` is interrupted by a signal before it moves one, and `f` fails.
ghost use Rattle.std.specs.Prelude.{◌≡◌, ◌≤◌, OnOk, IfOk, false};

use mk_lines::sink::{write_all, write_parts};
use mk_lines::source::read_all;
use mk_lines::{ByteSink, ByteSource, Fault, StdSink, StdSource};
use std::io;
use std::io::{ErrorKind, Read, Write};
use test_support::Case;
use test_support::text::joined;

/// The ends of the calls that are left.
#[derive(Clone, Copy)]
struct Ends<'a>(&'a [u8]);

impl<'a> Ends<'a> {
    /// How many bytes the next call moves, of so many. Without an end it moves none.
    fn next(&mut self, most: usize) -> io::Result<usize>
        ensures { IfOk result (λ count. count ≤ most) }
    {
        let [end, rest @ ..] = self.0 else {
            return Ok(0);
        };
        self.0 = rest;
        let kind = match *end {
            b'0'..=b'9' => return Ok(most.min((*end - b'0') as usize)),
            b'i' => ErrorKind::Interrupted,
            _ => ErrorKind::Other,
        };
        Err(io::Error::from(kind))
    }
}

/// Gives `x`s.
#[derive(Drop)]
struct ListReader<'a> {
    ends: Ends<'a>,
}

impl<'a> Read for ListReader<'a> {
    fn read(&mut self, buf: &mut [u8]) -> io::Result<usize> {
        let count = self.ends.next(buf.len())?;
        buf[..count].fill(b'x');
        Ok(count)
    }
}

/// Keeps what it takes, and counts its flushes, each of which takes an end too.
#[derive(Drop)]
struct ListWriter<'a> {
    ends: Ends<'a>,
    bytes: Vec<u8>,
    flushes: u64,
}

impl<'a> Write for ListWriter<'a> {
    fn write(&mut self, buf: &[u8]) -> io::Result<usize> {
        let count = self.ends.next(buf.len())?;
        self.bytes.extend_from_slice(&buf[..count])?;
        Ok(count)
    }

    fn flush(&mut self) -> io::Result<()> {
        self.ends.next(0)?;
        self.flushes = self.flushes.saturating_add(1);
        Ok(())
    }
}

/// Reads all of a reader: how many bytes, whether the source has failed, and how many ends are left.
pub fn read(case: &Case<'_>, ends: &[u8]) -> Result<Vec<u8>, Fault> {
    let mut reader = ListReader { ends: Ends(ends) };
    let mut source = StdSource::new(&mut reader);
    let answer = match read_all(case.heap, &mut source) {
        Ok(text) => Ok(text.len()),
        Err(fault) => Err(fault),
    };
    let failed = source.failed();
    let left = reader.ends.0.len();
    Ok(format!(in case.alloc; "{answer:?}, failed {failed}, left {left}")?.into_bytes())
}

/// Writes `hello`, and flushes it: the answer, whether the sink has failed, and what the writer has.
pub fn write(case: &Case<'_>, ends: &[u8]) -> Result<Vec<u8>, Fault> {
    let mut writer = ListWriter {
        ends: Ends(ends),
        bytes: Vec::new(case.alloc),
        flushes: 0,
    };
    let mut sink = StdSink::new(&mut writer);
    let answer = write_and_flush(&mut sink);
    let failed = sink.failed();
    let flushes = writer.flushes;
    let said = format!(in case.alloc; "{answer:?}, failed {failed}, flushes {flushes}: ")?;
    Ok(joined(case.alloc, &[said.as_bytes(), &writer.bytes])?)
}

fn write_and_flush<W: ByteSink>(sink: &mut W) -> Result<(), Fault>
    requires { W.failed sink.old ≡ false }
{
    write_all(sink, b"hello")?;
    sink.flush()
}

/// What a reader has left behind a source that has read 3 bytes of a text, and what a writer has behind a
/// sink to which the text was written in three parts. A source reads nothing ahead, and a sink flushes
/// nothing.
pub fn give_back(case: &Case<'_>, text: &[u8]) -> Result<Vec<u8>, Fault> {
    let mut source = StdSource::new(text);
    source.read(&mut [0u8; 3])?;
    let mut sink = StdSink::new(ListWriter {
        ends: Ends(b"99"),
        bytes: Vec::new(case.alloc),
        flushes: 0,
    });
    write_parts(&mut sink, &[b"all", b"", text])?;
    let writer = sink.into_inner();
    let flushes = format!(in case.alloc; "{}", writer.flushes)?;
    let parts = [
        source.into_inner(),
        b"|",
        &writer.bytes,
        b"|",
        flushes.as_bytes(),
    ];
    Ok(joined(case.alloc, &parts)?)
}
