//! The lines of a source, one after the other.
ghost use Rattle.std.specs.Prelude.{◌≡◌, false, IfErr, IfOk, OnOk};
ghost use Rattle.mk_repl.specs.InputLines.{IsLineFault, IsLineRead, LosesRest, is_read_fault};

use mk_lines::{ByteSource, Fault};
use std::alloc::Allocator;

/// The number of bytes before its line feed from which on a line is too long: 65,536. This project's
/// profile.
pub const MAX_LINE: usize = 65_536;

/// What [`read_line`] has read.
#[derive(Clone, Copy, Debug, PartialEq, Eq)]
pub enum LineRead {
    /// A line with fewer than [`MAX_LINE`] bytes before its line feed. The last line of a source may
    /// have no line feed.
    Line,
    /// A line with [`MAX_LINE`] bytes or more before its line feed.
    TooLong,
    /// Nothing: the source has no more lines.
    End,
}

/// Reads the next line of a source into `line`, with its line feed, and no byte after it. What `line`
/// had before is dropped. After [`LineRead::TooLong`] the source stands behind the whole line, and
/// `line` has the first bytes of it.
///
/// # Errors
///
/// - [`Fault::Read`] if the source answered it.
/// - [`Fault::NoMemory`] if `line` could not grow.
/// - [`Fault::TooLong`] if a line has no end after 2^64 bytes.
pub fn read_line<A: Allocator, S: ByteSource>(
    source: &mut S,
    line: &mut Vec<u8, A>,
) -> Result<LineRead, Fault>
    requires { S.failed source.old ≡ false }
    ensures read { IfOk result (λ read.
        IsLineRead (S.remaining source.old) (S.remaining source.new) line.new.items read) }
    ensures fault { IfErr result IsLineFault }
    ensures failed { S.failed source.new ≡ is_read_fault result }
{
    line.clear();
    let mut byte = [0u8; 1];
    while line.len() < MAX_LINE {
        if source.read(&mut byte)? == 0 {
            return Ok(if line.is_empty() {
                LineRead::End
            } else {
                LineRead::Line
            });
        }
        line.push(byte[0])?;
        if byte[0] == b'\n' {
            return Ok(LineRead::Line);
        }
    }
    skip_line(source)?;
    Ok(LineRead::TooLong)
}

// Reads on to the end of a line.
fn skip_line<S: ByteSource>(source: &mut S) -> Result<(), Fault>
    requires { S.failed source.old ≡ false }
    ensures lost { OnOk result (LosesRest (S.remaining source.old) (S.remaining source.new)) }
    ensures fault { IfErr result IsLineFault }
    ensures failed { S.failed source.new ≡ is_read_fault result }
{
    let mut byte = [0u8; 1];
    for _ in 0..u64::MAX {
        if source.read(&mut byte)? == 0 || byte[0] == b'\n' {
            return Ok(());
        }
    }
    Err(Fault::TooLong)
}
