//! The lines of a script, one after the other, with their numbers.
ghost use Rattle.std.specs.Prelude.{◌≡◌, ◌+◌, ◌<◌, ◌≤◌, ◌^◌, [], ◌∷◌, ◌++◌, if◌then◌else◌, length, take, MatchOption, OnOk};
ghost use Rattle.mk_script.specs.Blocks.{block_text};
ghost use Rattle.mk_script.specs.Lines.{script_lines};
ghost use Rattle.mk_script.specs.SeenFields.{IsWrittenPlain};

use bstr::{ByteSlice, Lines};
use std::alloc::{AllocError, Allocator};

/// The lines of a script that are not read yet.
#[derive(Drop)]
pub(crate) struct LinesBelow<'a> {
    lines: Lines<'a>,
    // The number of the line above them.
    number: u64,
    ghost few: { number + length lines < 2 ^ 64 },
}

impl<'a> LinesBelow<'a> {
    /// All lines of a script.
    pub(crate) fn new(script: &'a [u8]) -> Self
        ensures lines { result.lines ≡ script_lines script.now }
        ensures number { result.number ≡ 0 }
    {
        LinesBelow {
            lines: script.lines(),
            number: 0,
        }
    }

    /// The next line, without its line end.
    pub(crate) fn next(&mut self) -> Option<&'a [u8]>
        ensures lines { MatchOption result ((self.old.lines ≡ []) × (self.new.lines ≡ []))
            (λ line. self.old.lines ≡ line.now ∷ self.new.lines) }
        ensures number { self.new.number + length self.new.lines
            ≡ self.old.number + length self.old.lines }
    {
        let line = self.lines.next()?;
        self.number += 1;
        Some(line)
    }

    /// The number of the line that was read last, from 1.
    pub(crate) fn number(&self) -> u64
        ensures { result ≡ self.now.number }
    {
        self.number
    }

    /// The lines that are left, as a script.
    pub(crate) fn as_script(&self) -> &'a [u8]
        ensures { script_lines result.now ≡ self.now.lines }
    {
        self.lines.as_bytes()
    }
}

/// The first lines of a script, so many, as a word or a number: the bytes of one line, and a line feed for
/// several, which have one.
pub(crate) fn word_of_lines(script: &[u8], count: u64) -> &[u8]
    requires { count ≤ length (script_lines script.now) }
    ensures { IsWrittenPlain (block_text (take count (script_lines script.now))) result.now }
{
    match count {
        0 => b"",
        1 => first_line(script),
        _ => b"\n",
    }
}

// The first line of a script.
fn first_line(script: &[u8]) -> &[u8]
    ensures { block_text (take 1 (script_lines script.now)) ≡ result.now }
{
    let mut lines = script.lines();
    match lines.next() {
        Some(line) => line,
        None => b"",
    }
}

/// Puts the first lines of a script after a text, so many, with LF between them.
pub(crate) fn push_lines<A: Allocator>(
    text: &mut Vec<u8, A>,
    script: &[u8],
    count: u64,
) -> Result<(), AllocError>
    ensures { OnOk result (text.new.items
        ≡ text.old.items ++ block_text (take count (script_lines script.now))) }
{
    let mut lines = script.lines();
    let mut left = count;
    let mut is_first = true;
    'lines: while left > 0 {
        let Some(line) = lines.next() else {
            return Ok(());
        };
        push_line(text, is_first, line)?;
        is_first = false;
        left -= 1;
    }
    Ok(())
}

// Puts a line after a text, behind an LF if it is not the first one.
fn push_line<A: Allocator>(
    text: &mut Vec<u8, A>,
    is_first: bool,
    line: &[u8],
) -> Result<(), AllocError>
    ensures { OnOk result (text.new.items
        ≡ text.old.items ++ (if is_first then line.now else 10 ∷ line.now)) }
{
    if !is_first {
        text.extend_from_slice(b"\n")?;
    }
    text.extend_from_slice(line)
}
