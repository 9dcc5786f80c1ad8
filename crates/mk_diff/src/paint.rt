//! A diff in colours.
ghost use Rattle.std.specs.Prelude.{◌≡◌, ◌++◌, IfOk, IsOkUnless, drop, take};
ghost use Rattle.std.specs.List.{flat_map};
ghost use Rattle.std.specs.Option.{option_copied};
ghost use Rattle.mk_lines.specs.PhysicalLines.{line_end_bytes, physical_lines};
ghost use Rattle.mk_diff.specs.PaintedDiffs.{bold_line, color_of, painted_by, painted_diff, painted_line, shown_diff};

use crate::lines::first_length;
use crate::text::put;
use mk_lines::ends::{line_end, without_line_end};
use mk_lines::{End, Fault};
use std::alloc::Allocator;

// The sequences of a terminal: for the names, for lines that are added and removed, for the numbers
// of a hunk.
const BOLD: &[u8] = b"\x1b[1m";

const GREEN: &[u8] = b"\x1b[32m";

const RED: &[u8] = b"\x1b[31m";

const CYAN: &[u8] = b"\x1b[36m";
// What ends a colour.
const PLAIN: &[u8] = b"\x1b[0m";

// The bytes of a line end.
fn end_bytes<'a>(end: End) -> &'a [u8]
    ensures { result.now ≡ line_end_bytes end }
{
    match end {
        End::None => b"",
        End::Lf => b"\n",
        End::CrLf => b"\r\n",
    }
}

// Puts a line in a colour behind a text.
fn put_in_color<A: Allocator>(text: &mut Vec<u8, A>, color: &[u8], line: &[u8]) -> Result<(), Fault>
    ensures bytes { IfOk result (λ _. text.new.items ≡ text.old.items ++ painted_by color.now line.now) }
    ensures fault { IsOkUnless result Fault.NoMemory }
{
    put(text, color)?;
    put(text, without_line_end(line))?;
    put(text, PLAIN)?;
    put(text, end_bytes(line_end(line)))
}

// The colour of a line below the names.
fn color_of<'a>(line: &[u8]) -> Option<&'a [u8]>
    ensures { option_copied result ≡ color_of line.now }
{
    match line {
        [b'+', ..] => Some(GREEN),
        [b'-', ..] => Some(RED),
        [b'@', ..] => Some(CYAN),
        _ => None,
    }
}

// Puts a line below the names behind a text.
fn put_line<A: Allocator>(text: &mut Vec<u8, A>, line: &[u8]) -> Result<(), Fault>
    ensures bytes { IfOk result (λ _. text.new.items ≡ text.old.items ++ painted_line line.now) }
    ensures fault { IsOkUnless result Fault.NoMemory }
{
    match color_of(line) {
        Some(color) => put_in_color(text, color, line),
        None => put(text, line),
    }
}

// Puts the first line of some lines behind a text, if there is one, and answers the other lines.
fn put_name<'a, A: Allocator>(text: &mut Vec<u8, A>, lines: &'a [u8]) -> Result<&'a [u8], Fault>
    ensures bytes { IfOk result (λ _. text.new.items
        ≡ text.old.items ++ flat_map bold_line (take 1 (physical_lines lines.now))) }
    ensures rest { IfOk result (λ rest. physical_lines rest.now ≡ drop 1 (physical_lines lines.now)) }
    ensures fault { IsOkUnless result Fault.NoMemory }
{
    if lines.is_empty() {
        return Ok(lines);
    }
    let (line, rest) = lines.split_at(first_length(lines));
    put_in_color(text, BOLD, line)?;
    Ok(rest)
}

// Puts the lines below the names behind a text.
fn put_hunks<A: Allocator>(text: &mut Vec<u8, A>, lines: &[u8]) -> Result<(), Fault>
    ensures bytes { IfOk result (λ _. text.new.items
        ≡ text.old.items ++ flat_map painted_line (physical_lines lines.now)) }
    ensures fault { IsOkUnless result Fault.NoMemory }
{
    let mut rest = lines;
    'lines: while !rest.is_empty() {
        let (line, after) = rest.split_at(first_length(rest));
        put_line(text, line)?;
        rest = after;
    }
    Ok(())
}

/// A diff of two texts, as [`diff`](crate::diff) makes it, in the colours of a terminal: names bold,
/// removed lines red, added lines green, the numbers of a hunk cyan. The sequences are those of
/// ECMA-48, "Select Graphic Rendition". No byte of the diff goes, and a line end stands in no colour.
///
/// # Errors
///
/// [`Fault::NoMemory`] if the text could not grow.
pub fn painted<A: Allocator>(alloc: A, diff: &[u8]) -> Result<Vec<u8, A>, Fault>
    ensures text { IfOk result (λ text. text.items ≡ painted_diff diff.now) }
    ensures fault { IsOkUnless result Fault.NoMemory }
{
    let mut text = Vec::new(alloc);
    let below_old = put_name(&mut text, diff)?;
    let below_new = put_name(&mut text, below_old)?;
    put_hunks(&mut text, below_new)?;
    Ok(text)
}

/// A diff as it is shown: in the colours of a terminal, as [`painted`] makes it, or as it is.
///
/// # Errors
///
/// [`Fault::NoMemory`] if a growth was refused.
pub fn shown<A: Allocator>(alloc: A, text: Vec<u8, A>, has_color: bool) -> Result<Vec<u8, A>, Fault>
    ensures text { IfOk result (λ shown. shown.items ≡ shown_diff has_color text.items) }
    ensures fault { IsOkUnless result Fault.NoMemory }
{
    if has_color {
        painted(alloc, &text)
    } else {
        Ok(text)
    }
}
