//! The cells of a logical line: its text before the line end with each fold made one space, and
//! for each byte of that joined text the raw bytes of the line that it stands for.
//!
//! A *fold* is a backslash with the line end that it escapes (LF or CR LF), the blanks before the
//! backslash, and the blanks and folds after the line end; a blank is a space or a tab. It is read
//! as one space, and every other byte stands for itself. POSIX.1-2024 make, Makefile Syntax ("an
//! escaped newline"); GNU make manual, "Splitting Long Lines".
//!
//! Two marks keep a line from being read as it stands, both this project's profile:
//!
//! - A *bad fold* has a backslash directly before its whole run of bytes, as after `a\\ \` and a
//!   line end: read as text, that backslash would stand before a space and escape it.
//! - A *stray byte* is a NUL, or a CR that is no part of a line end.
ghost use Rattle.std.specs.Prelude.{◌≡◌, ◌≢◌, ◌<◌, ℕ, Some, slice_index, All, IfOk, IsOk, IsOkUnless};
ghost use Rattle.memchr.specs.Find.{IsFirstByte, is_byte3};
ghost use Rattle.mk_lines.specs.PhysicalLines.{without_line_end};
ghost use Rattle.mk_lines.specs.Cells.{cells};
ghost use Rattle.mk_lines.specs.StoredCells.{AreCellsOf, stored_cells};

mod stack;
mod stored;

use crate::ends::without_line_end;
use crate::fault::Fault;
use memchr::memchr;
use stack::stack_of_text;
use std::alloc::Allocator;
pub use stored::Cells;
use stored::first_stray_byte;

/// The cells of a logical line, without its line end.
///
/// `line` is one logical line: [`split`](crate::split::split) of it gives one span. For other bytes
/// the answer is what the definition of cells says: a line end that no backslash escapes is read as
/// LF and is a stray byte.
///
/// A line without folds takes no memory. The time is linear in the line's bytes.
///
/// # Errors
///
/// [`Fault::NoMemory`] if the line has folds and there is no memory for its joined text or for the
/// list of its folds. A line with folds of 4 GiB or more is refused so too, where an offset of a
/// fold does not fit in 32 bits.
pub fn cells<A: Allocator + Copy>(alloc: A, line: &[u8]) -> Result<Cells<A>, Fault>
    ensures cells { IfOk result (λ stored. AreCellsOf stored line.now) }
    ensures plain { All (λ b. b ≢ 10) (without_line_end line.now) → IsOk result }
    ensures fault { IsOkUnless result Fault.NoMemory }
{
    let text = without_line_end(line);
    // A line feed counts as a stray byte here: most lines have neither, and are read once.
    match first_stray_byte(text) {
        None => Ok(Cells::plain(text, false)),
        Some(first) => stray_cells(alloc, text, first),
    }
}

// The cells of a text whose first stray byte is at `first`. A line feed counts as a stray byte
// here.
//
// Few lines come here. This stays a call of its own, since inlined it would slow the other lines
// down.
#[inline(never)]
fn stray_cells<A: Allocator + Copy>(alloc: A, text: &[u8], first: usize) -> Result<Cells<A>, Fault>
    requires { IsFirstByte (is_byte3 0 10 13) text.now (Some first) }
    ensures cells { IfOk result (λ stored. stored ≡ stored_cells (cells text.now)) }
    ensures plain { All (λ b. b ≢ 10) text.now → IsOk result }
    ensures fault { IsOkUnless result Fault.NoMemory }
{
    match memchr(b'\n', &text[first..]) {
        None => Ok(Cells::plain(text, true)),
        Some(further) => folded_cells(alloc, text, first + further),
    }
}

// The cells of a text whose first line feed is at `feed`.
//
// The stack has room for as many joined bytes as the text has, and folds make them fewer. So the
// joined text is copied out of it, and the room is given back.
fn folded_cells<A: Allocator + Copy>(alloc: A, text: &[u8], feed: usize) -> Result<Cells<A>, Fault>
    requires some { All (λ b. b ≢ 10) text.now → ⊥ }
    requires before { (k : ℕ) → k < feed → slice_index text.now k ≢ 10 }
    ensures cells { IfOk result (λ stored. stored ≡ stored_cells (cells text.now)) }
    ensures fault { IsOkUnless result Fault.NoMemory }
{
    let stack = stack_of_text(alloc, text, feed)?;
    let joined = Vec::from_slice(alloc, &stack.joined[stack.first..])?;
    Ok(Cells::folded(text, joined, stack.ends, stack.bad_fold))
}
