//! The physical lines of a text.
ghost use Rattle.std.specs.Prelude.{◌≡◌, ◌<◌, ◌≤◌, ◌∷◌, IfOk, IsOkUnless, drop, length, take};
ghost use Rattle.std.specs.Bool.{Decides};
ghost use Rattle.mk_lines.specs.PhysicalLines.{physical_lines};
ghost use Rattle.mk_diff.specs.Stretches.{shown};

use memchr::memchr;
use mk_lines::Fault;
use std::alloc::Allocator;

/// The physical lines of a text, in order, each with its line end.
///
/// # Errors
///
/// [`Fault::NoMemory`] if the list could not grow.
pub(crate) fn physical_lines<A: Allocator>(alloc: A, text: &[u8]) -> Result<Vec<&[u8], A>, Fault>
    ensures lines { IfOk result (λ lines. shown lines.items ≡ physical_lines text.now) }
    ensures fault { IsOkUnless result Fault.NoMemory }
{
    let mut lines = Vec::new(alloc);
    let mut rest = text;
    'lines: while !rest.is_empty() {
        let (line, after) = rest.split_at(first_length(rest));
        lines.push(line)?;
        rest = after;
    }
    Ok(lines)
}

/// How many bytes the first physical line of a text has.
pub(crate) fn first_length(text: &[u8]) -> usize
    requires { 0 < length text.now }
    ensures lines { physical_lines text.now
        ≡ take result text.now ∷ physical_lines (drop result text.now) }
    ensures some { 0 < result }
    ensures within { result ≤ length text.now }
{
    match memchr(b'\n', text) {
        Some(feed) => feed + 1,
        None => text.len(),
    }
}

/// Whether two lines are the same.
pub(crate) fn is_same(line: &[u8], other: &[u8]) -> bool
    ensures { Decides result (line.now ≡ other.now) }
{
    line == other
}
