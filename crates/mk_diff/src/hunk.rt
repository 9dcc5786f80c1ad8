//! The text of a hunk.
ghost use Rattle.std.specs.Prelude.{◌≡◌, ◌+◌, ◌-◌, ◌++◌, ◌≤◌, IfOk, IsOkUnless};
ghost use Rattle.mk_diff.specs.HunkTexts.{header_text, hunk_text, range_text, signed_line, signed_lines};
ghost use Rattle.mk_diff.specs.Stretches.{Leads, hunk_of, lines_text, shown};

use crate::stretch::Stretch;
use crate::text::put;
use mk_lines::ends::line_end;
use mk_lines::{End, Fault};
use std::alloc::Allocator;

// Puts a line of a hunk with its sign behind a text.
fn put_line<A: Allocator>(text: &mut Vec<u8, A>, sign: u8, line: &[u8]) -> Result<(), Fault>
    ensures bytes { IfOk result (λ _. text.new.items ≡ text.old.items ++ signed_line sign line.now) }
    ensures fault { IsOkUnless result Fault.NoMemory }
{
    text.push(sign)?;
    put(text, line)?;
    match line_end(line) {
        End::None => put(text, b"\n\\ No newline at end of file\n"),
        _ => Ok(()),
    }
}

// Puts lines of a hunk with their sign behind a text.
fn put_lines<A: Allocator>(text: &mut Vec<u8, A>, sign: u8, lines: &[&[u8]]) -> Result<(), Fault>
    ensures bytes { IfOk result (λ _. text.new.items
        ≡ text.old.items ++ signed_lines sign (shown lines.now)) }
    ensures fault { IsOkUnless result Fault.NoMemory }
{
    for line in lines {
        put_line(text, sign, line)?;
    }
    Ok(())
}

// Puts the numbers of some lines behind a text: how many lines stand above them, and how many they
// are.
fn put_range<A: Allocator>(text: &mut Vec<u8, A>, start: usize, count: usize) -> Result<(), Fault>
    requires { start + count ≤ usize.MAX }
    ensures bytes { IfOk result (λ _. text.new.items ≡ text.old.items ++ range_text start count) }
    ensures fault { IsOkUnless result Fault.NoMemory }
{
    let mut digits = itoa::Buffer::new();
    match count {
        0 => {
            put(text, digits.format(start).as_bytes())?;
            put(text, b",0")
        }
        1 => put(text, digits.format(start + 1).as_bytes()),
        _ => {
            put(text, digits.format(start + 1).as_bytes())?;
            put(text, b",")?;
            put(text, digits.format(count).as_bytes())
        }
    }
}

// Puts the first line of a hunk behind a text.
fn put_header<A: Allocator>(text: &mut Vec<u8, A>, whole: Stretch) -> Result<(), Fault>
    requires old_order { whole.old_start ≤ whole.old_end }
    requires new_order { whole.new_start ≤ whole.new_end }
    ensures bytes { IfOk result (λ _. text.new.items ≡ text.old.items ++ header_text whole.old_start
        (whole.old_end - whole.old_start) whole.new_start (whole.new_end - whole.new_start)) }
    ensures fault { IsOkUnless result Fault.NoMemory }
{
    put(text, b"@@ -")?;
    put_range(text, whole.old_start, whole.old_end - whole.old_start)?;
    put(text, b" +")?;
    put_range(text, whole.new_start, whole.new_end - whole.new_start)?;
    put(text, b" @@\n")
}

// Puts the lines of a hunk behind a text.
fn put_changes<A: Allocator>(
    text: &mut Vec<u8, A>,
    old: &[&[u8]],
    new: &[&[u8]],
    whole: Stretch,
    changed: &[Stretch],
) -> Result<(), Fault>
    requires { Leads (shown old.now) (shown new.now) 0 whole.old_start whole.new_start changed.now
        whole.old_end whole.new_end }
    ensures bytes { IfOk result (λ _. text.new.items ≡ text.old.items ++ lines_text (shown old.now)
        (shown new.now) whole.old_start changed.now whole.old_end) }
    ensures fault { IsOkUnless result Fault.NoMemory }
{
    let mut at = whole.old_start;
    for change in changed {
        put_lines(text, b' ', &old[at..change.old_start])?;
        put_lines(text, b'-', &old[change.old_start..change.old_end])?;
        put_lines(text, b'+', &new[change.new_start..change.new_end])?;
        at = change.old_end;
    }
    put_lines(text, b' ', &old[at..whole.old_end])
}

/// Puts the text of a hunk behind a text. The hunk has the lines of a stretch, in which these
/// stretches differ.
///
/// # Errors
///
/// [`Fault::NoMemory`] if the text could not grow.
pub(crate) fn put_hunk<A: Allocator>(
    text: &mut Vec<u8, A>,
    old: &[&[u8]],
    new: &[&[u8]],
    whole: Stretch,
    changed: &[Stretch],
) -> Result<(), Fault>
    requires { Leads (shown old.now) (shown new.now) 0 whole.old_start whole.new_start changed.now
        whole.old_end whole.new_end }
    ensures bytes { IfOk result (λ _. text.new.items
        ≡ text.old.items ++ hunk_text (hunk_of (shown old.now) (shown new.now) whole changed.now)) }
    ensures fault { IsOkUnless result Fault.NoMemory }
{
    put_header(text, whole)?;
    put_changes(text, old, new, whole, changed)
}
