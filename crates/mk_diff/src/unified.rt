//! Which changes make a hunk, and the whole diff.
ghost use Rattle.std.specs.Prelude.{◌≡◌, ◌++◌, ◌+◌, ◌<◌, ◌≤◌, List, [], IfOk, IsOkUnless, drop, length, take};
ghost use Rattle.std.specs.Bool.{Decides};
ghost use Rattle.mk_lines.specs.PhysicalLines.{physical_lines};
ghost use Rattle.mk_diff.specs.Hunks.{Hunk, IsDiff};
ghost use Rattle.mk_diff.specs.HunkTexts.{diff_text, hunk_texts, names_text};
ghost use Rattle.mk_diff.specs.Stretches.{AreFar, AreGroup, IsHunkAt, IsRoomBelow, Leads, first_old_start, last_old_end, shown};

use crate::finder::differences;
use crate::hunk::put_hunk;
use crate::lines::physical_lines;
use crate::name::put_name;
use crate::stretch::Stretch;
use crate::text::put;
use mk_lines::Fault;
use std::alloc::Allocator;

// How many lines of context stand above and below a change.
const CONTEXT: usize = 3;

/// The unified diff that leads from an old text to a new one, and back. The name stands in its
/// first two lines, behind `a/` and `b/`. It is empty if the texts are the same.
///
/// Its hunks have three lines of context, or fewer where the text begins or ends. Between two
/// changes of a hunk there are at most six lines.
///
/// POSIX.1-2024 diff, "Diff -u or -U Output Format"; that a line without a line feed is followed by
/// `\ No newline at end of file` is what GNU diff, `patch` and `git apply` agree on.
///
/// # Errors
///
/// [`Fault::NoMemory`] if there was no memory for the diff, or for the lists of lines.
pub fn diff<A: Allocator + Copy>(
    alloc: A,
    old: &[u8],
    new: &[u8],
    name: &[u8],
) -> Result<Vec<u8, A>, Fault>
    ensures diff { IfOk result (λ text. (hunks : List Hunk)
        × IsDiff (physical_lines old.now) (physical_lines new.now) hunks
        × (text.items ≡ diff_text name.now hunks)) }
    ensures nothing { IfOk result (λ text. old.now ≡ new.now → text.items ≡ []) }
    ensures fault { IsOkUnless result Fault.NoMemory }
{
    let mut text = Vec::new(alloc);
    if old == new {
        return Ok(text);
    }
    let old_lines = physical_lines(alloc, old)?;
    let new_lines = physical_lines(alloc, new)?;
    let stretches = differences(alloc, &old_lines, &new_lines)?;
    if stretches.is_empty() {
        return Ok(text);
    }
    put_names(&mut text, name)?;
    put_hunks(&mut text, &old_lines, &new_lines, &stretches)?;
    Ok(text)
}

// Puts the two lines of names behind a text.
fn put_names<A: Allocator>(text: &mut Vec<u8, A>, name: &[u8]) -> Result<(), Fault>
    ensures bytes { IfOk result (λ _. text.new.items ≡ text.old.items ++ names_text name.now) }
    ensures fault { IsOkUnless result Fault.NoMemory }
{
    put(text, b"--- ")?;
    put_name(text, b"a/", name)?;
    put(text, b"\n+++ ")?;
    put_name(text, b"b/", name)?;
    put(text, b"\n")
}

// Puts the hunks of the stretches in which two texts differ behind a text.
fn put_hunks<A: Allocator>(
    text: &mut Vec<u8, A>,
    old: &[&[u8]],
    new: &[&[u8]],
    stretches: &[Stretch],
) -> Result<(), Fault>
    requires { Leads (shown old.now) (shown new.now) 0 0 0 stretches.now (length (shown old.now))
        (length (shown new.now)) }
    ensures bytes { IfOk result (λ _. (hunks : List Hunk)
        × IsDiff (shown old.now) (shown new.now) hunks × (hunks ≡ [] → stretches.now ≡ [])
        × (text.new.items ≡ text.old.items ++ hunk_texts hunks)) }
    ensures fault { IsOkUnless result Fault.NoMemory }
{
    let mut old_at = 0;
    let mut new_at = 0;
    let mut rest = stretches;
    'hunks: while !rest.is_empty() {
        let (changed, below) = rest.split_at(near_count(rest));
        let whole = with_context(old, new, old_at, new_at, changed, below);
        put_hunk(text, old, new, whole, changed)?;
        old_at = whole.old_end;
        new_at = whole.new_end;
        rest = below;
    }
    Ok(())
}

// How many of the first stretches make one hunk: the context of each meets that of the next.
fn near_count(stretches: &[Stretch]) -> usize
    requires { 0 < length stretches.now }
    ensures some { 0 < result }
    ensures within { result ≤ length stretches.now }
    ensures near { AreGroup (take result stretches.now) }
    ensures far { AreFar (last_old_end 0 (take result stretches.now)) (drop result stretches.now) }
{
    let mut count = 1;
    while count < stretches.len() && is_near(stretches[count - 1], stretches[count]) {
        count += 1;
    }
    count
}

// Whether the contexts of two stretches meet.
fn is_near(above: Stretch, below: Stretch) -> bool
    ensures { Decides result (below.old_start ≤ above.old_end + 6) }
{
    below.old_start.saturating_sub(above.old_end) <= 2 * CONTEXT
}

// The stretch of a hunk: its changes with their context. The last hunk ends at these places of both
// texts, and these stretches are below it.
fn with_context(
    old: &[&[u8]],
    new: &[&[u8]],
    old_at: usize,
    new_at: usize,
    changed: &[Stretch],
    below: &[Stretch],
) -> Stretch
    requires some { 0 < length changed.now }
    requires near { AreGroup changed.now }
    requires far { AreFar (last_old_end 0 changed.now) below.now }
    requires room { IsRoomBelow old_at changed.now }
    requires leads { Leads (shown old.now) (shown new.now) 0 old_at new_at
        (changed.now ++ below.now) (length (shown old.now)) (length (shown new.now)) }
    ensures { IsHunkAt (shown old.now) (shown new.now) old_at new_at result changed.now below.now }
{
    let first = changed[0];
    let last = changed[changed.len() - 1];
    let above = at_most_context(first.old_start - old_at);
    let under = at_most_context(first_start(below, old.len()) - last.old_end);
    Stretch {
        old_start: first.old_start - above,
        old_end: last.old_end + under,
        new_start: first.new_start - above,
        new_end: last.new_end + under,
    }
}

// Where the first stretch begins in the old text, or the end if there is none.
fn first_start(stretches: &[Stretch], end: usize) -> usize
    ensures { result ≡ first_old_start stretches.now end }
{
    match stretches {
        [] => end,
        [first, ..] => first.old_start,
    }
}

// So many lines, or those of a context if they are more.
fn at_most_context(count: usize) -> usize
    ensures within { result ≤ count }
    ensures few { result ≤ 3 }
    ensures all { result < count → result ≡ 3 }
{
    if count < CONTEXT { count } else { CONTEXT }
}
