//! How far two texts agree, and where they agree again. Both are lists of lines.
ghost use Rattle.std.specs.Prelude.{◌≡◌, ◌<◌, ◌≤◌, IfOk, IfSome, IsOkUnless, MatchOption, drop, length, take};
ghost use Rattle.mk_diff.specs.Places.{AreListed};
ghost use Rattle.mk_diff.specs.Stretches.{AreApart, DifferAt, IsMatch, IsNotIn, line_at, shown};

use crate::lines::is_same;
use crate::places::{is_listed_from, places_of};
use mk_lines::Fault;
use std::alloc::Allocator;
use std::collections::BTreeMap;

/// How many lines at the front of two texts are the same.
pub(crate) fn common_front(old: &[&[u8]], new: &[&[u8]]) -> usize
    ensures same { take result (shown old.now) ≡ take result (shown new.now) }
    ensures old_within { result ≤ length old.now }
    ensures new_within { result ≤ length new.now }
    ensures stops { DifferAt result (shown old.now) (shown new.now) }
{
    let mut same = 0;
    while same < old.len() && same < new.len() && is_same(old[same], new[same]) {
        same += 1;
    }
    same
}

/// A match of two lines: how many lines of the old text stand before it, and how many of the new
/// text.
#[derive(Clone, Copy)]
pub(crate) struct Match {
    pub removed: usize,
    pub added: usize,
}

// The greatest number of lines before a near match, both texts together, is one less.
const NEAR: usize = 64;

// The match with the fewest lines before it, if they are few.
fn near_match(old: &[&[u8]], new: &[&[u8]]) -> Option<Match>
    requires { DifferAt 0 (shown old.now) (shown new.now) }
    ensures { IfSome result (λ found. IsMatch found (shown old.now) (shown new.now)) }
{
    for sum in 1..NEAR {
        for removed in 0..sum + 1 {
            let added = sum - removed;
            if removed < old.len() && added < new.len() && is_same(old[removed], new[added]) {
                return Some(Match { removed, added });
            }
        }
    }
    None
}

// The first place of a line in a text.
fn place_of(line: &[u8], text: &[&[u8]]) -> Option<usize>
    ensures { MatchOption result (IsNotIn line.now (shown text.now)) (λ at.
        (at < length text.now) × (line_at at (shown text.now) ≡ line.now)) }
{
    for (at, other) in text.iter().enumerate() {
        if is_same(line, other) {
            return Some(at);
        }
    }
    None
}

// The first line of the old text that stands in the new one at an index or below it, with its first
// place there, counted from that index.
fn far_match<A: Allocator>(
    old: &[&[u8]],
    new: &[&[u8]],
    at: usize,
    places: &BTreeMap<&[u8], usize, A>,
) -> Option<Match>
    requires within { at ≤ length new.now }
    requires differ { DifferAt 0 (shown old.now) (drop at (shown new.now)) }
    requires listed { AreListed (shown new.now) (length new.now) places.now }
    ensures { MatchOption result (AreApart (shown old.now) (drop at (shown new.now))) (λ found.
        IsMatch found (shown old.now) (drop at (shown new.now))) }
{
    for (removed, line) in old.iter().enumerate() {
        if !is_listed_from(places, line, at) {
            continue;
        }
        if let Some(added) = place_of(line, &new[at..]) {
            return Some(Match { removed, added });
        }
    }
    None
}

/// Where two texts agree again, if their first lines differ: no line before the match in one of them
/// stands before it in the other. `None` if they have no line in common. The new text is the one
/// from an index on. The places are those of its lines; they are listed where they are needed.
///
/// # Errors
///
/// [`Fault::NoMemory`] if the places could not be listed.
pub(crate) fn next_match<'a, A: Allocator + Copy>(
    alloc: A,
    old: &[&[u8]],
    new: &[&'a [u8]],
    at: usize,
    places: &mut Option<BTreeMap<&'a [u8], usize, A>>,
) -> Result<Option<Match>, Fault>
    requires within { at ≤ length new.now }
    requires differ { DifferAt 0 (shown old.now) (drop at (shown new.now)) }
    requires listed { IfSome places.old (AreListed (shown new.now) (length new.now)) }
    ensures listed { IfSome places.new (AreListed (shown new.now) (length new.now)) }
    ensures found { IfOk result (λ found. MatchOption found
        (AreApart (shown old.now) (drop at (shown new.now))) (λ found.
        IsMatch found (shown old.now) (drop at (shown new.now)))) }
    ensures fault { IsOkUnless result Fault.NoMemory }
{
    if let Some(found) = near_match(old, &new[at..]) {
        return Ok(Some(found));
    }
    let listed = match places.take() {
        Some(listed) => listed,
        None => places_of(alloc, new)?,
    };
    let found = far_match(old, new, at, &listed);
    *places = Some(listed);
    Ok(found)
}
