//! The stretches in which two texts differ.
ghost use Rattle.std.specs.Prelude.{IfOk, IsOkUnless, length};
ghost use Rattle.mk_diff.specs.Stretches.{Leads, shown};

use crate::matching::{common_front, next_match};
use crate::stretch::Stretch;
use mk_lines::Fault;
use std::alloc::Allocator;

/// The stretches in which two texts differ, in order. No line of a stretch is among its old lines
/// and among its new ones, and between two stretches there is a line that both texts have.
///
/// # Errors
///
/// [`Fault::NoMemory`] if the list could not grow.
pub fn differences<A: Allocator + Copy>(
    alloc: A,
    old: &[&[u8]],
    new: &[&[u8]],
) -> Result<Vec<Stretch, A>, Fault>
    ensures leads { IfOk result (λ stretches. Leads (shown old.now) (shown new.now) 0 0 0
        stretches.items (length (shown old.now)) (length (shown new.now))) }
    ensures fault { IsOkUnless result Fault.NoMemory }
{
    let mut stretches = Vec::new(alloc);
    let mut places = None;
    let mut old_at = common_front(old, new);
    let mut new_at = old_at;
    'stretches: while old_at < old.len() || new_at < new.len() {
        let found = next_match(alloc, &old[old_at..], new, new_at, &mut places)?;
        let Some(found) = found else {
            stretches.push(Stretch {
                old_start: old_at,
                old_end: old.len(),
                new_start: new_at,
                new_end: new.len(),
            })?;
            return Ok(stretches);
        };
        let old_end = old_at + found.removed;
        let new_end = new_at + found.added;
        stretches.push(Stretch {
            old_start: old_at,
            old_end,
            new_start: new_at,
            new_end,
        })?;
        let same = common_front(&old[old_end..], &new[new_end..]);
        old_at = old_end + same;
        new_at = new_end + same;
    }
    Ok(stretches)
}
