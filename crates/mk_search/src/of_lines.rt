//! Commands that exchange lines for others, or take lines out, by what the lines say.

use crate::bench::Bench;
use crate::fault::DeriveError;
use crate::search::Spot;
use crate::text::block_around;
use mk_edit_language::Edit;
use std::alloc::{AllocError, Global};

// How many lines above and below are taken with those that change, until all together are unlike others.
const AROUND: [(usize, usize); 9] = [
    (0, 0),
    (1, 0),
    (0, 1),
    (1, 1),
    (2, 0),
    (0, 2),
    (2, 2),
    (3, 3),
    (5, 5),
];

/// Tries to exchange the lines of a step, to take them out, or to put them in with lines beside them.
pub(crate) fn tries_lines(bench: &mut Bench, spot: Spot<'_>) -> Result<bool, DeriveError> {
    for around in AROUND {
        if spot.step.removed() == 0 && around.0 == 0 && around.1 == 0 {
            continue;
        }
        if bench.tries(exchange(bench.alloc(), spot, around), spot.aim())? {
            return Ok(true);
        }
        if !bench.is_unclear() {
            return Ok(false);
        }
    }
    Ok(false)
}

/// The edit that exchanges the lines of a step, together with so many lines above and below that stay.
pub(crate) fn exchange(
    alloc: Global,
    spot: Spot<'_>,
    around: (usize, usize),
) -> Result<Edit, AllocError> {
    let above = spot.above(around.0);
    let below = spot.below(around.1);
    let old = block_around(alloc, above, spot.gone(), below)?;
    if above.is_empty() && below.is_empty() && spot.come().is_empty() {
        return Edit::line_remove(alloc, old.as_slice());
    }
    let new = block_around(alloc, above, spot.come(), below)?;
    Edit::line_replace(alloc, old.as_slice(), new.as_slice())
}
