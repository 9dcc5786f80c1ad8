//! Where each line of a text stands last.
ghost use Rattle.std.specs.Prelude.{◌≡◌, IfOk, IsOkUnless, length};
ghost use Rattle.mk_diff.specs.Places.{AreListed, is_listed_from};
ghost use Rattle.mk_diff.specs.Stretches.{shown};

use mk_lines::Fault;
use std::alloc::Allocator;
use std::collections::BTreeMap;

/// The last place of each line of a text.
///
/// # Errors
///
/// [`Fault::NoMemory`] if the map could not grow.
pub(crate) fn places_of<'a, A: Allocator + Copy>(
    alloc: A,
    lines: &[&'a [u8]],
) -> Result<BTreeMap<&'a [u8], usize, A>, Fault>
    ensures listed { IfOk result (λ places. AreListed (shown lines.now) (length lines.now) places) }
    ensures fault { IsOkUnless result Fault.NoMemory }
{
    let mut places = BTreeMap::new(alloc);
    for (at, line) in lines.iter().enumerate() {
        places.insert(*line, at)?;
    }
    Ok(places)
}

/// Whether a line stands at an index of the text or below it.
pub(crate) fn is_listed_from<A: Allocator>(
    places: &BTreeMap<&[u8], usize, A>,
    line: &[u8],
    at: usize,
) -> bool
    ensures { result ≡ is_listed_from places.now line.now at }
{
    match places.get(line) {
        Some(last) => at <= *last,
        None => false,
    }
}
