//! Diffs.

use crate::documents::copied;
use mk_diff::{diff, painted};
use mk_lines::Fault;
use test_support::Case;

/// The diff from one text to another, of a file of a name.
pub fn between(case: &Case<'_>, name: &[u8], old: &[u8], new: &[u8]) -> Result<Vec<u8>, Fault> {
    copied(case, diff(case.heap, old, new, name))
}

/// A diff in colours.
pub fn in_colours(case: &Case<'_>, plain: &[u8]) -> Result<Vec<u8>, Fault> {
    copied(case, painted(case.heap, plain))
}
