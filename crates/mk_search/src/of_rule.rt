//! Commands for the line of a rule that becomes another one for the same targets.

use crate::aim::Aim;
use crate::bench::Bench;
use crate::fault::DeriveError;
use crate::of_value::listed;
use mk_edit_language::Edit;
use mk_tree::RuleRef;
use std::alloc::{AllocError, Global};

// The most edits of one line.
const MOST_EDITS: usize = 4;

/// Tries to make the line of one rule of that of another, by its prerequisites.
pub(crate) fn tries_prereqs(
    bench: &mut Bench,
    old: &RuleRef<'_>,
    new: &RuleRef<'_>,
    aim: Aim<'_>,
) -> Result<bool, DeriveError> {
    let Some(target) = old.targets().next() else {
        return Ok(false);
    };
    let mut edits = Vec::new(bench.alloc());
    push_edits(bench.alloc(), &mut edits, target, Kind::Normal, old, new)?;
    push_edits(bench.alloc(), &mut edits, target, Kind::OrderOnly, old, new)?;
    if edits.is_empty() || edits.len() > MOST_EDITS {
        return Ok(false);
    }
    bench.tries_all(edits.as_slice(), aim)
}

// Which prerequisites of a rule.
#[derive(Clone, Copy)]
enum Kind {
    Normal,
    OrderOnly,
}

impl Kind {
    // The prerequisites of a rule that are of the kind.
    fn words<'a>(self, alloc: Global, rule: &RuleRef<'a>) -> Result<Vec<&'a [u8]>, AllocError> {
        match self {
            Kind::Normal => listed(alloc, rule.prereqs()),
            Kind::OrderOnly => listed(alloc, rule.order_only()),
        }
    }

    // The edit that adds a prerequisite of the kind.
    fn added(self, alloc: Global, target: &[u8], word: &[u8]) -> Result<Edit, AllocError> {
        match self {
            Kind::Normal => Edit::depend(alloc, target, word),
            Kind::OrderOnly => Edit::depend_order(alloc, target, word),
        }
    }
}

// The edits that make the prerequisites of one rule of those of another, for those of a kind.
fn push_edits(
    alloc: Global,
    edits: &mut Vec<Edit>,
    target: &[u8],
    kind: Kind,
    old: &RuleRef<'_>,
    new: &RuleRef<'_>,
) -> Result<(), AllocError> {
    let old = kind.words(alloc, old)?;
    let new = kind.words(alloc, new)?;
    let gone = difference(alloc, old.as_slice(), new.as_slice())?;
    let come = difference(alloc, new.as_slice(), old.as_slice())?;
    let added = push_exchanges(alloc, edits, target, gone.as_slice(), come.as_slice())?;
    for word in added {
        edits.push(kind.added(alloc, target, word)?)?;
    }
    Ok(())
}

// The edits that put a new prerequisite in the place of each that goes, as far as there are such; answers those
// that are left.
fn push_exchanges<'w, 'a>(
    alloc: Global,
    edits: &mut Vec<Edit>,
    target: &[u8],
    gone: &[&[u8]],
    come: &'w [&'a [u8]],
) -> Result<&'w [&'a [u8]], AllocError> {
    let mut left = come;
    for word in gone {
        match left {
            [first, below @ ..] => {
                edits.push(Edit::depend_replace(alloc, target, word, first)?)?;
                left = below;
            }
            [] => edits.push(Edit::undepend(alloc, target, word)?)?,
        }
    }
    Ok(left)
}

// The words of a list that are not in another.
fn difference<'a>(
    alloc: Global,
    words: &[&'a [u8]],
    others: &[&'a [u8]],
) -> Result<Vec<&'a [u8]>, AllocError> {
    let mut left = Vec::new(alloc);
    for word in words {
        if !others.contains(word) {
            left.push(*word)?;
        }
    }
    Ok(left)
}
