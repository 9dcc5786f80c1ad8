//! The branch of a conditional in which a line stands, and the other branches.

use mk_queries::listing::{Position, numbered};
use mk_tree::{Conditional, Doc};
use std::alloc::Allocator;
use std::ops::Range;

/// Where a branch of a conditional begins.
#[derive(Clone, Copy)]
pub(crate) struct BranchStart {
    // The index of the line that opens the conditional.
    opening: usize,
    /// The line that begins the branch.
    pub line: Position,
}

impl BranchStart {
    /// Where the innermost branch begins in which the line at a position stands; none if it stands in no
    /// conditional. It takes time linear in the number of lines above.
    pub(crate) fn of<A: Allocator>(doc: &Doc<A>, at: Position) -> Option<BranchStart> {
        let depth = usize::from(at.conditionals);
        if depth == 0 {
            return None;
        }
        let mut start = None;
        for (position, line) in numbered(doc).take(at.index) {
            let open = usize::from(position.conditionals);
            match line.conditional() {
                Some(Conditional::If) if open + 1 == depth => {
                    start = Some(BranchStart {
                        opening: position.index,
                        line: position,
                    });
                }
                Some(Conditional::Else) if open == depth => {
                    start = start.map(|it: BranchStart| BranchStart {
                        line: position,
                        ..it
                    });
                }
                _ => {}
            }
        }
        start
    }
}

/// The other branches of the innermost conditional in which a line stands, as indexes of lines.
#[derive(Drop)]
pub(crate) struct OtherBranches {
    above: Range<usize>,
    below: Range<usize>,
}

impl OtherBranches {
    /// The other branches of the conditional round the line at a position. It takes time linear in the
    /// number of lines of the document.
    pub(crate) fn of<A: Allocator>(doc: &Doc<A>, at: Position) -> OtherBranches {
        OtherBranches {
            above: BranchStart::of(doc, at).map_or(0..0, |start| start.opening..start.line.index),
            below: branches_below(doc, at),
        }
    }

    /// Whether the line at an index stands in one of them.
    pub(crate) fn has(&self, index: usize) -> bool {
        self.above.contains(&index) || self.below.contains(&index)
    }
}

// The branches below that of the line at a position, up to the end of their conditional; none if it does
// not end.
fn branches_below<A: Allocator>(doc: &Doc<A>, at: Position) -> Range<usize> {
    let mut first = None;
    for (position, line) in numbered(doc) {
        if position.index <= at.index || position.conditionals != at.conditionals {
            continue;
        }
        match line.conditional() {
            Some(Conditional::Else) => first = first.or(Some(position.index)),
            Some(Conditional::Endif) => return first.unwrap_or(position.index)..position.index,
            _ => {}
        }
    }
    0..0
}
