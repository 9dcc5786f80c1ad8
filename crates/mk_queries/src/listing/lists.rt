//! The calls that begin a walk over a document.
ghost use Rattle.std.specs.Prelude.{◌≡◌, Some, None, option_map, slice_get};
ghost use Rattle.mk_tree.specs.Trees.{line_view};
ghost use Rattle.mk_queries.specs.Listings.{assignments_ahead, rules_ahead, whole};

use crate::listing::assignment::Assignments;
use crate::listing::branch::LinesInBranches;
use crate::listing::rule::Rules;
use crate::listing::walk::NumberedLines;
use mk_tree::{Doc, Line};
use std::alloc::Allocator;

/// The line of a document at an index, from 0; none if there are not so many lines. It is that of
/// [`Doc::get`].
pub fn line_at<A: Allocator>(doc: &Doc<A>, index: usize) -> Option<&Line<A>>
    ensures { option_map (λ line. line_view line.now) result ≡ slice_get doc.now index }
{
    if index < doc.len() {
        Some(doc.line(index))
    } else {
        None
    }
}

/// The lines of a document in order, each with where it stands.
pub fn numbered<A: Allocator>(doc: &Doc<A>) -> NumberedLines<'_, A>
    ensures { result ≡ whole doc.now }
{
    NumberedLines::new(doc)
}

/// The lines of a document in order, each with the branches of conditionals in which it stands. The list of
/// branches takes memory from the allocator.
pub fn with_conditionals<A: Allocator, B: Allocator>(
    alloc: B,
    doc: &Doc<A>,
) -> LinesInBranches<'_, A, B>
    ensures { result ≡ whole doc.now }
{
    LinesInBranches::new(alloc, doc)
}

/// The assignments of a document in order, each with where it stands. Assignments for targets are not
/// among them.
pub fn assignments<A: Allocator>(doc: &Doc<A>) -> Assignments<'_, A>
    ensures { result ≡ assignments_ahead None 1 (whole doc.now) }
{
    Assignments::new(doc, None)
}

/// The assignments of the variable of one name in order. Each has the number that the `nth` of an edit
/// takes.
pub fn assignments_of<'a, A: Allocator>(doc: &'a Doc<A>, name: &'a [u8]) -> Assignments<'a, A>
    ensures { result ≡ assignments_ahead (Some name.now) 1 (whole doc.now) }
{
    Assignments::new(doc, Some(name))
}

/// The lines of the rules of a document in order, each with where it stands.
pub fn rule_lines<A: Allocator>(doc: &Doc<A>) -> Rules<'_, A>
    ensures { result ≡ rules_ahead None 1 (whole doc.now) }
{
    Rules::new(doc, None)
}

/// The lines of the rules for one target in order. Each has the number that the `nth` of an edit takes.
pub fn rule_lines_for<'a, A: Allocator>(doc: &'a Doc<A>, target: &'a [u8]) -> Rules<'a, A>
    ensures { result ≡ rules_ahead (Some target.now) 1 (whole doc.now) }
{
    Rules::new(doc, Some(target))
}
