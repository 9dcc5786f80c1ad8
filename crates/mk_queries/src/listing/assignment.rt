//! The assignments of a document.
ghost use Rattle.std.specs.Prelude.{◌≡◌, option_map};
ghost use Rattle.mk_tree.specs.Views.{assignment_of};
ghost use Rattle.mk_queries.specs.Finding.{FindsFirst};
ghost use Rattle.mk_queries.specs.Listings.{assignments_ahead, is_of, whole};

use crate::listing::position::Position;
use crate::listing::walk::NumberedLines;
use mk_tree::{AssignmentRef, Doc};
use std::alloc::{Allocator, Global};
use std::marker::Model;

/// An assignment, with where its line stands.
#[derive(Debug, Drop)]
pub struct AssignmentLine<'a> {
    /// Where the line stands.
    pub position: Position,
    /// The number of the assignment among those that are listed, from 1. If those of one name are
    /// listed, it is the number that the `nth` of an edit takes.
    pub nth: u32,
    /// The parts of the assignment.
    pub assignment: AssignmentRef<'a>,
}

/// The assignments of a document that are not yet given, from its front to its end: all of them, or
/// those of one name. Contracts see their list.
///
/// To go through all of them takes time linear in the size of the document, and no memory.
#[derive(Drop)]
pub struct Assignments<'a, A: Allocator = Global> {
    walk: NumberedLines<'a, A>,
    name: Option<&'a [u8]>,
    // How many were given.
    given: u32,
}

impl<'a, A: Allocator> Model for Assignments<'a, A> {
    ghost use Rattle.std.specs.Prelude.{◌+◌, ◌≤◌, List, length, option_map};
    ghost use Rattle.mk_lines.specs.Limits.{max_text};
    ghost use Rattle.mk_queries.specs.Listings.{assignments_ahead};
    ghost use Rattle.mk_queries.specs.declared.listing.assignment.AssignmentLine.{AssignmentLine};

    ghost Value = { List AssignmentLine };

    ghost view = { λ a.
        assignments_ahead (option_map (λ name. name.now) a.name) (a.given + 1) a.walk };

    ghost invariant = { λ a. a.given + length a.walk.ahead ≤ max_text };
}

impl<'a, A: Allocator> Assignments<'a, A> {
    // The assignments of a document, of one name if one is asked for.
    pub(crate) fn new(doc: &'a Doc<A>, name: Option<&'a [u8]>) -> Assignments<'a, A>
        ensures { result
            ≡ assignments_ahead (option_map (λ word. word.now) name.entry) 1 (whole doc.now) }
    {
        let _size = doc.len(); // its contract bounds the number of lines
        Assignments {
            walk: NumberedLines::new(doc),
            name,
            given: 0,
        }
    }
}

impl<'a, A: Allocator> Iterator for Assignments<'a, A> {
    type Item = AssignmentLine<'a>;

    ghost use Rattle.std.specs.Iterator.{YieldsFirst, item_count};

    ghost next_gives = { YieldsFirst (λ left. left) };

    ghost remaining = { item_count (λ left. left) };

    fn next(&mut self) -> Option<AssignmentLine<'a>> {
        let (position, assignment) = next_assignment(&mut self.walk, self.name)?;
        self.given += 1;
        Some(AssignmentLine {
            position,
            nth: self.given,
            assignment,
        })
    }
}

// The next assignment of a walk, of one name if one is asked for.
fn next_assignment<'a, A: Allocator>(
    walk: &mut NumberedLines<'a, A>,
    name: Option<&[u8]>,
) -> Option<(Position, AssignmentRef<'a>)>
    ensures { FindsFirst assignment_of (is_of (option_map (λ word. word.now) name.entry)) walk.old result
        walk.new }
{
    'lines: while let Some((position, line)) = walk.next() {
        if let Some(assignment) = line.assignment() {
            if is_of(&assignment, name) {
                return Some((position, assignment));
            }
        }
    }
    None
}

/// Whether an assignment is one of a name, if one is asked for.
pub fn is_of(assignment: &AssignmentRef<'_>, name: Option<&[u8]>) -> bool
    ensures { result ≡ is_of (option_map (λ word. word.now) name.entry) assignment.now }
{
    match name {
        Some(name) => assignment.name() == name,
        None => true,
    }
}
