//! The lines of a document, each with where it stands.
ghost use Rattle.std.specs.Prelude.{◌≡◌, ◌≤◌, ◌==◌, count_by, length};
ghost use Rattle.mk_lines.specs.Limits.{max_text};
ghost use Rattle.mk_class.specs.Contexts.{FitsConditionals, conditionals_after_located};
ghost use Rattle.mk_queries.specs.Listings.{whole};

use crate::listing::position::Position;
use memchr::memchr_iter;
use mk_class::Class;
use mk_tree::{Doc, Line, Lines};
use std::alloc::{Allocator, Global};
use std::marker::Model;

/// The lines of a document in order, each with where it stands. Contracts see the lines that were
/// passed and those that are ahead.
#[derive(Drop)]
pub struct NumberedLines<'a, A: Allocator = Global> {
    doc: &'a Doc<A>,
    lines: Lines<'a, A>,
    // Where the next line stands.
    next: Position,
}

impl<'a, A: Allocator> Model for NumberedLines<'a, A> {
    ghost use Rattle.std.specs.Prelude.{◌≡◌, ◌+◌, ◌≤◌, drop, length, take};
    ghost use Rattle.mk_lines.specs.Limits.{max_text};
    ghost use Rattle.mk_tree.specs.LocatedLines.{AreConditionalsFit, size_of};
    ghost use Rattle.mk_queries.specs.Listings.{Walk, position_below};

    ghost Value = { Walk };

    ghost view = { λ w. record { above = take w.next.index w.doc.now; ahead = w.lines } };

    ghost invariant = { λ w.
        (w.next ≡ position_below (take w.next.index w.doc.now))
        × (w.lines ≡ drop w.next.index w.doc.now)
        × AreConditionalsFit w.next.conditionals w.lines
        × (w.next.index + length w.lines ≤ max_text)
        × (w.next.number + size_of w.lines ≤ max_text + 1) };
}

/// A place in a document, from which a walk can go on. Contracts see it as the walk. It is small, and only
/// a walk looks for its lines.
#[derive(Drop)]
pub(crate) struct Place<'a, A: Allocator = Global> {
    doc: &'a Doc<A>,
    // Where the next line stands.
    next: Position,
}

impl<'a, A: Allocator> Model for Place<'a, A> {
    ghost use Rattle.std.specs.Prelude.{◌≡◌, ◌+◌, ◌≤◌, drop, length, take};
    ghost use Rattle.mk_lines.specs.Limits.{max_text};
    ghost use Rattle.mk_tree.specs.LocatedLines.{AreConditionalsFit, size_of};
    ghost use Rattle.mk_queries.specs.Listings.{Walk, position_below};

    ghost Value = { Walk };

    ghost view = { λ p.
        record { above = take p.next.index p.doc.now; ahead = drop p.next.index p.doc.now } };

    ghost invariant = { λ p.
        (p.next ≡ position_below (take p.next.index p.doc.now))
        × AreConditionalsFit p.next.conditionals (drop p.next.index p.doc.now)
        × (p.next.index + length (drop p.next.index p.doc.now) ≤ max_text)
        × (p.next.number + size_of (drop p.next.index p.doc.now) ≤ max_text + 1) };
}

impl<'a, A: Allocator> Place<'a, A> {
    /// The lines below, each with where it stands.
    pub(crate) fn numbered(&self) -> NumberedLines<'a, A>
        ensures { result ≡ self.now }
    {
        NumberedLines {
            doc: self.doc,
            lines: self.lines(),
            next: self.next,
        }
    }

    /// The lines below.
    pub(crate) fn lines(&self) -> Lines<'a, A>
        ensures lines { result ≡ self.now.ahead }
        ensures few { length result ≤ max_text }
    {
        self.doc.lines_from(self.next.index)
    }
}

impl<'a, A: Allocator> NumberedLines<'a, A> {
    /// The lines of a document.
    pub(crate) fn new(doc: &'a Doc<A>) -> NumberedLines<'a, A>
        ensures { result ≡ whole doc.now }
    {
        let _size = doc.size(); // its contract bounds the lines and their bytes
        NumberedLines {
            doc,
            lines: doc.iter(),
            next: Position {
                index: 0,
                number: 1,
                conditionals: 0,
            },
        }
    }

    /// The place that the walk has come to.
    pub(crate) fn place(&self) -> Place<'a, A>
        ensures { result ≡ self.now }
    {
        Place {
            doc: self.doc,
            next: self.next,
        }
    }
}

impl<'a, A: Allocator> Iterator for NumberedLines<'a, A> {
    type Item = (Position, &'a Line<A>);

    ghost use Rattle.std.specs.Prelude.{length};
    ghost use Rattle.std.specs.Iterator.{at_most};
    ghost use Rattle.mk_queries.specs.Listings.{GivesStanding};

    ghost next_gives = { GivesStanding };

    ghost remaining = { λ walk. at_most (length walk.ahead) };

    fn next(&mut self) -> Option<(Position, &'a Line<A>)> {
        let line = self.lines.next()?;
        let position = self.next;
        self.next = Position {
            index: position.index + 1,
            number: position.number + line_feeds(line.bytes()),
            conditionals: conditionals_after(position.conditionals, &line.class()),
        };
        Some((position, line))
    }
}

// How many line feeds there are in a text.
fn line_feeds(text: &[u8]) -> usize
    ensures { result ≡ count_by (λ b. b == 10) text.now }
{
    memchr_iter(b'\n', text).count()
}

// How many conditionals are open after a line of this class, before which so many are.
fn conditionals_after(before: u16, class: &Class) -> u16
    requires { FitsConditionals before class.now }
    ensures { result ≡ conditionals_after_located before class.now }
{
    match class {
        Class::If => before + 1,
        Class::Endif => before - 1,
        _ => before,
    }
}
