//! The lines of a document in order, each with its context.
ghost use Rattle.std.specs.Prelude.{◌≡◌};
ghost use Rattle.mk_class.specs.Contexts.{start};
ghost use Rattle.mk_tree.specs.Documents.{IsFaithful};

use crate::document::Doc;
use crate::iter::Lines;
use crate::tree::Line;
use mk_class::Context;
use std::alloc::{Allocator, Global};
use std::marker::Model;

/// The lines of a document from some line to the last, in order, each with its context: what the
/// lines before it leave. Contracts see these lines, and the context of the first line.
///
/// It borrows the document and takes no memory. [`Doc::context`] walks over the lines before one
/// line; this iterator is for a caller that asks for the contexts of many lines.
#[derive(Drop)]
pub struct ContextedLines<'a, A: Allocator = Global> {
    lines: Lines<'a, A>,
    context: Context,
}

impl<'a, A: Allocator> Model for ContextedLines<'a, A> {
    ghost use Rattle.mk_tree.specs.Admissions.{AreAdmitted};
    ghost use Rattle.mk_tree.specs.TreeWalks.{LinesInContext};

    ghost Value = { LinesInContext };

    ghost view = { λ walk. record { context = walk.context; lines = walk.lines } };

    ghost invariant = { λ walk. AreAdmitted walk.context walk.lines };
}

impl<A: Allocator> Doc<A> {
    /// The lines in order, each with its context: what the lines before it leave. The call copies
    /// nothing and takes no memory; a walk over all of them takes time linear in their number.
    ///
    /// It asks for a faithful document. The context of the line at an index is the one that
    /// [`Doc::context`] answers there.
    pub fn lines_with_contexts(&self) -> ContextedLines<'_, A>
        requires { IsFaithful self.now }
        ensures { result ≡ record { context = start; lines = self.now } }
    {
        ContextedLines {
            lines: self.iter(),
            context: Context::start(),
        }
    }
}

impl<'a, A: Allocator> Iterator for ContextedLines<'a, A> {
    type Item = (Context, &'a Line<A>);

    ghost use Rattle.std.specs.Prelude.{length};
    ghost use Rattle.std.specs.Iterator.{at_most};
    ghost use Rattle.mk_tree.specs.TreeWalks.{GivesLineInContext};

    ghost next_gives = { GivesLineInContext };

    ghost remaining = { λ ahead. at_most (length ahead.lines) };

    fn next(&mut self) -> Option<(Context, &'a Line<A>)> {
        let line = self.lines.next()?;
        let context = self.context;
        self.context = context.step(&line.class());
        Some((context, line))
    }
}
