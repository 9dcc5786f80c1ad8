//! The context of a document's lines.
ghost use Rattle.std.specs.Prelude.{◌≡◌, ◌≤◌, drop, length, take};
ghost use Rattle.mk_class.specs.Contexts.{max_conditionals, start};
ghost use Rattle.mk_class.specs.ClassedLines.{classed_lines, context_after_lines};
ghost use Rattle.mk_tree.specs.LocatedLines.{AreConditionalsFit, context_after_located_lines, located_text};
ghost use Rattle.mk_tree.specs.Documents.{IsFaithful};
ghost use Rattle.mk_tree.specs.Admissions.{AreAdmitted};

use crate::document::Doc;
use crate::iter::Lines;
use crate::tree::Tree;
use mk_class::Context;
use std::alloc::Allocator;

impl<A: Allocator> Doc<A> {
    /// The context of the line at an index from 0, or at the end of the document: what the lines
    /// before the index leave. Takes no memory. It walks over these lines. From the answer,
    /// [`Context::step`](mk_class::Context::step) may step over the lines from the index on.
    ///
    /// It asks for a faithful document.
    pub fn context(&self, at: usize) -> Context
        requires in_range { at ≤ length self.now }
        requires faithful { IsFaithful self.now }
        ensures context { result
            ≡ context_after_lines start (take at (classed_lines (located_text self.now))) }
        ensures located { result ≡ context_after_located_lines start (take at self.now) }
        ensures few { result.conditionals ≤ max_conditionals }
        ensures admitted { AreAdmitted result (drop at self.now) }
    {
        context_before(&self.tree, at)
    }

    /// The context after all lines. Takes no memory. It walks over all lines.
    ///
    /// It asks for a faithful document.
    pub fn end_context(&self) -> Context
        requires { IsFaithful self.now }
        ensures context { result
            ≡ context_after_lines start (classed_lines (located_text self.now)) }
        ensures located { result ≡ context_after_located_lines start self.now }
        ensures few { result.conditionals ≤ max_conditionals }
        ensures conditionals { AreConditionalsFit 0 self.now }
    {
        context_before(&self.tree, self.tree.len())
    }
}

// The context after the first `count` lines of a tree.
fn context_before<A: Allocator>(tree: &Tree<A>, count: usize) -> Context
    requires in_range { count ≤ length tree.now.0 }
    requires faithful { IsFaithful tree.now.0 }
    requires conditionals { AreConditionalsFit 0 tree.now.0 }
    ensures context { result ≡ context_after_located_lines start (take count tree.now.0) }
    ensures few { result.conditionals ≤ max_conditionals }
    ensures admitted { AreAdmitted result (drop count tree.now.0) }
{
    let mut context = Context::start();
    let mut lines = Lines::new(tree);
    'lines: for at in 0..count {
        let Some(line) = lines.next() else {
            unreachable!()
        };
        context = context.step(&line.class());
    }
    context
}
