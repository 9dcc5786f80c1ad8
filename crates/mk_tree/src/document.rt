//! The document: the list of its lines.
ghost use Rattle.std.specs.Prelude.{◌≡◌, ◌+◌, ◌<◌, ◌≤◌, ◌↔◌, [], ◌∷◌, ◌++◌, IsTrue, IfSome, false, length, slice_get, take, drop};
ghost use Rattle.mk_lines.specs.Limits.{max_text};
ghost use Rattle.mk_lines.specs.PhysicalLines.{without_line_end};
ghost use Rattle.mk_class.specs.Contexts.{start};
ghost use Rattle.mk_tree.specs.LocatedLines.{AreConditionalsFit, bytes_of_line, is_conditional_located, last_line, size_of, size_of_line, with_last_bytes};
ghost use Rattle.mk_tree.specs.Admissions.{AreAdmitted};
ghost use Rattle.mk_tree.specs.Documents.{IsFaithful};
ghost use Rattle.mk_tree.specs.Trees.{line_view};

use crate::draft::Draft;
use crate::iter::Lines;
use crate::line_bytes::LineBytes;
use crate::origin::Origin;
use crate::tree::{Line, Tree};
use std::alloc::{Allocator, Global};
use std::marker::Model;
use std::mem;

/// A makefile as the list of its lines. Contracts see the list, each line with its bytes and its
/// class, and nothing else.
///
/// A document has at most 16,777,216 bytes, no line is empty, and at most 256 conditionals are open
/// at once. It is *faithful* if its lines are those of their own text: each is one logical line of
/// it, with its class in the context of the lines before it. [`Doc::parse`] makes a faithful
/// document. The calls that change lines do not test that the document stays faithful.
#[derive(Drop)]
pub struct Doc<A: Allocator = Global> {
    pub(crate) tree: Tree<A>,
    // How many bytes the lines have together.
    pub(crate) size: usize,
    // The text that it was read from.
    pub(crate) origin: Origin<A>,
}

impl<A: Allocator> Model for Doc<A> {
    ghost use Rattle.std.specs.Prelude.{◌≡◌, List};
    ghost use Rattle.mk_tree.specs.LocatedLines.{LocatedLine, AreConditionalsFit, size_of};
    ghost use Rattle.mk_tree.specs.Origins.{AreUntouched, origin_text};

    ghost Value = { List LocatedLine };

    ghost view = { λ d. d.tree.0 };

    ghost invariant = { λ d. AreConditionalsFit 0 d.tree.0
        × (d.size ≡ size_of d.tree.0)
        × AreUntouched (origin_text d.origin) d.origin.first d.origin.last d.tree.0 };
}

impl<A: Allocator> Doc<A> {
    /// How many lines there are. Takes no memory.
    pub fn len(&self) -> usize
        ensures number { result ≡ length self.now }
        ensures few { length self.now ≤ max_text }
    {
        self.tree.len()
    }

    /// Whether there is no line. Takes no memory.
    pub fn is_empty(&self) -> bool
        ensures { IsTrue result ↔ (self.now ≡ []) }
    {
        self.tree.len() == 0
    }

    /// How many bytes the lines have together. Takes no memory.
    pub fn size(&self) -> usize
        ensures number { result ≡ size_of self.now }
        ensures few { size_of self.now ≤ max_text }
        ensures some_bytes { length self.now ≤ size_of self.now }
    {
        let lines = self.tree.len();
        prove!(lines <= self.size);
        self.size
    }

    /// The line at an index, from 0. Takes no memory.
    pub fn line(&self, at: usize) -> &Line<A>
        requires { at < length self.now }
        ensures { Some (line_view result.now) ≡ slice_get self.now at }
    {
        self.tree.line(at)
    }

    /// The lines in order. It copies nothing and takes no memory; a walk over all of them takes
    /// time linear in their number.
    ///
    /// No more than 256 conditionals are open at once, and each `endif` ends an open one. Each line
    /// of a faithful document is one that [`Context::step`](mk_class::Context::step) asks for where
    /// the line stands.
    pub fn iter(&self) -> Lines<'_, A>
        ensures lines { result ≡ self.now }
        ensures conditionals { AreConditionalsFit 0 self.now }
        ensures admitted { IsFaithful self.now → AreAdmitted start self.now }
    {
        Lines::new(&self.tree)
    }

    /// The lines from the one at an index on, in order. Indices count from 0; at the index of the
    /// end there is no line left. It goes one way down the tree to the first of them, copies nothing
    /// and takes no memory.
    pub fn lines_from(&self, at: usize) -> Lines<'_, A>
        requires { at ≤ length self.now }
        ensures { result ≡ drop at self.now }
    {
        Lines::from_index(&self.tree, at)
    }

    /// Takes out all lines as a draft, in which they can be changed one by one: for a change that
    /// moves lines of conditionals. [`Draft::into_doc`] makes a document of them again. Takes no
    /// memory, and walks over none of them.
    pub fn take_draft(&mut self) -> Draft<A>
        ensures lines { result ≡ self.old }
        ensures conditionals { AreConditionalsFit 0 self.old }
        ensures empty { self.new ≡ [] }
    {
        Draft {
            tree: mem::replace(&mut self.tree, Tree::new()),
            size: mem::replace(&mut self.size, 0),
            origin: mem::replace(&mut self.origin, Origin::none()),
        }
    }

    /// Puts a line before the line at an index from 0, or at the end of the document. Takes no
    /// memory and is never refused.
    ///
    /// It asks that the line belongs to no conditional, and that the document has at most
    /// 16,777,216 bytes with it.
    pub fn insert(&mut self, at: usize, line: Line<A>)
        requires in_range { at ≤ length self.old }
        requires plain { is_conditional_located (line_view line).class ≡ false }
        requires fits { size_of self.old + length (line_view line).bytes ≤ max_text }
        ensures lines { self.new ≡ take at self.old ++ line_view line ∷ drop at self.old }
    {
        let mut draft = self.take_draft();
        draft.insert(at, line);
        *self = draft.into_doc();
    }

    /// Takes out the line at an index, from 0. Takes no memory.
    ///
    /// It asks that the line belongs to no conditional.
    pub fn remove(&mut self, at: usize) -> Line<A>
        requires in_range { at < length self.old }
        requires plain { IfSome (slice_get self.old at) (λ line.
            is_conditional_located line.class ≡ false) }
        ensures line { Some (line_view result) ≡ slice_get self.old at }
        ensures lines { self.new ≡ take at self.old ++ drop (at + 1) self.old }
    {
        let mut draft = self.take_draft();
        let line = draft.remove(at);
        *self = draft.into_doc();
        line
    }

    /// Puts a line in the place of another, which it hands out. Indices count from 0. Takes no
    /// memory.
    ///
    /// It asks that neither line belongs to a conditional, and that the document then has at most
    /// 16,777,216 bytes.
    pub fn replace(&mut self, at: usize, line: Line<A>) -> Line<A>
        requires in_range { at < length self.old }
        requires old_plain { IfSome (slice_get self.old at) (λ old.
            is_conditional_located old.class ≡ false) }
        requires plain { is_conditional_located (line_view line).class ≡ false }
        requires fits { size_of (take at self.old ++ line_view line ∷ drop (at + 1) self.old)
            ≤ max_text }
        ensures line { Some (line_view result) ≡ slice_get self.old at }
        ensures lines { self.new ≡ take at self.old ++ line_view line ∷ drop (at + 1) self.old }
    {
        let mut draft = self.take_draft();
        let old = draft.replace(at, line);
        *self = draft.into_doc();
        old
    }

    /// Puts other bytes in the place of the last line's bytes, and hands these out; the class
    /// stays. Takes no memory.
    ///
    /// It serves to put a line end after the last line, or to take it away. It asks that there is a
    /// line, that the new bytes are not empty and equal the old ones except for the line end, and
    /// that the document then has at most 16,777,216 bytes.
    pub fn swap_end(&mut self, bytes: LineBytes<A>) -> LineBytes<A>
        requires some_lines { 0 < length self.old }
        requires some_bytes { 0 < length bytes }
        requires same_text { without_line_end bytes
            ≡ without_line_end (bytes_of_line (last_line self.old)) }
        requires fits { size_of (with_last_bytes bytes self.old) ≤ max_text }
        ensures lines { self.new ≡ with_last_bytes bytes self.old }
        ensures old { result ≡ bytes_of_line (last_line self.old) }
        ensures some_bytes_back { 0 < length result }
    {
        let mut draft = self.take_draft();
        let old = draft.swap_end(bytes);
        *self = draft.into_doc();
        old
    }
}
