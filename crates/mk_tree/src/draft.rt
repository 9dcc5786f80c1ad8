//! The lines of a document while they are changed.
ghost use Rattle.std.specs.Prelude.{◌≡◌, ◌+◌, ◌<◌, ◌≤◌, ◌∷◌, ◌++◌, length, slice_get, take, drop};
ghost use Rattle.mk_lines.specs.Limits.{max_text};
ghost use Rattle.mk_lines.specs.PhysicalLines.{without_line_end};
ghost use Rattle.mk_tree.specs.LocatedLines.{AreConditionalsFit, bytes_of_line, last_line, size_of, with_last_bytes};
ghost use Rattle.mk_tree.specs.Trees.{line_view};

use crate::document::Doc;
use crate::line_bytes::LineBytes;
use crate::origin::Origin;
use crate::tree::{Line, Tree};
use std::alloc::{Allocator, Global};
use std::marker::Model;
use std::mem;

/// The lines of a document while they are changed. Contracts see the list of the lines, as those of
/// a document do.
///
/// In a draft more than 256 conditionals may be open at once, and an `endif` need not end one. So
/// lines of conditionals can be changed one by one: the conditionals have to fit again only where
/// the draft is made a document ([`Draft::into_doc`]). [`Doc::take_draft`] makes a draft.
#[derive(Drop)]
pub struct Draft<A: Allocator = Global> {
    pub(crate) tree: Tree<A>,
    // How many bytes the lines have together.
    pub(crate) size: usize,
    // The text that the document was read from.
    pub(crate) origin: Origin<A>,
}

impl<A: Allocator> Model for Draft<A> {
    ghost use Rattle.std.specs.Prelude.{◌≡◌, List};
    ghost use Rattle.mk_tree.specs.LocatedLines.{LocatedLine, size_of};
    ghost use Rattle.mk_tree.specs.Origins.{AreUntouched, origin_text};

    ghost Value = { List LocatedLine };

    ghost view = { λ d. d.tree.0 };

    ghost invariant = { λ d. (d.size ≡ size_of d.tree.0)
        × AreUntouched (origin_text d.origin) d.origin.first d.origin.last d.tree.0 };
}

impl<A: Allocator> Draft<A> {
    /// How many bytes the lines have together. Takes no memory.
    pub fn size(&self) -> usize
        ensures number { result ≡ size_of self.now }
        ensures few { size_of self.now ≤ max_text }
    {
        let lines = self.tree.len();
        prove!(lines <= self.size);
        self.size
    }

    /// The document of the lines. Takes no memory, and walks over none of them.
    ///
    /// It asks that no more than 256 conditionals are open at once, and that each `endif` ends an
    /// open one.
    pub fn into_doc(self) -> Doc<A>
        requires { AreConditionalsFit 0 self }
        ensures { result ≡ self }
    {
        let Draft { tree, size, origin } = self;
        Doc { tree, size, origin }
    }

    /// Puts a line before the line at an index from 0, or at the end of the lines. Takes no memory
    /// and is never refused.
    ///
    /// It asks that the lines have at most 16,777,216 bytes with it.
    pub fn insert(&mut self, at: usize, line: Line<A>)
        requires in_range { at ≤ length self.old }
        requires fits { size_of self.old + length (line_view line).bytes ≤ max_text }
        ensures lines { self.new ≡ take at self.old ++ line_view line ∷ drop at self.old }
    {
        self.origin.keep(at, self.tree.len() - at);
        let tree = mem::replace(&mut self.tree, Tree::new());
        self.size += line.bytes().len();
        self.tree = tree.insert(at, line);
    }

    /// Takes out the line at an index, from 0. Takes no memory.
    pub fn remove(&mut self, at: usize) -> Line<A>
        requires in_range { at < length self.old }
        ensures line { Some (line_view result) ≡ slice_get self.old at }
        ensures lines { self.new ≡ take at self.old ++ drop (at + 1) self.old }
    {
        self.origin.keep(at, self.tree.len() - at - 1);
        let tree = mem::replace(&mut self.tree, Tree::new());
        let (tree, line) = tree.remove(at);
        self.tree = tree;
        self.size -= line.bytes().len();
        line
    }

    /// Puts a line in the place of another, which it hands out. Indices count from 0. Takes no
    /// memory.
    ///
    /// It asks that the lines then have at most 16,777,216 bytes.
    #[tactic(auto, using(crate::proofs::Changes::sizes))]
    pub fn replace(&mut self, at: usize, line: Line<A>) -> Line<A>
        requires in_range { at < length self.old }
        requires fits { size_of (take at self.old ++ line_view line ∷ drop (at + 1) self.old)
            ≤ max_text }
        ensures line { Some (line_view result) ≡ slice_get self.old at }
        ensures lines { self.new ≡ take at self.old ++ line_view line ∷ drop (at + 1) self.old }
    {
        self.origin.keep(at, self.tree.len() - at - 1);
        let size = self.size + line.bytes().len();
        let old = self.tree.replace(at, line);
        self.size = size - old.bytes().len();
        old
    }

    /// Puts other bytes in the place of the last line's bytes, and hands these out; the class
    /// stays. Takes no memory.
    ///
    /// It serves to put a line end after the last line, or to take it away. It asks that there is a
    /// line, that the new bytes are not empty and equal the old ones except for the line end, and
    /// that the lines then have at most 16,777,216 bytes.
    #[tactic(auto, using(crate::proofs::Ends::sizes))]
    pub fn swap_end(&mut self, bytes: LineBytes<A>) -> LineBytes<A>
        requires some_lines { 0 < length self.old }
        requires some_bytes { 0 < length bytes }
        requires same_text { without_line_end bytes
            ≡ without_line_end (bytes_of_line (last_line self.old)) }
        requires fits { size_of (with_last_bytes bytes self.old) ≤ max_text }
        ensures lines { self.new ≡ with_last_bytes bytes self.old }
        ensures old { result ≡ bytes_of_line (last_line self.old) }
        ensures some_bytes_back { 0 < length result }
    {
        self.origin.keep(self.tree.len() - 1, 0);
        let tree = mem::replace(&mut self.tree, Tree::new());
        let size = self.size + bytes.as_slice().len();
        let (tree, old) = tree.swap_end(bytes);
        self.tree = tree;
        self.size = size - old.as_slice().len();
        old
    }
}
