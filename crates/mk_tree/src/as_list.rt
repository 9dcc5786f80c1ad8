//! A document as the lists of Rust are: a line by an index that may be too great, and a `for` over
//! `&doc`.
ghost use Rattle.std.specs.Prelude.{◌≡◌, option_map, slice_get};
ghost use Rattle.mk_tree.specs.Trees.{line_view};

use crate::document::Doc;
use crate::iter::Lines;
use crate::tree::Line;
use std::alloc::Allocator;

impl<A: Allocator> Doc<A> {
    /// The line at an index, from 0; none if there are not so many lines. Takes no memory.
    pub fn get(&self, index: usize) -> Option<&Line<A>>
        ensures { option_map (λ line. line_view line.now) result ≡ slice_get self.now index }
    {
        if index < self.len() {
            Some(self.line(index))
        } else {
            None
        }
    }
}

/// `for line in &doc` goes over the lines in order, as [`Doc::iter`] does.
impl<'a, A: Allocator> IntoIterator for &'a Doc<A> {
    type Item = &'a Line<A>;

    type IntoIter = Lines<'a, A>;

    ghost use Rattle.mk_class.specs.Contexts.{start};
    ghost use Rattle.mk_tree.specs.Admissions.{AreAdmitted};
    ghost use Rattle.mk_tree.specs.Documents.{IsFaithful};
    ghost use Rattle.mk_tree.specs.LocatedLines.{AreConditionalsFit};

    ghost into_iter_gives = { λ doc lines.
        (lines ≡ doc.now)
        × AreConditionalsFit 0 doc.now
        × (IsFaithful doc.now → AreAdmitted start doc.now) };

    fn into_iter(self) -> Lines<'a, A> {
        self.iter()
    }
}
