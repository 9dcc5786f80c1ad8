//! The text that a document was read from, and the lines that stand in it still.
ghost use Rattle.std.specs.Prelude.{◌≡◌, min};
ghost use Rattle.std.specs.Rc.{rc_slice_items};
ghost use Rattle.mk_tree.specs.Origins.{origin_text};

use std::alloc::Allocator;
use std::rc::RcSlice;

/// The text that a document was read from. Some of the document's first lines are the front of this
/// text, and some of its last lines the end: the lines before and after all those that were put in,
/// taken out or exchanged. So these can be printed at once, and not line by line.
#[derive(Drop)]
pub(crate) struct Origin<A: Allocator> {
    /// `None` if the document was read from no text.
    pub(crate) text: Option<RcSlice<u8, A>>,
    /// How many of the first lines are the front of the text.
    pub(crate) first: usize,
    /// How many of the last lines are the end of the text.
    pub(crate) last: usize,
}

impl<A: Allocator> Origin<A> {
    /// The origin of a document that was read from a text just now, and has this many lines.
    pub(crate) fn new(text: RcSlice<u8, A>, lines: usize) -> Origin<A>
        ensures text { origin_text result ≡ rc_slice_items text }
        ensures first { result.first ≡ lines }
        ensures last { result.last ≡ lines }
    {
        Origin {
            text: Some(text),
            first: lines,
            last: lines,
        }
    }

    /// The origin of a document that was read from no text.
    pub(crate) fn none() -> Origin<A>
        ensures first { result.first ≡ 0 }
        ensures last { result.last ≡ 0 }
    {
        Origin {
            text: None,
            first: 0,
            last: 0,
        }
    }

    /// The text; it is empty if the document was read from none.
    pub(crate) fn text(&self) -> &[u8]
        ensures { result.now ≡ origin_text self.now }
    {
        match &self.text {
            Some(text) => text.as_slice(),
            None => &[],
        }
    }

    /// Notes that lines change which have this many lines before them, and this many after them.
    pub(crate) fn keep(&mut self, before: usize, after: usize)
        ensures text { origin_text self.new ≡ origin_text self.old }
        ensures first { self.new.first ≡ min self.old.first before }
        ensures last { self.new.last ≡ min self.old.last after }
    {
        self.first = self.first.min(before);
        self.last = self.last.min(after);
    }
}
