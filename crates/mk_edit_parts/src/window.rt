//! Windows of a document: some of its lines, outside of which a walk need not look. And what is known
//! of a document before an edit is planned.
ghost use Rattle.std.specs.Prelude.{◌≡◌, [], ◌∷◌, Bool};
ghost use Rattle.mk_tree.specs.LocatedLines.{LocatedLine};
ghost use Rattle.mk_edit_parts.specs.Windows.{AreWindows, first_place, line_known};

use crate::seek::{Found, Sought};
use mk_class::Context;
use mk_tree::Doc;
use std::alloc::{Allocator, Global};

/// Some lines of a document, one below the other.
#[derive(Clone, Copy)]
pub struct Window {
    /// Where the first line stands, with the context there; the end of the document, if the window
    /// has no line and stands there.
    pub place: Found,
    /// How many lines there are.
    pub count: usize,
}

impl Window {
    /// One window that is all lines of a document. It takes no memory.
    pub fn whole<A: Allocator>(doc: &Doc<A>) -> Window
        ensures { (test : LocatedLine → Bool)
            → AreWindows test first_place doc.now (result ∷ []) }
    {
        Window {
            place: Found {
                at: 0,
                context: Context::start(),
            },
            count: doc.len(),
        }
    }
}

/// What is known of a document before an edit of it is planned.
#[derive(Drop)]
pub enum Known<A: Allocator = Global> {
    /// Nothing: a walk over all lines has to find what the edit means.
    Nothing,
    /// What a walk over all lines would find for the edit's address.
    Line(Sought),
    /// For a rename, a change of all values of a name, an exchange of whole lines, or an edit of several
    /// lines, windows of the document in the order of their lines, the last of which reaches the end. No
    /// line outside of them concerns the edit: none sets the recipe prefix in a way that is not read; for a
    /// rename, none holds the old word where a rename replaces words, and none has the new word as a
    /// target; for a change of values, none assigns the name; for whole lines, none is meant by an address
    /// in the site, and none begins as a block in it does; for several lines, none is meant by the edit's
    /// address, but recipe lines below a rule that is meant may stand outside. If such an edit has no
    /// address, each line is in a window. For any other edit they tell nothing.
    Windows(Vec<Window, A>),
}

impl<A: Allocator> Known<A> {
    /// What a walk would find for the edit's address, if that is known. It takes no memory.
    pub fn line(&self) -> Option<Sought>
        ensures { result ≡ line_known self.now }
    {
        match self {
            Known::Line(sought) => Some(*sought),
            Known::Nothing | Known::Windows(_) => None,
        }
    }
}
