//! A session as `{:?}` shows it. No contract says what is written.

use crate::session::Session;
use std::alloc::Allocator;
use std::fmt::{self, Debug, Formatter, Write};

/// Shows how many lines and bytes the document has, and what can be called: not the lines, and not what
/// is kept to be undone.
impl<A: Allocator> Debug for Session<A> {
    fn fmt<W: Write>(&self, f: &mut Formatter<W>) -> fmt::Result {
        f.debug_struct("Session")
            .field("doc", self.doc())
            .field("can_undo", &self.can_undo())
            .field("can_redo", &self.can_redo())
            .field("has_open_group", &self.has_open_group())
            .finish_non_exhaustive()
    }
}
