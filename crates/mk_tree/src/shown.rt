//! Documents and lines as `{:?}` shows them. No contract says what is written.

use crate::document::Doc;
use crate::tree::Line;
use std::alloc::Allocator;
use std::fmt::{self, Debug, Formatter, Write};

/// Shows how many lines and bytes there are, and none of the lines.
impl<A: Allocator> Debug for Doc<A> {
    fn fmt<W: Write>(&self, f: &mut Formatter<W>) -> fmt::Result {
        f.debug_struct("Doc")
            .field("lines", &self.len())
            .field("size", &self.size())
            .finish_non_exhaustive()
    }
}

/// Shows the class, and the bytes as Rust writes a byte string.
impl<A: Allocator> Debug for Line<A> {
    fn fmt<W: Write>(&self, f: &mut Formatter<W>) -> fmt::Result {
        f.debug_struct("Line")
            .field("class", &self.class())
            .field(
                "bytes",
                &format_args!("b\"{}\"", self.bytes().escape_ascii()),
            )
            .finish()
    }
}
