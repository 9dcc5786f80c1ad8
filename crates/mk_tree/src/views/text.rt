//! The text of a document, in memory.
ghost use Rattle.std.specs.Prelude.{◌≡◌, IfOk};
ghost use Rattle.mk_tree.specs.LocatedLines.{located_text};

use crate::document::Doc;
use std::alloc::{AllocError, Allocator};

/// The text of a document: what [`Doc::write_to`] writes.
///
/// # Errors
///
/// [`AllocError`] if a growth was refused.
pub fn text_of<A: Allocator, B: Allocator>(alloc: B, doc: &Doc<A>) -> Result<Vec<u8, B>, AllocError>
    ensures { IfOk result (λ text. text.items ≡ located_text doc.now) }
{
    let mut text = Vec::with_capacity(alloc, doc.size())?;
    'lines: for line in doc.iter() {
        text.extend_from_slice(line.bytes())?;
    }
    Ok(text)
}
