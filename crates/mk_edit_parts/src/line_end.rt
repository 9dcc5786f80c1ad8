//! The line ends of new lines.
ghost use Rattle.std.specs.Prelude.{◌≡◌, ◌++◌, IfOk};
ghost use Rattle.mk_lines.specs.PhysicalLines.{file_line_end, line_end_bytes};
ghost use Rattle.mk_tree.specs.Documents.{IsFaithful};
ghost use Rattle.mk_tree.specs.LocatedLines.{located_text};

use mk_lines::ends::{self, End};
use mk_tree::Doc;
use std::alloc::{AllocError, Allocator};

/// The line end that new lines of a document get: that of the first line of its text, or LF if that
/// line has none. Takes no memory.
pub fn doc_line_end<A: Allocator>(doc: &Doc<A>) -> End
    requires { IsFaithful doc.now }
    ensures { result ≡ file_line_end (located_text doc.now) }
{
    if doc.is_empty() {
        End::Lf
    } else {
        ends::file_line_end(doc.line(0).bytes())
    }
}

/// The bytes of a line end.
pub fn line_end_bytes(end: End) -> &'static [u8]
    ensures { result.now ≡ line_end_bytes end }
{
    match end {
        End::None => b"",
        End::Lf => b"\n",
        End::CrLf => b"\r\n",
    }
}

/// A text with a line end after it.
///
/// # Errors
///
/// [`AllocError`] if there is no memory for it.
pub fn with_line_end<A: Allocator>(
    alloc: A,
    text: &[u8],
    end: End,
) -> Result<Vec<u8, A>, AllocError>
    ensures { IfOk result (λ bytes. bytes.items ≡ text.now ++ line_end_bytes end) }
{
    let mut bytes = Vec::with_capacity(alloc, text.len() + 2)?;
    bytes.extend_from_slice(text)?;
    bytes.extend_from_slice(line_end_bytes(end))?;
    Ok(bytes)
}
