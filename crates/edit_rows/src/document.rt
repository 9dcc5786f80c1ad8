//! A document against the parse of its text.
ghost use Rattle.std.specs.Prelude.{IfOk};
ghost use Rattle.mk_tree.specs.Documents.{IsFaithful};

use mk_class::{Class, Meter};
use mk_tree::{Doc, Line};
use std::alloc::{AllocError, Allocator, Global};
use test_support::difference::{Difference, Stop, no_fault, same_number, same_text};

/// The document of a text, in a memory of its own. Its lines count in the meter.
///
/// # Errors
///
/// A difference if the text is refused.
pub fn parsed<A: Allocator + Copy>(
    alloc: Global,
    own: A,
    text: &[u8],
    meter: &mut Meter,
) -> Result<Doc<A>, Stop>
    ensures { IfOk result (λ doc. IsFaithful doc) }
{
    no_fault(
        alloc,
        "the opening of the makefile",
        Doc::parse(own, text, meter),
    )
}

/// The text of a document.
pub fn text_of<A: Allocator>(alloc: Global, doc: &Doc<A>) -> Result<Vec<u8>, AllocError> {
    let mut text = Vec::with_capacity(alloc, doc.size())?;
    for line in doc.iter() {
        text.extend_from_slice(line.bytes())?;
    }
    Ok(text)
}

/// Whether a document has this text. Takes no memory.
pub fn has_text<A: Allocator>(doc: &Doc<A>, text: &[u8]) -> bool {
    let mut rest = text;
    for line in doc.iter() {
        let Some(after) = rest.strip_prefix(line.bytes()) else {
            return false;
        };
        rest = after;
    }
    rest.is_empty()
}

/// Fails if a document is not what the parse of its own text gives, line by line.
pub fn check_lines<A: Allocator>(alloc: Global, doc: &Doc<A>) -> Result<(), Stop> {
    let text = text_of(alloc, doc)?;
    let fresh = parsed(alloc, alloc, text.as_slice(), &mut Meter::new())?;
    same_lines(alloc, &fresh, doc)
}

/// Fails if two documents have not the same lines.
fn same_lines<A: Allocator>(alloc: Global, expected: &Doc, found: &Doc<A>) -> Result<(), Stop> {
    let (size, found_size) = (expected.size() as u64, found.size() as u64);
    same_number(alloc, "the number of bytes", size, found_size)?;
    let (lines, found_lines) = (expected.len() as u64, found.len() as u64);
    same_number(alloc, "the number of lines", lines, found_lines)?;
    for (expected, found) in expected.iter().zip(found.iter()) {
        check_line(alloc, expected, found)?;
    }
    Ok(())
}

/// Fails if two lines have not the same bytes, joined text and class.
fn check_line<A: Allocator>(alloc: Global, expected: &Line, found: &Line<A>) -> Result<(), Stop> {
    same_text(
        alloc,
        "the bytes of a line",
        expected.bytes(),
        found.bytes(),
    )?;
    same_text(
        alloc,
        "the joined text of a line",
        expected.text(),
        found.text(),
    )?;
    same_class(alloc, expected.class(), found.class())
}

/// Fails if two classes are not the same.
fn same_class(alloc: Global, expected: Class, found: Class) -> Result<(), Stop> {
    if expected == found {
        return Ok(());
    }
    Err(Stop::Differs(Difference {
        what: "the class of a line",
        expected: format!(in alloc; "{expected:?}")?,
        found: format!(in alloc; "{found:?}")?,
    }))
}
