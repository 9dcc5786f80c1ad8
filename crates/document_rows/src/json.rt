//! Lines of JSON.
ghost use Rattle.mk_tree.specs.Documents.{IsFaithful};

use crate::documents::copied;
use mk_lines::Fault;
use mk_queries::{caveats_json, check_json, push_text_line, recipes_json, rules_json, vars_json};
use mk_tree::Doc;
use std::alloc::{AllocError, Allocator};
use test_support::Case;

/// The name of the makefiles: one that is not UTF-8, which the program does not take.
const NAME: &[u8] = b"\xff";

/// The lines of JSON that a query gives of a document.
fn asked<B: Allocator + Copy>(alloc: B, query: &[u8], doc: &Doc) -> Result<Vec<u8, B>, AllocError>
    requires { IsFaithful doc.now }
{
    match query {
        b"vars" => vars_json(alloc, NAME, doc, None),
        b"rules" => rules_json(alloc, NAME, doc, None),
        b"recipes" => recipes_json(alloc, NAME, doc, None),
        b"check" => check_json(alloc, NAME, doc),
        _ => caveats_json(alloc, NAME, doc),
    }
}

/// The lines of JSON that a query gives.
pub fn lines(case: &Case<'_>, doc: &Doc, query: &[u8]) -> Result<Vec<u8>, Fault>
    requires { IsFaithful doc.now }
{
    copied(case, asked(case.heap, query, doc))
}

/// How many lines of JSON a query gives.
pub fn count_lines(case: &Case<'_>, doc: &Doc, query: &[u8]) -> Result<Vec<u8>, Fault>
    requires { IsFaithful doc.now }
{
    let text = lines(case, doc, query)?;
    let count = text.iter().filter(|byte| **byte == b'\n').count();
    Ok(count.to_string(case.alloc)?.into_bytes())
}

/// The line of JSON of a text.
pub fn text_line(case: &Case<'_>, text: &[u8]) -> Result<Vec<u8>, Fault> {
    copied(
        case,
        push_text_line(Vec::new(case.heap), case.heap, text, false),
    )
}
