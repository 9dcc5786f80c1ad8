//! The memory that edits take. What a change keeps for its undo is a part of it, and so is what the
//! document keeps of its new lines.

use crate::sessions::{Start, first_growths, growths_of, said};
use mk_lines::Fault;
use mk_session::{Expected, Session};
use mk_tree::Doc;
use test_support::text::number;
use test_support::{Case, Heap};

/// The bytes that an edit of short lines takes at most: so many by itself, and so many for each line that
/// it changes.
///
/// By itself it has to hold two rings with a patch in one of them, and the two rings of this patch. A line
/// that it changes is a step in one ring, and has room for a step in the other. A new line has its bytes
/// with the count of their owners, and a node in the document. A rename notes each line before that, in a
/// list whose room doubles. Each of these has less than 100 bytes, and the list takes no more than four
/// times what it holds.
const MOST_BYTES: u64 = 1_024;

/// The most bytes that an index of so many lines takes for an edit: a mark of a byte for each block of 16
/// lines, with one more block, and for each group of 128 blocks, with one more group. What it notes of the
/// few blocks that are marked has its room in what an edit takes by itself.
fn most_bytes_of_marks(lines: u64) -> u64 {
    let blocks = (lines / 16).saturating_add(1);
    blocks.saturating_add(blocks / 128).saturating_add(1)
}

/// Whether bytes are no more than so many edits or changed lines may take, and some others; else the bytes.
fn shown(case: &Case<'_>, bytes: u64, changed: u64, others: u64) -> Result<Vec<u8>, Fault> {
    let most = MOST_BYTES.saturating_mul(changed.saturating_add(1));
    if bytes <= most.saturating_add(others) {
        return Ok(Vec::from_slice(case.alloc, b"little")?);
    }
    Ok(bytes.to_string(case.alloc)?.into_bytes())
}

/// Whether the first edit of a session takes memory for the lines alone that it changes, and at most so many
/// other bytes: the new bytes of its lines, or the index that is made for it, and no second copy of either.
/// An edit that is checked by reading also takes the text of the new line up to the end of its value, and the
/// value.
pub fn of_first(
    case: &Case<'_>,
    [makefile, edit]: [&[u8]; 2],
    start: Start,
    lines: u64,
    others: u64,
) -> Result<Vec<u8>, Fault> {
    let growths = first_growths(case.heap, makefile, edit, start)?;
    shown(case, growths.bytes, lines, others)
}

/// Whether a makefile is parsed with at most so many bytes more than an edit of short lines takes: its text
/// is copied once, and no line without a fold takes memory to be read.
pub fn of_parse(case: &Case<'_>, makefile: &[u8], bytes: &[u8]) -> Result<Vec<u8>, Fault> {
    let _doc = Doc::open(case.heap, makefile)?;
    shown(case, case.heap.passed().bytes, 1, number(bytes))
}

/// Whether the first edit of a session takes fewer growths after one start than after another: behind
/// `begin`, which takes the room for the first patch of a group, and where no edits are expected, for which
/// the first one makes an index.
pub fn is_less(
    case: &Case<'_>,
    [makefile, edit]: [&[u8]; 2],
    less: Start,
    more: Start,
) -> Result<Vec<u8>, Fault> {
    let less = first_growths(case.heap, makefile, edit, less)?.count;
    let more = first_growths(case.heap, makefile, edit, more)?.count;
    said(case, less < more)
}

/// Whether an edit takes the same memory in two texts.
pub fn same(case: &Case<'_>, short: &[u8], long: &[u8], edit: &[u8]) -> Result<Vec<u8>, Fault> {
    let growths = first_growths(case.heap, short, edit, Start::Nothing)?;
    let is_same = first_growths(case.heap, long, edit, Start::Nothing)? == growths;
    said(case, is_same)
}

/// Whether an edit takes memory for the lines alone that it changes, and a byte for each 16 lines, in a
/// session that expects edits of all kinds and has made its index for another edit, which is undone.
pub fn by_index<'h>(
    case: &Case<'h>,
    session: &mut Session<&'h Heap>,
    edit: &[u8],
    lines: &[u8],
) -> Result<Vec<u8>, Fault> {
    session.expect_edits(Expected {
        renames: true,
        lines: false,
        others: true,
    });
    growths_of(case.heap, session, b"set A 2")?;
    growths_of(case.heap, session, b"undo")?;
    let bytes = growths_of(case.heap, session, edit)?.bytes;
    let marks = most_bytes_of_marks(session.doc().len() as u64);
    shown(case, bytes, number(lines), marks)
}

/// Whether a group takes memory for each of so many edits.
pub fn by_edits<'h>(
    case: &Case<'h>,
    session: &mut Session<&'h Heap>,
    edit: &[u8],
    edits: &[u8],
) -> Result<Vec<u8>, Fault> {
    let edits = number(edits);
    let mut bytes = growths_of(case.heap, session, b"begin")?.bytes;
    for _ in 0..edits {
        bytes = bytes.saturating_add(growths_of(case.heap, session, edit)?.bytes);
    }
    shown(case, bytes, edits, 0)
}
