//! What an index tells, and what it leaves to a walk over all lines. That what it tells is right is proved;
//! an index that told nothing would keep its contract.
ghost use Rattle.std.specs.Prelude.{◌≡◌, IfOk, OnOk};
ghost use Rattle.mk_index.specs.Indexes.{IsFreshIndexOf};
ghost use Rattle.mk_tree.specs.Documents.{IsFaithful};

use crate::sessions::{edit_of, said};
use bstr::ByteSlice;
use mk_class::Meter;
use mk_edit::plan_with;
use mk_edit_parts::address::Address;
use mk_edit_parts::window::Known;
use mk_index::{Expected, Finder, Index, IndexedDoc, Scope};
use mk_lines::Fault;
use mk_session::lookup::{find_assignment, find_rule, get};
use mk_session::{Edit, Session};
use mk_tree::Doc;
use std::alloc::{AllocError, Global};
use test_support::text::joined;
use test_support::{Case, Heap};

/// Edits besides renames are expected.
pub const OTHERS: Expected = Expected {
    renames: false,
    lines: false,
    others: true,
};

/// Makes a call on the document of a makefile, with a name or what an index lists.
pub fn of_document(case: &Case<'_>, makefile: &[u8], text: &[u8]) -> Result<Vec<u8>, Fault> {
    let doc = Doc::open(case.alloc, makefile)?;
    match case.table {
        "lookup" => lookup(case, &doc, text),
        "told" => of_index(case, &doc, b"nt", Some(text)),
        _ => of_index(case, &doc, text, None),
    }
}

/// The value of the only assignment of a name, or the refusal of its lookup; the index of its line, and
/// that of the only rule for it.
fn lookup(case: &Case<'_>, doc: &Doc, name: &[u8]) -> Result<Vec<u8>, Fault>
    requires { IsFaithful doc.now }
{
    let assignment = find_assignment(doc, None, name, None);
    let rule = find_rule(doc, None, name, None);
    let lines = format!(in case.alloc; " {assignment:?} {rule:?}")?;
    let value = match get(doc, None, name) {
        Ok(value) => value,
        Err(refusal) => refusal.name().as_bytes(),
    };
    Ok(joined(case.alloc, &[value, lines.as_bytes()])?)
}

/// What an index tells that lists what some letters say: `n` lists names, `t` targets, `p` prerequisites, and
/// `l` what lines say.
fn of_index(
    case: &Case<'_>,
    doc: &Doc,
    listed: &[u8],
    name: Option<&[u8]>,
) -> Result<Vec<u8>, Fault>
    requires { IsFaithful doc.now }
{
    let mut index = fresh_index(case.alloc, doc, listed)?;
    match name {
        Some(name) => told(case, &mut index, doc, name),
        None => tells(case, &mut index, doc),
    }
}

fn fresh_index(alloc: Global, doc: &Doc, listed: &[u8]) -> Result<Index, AllocError>
    requires { IsFaithful doc.now }
    ensures { IfOk result (λ index. IsFreshIndexOf doc.now index) }
{
    let scope = Scope {
        names: listed.contains(&b'n'),
        targets: listed.contains(&b't'),
        prerequisites: listed.contains(&b'p'),
        lines: listed.contains(&b'l'),
    };
    let mut index = Index::new(alloc, doc, scope)?;
    index.refresh(doc)?;
    Ok(index)
}

/// How many lines of a makefile the index tells for a name. `None` if it leaves the name to a walk.
fn told(case: &Case<'_>, index: &mut Index, doc: &Doc, name: &[u8]) -> Result<Vec<u8>, Fault>
    requires faithful { IsFaithful doc.now }
    requires index { IsFreshIndexOf doc.now index.old }
{
    let count = count_of(case.alloc, index, doc, Address::Variable(None, name));
    Ok(format!(in case.alloc; "{count:?}")?.into_bytes())
}

/// Whether an index tells of the variable `A`, the rule `all`, and a rename of `lib`.
fn tells(case: &Case<'_>, index: &mut Index, doc: &Doc) -> Result<Vec<u8>, Fault>
    requires faithful { IsFaithful doc.now }
    requires index { IsFreshIndexOf doc.now index.old }
{
    let variable = count_of(case.alloc, index, doc, Address::Variable(None, b"A")).is_some();
    let rule = count_of(case.alloc, index, doc, Address::Rule(None, b"all")).is_some();
    let rename = is_rename_told(case.alloc, index, doc);
    Ok(format!(in case.alloc; "[{variable}, {rule}, {rename}]")?.into_bytes())
}

/// How many lines the index tells for an address, if it does.
fn count_of(alloc: Global, index: &mut Index, doc: &Doc, address: Address<'_>) -> Option<usize>
    requires faithful { IsFaithful doc.now }
    requires index { IsFreshIndexOf doc.now index.old }
    ensures { index.new ≡ index.old }
{
    match index.sought(alloc, doc, Some(address)) {
        Some(sought) => Some(sought.count),
        None => None,
    }
}

fn is_rename_told(alloc: Global, index: &mut Index, doc: &Doc) -> bool
    requires faithful { IsFaithful doc.now }
    requires index { IsFreshIndexOf doc.now index.old }
{
    index.for_rename(alloc, doc, b"lib", b"new").is_some()
}

/// Makes a call on the document of a makefile with a finder over it: at each of some edits, or at an edit
/// after another one.
pub fn of_finder(
    case: &Case<'_>,
    makefile: &[u8],
    edits: &[u8],
    second: Option<&[u8]>,
) -> Result<Vec<u8>, Fault> {
    let mut indexed = indexed(case.alloc, makefile)?;
    match second {
        Some(second) => known_after(case, &mut indexed, edits, second),
        None => known(case, &mut indexed, edits),
    }
}

/// A document with a finder over it.
fn indexed(alloc: Global, makefile: &[u8]) -> Result<IndexedDoc, Fault>
    ensures { IfOk result (λ indexed. IsFaithful indexed) }
{
    let makefile = Vec::from_slice(alloc, makefile)?;
    let (doc, end) = Doc::parse_with_end(alloc, makefile, &mut Meter::new())?;
    let finder = Finder::over(&doc, end);
    Ok(IndexedDoc::new(doc, finder))
}

/// Whether something is known at each of some edits in turn, one in a line. A `*` before them says that
/// renames are expected.
fn known(case: &Case<'_>, indexed: &mut IndexedDoc, edits: &[u8]) -> Result<Vec<u8>, Fault>
    requires { IsFaithful indexed.old }
{
    let [b'*', edits @ ..] = edits else {
        return known_in_turn(case.alloc, indexed, edits);
    };
    indexed.expect_edits(Expected {
        renames: true,
        lines: false,
        others: false,
    });
    known_in_turn(case.alloc, indexed, edits)
}

fn known_in_turn(alloc: Global, indexed: &mut IndexedDoc, edits: &[u8]) -> Result<Vec<u8>, Fault>
    requires { IsFaithful indexed.old }
{
    let mut shown = String::new(alloc);
    for edit in edits.split_str(b"\n") {
        let known = is_known(alloc, indexed, edit)?;
        shown.push_str(if known { "known " } else { "unknown " })?;
    }
    Ok(shown.into_bytes())
}

/// Whether something is known of the lines that the edit of a line means.
fn is_known(alloc: Global, indexed: &mut IndexedDoc, line: &[u8]) -> Result<bool, Fault>
    requires { IsFaithful indexed.old }
    ensures { indexed.new ≡ indexed.old }
{
    let edit = edit_of(alloc, line)?;
    Ok(!matches!(indexed.known(alloc, &edit), Known::Nothing))
}

/// Makes an edit by what is known of its lines, and says whether something is known at another one.
fn known_after(
    case: &Case<'_>,
    indexed: &mut IndexedDoc,
    first: &[u8],
    second: &[u8],
) -> Result<Vec<u8>, Fault>
    requires { IsFaithful indexed.old }
{
    indexed.expect_edits(OTHERS);
    make(case.alloc, indexed, first)?;
    said(case, is_known(case.alloc, indexed, second)?)
}

fn make(alloc: Global, indexed: &mut IndexedDoc, line: &[u8]) -> Result<(), Fault>
    requires { IsFaithful indexed.old }
    ensures { OnOk result (IsFaithful indexed.new) }
{
    let edit = edit_of(alloc, line)?;
    make_edit(alloc, indexed, &edit)
}

fn make_edit(alloc: Global, indexed: &mut IndexedDoc, edit: &Edit) -> Result<(), Fault>
    requires { IsFaithful indexed.old }
    ensures { OnOk result (IsFaithful indexed.new) }
{
    let known = indexed.known(alloc, edit);
    let planned = plan_with(alloc, indexed.doc(), edit, &known, &mut Meter::new());
    let Ok(patch) = planned else {
        return Err(Fault::Read);
    };
    let _back = indexed.make_planned(patch);
    Ok(())
}

/// The lines that a session finds for a name, as an assignment and as a rule, and whether it takes more than
/// the growth of the copy of a name for each of the two: it makes an index and asks it.
pub fn found_lines<'h>(
    case: &Case<'h>,
    session: &mut Session<&'h Heap>,
    name: &[u8],
) -> Result<Vec<u8>, Fault> {
    session.expect_edits(OTHERS);
    case.heap.refuse_none();
    let assignment = session.find_assignment(None, name);
    let rule = session.find_rule(None, name);
    let are_more = case.heap.passed().count > 2;
    Ok(format!(in case.alloc; "{assignment:?}, {rule:?}, more growths {are_more}")?.into_bytes())
}
