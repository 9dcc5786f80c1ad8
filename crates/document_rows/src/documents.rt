//! Documents: parsed, shown, changed and printed.
ghost use Rattle.std.specs.Prelude.{◌<◌, ◌≡◌, IfOk, false};
ghost use Rattle.mk_tree.specs.Documents.{IsFaithful};

use crate::{json, queries, views};
use mk_class::{Class, Context, Meter};
use mk_lines::Fault;
use mk_lines::source::MAX_TEXT;
use mk_tree::{Doc, Line, LineBytes};
use std::alloc::Global;
use std::fmt::Write as _;
use test_support::{Case, Heap, MemorySink};

/// The document of a text.
fn document(alloc: Global, text: &[u8]) -> Result<Doc, Fault>
    ensures { IfOk result (λ doc. IsFaithful doc) }
{
    Doc::open(alloc, text)
}

/// Makes a call on the document of the first text of a case.
///
/// Apart from [`write`] it alone owns such a document, and hands it out by a reference: a function that owns
/// one drops it on each way out, which makes its proof long.
pub fn answer(case: &Case<'_>) -> Result<Option<Vec<u8>>, Fault> {
    let [text, texts @ ..] = case.fields else {
        return Ok(None);
    };
    let mut doc = document(case.alloc, text)?;
    match texts {
        [] => of_document(case, &mut doc),
        [word] => with_word(case, &doc, word),
        _ => Ok(None),
    }
}

/// Makes a call on a document.
fn of_document(case: &Case<'_>, doc: &mut Doc) -> Result<Option<Vec<u8>>, Fault>
    requires { IsFaithful doc.old }
{
    let answer = match case.table {
        "lines-in-contexts" => lines_in_contexts(case, doc),
        "document-writes" => writes(case, doc),
        "text-of" => views::text_again(case, doc),
        "parts" => views::parts(case, doc),
        "positions" => views::positions(case, doc),
        "branches" => views::branches(case, doc),
        "line-caveats" => queries::caveats_of_lines(case, doc),
        _ => return Ok(None),
    };
    Ok(Some(answer?))
}

/// Makes a call on a document and a word: a name, a target or a query.
fn with_word(case: &Case<'_>, doc: &Doc, word: &[u8]) -> Result<Option<Vec<u8>>, Fault>
    requires { IsFaithful doc.now }
{
    let answer = match case.table {
        "numbers" => views::numbers(case, doc, word),
        "assignments" => views::assignments_in(case, doc, word),
        "rules" => views::rules_in(case, doc, word),
        "few-writes" => queries::few_writes(case, doc, word),
        "json" => json::lines(case, doc, word),
        "json-lines" => json::count_lines(case, doc, word),
        _ => return Ok(None),
    };
    Ok(Some(answer?))
}

/// Writes what is asked of the first text of a case: all, or what concerns a name or a target.
pub fn write(case: &Case<'_>, out: &mut MemorySink) -> Result<bool, Fault>
    requires { out.old.is_failed ≡ false }
{
    let [text, texts @ ..] = case.fields else {
        return Ok(false);
    };
    let doc = document(case.alloc, text)?;
    match texts {
        [] => queries::write_all(case.table, &doc, out),
        [word] => queries::write_of(case.table, &doc, word, out),
        _ => Ok(false),
    }
}

/// A document, how many lines are counted for it, and how many conditionals are open at its end.
pub fn parsed(case: &Case<'_>, text: &[u8]) -> Result<Vec<u8>, Fault> {
    let mut meter = Meter::new();
    let doc = Doc::parse(case.heap, text, &mut meter)?;
    counted(case, &doc, meter.count())
}

fn counted(case: &Case<'_>, doc: &Doc<&Heap>, count: u64) -> Result<Vec<u8>, Fault>
    requires { IsFaithful doc.now }
{
    let open = doc.end_context().conds();
    Ok(format!(in case.alloc; "{doc:?}, counted {count}, open {open}")?.into_bytes())
}

/// A document of bytes that it keeps, and whether it is empty.
pub fn parsed_vec(case: &Case<'_>, text: &[u8]) -> Result<Vec<u8>, Fault> {
    let text = Vec::from_slice(case.heap, text)?;
    let doc = Doc::parse_vec(case.heap, text, &mut Meter::new())?;
    shown(case, &doc)
}

fn shown(case: &Case<'_>, doc: &Doc<&Heap>) -> Result<Vec<u8>, Fault> {
    let empty = doc.is_empty();
    Ok(format!(in case.alloc; "{doc:?}, empty {empty}")?.into_bytes())
}

/// The lines of a document, each with how many conditionals and defines are open there.
fn lines_in_contexts(case: &Case<'_>, doc: &Doc) -> Result<Vec<u8>, Fault>
    requires { IsFaithful doc.now }
{
    let mut shown = String::new(case.alloc);
    for (context, line) in doc.lines_with_contexts() {
        let (conds, defines) = (context.conds(), context.defines());
        writeln!(shown, "{conds} {defines} {line:?}")?;
    }
    Ok(shown.into_bytes())
}

/// A copy of a text that was made on the heap of a case. That this function alone owns such a text keeps the
/// proofs of those short that make one.
pub fn copied<E>(case: &Case<'_>, made: Result<Vec<u8, &Heap>, E>) -> Result<Vec<u8>, Fault>
where
    Fault: From<E>,
{
    let made = made?;
    copy_of(case, &made)
}

fn copy_of(case: &Case<'_>, text: &[u8]) -> Result<Vec<u8>, Fault> {
    Ok(Vec::from_slice(case.alloc, text)?)
}

/// The joined text of a line with a fold, read at the start of a text.
pub fn read_line(case: &Case<'_>) -> Result<Vec<u8>, Fault> {
    let bytes = Vec::from_slice(case.heap, b"B = a \\\n b\n")?;
    let line = Line::read(case.heap, bytes, Context::start(), &mut Meter::new())?;
    copy_of(case, line.text())
}

/// The bytes of a line by themselves.
pub fn own_bytes(case: &Case<'_>, text: &[u8]) -> Result<Vec<u8>, Fault> {
    let own = LineBytes::new(Vec::from_slice(case.heap, text)?)?;
    copy_of(case, own.as_slice())
}

/// The line at an index taken out of a document, if it is an assignment.
fn take_out(doc: &mut Doc, at: usize) -> Option<Line> {
    if at >= doc.len() {
        return None;
    }
    match doc.line(at).class() {
        Class::Assign(_, _) => Some(doc.remove(at)),
        _ => None,
    }
}

/// Puts a line at the end of a document, if it is an assignment and has room.
fn put_last(doc: &mut Doc, line: Line) {
    match line.class() {
        Class::Assign(_, _) if line.bytes().len() <= MAX_TEXT - doc.size() => {
            doc.insert(doc.len(), line);
        }
        _ => {}
    }
}

/// In how many writes a document goes out to a sink that takes all of a write, and how many bytes do.
fn writes_of(alloc: Global, doc: &Doc) -> Result<(u64, usize), Fault> {
    let mut sink = MemorySink::new(Vec::new(alloc), MAX_TEXT);
    match doc.write_to(&mut sink) {
        Ok(()) => Ok((sink.writes(), sink.bytes().len())),
        Err(fault) => Err(fault),
    }
}

/// The writes and the bytes of a document, of it without the line in its middle, and of it with this line
/// at its end. What no contract says: lines that no call has touched are not gathered line by line.
fn writes(case: &Case<'_>, doc: &mut Doc) -> Result<Vec<u8>, Fault> {
    let first = writes_of(case.alloc, doc)?;
    let middle = doc.len() / 2;
    let taken = take_out(doc, middle);
    let second = writes_of(case.alloc, doc)?;
    if let Some(line) = taken {
        put_last(doc, line);
    }
    let third = writes_of(case.alloc, doc)?;
    Ok(format!(in case.alloc; "{first:?}, {second:?}, {third:?}")?.into_bytes())
}
