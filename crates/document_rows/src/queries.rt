//! The texts of queries, and of whole documents.
ghost use Rattle.std.specs.Prelude.{◌≡◌, false};
ghost use Rattle.mk_tree.specs.Documents.{IsFaithful};

use mk_lines::{ByteSink, Fault};
use mk_queries::{
    caveats, check, line_caveats, recipes, recipes_named, rules, rules_named, vars, vars_named,
};
use mk_tree::Doc;
use test_support::{Case, MemorySink};

/// More bytes than any text here has.
const ALL: usize = 1_000_000;

/// Writes what is asked of a document.
pub fn write_all(table: &str, doc: &Doc, out: &mut MemorySink) -> Result<bool, Fault>
    requires faithful { IsFaithful doc.now }
    requires works { out.old.is_failed ≡ false }
{
    let answer = match table {
        "print" => doc.write_to(out),
        "vars" => vars(doc, out),
        "rules" => rules(doc, out),
        "recipes" => recipes(doc, out),
        "check" => check(doc, out),
        "caveats" => caveats(doc, out),
        _ => return Ok(false),
    };
    answer.map(|()| true)
}

/// Writes what is asked of a document for a name or a target.
pub fn write_of(table: &str, doc: &Doc, word: &[u8], out: &mut MemorySink) -> Result<bool, Fault>
    requires faithful { IsFaithful doc.now }
    requires works { out.old.is_failed ≡ false }
{
    let answer = match table {
        "vars" => vars_named(doc, word, out),
        "rules" => rules_named(doc, word, out),
        "recipes" => recipes_named(doc, word, out),
        _ => return Ok(false),
    };
    answer.map(|()| true)
}

/// Whether a long text goes out in few writes; and whether the first has brought out a front of the text
/// if the second fails. What no contract says: a text is held back, and goes out in parts of 16 KB.
pub fn few_writes(case: &Case<'_>, doc: &Doc, query: &[u8]) -> Result<Vec<u8>, Fault>
    requires { IsFaithful doc.now }
{
    let query = std::str::from_utf8(query).unwrap_or_default();
    let mut out = MemorySink::new(Vec::new(case.alloc), ALL);
    write_all(query, doc, &mut out)?;
    let are_few = out.writes() <= 2 + out.bytes().len() as u64 / 16_000;
    let mut failing = MemorySink::new(Vec::new(case.alloc), ALL).failing_at(Some(2));
    let answer = write_all(query, doc, &mut failing);
    let is_front = failing.bytes().len() > 16_000 && out.bytes().starts_with(failing.bytes());
    Ok(format!(in case.alloc; "few {are_few}, front {is_front}, {answer:?}")?.into_bytes())
}

/// The caveat of each line, and what is said of it.
pub fn caveats_of_lines(case: &Case<'_>, doc: &Doc) -> Result<Vec<u8>, Fault>
    requires { IsFaithful doc.now }
{
    let mut shown = String::new(case.alloc);
    for caveat in line_caveats(doc) {
        match caveat {
            Some(caveat) => shown.push_str(caveat.sentence())?,
            None => shown.push_str("none")?,
        }
        shown.push_str("\n")?;
    }
    Ok(shown.into_bytes())
}
