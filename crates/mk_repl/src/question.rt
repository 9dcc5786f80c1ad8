//! What is found for a question to a makefile.
ghost use Rattle.std.specs.Prelude.{◌≡◌, ℕ, List, false, Err, IfOk, IfSome, None, Some};
ghost use Rattle.mk_lines.specs.Device.{Writes};
ghost use Rattle.mk_lines.specs.declared.fault.Fault.TheVariants.{NoMemory};
ghost use Rattle.mk_tree.specs.Documents.{IsFaithful};
ghost use Rattle.mk_tree.specs.LocatedLines.{located_text};
ghost use Rattle.mk_repl.specs.declared.question.Unanswered.TheVariants as unanswered;
ghost use Rattle.mk_repl.specs.QueryTexts.{IsSaid, answer_refusal, answer_text, found_text, query_text};

use mk_cli::{Form, Query, Question};
use mk_lines::sink::{write_all, write_parts};
use mk_lines::{ByteSink, Fault};
use mk_queries::{
    caveats, caveats_json, check, check_json, check_texts, recipes, recipes_json, recipes_named,
    rules, rules_json, rules_named, value_json, vars, vars_json, vars_named,
};
use mk_session::Refusal;
use mk_session::lookup::get;
use mk_tree::Doc;
use std::alloc::{AllocError, Allocator};

/// Why a question has no answer.
#[derive(Clone, Copy, Debug, PartialEq, Eq)]
pub enum Unanswered {
    /// A device, a limit or memory ended it.
    Fault(Fault),
    /// `set` would be refused so for the name that it gives.
    Refused(Refusal),
}

impl From<Fault> for Unanswered {
    ghost from_gives = { λ fault answer. answer ≡ unanswered.Fault fault };

    fn from(fault: Fault) -> Unanswered {
        Unanswered::Fault(fault)
    }
}

impl From<AllocError> for Unanswered {
    ghost from_gives = { λ _ answer. answer ≡ unanswered.Fault NoMemory };

    fn from(_refused: AllocError) -> Unanswered {
        Unanswered::Fault(Fault::NoMemory)
    }
}

/// What is found for a question.
#[derive(Drop)]
pub enum Found<'a, B: Allocator> {
    /// The lines of a query, which are not written yet.
    Lines(Query<'a>),
    /// Lines of JSON.
    Json(Vec<u8, B>),
    /// The value of a variable.
    Value(&'a [u8]),
}

/// What a document has for a question. Lines of JSON call the makefile by this name.
///
/// # Errors
///
/// [`Unanswered::Refused`] for a variable that `set` would not take either. [`Unanswered::Fault`] with
/// [`Fault::NoMemory`] where the lines of JSON could not grow.
pub fn found_for<'a, A: Allocator, B: Allocator + Copy>(
    alloc: B,
    question: Question<'a>,
    file: &str,
    doc: &'a Doc<A>,
) -> Result<Found<'a, B>, Unanswered>
    requires { IsFaithful doc.now }
    ensures found { IfOk result (λ found. IfSome (answer_text question.entry (located_text doc.now))
        (λ text. found_text found doc.now ≡ Some text)) }
    ensures unrefused { IfOk result (λ found.
        answer_refusal question.entry (located_text doc.now) ≡ None) }
    ensures refused { (refusal : Refusal) → result ≡ Err (Unanswered.Refused refusal)
        → answer_refusal question.entry (located_text doc.now) ≡ Some refusal }
    ensures fault { (fault : Fault) → result ≡ Err (Unanswered.Fault fault)
        → fault ≡ Fault.NoMemory }
{
    match question {
        Question::List(query, Form::Text) => Ok(Found::Lines(query)),
        Question::List(query, Form::Json) => Ok(Found::Json(json_lines(alloc, query, file, doc)?)),
        Question::Value(nth, name, form) => match get(doc, nth, name) {
            Ok(value) => match form {
                Form::Text => Ok(Found::Value(value)),
                Form::Json => Ok(Found::Json(value_json(alloc, file.as_bytes(), name, value)?)),
            },
            Err(refusal) => Err(Unanswered::Refused(refusal)),
        },
    }
}

/// The lines of JSON of a query. The makefile is called by this name in them.
///
/// # Errors
///
/// [`AllocError`] if a growth was refused.
pub(crate) fn json_lines<'a, A: Allocator, B: Allocator + Copy>(
    alloc: B,
    query: Query<'a>,
    file: &str,
    doc: &'a Doc<A>,
) -> Result<Vec<u8, B>, AllocError>
    requires { IsFaithful doc.now }
{
    let file = file.as_bytes();
    match query {
        Query::Vars(name) => vars_json(alloc, file, doc, name),
        Query::Rules(target) => rules_json(alloc, file, doc, target),
        Query::Recipes(target) => recipes_json(alloc, file, doc, target),
        Query::Check | Query::CheckTexts => check_json(alloc, file, doc),
        Query::Caveats => caveats_json(alloc, file, doc),
    }
}

/// Writes the lines of a query.
///
/// # Errors
///
/// [`Fault::Write`] if the sink failed. A prefix is out then.
pub(crate) fn put_lines<A: Allocator, W: ByteSink>(
    query: Query<'_>,
    doc: &Doc<A>,
    out: &mut W,
) -> Result<(), Fault>
    requires faithful { IsFaithful doc.now }
    requires works { W.failed out.old ≡ false }
    ensures { (text : List ℕ) × Writes W.contents W.failed W.flushes out.old out.new result text
        × IsSaid (query_text query.entry doc.now) text }
{
    match query {
        Query::Vars(None) => vars(doc, out),
        Query::Vars(Some(name)) => vars_named(doc, name, out),
        Query::Rules(None) => rules(doc, out),
        Query::Rules(Some(target)) => rules_named(doc, target, out),
        Query::Recipes(None) => recipes(doc, out),
        Query::Recipes(Some(target)) => recipes_named(doc, target, out),
        Query::Check => check(doc, out),
        Query::CheckTexts => check_texts(doc, out),
        Query::Caveats => caveats(doc, out),
    }
}

/// Writes what is found in a document: the lines of a query, for a person or as JSON, or a value and the
/// end of its line.
///
/// # Errors
///
/// [`Fault::Write`] if the sink failed. A prefix is out then.
pub fn put_found<A: Allocator, B: Allocator, W: ByteSink>(
    found: Found<'_, B>,
    doc: &Doc<A>,
    out: &mut W,
) -> Result<(), Fault>
    requires faithful { IsFaithful doc.now }
    requires works { W.failed out.old ≡ false }
    ensures { (text : List ℕ) × Writes W.contents W.failed W.flushes out.old out.new result text
        × IsSaid (found_text found.entry doc.now) text }
{
    match found {
        Found::Lines(query) => put_lines(query, doc, out),
        Found::Json(lines) => write_all(out, lines.as_slice()),
        Found::Value(value) => write_parts(out, &[value, b"\n"]),
    }
}
