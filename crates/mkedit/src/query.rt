//! The queries, such as `mkedit vars`: what a makefile has, a line for each thing, for a person or as
//! JSON; and `mkedit get`: the value of a variable, or of several, each of which is a question of its own.
//!
//! If nobody reads the output to its end, as below `head`, a query is done; a run is not, since
//! half of a makefile is never what is wanted. No name stands before a line of JSON: it would be no
//! JSON then, and each object has the name in it.
ghost use Rattle.std.specs.Prelude.{◌≡◌, ◌↔◌, ◌<◌, ◌+◌, ◌||◌, ◌⊎◌, ℕ, List, IsTrue, IfSome, OnOk, Err, None, Some, false, true, length, is_ok};
ghost use Rattle.std.specs.Io.KnownBytes.{Appends};
ghost use Rattle.mk_lines.specs.Limits.{max_text};
ghost use Rattle.mk_lines.specs.Device.{AppendsPrefix};
ghost use Rattle.mk_tree.specs.LocatedLines.{located_text};
ghost use Rattle.mk_tree.specs.Documents.{IsFaithful, IsTooDeep};
ghost use Rattle.mk_edit_language.specs.declared.refusal.Refusal.{Refusal};
ghost use Rattle.mk_run.specs.Report.{refusal_text};
ghost use Rattle.mk_run.specs.RunEnds.{PutsOut, PutsOutIf, ReadsOnce};
ghost use Rattle.mk_repl.specs.QueryTexts.{IsSaid, answer_refusal, answer_text, found_text, has_prefix};

use crate::ending::{Effect, End, query_outcome};
use crate::input::{input_name, name_of, open_input};
use crate::several::{Told, put_named, tell_end, tell_named};
use mk_cli::{Form, Input, Progress, QueryWords, Question, Report};
use mk_escape::{shown_name, shown_text};
use mk_fs::{STANDARD_OUTPUT, Stream, WithError};
use mk_lines::source::{BUFFER, MAX_TEXT, read_all};
use mk_lines::{ByteSink, ByteSource, Fault, StdSink, StdSource};
use mk_repl::{Found, Unanswered, found_for, put_found};
use mk_run::{Outcome, Statuses, write_refusal};
use mk_session::{Refusal, Session};
use mk_tree::Doc;
use std::alloc::{Allocator, Global};
use std::io::IsTerminal;
use std::mem;
use std::process::ExitCode;

// A session that is only looked at: the least depth there is.
const DEPTH: u32 = 1;

// Writes what is found, and flushes it once.
fn put_out<A: Allocator, B: Allocator, W: ByteSink>(
    found: Found<'_, B>,
    doc: &Doc<A>,
    out: &mut W,
) -> Result<(), Fault>
    requires faithful { IsFaithful doc.now }
    requires works { W.failed out.old ≡ false }
    ensures { (text : List ℕ)
        × PutsOut W.contents W.failed W.flushes W.pending out.old out.new result text
        × IsSaid (found_text found.entry doc.now) text }
{
    put_found(found, doc, out)?;
    out.flush()
}

// Writes the answer that a document has, and flushes it once.
fn put_answer<A: Allocator, B: Allocator + Copy, W: ByteSink>(
    alloc: B,
    question: Question<'_>,
    file: &str,
    doc: &Doc<A>,
    out: &mut W,
) -> Result<(), Unanswered>
    requires faithful { IsFaithful doc.now }
    requires works { W.failed out.old ≡ false }
    ensures whole { OnOk result (IfSome (answer_text question.entry (located_text doc.now))
        (Appends (W.contents out.old) (W.contents out.new))) }
    ensures prefix { IfSome (answer_text question.entry (located_text doc.now))
        (AppendsPrefix (W.contents out.old) (W.contents out.new)) }
    ensures granted { OnOk result
        (answer_refusal question.entry (located_text doc.now) ≡ None) }
    ensures refused { (refusal : Refusal) → result ≡ Err (Unanswered.Refused refusal)
        → answer_refusal question.entry (located_text doc.now) ≡ Some refusal }
    ensures fault { (fault : Fault) → result ≡ Err (Unanswered.Fault fault)
        → (fault ≡ Fault.Write) ⊎ (fault ≡ Fault.NoMemory) }
    ensures write { result ≡ Err (Unanswered.Fault Fault.Write) ↔ W.failed out.new ≡ true }
    ensures out { PutsOutIf W.failed W.flushes W.pending out.old out.new (is_ok result) }
{
    let found = found_for(alloc, question, file, doc)?;
    Ok(put_out(found, doc, out)?)
}

/// Reads a makefile to its end, and writes the answer, which it flushes once. Lines of JSON call the
/// makefile by this name.
///
/// # Errors
///
/// [`Unanswered::Refused`] where `set` would be refused so for its name or its line, and nothing was
/// written or flushed. [`Unanswered::Fault`]:
///
/// - [`Fault::Read`] where a read answered it.
/// - [`Fault::TooLong`] where the makefile has more than 16,777,216 bytes.
/// - [`Fault::TooDeep`] where a 257th conditional opens in it.
/// - [`Fault::NoMemory`] where a growth was refused.
/// - [`Fault::Write`] where a write or the flush answered it, or a write took nothing. A prefix of
///   the answer is out then; after any other fault nothing was written or flushed.
pub fn answer<A, R, W>(
    alloc: A,
    question: Question<'_>,
    file: &str,
    makefile: &mut R,
    out: &mut W,
) -> Result<(), Unanswered>
where
    A: Allocator + Copy,
    R: ByteSource,
    W: ByteSink,
    requires makefile_works { R.failed makefile.old ≡ false }
    requires out_works { W.failed out.old ≡ false }
    ensures whole { OnOk result (IfSome (R.remaining makefile.old) (λ text.
        IfSome (answer_text question.entry text)
        (Appends (W.contents out.old) (W.contents out.new)))) }
    ensures prefix { IfSome (R.remaining makefile.old) (λ text.
        IfSome (answer_text question.entry text)
        (AppendsPrefix (W.contents out.old) (W.contents out.new))) }
    ensures granted { OnOk result (IfSome (R.remaining makefile.old) (λ text.
        answer_refusal question.entry text ≡ None)) }
    ensures refused { (refusal : Refusal) → result ≡ Err (Unanswered.Refused refusal)
        → IfSome (R.remaining makefile.old) (λ text.
        answer_refusal question.entry text ≡ Some refusal) }
    ensures read { result ≡ Err (Unanswered.Fault Fault.Read) ↔ R.failed makefile.new ≡ true }
    ensures write { result ≡ Err (Unanswered.Fault Fault.Write) ↔ W.failed out.new ≡ true }
    ensures depth { result ≡ Err (Unanswered.Fault Fault.BadDepth) → ⊥ }
    ensures too_long { result ≡ Err (Unanswered.Fault Fault.TooLong)
        → IfSome (R.remaining makefile.old) (λ text. max_text < length text) }
    ensures too_deep { result ≡ Err (Unanswered.Fault Fault.TooDeep)
        → IfSome (R.remaining makefile.old) (λ text. IsTooDeep text) }
    ensures shallow { OnOk result (IfSome (R.remaining makefile.old) (λ text. IsTooDeep text → ⊥)) }
    ensures makefile { ReadsOnce R.remaining R.ends makefile.old makefile.new
        (MAX_TEXT + BUFFER) }
    ensures out { PutsOutIf W.failed W.flushes W.pending out.old out.new (is_ok result) }
{
    let text = read_all(alloc, makefile)?;
    let session = Session::open_vec(alloc, text, DEPTH)?;
    let answered = put_answer(alloc, question, file, session.doc(), out);
    // The program ends soon: it does not give up a box for each line.
    mem::forget(session);
    answered
}

// Answers on a sink, and says how that ended. A refusal is told on another.
fn print<A, R, W, P>(
    alloc: A,
    question: Question<'_>,
    file: &str,
    makefile: &mut R,
    out: &mut W,
    report: &mut P,
) -> Outcome
where
    A: Allocator + Copy,
    R: ByteSource,
    W: ByteSink,
    P: ByteSink,
    requires makefile_works { R.failed makefile.old ≡ false }
    requires out_works { W.failed out.old ≡ false }
    requires report_works { P.failed report.old ≡ false }
    ensures whole { result ≡ Outcome.Done → IfSome (R.remaining makefile.old) (λ text.
        IfSome (answer_text question.entry text)
        (Appends (W.contents out.old) (W.contents out.new))) }
    ensures prefix { IfSome (R.remaining makefile.old) (λ text.
        IfSome (answer_text question.entry text)
        (AppendsPrefix (W.contents out.old) (W.contents out.new))) }
    ensures granted { result ≡ Outcome.Done → IfSome (R.remaining makefile.old) (λ text.
        answer_refusal question.entry text ≡ None) }
    ensures refused { (count : ℕ) → result ≡ Outcome.Refused count → (count ≡ 1)
        × (refusal : Refusal)
        × Appends (P.contents report.old) (P.contents report.new) (refusal_text refusal)
        × IfSome (R.remaining makefile.old) (λ text.
        answer_refusal question.entry text ≡ Some refusal) }
    ensures read { result ≡ Outcome.Read ↔ R.failed makefile.new ≡ true }
    ensures write { result ≡ Outcome.Write
        ↔ IsTrue (W.failed out.new || P.failed report.new) }
    ensures too_long { result ≡ Outcome.TooLong
        → IfSome (R.remaining makefile.old) (λ text. max_text < length text) }
    ensures too_deep { result ≡ Outcome.TooDeep
        → IfSome (R.remaining makefile.old) (λ text. IsTooDeep text) }
{
    match answer(alloc, question, file, makefile, out) {
        Ok(()) => Outcome::Done,
        Err(Unanswered::Fault(fault)) => Outcome::from(fault),
        Err(Unanswered::Refused(refusal)) => match write_refusal(report, refusal) {
            Ok(()) => Outcome::Refused(1),
            Err(fault) => Outcome::from(fault),
        },
    }
}

// How an answer is shown that is gathered first.
#[derive(Clone, Copy)]
struct Shown<'a> {
    // The name before each line, if there is one.
    prefix: Option<&'a str>,
    // Whether it goes to a terminal, where control characters are escaped.
    is_terminal: bool,
}

// Puts an answer out as it is shown, and flushes it once.
fn put_shown<W: ByteSink>(
    alloc: Global,
    shown: Shown<'_>,
    answer: Vec<u8>,
    out: &mut W,
) -> Result<(), Fault>
    requires { W.failed out.old ≡ false }
{
    let answer = shown_text(alloc, answer, shown.is_terminal)?;
    let before = match shown.prefix {
        Some(name) if shown.is_terminal => format!(in alloc; "{}:", shown_name(alloc, name)?)?,
        Some(name) => format!(in alloc; "{name}:")?,
        None => String::new(alloc),
    };
    put_named(alloc, before.as_bytes(), answer.as_slice(), b"", out)?;
    ByteSink::flush(out)
}

// Answers on a sink as the answer is shown, and says how that ended. The answer is gathered in memory
// first.
fn print_shown<R: ByteSource, W: ByteSink, P: ByteSink>(
    alloc: Global,
    question: Question<'_>,
    file: &str,
    shown: Shown<'_>,
    makefile: &mut R,
    out: &mut W,
    report: &mut P,
) -> Outcome
    requires makefile_works { R.failed makefile.old ≡ false }
    requires out_works { W.failed out.old ≡ false }
    requires report_works { P.failed report.old ≡ false }
{
    let mut text = Vec::new(alloc);
    let mut kept = StdSink::new(&mut text);
    let outcome = print(alloc, question, file, makefile, &mut kept, report);
    match End::of(outcome).kept(kept.failed()).outcome {
        Outcome::Done => match put_shown(alloc, shown, text, out) {
            Ok(()) => Outcome::Done,
            Err(fault) => Outcome::from(fault),
        },
        outcome => outcome,
    }
}

// How a query of one makefile ended, and whether nobody reads the output any more.
#[derive(Clone, Copy)]
struct Asked<'a> {
    end: End<'a>,
    is_left: bool,
}

// How a query ended with this outcome, of a makefile that is called by this name. That nobody reads the
// output any more is no fault.
fn end_of_query<'a, R, W>(
    outcome: Outcome,
    name: &'a str,
    makefile: &WithError<R>,
    out: &WithError<W>,
) -> Asked<'a> {
    let is_left = out.is_left();
    let end = End::of(query_outcome(outcome, is_left))
        .with_fault(makefile.fault(name))
        .with_limit(name);
    if is_left {
        return Asked { end, is_left };
    }
    Asked {
        end: end.with_fault(out.fault(STANDARD_OUTPUT)),
        is_left,
    }
}

// Whether the name of the makefile stands before each line of an answer where several are asked: a line of
// JSON has it in it.
fn has_prefix(question: Question<'_>) -> bool
    ensures { result ≡ has_prefix question.entry }
{
    match question {
        Question::List(_, Form::Text) | Question::Value(_, _, Form::Text) => true,
        Question::List(_, Form::Json) | Question::Value(_, _, Form::Json) => false,
    }
}

// Answers what a makefile that is open is asked for, on standard output. Where there is a prefix, each line
// of the answer gets it. A refusal is told on the sink.
fn ask_open<'a, P: ByteSink>(
    rt: &HostRuntime,
    question: Question<'_>,
    prefix: Option<&str>,
    file: Input<'a>,
    stream: Stream<'_>,
    report: &mut P,
) -> Asked<'a>
    requires { P.failed report.old ≡ false }
{
    let mut makefile = WithError::new(stream);
    let mut out = WithError::new(rt.stdout());
    let mut source = StdSource::new(&mut makefile);
    let mut sink = StdSink::new(&mut out);
    let (alloc, name) = (rt.alloc(), name_of(file));
    let is_terminal = rt.stdout().is_terminal();
    let outcome = if is_terminal || prefix.is_some() {
        let shown = Shown {
            prefix,
            is_terminal,
        };
        print_shown(alloc, question, name, shown, &mut source, &mut sink, report)
    } else {
        print(alloc, question, name, &mut source, &mut sink, report)
    };
    end_of_query(outcome, input_name(file), &makefile, &out)
}

// Answers one of the things that an open makefile is asked for, and says how that ended. The name is that of
// the makefile where there are several. What is said of a refusal is gathered in memory, and names the variable
// where there are several.
fn ask_one<'e>(
    rt: &HostRuntime,
    words: &QueryWords<'e>,
    question: Question<'e>,
    progress: &mut Progress<'_>,
    file: Input<'e>,
    name: Option<&'e str>,
    stream: Stream<'_>,
) -> Told {
    let prefix = name.filter(|_| has_prefix(question));
    let variable = match question {
        Question::Value(_, name, _) if words.questions.len() > 1 => Some(name),
        _ => None,
    };
    let names = [name.map(|name| name.as_bytes()), variable];
    let question = match words.report.at(rt.stdout().is_terminal()) {
        Report::Notes => question.for_person(),
        _ => question,
    };
    let mut report = Vec::new(rt.alloc());
    let mut lines = StdSink::new(&mut report);
    let asked = ask_open(rt, question, prefix, file, stream, &mut lines);
    let end = asked.end.kept(lines.failed());
    Told {
        status: tell_named(rt, progress, &names, b"", &mut report, &end, words.report),
        effect: Effect::Unchanged,
        is_left: asked.is_left,
    }
}

// Answers all that a makefile is asked for, and says how that ended. For several questions it is read into
// memory first, since standard input can be read but once.
fn ask_all<'e>(
    rt: &HostRuntime,
    words: &QueryWords<'e>,
    progress: &mut Progress<'_>,
    file: Input<'e>,
) -> Told {
    let name = (words.files.len() > 1).then_some(name_of(file));
    let stream = match open_input(rt, file) {
        Ok(stream) => stream,
        Err(fault) => return tell_end(rt, progress, &[], &End::from(fault), words.report),
    };
    if let [question] = words.questions.as_slice() {
        return ask_one(rt, words, *question, progress, file, name, stream);
    }
    let mut makefile = WithError::new(stream);
    let text = match read_all(rt.alloc(), &mut StdSource::new(&mut makefile)) {
        Ok(text) => text,
        Err(fault) => {
            let called = input_name(file);
            let end = End::from(fault)
                .with_fault(makefile.fault(called))
                .with_limit(called);
            let names = [name.map(|name| name.as_bytes())];
            return tell_end(rt, progress, &names, &end, words.report);
        }
    };
    let mut all = Told {
        status: 0,
        effect: Effect::Unchanged,
        is_left: false,
    };
    for question in &words.questions {
        let stream = Stream::Text(text.as_slice());
        let told = ask_one(rt, words, *question, progress, file, name, stream);
        all.status = all.status.max(told.status);
        all.is_left = all.is_left || told.is_left;
    }
    all
}

/// Answers what the makefiles are asked for, on standard output, and answers the status. Where nobody
/// reads that to its end, it ends as where all was read.
pub fn ask<'e>(rt: &HostRuntime, words: &QueryWords<'e>) -> ExitCode {
    let mut progress = Progress::new(rt, words.files.len(), true);
    let mut statuses = Statuses::new();
    for (done, file) in words.files.iter().enumerate() {
        progress.show(done);
        let told = ask_all(rt, words, &mut progress, *file);
        statuses.add(told.status);
        if told.is_left {
            break;
        }
    }
    progress.wipe();
    statuses.code()
}
