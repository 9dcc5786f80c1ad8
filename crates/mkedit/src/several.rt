//! Several makefiles: each is a run, or a query, by itself.
//!
//! What is said of a makefile is gathered in memory, so that each line can get the makefile's name.
//! Behind the name stand a colon and a blank: a report has the numbers of lines of the script, and editors
//! take `Makefile:3:` for line 3 of the makefile. That is what the lines of a query mean, so they have no
//! blank there.
//!
//! They are done one after the other: the program is allowed no threads (the file HANDLES), and
//! `xargs -P` runs several processes.
ghost use Rattle.std.specs.Prelude.{◌≡◌, ◌++◌, OnOk, false, map};
ghost use Rattle.std.specs.Io.KnownBytes.{Appends};
ghost use Rattle.mk_lines.specs.Device.{AppendsPrefix};
ghost use Rattle.mk_session.specs.Sessions.{IsBadDepth};
ghost use Rattle.mkedit.specs.NamedLines.{named_lines};

use crate::destination::open_makefile;
use crate::ending::{Effect, End, UNWANTED_CHANGE, notes_on, put_message};
use crate::input::{input_name, name_of};
use crate::named::named_lines;
use crate::run::{Run, run_told};
use mk_cli::{EditWords, Input, Output, Progress, Report, Summary};
use mk_escape::{Layout, escaped};
use mk_fs::Cause;
use mk_lines::sink::write_all;
use mk_lines::{ByteSink, Fault, StdSink};
use mk_notes::file_in_json;
use mk_run::{Outcome, Statuses, status};
use std::alloc::Allocator;
use std::io::{ErrorKind, IsTerminal};
use std::process::ExitCode;

/// Writes what is said of a makefile: some lines, each with a text before it, and below them notes.
///
/// # Errors
///
/// [`Fault::NoMemory`], and nothing is out; or [`Fault::Write`], and a prefix is out.
pub fn put_named<A, W>(
    alloc: A,
    before: &[u8],
    lines: &[u8],
    notes: &[u8],
    out: &mut W,
) -> Result<(), Fault>
where
    A: Allocator,
    W: ByteSink,
    requires { W.failed out.old ≡ false }
    ensures whole { OnOk result (Appends (W.contents out.old) (W.contents out.new)
        (named_lines before.now lines.now ++ notes.now)) }
    ensures prefix { AppendsPrefix (W.contents out.old) (W.contents out.new)
        (named_lines before.now lines.now ++ notes.now) }
    ensures works { OnOk result (W.failed out.new ≡ false) }
{
    let mut named = named_lines(alloc, before, lines)?;
    named.extend_from_slice(notes)?;
    write_all(out, named.as_slice())
}

// Puts the message on an end behind a report.
fn keep_message(end: &End<'_>, report: &mut Vec<u8>) -> Outcome {
    let mut lines = StdSink::new(report);
    let _ = put_message(end, &mut lines);
    end.kept(lines.failed()).outcome
}

// Writes what is said of a makefile to standard error: a text as it is, then some lines with these names
// before each, as messages show them, then notes.
fn put_told(
    rt: &HostRuntime,
    names: &[Option<&[u8]>],
    said: &[u8],
    lines: &[u8],
    notes: &[u8],
) -> Result<(), Fault> {
    let mut before = Vec::new(rt.alloc());
    for name in names.iter().flatten() {
        before.extend_from_slice(&escaped(rt.alloc(), name, Layout::Escaped)?)?;
        before.extend_from_slice(b": ")?;
    }
    let mut errors = StdSink::new(rt.stderr());
    write_all(&mut errors, said)?;
    put_named(rt.alloc(), before.as_slice(), lines, notes, &mut errors)
}

/// Says on standard error how a run over a makefile, or a query of it, ended, and answers its status: a
/// text as it is, and the report with the names of what it is about before each line. Where something is
/// said, the line on the progress is wiped before. Where it cannot be said, the status is that of the fault.
pub fn tell_named(
    rt: &HostRuntime,
    progress: &mut Progress<'_>,
    names: &[Option<&[u8]>],
    said: &[u8],
    report: &mut Vec<u8>,
    end: &End<'_>,
    form: Report,
) -> u8 {
    let outcome = match form {
        Report::Json => end.outcome,
        _ => keep_message(end, report),
    };
    let notes = notes_on(rt.alloc(), end, form);
    if !(said.is_empty() && report.is_empty() && notes.is_empty()) {
        progress.wipe();
    }
    match put_told(rt, names, said, report.as_slice(), notes.as_slice()) {
        Ok(()) => status(&outcome),
        Err(fault) => status(&Outcome::from(fault)),
    }
}

/// What is known of a run over one of several makefiles, or of a query of it.
#[derive(Clone, Copy)]
pub struct Told {
    /// The status of its outcome.
    pub status: u8,
    /// What it did.
    pub effect: Effect,
    /// Whether nobody reads standard output any more.
    pub is_left: bool,
}

/// Says how a run over a makefile, or a query of it, ended that has done nothing: where it cannot be opened,
/// the message has its name at its end, and no name is before it.
pub fn tell_end(
    rt: &HostRuntime,
    progress: &mut Progress<'_>,
    names: &[Option<&[u8]>],
    end: &End<'_>,
    form: Report,
) -> Told {
    let mut report = Vec::new(rt.alloc());
    Told {
        status: tell_named(rt, progress, names, b"", &mut report, end, form),
        effect: Effect::Unchanged,
        is_left: false,
    }
}

// Whether a run ended since nobody reads the diffs any more.
fn is_left(words: &EditWords<'_>, end: &End<'_>) -> bool {
    let is_broken = match end.fault {
        Some(fault) => matches!(fault.cause, Cause::System(ErrorKind::BrokenPipe)),
        None => false,
    };
    is_broken && words.is_diff && end.outcome == Outcome::Write
}

// Runs over one of several makefiles, and says how that ended.
fn edit_one<'a>(
    rt: &'a HostRuntime,
    words: &EditWords<'a>,
    run: Run<'_>,
    progress: &mut Progress<'_>,
    file: Input<'a>,
) -> Told
    requires { IsBadDepth run.depth → ⊥ }
{
    let makefile = match open_makefile(rt, words.output, file) {
        Ok(makefile) => makefile,
        Err(fault) => return tell_end(rt, progress, &[], &End::from(fault), words.report),
    };
    let mut report = Vec::new(rt.alloc());
    let mut lines = StdSink::new(&mut report);
    let (end, said) = run_told(rt, words, run, file, makefile, &mut lines);
    let end = end.kept(lines.failed());
    Told {
        status: tell_named(
            rt,
            progress,
            &[Some(name_of(file).as_bytes())],
            said.as_slice(),
            &mut report,
            &end,
            words.report,
        ),
        effect: end.effect,
        is_left: is_left(words, &end),
    }
}

// Says in a line of JSON what became of a makefile.
fn put_became(
    rt: &HostRuntime,
    words: &EditWords<'_>,
    file: Input<'_>,
    told: Told,
) -> Result<(), Fault> {
    let is_compared = words.output.is_compared(words.is_diff);
    let is_changed = is_compared.then_some(told.effect != Effect::Unchanged);
    let line = file_in_json(rt.alloc(), input_name(file), told.status, is_changed)?;
    write_all(&mut StdSink::new(rt.stderr()), line.as_slice())
}

/// Runs over each of several makefiles in turn. Each makefile is a run by itself: where one ends early,
/// the others go on, unless nobody reads their diffs any more. Answers the greatest of their statuses.
pub fn edit_each<'a>(rt: &'a HostRuntime, words: &EditWords<'a>, run: Run<'_>) -> ExitCode
    requires { IsBadDepth run.depth → ⊥ }
{
    let files = words.files.as_slice();
    let is_printing = matches!(words.output, Output::Standard);
    let mut progress = Progress::new(rt, files.len(), is_printing);
    let mut statuses = Statuses::new();
    let mut summary = Summary::new();
    let is_json = words.report == Report::Json;
    for (done, file) in files.iter().enumerate() {
        progress.show(done);
        let told = edit_one(rt, words, run, &mut progress, *file);
        statuses.add(told.status);
        if told.effect == Effect::Unwanted {
            statuses.add(UNWANTED_CHANGE);
        }
        summary.add(told.status, told.effect != Effect::Unchanged);
        if is_json {
            progress.wipe();
            if let Err(fault) = put_became(rt, words, *file, told) {
                statuses.add(status(&Outcome::from(fault)));
            }
        }
        if told.is_left {
            break;
        }
    }
    progress.wipe();
    if !is_json && (words.has_summary || rt.stderr().is_terminal()) {
        summary.show(rt);
    }
    statuses.code()
}
