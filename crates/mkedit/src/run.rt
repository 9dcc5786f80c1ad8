//! The run of a script over one makefile.
ghost use Rattle.std.specs.Prelude.{◌≡◌, ◌||◌, ℕ, List, Option, false, map};
ghost use Rattle.mk_session.specs.Sessions.{IsBadDepth};
ghost use Rattle.mk_script.specs.Scripts.{step_of};
ghost use Rattle.mk_run.specs.RunEnds.{IsRunOver, TellsFaults, written};
ghost use Rattle.mk_run.specs.RunSteps.{GivesSteps};

use crate::destination::{Makefile, Printed};
use crate::diff::{DiffForm, diff_name, run_diff};
use crate::ending::{Effect, End};
use crate::input::{input_name, names_of};
use crate::observer::NotesKept;
use mk_cli::{EditWords, Input, Report, has_color};
use mk_escape::TextSink;
use mk_fs::{AsRead, Expected, InPlaceFile, OutFile, STANDARD_OUTPUT, WithError};
use mk_lines::source::read_all;
use mk_lines::{ByteSink, ByteSource, StdSink, StdSource};
use mk_run::{Observer, Outcome, Step, run_steps};
use std::alloc::Global;
use std::fs::File;
use std::io::IsTerminal;
use std::mem;

/// The steps of a script, and how they are executed.
#[derive(Clone, Copy)]
pub struct Run<'a> {
    /// Where memory comes from.
    pub alloc: Global,
    /// The steps.
    pub steps: &'a [Step<Global>],
    /// How many edits can be undone.
    pub depth: u32,
    /// Whether the commands after a refused one are executed.
    pub keep_going: bool,
}

impl<'a> Run<'a> {
    /// The run of these steps that the words ask for.
    pub fn new(alloc: Global, words: &EditWords<'_>, steps: &'a [Step<Global>]) -> Run<'a>
        ensures steps { result.steps ≡ steps.entry }
        ensures depth { result.depth ≡ words.now.depth }
        ensures keep_going { result.keep_going ≡ words.now.keep_going }
    {
        Run {
            alloc,
            steps,
            depth: words.depth,
            keep_going: words.keep_going,
        }
    }
}

/// Runs over a makefile, with the text to a sink. The session is not given up: the program ends soon,
/// and a box for each line would be given up one by one.
pub(crate) fn run_to<R, W, P, T>(
    run: Run<'_>,
    makefile: &mut R,
    out: &mut W,
    report: &mut P,
    observer: &mut T,
) -> Outcome
where
    R: ByteSource,
    W: ByteSink,
    P: ByteSink,
    T: Observer<Global>,
    requires makefile_works { R.failed makefile.old ≡ false }
    requires out_works { W.failed out.old ≡ false }
    requires report_works { P.failed report.old ≡ false }
    requires depth { IsBadDepth run.depth → ⊥ }
    ensures law { (script : Option (List ℕ)) → GivesSteps script (map step_of run.entry.steps.now)
        → IsRunOver (R.remaining makefile.old) script run.entry.depth run.entry.keep_going
        result (P.failed report.new) (written (P.contents report.old) (P.contents report.new))
        (written (W.contents out.old) (W.contents out.new)) }
    ensures faults { TellsFaults result run.entry.depth (R.failed makefile.new)
        (W.failed out.new || P.failed report.new) }
{
    let mut kept = None;
    let outcome = run_steps(
        run.alloc,
        makefile,
        run.steps,
        run.depth,
        run.keep_going,
        out,
        report,
        observer,
        &mut kept,
    );
    mem::forget(kept);
    outcome
}

// How the diff of a makefile is shown that goes to a terminal, or to something else; None where the text
// goes there.
fn form_of<'a>(
    rt: &HostRuntime,
    words: &EditWords<'_>,
    file: Input<'a>,
    is_terminal: bool,
) -> Option<DiffForm<'a>> {
    if !words.is_diff {
        return None;
    }
    Some(DiffForm {
        name: diff_name(file),
        is_terminal,
        has_color: has_color(rt, words.color, is_terminal),
    })
}

// Runs over a makefile that is open, into whose place the text goes. It is read to its end first, so that
// it is replaced only where it is still the file, with the bytes, that was read. With a suffix the old
// makefile is kept under its name with this suffix at its end.
fn replace<'a, P, T>(
    rt: &'a HostRuntime,
    run: Run<'_>,
    makefile: &File,
    name: &'a str,
    suffix: Option<&'a str>,
    report: &mut P,
    observer: &mut T,
) -> End<'a>
where
    P: ByteSink,
    T: Observer<Global>,
    requires report_works { P.failed report.old ≡ false }
    requires depth { IsBadDepth run.depth → ⊥ }
{
    let mut device = WithError::new(makefile);
    let text = match read_all(run.alloc, &mut StdSource::new(&mut device)) {
        Ok(text) => text,
        Err(fault) => return End::from(fault).with_fault(device.fault(name)),
    };
    let text = text.as_slice();
    let expected = Expected::AsRead(AsRead {
        file: makefile,
        text,
    });
    let mut out = InPlaceFile::new(rt, name, expected, suffix);
    let outcome = run_to(run, &mut StdSource::new(text), &mut out, report, observer);
    let effect = effect_of(out.is_replaced(), false);
    let end = End::of(outcome).with_fault(out.fault()).with_effect(effect);
    out.close();
    end
}

// What a run did, whose text is another than the makefile's or not.
fn effect_of(is_changed: bool, is_unwanted: bool) -> Effect {
    match (is_changed, is_unwanted) {
        (false, _) => Effect::Unchanged,
        (true, false) => Effect::Changed,
        (true, true) => Effect::Unwanted,
    }
}

// Runs over a makefile, and puts no text out. Answers also whether the text would be another.
fn try_out<R, P, T>(
    run: Run<'_>,
    makefile: &mut R,
    report: &mut P,
    observer: &mut T,
) -> (Outcome, bool)
where
    R: ByteSource,
    P: ByteSink,
    T: Observer<Global>,
    requires makefile_works { R.failed makefile.old ≡ false }
    requires report_works { P.failed report.old ≡ false }
    requires depth { IsBadDepth run.depth → ⊥ }
{
    let old = match read_all(run.alloc, makefile) {
        Ok(old) => old,
        Err(fault) => return (Outcome::from(fault), false),
    };
    let mut text = TextSink::new(run.alloc);
    let mut source = StdSource::new(old.as_slice());
    let outcome = run_to(run, &mut source, &mut text, report, observer);
    if text.is_failed {
        return (Outcome::NoMemory, false);
    }
    (outcome, text.text.as_slice() != old.as_slice())
}

// Runs over a makefile that is open, and puts the text, or its diff, where it goes.
fn run_over<'a, P, T>(
    rt: &'a HostRuntime,
    words: &EditWords<'_>,
    run: Run<'_>,
    file: Input<'a>,
    makefile: Makefile<'a>,
    report: &mut P,
    observer: &mut T,
) -> End<'a>
where
    P: ByteSink,
    T: Observer<Global>,
    requires report_works { P.failed report.old ≡ false }
    requires depth { IsBadDepth run.depth → ⊥ }
{
    let (stream, to) = match makefile {
        Makefile::Printed(stream, to) => (stream, to),
        Makefile::InPlace(makefile, name, suffix) => {
            let end = replace(rt, run, &makefile, name, suffix, report, observer);
            return end.with_limit(name);
        }
    };
    let mut device = WithError::new(stream);
    let source = &mut StdSource::new(&mut device);
    let end = match to {
        Printed::File(name) => {
            let mut out = OutFile::new(rt, name);
            let form = form_of(rt, words, file, false);
            let outcome = match form {
                Some(form) => run_diff(run, form, source, &mut out, report, observer),
                None => run_to(run, source, &mut out, report, observer),
            };
            End::of(outcome).with_fault(out.fault())
        }
        Printed::Standard => {
            let mut stdout = WithError::new(rt.stdout());
            let mut out = StdSink::new(&mut stdout);
            let form = form_of(rt, words, file, rt.stdout().is_terminal());
            let outcome = match form {
                Some(form) => run_diff(run, form, source, &mut out, report, observer),
                None => run_to(run, source, &mut out, report, observer),
            };
            let effect = effect_of(stdout.is_written(), words.wants_no_change);
            End::of(outcome)
                .with_fault(stdout.fault(STANDARD_OUTPUT))
                .with_effect(effect)
        }
        Printed::Nowhere => {
            let (outcome, is_changed) = try_out(run, source, report, observer);
            End::of(outcome).with_effect(effect_of(is_changed, false))
        }
    };
    let name = input_name(file);
    end.with_fault(device.fault(name)).with_limit(name)
}

/// Runs over a makefile that is open, puts the text, or its diff, where it goes, and reports in plain lines
/// where the words ask for these. Elsewhere there is no report: it answers why a command is refused, and why
/// an edit that is made may do nothing in make.
pub fn run_told<'a, P: ByteSink>(
    rt: &'a HostRuntime,
    words: &EditWords<'a>,
    run: Run<'_>,
    file: Input<'a>,
    makefile: Makefile<'a>,
    report: &mut P,
) -> (End<'a>, Vec<u8>)
    requires report_works { P.failed report.old ≡ false }
    requires depth { IsBadDepth run.depth → ⊥ }
{
    if words.report == Report::Plain {
        let end = run_over(rt, words, run, file, makefile, report, &mut ());
        return (end, Vec::new(rt.alloc()));
    }
    let mut unsaid = TextSink::new(rt.alloc());
    let mut observer = NotesKept::new(rt.alloc(), names_of(words, file));
    let end = run_over(rt, words, run, file, makefile, &mut unsaid, &mut observer);
    let NotesKept { text, is_full, .. } = observer;
    (end.kept(unsaid.is_failed || is_full), text)
}
