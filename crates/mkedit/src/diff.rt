//! `mkedit edit --diff`: the diff of a makefile and of the text that a script makes of it, in place
//! of that text.
ghost use Rattle.std.specs.Prelude.{◌≡◌, ◌≢◌, ◌||◌, ◌≤◌, List, Option, Some, false, true, is_err, length, map, IfOk, IfErr, OnOk, ℕ};
ghost use Rattle.std.specs.Io.KnownBytes.{Appends, Keeps};
ghost use Rattle.mk_lines.specs.Device.{AppendsPrefix};
ghost use Rattle.mk_run.specs.Outcome.{is_printed};
ghost use Rattle.mk_run.specs.RunEnds.{IsOut, written};
ghost use Rattle.mk_run.specs.RunSteps.{GivesSteps};
ghost use Rattle.mk_script.specs.Scripts.{step_of};
ghost use Rattle.mk_session.specs.Sessions.{IsBadDepth};
ghost use Rattle.mk_lines.specs.PhysicalLines.{physical_lines};
ghost use Rattle.mk_diff.specs.HunkTexts.{diff_text};
ghost use Rattle.mk_diff.specs.Hunks.{Hunk, IsDiff};
ghost use Rattle.mk_diff.specs.PaintedDiffs.{shown_diff};
ghost use Rattle.mk_escape.specs.Escapes.{shown_text};
ghost use Rattle.mkedit.specs.DiffRuns.{IsDiffRun};

use crate::run::{Run, run_to};
use mk_cli::Input;
use mk_diff::{diff, patch_name, shown};
use mk_escape::{TextSink, shown_text};
use mk_lines::sink::write_all;
use mk_lines::source::read_all;
use mk_lines::{ByteSink, ByteSource, Fault, StdSource};
use mk_run::{Observer, Outcome};
use std::alloc::{Allocator, Global};

/// How a diff is shown.
#[derive(Clone, Copy)]
pub(crate) struct DiffForm<'a> {
    /// The name of the makefile in it.
    pub name: &'a [u8],
    /// Whether it goes to a terminal, where control characters are escaped.
    pub is_terminal: bool,
    /// Whether it has colours.
    pub has_color: bool,
}

/// The name of the makefile in a diff: as `patch` takes it. Standard input is `-`.
pub(crate) fn diff_name<'a>(file: Input<'a>) -> &'a [u8] {
    match file {
        Input::File(name) => patch_name(name.as_bytes()),
        Input::Standard => b"-",
    }
}

// The text of a diff that goes out, and is flushed.
fn put_out<W: ByteSink>(out: &mut W, text: &[u8]) -> Result<(), Fault>
    requires { W.failed out.old ≡ false }
    ensures whole { OnOk result (Appends (W.contents out.old) (W.contents out.new) text.now) }
    ensures fault { IfErr result (λ fault. fault ≡ Fault.Write) }
{
    write_all(out, text)?;
    out.flush()
}

// The diff of two texts, as it goes out.
fn shown_diff<A: Allocator + Copy>(
    alloc: A,
    old: &[u8],
    text: &[u8],
    form: DiffForm<'_>,
) -> Result<Vec<u8, A>, Fault>
    ensures { IfOk result (λ shown. (hunks : List Hunk)
        × IsDiff (physical_lines old.now) (physical_lines text.now) hunks
        × (shown.items ≡ shown_diff form.entry.has_color
        (shown_text form.entry.is_terminal (diff_text form.entry.name.now hunks)))) }
{
    let diff = diff(alloc, old, text, form.name)?;
    let diff = shown_text(alloc, diff, form.is_terminal)?;
    shown(alloc, diff, form.has_color)
}

// Puts out the diff of a makefile and of the text that a run wrote into memory, where a run that ended
// so puts its text out; and says how it ends then.
fn put_diff<A, W>(
    alloc: A,
    keep_going: bool,
    form: DiffForm<'_>,
    old: &[u8],
    sink: &TextSink<A>,
    outcome: Outcome,
    out: &mut W,
) -> Outcome
where
    A: Allocator + Copy,
    W: ByteSink,
    requires { W.failed out.old ≡ false }
    ensures same { is_printed result keep_going ≡ true → result ≡ outcome }
    ensures is_out { is_printed result keep_going ≡ true → (hunks : List Hunk)
        × IsDiff (physical_lines old.now) (physical_lines sink.now.text.items) hunks
        × IsOut (written (W.contents out.old) (W.contents out.new))
        (shown_diff form.entry.has_color
        (shown_text form.entry.is_terminal (diff_text form.entry.name.now hunks))) }
    ensures unprinted { is_printed result keep_going ≡ false → result ≢ Outcome.Write
        → out.new ≡ out.old }
{
    if sink.is_failed {
        return Outcome::NoMemory;
    }
    if !outcome.is_printed(keep_going) {
        return outcome;
    }
    let Ok(text) = shown_diff(alloc, old, &sink.text, form) else {
        return Outcome::NoMemory;
    };
    match put_out(out, &text) {
        Ok(()) => outcome,
        Err(_) => Outcome::Write,
    }
}

/// Runs over a makefile, and puts the diff of the makefile and the text out in place of the text. Where
/// the text would not go out, nothing does.
pub(crate) fn run_diff<R, W, P, T>(
    run: Run<'_>,
    form: DiffForm<'_>,
    makefile: &mut R,
    out: &mut W,
    report: &mut P,
    observer: &mut T,
) -> Outcome
where
    R: ByteSource,
    W: ByteSink,
    P: ByteSink,
    T: Observer<Global>,
    requires makefile_works { R.failed makefile.old ≡ false }
    requires report_works { P.failed report.old ≡ false }
    requires out_works { W.failed out.old ≡ false }
    requires depth { IsBadDepth run.depth → ⊥ }
    ensures law { is_printed result run.entry.keep_going ≡ true
        → (script : Option (List ℕ)) → GivesSteps script (map step_of run.entry.steps.now)
        → IsDiffRun (R.remaining makefile.old) script run.entry.depth
        run.entry.keep_going form.entry.name.now form.entry.is_terminal form.entry.has_color
        result (P.failed report.new)
        (written (P.contents report.old) (P.contents report.new))
        (written (W.contents out.old) (W.contents out.new)) }
    ensures unprinted { is_printed result run.entry.keep_going ≡ false → result ≢ Outcome.Write
        → out.new ≡ out.old }
{
    let old = match read_all(run.alloc, makefile) {
        Ok(old) => old,
        Err(fault) => return Outcome::from(fault),
    };
    let mut sink = TextSink::new(run.alloc);
    let mut source = StdSource::new(old.as_slice());
    let outcome = run_to(run, &mut source, &mut sink, report, observer);
    put_diff(run.alloc, run.keep_going, form, &old, &sink, outcome, out)
}
