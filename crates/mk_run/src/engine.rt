//! A script over a makefile: the steps of a run, in their order.
//!
//! Every makefile is opened as a session before the commands, so that whether it is too deep does
//! not depend on the script. The session is handed back, so that a program that ends soon need not
//! free a box for each line: that would take a fifth of a run with an empty script.
ghost use Rattle.std.specs.Prelude.{◌≡◌, ◌↔◌, ◌+◌, ◌||◌, [], ◌∷◌, ℕ, IsTrue, List, Option, map, false, true, OnOk, IfOk, IfErr, IfSome};
ghost use Rattle.mk_session.specs.Sessions.{IsBadDepth};
ghost use Rattle.mk_script.specs.Scripts.{step_of};
ghost use Rattle.mk_run.specs.Outcome.{is_printed, may_report};
ghost use Rattle.mk_run.specs.Runs.{IsTooLong, ended};
ghost use Rattle.mk_run.specs.RunEnds.{IsRunOver, Leaves, PutsOut, PutsOutIf, ReadsOnce, TellsFaults, written};
ghost use Rattle.mk_run.specs.Events.{IsTold, TellsRun, TellsSteps, events};
ghost use Rattle.mk_run.specs.RunSteps.{AreExecuted, EndsSteps, GivesSession, GivesSteps, StopsMakefile, StopsScript, StopsSteps};

use crate::observer::{Observer, Reported};
use crate::outcome::Outcome;
use crate::report::report_refusal;
use crate::step::{RefusedCommand, edit_at, execute_step};
use mk_history::history::is_bad_depth;
use mk_lines::source::{BUFFER, MAX_TEXT, read_all};
use mk_lines::{ByteSink, ByteSource, Fault};
use mk_script::{ScriptFault, Step, parse_script};
use mk_session::{Command, Edit, Expected, Refusal, Session};
use std::alloc::Allocator;

/// The steps of a script, which is read to its end.
///
/// # Errors
///
/// The outcome of a run that ends here: [`Outcome::Read`] where a read answered that,
/// [`Outcome::TooLong`], [`Outcome::NotACommand`] with the first such line, or [`Outcome::NoMemory`].
pub fn read_script<A: Allocator + Copy, S: ByteSource>(
    alloc: A,
    script: &mut S,
) -> Result<Vec<Step<A>, A>, Outcome>
    requires { S.failed script.old ≡ false }
    ensures steps { IfOk result (λ steps.
        GivesSteps (S.remaining script.old) (map step_of steps.items)) }
    ensures works { OnOk result (S.failed script.new ≡ false) }
    ensures stops { IfErr result (λ outcome.
        StopsScript (S.remaining script.old) (S.failed script.new) outcome) }
    ensures script { ReadsOnce S.remaining S.ends script.old script.new (MAX_TEXT + BUFFER) }
{
    let text = match read_all(alloc, script) {
        Ok(text) => text,
        Err(fault) => return Err(Outcome::from(fault)),
    };
    match parse_script(alloc, text.as_slice()) {
        Ok(steps) => Ok(steps),
        Err(ScriptFault::NotACommand(line)) => Err(Outcome::NotACommand(line)),
        Err(ScriptFault::NoMemory) => Err(Outcome::NoMemory),
    }
}

// A session on a makefile. The makefile is read to its end.
fn open_makefile<A: Allocator + Copy, R: ByteSource>(
    alloc: A,
    makefile: &mut R,
    depth: u32,
) -> Result<Session<A>, Outcome>
    requires works { R.failed makefile.old ≡ false }
    requires depth { IsBadDepth depth → ⊥ }
    ensures opened { IfOk result (λ session.
        GivesSession (R.remaining makefile.old) depth session) }
    ensures works { OnOk result (R.failed makefile.new ≡ false) }
    ensures stops { IfErr result (λ outcome.
        StopsMakefile (R.remaining makefile.old) (R.failed makefile.new) outcome) }
    ensures makefile { ReadsOnce R.remaining R.ends makefile.old makefile.new
        (MAX_TEXT + BUFFER) }
{
    let text = match read_all(alloc, makefile) {
        Ok(text) => text,
        Err(fault) => return Err(Outcome::from(fault)),
    };
    match Session::open_vec(alloc, text, depth) {
        Ok(session) => Ok(session),
        Err(fault) => Err(Outcome::from(fault)),
    }
}

// From this number of steps on, a script is likely to have the second edit of a variable for which a
// session makes an index.
const MANY_STEPS: usize = 10;

// Tells a session what a long script will ask for. Nothing that is shown changes.
fn expect_steps<A: Allocator + Copy>(session: &mut Session<A>, steps: &[Step<A>])
    ensures { session.new.shown ≡ session.old.shown }
{
    if steps.len() >= MANY_STEPS {
        session.expect_edits(edits_of(steps));
    }
}

// Which edits some steps ask for. Of a chain it says that it asks for edits of variables and rules: a
// rename in a chain, or an edit of whole lines, has an index made that serves it.
fn edits_of<A: Allocator>(steps: &[Step<A>]) -> Expected {
    let mut expected = Expected {
        renames: false,
        lines: false,
        others: false,
    };
    for step in steps {
        let edit = match step {
            Step::Alone(numbered) => match &numbered.command {
                Command::Apply(edit) => edit,
                _ => continue,
            },
            Step::Try(tried) => &tried.edit,
            Step::Chain(_) => {
                expected.others = true;
                continue;
            }
        };
        match edit {
            Edit::RenameTarget { .. } => expected.renames = true,
            Edit::ExchangeLines { .. } => expected.lines = true,
            _ => expected.others = true,
        }
    }
    expected
}

// Executes the steps in order, and answers how many refusals were told. The line on each refusal is
// written at once.
fn execute_all<A, P, T>(
    session: &mut Session<A>,
    steps: &[Step<A>],
    keep_going: bool,
    report: &mut P,
    observer: &mut T,
) -> Result<u64, Outcome>
where
    A: Allocator + Copy,
    P: ByteSink,
    T: Observer<A>,
    requires { P.failed report.old ≡ false }
    ensures executed { IfOk result (λ refused.
        AreExecuted keep_going (map step_of steps.now) session.old.shown session.new.shown refused
        (written (P.contents report.old) (P.contents report.new))) }
    ensures works { OnOk result (P.failed report.new ≡ false) }
    ensures stops { IfErr result (λ outcome.
        StopsSteps keep_going (map step_of steps.now) session.old.shown session.new.shown
        (P.failed report.new) (written (P.contents report.old) (P.contents report.new)) outcome) }
    ensures unflushed { P.flushes report.new ≡ P.flushes report.old }
    ensures told { OnOk result (IsTold (T.told observer.old) (T.told observer.new)
        (events keep_going (map step_of steps.now) session.old.shown)) }
    ensures told_end { IfErr result (λ outcome. TellsSteps keep_going (map step_of steps.now)
        session.old.shown (T.told observer.old) (T.told observer.new) outcome) }
{
    expect_steps(session, steps);
    let mut refused = 0u64;
    for step in steps {
        let Err(told) = execute_step(session, step, observer) else {
            continue;
        };
        if let Refusal::NoMemory = told.refusal {
            return Err(Outcome::NoMemory);
        }
        match report_refusal(report, told.line, told.refusal) {
            Ok(()) => refused += 1,
            Err(fault) => return Err(Outcome::from(fault)),
        }
        tell(observer, step, told, session);
        if !keep_going {
            return Err(Outcome::Refused(refused));
        }
    }
    Ok(refused)
}

// Tells the observer of a refusal that a step came to, once its line is in the report.
fn tell<A: Allocator, T: Observer<A>>(
    observer: &mut T,
    step: &Step<A>,
    told: RefusedCommand,
    session: &Session<A>,
)
    ensures { IsTold (T.told observer.old) (T.told observer.new)
        (record { line = told.line; refusal = told.refusal; shown = session.now.shown } ∷ []) }
{
    let reported = Reported {
        line: told.line,
        edit: edit_at(step, told.line),
        refusal: told.refusal,
    };
    observer.refused(&reported, session);
}

// Ends a group that is still open, writes the text out, and flushes it once.
fn put_out<A: Allocator + Copy, W: ByteSink>(
    session: &mut Session<A>,
    out: &mut W,
) -> Result<(), Fault>
    requires { W.failed out.old ≡ false }
    ensures out { PutsOut W.contents W.failed W.flushes W.pending out.old out.new result
        (ended session.old.shown).text }
    ensures ended { session.new.shown ≡ ended session.old.shown }
{
    let _ = session.end();
    match session.doc().write_to(out) {
        Ok(()) => out.flush(),
        Err(fault) => Err(fault),
    }
}

// Executes the steps, and writes out the text that they lead to.
fn execute_and_put_out<A, W, P, T>(
    session: &mut Session<A>,
    steps: &[Step<A>],
    keep_going: bool,
    out: &mut W,
    report: &mut P,
    observer: &mut T,
) -> Outcome
where
    A: Allocator + Copy,
    W: ByteSink,
    P: ByteSink,
    T: Observer<A>,
    requires out_works { W.failed out.old ≡ false }
    requires report_works { P.failed report.old ≡ false }
    ensures ends { EndsSteps keep_going (map step_of steps.now) session.old.shown
        session.new.shown (P.failed report.new) (written (P.contents report.old) (P.contents report.new))
        (written (W.contents out.old) (W.contents out.new)) result }
    ensures reached { may_report result ≡ true }
    ensures out { PutsOutIf W.failed W.flushes W.pending out.old out.new
        (is_printed result keep_going) }
    ensures write { result ≡ Outcome.Write ↔ IsTrue (W.failed out.new || P.failed report.new) }
    ensures report { P.flushes report.new ≡ P.flushes report.old }
    ensures told { TellsSteps keep_going (map step_of steps.now) session.old.shown
        (T.told observer.old) (T.told observer.new) result }
{
    let refused = match execute_all(session, steps, keep_going, report, observer) {
        Ok(refused) => refused,
        Err(early) => return early,
    };
    match put_out(session, out) {
        Ok(()) if refused == 0 => Outcome::Done,
        Ok(()) => Outcome::Refused(refused),
        Err(fault) => Outcome::from(fault),
    }
}

/// Runs steps over a makefile, as [`run`] does from the reading of the makefile on. The depth has to be
/// from 1 to 10,000. The clause `over` holds for each script that has these steps.
pub fn run_steps<A, R, W, P, T>(
    alloc: A,
    makefile: &mut R,
    steps: &[Step<A>],
    depth: u32,
    keep_going: bool,
    out: &mut W,
    report: &mut P,
    observer: &mut T,
    kept: &mut Option<Session<A>>,
) -> Outcome
where
    A: Allocator + Copy,
    R: ByteSource,
    W: ByteSink,
    P: ByteSink,
    T: Observer<A>,
    requires makefile_works { R.failed makefile.old ≡ false }
    requires out_works { W.failed out.old ≡ false }
    requires report_works { P.failed report.old ≡ false }
    requires depth { IsBadDepth depth → ⊥ }
    ensures over { (script : Option (List ℕ)) → GivesSteps script (map step_of steps.now)
        → IsRunOver (R.remaining makefile.old) script depth keep_going
        result (P.failed report.new) (written (P.contents report.old) (P.contents report.new))
        (written (W.contents out.old) (W.contents out.new))
        × Leaves (R.remaining makefile.old) script depth keep_going
        (P.failed report.new) (written (P.contents report.old) (P.contents report.new))
        (written (W.contents out.old) (W.contents out.new)) kept.old kept.new result }
    ensures begun { (line : ℕ) → result ≡ Outcome.NotACommand line → ⊥ }
    ensures faults { TellsFaults result depth (R.failed makefile.new)
        (W.failed out.new || P.failed report.new) }
    ensures out { PutsOutIf W.failed W.flushes W.pending out.old out.new
        (is_printed result keep_going) }
    ensures unreported { may_report result ≡ false → report.new ≡ report.old }
    ensures report { P.flushes report.new ≡ P.flushes report.old }
    ensures makefile { ReadsOnce R.remaining R.ends makefile.old makefile.new
        (MAX_TEXT + BUFFER) }
    ensures told { (script : Option (List ℕ)) → GivesSteps script (map step_of steps.now)
        → TellsRun (R.remaining makefile.old) script depth keep_going
        (T.told observer.old) (T.told observer.new) result }
{
    let session = match open_makefile(alloc, makefile, depth) {
        Ok(session) => session,
        Err(outcome) => return outcome,
    };
    let session = kept.insert(session);
    execute_and_put_out(session, steps, keep_going, out, report, observer)
}

/// Runs a script over a makefile. The text after the script's commands goes to `out`, a line on each
/// refused command goes to `report`, and the session is left in `kept`.
///
/// In this order: the depth is tested; the script is read to its end and parsed whole; the makefile
/// is read to its end and opened; the steps are executed in order; a group that is still open is
/// ended; the text is written to `out` and then flushed once. A refused command changes nothing,
/// and its line is written at once; `report` is not flushed. Behind `try` and in a chain some
/// refusals are none: they are not reported. `observer` is told of each refusal once its line is
/// written, and of each edit that is made; `&mut ()` is an observer that does nothing. Each clause holds
/// whatever the observer does. `depth` is how many edits or groups can be undone.
/// Without `keep_going` the first refusal that is reported ends the run; with it, the other
/// commands are executed too. A reader is read no further once more than 16,777,216 bytes have come.
///
/// [`Outcome::NoMemory`] comes if a growth was refused. It hides what was not reached before that:
/// further bytes of a reader, a later line of the script that is no command, how deep the makefile
/// is. It never stands in the place of a command's refusal.
///
/// If the run ends before its text is written, `out` is neither written nor flushed. After a fault
/// of `out` a prefix of the text is out, and after a fault of `report` a prefix of the report.
///
/// What `kept` has after the run, with all that can be undone and redone:
///
/// - if no command was reached, what it was;
/// - if all commands were executed, the session after them, with no group open, whether the text is
///   out or not;
/// - if the run ended at a command, the session after the commands before it. A group that was open
///   stays open.
///
/// A caller who does not want the session passes `&mut None`. A session owns a box for each line,
/// so giving it up takes time: a program that ends after the run keeps it from being given up, by
/// `mem::forget`.
pub fn run<A, R, S, W, P, T>(
    alloc: A,
    makefile: &mut R,
    script: &mut S,
    depth: u32,
    keep_going: bool,
    out: &mut W,
    report: &mut P,
    observer: &mut T,
    kept: &mut Option<Session<A>>,
) -> Outcome
where
    A: Allocator + Copy,
    R: ByteSource,
    S: ByteSource,
    W: ByteSink,
    P: ByteSink,
    T: Observer<A>,
    requires makefile_works { R.failed makefile.old ≡ false }
    requires script_works { S.failed script.old ≡ false }
    requires out_works { W.failed out.old ≡ false }
    requires report_works { P.failed report.old ≡ false }
    // The run ends as the definitions say for the bytes of makefile and script, or for want of
    // memory, or because a device failed; the clause says what is out in each case.
    ensures law { IsRunOver (R.remaining makefile.old) (S.remaining script.old) depth keep_going
        result (P.failed report.new) (written (P.contents report.old) (P.contents report.new))
        (written (W.contents out.old) (W.contents out.new)) }
    // BadDepth, Read and Write come just where they belong, whatever the devices tell.
    ensures faults { TellsFaults result depth (R.failed makefile.new || S.failed script.new)
        (W.failed out.new || P.failed report.new) }
    // Unless the text is out, nothing was written or flushed; unless a command was reached, nothing
    // was reported. The report is never flushed.
    ensures out { PutsOutIf W.failed W.flushes W.pending out.old out.new
        (is_printed result keep_going) }
    ensures unreported { may_report result ≡ false → report.new ≡ report.old }
    ensures report { P.flushes report.new ≡ P.flushes report.old }
    // For a bad depth nothing is read. No makefile is read if the script has a line that is no
    // command, is too long, or could not be read.
    ensures unread { result ≡ Outcome.BadDepth
        → (script.new ≡ script.old) × (makefile.new ≡ makefile.old) }
    ensures script_first { (line : ℕ) → result ≡ Outcome.NotACommand line
        → makefile.new ≡ makefile.old }
    ensures script_long { IfSome (S.remaining script.old) (λ bytes.
        IsTooLong bytes → makefile.new ≡ makefile.old) }
    ensures script_read { S.failed script.new ≡ true → makefile.new ≡ makefile.old }
    ensures script { ReadsOnce S.remaining S.ends script.old script.new (MAX_TEXT + BUFFER) }
    ensures makefile { ReadsOnce R.remaining R.ends makefile.old makefile.new
        (MAX_TEXT + BUFFER) }
    // The session is handed back as the commands left it that were done, if one was reached.
    ensures kept { Leaves (R.remaining makefile.old) (S.remaining script.old) depth keep_going
        (P.failed report.new) (written (P.contents report.old) (P.contents report.new))
        (written (W.contents out.old) (W.contents out.new)) kept.old kept.new result }
    // If the run comes to its end, the observer was told of each refusal that is reported, in order.
    ensures told { TellsRun (R.remaining makefile.old) (S.remaining script.old) depth keep_going
        (T.told observer.old) (T.told observer.new) result }
{
    if is_bad_depth(depth) {
        return Outcome::BadDepth;
    }
    let steps = match read_script(alloc, script) {
        Ok(steps) => steps,
        Err(outcome) => return outcome,
    };
    run_steps(
        alloc,
        makefile,
        steps.as_slice(),
        depth,
        keep_going,
        out,
        report,
        observer,
        kept,
    )
}
