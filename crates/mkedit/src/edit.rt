//! `mkedit edit`: a script over makefiles. The script is read once.
//!
//! One makefile goes the same way as several, and the note on a bad line of the script has its
//! text. If there is one makefile, it is opened before the script is read, so that nothing is read
//! if either cannot be opened.
ghost use Rattle.std.specs.Prelude.{IfOk};
ghost use Rattle.mk_session.specs.Sessions.{IsBadDepth};

use crate::destination::{Makefile, open_makefile};
use crate::ending::{BAD_COMMAND_LINE, Effect, End, UNWANTED_CHANGE, ended};
use crate::exchanged::{tell_script, with_exchanged};
use crate::input::{open_script, script_name, text_of};
use crate::run::{Run, run_told};
use crate::several::edit_each;
use mk_cli::{EditWords, Input, Report, Summary, script_mistake};
use mk_fs::Stream;
use mk_history::history::is_bad_depth;
use mk_lines::sink::write_all;
use mk_lines::{StdSink, StdSource};
use mk_run::{Outcome, Step, read_script, status};
use std::alloc::Global;
use std::process::ExitCode;

// The command line takes the depths that a history has.
const _: () = prove!(mk_cli::MAX_DEPTH == mk_history::history::MAX_DEPTH);

// How a run over a script of this text ends that is no script, with the mistake where there are notes.
fn end_of_script<'a>(
    rt: &HostRuntime,
    words: &EditWords<'a>,
    text: &[u8],
    outcome: Outcome,
) -> End<'a> {
    match outcome {
        Outcome::NotACommand(line) if words.report != Report::Plain => {
            let mistake = script_mistake(script_name(&words.script), text, line);
            with_exchanged(rt, words, End::of(outcome).with_mistake(mistake))
        }
        outcome => End::of(outcome),
    }
}

// The steps of a script that is open; or how the run ends before them.
fn read_steps<'a>(
    rt: &HostRuntime,
    words: &EditWords<'a>,
    script: Stream<'_>,
) -> Result<Vec<Step<Global>>, End<'a>>
    ensures { IfOk result (λ _. IsBadDepth words.now.depth → ⊥) }
{
    if is_bad_depth(words.depth) {
        return Err(End::of(Outcome::BadDepth));
    }
    let text = text_of(rt, script, script_name(&words.script))?;
    match read_script(rt.alloc(), &mut StdSource::new(text.as_slice())) {
        Ok(steps) => Ok(steps),
        Err(outcome) => Err(end_of_script(rt, words, text.as_slice(), outcome)),
    }
}

// The steps of the script, and the makefile if there is one alone; a report in JSON tells one as it tells
// several. The script is opened first, then this makefile; where one of the two cannot be opened, nothing is
// read. Or how the run ends before it begins.
fn ready<'a>(
    rt: &HostRuntime,
    words: &EditWords<'a>,
) -> Result<(Vec<Step<Global>>, Option<(Input<'a>, Makefile<'a>)>), End<'a>>
    ensures { IfOk result (λ _. IsBadDepth words.now.depth → ⊥) }
{
    let script = open_script(rt, &words.script)?;
    let alone = match words.files.as_slice() {
        [file] if words.report != Report::Json => {
            Some((*file, open_makefile(rt, words.output, *file)?))
        }
        _ => None,
    };
    let steps = read_steps(rt, words, script)?;
    Ok((steps, alone))
}

/// Runs the script over the makefile, or over each of several in turn, and answers the status.
pub fn edit<'a>(rt: &'a HostRuntime, words: &EditWords<'a>) -> ExitCode {
    let (steps, alone) = match ready(rt, words) {
        Ok(ready) => ready,
        Err(end) => return ended(rt, &end, words.report),
    };
    if tell_script(rt, words) {
        return ExitCode::from(BAD_COMMAND_LINE);
    }
    let run = Run::new(rt.alloc(), words, steps.as_slice());
    let Some((file, makefile)) = alone else {
        return edit_each(rt, words, run);
    };
    let mut report = StdSink::new(rt.stderr());
    let (end, said) = run_told(rt, words, run, file, makefile, &mut report);
    let end = match write_all(&mut StdSink::new(rt.stderr()), said.as_slice()) {
        Ok(()) => end,
        Err(fault) => End::from(fault),
    };
    let code = ended(rt, &end, words.report);
    if words.has_summary {
        let mut summary = Summary::new();
        summary.add(status(&end.outcome), end.effect != Effect::Unchanged);
        summary.show(rt);
    }
    match end.effect {
        Effect::Unwanted if end.outcome == Outcome::Done => ExitCode::from(UNWANTED_CHANGE),
        _ => code,
    }
}
