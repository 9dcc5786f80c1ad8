//! A command, and the reply to it: a line, and below it the lines of its blocks.
//!
//! A comment and a blank line have no reply, as they have no line in a report.
ghost use Rattle.std.specs.Prelude.{◌≡◌, ℕ, List, false, true, map, IfErr, IfOk, OnOk};
ghost use Rattle.mk_run.specs.RunEnds.{IsOut, IsPrefixOut, written};
ghost use Rattle.mk_lines.specs.Device.{Writes};
ghost use Rattle.mk_history.specs.Shown.{Shown};
ghost use Rattle.mk_script.specs.Scripts.{IsScriptFault, step_of};
ghost use Rattle.mk_repl.specs.Replies.{AreExecuted, IsAnswered, IsLineExecuted, came_of, refused_reply, reply_to};

use mk_lines::sink::write_all;
use mk_lines::{ByteSink, Fault};
use mk_run::{
    Observer, RefusedCommand, ScriptFault, Step, execute_step, parse_script, write_refusal,
};
use mk_session::{Refusal, Session};
use std::alloc::Allocator;

/// What a line was to a session.
#[derive(Clone, Copy, Debug, PartialEq, Eq)]
pub enum Handled {
    /// A command, with or without `try` before it. It was executed, and a reply says what came of it.
    Command,
    /// A comment, or a line of blanks only. There is no reply.
    Nothing,
    /// No command of a script that can stand alone: there is no reply. It may be a request that the
    /// caller knows.
    NoCommand,
}

/// What came of a line in a session.
#[derive(Clone, Copy, Debug, PartialEq, Eq)]
pub enum Executed {
    /// The command was done, or behind `try` there was nothing to do.
    Done,
    /// The command was refused, and nothing has changed. [`Refusal::NoMemory`] says that a growth was
    /// refused.
    Refused(Refusal),
    /// The line is a comment, or has blanks only.
    Nothing,
    /// The line is no command of a script that can stand alone.
    NoCommand,
}

// What came of a step that was executed.
pub(crate) fn came_of(executed: Result<(), RefusedCommand>) -> Executed
    ensures { result ≡ came_of executed }
{
    match executed {
        Ok(()) => Executed::Done,
        Err(refused) => Executed::Refused(refused.refusal),
    }
}

// Executes the steps of a line, of which there may be one.
fn execute_only<A: Allocator + Copy, T: Observer<A>>(
    session: &mut Session<A>,
    steps: &[Step<A>],
    observer: &mut T,
) -> Executed
    ensures { AreExecuted (map step_of steps.now) session.old.shown session.new.shown result }
{
    match steps {
        [] => Executed::Nothing,
        [step] => came_of(execute_step(session, step, observer)),
        _ => Executed::NoCommand,
    }
}

// What comes of a line that is not read for this fault.
pub(crate) fn unread(fault: ScriptFault) -> Executed
    ensures { (line : List ℕ) (shown : Shown (List ℕ)) → IsScriptFault line fault
        → IsLineExecuted line shown shown result }
{
    match fault {
        ScriptFault::NotACommand(_) => Executed::NoCommand,
        ScriptFault::NoMemory => Executed::Refused(Refusal::NoMemory),
    }
}

/// Executes the command of a line, and says what came of it. The line is one of a script: its line end
/// is LF, CR LF or none. Below it may stand the lines of its blocks, and no others. It may begin with
/// `try`; `or` needs the lines above it, and is no command here. `observer` is told of each edit that is
/// made.
pub fn execute_line<A, T>(
    alloc: A,
    session: &mut Session<A>,
    line: &[u8],
    observer: &mut T,
) -> Executed
where
    A: Allocator + Copy,
    T: Observer<A>,
    ensures { IsLineExecuted line.now session.old.shown session.new.shown result }
{
    match parse_script(alloc, line) {
        Ok(steps) => execute_only(session, steps.as_slice(), observer),
        Err(fault) => unread(fault),
    }
}

/// Executes the command of a line as [`execute_line`] does, and writes the reply to it. Nothing is flushed.
///
/// | Reply | When |
/// |---|---|
/// | `ok` | the command was done, or behind `try` there was nothing to do |
/// | `refused`, the number and the name of the refusal, and its count or field | the command was refused, and nothing has changed |
/// | `fault no memory` | a growth was refused, and nothing has changed |
///
/// # Errors
///
/// [`Fault::Write`] if the sink failed. The command was executed as without the fault, and a prefix of
/// the reply is out.
pub fn answer_line<A, W, T>(
    alloc: A,
    session: &mut Session<A>,
    line: &[u8],
    out: &mut W,
    observer: &mut T,
) -> Result<Handled, Fault>
where
    A: Allocator + Copy,
    W: ByteSink,
    T: Observer<A>,
    requires { W.failed out.old ≡ false }
    ensures answered { IfOk result (λ handled.
        IsAnswered line.now session.old.shown session.new.shown
        (λ reply. IsOut (written (W.contents out.old) (W.contents out.new)) reply) handled) }
    ensures cut { IfErr result (λ fault.
        IsAnswered line.now session.old.shown session.new.shown
        (λ reply. IsPrefixOut (written (W.contents out.old) (W.contents out.new)) reply)
        Handled.Command) }
    ensures fault { IfErr result (λ fault. (fault ≡ Fault.Write) × (W.failed out.new ≡ true)) }
    ensures works { OnOk result (W.failed out.new ≡ false) }
    ensures unflushed { W.flushes out.new ≡ W.flushes out.old }
{
    match execute_line(alloc, session, line, observer) {
        Executed::Done => {
            write_reply(Executed::Done, out)?;
            Ok(Handled::Command)
        }
        Executed::Refused(refusal) => {
            write_reply(Executed::Refused(refusal), out)?;
            Ok(Handled::Command)
        }
        Executed::Nothing => Ok(Handled::Nothing),
        Executed::NoCommand => Ok(Handled::NoCommand),
    }
}

// Writes the reply to a command that was refused.
fn write_refused<W: ByteSink>(refusal: Refusal, out: &mut W) -> Result<(), Fault>
    requires { W.failed out.old ≡ false }
    ensures { Writes W.contents W.failed W.flushes out.old out.new result (refused_reply refusal) }
{
    match refusal {
        Refusal::NoMemory => write_all(out, b"fault no memory\n"),
        refusal => write_refusal(out, refusal),
    }
}

/// Writes the reply to what came of a line: that of [`answer_line`] to a command, and nothing else.
///
/// # Errors
///
/// [`Fault::Write`] if the sink failed. A prefix of the reply is out then.
pub fn write_reply<W: ByteSink>(executed: Executed, out: &mut W) -> Result<(), Fault>
    requires { W.failed out.old ≡ false }
    ensures { Writes W.contents W.failed W.flushes out.old out.new result (reply_to executed) }
{
    match executed {
        Executed::Done => write_all(out, b"ok\n"),
        Executed::Refused(refusal) => write_refused(refusal, out),
        Executed::Nothing | Executed::NoCommand => write_all(out, b""),
    }
}
