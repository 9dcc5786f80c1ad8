//! How the program ends: a message on standard error, and the status.
ghost use Rattle.std.specs.Prelude.{◌≡◌, ◌≢◌, ◌++◌, [], IfErr, OnOk, false, if◌then◌else◌};
ghost use Rattle.std.specs.Io.KnownBytes.{Appends};
ghost use Rattle.std.specs.Process.{exit_status};
ghost use Rattle.clap.specs.Values.{kind_of};
ghost use Rattle.clap.specs.declared.error.kind.ErrorKind.TheVariants.{DisplayHelp, DisplayVersion};
ghost use Rattle.mk_lines.specs.Device.{AppendsPrefix, Writes};
ghost use Rattle.mk_repl.specs.QueryTexts.{query_outcome};
ghost use Rattle.mk_run.specs.Outcome.{outcome_of, status_of};
ghost use Rattle.mkedit.specs.EndMessages.{end_message};

use mk_cli::{COMMAND_HINT, Report, ScriptMistake, is_command_word, push_mistake};
use mk_escape::{Layout, TextSink, shown_name, write_escaped, write_name};
use mk_fs::{Cause, SystemFault, WithError};
use mk_lines::sink::write_all;
use mk_lines::{ByteSink, Fault, StdSink};
use mk_notes::message_in_json;
use mk_run::{Outcome, message, status};
use std::alloc::{AllocError, Global};
use std::process::ExitCode;

/// The status of a bad command line.
pub const BAD_COMMAND_LINE: u8 = 2;

/// The status where a script would change a makefile that it is not to change.
pub const UNWANTED_CHANGE: u8 = 1;

/// How a run or a query ended.
#[derive(Clone, Copy)]
pub struct End<'a> {
    /// Its outcome.
    pub outcome: Outcome,
    /// Which file or stream failed, and why, if one did.
    pub fault: Option<SystemFault<'a>>,
    /// What is wrong with the line of the script that is no command, if that is known.
    pub mistake: Option<ScriptMistake<'a>>,
    /// What the run did.
    pub effect: Effect,
}

/// What a run did to the text of its makefile. Of a text that is printed it says nothing.
#[derive(Clone, Copy, Debug, PartialEq, Eq)]
pub enum Effect {
    /// It left the text as it was.
    Unchanged,
    /// It changed the text, or would change it.
    Changed,
    /// It would change the text, where nothing is to change.
    Unwanted,
}

impl<'a> End<'a> {
    /// An end of which no fault of the system is told, and no mistake.
    pub fn of(outcome: Outcome) -> End<'a>
        ensures { result.outcome ≡ outcome }
    {
        End {
            outcome,
            fault: None,
            mistake: None,
            effect: Effect::Unchanged,
        }
    }

    /// The end of what was printed, or ended by a fault.
    pub fn of_print(print: Result<(), Fault>) -> End<'a>
        ensures done { OnOk print (result.outcome ≡ Outcome.Done) }
        ensures fault { IfErr print (λ fault. result.outcome ≡ outcome_of fault) }
    {
        match print {
            Ok(()) => End::of(Outcome::Done),
            Err(fault) => End::from(fault),
        }
    }

    /// The same end, with this fault where it has none.
    pub fn with_fault(self, fault: Option<SystemFault<'a>>) -> End<'a>
        ensures { result.outcome ≡ self.entry.outcome }
    {
        match self.fault {
            Some(_) => self,
            None => End { fault, ..self },
        }
    }

    /// The same end, with the limit that the file of this name is beyond, if it ended so.
    pub fn with_limit(self, name: &'a str) -> End<'a>
        ensures { result.outcome ≡ self.entry.outcome }
    {
        match self.outcome {
            Outcome::TooLong => self.with_fault(Some(Cause::TooLong.of(name))),
            Outcome::TooDeep => self.with_fault(Some(Cause::TooDeep.of(name))),
            _ => self,
        }
    }

    /// The same end, of what was written into memory: a sink of memory fails for want of memory alone.
    pub fn kept(self, is_failed: bool) -> End<'a>
        ensures { result.outcome ≡ (if is_failed then Outcome.NoMemory else self.entry.outcome) }
    {
        if is_failed {
            End::of(Outcome::NoMemory)
        } else {
            self
        }
    }

    /// The same end, with this mistake of the script.
    pub fn with_mistake(self, mistake: Option<ScriptMistake<'a>>) -> End<'a>
        ensures { result.outcome ≡ self.entry.outcome }
    {
        End { mistake, ..self }
    }

    /// The same end, of a run that did this.
    pub fn with_effect(self, effect: Effect) -> End<'a>
        ensures { result.outcome ≡ self.entry.outcome }
    {
        End { effect, ..self }
    }

    // The notes on its fault and on its mistake.
    fn notes(&self, alloc: Global) -> Result<Vec<u8>, AllocError> {
        let mut notes = String::new(alloc);
        if let Some(fault) = self.fault {
            let name = &shown_name(alloc, fault.name)?;
            let cause = fault.cause;
            writeln!(notes, "{name}: note: {cause}")?;
            if is_command_word(fault.name) {
                writeln!(notes, "{name}: note: {COMMAND_HINT}")?;
            }
        }
        if let Some(found) = &self.mistake {
            push_mistake(alloc, &mut notes, found)?;
        }
        Ok(notes.into_bytes())
    }

    // The line of JSON on its message; nothing if it has none.
    fn in_json(&self, alloc: Global) -> Result<Vec<u8>, AllocError> {
        let mut message = TextSink::new(alloc);
        let _ = put_message(self, &mut message);
        if message.text.is_empty() {
            return Ok(message.text);
        }
        message_in_json(alloc, message.text.as_slice(), self.fault, self.mistake)
    }
}

impl<'a> From<Fault> for End<'a> {
    ghost from_gives = { λ fault end. end.outcome ≡ outcome_of fault };

    fn from(fault: Fault) -> End<'a> {
        End::of(Outcome::from(fault))
    }
}

impl<'a> From<SystemFault<'a>> for End<'a> {
    ghost use Rattle.mk_run.specs.declared.outcome.Outcome.TheVariants.{Read};

    ghost from_gives = { λ fault end. end.outcome ≡ Read };

    fn from(fault: SystemFault<'a>) -> End<'a> {
        End::of(Outcome::Read).with_fault(Some(fault))
    }
}

/// What a report of this form says of an end: the notes below its message, or the message as a line of JSON.
/// Nothing where memory ends.
pub fn notes_on(alloc: Global, end: &End<'_>, form: Report) -> Vec<u8>
    ensures { form ≡ Report.Plain → result.items ≡ [] }
{
    let said = match form {
        Report::Plain => Ok(Vec::new(alloc)),
        Report::Notes => end.notes(alloc),
        Report::Json => end.in_json(alloc),
    };
    match said {
        Ok(said) => said,
        Err(_) => Vec::new(alloc),
    }
}

/// Writes the message on an end: that on its outcome, unless a file could not be opened or the makefile
/// has changed meanwhile.
///
/// # Errors
///
/// [`Fault::Write`] if the sink failed. A prefix of the message is out then.
pub fn put_message<W: ByteSink>(end: &End<'_>, out: &mut W) -> Result<(), Fault>
    requires { W.failed out.old ≡ false }
    ensures { Writes W.contents W.failed W.flushes out.old out.new result (end_message end.now) }
{
    let Some(fault) = end.fault else {
        return message(&end.outcome, out);
    };
    let name = fault.name.as_bytes();
    match fault.cause {
        Cause::NotOpened(_) => write_name(out, b"mkedit: cannot open ", name, b"\n"),
        Cause::Changed => write_name(out, b"mkedit: ", name, b" has changed meanwhile\n"),
        _ => message(&end.outcome, out),
    }
}

// Writes the message on an end, and some notes below it.
fn tell<W: ByteSink>(end: &End<'_>, notes: &[u8], errors: &mut W) -> Result<(), Fault>
    requires { W.failed errors.old ≡ false }
    ensures { Writes W.contents W.failed W.flushes errors.old errors.new result
        (end_message end.now ++ notes.now) }
{
    put_message(end, errors)?;
    write_all(errors, notes)
}

// Puts the message on an end out, and some notes below it, and answers the outcome's status. A fault of
// the message changes no status.
fn told<W: ByteSink>(end: &End<'_>, notes: &[u8], errors: &mut W) -> ExitCode
    requires { W.failed errors.old ≡ false }
    ensures status { exit_status result ≡ status_of end.now.outcome }
    ensures message { W.failed errors.new ≡ false → Appends (W.contents errors.old)
        (W.contents errors.new) (end_message end.now ++ notes.now) }
    ensures prefix { AppendsPrefix (W.contents errors.old) (W.contents errors.new)
        (end_message end.now ++ notes.now) }
{
    let _ = tell(end, notes, errors);
    ExitCode::from(status(&end.outcome))
}

/// Puts the message on an end out on standard error in a report of this form, with the notes on its fault
/// and on its mistake where there are notes, and answers its status. A fault of the message changes no
/// status.
pub fn ended(rt: &HostRuntime, end: &End<'_>, form: Report) -> ExitCode
    ensures { exit_status result ≡ status_of end.now.outcome }
{
    let notes = notes_on(rt.alloc(), end, form);
    let mut errors = StdSink::new(rt.stderr());
    if form == Report::Json {
        let _ = write_all(&mut errors, notes.as_slice());
        return ExitCode::from(status(&end.outcome));
    }
    told(end, notes.as_slice(), &mut errors)
}

/// How a query or a help ends whose print ended so. Where nobody reads the output any more, it is done.
pub fn query_outcome(outcome: Outcome, is_left: bool) -> Outcome
    ensures { result ≡ query_outcome outcome is_left }
{
    match outcome {
        Outcome::Write if is_left => Outcome::Done,
        outcome => outcome,
    }
}

/// Says how a print on standard output ended, and answers its status.
pub fn printed(rt: &HostRuntime, print: Result<(), Fault>, is_left: bool) -> ExitCode
    ensures done { OnOk print (exit_status result ≡ 0) }
    ensures fault { IfErr print (λ fault. exit_status result
        ≡ status_of (query_outcome (outcome_of fault) is_left)) }
{
    let outcome = End::of_print(print).outcome;
    ended(rt, &End::of(query_outcome(outcome, is_left)), Report::Plain)
}

// Writes the text of what clap answered, which may have words of the command line in it, and flushes it
// once.
fn put_answer<W: ByteSink>(alloc: Global, answer: &clap::Error, out: &mut W) -> Result<(), Fault>
    requires { W.failed out.old ≡ false }
    ensures works { OnOk result (W.failed out.new ≡ false) }
{
    let text = format!(in alloc; "{answer}")?;
    write_escaped(out, text.as_bytes(), Layout::Kept)?;
    out.flush()
}

/// Puts the text of what clap answered out, and answers its status. Help or the version, which was
/// asked for, goes to standard output, and a fault of the command line to standard error.
pub fn answered(rt: &HostRuntime, answer: &clap::Error) -> ExitCode
    ensures { kind_of answer.now ≢ DisplayHelp → kind_of answer.now ≢ DisplayVersion →
        exit_status result ≡ BAD_COMMAND_LINE }
{
    if answer.use_stderr() {
        let _ = put_answer(rt.alloc(), answer, &mut StdSink::new(rt.stderr()));
        return ExitCode::from(BAD_COMMAND_LINE);
    }
    let mut out = WithError::new(rt.stdout());
    let print = put_answer(rt.alloc(), answer, &mut StdSink::new(&mut out));
    printed(rt, print, out.is_left())
}
