//! How a run ends.
ghost use Rattle.std.specs.Prelude.{◌≡◌, false, max};
ghost use Rattle.std.specs.Process.{exit_status};
ghost use Rattle.mk_lines.specs.Device.{Writes};
ghost use Rattle.mk_run.specs.Outcome.{is_printed, message_of, outcome_of, status_of};

use mk_lines::sink::{write_all, write_parts};
use mk_lines::{ByteSink, Fault};
use std::process::ExitCode;

/// How a run ended.
#[derive(Clone, Copy, Debug, PartialEq, Eq)]
pub enum Outcome {
    /// Every command was done, and the text is out.
    Done,
    /// This many commands were refused. If the run keeps going, the text is out; otherwise the run
    /// ended at the first refusal, and nothing is out.
    Refused(u64),
    /// The script's line of this number, from 1, is no command. Nothing is out.
    NotACommand(u64),
    /// The depth is not from 1 to 10,000. Nothing was read.
    BadDepth,
    /// The script or the makefile has more than 16,777,216 bytes.
    TooLong,
    /// More than 256 conditionals of the makefile are open at once.
    TooDeep,
    /// The script or the makefile could not be read.
    Read,
    /// The text or the report could not be written or flushed. A prefix of it is out.
    Write,
    /// A growth was refused.
    NoMemory,
}

impl Outcome {
    /// Whether the text of a run that ended so is out.
    pub fn is_printed(&self, keep_going: bool) -> bool
        ensures { result ≡ is_printed self.now keep_going }
    {
        match self {
            Outcome::Done => true,
            Outcome::Refused(_) => keep_going,
            _ => false,
        }
    }
}

impl From<Fault> for Outcome {
    ghost from_gives = { λ fault outcome. outcome ≡ outcome_of fault };

    fn from(fault: Fault) -> Outcome {
        match fault {
            Fault::NoMemory => Outcome::NoMemory,
            Fault::TooLong => Outcome::TooLong,
            Fault::TooDeep => Outcome::TooDeep,
            Fault::BadDepth => Outcome::BadDepth,
            Fault::Read => Outcome::Read,
            Fault::Write => Outcome::Write,
        }
    }
}

/// The status that the program ends with: 0 done; 1 a command was refused; 2 a bad depth or
/// script; 3 a fault of reading, writing, a limit or memory. This project's profile.
pub fn status(outcome: &Outcome) -> u8
    ensures { result ≡ status_of outcome.now }
{
    match outcome {
        Outcome::Done => 0,
        Outcome::Refused(_) => 1,
        Outcome::NotACommand(_) | Outcome::BadDepth => 2,
        Outcome::TooLong | Outcome::TooDeep | Outcome::Read | Outcome::Write | Outcome::NoMemory =>
            3,
    }
}

/// The greatest of some statuses.
#[derive(Clone, Copy)]
pub struct Statuses {
    greatest: u8,
}

impl Statuses {
    /// None yet, which is as good as 0.
    pub fn new() -> Statuses
        ensures { result.greatest ≡ 0 }
    {
        Statuses { greatest: 0 }
    }

    /// With one more.
    pub fn add(&mut self, status: u8)
        ensures { self.new.greatest ≡ max self.old.greatest status }
    {
        if self.greatest < status {
            self.greatest = status;
        }
    }

    /// The greatest as the status of the program.
    pub fn code(self) -> ExitCode
        ensures { exit_status result ≡ self.greatest }
    {
        ExitCode::from(self.greatest)
    }
}

// The message on the script's line of this number, which is no command.
fn write_not_a_command<W: ByteSink>(out: &mut W, line: u64) -> Result<(), Fault>
    requires { W.failed out.old ≡ false }
    ensures { Writes W.contents W.failed W.flushes out.old out.new result
        (message_of (Outcome.NotACommand line)) }
{
    let mut digits = itoa::Buffer::new();
    let line = digits.format(line).as_bytes();
    write_parts(
        out,
        &[b"mkedit: script line ", line, b" is not a command\n"],
    )
}

/// Writes the message on an outcome: one line, with `mkedit: ` and what went wrong. There is no
/// message for Done, and none for Refused, since the report has told the refusals.
///
/// # Errors
///
/// [`Fault::Write`] if the sink failed. A prefix of the message is out then.
pub fn message<W: ByteSink>(outcome: &Outcome, out: &mut W) -> Result<(), Fault>
    requires { W.failed out.old ≡ false }
    ensures { Writes W.contents W.failed W.flushes out.old out.new result
        (message_of outcome.now) }
{
    match outcome {
        Outcome::NotACommand(line) => write_not_a_command(out, *line),
        Outcome::Done | Outcome::Refused(_) => write_all(out, b""),
        Outcome::BadDepth => write_all(out, b"mkedit: bad depth\n"),
        Outcome::TooLong => write_all(out, b"mkedit: too long\n"),
        Outcome::TooDeep => write_all(out, b"mkedit: too deep\n"),
        Outcome::Read => write_all(out, b"mkedit: read fault\n"),
        Outcome::Write => write_all(out, b"mkedit: write fault\n"),
        Outcome::NoMemory => write_all(out, b"mkedit: no memory\n"),
    }
}
