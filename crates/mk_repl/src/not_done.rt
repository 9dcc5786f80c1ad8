//! Why a request is not done, and what is said of that.
ghost use Rattle.std.specs.Prelude.{◌≡◌, List, ℕ, false};
ghost use Rattle.mk_lines.specs.Device.{Writes};
ghost use Rattle.mk_repl.specs.SessionFaults.{fault_text, said_text};
ghost use Rattle.mk_repl.specs.declared.not_done.NotDone.TheVariants.{NoMemory};

use mk_escape::write_name;
use mk_lines::sink::write_all;
use mk_lines::{ByteSink, Fault};
use mk_run::write_refusal;
use mk_session::Refusal;
use std::alloc::AllocError;

/// Why a request is not done.
#[derive(Clone, Copy)]
pub enum NotDone {
    /// The line is no command and no request.
    NotACommand,
    /// A growth was refused.
    NoMemory,
    /// The session refuses it.
    Refused(Refusal),
    /// The word calls no refusal.
    NoRefusal,
    /// The word is that of no command of a script.
    NoCommand,
    /// The makefile could not be read again.
    CannotRead,
    /// The makefile could not be written.
    CannotWrite,
    /// The makefile has other bytes than the session has left there.
    HasChanged,
    /// More was made than the depth keeps: the text is not the one that was opened.
    BeyondDepth,
    /// There are changes that are not in the makefile.
    Unwritten,
}

impl From<AllocError> for NotDone {
    ghost from_gives = { λ _ not_done. not_done ≡ NoMemory };

    fn from(_refused: AllocError) -> NotDone {
        NotDone::NoMemory
    }
}

// What a reply says of a request that is not done.
#[derive(Clone, Copy)]
enum Said {
    // What a report says of a refusal.
    Refusal(Refusal),
    // A text.
    Text(&'static [u8]),
    // A text, the name of a file, and another text.
    Named(&'static [u8], &'static [u8]),
}

// What a reply says of a request that is not done.
fn said_of(not_done: NotDone) -> Said
    ensures { (name : List ℕ) → said_text result name ≡ fault_text not_done name }
{
    match not_done {
        NotDone::Refused(refusal) => Said::Refusal(refusal),
        NotDone::NotACommand => Said::Text(b"fault not a command\n"),
        NotDone::NoMemory => Said::Text(b"fault no memory\n"),
        NotDone::NoRefusal => Said::Text(b"fault no such refusal\n"),
        NotDone::NoCommand => Said::Text(b"fault no such command\n"),
        NotDone::CannotRead => Said::Named(b"fault cannot read ", b"\n"),
        NotDone::CannotWrite => Said::Named(b"fault cannot write ", b"\n"),
        NotDone::HasChanged => Said::Named(b"fault ", b" has changed\n"),
        NotDone::BeyondDepth => Said::Text(b"fault edits beyond the depth\n"),
        NotDone::Unwritten => Said::Text(b"fault unwritten changes\n"),
    }
}

/// Writes the reply on a request that is not done, with the name of a makefile, whose control characters are
/// escaped: a reply is one line.
///
/// # Errors
///
/// [`Fault::Write`] if the sink failed. A prefix of the reply is out then.
pub fn put_fault<W: ByteSink>(not_done: NotDone, name: &[u8], out: &mut W) -> Result<(), Fault>
    requires { W.failed out.old ≡ false }
    ensures { Writes W.contents W.failed W.flushes out.old out.new result
        (fault_text not_done name.now) }
{
    match said_of(not_done) {
        Said::Refusal(refusal) => write_refusal(out, refusal),
        Said::Text(text) => write_all(out, text),
        Said::Named(before, behind) => write_name(out, before, name, behind),
    }
}
