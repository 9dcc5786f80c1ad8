//! The numbers that a call answers. `mkedit.h` has a name for each.
ghost use Rattle.std.specs.Prelude.{◌≡◌};
ghost use Rattle.mkedit_c.specs.Answers.{number_of};

use mk_run::Outcome;

/// It is done.
pub(crate) const DONE: u32 = 0;
/// A command was refused.
pub(crate) const REFUSED: u32 = 1;
/// A line of the script is no command.
pub(crate) const NOT_A_COMMAND: u32 = 2;
/// The depth is not from 1 to 10,000.
pub(crate) const BAD_DEPTH: u32 = 3;
/// A text has more bytes than the limit.
pub(crate) const TOO_LONG: u32 = 4;
/// More conditionals are open at once than the limit.
pub(crate) const TOO_DEEP: u32 = 5;
/// Memory ended. Texts in memory are read and written without a fault otherwise.
pub(crate) const NO_MEMORY: u32 = 6;
/// A buffer of the caller has too few bytes.
pub(crate) const NO_ROOM: u32 = 7;
/// No list has this number.
pub(crate) const NO_SUCH_LIST: u32 = 8;

/// The number of an outcome.
pub(crate) fn number(outcome: Outcome) -> u32
    ensures { result ≡ number_of outcome }
{
    match outcome {
        Outcome::Done => DONE,
        Outcome::Refused(_) => REFUSED,
        Outcome::NotACommand(_) => NOT_A_COMMAND,
        Outcome::BadDepth => BAD_DEPTH,
        Outcome::TooLong => TOO_LONG,
        Outcome::TooDeep => TOO_DEEP,
        Outcome::Read | Outcome::Write | Outcome::NoMemory => NO_MEMORY,
    }
}
