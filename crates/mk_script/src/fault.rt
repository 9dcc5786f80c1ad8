//! Why a line gave no command.
ghost use Rattle.std.specs.Prelude.{◌≡◌};
ghost use Rattle.mk_script.specs.declared.fault.LineFault.TheVariants.{NoMemory, NotACommand};

use std::alloc::AllocError;

/// What was looked for does not stand in the line, so the line is no command.
#[derive(Clone, Copy)]
pub(crate) struct NotThere;

/// Why a line of a script gave no command.
#[derive(Clone, Copy)]
pub(crate) enum LineFault {
    /// The line is no command.
    NotACommand,
    /// The line is a command, and a growth for its texts was refused.
    NoMemory,
}

impl From<NotThere> for LineFault {
    ghost from_gives = { λ _ fault. fault ≡ NotACommand };

    fn from(_not_there: NotThere) -> LineFault {
        LineFault::NotACommand
    }
}

impl From<AllocError> for LineFault {
    ghost from_gives = { λ _ fault. fault ≡ NoMemory };

    fn from(_refused: AllocError) -> LineFault {
        LineFault::NoMemory
    }
}
