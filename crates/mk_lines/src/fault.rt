ghost use Rattle.std.specs.Prelude.{◌≡◌};
ghost use Rattle.mk_lines.specs.declared.fault.Fault.TheVariants.{NoMemory};

use std::alloc::{AllocError, AllocFailed};
use thiserror::Error;

/// Why a call gave up. Each call says which of these it answers, and when.
///
/// The names and texts are this project's profile: the program prints a text after `mkedit: `.
#[derive(Clone, Copy, Debug, PartialEq, Eq, Error)]
pub enum Fault {
    /// A growth was refused: the allocator had no memory for it.
    #[error("no memory")]
    NoMemory,
    /// A text, or what an edit would make of it, has more than 16,777,216 bytes.
    #[error("too long")]
    TooLong,
    /// A 257th conditional would be open at once.
    #[error("too deep")]
    TooDeep,
    /// A history's depth is not from 1 to 10,000.
    #[error("bad depth")]
    BadDepth,
    /// A source could not give its bytes.
    #[error("read fault")]
    Read,
    /// A sink could not take all its bytes.
    #[error("write fault")]
    Write,
}

// Written by hand, and not by `#[from]`: the ghost member tells contracts which fault a `?` makes.
impl<T: Drop> From<AllocFailed<T>> for Fault {
    ghost from_gives = { λ _ fault. fault ≡ NoMemory };

    fn from(_failed: AllocFailed<T>) -> Fault {
        Fault::NoMemory
    }
}

impl From<AllocError> for Fault {
    ghost from_gives = { λ _ fault. fault ≡ NoMemory };

    fn from(_refused: AllocError) -> Fault {
        Fault::NoMemory
    }
}
