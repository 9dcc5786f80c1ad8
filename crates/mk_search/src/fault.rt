//! Why there is no script that makes one makefile of another.

use mk_edit_language::Refusal;
use mk_lines::Fault;
use std::alloc::{AllocError, AllocFailed};
use thiserror::Error;

/// One of the two makefiles.
#[derive(Clone, Copy, Debug, PartialEq, Eq)]
pub enum Makefile {
    /// The makefile that the script is for.
    Old,
    /// The makefile that it makes.
    New,
}

/// Lines that no command writes.
#[derive(Clone, Copy, Debug, PartialEq, Eq)]
pub struct Unwritten {
    /// Whose lines they are: new ones, or old ones that go.
    pub makefile: Makefile,
    /// The number of the first line, from 1.
    pub first: usize,
    /// The number of the last line.
    pub last: usize,
    /// Why the last command that was tried was refused; `None` if it gave another text.
    pub refusal: Option<Refusal>,
}

impl Unwritten {
    /// Why no command writes the lines, as a message says it.
    pub fn reason(&self) -> &'static str {
        match self.refusal {
            Some(Refusal::BadArgument(_)) => {
                "a byte in them that no command takes, or a backslash at their end"
            }
            Some(Refusal::Misread) => "they open or end a conditional or a define",
            Some(Refusal::Leans) => "a line below them would be a recipe line, or would be none",
            Some(Refusal::RecipePrefix) => "the file sets .RECIPEPREFIX in a way that is not read",
            Some(Refusal::OpenLine | Refusal::OpenDefine) => "the end of the file is open",
            Some(Refusal::TooLong) => "the text would be too long",
            Some(_) => "no command finds them",
            None => "their line ends, or that of the last line",
        }
    }
}

/// Why there is no script.
#[derive(Clone, Copy, Debug, PartialEq, Eq, Error)]
pub enum DeriveError {
    /// A makefile cannot be read, or a script of this length cannot be.
    #[error("a makefile cannot be read")]
    Unread(Makefile, Fault),
    /// No command writes some lines.
    #[error("no command writes some lines")]
    NoCommand(Unwritten),
    /// The commands that were found do not make the new makefile together.
    #[error("the commands do not make the new makefile")]
    NotTried,
    /// A growth was refused: the allocator had no memory.
    #[error("no memory")]
    NoMemory,
}

impl From<AllocError> for DeriveError {
    ghost use Rattle.std.specs.Prelude.{◌≡◌};
    ghost use Rattle.mk_search.specs.declared.fault.DeriveError.TheVariants.{NoMemory};

    ghost from_gives = { λ _ error. error ≡ NoMemory };

    fn from(_refused: AllocError) -> DeriveError {
        DeriveError::NoMemory
    }
}

impl<T: Drop> From<AllocFailed<T>> for DeriveError {
    fn from(_failed: AllocFailed<T>) -> DeriveError {
        DeriveError::NoMemory
    }
}

// Of a makefile that was opened before.
impl From<Fault> for DeriveError {
    fn from(_fault: Fault) -> DeriveError {
        DeriveError::NoMemory
    }
}
