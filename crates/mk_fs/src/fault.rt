//! Notes: below a message, what the system said of a file or of a standard stream.
ghost use Rattle.std.specs.Prelude.{◌≡◌};

use std::io::ErrorKind;
use std::{fmt, io};

/// What standard input is called.
pub const STANDARD_INPUT: &str = "standard input";

/// What standard output is called.
pub const STANDARD_OUTPUT: &str = "standard output";

/// Why a file or a standard stream failed. It is shown in words.
#[derive(Clone, Copy)]
pub enum Cause {
    /// The system said so.
    System(ErrorKind),
    /// The system said so when it was to be opened to be read.
    NotOpened(ErrorKind),
    /// The system said so of the new file that was to take the file's place.
    NewFile(ErrorKind),
    /// The system said so of the name under which the old file was to be kept.
    OldFile(ErrorKind),
    /// It is no regular file, and had to be one.
    NotRegular,
    /// It is not the file that was read, has other bytes, or is locked.
    Changed,
    /// It took no byte of a text.
    TookNothing,
    /// It is longer than a text may be.
    TooLong,
    /// More conditionals are open in it than may be.
    TooDeep,
}

/// What failed, and why.
#[derive(Clone, Copy)]
pub struct SystemFault<'a> {
    /// The name of the file, as the command line has it, or what the stream is called.
    pub name: &'a str,
    /// Why it failed.
    pub cause: Cause,
}

impl Cause {
    /// That the file or stream of this name failed so.
    pub fn of<'a>(self, name: &'a str) -> SystemFault<'a>
        ensures name { result.name.now ≡ name.now }
        ensures cause { result.cause ≡ self }
    {
        SystemFault { name, cause: self }
    }
}

impl From<io::Error> for Cause {
    fn from(error: io::Error) -> Cause {
        Cause::System(error.kind())
    }
}

// What the system said, in words.
fn said_by(kind: ErrorKind) -> &'static str {
    match kind {
        ErrorKind::NotFound => "no such file",
        ErrorKind::PermissionDenied => "permission denied",
        ErrorKind::NotADirectory => "a part of the path is no directory",
        ErrorKind::IsADirectory => "is a directory",
        ErrorKind::AlreadyExists => "is there already",
        ErrorKind::ReadOnlyFilesystem => "the file system is read-only",
        ErrorKind::FilesystemLoop => "too many symbolic links",
        ErrorKind::BrokenPipe => "broken pipe",
        ErrorKind::StorageFull => "no space left",
        ErrorKind::QuotaExceeded => "the quota is used up",
        ErrorKind::FileTooLarge => "the file is too large",
        ErrorKind::ResourceBusy => "busy",
        ErrorKind::ExecutableFileBusy => "is a program that runs",
        ErrorKind::InvalidFilename => "the name is too long",
        ErrorKind::TooManyLinks => "too many links",
        ErrorKind::OutOfMemory => "no memory",
        _ => "unknown system error",
    }
}

impl fmt::Display for Cause {
    fn fmt<W: fmt::Write>(&self, f: &mut fmt::Formatter<W>) -> fmt::Result {
        let (part, said) = match *self {
            Cause::System(kind) | Cause::NotOpened(kind) => ("", said_by(kind)),
            Cause::NewFile(kind) => ("no new file beside it: ", said_by(kind)),
            Cause::OldFile(kind) => ("the old file is not kept: ", said_by(kind)),
            Cause::NotRegular => ("", "is no regular file"),
            Cause::Changed => (
                "",
                "is another file than was read, has other bytes, or is locked",
            ),
            Cause::TookNothing => ("", "takes nothing"),
            Cause::TooLong => ("", "more than 16,777,216 bytes"),
            Cause::TooDeep => ("", "more than 256 conditionals are open"),
        };
        write!(f, "{part}{said}")
    }
}
