//! The file of a makefile that is open.
ghost use Rattle.std.specs.Prelude.{◌≡◌, false};

use crate::not_done::NotDone;
use mk_fs::{Cause, Expected, InPlaceFile, SystemFault, is_regular, open, same_bytes};
use mk_lines::sink::write_all;
use mk_lines::{ByteSink, StdSource};
use std::fs;
use std::fs::File;
use std::io::ErrorKind;

/// Looks whether the file of this name has these bytes, and answers the file, which is open.
///
/// # Errors
///
/// [`NotDone::HasChanged`] if it has others; [`NotDone::CannotRead`] if it is no regular file, or cannot
/// be opened or read.
pub fn look(rt: &HostRuntime, name: &str, bytes: &[u8]) -> Result<File, NotDone> {
    if !is_regular(rt, name) {
        return Err(NotDone::CannotRead);
    }
    let Ok(file) = open(rt, name) else {
        return Err(NotDone::CannotRead);
    };
    match same_bytes(&mut StdSource::new(&file), &mut StdSource::new(bytes)) {
        Ok(Some(_)) => Ok(file),
        Ok(None) => Err(NotDone::HasChanged),
        Err(_) => Err(NotDone::CannotRead),
    }
}

// Writes a text, and puts it into the place of a makefile.
fn fill<W: ByteSink>(file: &mut W, text: &[u8]) -> bool
    requires { W.failed file.old ≡ false }
{
    match write_all(file, text) {
        Ok(()) => file.flush().is_ok(),
        Err(_) => false,
    }
}

/// Puts a text into the place of the makefile of this name, in one step, if it is as it is expected.
///
/// # Errors
///
/// [`NotDone::HasChanged`] if it is not; [`NotDone::CannotWrite`]. The makefile is as it was then.
pub fn put<'a>(
    rt: &'a HostRuntime,
    name: &'a str,
    expected: Expected<'_>,
    text: &[u8],
) -> Result<(), NotDone> {
    let mut file = InPlaceFile::new(rt, name, expected, None);
    let is_written = fill(&mut file, text);
    let fault = file.fault();
    file.close();
    match fault {
        _ if is_written => Ok(()),
        Some(
            SystemFault {
                cause: Cause::Changed,
                ..
            },
        ) => Err(NotDone::HasChanged),
        _ => Err(NotDone::CannotWrite),
    }
}

/// Looks whether there is no file of this name.
///
/// # Errors
///
/// [`NotDone::HasChanged`] if there is one, or something else of that name.
pub fn look_missing(rt: &HostRuntime, name: &str) -> Result<(), NotDone> {
    match fs::symlink_metadata(rt, name) {
        Err(error) if error.kind() == ErrorKind::NotFound => Ok(()),
        _ => Err(NotDone::HasChanged),
    }
}

/// Puts a text into the place of the file of this name, in one step. A file that is missing is made, with
/// the whole text.
///
/// # Errors
///
/// [`NotDone::HasChanged`] if a file that was missing is there by then; [`NotDone::CannotWrite`]. The
/// file is as it was then, and missing if it was missing.
pub fn put_or_make<'a>(rt: &'a HostRuntime, name: &'a str, text: &[u8]) -> Result<(), NotDone> {
    let expected = match look_missing(rt, name) {
        Ok(()) => Expected::Nothing,
        Err(_) => Expected::AnyFile,
    };
    put(rt, name, expected, text)
}
