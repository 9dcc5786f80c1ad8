//! What has to stand under a makefile's name when a new file takes it.
ghost use Rattle.std.specs.Prelude.{IfOk};
ghost use Rattle.mk_fs.specs.Commits.{IsLookedAt};

use super::comparison::{SameBytes, same_bytes};
use crate::fault::Cause;
use crate::with_error::WithError;
use mk_lines::StdSource;
use std::fs;
use std::fs::{File, TryLockError};
use std::io::{ErrorKind, Seek, SeekFrom};
use std::os::unix::fs::MetadataExt;
use std::path::PathBuf;

/// A makefile as it was read.
#[derive(Clone, Copy)]
pub struct AsRead<'r> {
    /// Its file, which is still open: so the system gives its number to no other file.
    pub file: &'r File,
    /// The bytes that came of it.
    pub text: &'r [u8],
}

/// What has to stand under the makefile's name when the new file takes it.
#[derive(Clone, Copy)]
pub enum Expected<'r> {
    /// A file, whatever it has.
    AnyFile,
    /// The file that was read, with the bytes that came of it.
    AsRead(AsRead<'r>),
    /// Nothing: the makefile is to be new.
    Nothing,
}

// Reads the file again that was read, and compares its bytes.
fn compare(read: AsRead<'_>) -> Result<Option<SameBytes>, Cause> {
    let mut file = read.file;
    file.seek(SeekFrom::Start(0))?;
    let mut device = WithError::new(file);
    let again = &mut StdSource::new(&mut device);
    match same_bytes(again, &mut StdSource::new(read.text)) {
        Ok(same) => Ok(same),
        Err(_) => Err(device.cause()),
    }
}

// Whether a path names a file that is open.
fn is_named(rt: &HostRuntime, path: &PathBuf, file: &File) -> Result<bool, Cause> {
    let file = file.metadata()?;
    match fs::symlink_metadata(rt, path) {
        Ok(found) => Ok(found.dev() == file.dev() && found.ino() == file.ino()),
        Err(error) if error.kind() == ErrorKind::NotFound => Ok(false),
        Err(error) => Err(Cause::from(error)),
    }
}

/// Looks whether what is expected stands under the makefile's path. Where that is the file that was
/// read, it is locked until it is closed, so that no other run replaces it after that; and the answer
/// has the comparison. A file system without locks is no fault.
///
/// # Errors
///
/// [`Cause::Changed`] where the path names another file, or the file has other bytes or is locked by
/// another program; or what the system said where that cannot be known.
pub fn look(
    rt: &HostRuntime,
    makefile: &PathBuf,
    expected: Expected<'_>,
) -> Result<Option<SameBytes>, Cause>
    ensures { IfOk result (IsLookedAt expected.entry) }
{
    let Expected::AsRead(read) = expected else {
        return Ok(None);
    };
    if let Err(TryLockError::WouldBlock) = read.file.try_lock() {
        return Err(Cause::Changed);
    }
    match compare(read)? {
        Some(same) if is_named(rt, makefile, read.file)? => Ok(Some(same)),
        _ => Err(Cause::Changed),
    }
}
