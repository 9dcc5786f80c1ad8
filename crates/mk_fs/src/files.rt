//! Files beside the standard streams.
ghost use Rattle.std.specs.Prelude.{◌≡◌, IfOk, IfErr};

use crate::fault::{Cause, SystemFault};
use std::fs::{File, OpenOptions};
use std::io::ErrorKind;
use std::{fs, io};

// A file that is opened takes the number of a standard stream where that one is closed, and would
// then be read or written in its place. A clone has a number above theirs.
pub(crate) fn beside_standard_streams(file: File) -> io::Result<File> {
    file.try_clone()
}

/// Opens a file to be read.
///
/// # Errors
///
/// The fault of this name, of the cause [`Cause::NotOpened`].
pub fn open<'a>(rt: &HostRuntime, name: &'a str) -> Result<File, SystemFault<'a>>
    ensures name { IfErr result (λ fault. fault.name.now ≡ name.now) }
    ensures cause { IfErr result (λ fault. (kind : ErrorKind) × (fault.cause ≡ Cause.NotOpened kind)) }
{
    match File::open(rt, name).and_then(beside_standard_streams) {
        Ok(file) => Ok(file),
        Err(error) => Err(Cause::NotOpened(error.kind()).of(name)),
    }
}

/// Whether a name is that of a regular file: to open another, such as a pipe, may wait without end.
pub fn is_regular(rt: &HostRuntime, name: &str) -> bool {
    match fs::metadata(rt, name) {
        Ok(metadata) => metadata.is_file(),
        Err(_) => false,
    }
}

// Empties a file. A pipe or a device has nothing to empty, and would refuse to be cut.
fn emptied(file: File) -> io::Result<File> {
    if file.metadata()?.is_file() {
        file.set_len(0)?;
    }
    Ok(file)
}

/// A file that [`create`] has opened, with the name that it was opened under.
#[derive(Drop)]
pub struct Created<'a> {
    name: &'a str,
    file: File,
}

impl<'a> Created<'a> {
    /// The file, to be written.
    pub fn file(&self) -> &File
        ensures { result.now ≡ self.now.file }
    {
        &self.file
    }

    /// Waits until the file's bytes are on the disk. A pipe or a device has none to wait for.
    ///
    /// # Errors
    ///
    /// That of the system, which may tell only now that there is no room.
    pub fn sync(&self) -> io::Result<()> {
        match self.file.sync_all() {
            Err(error) if error.kind() == ErrorKind::InvalidInput => Ok(()),
            synced => synced,
        }
    }
}

/// Opens a file to be written, which it empties, or makes where there is none.
///
/// # Errors
///
/// That of the step that failed. The file is emptied in the last one, so a file that cannot be opened
/// keeps its bytes.
pub fn create<'a>(rt: &HostRuntime, name: &'a str) -> io::Result<Created<'a>>
    ensures { IfOk result (λ created. created.name.now ≡ name.now) }
{
    let file = OpenOptions::new().write(true).create(true).open(rt, name)?;
    let file = emptied(beside_standard_streams(file)?)?;
    Ok(Created { name, file })
}
