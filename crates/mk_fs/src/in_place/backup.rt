//! The second name under which an old makefile is kept.
ghost use Rattle.std.specs.Prelude.{◌≡◌, ◌++◌, IfOk};
ghost use Rattle.std.specs.Path.{path_buf_bytes};

use super::temporary::second_name_beside;
use std::alloc::AllocError;
use std::io::ErrorKind;
use std::os::unix::fs::MetadataExt;
use std::path::PathBuf;
use std::{fs, io};

// What had the path of a backup before.
#[derive(Drop)]
enum Before {
    // The makefile's own file.
    Makefile,
    // Nothing.
    Nothing,
    // Another file, which has this name too.
    Another(PathBuf),
}

/// An old makefile that is kept under a second name, and what takes that back.
#[derive(Drop)]
pub struct Backup<'a> {
    suffix: &'a str,
    path: PathBuf,
    before: Before,
}

// The path of the makefile with a suffix at its end.
fn path_with_suffix(
    rt: &HostRuntime,
    makefile: &PathBuf,
    suffix: &str,
) -> Result<PathBuf, AllocError>
    ensures { IfOk result (λ path. path_buf_bytes path ≡ path_buf_bytes makefile.now ++ suffix.now) }
{
    let mut path = String::from_str(rt.alloc(), makefile.as_path().as_str())?;
    path.push_str(suffix)?;
    PathBuf::from_str(rt.alloc(), path.as_str())
}

// What has a path now. Another file than the makefile gets a second name.
fn before_at(rt: &HostRuntime, makefile: &PathBuf, path: &PathBuf) -> io::Result<Before> {
    let found = match fs::symlink_metadata(rt, path) {
        Ok(found) => found,
        Err(error) if error.kind() == ErrorKind::NotFound => return Ok(Before::Nothing),
        Err(error) => return Err(error),
    };
    let old = fs::metadata(rt, makefile)?;
    if old.dev() == found.dev() && old.ino() == found.ino() {
        return Ok(Before::Makefile);
    }
    Ok(Before::Another(second_name_beside(rt, path)?))
}

// Gives the makefile's file a path too, which it takes from any other file in one step. A path that is
// the file's own already stays: to rename a file to itself would leave both names.
fn take_path(
    rt: &HostRuntime,
    makefile: &PathBuf,
    path: &PathBuf,
    before: &Before,
) -> io::Result<()> {
    if matches!(before, Before::Makefile) {
        return Ok(());
    }
    let second = second_name_beside(rt, makefile)?;
    let renamed = fs::rename(rt, &second, path);
    if renamed.is_err() {
        let _ = fs::remove_file(rt, &second);
    }
    renamed
}

impl<'a> Backup<'a> {
    /// Keeps the makefile under its path with a suffix at its end, too.
    ///
    /// # Errors
    ///
    /// That of the step that fails. What had that path has it then.
    pub fn make(rt: &HostRuntime, makefile: &PathBuf, suffix: &'a str) -> io::Result<Backup<'a>>
        ensures { IfOk result (λ backup. backup.suffix ≡ suffix.entry) }
    {
        let path = path_with_suffix(rt, makefile, suffix)?;
        let before = before_at(rt, makefile, &path)?;
        let taken = take_path(rt, makefile, &path, &before);
        let backup = Backup {
            suffix,
            path,
            before,
        };
        match taken {
            Ok(()) => Ok(backup),
            Err(error) => {
                backup.settle(rt);
                Err(error)
            }
        }
    }

    /// Lets what had the path before go, and answers the suffix.
    pub fn settle(self, rt: &HostRuntime) -> &'a str
        ensures { result ≡ self.entry.suffix }
    {
        if let Before::Another(second) = &self.before {
            let _ = fs::remove_file(rt, second);
        }
        self.suffix
    }

    /// Gives the path back to what had it before.
    pub fn undo(self, rt: &HostRuntime) {
        let _ = match &self.before {
            Before::Makefile => Ok(()),
            Before::Nothing => fs::remove_file(rt, &self.path),
            Before::Another(second) => fs::rename(rt, second, &self.path),
        };
    }
}
