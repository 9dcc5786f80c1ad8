//! A temporary file: a new file beside a makefile, which is to take the makefile's name.
//!
//! What becomes of a temporary file is told by types. Each call takes the value of the step before it, and
//! nothing outside this file makes such a value otherwise:
//!
//! | Type | Made by | Says |
//! |---|---|---|
//! | [`TemporaryFile`] | [`TemporaryFile::begin`] | there is a new file under a name of its own |
//! | [`Synced`] | [`TemporaryFile::sync`], [`Synced::keep_old`] | the temporary file's bytes are on the disk; and the old makefile is kept under another name too |
//! | [`LookedAt`] | [`Synced::look`] | after that, the makefile was found as it was expected to be |
//! | [`Persisted`] | [`LookedAt::rename`] | after that, the temporary file took the makefile's name |
//! | [`Unchanged`] | [`TemporaryFile::leave`] | the temporary file has the makefile's bytes, and its own name was taken away |
//! | [`Removed`] | [`TemporaryFile::remove`] | the temporary file's own name was taken away in place of all that |
ghost use Rattle.std.specs.Prelude.{◌≡◌, None, false, true, IfOk, IfErr, IsSomeAnd, option_map};
ghost use Rattle.std.specs.Fs.{asks_create_new, asks_write};
ghost use Rattle.mk_fs.specs.Commits.{IsLookedAt};

use super::backup::Backup;
use super::comparison::{SameBytes, same_bytes};
use super::expected::{Expected, look};
use crate::fault::Cause;
use crate::files::beside_standard_streams;
use mk_lines::StdSource;
use std::fs::{File, Metadata, OpenOptions, Permissions};
use std::io::ErrorKind;
use std::os::unix::fs::{MetadataExt, OpenOptionsExt, PermissionsExt, fchown};
use std::path::{Path, PathBuf};
use std::random::RandomSource;
use std::{fs, io};

// The mode of the new file before it has that of the makefile: what may be secret is not shown.
const FIRST_MODE: u32 = 0o600;

// The mode of any new file, of which the system takes away what the process masks.
const NEW_MODE: u32 = 0o666;

/// A new file beside a makefile, which does not have the makefile's name yet.
#[derive(Drop)]
pub struct TemporaryFile<'a> {
    // The name that the makefile was called by.
    name: &'a str,
    path: PathBuf,
    file: File,
    // Where it goes: the makefile, by a path without links.
    makefile: PathBuf,
    // Whether no file may have that path.
    is_new: bool,
}

/// A temporary file whose bytes are on the disk.
#[derive(Drop)]
pub struct Synced<'a> {
    temporary: TemporaryFile<'a>,
    // The old makefile under its second name.
    kept: Option<Backup<'a>>,
}

/// A temporary file whose bytes are on the disk, and whose makefile is as it was expected to be.
#[derive(Drop)]
pub struct LookedAt<'a> {
    synced: Synced<'a>,
    same: Option<SameBytes>,
}

/// A temporary file that could not be committed, and why.
#[derive(Drop)]
pub struct NotCommitted<'a> {
    pub temporary: TemporaryFile<'a>,
    pub cause: Cause,
}

/// What was a temporary file, and has the makefile's name.
#[derive(Drop)]
pub struct Persisted<'a> {
    temporary: TemporaryFile<'a>,
    // The suffix of the name under which the old makefile is kept.
    kept: Option<&'a str>,
    // That the makefile had the bytes that were read, where that was expected.
    same: Option<SameBytes>,
}

/// What was a temporary file with the bytes that the makefile has, and was given up for that.
#[derive(Drop)]
pub struct Unchanged<'a> {
    removed: Removed<'a>,
    same: SameBytes,
}

/// What was a temporary file, and was given up.
#[derive(Drop)]
pub struct Removed<'a> {
    temporary: TemporaryFile<'a>,
}

// How a new file is opened: one that is there already, or a link, is no new file.
fn new_file_options(mode: u32) -> OpenOptions
    ensures new { asks_create_new result ≡ true }
    ensures write { asks_write result ≡ true }
{
    let mut options = OpenOptions::new();
    options.mode(mode);
    options.write(true);
    options.create_new(true);
    options
}

// A name in the makefile's folder that nobody can take beforehand, since nobody can guess it.
fn name_beside(rt: &HostRuntime, makefile: &PathBuf) -> io::Result<PathBuf> {
    let mut random = [0u8; 8];
    rt.fill_bytes(&mut random)?;
    let number = u64::from_ne_bytes(random);
    let name = format!(in rt.alloc(); ".mkedit-{number:016x}.tmp")?;
    Ok(makefile.with_file_name(rt.alloc(), name.as_str())?)
}

// The path of a new file, and what came of a step with it. Where the step fails, no new file stays.
fn or_removed<T>(rt: &HostRuntime, path: PathBuf, step: io::Result<T>) -> io::Result<(PathBuf, T)> {
    match step {
        Ok(done) => Ok((path, done)),
        Err(error) => {
            let _ = fs::remove_file(rt, &path);
            Err(error)
        }
    }
}

// Makes a new file in the makefile's folder.
fn new_file_beside(rt: &HostRuntime, makefile: &PathBuf, mode: u32) -> io::Result<(PathBuf, File)> {
    let path = name_beside(rt, makefile)?;
    let file = new_file_options(mode).open(rt, &path)?;
    or_removed(rt, path, beside_standard_streams(file))
}

// Gives the file the owner and the group of the old one where that is allowed, and says whether it has
// that group.
fn take_owner(old: &Metadata, file: &File) -> bool {
    let group = Some(old.gid());
    fchown(file, Some(old.uid()), group).is_ok() || fchown(file, None, group).is_ok()
}

// The mode of a file that gets this mode of another, and has the other's group or not. A group that
// had no rights of its own gets those that everybody had.
fn mode_from(mode: u32, has_group: bool) -> u32
    ensures { has_group ≡ true → result ≡ mode }
{
    if has_group {
        return mode;
    }
    let of_all = mode & 0o007;
    mode & (0o5707 | of_all << 3)
}

// Gives the file the attributes of the old one. The mode comes last: until then the file is its
// owner's alone, and another owner takes some of its bits away.
fn with_attributes(old: &Metadata, file: File) -> io::Result<File> {
    let has_group = take_owner(old, &file);
    file.set_permissions(Permissions::from_mode(mode_from(old.mode(), has_group)))?;
    Ok(file)
}

// Makes a new file in the makefile's folder, with the attributes of the old one. Where they cannot be
// given, no new file stays.
fn new_file_like(
    rt: &HostRuntime,
    makefile: &PathBuf,
    old: &Metadata,
) -> io::Result<(PathBuf, File)> {
    let (path, file) = new_file_beside(rt, makefile, FIRST_MODE)?;
    or_removed(rt, path, with_attributes(old, file))
}

// Gives a new file the bytes and the attributes of another, and waits until they are on the disk.
fn copy_into(rt: &HostRuntime, from: &PathBuf, file: File) -> io::Result<()> {
    let file = with_attributes(&fs::metadata(rt, from)?, file)?;
    let mut old = beside_standard_streams(File::open(rt, from)?)?;
    io::copy(&mut old, &mut &file)?;
    file.sync_all()
}

// Makes a copy of a file in its folder.
fn copy_beside(rt: &HostRuntime, from: &PathBuf) -> io::Result<PathBuf> {
    let (path, file) = new_file_beside(rt, from, FIRST_MODE)?;
    let (path, ()) = or_removed(rt, path, copy_into(rt, from, file))?;
    Ok(path)
}

// Gives a file a second name in its folder. Where the system gives it none, a copy gets one.
pub(super) fn second_name_beside(rt: &HostRuntime, file: &PathBuf) -> io::Result<PathBuf> {
    let path = name_beside(rt, file)?;
    match fs::hard_link(rt, file, &path) {
        Ok(()) => Ok(path),
        Err(_) => copy_beside(rt, file),
    }
}

// Opens a file to be read.
fn source(rt: &HostRuntime, path: &PathBuf) -> io::Result<StdSource<File>>
    ensures { IfOk result (λ source. source.is_failed ≡ false) }
{
    Ok(StdSource::new(beside_standard_streams(File::open(rt, path)?)?))
}

// Puts the names of the makefile's folder on the disk. Where the system does not, the makefile has been
// replaced all the same.
fn sync_folder(rt: &HostRuntime, makefile: &PathBuf) {
    let folder = match makefile.parent() {
        Some(folder) if !folder.as_str().is_empty() => folder.as_str(),
        _ => ".",
    };
    if let Ok(folder) = File::open(rt, folder) {
        let _ = folder.sync_all();
    }
}

// Gives a new file a path that is free. Where the system gives a file no second name, an empty file takes
// the path first, and the new file that of the empty one.
fn take_free_path(rt: &HostRuntime, from: &PathBuf, to: &PathBuf) -> io::Result<()> {
    match fs::hard_link(rt, from, to) {
        Ok(()) => {
            let _ = fs::remove_file(rt, from);
            return Ok(());
        }
        Err(error) if error.kind() == ErrorKind::AlreadyExists => return Err(error),
        Err(_) => {}
    }
    new_file_options(NEW_MODE).open(rt, to)?;
    let renamed = fs::rename(rt, from, to);
    if renamed.is_err() {
        let _ = fs::remove_file(rt, to);
    }
    renamed
}

// Gives a temporary file the makefile's name, in one step.
fn take_name(rt: &HostRuntime, temporary: &TemporaryFile<'_>) -> Result<(), Cause> {
    let (from, to) = (&temporary.path, &temporary.makefile);
    if !temporary.is_new {
        return fs::rename(rt, from, to).map_err(|error| Cause::NewFile(error.kind()));
    }
    match take_free_path(rt, from, to) {
        Ok(()) => Ok(()),
        Err(error) if error.kind() == ErrorKind::AlreadyExists => Err(Cause::Changed),
        Err(error) => Err(Cause::NewFile(error.kind())),
    }
}

// Settles that the old makefile is kept, and answers the suffix.
fn settled<'a>(rt: &HostRuntime, kept: Option<Backup<'a>>) -> Option<&'a str>
    ensures { result ≡ option_map (λ backup. backup.suffix) kept.entry }
{
    match kept {
        Some(backup) => Some(backup.settle(rt)),
        None => None,
    }
}

impl<'a> TemporaryFile<'a> {
    /// Makes the temporary file of the makefile of this name. It is empty, and has the makefile's mode.
    /// Where nothing is expected, it has the mode of any new file.
    ///
    /// # Errors
    ///
    /// That of the step that fails; a makefile that is expected has to be a regular file. No new file
    /// stays then.
    pub fn begin(
        rt: &HostRuntime,
        name: &'a str,
        expected: Expected<'_>,
    ) -> Result<TemporaryFile<'a>, Cause>
        ensures name { IfOk result (λ temporary. temporary.name.now ≡ name.now) }
        ensures new { expected.entry ≡ Expected.Nothing → IfOk result (λ temporary. temporary.is_new ≡ true) }
    {
        match expected {
            Expected::Nothing => TemporaryFile::begin_new(rt, name),
            Expected::AnyFile | Expected::AsRead(_) => TemporaryFile::begin_like(rt, name),
        }
    }

    // Makes the temporary file of a makefile that is there.
    fn begin_like(rt: &HostRuntime, name: &'a str) -> Result<TemporaryFile<'a>, Cause>
        ensures { IfOk result (λ temporary. temporary.name.now ≡ name.now) }
    {
        let makefile = fs::canonicalize(rt, name)?;
        let old = fs::metadata(rt, &makefile)?;
        if !old.is_file() {
            return Err(Cause::NotRegular);
        }
        match new_file_like(rt, &makefile, &old) {
            Ok((path, file)) => Ok(TemporaryFile {
                name,
                path,
                file,
                makefile,
                is_new: false,
            }),
            Err(error) => Err(Cause::NewFile(error.kind())),
        }
    }

    // Makes the temporary file of a makefile that is to be new.
    fn begin_new(rt: &HostRuntime, name: &'a str) -> Result<TemporaryFile<'a>, Cause>
        ensures { IfOk result (λ temporary. (temporary.name.now ≡ name.now) × (temporary.is_new ≡ true)) }
    {
        let makefile = Path::new(name)
            .to_path_buf(rt.alloc())
            .map_err(io::Error::from)?;
        match new_file_beside(rt, &makefile, NEW_MODE) {
            Ok((path, file)) => Ok(TemporaryFile {
                name,
                path,
                file,
                makefile,
                is_new: true,
            }),
            Err(error) => Err(Cause::NewFile(error.kind())),
        }
    }

    /// The file, to be written.
    pub fn file(&self) -> &File
        ensures { result.now ≡ self.now.file }
    {
        &self.file
    }

    /// Compares the temporary file with the makefile as it is. Files that cannot be read are not the same.
    pub fn compare(&self, rt: &HostRuntime) -> Option<SameBytes> {
        let mut old = source(rt, &self.makefile).ok()?;
        let mut new = source(rt, &self.path).ok()?;
        same_bytes(&mut old, &mut new).ok()?
    }

    /// Gives up a temporary file that has the makefile's bytes, and leaves the makefile alone.
    pub fn leave(self, rt: &HostRuntime, same: SameBytes) -> Unchanged<'a>
        ensures { result.removed.temporary ≡ self.entry }
    {
        Unchanged {
            removed: self.remove(rt),
            same,
        }
    }

    /// Waits until the temporary file's bytes are on the disk.
    ///
    /// # Errors
    ///
    /// The temporary file itself, where the system does not say so.
    pub fn sync(self) -> Result<Synced<'a>, NotCommitted<'a>>
        ensures synced { IfOk result (λ synced. (synced.temporary ≡ self.entry) × (synced.kept ≡ None)) }
        ensures temporary { IfErr result (λ not_committed. not_committed.temporary ≡ self.entry) }
    {
        match self.file.sync_all() {
            Ok(()) => Ok(Synced {
                temporary: self,
                kept: None,
            }),
            Err(error) => Err(NotCommitted {
                temporary: self,
                cause: Cause::NewFile(error.kind()),
            }),
        }
    }

    /// Takes the temporary file's own name away. Where that fails the name stays.
    pub fn remove(self, rt: &HostRuntime) -> Removed<'a>
        ensures { result.temporary ≡ self.entry }
    {
        let _ = fs::remove_file(rt, &self.path);
        Removed { temporary: self }
    }
}

impl<'a> Synced<'a> {
    /// Keeps the old makefile under its name with this suffix at its end, too: in place of another
    /// file of that name, and in one step. The makefile stays.
    ///
    /// # Errors
    ///
    /// The temporary file, where the system refuses. The makefile is as it was then, and so is a file of that
    /// name.
    pub fn keep_old(self, rt: &HostRuntime, suffix: &'a str) -> Result<Synced<'a>, NotCommitted<'a>>
        ensures kept { IfOk result (λ synced. (synced.temporary ≡ self.entry.temporary) × IsSomeAnd synced.kept (λ backup. backup.suffix ≡ suffix.entry)) }
        ensures temporary { IfErr result (λ not_committed. not_committed.temporary ≡ self.entry.temporary) }
    {
        let temporary = self.temporary;
        match Backup::make(rt, &temporary.makefile, suffix) {
            Ok(backup) => Ok(Synced {
                temporary,
                kept: Some(backup),
            }),
            Err(error) => Err(NotCommitted {
                temporary,
                cause: Cause::OldFile(error.kind()),
            }),
        }
    }

    /// Looks whether what is expected still stands under the makefile's name.
    ///
    /// # Errors
    ///
    /// The temporary file, where it does not, or that cannot be known. A file whose name the old
    /// makefile has taken has it again then.
    pub fn look(
        self,
        rt: &HostRuntime,
        expected: Expected<'_>,
    ) -> Result<LookedAt<'a>, NotCommitted<'a>>
        ensures looked { IfOk result (λ looked. (looked.synced ≡ self.entry) × IsLookedAt expected.entry looked.same) }
        ensures temporary { IfErr result (λ not_committed. not_committed.temporary ≡ self.entry.temporary) }
    {
        match look(rt, &self.temporary.makefile, expected) {
            Ok(same) => Ok(LookedAt { synced: self, same }),
            Err(cause) => Err(self.given_up(rt, cause)),
        }
    }

    // Takes back that the old makefile is kept.
    fn given_up(self, rt: &HostRuntime, cause: Cause) -> NotCommitted<'a>
        ensures { result.temporary ≡ self.entry.temporary }
    {
        let Synced { temporary, kept } = self;
        if let Some(backup) = kept {
            backup.undo(rt);
        }
        NotCommitted { temporary, cause }
    }
}

impl<'a> LookedAt<'a> {
    /// Gives the temporary file the makefile's name, in one step, and puts the folder on the disk. The
    /// old file has no name any more.
    ///
    /// # Errors
    ///
    /// The temporary file, where the system refuses. The makefile is as it was then, and so is a file
    /// whose name the old makefile had taken.
    pub fn rename(self, rt: &HostRuntime) -> Result<Persisted<'a>, NotCommitted<'a>>
        ensures temporary { IfOk result (λ persisted. persisted.temporary ≡ self.entry.synced.temporary) }
        ensures kept { IfOk result (λ persisted. persisted.kept ≡ option_map (λ backup. backup.suffix) self.entry.synced.kept) }
        ensures same { IfOk result (λ persisted. persisted.same ≡ self.entry.same) }
        ensures not_committed { IfErr result (λ not_committed. not_committed.temporary ≡ self.entry.synced.temporary) }
    {
        let LookedAt { synced, same } = self;
        if let Err(cause) = take_name(rt, &synced.temporary) {
            return Err(synced.given_up(rt, cause));
        }
        sync_folder(rt, &synced.temporary.makefile);
        let Synced { temporary, kept } = synced;
        Ok(Persisted {
            temporary,
            kept: settled(rt, kept),
            same,
        })
    }
}
