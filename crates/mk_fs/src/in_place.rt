//! A makefile that is edited in place.
//!
//! The text goes into a new file beside the makefile. This file takes the makefile's name when the
//! text is whole and on the disk. So the name stands for the old file or for the new one at every
//! moment. Where the text is the one that the makefile has, the makefile is left alone.
//!
//! - `temporary`: the new file, and what becomes of it.
//! - `comparison`: whether its bytes are those of the makefile.
//! - `backup`: the second name under which the old makefile is kept.
//! - `expected`: whether the makefile is as it was when it was read.
ghost use Rattle.std.specs.Prelude.{◌≡◌, ◌||◌, ◌≤◌, None, Some, false, is_err, length, IfOk, IfErr, IfSome, IsSomeAnd, OnErr, OnOk, option_map};
ghost use Rattle.mk_lines.specs.Device.{is_refused};
ghost use Rattle.mk_fs.specs.Commits.{IsKeptUnder, IsLookedAt, IsReplaced, temporary_of};

mod backup;
mod comparison;
mod expected;
mod temporary;

use crate::fault::{Cause, SystemFault};
use crate::with_error::WithError;
pub use comparison::{SameBytes, same_bytes};
pub use expected::{AsRead, Expected};
use mk_lines::{ByteSink, Fault, StdSink};
pub use temporary::Removed;
use temporary::{NotCommitted, Persisted, Synced, TemporaryFile, Unchanged};

// What became of a temporary file that was written to its end.
#[derive(Drop)]
enum Committed<'a> {
    // It has the makefile's name.
    Persisted(Persisted<'a>),
    // It had the makefile's bytes.
    Unchanged(Unchanged<'a>),
}

// Makes the text sure. The old makefile is kept then, where there is a suffix for it. Where one of
// these fails, the temporary file stays one.
fn make_sure<'a>(
    rt: &HostRuntime,
    temporary: TemporaryFile<'a>,
    backup: Option<&'a str>,
) -> Result<Synced<'a>, NotCommitted<'a>>
    ensures temporary { IfOk result (λ synced. synced.temporary ≡ temporary.entry) }
    ensures kept { IfOk result (λ synced. option_map (λ kept. kept.suffix) synced.kept ≡ backup.entry) }
    ensures not_committed { IfErr result (λ not_committed. not_committed.temporary ≡ temporary.entry) }
{
    let synced = temporary.sync()?;
    match backup {
        Some(suffix) => synced.keep_old(rt, suffix),
        None => Ok(synced),
    }
}

// Makes the text sure, and puts it into the place of the makefile, which has to be as it is expected.
// The old makefile is kept before, where there is a suffix for it. Where one of these fails, the
// temporary file stays one.
fn put_into_place<'a>(
    rt: &HostRuntime,
    temporary: TemporaryFile<'a>,
    expected: Expected<'_>,
    backup: Option<&'a str>,
) -> Result<Persisted<'a>, NotCommitted<'a>>
    ensures persisted { IfOk result (λ persisted. persisted.temporary ≡ temporary.entry) }
    ensures kept { IfOk result (λ persisted. persisted.kept ≡ backup.entry) }
    ensures looked { IfOk result (λ persisted. IsLookedAt expected.entry persisted.same) }
    ensures temporary { IfErr result (λ not_committed. not_committed.temporary ≡ temporary.entry) }
{
    make_sure(rt, temporary, backup)?
        .look(rt, expected)?
        .rename(rt)
}

// Puts the text into the makefile's place, or leaves the makefile alone where that is its text.
// Where this fails, the temporary file stays one.
fn commit<'a>(
    rt: &HostRuntime,
    temporary: TemporaryFile<'a>,
    expected: Expected<'_>,
    backup: Option<&'a str>,
) -> Result<Committed<'a>, NotCommitted<'a>>
    ensures committed { IfOk result (λ committed. temporary_of committed ≡ temporary.entry) }
    ensures kept { IfOk result (IsKeptUnder backup.entry) }
    ensures replaced { IfOk result (IsReplaced expected.entry) }
    ensures temporary { IfErr result (λ not_committed. not_committed.temporary ≡ temporary.entry) }
{
    match temporary.compare(rt) {
        Some(same) => Ok(Committed::Unchanged(temporary.leave(rt, same))),
        None => Ok(Committed::Persisted(put_into_place(rt, temporary, expected, backup)?)),
    }
}

/// A sink to the makefile of this name. Its flush, which comes once and after the whole text, puts
/// the new text into the old one's place, or leaves the makefile alone where it has this text.
///
/// Without a write or a flush nothing is touched. A fault leaves the makefile as it was.
///
/// Such a sink cannot be dropped: [`InPlaceFile::close`] ends it, so no run leaves a temporary file behind.
pub struct InPlaceFile<'a, 'r> {
    rt: &'a HostRuntime,
    name: &'a str,
    // What has to stand under the name when the new text takes it.
    expected: Expected<'r>,
    // The suffix of the name under which the old makefile is kept, if it is.
    backup: Option<&'a str>,
    temporary: Option<TemporaryFile<'a>>,
    committed: Option<Committed<'a>>,
    is_failed: bool,
    // Why it has failed, where it has.
    cause: Cause,
}

impl<'a, 'r> InPlaceFile<'a, 'r> {
    /// A sink to the makefile of this name, which has not failed. It makes no file yet. The makefile is
    /// replaced only where it is as it is expected then. With a suffix the old makefile is kept under
    /// its name with this suffix at its end.
    pub fn new(
        rt: &'a HostRuntime,
        name: &'a str,
        expected: Expected<'r>,
        backup: Option<&'a str>,
    ) -> InPlaceFile<'a, 'r>
        ensures name { result.name.now ≡ name.now }
        ensures expected { result.expected ≡ expected.entry }
        ensures backup { result.backup ≡ backup.entry }
        ensures closed { result.temporary ≡ None }
        ensures not_committed { result.committed ≡ None }
        ensures works { result.is_failed ≡ false }
    {
        InPlaceFile {
            rt,
            name,
            expected,
            backup,
            temporary: None,
            committed: None,
            is_failed: false,
            cause: Cause::TookNothing,
        }
    }

    /// Why the makefile could not be written, if it has failed.
    pub fn fault(&self) -> Option<SystemFault<'a>> {
        if self.is_failed {
            Some(self.cause.of(self.name))
        } else {
            None
        }
    }

    /// Whether the makefile has a new text.
    pub fn is_replaced(&self) -> bool {
        matches!(&self.committed, Some(Committed::Persisted(_)))
    }

    /// Takes the new file away where it does not have the makefile's name.
    pub fn close(self) -> Option<Removed<'a>>
        ensures removed { IfSome self.entry.temporary (λ temporary. IsSomeAnd result (λ removed. removed.temporary ≡ temporary)) }
        ensures none { self.entry.temporary ≡ None → result ≡ None }
    {
        let InPlaceFile {
            rt,
            name: _,
            expected: _,
            backup: _,
            temporary,
            committed: _,
            is_failed: _,
            cause: _,
        } = self;
        match temporary {
            Some(temporary) => Some(temporary.remove(rt)),
            None => None,
        }
    }

    // The new file; it is made where it has not been yet, and that alone can fail.
    fn take_temporary(&mut self) -> Result<TemporaryFile<'a>, Fault>
        ensures open { IfSome self.old.temporary (λ temporary. result ≡ Ok temporary) }
        ensures begun { self.old.temporary ≡ None → IfOk result (λ temporary. temporary.name.now ≡ self.old.name.now) }
        ensures fault { IfErr result (λ fault. fault ≡ Fault.Write) }
        ensures failed { self.new.is_failed ≡ (self.old.is_failed || is_err result) }
        ensures taken { self.new.temporary ≡ None }
        ensures committed { self.new.committed ≡ self.old.committed }
        ensures name { self.new.name ≡ self.old.name }
        ensures expected { self.new.expected ≡ self.old.expected }
        ensures backup { self.new.backup ≡ self.old.backup }
    {
        if let Some(temporary) = self.temporary.take() {
            return Ok(temporary);
        }
        match TemporaryFile::begin(self.rt, self.name, self.expected) {
            Ok(temporary) => Ok(temporary),
            Err(cause) => {
                self.is_failed = true;
                self.cause = cause;
                Err(Fault::Write)
            }
        }
    }
}

impl ByteSink for InPlaceFile<'_, '_> {
    ghost failed = { λ out. out.is_failed };

    fn write(&mut self, text: &[u8]) -> Result<usize, Fault>
        ensures bound { IfOk result (λ count. count ≤ length text.now) }
        ensures temporary { IfSome self.old.temporary (λ temporary. self.new.temporary ≡ Some temporary) }
        ensures begun { self.old.temporary ≡ None → IfOk result (λ _. IsSomeAnd self.new.temporary (λ temporary. temporary.name.now ≡ self.old.name.now)) }
        ensures committed { self.new.committed ≡ self.old.committed }
        ensures fault { IfErr result (λ fault. fault ≡ Fault.Write) }
        ensures failed { self.new.is_failed ≡ (self.old.is_failed || is_refused result text.now) }
        ensures name { self.new.name ≡ self.old.name }
        ensures expected { self.new.expected ≡ self.old.expected }
        ensures backup { self.new.backup ≡ self.old.backup }
    {
        let temporary = self.take_temporary()?;
        let mut device = WithError::new(temporary.file());
        let answer = StdSink::new(&mut device).write(text);
        self.cause = device.cause();
        self.temporary = Some(temporary);
        let is_refused = match answer {
            Ok(count) => count == 0 && !text.is_empty(),
            Err(_) => true,
        };
        self.is_failed = self.is_failed || is_refused;
        answer
    }

    // Where it fails, a temporary file that was there stays, for `close`.
    fn flush(&mut self) -> Result<(), Fault>
        ensures closed { OnOk result (self.new.temporary ≡ None) }
        ensures committed { OnOk result (IfSome self.old.temporary (λ temporary. IsSomeAnd self.new.committed (λ committed. temporary_of committed ≡ temporary))) }
        ensures begun { self.old.temporary ≡ None → OnOk result (IsSomeAnd self.new.committed (λ committed. (temporary_of committed).name.now ≡ self.old.name.now)) }
        ensures kept { OnOk result (IsSomeAnd self.new.committed (IsKeptUnder self.old.backup)) }
        ensures replaced { OnOk result (IsSomeAnd self.new.committed (IsReplaced self.old.expected)) }
        ensures not_committed { OnErr result (self.new.committed ≡ self.old.committed) }
        ensures temporary { OnErr result (IfSome self.old.temporary (λ temporary. self.new.temporary ≡ Some temporary)) }
        ensures fault { IfErr result (λ fault. fault ≡ Fault.Write) }
        ensures failed { self.new.is_failed ≡ (self.old.is_failed || is_err result) }
        ensures name { self.new.name ≡ self.old.name }
        ensures expected { self.new.expected ≡ self.old.expected }
        ensures backup { self.new.backup ≡ self.old.backup }
    {
        let temporary = self.take_temporary()?;
        let committed = match commit(self.rt, temporary, self.expected, self.backup) {
            Ok(committed) => committed,
            Err(not_committed) => {
                self.temporary = Some(not_committed.temporary);
                self.cause = not_committed.cause;
                self.is_failed = true;
                return Err(Fault::Write);
            }
        };
        self.committed = Some(committed);
        Ok(())
    }

    fn failed(&self) -> bool {
        self.is_failed
    }
}
