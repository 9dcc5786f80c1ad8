//! The file that a text goes to.
ghost use Rattle.std.specs.Prelude.{◌≡◌, ◌||◌, ◌≤◌, None, Some, false, is_err, length, IfOk, IfErr, IfSome, IsSomeAnd};
ghost use Rattle.mk_lines.specs.Device.{is_refused};

use crate::fault::{Cause, SystemFault};
use crate::files::{Created, create};
use crate::with_error::WithError;
use mk_lines::{ByteSink, Fault, StdSink};

/// A sink to the file of this name, which is opened and emptied at the first write or flush.
///
/// So a file to which nothing goes out stays as it was, and the file may be one that was read
/// before. One that cannot be opened is a fault of that write or flush, as a full disk is. A flush
/// waits until the bytes are on the disk.
#[derive(Drop)]
pub struct OutFile<'a> {
    rt: &'a HostRuntime,
    name: &'a str,
    file: Option<Created<'a>>,
    is_failed: bool,
    // Why it has failed, where it has.
    cause: Cause,
}

impl<'a> OutFile<'a> {
    /// A sink to the file of this name, which has not failed. It opens nothing yet.
    pub fn new(rt: &'a HostRuntime, name: &'a str) -> OutFile<'a>
        ensures name { result.name.now ≡ name.now }
        ensures closed { result.file ≡ None }
        ensures works { result.is_failed ≡ false }
    {
        OutFile {
            rt,
            name,
            file: None,
            is_failed: false,
            cause: Cause::TookNothing,
        }
    }

    /// Why the file has failed, if it has.
    pub fn fault(&self) -> Option<SystemFault<'a>> {
        if self.is_failed {
            Some(self.cause.of(self.name))
        } else {
            None
        }
    }

    // The file; it is opened and emptied where it has not been yet, and that alone can fail.
    fn take_file(&mut self) -> Result<Created<'a>, Fault>
        ensures open { IfSome self.old.file (λ file. result ≡ Ok file) }
        ensures created { self.old.file ≡ None → IfOk result (λ file. file.name.now ≡ self.old.name.now) }
        ensures fault { IfErr result (λ fault. fault ≡ Fault.Write) }
        ensures failed { self.new.is_failed ≡ (self.old.is_failed || is_err result) }
        ensures name { self.new.name ≡ self.old.name }
    {
        if let Some(file) = self.file.take() {
            return Ok(file);
        }
        match create(self.rt, self.name) {
            Ok(file) => Ok(file),
            Err(error) => {
                self.is_failed = true;
                self.cause = Cause::from(error);
                Err(Fault::Write)
            }
        }
    }
}

impl ByteSink for OutFile<'_> {
    ghost failed = { λ out. out.is_failed };

    fn write(&mut self, text: &[u8]) -> Result<usize, Fault>
        ensures bound { IfOk result (λ count. count ≤ length text.now) }
        ensures open { IfSome self.old.file (λ file. self.new.file ≡ Some file) }
        ensures created { self.old.file ≡ None → IfOk result (λ _. IsSomeAnd self.new.file (λ file. file.name.now ≡ self.old.name.now)) }
        ensures fault { IfErr result (λ fault. fault ≡ Fault.Write) }
        ensures failed { self.new.is_failed ≡ (self.old.is_failed || is_refused result text.now) }
        ensures name { self.new.name ≡ self.old.name }
    {
        let file = self.take_file()?;
        let mut device = WithError::new(file.file());
        let answer = StdSink::new(&mut device).write(text);
        self.cause = device.cause();
        self.file = Some(file);
        let is_refused = match answer {
            Ok(count) => count == 0 && !text.is_empty(),
            Err(_) => true,
        };
        self.is_failed = self.is_failed || is_refused;
        answer
    }

    fn flush(&mut self) -> Result<(), Fault>
        ensures open { IfSome self.old.file (λ file. self.new.file ≡ Some file) }
        ensures created { self.old.file ≡ None → IfOk result (λ _. IsSomeAnd self.new.file (λ file. file.name.now ≡ self.old.name.now)) }
        ensures fault { IfErr result (λ fault. fault ≡ Fault.Write) }
        ensures failed { self.new.is_failed ≡ (self.old.is_failed || is_err result) }
        ensures name { self.new.name ≡ self.old.name }
    {
        let file = self.take_file()?;
        let synced = file.sync();
        self.file = Some(file);
        self.is_failed = self.is_failed || synced.is_err();
        match synced {
            Ok(()) => Ok(()),
            Err(error) => {
                self.cause = Cause::from(error);
                Err(Fault::Write)
            }
        }
    }

    fn failed(&self) -> bool {
        self.is_failed
    }
}
