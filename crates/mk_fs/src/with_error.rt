//! Readers and writers of std that remember why they failed.
ghost use Rattle.std.specs.Prelude.{◌≡◌};

use crate::fault::{Cause, SystemFault};
use std::io;
use std::io::{ErrorKind, Read, Write};

/// A reader or a writer, with the kind of the last error that it answered. A call that a signal
/// interrupted, which is made again, is none.
#[derive(Drop)]
pub struct WithError<D> {
    device: D,
    error: Option<ErrorKind>,
    is_written: bool,
}

impl<D> WithError<D> {
    /// A device that has answered no error yet.
    pub fn new(device: D) -> WithError<D>
        ensures { result.device ≡ device }
    {
        WithError {
            device,
            error: None,
            is_written: false,
        }
    }

    /// Whether nobody reads any more what is written.
    pub fn is_left(&self) -> bool {
        matches!(self.error, Some(ErrorKind::BrokenPipe))
    }

    /// Whether the device took a byte.
    pub fn is_written(&self) -> bool {
        self.is_written
    }

    /// Why a device of this name failed, if it answered an error.
    pub fn fault<'a>(&self, name: &'a str) -> Option<SystemFault<'a>> {
        Some(Cause::System(self.error?).of(name))
    }

    /// Why a write failed that has failed: without an error it took nothing.
    pub fn cause(&self) -> Cause {
        match self.error {
            Some(kind) => Cause::System(kind),
            None => Cause::TookNothing,
        }
    }

    // Keeps why a call failed, if it did.
    fn keep<T>(&mut self, answer: &io::Result<T>)
        ensures { self.new.device ≡ self.old.device }
    {
        if let Err(error) = answer {
            if error.kind() != ErrorKind::Interrupted {
                self.error = Some(error.kind());
            }
        }
    }
}

impl<R: Read> Read for WithError<R> {
    ghost remaining = { λ with_error. R.remaining with_error.device };

    fn read(&mut self, buf: &mut [u8]) -> io::Result<usize> {
        let answer = self.device.read(buf);
        self.keep(&answer);
        answer
    }
}

impl<W: Write> Write for WithError<W> {
    ghost contents = { λ with_error. W.contents with_error.device };

    fn write(&mut self, buf: &[u8]) -> io::Result<usize> {
        let answer = self.device.write(buf);
        self.keep(&answer);
        self.is_written |= matches!(&answer, Ok(count) if *count > 0);
        answer
    }

    fn flush(&mut self) -> io::Result<()> {
        let answer = self.device.flush();
        self.keep(&answer);
        answer
    }
}
