//! Where bytes go to.
ghost use Rattle.std.specs.Prelude.{◌≡◌, ◌||◌, ◌≤◌, ℕ, Bool, List, Option, None, true, false, is_err, is_ok, length, IfOk, IfErr};
ghost use Rattle.std.specs.Io.KnownBytes.{Keeps, WriteAppends};
ghost use Rattle.mk_lines.specs.Device.{Writes, count_if, count_more, is_refused, reset_if, count_taken, text_of_parts};

use crate::fault::Fault;
use std::io::{ErrorKind, Write};

/// Takes bytes, a few at a time.
pub trait ByteSink {
    // The bytes that are out, if the sink tells them. The default tells nothing.
    ghost contents: { Self → Option (List ℕ) } = { λ _. None };

    // Whether a call has answered a fault, or a write has taken no byte of a text that is not
    // empty.
    ghost failed: { Self → Bool };

    // How many flushes have succeeded, if the sink tells that. The default tells nothing.
    ghost flushes: { Self → Option ℕ } = { λ _. None };

    // How many bytes were taken since the last flush that succeeded, if the sink tells that. The
    // default tells nothing.
    ghost pending: { Self → Option ℕ } = { λ _. None };

    /// Takes some bytes from the front of `text`, and says how many bytes it took.
    ///
    /// The only fault is [`Fault::Write`]; a call that answers it takes no byte. A sink that takes
    /// no byte of a text that is not empty has failed.
    fn write(&mut self, text: &[u8]) -> Result<usize, Fault>
        ensures bound { IfOk result (λ n. n ≤ length text.now) }
        ensures bytes { WriteAppends (contents self.old) (contents self.new) result text.now }
        ensures fault { IfErr result (λ e. e ≡ Fault.Write) }
        ensures failed { failed self.new ≡ (failed self.old || is_refused result text.now) }
        ensures flushes { flushes self.new ≡ flushes self.old }
        ensures pending { pending self.new ≡ count_more (pending self.old) (count_taken result) };

    /// Passes on the bytes that were taken and are still held back. The only fault is
    /// [`Fault::Write`].
    fn flush(&mut self) -> Result<(), Fault>
        ensures bytes { Keeps (contents self.old) (contents self.new) }
        ensures fault { IfErr result (λ e. e ≡ Fault.Write) }
        ensures failed { failed self.new ≡ (failed self.old || is_err result) }
        ensures flushes { flushes self.new ≡ count_if (is_ok result) (flushes self.old) }
        ensures pending { pending self.new ≡ reset_if (is_ok result) (pending self.old) };

    /// Whether a call has answered a fault, or a write has taken no byte of a text that is not
    /// empty.
    fn failed(&self) -> bool
        ensures { result ≡ failed self.now };
}

/// A writer of std as a sink.
///
/// It tells the bytes that the writer tells. It tells no flushes, since std's writers tell nothing
/// of them. A write or a flush that a signal interrupted, which has taken no byte, is made again;
/// any other error is [`Fault::Write`].
#[derive(Drop)]
pub struct StdSink<W> {
    inner: W,
    is_failed: bool,
}

impl<W: Write> StdSink<W> {
    /// A sink that writes to `inner` and has not failed. The call writes nothing.
    pub fn new(inner: W) -> StdSink<W>
        ensures works { result.is_failed ≡ false }
        ensures inner { result.inner ≡ inner }
    {
        StdSink {
            inner,
            is_failed: false,
        }
    }

    /// The writer of the sink. The call writes nothing and flushes nothing: what the writer holds
    /// back it still holds back. Whether the sink has failed is forgotten; ask [`ByteSink::failed`]
    /// before.
    pub fn into_inner(self) -> W
        ensures inner { result ≡ self.inner }
    {
        self.inner
    }
}

impl<W: Write> ByteSink for StdSink<W> {
    ghost contents = { λ sink. W.contents sink.inner };

    ghost failed = { λ sink. sink.is_failed };

    fn write(&mut self, text: &[u8]) -> Result<usize, Fault> {
        for _ in 0..u64::MAX {
            match self.inner.write(text) {
                Ok(count) => {
                    if count == 0 && !text.is_empty() {
                        self.is_failed = true;
                    }
                    return Ok(count);
                }
                Err(error) if error.kind() == ErrorKind::Interrupted => {}
                Err(_) => break,
            }
        }
        self.is_failed = true;
        Err(Fault::Write)
    }

    fn flush(&mut self) -> Result<(), Fault> {
        for _ in 0..u64::MAX {
            match self.inner.flush() {
                Ok(()) => return Ok(()),
                Err(error) if error.kind() == ErrorKind::Interrupted => {}
                Err(_) => break,
            }
        }
        self.is_failed = true;
        Err(Fault::Write)
    }

    fn failed(&self) -> bool {
        self.is_failed
    }
}

/// Writes a whole text, by as many calls of [`ByteSink::write`] as it takes. Nothing is flushed.
///
/// # Errors
///
/// [`Fault::Write`] if a write answered it or took no byte. A prefix of the text is out then.
pub fn write_all<W: ByteSink>(out: &mut W, text: &[u8]) -> Result<(), Fault>
    requires { W.failed out.old ≡ false }
    ensures { Writes W.contents W.failed W.flushes out.old out.new result text.now }
{
    let mut at = 0;
    while at < text.len() {
        let count = out.write(&text[at..])?;
        if count == 0 {
            return Err(Fault::Write);
        }
        at += count;
    }
    Ok(())
}

/// Writes some parts one after the other, as one text. Nothing is flushed.
///
/// # Errors
///
/// [`Fault::Write`] if a write answered it or took no byte. A prefix of the parts, joined, is out
/// then.
pub fn write_parts<W: ByteSink>(out: &mut W, parts: &[&[u8]]) -> Result<(), Fault>
    requires { W.failed out.old ≡ false }
    ensures { Writes W.contents W.failed W.flushes out.old out.new result
        (text_of_parts parts.now) }
{
    for part in parts {
        write_all(out, part)?;
    }
    Ok(())
}
