//! Where bytes come from.
ghost use Rattle.std.specs.Prelude.{◌≡◌, ◌≢◌, ◌||◌, ◌≤◌, ◌<◌, ◌+◌, ℕ, Bool, List, Option, None, true, false, is_err, length, vec_len, is_ok, IfOk, IfErr, IfSome};
ghost use Rattle.std.specs.Io.KnownBytes.{ReadConsumes};
ghost use Rattle.mk_lines.specs.Device.{IsSourceFault, TakesAtMost, count_if, is_end};

use crate::fault::Fault;
use std::alloc::Allocator;
use std::io::{ErrorKind, Read};

/// The most bytes of a text: 2^24. This project's profile.
pub const MAX_TEXT: usize = 16_777_216;

/// The most bytes that [`read_all`] asks of a source by one read.
pub const BUFFER: usize = 8192;

/// Gives bytes, a few at a time.
pub trait ByteSource {
    // The bytes that are not yet read, if the source tells them. The default tells nothing.
    ghost remaining: { Self → Option (List ℕ) } = { λ _. None };

    // Whether a call has answered a fault.
    ghost failed: { Self → Bool };

    // How many reads have answered that no bytes are left, if the source tells that. The default
    // tells nothing.
    ghost ends: { Self → Option ℕ } = { λ _. None };

    /// Puts some of the bytes that are not yet read at the front of `buf`, and says how many bytes.
    ///
    /// 0 for a `buf` that is not empty says that no bytes are left. The only fault is
    /// [`Fault::Read`]; a call that answers it moves no byte.
    fn read(&mut self, buf: &mut [u8]) -> Result<usize, Fault>
        ensures bound { IfOk result (λ n. n ≤ length buf.new) }
        ensures bytes { ReadConsumes (remaining self.old) (remaining self.new) result buf.new }
        ensures fault { IfErr result (λ e. e ≡ Fault.Read) }
        ensures failed { failed self.new ≡ (failed self.old || is_err result) }
        ensures ends { ends self.new ≡ count_if (is_end result buf.new) (ends self.old) };

    /// Whether a call has answered a fault.
    fn failed(&self) -> bool
        ensures { result ≡ failed self.now };
}

/// A reader of std as a source.
///
/// It tells the bytes that the reader tells. It tells no ends, since std's readers tell nothing of
/// them. A read that a signal interrupted, which has moved no byte, is made again; any other error
/// is [`Fault::Read`].
#[derive(Drop)]
pub struct StdSource<R> {
    inner: R,
    is_failed: bool,
}

impl<R: Read> StdSource<R> {
    /// A source of the bytes of `inner`, which has not failed. The call reads nothing.
    pub fn new(inner: R) -> StdSource<R>
        ensures works { result.is_failed ≡ false }
        ensures inner { result.inner ≡ inner }
    {
        StdSource {
            inner,
            is_failed: false,
        }
    }

    /// The reader of the source, at its next byte: a source reads nothing ahead. The call reads
    /// nothing. Whether the source has failed is forgotten; ask [`ByteSource::failed`] before.
    pub fn into_inner(self) -> R
        ensures inner { result ≡ self.inner }
    {
        self.inner
    }
}

impl<R: Read> ByteSource for StdSource<R> {
    ghost remaining = { λ source. R.remaining source.inner };

    ghost failed = { λ source. source.is_failed };

    fn read(&mut self, buf: &mut [u8]) -> Result<usize, Fault> {
        for _ in 0..u64::MAX {
            match self.inner.read(buf) {
                Ok(count) => return Ok(count),
                Err(error) if error.kind() == ErrorKind::Interrupted => {}
                Err(_) => break,
            }
        }
        self.is_failed = true;
        Err(Fault::Read)
    }

    fn failed(&self) -> bool {
        self.is_failed
    }
}

/// Reads a source to its end. The text has at most [`MAX_TEXT`] bytes.
///
/// The reading stops as soon as more than [`MAX_TEXT`] bytes have come, so at most [`BUFFER`]
/// bytes beyond the limit are taken. Once a read has answered 0 or a fault, no other read is made:
/// so one end-of-file key ends a text that is typed at a terminal.
///
/// # Errors
///
/// - [`Fault::TooLong`] if the source has more than [`MAX_TEXT`] bytes.
/// - [`Fault::Read`] if a call of the source answered it.
/// - [`Fault::NoMemory`] if the text could not grow. It is not known then whether the source has
///   more bytes than the limit, or would have failed.
pub fn read_all<A: Allocator, R: ByteSource>(alloc: A, source: &mut R) -> Result<Vec<u8, A>, Fault>
    requires { R.failed source.old ≡ false }
    ensures bytes { IfOk result (λ text.
        IfSome (R.remaining source.old) (λ bytes. text.items ≡ bytes)) }
    ensures within { IfOk result (λ text. vec_len text ≤ MAX_TEXT) }
    ensures too_long { IfSome (R.remaining source.old) (λ bytes.
        result ≡ Err Fault.TooLong → MAX_TEXT < length bytes) }
    ensures read { result ≡ Err Fault.Read → R.failed source.new ≡ true }
    ensures works { result ≢ Err Fault.Read → R.failed source.new ≡ false }
    ensures few { IfErr result IsSourceFault }
    ensures taken { TakesAtMost (R.remaining source.old) (R.remaining source.new)
        (MAX_TEXT + BUFFER) }
    ensures ends { R.ends source.new ≡ count_if (is_ok result) (R.ends source.old) }
{
    let mut text = Vec::new(alloc);
    let mut chunk = [0u8; BUFFER];
    loop {
        let count = source.read(&mut chunk)?;
        if count == 0 {
            return Ok(text);
        }
        if count > MAX_TEXT - text.len() {
            return Err(Fault::TooLong);
        }
        text.extend_from_slice(&chunk[..count])?;
    }
}
