//! Sources for tests.
ghost use Rattle.std.specs.Prelude.{◌≡◌, ◌<◌, Some, false, length};

use mk_lines::{ByteSource, Fault};

/// Gives the bytes of a slice, at most `step` of them a call. It may fail at one call.
///
/// It tells how many calls have answered that no bytes are left. After 2^64 - 1 of them it cannot
/// count one more, and the next such call fails.
#[derive(Drop)]
pub struct MemorySource<'a> {
    rest: &'a [u8],
    step: usize,
    calls: u64,
    ends: u64,
    fails_at: Option<u64>,
    is_failed: bool,
    ghost moves: { 0 < step },
}

impl<'a> MemorySource<'a> {
    /// A source that does not fail.
    pub fn new(bytes: &'a [u8], step: usize) -> MemorySource<'a>
        requires { 0 < step }
        ensures works { result.is_failed ≡ false }
        ensures bytes { result.rest.now ≡ bytes.entry.now }
        ensures unread { result.ends ≡ 0 }
    {
        MemorySource {
            rest: bytes,
            step,
            calls: 0,
            ends: 0,
            fails_at: None,
            is_failed: false,
        }
    }

    /// The same source, which fails at the call of this number, from 1. With `None` no call fails.
    pub fn failing_at(mut self, call: Option<u64>) -> MemorySource<'a>
        ensures works { result.is_failed ≡ self.entry.is_failed }
        ensures bytes { result.rest.now ≡ self.entry.rest.now }
        ensures ends { result.ends ≡ self.entry.ends }
    {
        self.fails_at = call;
        self
    }

    /// How many calls of `read` came.
    pub fn calls(&self) -> u64 {
        self.calls
    }

    /// How many bytes are not yet read.
    pub fn left(&self) -> usize
        ensures { result ≡ length self.now.rest.now }
    {
        self.rest.len()
    }
}

impl<'a> ByteSource for MemorySource<'a> {
    ghost remaining = { λ source. Some source.rest.now };

    ghost failed = { λ source. source.is_failed };

    ghost ends = { λ source. Some source.ends };

    fn read(&mut self, buf: &mut [u8]) -> Result<usize, Fault> {
        self.calls = self.calls.saturating_add(1);
        if self.fails_at == Some(self.calls) {
            self.is_failed = true;
            return Err(Fault::Read);
        }
        let count = self.step.min(buf.len()).min(self.rest.len());
        if count == 0 && !buf.is_empty() {
            let Some(ends) = self.ends.checked_add(1) else {
                self.is_failed = true;
                return Err(Fault::Read);
            };
            self.ends = ends;
        }
        let (given, rest) = self.rest.split_at(count);
        buf[..count].copy_from_slice(given);
        self.rest = rest;
        Ok(count)
    }

    fn failed(&self) -> bool {
        self.is_failed
    }
}
