//! A sink for tests.
ghost use Rattle.std.specs.Prelude.{◌≡◌, ◌-◌, ◌≤◌, Some, false, length, vec_len};

use mk_lines::{ByteSink, Fault};

/// Keeps what is written, at most `step` bytes a call. It may fail or take nothing at one call, and
/// it may fail at its flushes.
///
/// It tells the flushes that succeeded, and how many bytes were taken since the last of them. After
/// 2^64 - 1 flushes it cannot count one more, and the next flush fails.
#[derive(Drop)]
pub struct MemorySink {
    bytes: Vec<u8>,
    step: usize,
    writes: u64,
    flushes: u64,
    flushes_done: u64,
    flushed_len: usize,
    fails_at: Option<u64>,
    takes_nothing_at: Option<u64>,
    flush_fails: bool,
    is_failed: bool,
    ghost flushed_within: { flushed_len ≤ length bytes.items },
}

impl MemorySink {
    /// A sink that appends to `bytes`, and does not fail as long as there is memory.
    pub fn new(bytes: Vec<u8>, step: usize) -> MemorySink
        ensures works { result.is_failed ≡ false }
        ensures bytes { result.bytes ≡ bytes }
        ensures unflushed { result.flushes_done ≡ 0 }
        ensures settled { result.flushed_len ≡ vec_len bytes }
    {
        let flushed_len = bytes.len();
        MemorySink {
            bytes,
            step,
            writes: 0,
            flushes: 0,
            flushes_done: 0,
            flushed_len,
            fails_at: None,
            takes_nothing_at: None,
            flush_fails: false,
            is_failed: false,
        }
    }

    /// The same sink, whose write of this number, from 1, fails. With `None` no write fails.
    pub fn failing_at(mut self, write: Option<u64>) -> MemorySink
        ensures { result.is_failed ≡ self.is_failed }
    {
        self.fails_at = write;
        self
    }

    /// The same sink, whose write of this number, from 1, takes nothing. With `None` there is no
    /// such write.
    pub fn taking_nothing_at(mut self, write: Option<u64>) -> MemorySink
        ensures { result.is_failed ≡ self.is_failed }
    {
        self.takes_nothing_at = write;
        self
    }

    /// The same sink; its flushes fail if `flush_fails` says so.
    pub fn with_flush_failing(mut self, flush_fails: bool) -> MemorySink
        ensures { result.is_failed ≡ self.is_failed }
    {
        self.flush_fails = flush_fails;
        self
    }

    /// What was written.
    pub fn bytes(&self) -> &[u8] {
        self.bytes.as_slice()
    }

    /// How many writes came.
    pub fn writes(&self) -> u64 {
        self.writes
    }

    /// How many flushes came, including those that failed.
    pub fn flushes(&self) -> u64 {
        self.flushes
    }
}

impl ByteSink for MemorySink {
    ghost contents = { λ sink. Some sink.bytes.items };

    ghost failed = { λ sink. sink.is_failed };

    ghost flushes = { λ sink. Some sink.flushes_done };

    ghost pending = { λ sink. Some (length sink.bytes.items - sink.flushed_len) };

    fn write(&mut self, text: &[u8]) -> Result<usize, Fault> {
        self.writes = self.writes.saturating_add(1);
        if self.fails_at == Some(self.writes) {
            self.is_failed = true;
            return Err(Fault::Write);
        }
        let count = if self.takes_nothing_at == Some(self.writes) {
            0
        } else {
            self.step.min(text.len())
        };
        if self.bytes.extend_from_slice(&text[..count]).is_err() {
            self.is_failed = true;
            return Err(Fault::Write);
        }
        if count == 0 && !text.is_empty() {
            self.is_failed = true;
        }
        Ok(count)
    }

    fn flush(&mut self) -> Result<(), Fault> {
        self.flushes = self.flushes.saturating_add(1);
        match self.flushes_done.checked_add(1) {
            Some(flushes_done) if !self.flush_fails => {
                self.flushes_done = flushes_done;
                self.flushed_len = self.bytes.len();
                Ok(())
            }
            _ => {
                self.is_failed = true;
                Err(Fault::Write)
            }
        }
    }

    fn failed(&self) -> bool {
        self.is_failed
    }
}
