//! A line on a terminal that says how many of several makefiles are done, where they take longer than a
//! second; and the last line, which says what became of them.

use std::io::IsTerminal;
use std::time::{Duration, Instant};

// How long nothing is said, in milliseconds.
const SILENCE: u64 = 1_000;

// How long a line stands before the next one takes its place, in milliseconds.
const PAUSE: u64 = 100;

/// The line that says how many of several makefiles are done. It stands on standard error where that is
/// a terminal, from a second after the start on. A fault of it is no fault of the run.
#[derive(Drop)]
pub struct Progress<'a> {
    rt: &'a HostRuntime,
    count: usize,
    // When it began; none where no line is shown.
    start: Option<Instant>,
    // After how long the next line is shown.
    next: Duration,
    is_shown: bool,
}

impl<'a> Progress<'a> {
    /// None of `count` makefiles is done. `is_printing` says whether something goes to standard output:
    /// where that is a terminal too, it shows itself how far the run is, and no line is shown.
    pub fn new(rt: &'a HostRuntime, count: usize, is_printing: bool) -> Progress<'a> {
        let is_silent = is_printing && rt.stdout().is_terminal();
        let start = if rt.stderr().is_terminal() && !is_silent {
            Instant::now(rt).ok()
        } else {
            None
        };
        Progress {
            rt,
            count,
            start,
            next: Duration::from_millis(SILENCE),
            is_shown: false,
        }
    }

    /// Says that this many makefiles are done, if it is time to.
    pub fn show(&mut self, done: usize) {
        let Some(start) = self.start else {
            return;
        };
        let Ok(elapsed) = start.elapsed(self.rt) else {
            return;
        };
        if elapsed < self.next {
            return;
        }
        let count = self.count;
        let _ = eprint!(self.rt; "\r{done} of {count} files");
        self.is_shown = true;
        self.next = elapsed.saturating_add(Duration::from_millis(PAUSE));
    }

    /// Wipes the line, if one stands there: before any other line goes to standard error, and at the
    /// end.
    pub fn wipe(&mut self) {
        if self.is_shown {
            let _ = eprint!(self.rt; "\r\x1b[K");
            self.is_shown = false;
        }
    }
}

/// How many makefiles were changed, were not, had a command that was refused, and failed.
#[derive(Clone, Copy)]
pub struct Summary {
    changed: usize,
    unchanged: usize,
    refused: usize,
    failed: usize,
}

impl Summary {
    /// No makefile yet.
    pub fn new() -> Summary {
        Summary {
            changed: 0,
            unchanged: 0,
            refused: 0,
            failed: 0,
        }
    }

    /// Counts a makefile whose run ended with this status.
    pub fn add(&mut self, status: u8, is_changed: bool) {
        let count = match status {
            0 if is_changed => &mut self.changed,
            0 => &mut self.unchanged,
            1 => &mut self.refused,
            _ => &mut self.failed,
        };
        *count = count.saturating_add(1);
    }

    /// Says on standard error how many there are, as `3 files: 2 changed, 0 unchanged, 1 refused`; of
    /// those that failed only where there are some. A fault of it is no fault of the run.
    pub fn show(&self, rt: &HostRuntime) {
        let Summary {
            changed,
            unchanged,
            refused,
            failed,
        } = *self;
        let count = changed
            .saturating_add(unchanged)
            .saturating_add(refused)
            .saturating_add(failed);
        let files = if count == 1 { "file" } else { "files" };
        let _ = if failed == 0 {
            eprintln!(rt;
                "{count} {files}: {changed} changed, {unchanged} unchanged, {refused} refused"
            )
        } else {
            eprintln!(rt;
                "{count} {files}: {changed} changed, {unchanged} unchanged, {refused} refused, {failed} failed"
            )
        };
    }
}
