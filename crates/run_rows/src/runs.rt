//! Runs: with each growth refused in turn, with each call of each device failing in turn, and with an observer.
ghost use Rattle.std.specs.Prelude.{◌<◌};

use mk_lines::Fault;
use mk_run::{Observer, Outcome, Reported, message, run, status};
use mk_session::{Edit, Session};
use std::alloc::{Allocator, Global};
use std::fmt::Write as _;
use test_support::text::joined;
use test_support::{Case, MemorySink, MemorySource};

/// A device of a run, or the flush of its output.
#[derive(Clone, Copy, PartialEq, Eq)]
enum Device {
    Makefile,
    Script,
    Out,
    Report,
    Flush,
}

/// The device that fails, and its call that does, from 1.
type Failing = Option<(Device, u64)>;

/// The call at which a device fails, if it does.
fn call_of(device: Device, failing: Failing) -> Option<u64> {
    match failing {
        Some((other, call)) if other == device => Some(call),
        _ => None,
    }
}

/// An observer that remembers the lines of what it is told; of a refusal also whether it is an edit's, and how
/// many bytes the text has.
#[derive(Drop)]
struct Recorder {
    told: String,
}

impl<A: Allocator> Observer<A> for Recorder {
    fn refused(&mut self, reported: &Reported<'_, A>, session: &Session<A>) {
        let (is_edit, size) = (reported.edit.is_some(), session.doc().size());
        let _ = write!(self.told, "{} refused {is_edit} {size} ", reported.line);
    }

    fn accepted(&mut self, line: u64, _edit: &Edit<A>, _session: &Session<A>) {
        let _ = write!(self.told, "{line} accepted ");
    }
}

/// What came of a run.
#[derive(Drop)]
struct Answer {
    outcome: Outcome,
    out: MemorySink,
    report: MemorySink,
    makefile_calls: u64,
    script_calls: u64,
    told: String,
}

impl Answer {
    /// How many calls of a device came.
    fn calls(&self, device: Device) -> u64 {
        match device {
            Device::Makefile => self.makefile_calls,
            Device::Script => self.script_calls,
            Device::Out => self.out.writes(),
            Device::Report => self.report.writes(),
            Device::Flush => self.out.flushes(),
        }
    }

    /// Whether the run has ended early: with a part of a report, and with its text untouched.
    fn is_early(&self, outcome: Outcome, report: &[u8]) -> bool {
        let is_untouched = self.out.writes() == 0 && self.out.flushes() == 0;
        self.outcome == outcome && is_untouched && report.starts_with(self.report.bytes())
    }

    /// Whether the run has ended as it has to where a device fails.
    fn is_end_at(&self, device: Device, report: &[u8], out: &[u8]) -> bool {
        match device {
            Device::Makefile | Device::Script => self.is_early(Outcome::Read, report),
            Device::Report => self.is_early(Outcome::Write, report),
            Device::Out => self.outcome == Outcome::Write && out.starts_with(self.out.bytes()),
            Device::Flush => self.outcome == Outcome::Write && out == self.out.bytes(),
        }
    }
}

/// Runs a script over devices that move at most `step` bytes a call. The texts are the makefile, the script,
/// and `-k` if the run keeps going.
fn run_over<A: Allocator + Copy>(
    alloc: Global,
    own: A,
    texts: [&[u8]; 3],
    step: usize,
    failing: Failing,
) -> Answer
    requires { 0 < step }
{
    let [makefile, script, flags] = texts;
    let mut makefile = MemorySource::new(makefile, step).failing_at(call_of(
        Device::Makefile,
        failing,
    ));
    let mut script = MemorySource::new(script, step).failing_at(call_of(Device::Script, failing));
    let mut out = MemorySink::new(Vec::new(alloc), step)
        .failing_at(call_of(Device::Out, failing))
        .with_flush_failing(call_of(Device::Flush, failing).is_some());
    let mut report = MemorySink::new(Vec::new(alloc), step).failing_at(call_of(
        Device::Report,
        failing,
    ));
    let mut observer = Recorder {
        told: String::new(alloc),
    };
    let outcome = run(
        own,
        &mut makefile,
        &mut script,
        100,
        flags == b"-k".as_slice(),
        &mut out,
        &mut report,
        &mut observer,
        &mut None,
    );
    Answer {
        outcome,
        out,
        report,
        makefile_calls: makefile.calls(),
        script_calls: script.calls(),
        told: observer.told,
    }
}

/// What comes of a run: the outcome with its status and its message, what an observer is told, the report, and
/// the text. Another end without memory than an early one is a write fault.
pub fn ended(case: &Case<'_>, run: [&[u8]; 3], report: &[u8]) -> Result<Vec<u8>, Fault> {
    let answer = run_over(case.alloc, case.heap, run, 1_000, None);
    shown(case.alloc, &answer, report)
}

fn shown(alloc: Global, answer: &Answer, report: &[u8]) -> Result<Vec<u8>, Fault> {
    if answer.outcome == Outcome::NoMemory {
        let is_early = answer.is_early(Outcome::NoMemory, report);
        return Err(if is_early {
            Fault::NoMemory
        } else {
            Fault::Write
        });
    }
    let end = end_of(alloc, answer.outcome)?;
    let parts = [
        end.bytes(),
        answer.told.as_bytes(),
        b"|",
        answer.report.bytes(),
        b"|",
        answer.out.bytes(),
    ];
    Ok(joined(alloc, &parts)?)
}

/// An outcome with its status and its message.
fn end_of(alloc: Global, outcome: Outcome) -> Result<MemorySink, Fault> {
    let said = format!(in alloc; "{outcome:?}, {}: ", status(&outcome))?;
    let mut shown = MemorySink::new(said.into_bytes(), 7);
    message(&outcome, &mut shown)?;
    Ok(shown)
}

/// Whether a run with this report and this text ends as it has to where each call of each device fails in
/// turn; else the device is named.
pub fn failing(
    case: &Case<'_>,
    run: [&[u8]; 3],
    report: &[u8],
    out: &[u8],
) -> Result<Vec<u8>, Fault> {
    let mut others = Vec::new(case.alloc);
    for (device, name) in [
        (Device::Makefile, b"makefile"),
        (Device::Script, b"script  "),
        (Device::Out, b"out     "),
        (Device::Report, b"report  "),
        (Device::Flush, b"flush   "),
    ] {
        if !ends_at_each(case.alloc, run, device, report, out) {
            others.extend_from_slice(name)?;
        }
    }
    Ok(others)
}

fn ends_at_each(alloc: Global, run: [&[u8]; 3], device: Device, report: &[u8], out: &[u8]) -> bool {
    for call in 1..200u64 {
        let answer = run_over(alloc, alloc, run, 3, Some((device, call)));
        if answer.calls(device) < call {
            return true;
        }
        if !answer.is_end_at(device, report, out) {
            return false;
        }
    }
    true
}

/// Whether a report is whole where some growth is refused: it is out before the next command.
pub fn reported_at_once(case: &Case<'_>, run: [&[u8]; 3], report: &[u8]) -> Result<Vec<u8>, Fault> {
    for admitted in 0..1_000u64 {
        case.heap.refuse_one_after(admitted);
        let answer = run_over(case.alloc, case.heap, run, 1_000, None);
        if case.heap.has_refused() && answer.report.bytes() == report {
            return Ok(Vec::from_slice(case.alloc, b"at once")?);
        }
    }
    Ok(Vec::from_slice(case.alloc, b"never")?)
}
