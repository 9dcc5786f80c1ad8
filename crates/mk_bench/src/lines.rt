//! The lines of a text: prints the processor time of splitting it, of the cells of its lines, of its
//! units and words, and of the classes of its lines with their cells, in microseconds, with how many
//! of them there are.
use crate::edits::told;
use mk_class::context::MAX_DEFINES;
use mk_class::{Class, Context, Meter, classify};
use mk_lines::cells::cells;
use mk_lines::split::{Span, split};
use mk_lines::{units, words};
use std::time::{CpuClock, Duration};

/// Measures the lines of a text.
// The steps are functions of their own, as those of edits are.
pub(crate) fn measure(rt: &HostRuntime, text: &[u8]) -> anyhow::Result<()> {
    let start = rt.process_cpu_time()?;
    let lines = split(rt.alloc(), text)?;
    measure_lines(rt, text, lines.as_slice(), start)
}

// Measures what is done with the lines of a text, whose splitting began then.
fn measure_lines(
    rt: &HostRuntime,
    text: &[u8],
    lines: &[Span],
    start: Duration,
) -> anyhow::Result<()> {
    told(rt, "split", start, 0, lines.len() as u64)?;

    let start = rt.process_cpu_time()?;
    let joined = joined_length(rt, text, lines)?;
    told(rt, "cells", start, 0, joined as u64)?;

    let start = rt.process_cpu_time()?;
    told(rt, "units", start, 0, units(text).count() as u64)?;

    let start = rt.process_cpu_time()?;
    told(rt, "words", start, 0, words(text).count() as u64)?;

    let start = rt.process_cpu_time()?;
    let read = read_lines(rt, text, lines)?;
    told(rt, "classes", start, 0, read as u64)
}

// How many bytes the joined texts of lines have.
fn joined_length(rt: &HostRuntime, text: &[u8], lines: &[Span]) -> anyhow::Result<usize> {
    let mut joined = 0usize;
    for line in lines {
        let line = text.get(line.start..line.end).unwrap_or_default();
        let cells = cells(rt.alloc(), line)?;
        joined = joined.saturating_add(cells.text(line).len());
    }
    Ok(joined)
}

// How many of the lines are read inside, each classified in its context.
fn read_lines(rt: &HostRuntime, text: &[u8], lines: &[Span]) -> anyhow::Result<usize> {
    let mut context = Context::start();
    let mut meter = Meter::new();
    let mut read = 0usize;
    for line in lines {
        if context.defines() == MAX_DEFINES {
            break;
        }
        let line = text.get(line.start..line.end).unwrap_or_default();
        let (class, next) = classify(rt.alloc(), line, context, &mut meter)?;
        if class != Class::Opaque {
            read = read.saturating_add(1);
        }
        context = next;
    }
    Ok(read)
}
