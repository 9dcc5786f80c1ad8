//! Runs rows of requests, replies and talks through `mk_repl`: each call that allocates, with each of its
//! growths refused, and each that writes, over sinks that fail. A table has the name of a call, or of what
//! no contract says of some calls.
//!
//! - [`replies`]: what a line asks for, and what is replied.
//! - [`talks`]: a whole talk, and the lines of its source.
#![tactic(auto)]

mod replies;
mod talks;

use mk_lines::Fault;
use std::alloc::Global;
use test_support::difference::Stop;
use test_support::{Calls, Case, MemorySink, RunRow, run_call, run_tables};

/// The calls of this program.
struct ReplCalls;

impl Calls for ReplCalls {
    fn answer(&self, case: &Case<'_>) -> Result<Option<Vec<u8>>, Fault> {
        let answer = match (case.table, case.fields) {
            ("request", [line]) => replies::request(case, line),
            ("answer-lines", [text]) => replies::lines_of_answer(case, text),
            ("lines-between", [text, from, to]) => replies::between(case, text, from, to),
            ("read-line", [text]) => talks::lines_of(case, text),
            ("read-line-fails", [text, from, to]) => talks::failing_line(case, text, from, to),
            ("talk", [lines, call]) => talks::talk(case, lines, call),
            ("failing-talk", [lines, text]) => talks::failing_talk(case, lines, text),
            _ => return replies::answer(case),
        };
        Ok(Some(answer?))
    }

    fn write(&self, case: &Case<'_>, out: &mut MemorySink) -> Result<bool, Fault> {
        match (case.table, case.fields) {
            ("replies", [makefile, lines]) => replies::write(case, makefile, lines, out),
            _ => Ok(false),
        }
    }
}

impl RunRow for ReplCalls {
    fn run_row(&self, alloc: Global, table: &str, columns: &[&str]) -> Result<(), Stop> {
        run_call(self, alloc, table, columns)
    }
}

fn main(rt: HostRuntime) -> anyhow::Result<()> {
    run_tables(&rt, &ReplCalls)
}
