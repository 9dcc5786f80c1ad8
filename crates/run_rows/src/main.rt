//! Runs rows of scripts, sessions and runs through the crates that make them: each call that
//! allocates, with each of its growths refused, and each that writes, over sinks that fail. A table has the
//! name of a call, or of what no contract says of some calls.
//!
//! - [`scripts`]: `mk_script`.
//! - [`changes`]: `mk_history` at a change of a type of its own, and `mk_patch`.
//! - [`made`]: edits by the calls that make them, and by the calls of a session.
//! - [`sessions`]: sessions.
//! - [`groups`]: groups of edits that are one call, and dry runs.
//! - [`memory`]: how many bytes edits take.
//! - [`index`]: lookups, what an index tells, and what it leaves to a walk over all lines.
//! - [`runs`]: `mk_run`, over devices that fail.
#![tactic(auto)]

mod changes;
mod groups;
mod index;
mod made;
mod memory;
mod runs;
mod scripts;
mod sessions;

use mk_lines::Fault;
use sessions::Start;
use std::alloc::Global;
use test_support::difference::Stop;
use test_support::text::number;
use test_support::{Calls, Case, MemorySink, RunRow, run_call, run_tables};

/// The calls of this program.
struct RunCalls;

impl Calls for RunCalls {
    fn answer(&self, case: &Case<'_>) -> Result<Option<Vec<u8>>, Fault> {
        let answer = match (case.table, case.fields) {
            ("script", [script]) => scripts::steps_of(case, script),
            ("written", [line]) => scripts::written(case, line),
            ("written-value", [value]) => scripts::written_value(case, value),
            ("mistake", [script, line]) => scripts::mistake(case, script, line),
            ("alike", [one, other]) => scripts::alike(case, one, other),
            ("edit-shown", [line]) => made::edit_shown(case, line),
            ("made", [call, line]) => made::made(case, call, line),
            _ => return of_changes(case),
        };
        Ok(Some(answer?))
    }

    // No call here writes.
    fn write(&self, _case: &Case<'_>, _out: &mut MemorySink) -> Result<bool, Fault> {
        Ok(false)
    }
}

/// Makes a call of changes, or another one.
fn of_changes(case: &Case<'_>) -> Result<Option<Vec<u8>>, Fault> {
    let answer = match (case.table, case.fields) {
        ("laws", []) => changes::laws(case),
        ("history", []) => changes::history(case),
        ("sequence", []) => changes::sequence(case),
        ("history-errors", []) => changes::errors(case),
        ("patch", []) => changes::patch(case),
        _ => return of_memory(case),
    };
    Ok(Some(answer?))
}

/// Makes a call that tells how much memory is taken, or another one.
fn of_memory(case: &Case<'_>) -> Result<Option<Vec<u8>>, Fault> {
    let answer = match (case.table, case.fields) {
        ("memory", [text, edit, lines]) => {
            memory::of_first(case, [text, edit], Start::Nothing, number(lines), 0)
        }
        ("memory-of-bytes", [text, edit, bytes]) => {
            memory::of_first(case, [text, edit], Start::Nothing, 1, number(bytes))
        }
        ("memory-of-index", [text, edit, bytes]) => {
            memory::of_first(case, [text, edit], Start::Expecting, 1, number(bytes))
        }
        ("memory-of-parse", [text, bytes]) => memory::of_parse(case, text, bytes),
        ("same-memory", [short, long, edit]) => memory::same(case, short, long, edit),
        ("first-of-group", [text, edit]) => {
            memory::is_less(case, [text, edit], Start::Begin, Start::Nothing)
        }
        ("expected-edits", [text, edit]) => {
            memory::is_less(case, [text, edit], Start::Nothing, Start::Expecting)
        }
        _ => return of_indexes(case),
    };
    Ok(Some(answer?))
}

/// Makes a call on an index, or another one.
fn of_indexes(case: &Case<'_>) -> Result<Option<Vec<u8>>, Fault> {
    let answer = match (case.table, case.fields) {
        ("lookup", [makefile, name]) => index::of_document(case, makefile, name),
        ("told", [makefile, name]) => index::of_document(case, makefile, name),
        ("tells", [makefile, listed]) => index::of_document(case, makefile, listed),
        ("known", [makefile, edits]) => index::of_finder(case, makefile, edits, None),
        ("known-after", [makefile, first, second]) => {
            index::of_finder(case, makefile, first, Some(second))
        }
        _ => return of_runs(case),
    };
    Ok(Some(answer?))
}

/// Makes a run, or a call on a session.
fn of_runs(case: &Case<'_>) -> Result<Option<Vec<u8>>, Fault> {
    let answer = match (case.table, case.fields) {
        ("run", [makefile, script, flags, report]) => {
            runs::ended(case, [makefile, script, flags], report)
        }
        ("failing-run", [makefile, script, flags, report, out]) => {
            runs::failing(case, [makefile, script, flags], report, out)
        }
        ("reported-at-once", [makefile, script, flags, report]) => {
            runs::reported_at_once(case, [makefile, script, flags], report)
        }
        _ => return sessions::answer(case),
    };
    Ok(Some(answer?))
}

impl RunRow for RunCalls {
    fn run_row(&self, alloc: Global, table: &str, columns: &[&str]) -> Result<(), Stop> {
        run_call(self, alloc, table, columns)
    }
}

fn main(rt: HostRuntime) -> anyhow::Result<()> {
    run_tables(&rt, &RunCalls)
}
