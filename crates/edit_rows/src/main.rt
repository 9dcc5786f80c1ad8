//! Runs rows of edits through the library: `edit_rows` reads tables of rows, as
//! tests/definitions/plan_rows.py makes them, runs each row by a session, also with each growth refused in
//! turn, and if it is one edit by its plan. It prints which rows are answered in another way than they
//! expect.
//!
//! - [`rows`]: rows, and their form.
//! - [`checks`]: the checks of a row.
//! - [`growths`]: a row with each growth refused in turn.
//! - [`plans`]: the checks of the plan of one edit.
//! - [`document`]: a document against the parse of its text.
#![tactic(auto)]

mod checks;
mod document;
mod growths;
mod plans;
mod rows;

use checks::check_in_session;
use growths::check_growths;
use plans::check_only_plan;
use rows::{Row, read_row};
use std::alloc::Global;
use test_support::difference::Stop;
use test_support::{Heap, RunRow, Watched, run_tables};

/// What runs the rows of edits.
struct EditRunner;

impl RunRow for EditRunner {
    fn run_row(&self, alloc: Global, _table: &str, columns: &[&str]) -> Result<(), Stop> {
        run_over(alloc, &Watched::new(alloc), columns)
    }
}

/// Runs the row of a line's columns, which takes memory from a heap.
///
/// What owns a row, a session or a document hands it out by a reference: a function that owns one drops it on
/// each way out, which makes its proof long.
fn run_over(alloc: Global, heap: &Heap, columns: &[&str]) -> Result<(), Stop> {
    let row = read_row(alloc, heap, columns)?;
    check_row(alloc, heap, &row)
}

fn check_row<'h>(alloc: Global, heap: &'h Heap, row: &Row<'_, 'h>) -> Result<(), Stop> {
    check_in_session(alloc, heap, row, None)?;
    check_only_plan(alloc, heap, row)?;
    check_growths(alloc, heap, row)
}

fn main(rt: HostRuntime) -> anyhow::Result<()> {
    run_tables(&rt, &EditRunner)
}
