//! Programs of rows. Such a program reads tables from its standard input, runs each row, and prints each
//! row that is answered in another way than it expects; after each table how many rows it has, and how
//! many of them differ.
//!
//! A line of two columns, `table` and a name, begins a table. Each line below is a row of it: `row`, the
//! name of the row, and its other columns. A tab stands between two columns.

use crate::difference::Stop;
use anyhow::{Context as _, Result, bail};
use std::alloc::Global;
use std::io::read_to_string;

/// What runs the rows of a program.
pub trait RunRow {
    /// Runs the row of a table, and stops at the first answer that differs. The columns are those after
    /// the row's name.
    fn run_row(&self, alloc: Global, table: &str, columns: &[&str]) -> Result<(), Stop>;
}

/// How many rows of a table were run, and how many of them differ.
#[derive(Drop)]
struct Table<'a> {
    name: &'a str,
    rows: u64,
    differ: u64,
}

impl<'a> Table<'a> {
    fn new(name: &'a str) -> Table<'a> {
        Table {
            name,
            rows: 0,
            differ: 0,
        }
    }

    /// Counts a row, and prints a line if it differs.
    fn count(&mut self, rt: &HostRuntime, row: &str, answer: Result<(), Stop>) -> Result<()> {
        self.rows = self.rows.saturating_add(1);
        match answer {
            Ok(()) => Ok(()),
            Err(Stop::Failed(error)) => Err(error),
            Err(Stop::Differs(difference)) => {
                self.differ = self.differ.saturating_add(1);
                println!(rt;
                    "{row}: {}: expected {}, found {}",
                    difference.what, difference.expected, difference.found
                )?;
                Ok(())
            }
        }
    }

    /// Prints how many rows there were, and how many of them differ.
    fn print(&self, rt: &HostRuntime) -> Result<()> {
        println!(rt; "{}: {} rows, {} differ", self.name, self.rows, self.differ)?;
        Ok(())
    }
}

/// Runs the row of a line.
fn run_line<R: RunRow>(
    rt: &HostRuntime,
    runner: &R,
    table: &mut Table<'_>,
    line: &str,
) -> Result<()> {
    let columns = line.split('\t').collect::<Vec<&str>>(rt.alloc())?;
    let ["row", name, columns @ ..] = columns.as_slice() else {
        bail!("no row of a table: {line}");
    };
    let answer = runner.run_row(rt.alloc(), table.name, columns);
    table
        .count(rt, name, answer)
        .context(format_args!("in {line}"))
}

/// Runs the rows of the tables on standard input.
///
/// # Errors
///
/// If a line begins no table and is no row, standard input or output fails, or a growth was refused.
pub fn run_tables<R: RunRow>(rt: &HostRuntime, runner: &R) -> Result<()> {
    let text = read_to_string(rt.alloc(), rt.stdin())?;
    let mut table = Table::new("none");
    for line in text.lines() {
        if let Some(("table", name)) = line.split_once('\t') {
            if table.rows > 0 {
                table.print(rt)?;
            }
            table = Table::new(name);
        } else {
            run_line(rt, runner, &mut table, line)?;
        }
    }
    table.print(rt)
}
