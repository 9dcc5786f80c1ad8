//! Rows: a makefile, commands, and what they are expected to answer.

use anyhow::{Context as _, Result, bail};
use mk_script::{Step, parse_script};
use mk_session::Command;
use std::alloc::{Allocator, Global};
use test_support::Heap;
use test_support::text::unescape;

/// A row of a table. The texts of its commands take memory from a heap.
#[derive(Drop)]
pub struct Row<'a, 'h> {
    /// How many edits can be undone.
    pub depth: u32,
    /// The text before the commands.
    pub makefile: Vec<u8>,
    /// The text after them, if the table says it.
    pub expected: Option<Vec<u8>>,
    /// Of a row of one edit, how many lines the edit reads again at most, if the table says it.
    pub cost: Option<u64>,
    /// Of an accepted edit, how many lines it takes out or puts others in place of at most, if the table
    /// says it.
    pub size: Option<u64>,
    /// The commands, in order, with their replies.
    pub commands: Vec<Expectation<'a, 'h>>,
}

/// A command of a row, and what it has to answer.
#[derive(Drop)]
pub struct Expectation<'a, 'h> {
    /// The command.
    pub command: Command<&'h Heap>,
    /// The reply that is expected: `done`, or a refusal as a report has it.
    pub reply: &'a str,
}

/// The row of a line's columns.
///
/// # Errors
///
/// If the columns are those of no row, or a growth was refused.
pub fn read_row<'a, 'h>(alloc: Global, heap: &'h Heap, columns: &[&'a str]) -> Result<Row<'a, 'h>> {
    let [depth, makefile, expected, cost, size, commands @ ..] = columns else {
        bail!("a row without its columns");
    };
    // (the numbers first: a way out drops what was read before)
    let depth = depth.parse::<u32>().context("no depth")?;
    let cost = read_limit(cost)?;
    let size = read_limit(size)?;
    let commands = read_commands(alloc, heap, commands)?;
    let makefile = unescape(alloc, makefile)?;
    let expected = read_expected(alloc, expected)?;
    Ok(Row {
        depth,
        makefile,
        expected,
        cost,
        size,
        commands,
    })
}

/// The text after the commands, or none if the column is `-`.
fn read_expected(alloc: Global, column: &str) -> Result<Option<Vec<u8>>> {
    if column == "-" {
        return Ok(None);
    }
    Ok(Some(unescape(alloc, column)?))
}

/// A number of lines, or none if the column is `-`.
fn read_limit(column: &str) -> Result<Option<u64>> {
    if column == "-" {
        return Ok(None);
    }
    Ok(Some(column.parse::<u64>().context("no number of lines")?))
}

/// The commands of the last columns, two for each: its reply and its line in a script.
fn read_commands<'a, 'h>(
    alloc: Global,
    heap: &'h Heap,
    columns: &[&'a str],
) -> Result<Vec<Expectation<'a, 'h>>> {
    let mut commands = Vec::new(alloc);
    for pair in columns.chunks(2) {
        commands.push(read_expectation(alloc, heap, pair)?)?;
    }
    Ok(commands)
}

fn read_expectation<'a, 'h>(
    alloc: Global,
    heap: &'h Heap,
    pair: &[&'a str],
) -> Result<Expectation<'a, 'h>> {
    let [reply, command] = pair else {
        bail!("a reply without its command");
    };
    let command = read_command(heap, &unescape(alloc, command)?)?;
    Ok(Expectation { command, reply })
}

/// The command of the line of a script.
fn read_command<'h>(heap: &'h Heap, line: &[u8]) -> Result<Command<&'h Heap>> {
    match command_in(parse_script(heap, line)?) {
        Some(command) => Ok(command),
        None => bail!("not one command"),
    }
}

/// The command that the last of some steps is.
fn command_in<A: Allocator>(mut steps: Vec<Step<A>, A>) -> Option<Command<A>> {
    match steps.pop() {
        Some(Step::Alone(numbered)) => Some(numbered.command),
        _ => None,
    }
}
