//! Runs rows of texts and documents through the crates that read them: each call that allocates, with each
//! of its growths refused, and each that writes, over sinks that fail. A table has the name of a call.
//!
//! - [`lines`]: `mk_lines`.
//! - [`devices`]: a reader and a writer whose calls end as a text says.
//! - [`classes`]: `mk_class`.
//! - [`documents`]: `mk_tree`.
//! - [`views`]: `mk_tree::views` and `mk_queries::listing`.
//! - [`queries`]: `mk_queries`.
//! - [`json`]: the queries of `mk_queries` as JSON.
//! - [`diffs`]: `mk_diff`.
#![tactic(auto)]

ghost use Rattle.std.specs.Prelude.{◌≡◌, false};

mod classes;
mod devices;
mod diffs;
mod documents;
mod json;
mod lines;
mod queries;
mod views;

use mk_lines::Fault;
use mk_lines::sink::write_parts;
use std::alloc::Global;
use test_support::difference::Stop;
use test_support::{Calls, Case, MemorySink, RunRow, run_call, run_tables};

/// The calls of this program.
struct DocumentCalls;

impl Calls for DocumentCalls {
    fn answer(&self, case: &Case<'_>) -> Result<Option<Vec<u8>>, Fault> {
        let answer = match (case.table, case.fields) {
            ("faults", []) => lines::faults(case),
            ("cells", [line]) => lines::joined_line(case, line),
            ("lines", [text]) => lines::lines_of(case, text),
            ("ends", [line]) => lines::end_of(case, line),
            ("units", [text]) => lines::units_of(case, text),
            ("first", [text]) => lines::first_of(case, text),
            ("read", [text, step, call]) => lines::read(case, text, step, call),
            ("read-whole", [text]) => lines::read_whole(case, text),
            _ => return of_devices(case),
        };
        Ok(Some(answer?))
    }

    fn write(&self, case: &Case<'_>, out: &mut MemorySink) -> Result<bool, Fault> {
        if let ("write-parts", [first, second, third]) = (case.table, case.fields) {
            write_parts(out, &[first, second, third])?;
            return Ok(true);
        }
        documents::write(case, out)
    }
}

/// Makes a call on a device, a line by itself or two texts, or another one.
fn of_devices(case: &Case<'_>) -> Result<Option<Vec<u8>>, Fault> {
    let answer = match (case.table, case.fields) {
        ("read-std", [ends]) => devices::read(case, ends),
        ("write-std", [ends]) => devices::write(case, ends),
        ("give-back", [text]) => devices::give_back(case, text),
        ("tests", [text]) => classes::tests_of(case, text),
        ("class", [line]) => classes::class_of(case, line),
        ("context", [text]) => classes::context_after(case, text),
        ("diff", [name, old, new]) => diffs::between(case, name, old, new),
        ("painted", [diff]) => diffs::in_colours(case, diff),
        _ => return of_documents(case),
    };
    Ok(Some(answer?))
}

/// Makes a call that parses or reads by itself, or one on a document.
fn of_documents(case: &Case<'_>) -> Result<Option<Vec<u8>>, Fault> {
    let answer = match (case.table, case.fields) {
        ("parse", [text]) => documents::parsed(case, text),
        ("parse-vec", [text]) => documents::parsed_vec(case, text),
        ("read-line", []) => documents::read_line(case),
        ("own-bytes", [text]) => documents::own_bytes(case, text),
        ("text-line", [text]) => json::text_line(case, text),
        _ => return documents::answer(case),
    };
    Ok(Some(answer?))
}

impl RunRow for DocumentCalls {
    fn run_row(&self, alloc: Global, table: &str, columns: &[&str]) -> Result<(), Stop> {
        run_call(self, alloc, table, columns)
    }
}

fn main(rt: HostRuntime) -> anyhow::Result<()> {
    run_tables(&rt, &DocumentCalls)
}
