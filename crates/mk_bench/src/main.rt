//! Measures the lines of a file, or edits of it: `mk_bench lines FILE` or `mk_bench edits FILE`.
//! `bench/lines` and `bench/edits` run it.
//!
//! - `lines`: splitting the file, and the cells, units, words and classes of its lines.
//! - `edits`: single edits and many, and undoing them.
#![tactic(auto)]

mod edits;
mod lines;

use anyhow::{Context as _, bail};
use mk_lines::StdSource;
use mk_lines::source::read_all;
use std::fs::File;

const USAGE: &str = "usage: mk_bench lines|edits FILE";

// The bytes of a file.
fn text_of(rt: &HostRuntime, name: &str) -> anyhow::Result<Vec<u8>> {
    let mut source = StdSource::new(File::open(rt, name)?);
    let text = read_all(rt.alloc(), &mut source)?;
    Ok(text)
}

// Measures what a word names.
fn measure(rt: &HostRuntime, what: &str, text: &[u8]) -> anyhow::Result<()> {
    match what {
        "lines" => lines::measure(rt, text),
        "edits" => edits::measure(rt, text),
        _ => bail!("{USAGE}"),
    }
}

fn main(rt: HostRuntime) -> anyhow::Result<()> {
    let words = std::env::args(&rt)?.collect::<Vec<String>>(rt.alloc())?;
    let what = words.get(1).context(USAGE)?;
    let name = words.get(2).context(USAGE)?;
    let text = text_of(&rt, name.as_str())?;
    measure(&rt, what.as_str(), text.as_slice())
}
