//! `mkedit derive`: a script that makes one makefile of another, by [`mk_derive`].

use crate::ending::{End, ended};
use crate::input::{input_name, open_input, text_of};
use mk_cli::{DeriveWords, Input};
use mk_derive::{Names, put_script};
use mk_run::Outcome;
use std::process::ExitCode;

// How the command ends.
fn end_of<'a>(rt: &'a HostRuntime, words: DeriveWords<'a>) -> Result<End<'a>, End<'a>> {
    let names = Names {
        old: input_name(words.old),
        new: input_name(words.new),
    };
    let old = text_of(rt, open_input(rt, words.old)?, names.old)?;
    let new = text_of(rt, open_input(rt, words.new)?, names.new)?;
    match put_script(rt, words.output, names, &old, &new) {
        Ok(()) => Ok(End::of(Outcome::Done)),
        Err(it) => Err(End::of(it.outcome).with_fault(it.fault).with_limit(it.name)),
    }
}

/// Puts out a script that makes the new makefile of the old one, and answers the status.
pub(crate) fn derive<'a>(rt: &'a HostRuntime, words: DeriveWords<'a>) -> ExitCode {
    let end = match end_of(rt, words) {
        Ok(end) | Err(end) => end,
    };
    ended(rt, &end, words.report)
}
