//! The program `mkedit`: edits a makefile by a script, and keeps every byte that no edit concerns.
//! What its words ask for, [`mk_cli`] reads; files are read and written by [`mk_fs`].
//!
//! - `edit`: a script over makefiles; `run`: over one of them, by [`mk_run::run_steps`].
//! - `derive`: a script out of two makefiles, by [`mk_derive`].
//! - `diff`: the diff of a makefile and its text, in place of that text, by [`mk_diff`].
//! - `input`: what is read, and what it is called; `destination`: where the text of a makefile goes.
//! - `several`: what is said of one of several makefiles; `named`: lines that begin with its name.
//! - `query`: what a makefile has, by [`mk_repl::found_for`].
//! - `exchanged`: whether script and makefile may be exchanged.
//! - `observer`: the observer of a run that keeps, for a person, what [`mk_notes`] says of its commands.
//! - `ending`: the message and the status.
//! - `session`: a makefile that is edited step by step, by [`mk_repl`].
#![tactic(auto)]

mod derive;
mod destination;
mod diff;
mod edit;
mod ending;
mod exchanged;
mod input;
mod named;
mod observer;
mod query;
mod run;
mod session;
mod several;

use ending::{BAD_COMMAND_LINE, End, answered, ended, printed};
use mk_cli::{
    CalledRefusal, Report, Request, asked_command, bad_files, command_line_words, put_explanation,
    put_help, read_command_line, tell_bad_words,
};
use mk_fs::WithError;
use mk_lines::StdSink;
use mk_run::Outcome;
use std::io::IsTerminal;
use std::process::ExitCode;

// Does what the command line asks for.
fn done(rt: &HostRuntime, words: &[String]) -> ExitCode {
    let bad_words = tell_bad_words(rt, words);
    if let Some(command) = asked_command(words) {
        let mut out = WithError::new(rt.stdout());
        let print = put_help(command, &mut StdSink::new(&mut out));
        return printed(rt, print, out.is_left());
    }
    match read_command_line(rt.alloc(), words) {
        Ok(request) if bad_files(&request) < bad_words => ExitCode::from(BAD_COMMAND_LINE),
        Ok(Request::Edit(mut words)) => {
            words.report = words.report.at(rt.stderr().is_terminal());
            edit::edit(rt, &words)
        }
        Ok(Request::Derive(mut words)) => {
            words.report = words.report.at(rt.stderr().is_terminal());
            derive::derive(rt, words)
        }
        Ok(Request::Query(mut words)) => {
            words.report = words.report.at(rt.stderr().is_terminal());
            query::ask(rt, &words)
        }
        Ok(Request::Explain(CalledRefusal(refusal))) => {
            let mut out = WithError::new(rt.stdout());
            let print = put_explanation(&refusal, &mut StdSink::new(&mut out));
            printed(rt, print, out.is_left())
        }
        Ok(Request::Session(words)) => session::session(rt, words),
        Err(error) => answered(rt, &error),
    }
}

fn main(rt: HostRuntime) -> ExitCode {
    match command_line_words(&rt) {
        Ok(words) => done(&rt, words.as_slice()),
        Err(_) => ended(&rt, &End::of(Outcome::NoMemory), Report::Plain),
    }
}
