//! The words of the command line as UTF-8.

use crate::request::{Input, Request};
use std::env::{Env, FillError};
use std::io;

// What stands for each byte beyond ASCII in a word that is not UTF-8. No word has it otherwise, and no
// file has it in its name.
const BAD: char = '\0';

// The words of the system, in each of which the bytes beyond ASCII are bad if it is not UTF-8.
#[derive(Drop)]
struct SystemWords<'a>(&'a HostRuntime);

impl Env for SystemWords<'_> {
    fn arg(&self, i: usize, buf: &mut [u8]) -> Result<usize, FillError> {
        let count = self.0.arg(i, buf)?;
        let Some(word) = buf.get_mut(..count) else {
            return Ok(count);
        };
        if std::str::from_utf8(word).is_err() {
            for byte in word {
                if !byte.is_ascii() {
                    *byte = BAD as u8;
                }
            }
        }
        Ok(count)
    }

    fn var(&self, name: &str, buf: &mut [u8]) -> Result<usize, FillError> {
        self.0.var(name, buf)
    }

    fn var_at(&self, i: usize, buf: &mut [u8]) -> Result<usize, FillError> {
        self.0.var_at(i, buf)
    }
}

/// The words of the command line, the program's name first. A word that is not UTF-8 is the name of no
/// file, and [`tell_bad_words`] says so.
///
/// # Errors
///
/// Want of memory.
pub fn command_line_words(rt: &HostRuntime) -> io::Result<Vec<String>> {
    let words = std::env::args(&(SystemWords(rt), rt.alloc()))?;
    Ok(words.collect(rt.alloc())?)
}

// Whether a word of the command line is UTF-8 there.
fn is_utf8(word: &str) -> bool {
    !word.contains(BAD)
}

/// Says which words of the command line are not UTF-8, and answers how many.
pub fn tell_bad_words(rt: &HostRuntime, words: &[String]) -> usize {
    let mut count: usize = 0;
    for (number, word) in words.iter().enumerate() {
        if !is_utf8(word) {
            let _ = eprintln!(rt; "mkedit: word {number} of the command line is not UTF-8");
            count = count.saturating_add(1);
        }
    }
    count
}

// How many of some makefiles have a name that is not UTF-8.
fn bad_in(files: &[Input<'_>]) -> usize {
    let mut count: usize = 0;
    for file in files {
        if let Input::File(name) = file {
            count = count.saturating_add(usize::from(!is_utf8(name)));
        }
    }
    count
}

/// How many of the words that a request names makefiles by are not UTF-8. Each of them is told of where
/// it cannot be opened.
pub fn bad_files<R>(request: &Request<'_, R>) -> usize {
    match request {
        Request::Edit(words) => bad_in(words.files.as_slice()),
        Request::Query(words) => bad_in(words.files.as_slice()),
        Request::Derive(words) => bad_in(&[words.old, words.new]),
        Request::Explain(_) | Request::Session(_) => 0,
    }
}
