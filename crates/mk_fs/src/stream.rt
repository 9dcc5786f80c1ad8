//! Files, standard input and texts in memory as one kind of reader.

use std::fs::File;
use std::io;
use std::io::{Read, Stdin};

/// What bytes are read from.
#[derive(Drop)]
pub enum Stream<'a> {
    /// A file that is open.
    File(File),
    /// Standard input.
    Standard(Stdin),
    /// A text in memory.
    Text(&'a [u8]),
}

impl Read for Stream<'_> {
    fn read(&mut self, buf: &mut [u8]) -> io::Result<usize> {
        match self {
            Stream::File(file) => file.read(buf),
            Stream::Standard(input) => input.read(buf),
            Stream::Text(text) => text.read(buf),
        }
    }
}
