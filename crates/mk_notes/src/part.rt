//! Sentences with names, texts and numbers in them.

use crate::text::Notes;
use std::alloc::{AllocError, Allocator};

/// What stands in a sentence for one `@`.
#[derive(Clone, Copy)]
pub(crate) enum Part<'a> {
    /// Words of its own.
    Words(&'a str),
    /// The name of the makefile.
    Makefile,
    /// A text of the script or of the makefile; of a long one the front.
    Text(&'a [u8]),
    /// A number.
    Number(u64),
    /// How often something is so: `once`, `twice`, `3 times`.
    Times(u64),
    /// How many of something there are: `no rule`, `1 rule`, `2 rules`.
    Count(u64, &'a str),
}

impl<'a, A: Allocator, B: Allocator + Copy> Notes<'a, A, B> {
    /// Puts a sentence, or a piece of one, with these parts for each `@` in it, in their order.
    pub(crate) fn say(&mut self, sentence: &str, parts: &[Part<'_>]) -> Result<(), AllocError> {
        let mut parts = parts.iter();
        let mut pieces = sentence.split('@');
        if let Some(words) = pieces.next() {
            self.push(&[words.as_bytes()])?;
        }
        for words in pieces {
            if let Some(part) = parts.next() {
                self.part(*part)?;
            }
            self.push(&[words.as_bytes()])?;
        }
        Ok(())
    }

    /// Puts a note on the line of the script that is such a sentence.
    pub(crate) fn script_says(
        &mut self,
        sentence: &str,
        parts: &[Part<'_>],
    ) -> Result<(), AllocError> {
        if self.names.is_json {
            self.say(sentence, parts)?;
            let object = self.object("note", true)?;
            return self.end(object);
        }
        self.script_line()?;
        self.say(": note: ", &[])?;
        self.say(sentence, parts)?;
        self.say("\n", &[])
    }

    // Puts a part of a sentence.
    fn part(&mut self, part: Part<'_>) -> Result<(), AllocError> {
        match part {
            Part::Words(words) => self.push(&[words.as_bytes()]),
            Part::Makefile => self.makefile(),
            Part::Text(text) => self.front(text),
            Part::Number(number) => self.number(number, ""),
            Part::Times(1) => self.push(&[b"once"]),
            Part::Times(2) => self.push(&[b"twice"]),
            Part::Times(count) => self.number(count, " times"),
            Part::Count(0, noun) => self.push(&[b"no ", noun.as_bytes()]),
            Part::Count(1, noun) => self.push(&[b"1 ", noun.as_bytes()]),
            Part::Count(count, noun) => {
                self.number(count, " ")?;
                self.push(&[noun.as_bytes(), b"s"])
            }
        }
    }

    // Puts a number, and a text behind it.
    fn number(&mut self, number: u64, behind: &str) -> Result<(), AllocError> {
        let mut digits = itoa::Buffer::new();
        self.push(&[digits.format(number).as_bytes(), behind.as_bytes()])
    }
}
