//! The text of the notes.
//!
//! It is lines of text, or an object of JSON for each of them: then what is said is gathered, and becomes a
//! member of the object.
ghost use Rattle.std.specs.Iterator.{IsFinite};

use crate::branch::BranchStart;
use crate::line::{after_blanks, kind};
use mk_cli::before_number;
use mk_escape::{Layout, TextSink, write_escaped};
use mk_lines::sink::write_all;
use mk_queries::Object;
use mk_queries::listing::Position;
use mk_tree::{Doc, Line};
use std::alloc::{AllocError, Allocator};
use std::mem;

/// How many lines a list shows at most.
pub(crate) const MOST_LINES: usize = 10;

/// How many bytes of a line's text a note shows at most.
const MOST_BYTES: usize = 100;

/// What makefile and script are called in notes, and the form of these.
#[derive(Clone, Copy)]
pub struct Names<'a> {
    /// What the makefile is called.
    pub makefile: &'a str,
    /// What the script is called.
    pub script: &'a str,
    /// Whether notes are lines of JSON.
    pub is_json: bool,
}

/// The notes on an edit, behind each other. Each call that puts a note fails with [`AllocError`] if a
/// growth is refused.
#[derive(Drop)]
pub(crate) struct Notes<'a, A: Allocator, B: Allocator> {
    /// The document of whose lines the notes tell.
    pub doc: &'a Doc<A>,
    /// Whether a sentence may walk over these lines.
    pub walks: bool,
    /// What makefile and script are called, and the form of the notes.
    pub names: Names<'a>,
    /// The allocator of their text.
    pub alloc: B,
    // The number of the line of the script, from 1.
    line: u64,
    // The lines of text; or what was said for the next member of an object.
    text: TextSink<B>,
    // The lines of JSON.
    json: Vec<u8, B>,
}

impl<'a, A: Allocator, B: Allocator + Copy> Notes<'a, A, B> {
    /// No notes yet.
    pub(crate) fn new(alloc: B, names: Names<'a>, line: u64, doc: &'a Doc<A>) -> Notes<'a, A, B> {
        Notes {
            doc,
            walks: false,
            names,
            alloc,
            line,
            text: TextSink::new(alloc),
            json: Vec::new(alloc),
        }
    }

    /// The text of the notes.
    pub(crate) fn into_text(self) -> Vec<u8, B> {
        if self.names.is_json {
            self.json
        } else {
            self.text.text
        }
    }

    /// Begins an object on the makefile, or on the line of the script.
    pub(crate) fn object(
        &mut self,
        kind: &str,
        is_on_script: bool,
    ) -> Result<Object<B>, AllocError> {
        let lines = mem::replace(&mut self.json, Vec::new(self.alloc));
        let mut object = Object::begin(self.alloc, lines)?;
        self.begin(&mut object, kind, is_on_script)?;
        Ok(object)
    }

    // Puts the first members of an object.
    fn begin(
        &self,
        object: &mut Object<B>,
        kind: &str,
        is_on_script: bool,
    ) -> Result<(), AllocError> {
        object.string("kind", kind)?;
        object.string("file", self.names.makefile)?;
        if is_on_script {
            object.string("script", self.names.script)?;
            object.number("line", self.line as usize)?;
        }
        Ok(())
    }

    /// Puts what was said into an object as a member, if anything was.
    pub(crate) fn member(&mut self, object: &mut Object<B>, name: &str) -> Result<(), AllocError> {
        let said = mem::replace(&mut self.text, TextSink::new(self.alloc)).text;
        if said.is_empty() {
            return Ok(());
        }
        object.text(name, said.as_slice())
    }

    /// Ends an object, whose sentence is what was said.
    pub(crate) fn end(&mut self, mut object: Object<B>) -> Result<(), AllocError> {
        self.member(&mut object, "sentence")?;
        self.json = object.end()?;
        Ok(())
    }

    /// Puts a note on the line of the script.
    pub(crate) fn script(&mut self, said: &[&[u8]]) -> Result<(), AllocError> {
        if self.names.is_json {
            self.push(said)?;
            let object = self.object("note", true)?;
            return self.end(object);
        }
        self.script_line()?;
        self.push(&[b": note: "])?;
        self.push(said)?;
        self.push(&[b"\n"])
    }

    /// Puts the name of the script and the number of the line in it.
    pub(crate) fn script_line(&mut self) -> Result<(), AllocError> {
        let script = self.names.script;
        self.place(script, before_number(script), self.line)
    }

    /// Puts a note on a line of the makefile, if there is one: the front of its text, what it is, and the
    /// innermost branch of a conditional in which it stands.
    pub(crate) fn line(&mut self, found: Option<Position>) -> Result<(), AllocError> {
        let Some(at) = found else {
            return Ok(());
        };
        let Some(line) = self.doc.get(at.index) else {
            return Ok(());
        };
        if self.names.is_json {
            return self.line_object(at, line);
        }
        self.place(self.names.makefile, ":", at.number as u64)?;
        self.push(&[b": note: "])?;
        self.excerpt(line.text())?;
        if let Some(said) = kind(line) {
            self.push(&[b"   (", said.as_bytes(), b")"])?;
        }
        self.branch(at)?;
        self.push(&[b"\n"])
    }

    // Puts the object on a line of the makefile, with the same parts.
    fn line_object(&mut self, at: Position, line: &Line<A>) -> Result<(), AllocError> {
        let mut object = self.object("note", false)?;
        self.line_members(&mut object, at, line)?;
        self.end(object)
    }

    // Puts the members of this object, and says what the line is.
    fn line_members(
        &mut self,
        object: &mut Object<B>,
        at: Position,
        line: &Line<A>,
    ) -> Result<(), AllocError> {
        object.number("line", at.number)?;
        self.excerpt(line.text())?;
        self.member(object, "text")?;
        if let Some(start) = BranchStart::of(self.doc, at) {
            object.number("branch", start.line.number)?;
        }
        self.push(&[kind(line).unwrap_or("").as_bytes()])
    }

    /// Puts the notes on some lines of the makefile: on the first ten, and how many more there are. Before
    /// the first one goes a note on the line of the script, if there is something to say. Hands out how
    /// many lines there are.
    pub(crate) fn lines<I: Iterator<Item = Position>>(
        &mut self,
        said: &[&[u8]],
        found: I,
    ) -> Result<usize, AllocError>
        requires can { I.can_next found }
        requires ends { IsFinite (I.remaining found) }
    {
        let mut count: usize = 0;
        for at in found {
            count = self.listed(said, count, at)?;
        }
        self.end_list(count)
    }

    /// Puts the note on one more line of a list that has so many; see [`Notes::lines`]. Hands out how many
    /// it has then.
    pub(crate) fn listed(
        &mut self,
        said: &[&[u8]],
        count: usize,
        at: Position,
    ) -> Result<usize, AllocError> {
        if count == 0 && !said.is_empty() {
            self.script(said)?;
        }
        if count < MOST_LINES {
            self.line(Some(at))?;
        }
        Ok(count.saturating_add(1))
    }

    /// Puts the note on how many more lines a list has than are shown. Hands out how many it has.
    pub(crate) fn end_list(&mut self, count: usize) -> Result<usize, AllocError> {
        if count > MOST_LINES {
            let mut digits = itoa::Buffer::new();
            let more = digits.format(count - MOST_LINES).as_bytes();
            if self.names.is_json {
                self.push(&[b"and ", more, b" more"])?;
                let object = self.object("note", false)?;
                self.end(object)?;
            } else {
                self.makefile()?;
                self.push(&[b": note: and ", more, b" more\n"])?;
            }
        }
        Ok(count)
    }

    // Puts the branch of a conditional in which the line at a position stands, if it stands in one.
    fn branch(&mut self, at: Position) -> Result<(), AllocError> {
        let Some(start) = BranchStart::of(self.doc, at) else {
            return Ok(());
        };
        let Some(line) = self.doc.get(start.line.index) else {
            return Ok(());
        };
        self.push(&[b"   (in `"])?;
        self.excerpt(line.text())?;
        self.push(&[b"`, "])?;
        self.place(self.names.makefile, ":", start.line.number as u64)?;
        self.push(&[b")"])
    }

    // Puts the front of a line's text, without the blanks before it.
    fn excerpt(&mut self, text: &[u8]) -> Result<(), AllocError> {
        self.front(after_blanks(text))
    }

    /// Puts the front of a text; that of a long one ends between two characters of UTF-8.
    pub(crate) fn front(&mut self, text: &[u8]) -> Result<(), AllocError> {
        let end = [MOST_BYTES, MOST_BYTES - 1, MOST_BYTES - 2]
            .into_iter()
            .find(|end| !matches!(text.get(*end), Some(0x80..=0xBF)))
            .unwrap_or(MOST_BYTES - 3);
        match text.split_at_checked(end) {
            Some((front, rest)) if !rest.is_empty() => self.push(&[front, b"..."]),
            _ => self.push(&[text]),
        }
    }

    /// Puts the name of the makefile.
    pub(crate) fn makefile(&mut self) -> Result<(), AllocError> {
        self.escape(self.names.makefile.as_bytes(), Layout::Escaped)
    }

    // Puts the name of a file and the number of a line in it, with a text between the two.
    fn place(&mut self, file: &str, between: &str, number: u64) -> Result<(), AllocError> {
        let mut digits = itoa::Buffer::new();
        self.escape(file.as_bytes(), Layout::Escaped)?;
        self.push(&[between.as_bytes(), digits.format(number).as_bytes()])
    }

    /// Puts some texts, one after the other, of which some may be from the makefile or the script.
    pub(crate) fn push(&mut self, parts: &[&[u8]]) -> Result<(), AllocError> {
        for part in parts {
            self.escape(part, Layout::Kept)?;
        }
        Ok(())
    }

    // Puts a text, its control characters escaped: JSON escapes them in its own way.
    fn escape(&mut self, text: &[u8], layout: Layout) -> Result<(), AllocError> {
        if self.text.is_failed {
            return Err(AllocError);
        }
        let put = if self.names.is_json {
            write_all(&mut self.text, text)
        } else {
            write_escaped(&mut self.text, text, layout)
        };
        put.map_err(|_| AllocError)
    }
}
