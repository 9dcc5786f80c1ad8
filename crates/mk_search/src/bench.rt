//! The session in which commands are tried, and the script so far.

use crate::aim::Aim;
use crate::fault::DeriveError;
use mk_edit_language::{Edit, Refusal};
use mk_lines::Fault;
use mk_script::{LineError, line_of_edit};
use mk_session::Session;
use mk_tree::Doc;
use std::alloc::{AllocError, Global};

// No edit of the search is undone once it is kept.
const DEPTH: u32 = 1;

// The most lines that are tried by their numbers.
const MOST_NUMBERS: u32 = 64;

// The comment above a command that `nth` picks the line for.
const NUMBERED: &[u8] = b"# nth: several lines are like this one\n";

/// A session over the old makefile, with the script of the edits that were kept.
#[derive(Drop)]
pub(crate) struct Bench {
    alloc: Global,
    session: Session,
    script: Vec<u8>,
    // Whether a blank line goes before the next command.
    is_apart: bool,
    refusal: Option<Refusal>,
}

// The search needs nothing of what a session says of its text: these calls say nothing.

fn opened(alloc: Global, text: &[u8]) -> Result<Session, Fault> {
    Session::open(alloc, text, DEPTH)
}

fn begins(session: &mut Session) -> bool {
    session.begin().is_ok()
}

fn apply(session: &mut Session, edit: &Edit) -> Result<(), Refusal> {
    session.apply(edit)
}

fn end(session: &mut Session) {
    let _ = session.end();
}

fn cancel(session: &mut Session) {
    let _ = session.cancel();
}

fn doc_of(session: &Session) -> &Doc {
    session.doc()
}

fn lines_of_edit(alloc: Global, edit: &Edit) -> Result<Vec<u8>, LineError> {
    line_of_edit(alloc, edit)
}

impl Bench {
    /// A session over a makefile, and an empty script.
    pub fn open(alloc: Global, text: &[u8]) -> Result<Bench, Fault> {
        Ok(Bench {
            alloc,
            session: opened(alloc, text)?,
            script: Vec::new(alloc),
            is_apart: false,
            refusal: None,
        })
    }

    /// The allocator of all that is made.
    pub fn alloc(&self) -> Global {
        self.alloc
    }

    /// The makefile with the edits that were kept.
    pub fn doc(&self) -> &Doc {
        doc_of(&self.session)
    }

    /// The refusal of the edit that was tried last, if it was refused.
    pub fn refusal(&self) -> Option<Refusal> {
        self.refusal
    }

    /// Whether the edit that was tried last was refused for what the lines around it say: with more of them it
    /// may not be.
    pub fn is_unclear(&self) -> bool {
        matches!(self.refusal, Some(Refusal::Ambiguous(_) | Refusal::Already))
    }

    /// Puts what comes next apart from the commands above.
    pub fn begin_place(&mut self) {
        self.is_apart = !self.script.is_empty();
    }

    /// The script of the edits that were kept.
    pub fn into_script(self) -> Vec<u8> {
        self.script
    }

    /// Tries an edit, for which there may be no memory, as `tries_all` does.
    pub fn tries(
        &mut self,
        edit: Result<Edit, AllocError>,
        aim: Aim<'_>,
    ) -> Result<bool, DeriveError> {
        self.tries_all(&[edit?], aim)
    }

    /// Tries some edits, and keeps them if all are made and the text is then as a step aims at.
    pub fn tries_all(&mut self, edits: &[Edit], aim: Aim<'_>) -> Result<bool, DeriveError> {
        self.tries_below(b"", edits, aim)
    }

    /// Tries an edit; if it is refused since there are several such lines, then with the number of each.
    pub fn tries_numbered(&mut self, edit: &Edit, aim: Aim<'_>) -> Result<bool, DeriveError> {
        if self.tries(edit.clone(), aim)? {
            return Ok(true);
        }
        let Some(Refusal::Ambiguous(count)) = self.refusal else {
            return Ok(false);
        };
        for number in 1..MOST_NUMBERS {
            if u64::from(number) <= count && self.tries_number(edit, number, aim)? {
                return Ok(true);
            }
        }
        Ok(false)
    }

    // Tries an edit with the number of a line.
    fn tries_number(
        &mut self,
        edit: &Edit,
        number: u32,
        aim: Aim<'_>,
    ) -> Result<bool, DeriveError> {
        let edit = edit.clone()?.nth(number);
        self.tries_below(NUMBERED, &[edit], aim)
    }

    // Tries some edits as `tries_all` does. In the script this comment stands above them.
    fn tries_below(
        &mut self,
        comment: &[u8],
        edits: &[Edit],
        aim: Aim<'_>,
    ) -> Result<bool, DeriveError> {
        let Some(text) = script_of(self.alloc, comment, edits)? else {
            return Ok(false);
        };
        if !self.makes_all(edits)? {
            return Ok(false);
        }
        if aim.is_text_of(self.doc()) {
            self.keep(text.as_slice())?;
            return Ok(true);
        }
        self.refusal = None;
        self.cancel();
        Ok(false)
    }

    /// Makes some edits as a group that stays open. If one is refused, none is made, and no group is open.
    pub fn makes_all(&mut self, edits: &[Edit]) -> Result<bool, DeriveError> {
        if !begins(&mut self.session) {
            return Err(DeriveError::NoMemory);
        }
        for edit in edits {
            if !self.makes(edit)? {
                self.cancel();
                return Ok(false);
            }
        }
        Ok(true)
    }

    // Makes an edit, or keeps its refusal.
    fn makes(&mut self, edit: &Edit) -> Result<bool, DeriveError> {
        match apply(&mut self.session, edit) {
            Ok(()) => Ok(true),
            Err(Refusal::NoMemory) => Err(DeriveError::NoMemory),
            Err(refusal) => {
                self.refusal = Some(refusal);
                Ok(false)
            }
        }
    }

    /// Takes back the edits of the group that is open.
    pub fn cancel(&mut self) {
        cancel(&mut self.session);
    }

    /// Keeps the edits of the group that is open, whose lines of the script these are.
    pub fn keep(&mut self, text: &[u8]) -> Result<(), AllocError> {
        end(&mut self.session);
        if self.is_apart {
            self.script.extend_from_slice(b"\n")?;
            self.is_apart = false;
        }
        self.script.extend_from_slice(text)
    }
}

/// The lines of a script that say some edits, below a comment; `None` if no command says one of them.
pub(crate) fn script_of(
    alloc: Global,
    comment: &[u8],
    edits: &[Edit],
) -> Result<Option<Vec<u8>>, AllocError> {
    let mut script = Vec::from_slice(alloc, comment)?;
    for edit in edits {
        match lines_of_edit(alloc, edit) {
            Ok(lines) => script.extend_from_slice(lines.as_slice())?,
            Err(LineError::NoMemory) => return Err(AllocError),
            Err(_) => return Ok(None),
        }
    }
    Ok(Some(script))
}
