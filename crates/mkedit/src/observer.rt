//! The observer of a run that keeps, for a person, why a command is refused, and why an edit that is made
//! may do nothing in make.

use mk_notes::{Names, RunNotes};
use mk_run::{Observer, Reported};
use mk_session::{Edit, Session};
use std::alloc::Allocator;

/// An observer that keeps what is to be said of each refusal, and of each edit that is made. Where memory
/// ends, it keeps no more.
#[derive(Drop)]
pub struct NotesKept<'a, B: Allocator> {
    notes: RunNotes<'a, B>,
    /// What is to be said.
    pub text: Vec<u8, B>,
    /// Whether there was no memory for what is to be said of a refusal.
    pub is_full: bool,
}

impl<'a, B: Allocator + Copy> NotesKept<'a, B> {
    /// An observer that was told nothing yet.
    pub fn new(alloc: B, names: Names<'a>) -> NotesKept<'a, B> {
        NotesKept {
            notes: RunNotes::new(alloc, names),
            text: Vec::new(alloc),
            is_full: false,
        }
    }

    // Keeps a text behind all others.
    fn keep(&mut self, text: &[u8]) {
        self.is_full = self.is_full || self.text.extend_from_slice(text).is_err();
    }
}

impl<A: Allocator, B: Allocator + Copy> Observer<A> for NotesKept<'_, B> {
    fn refused(&mut self, reported: &Reported<'_, A>, session: &Session<A>) {
        let Reported {
            line,
            edit,
            refusal,
        } = *reported;
        match self.notes.refused(line, session.doc(), edit, refusal) {
            Ok(text) => self.keep(text.as_slice()),
            Err(_) => self.is_full = true,
        }
    }

    fn accepted(&mut self, line: u64, edit: &Edit<A>, session: &Session<A>) {
        if let Ok(text) = self.notes.accepted(line, session.doc(), edit) {
            self.keep(text.as_slice());
        }
    }

    fn passed_over(&mut self, line: u64, edit: &Edit<A>, session: &Session<A>) {
        if let Ok(text) = self.notes.passed_over(line, session.doc(), edit) {
            self.keep(text.as_slice());
        }
    }
}
