//! The notes on the edits of a run, which walk over the makefile only so often.

use crate::tally::Tally;
use crate::text::{Names, Notes};
use std::alloc::{AllocError, Allocator};

/// How many lines of makefiles notes walk over, each as often as one edit needs: as for 1,000 edits of a
/// makefile of 1,000 lines.
const MOST_WALKED: usize = 1_000_000;

/// How many bytes count as one line in a makefile that has fewer lines: a walk reads the bytes.
const BYTES_OF_LINE: usize = 100;

/// Makes the notes on the edits of a run over one makefile, one edit after the other.
///
/// Notes are found by walks over the makefile. An edit that was made needs none where the makefile has
/// neither conditionals nor opaque lines, and one line alone for its variable or target. The other edits
/// that were made have 1,000,000 lines in all to walk over, and so have the refused ones; a makefile counts
/// once for each edit, by its lines or by each 100 bytes. After that a note says that further ones are left
/// out. So the notes of a run take time linear in its text and its edits.
#[derive(Drop)]
pub struct RunNotes<'a, A: Allocator> {
    pub(crate) alloc: A,
    pub(crate) names: Names<'a>,
    /// What the makefile has, once an edit was made.
    pub(crate) tally: Option<Tally<A>>,
    pub(crate) made: Walks,
    pub(crate) refused: Walks,
}

impl<'a, A: Allocator> RunNotes<'a, A> {
    /// Notes in which makefile and script have these names.
    pub fn new(alloc: A, names: Names<'a>) -> RunNotes<'a, A> {
        RunNotes {
            alloc,
            names,
            tally: None,
            made: Walks::new(),
            refused: Walks::new(),
        }
    }
}

/// How many lines may be walked over still.
#[derive(Clone, Copy)]
pub(crate) struct Walks {
    left: usize,
    is_told: bool,
}

impl Walks {
    fn new() -> Walks {
        Walks {
            left: MOST_WALKED,
            is_told: false,
        }
    }

    /// Whether one more walk may be taken.
    pub(crate) fn are_left(&self) -> bool {
        self.left > 0
    }

    /// Whether the notes on one more edit may walk over its makefile. The first time that they may not, a
    /// note says so.
    pub(crate) fn may_walk<A: Allocator, B: Allocator + Copy>(
        &mut self,
        notes: &mut Notes<'_, A, B>,
    ) -> Result<bool, AllocError> {
        if self.are_left() {
            let lines = notes.doc.len().max(notes.doc.size() / BYTES_OF_LINE);
            self.left = self.left.saturating_sub(lines.max(1));
            return Ok(true);
        }
        if !self.is_told {
            self.is_told = true;
            notes.script(&[
                b"no more notes like these: the makefile is too long for so many edits",
            ])?;
        }
        Ok(false)
    }
}
