//! The sentence on a line that would not read as its edit says.

use crate::broken::{ENDS_IN_BACKSLASH, Test, barred_unit, open_end};
use crate::part::Part::Words;
use crate::text::Notes;
use mk_edit_language::Edit;
use mk_edit_parts::each_line::{EachChange, each_change};
use mk_edit_parts::line_change::{LineRewrite, rewrite_of};
use std::alloc::{AllocError, Allocator};

impl<'a, A: Allocator, B: Allocator + Copy> Notes<'a, A, B> {
    /// Puts that the new line, or one of several, would read differently, and what in the texts of the edit is
    /// the most likely cause.
    pub(crate) fn misread<C: Allocator>(&mut self, edit: &Edit<C>) -> Result<(), AllocError> {
        let which = Words(if matches!(edit, Edit::EachLine(_)) {
            "a"
        } else {
            "the"
        });
        self.say("@ new line would read differently", &[which])?;
        match change_of(edit).and_then(|change| cause_in(change)) {
            Some((text, said)) => self.say(": @ @", &[Words(text), Words(said)]),
            None => Ok(()),
        }
    }
}

/// What an edit that is checked by reading does to a line, if it is one.
pub(crate) fn change_of<A: Allocator>(edit: &Edit<A>) -> Option<EachChange<'_>> {
    match edit {
        Edit::ChangeLine { change, .. } => Some(EachChange::InAssignment(rewrite_of(change))),
        Edit::EachLine(each) => Some(each_change(each)),
        _ => None,
    }
}

// Which text of a change is the most likely cause, and what it has or how it ends.
fn cause_in(change: EachChange<'_>) -> Option<(&'static str, &'static str)> {
    let (new, old) = match change {
        EachChange::InAssignment(change) => {
            let (old, new) = texts_of(change);
            let said = open_end(new).or(barred_unit(new, Test::Value));
            (said, closing_byte(old))
        }
        EachChange::InRecipe { from, to } => (last_backslash(to), joining_byte(from)),
    };
    match (new, old) {
        (Some(said), _) => Some(("the new text", said)),
        (None, Some(said)) => Some(("the text to replace", said)),
        (None, None) => None,
    }
}

// The text that a change takes out of a value, within words too, and the one that it puts in.
fn texts_of(change: LineRewrite<'_>) -> (&[u8], &[u8]) {
    match change {
        LineRewrite::Prepend(value) | LineRewrite::ReplaceWord { value, .. } => (&[], value),
        LineRewrite::Substitute { from, to } => (from, to),
        LineRewrite::InsertWord { .. } | LineRewrite::SetOperator(_) => (&[], &[]),
    }
}

// The byte of a text without which what follows may read differently, if it has one.
fn closing_byte(text: &[u8]) -> Option<&'static str> {
    for byte in text {
        match *byte {
            b')' => return Some("has a `)`, which may close a reference"),
            b'}' => return Some("has a `}`, which may close a reference"),
            b'\\' => return Some("has a backslash, which may escape what follows"),
            _ => {}
        }
    }
    None
}

// Whether a text ends in a backslash, which would join the line with the next one.
fn last_backslash(text: &[u8]) -> Option<&'static str> {
    text.ends_with(b"\\").then_some(ENDS_IN_BACKSLASH)
}

// Whether a text has a backslash, without which a line may end.
fn joining_byte(text: &[u8]) -> Option<&'static str> {
    text.contains(&b'\\')
        .then_some("has a backslash, which may join two lines")
}
