//! What a line would become that would not read as the edit of it says.
//!
//! The new line is made of the text of the old one, in which folds are spaces, and read by itself. So it may
//! be that no such line is found.

use crate::address::line_of;
use crate::line::{after_blanks, is_named};
use crate::misread::change_of;
use crate::part::Part::Text;
use crate::text::Notes;
use bstr::ByteSlice;
use mk_class::Class;
use mk_edit_language::{EachEdit, Edit};
use mk_edit_parts::address::Address;
use mk_edit_parts::comment::comment_mark;
use mk_edit_parts::each_line::{EachChange, each_change};
use mk_edit_parts::line_change::LineRewrite;
use mk_edit_parts::text::is_prefix_name;
use mk_lines::ends::is_open;
use mk_lines::{Fault, words};
use mk_queries::listing::{Position, numbered, rule_lines_for};
use mk_tree::{Doc, Line};
use std::alloc::{AllocError, Allocator};

impl<'a, A: Allocator, B: Allocator + Copy> Notes<'a, A, B> {
    /// Puts the notes on the first line that an edit of several lines would change and that would not read as
    /// it says: the line, and what it would become.
    pub(crate) fn first_misread<C: Allocator>(
        &mut self,
        each: &EachEdit<C>,
    ) -> Result<(), AllocError> {
        let change = each_change(each);
        if let EachEdit::SubstRecipe { nth, target, .. } = each {
            return self.first_misread_of(*nth, target, change);
        }
        for (at, line) in numbered(self.doc) {
            if is_meant(line, each) && self.becomes(at, change)? {
                return Ok(());
            }
        }
        Ok(())
    }

    // Puts the notes on the first such line in the recipes of the rules for a target, or of one of them.
    fn first_misread_of(
        &mut self,
        nth: Option<u32>,
        target: &[u8],
        change: EachChange<'_>,
    ) -> Result<(), AllocError> {
        for rule in rule_lines_for(self.doc, target) {
            if nth.is_some_and(|number| number != rule.nth) {
                continue;
            }
            for line in rule.recipe_lines() {
                if self.becomes(line.position, change)? {
                    return Ok(());
                }
            }
        }
        Ok(())
    }

    /// Puts the notes on the line of an edit of one that would not read as it says, and what it would become.
    pub(crate) fn misread_line<C: Allocator>(
        &mut self,
        edit: &Edit<C>,
        address: Address<'_>,
    ) -> Result<(), AllocError> {
        if let Some(at) = line_of(self.doc, address) {
            if let Edit::Uncomment { .. } = edit {
                return self.becomes_unmarked(at);
            }
            if let Some(change) = change_of(edit) {
                if self.becomes(at, change)? {
                    return Ok(());
                }
            }
        }
        self.meant(edit, address).map(|_| ())
    }

    // Puts the notes on a comment that would not read as an assignment: its line, and what it would become.
    fn becomes_unmarked(&mut self, at: Position) -> Result<(), AllocError> {
        let doc = self.doc;
        let text = doc.get(at.index).map_or(b"".as_slice(), |line| line.text());
        self.line(Some(at))?;
        self.would_become(part(text, comment_mark(text).end, text.len()))
    }

    // Puts the notes on a line if a change makes it one that does not read as stated: the line, and what it
    // would become. Hands out whether it does.
    fn becomes(&mut self, at: Position, change: EachChange<'_>) -> Result<bool, AllocError> {
        let Some(line) = self.doc.get(at.index) else {
            return Ok(false);
        };
        let Some(text) = misread_text(self.alloc, line, change)? else {
            return Ok(false);
        };
        self.line(Some(at))?;
        self.would_become(text.as_slice())?;
        Ok(true)
    }

    // Puts the note on what a line would become.
    fn would_become(&mut self, text: &[u8]) -> Result<(), AllocError> {
        let shown = Text(after_blanks(text));
        self.script_says("it would become `@`", &[shown])
    }
}

// Whether an edit of several lines means a line, by the line alone.
fn is_meant<A: Allocator, B: Allocator>(line: &Line<A>, each: &EachEdit<B>) -> bool {
    match each {
        EachEdit::ChangeEach { name, .. } => is_named(line, Address::Variable(None, name)),
        EachEdit::SubstValues { .. } => line
            .assignment()
            .is_some_and(|it| !is_prefix_name(it.name())),
        EachEdit::SubstRecipe { .. } | EachEdit::SubstRecipes { .. } => {
            matches!(line.class(), Class::Recipe)
        }
    }
}

// The text of the line that a change makes of another, if that does not read as stated.
fn misread_text<A: Allocator, B: Allocator + Copy>(
    alloc: B,
    line: &Line<A>,
    change: EachChange<'_>,
) -> Result<Option<Vec<u8, B>>, AllocError> {
    match change {
        EachChange::InAssignment(change) => misread_assignment(alloc, line, change),
        EachChange::InRecipe { from, to } => misread_recipe(alloc, line.bytes(), from, to),
    }
}

// The same of a change of an assignment's line.
fn misread_assignment<A: Allocator, B: Allocator + Copy>(
    alloc: B,
    line: &Line<A>,
    change: LineRewrite<'_>,
) -> Result<Option<Vec<u8, B>>, AllocError> {
    let Class::Assign(assignment, _) = line.class() else {
        return Ok(None);
    };
    let (text, at) = (line.text(), assignment.value);
    let Some(value) = new_value(alloc, part(text, at.start, at.end), change)? else {
        return Ok(None);
    };
    let (front, rest) = (part(text, 0, at.start), part(text, at.end, text.len()));
    let new = joined(alloc, front, &value, rest)?;
    let is_read = reads_as(alloc, &new, &value)?;
    Ok(if is_read { None } else { Some(new) })
}

// A value between two texts.
fn joined<B: Allocator>(
    alloc: B,
    front: &[u8],
    value: &[u8],
    rest: &[u8],
) -> Result<Vec<u8, B>, AllocError> {
    let mut all = Vec::new(alloc);
    push_all(&mut all, &[front, value, rest])?;
    Ok(all)
}

// Puts some texts behind another.
fn push_all<B: Allocator>(new: &mut Vec<u8, B>, texts: &[&[u8]]) -> Result<(), AllocError> {
    for text in texts {
        new.extend_from_slice(text)?;
    }
    Ok(())
}

// Whether a text reads as the line of an assignment of a value. So does one that is no document.
fn reads_as<B: Allocator + Copy>(alloc: B, text: &[u8], value: &[u8]) -> Result<bool, AllocError> {
    let Some(doc) = opened(alloc, text)? else {
        return Ok(true);
    };
    let read = doc.get(0).and_then(|line| line.assignment());
    Ok(doc.len() == 1 && read.is_some_and(|it| inner(it.value()) == inner(value)))
}

// The same of a text that is put in the place of another in a recipe line: the new line is cut in two, or goes
// on in the next one.
fn misread_recipe<B: Allocator + Copy>(
    alloc: B,
    line: &[u8],
    from: &[u8],
    to: &[u8],
) -> Result<Option<Vec<u8, B>>, AllocError> {
    let mut new = Vec::new(alloc);
    push_recipe(&mut new, line, from, to)?;
    let Some(doc) = opened(alloc, &new)? else {
        return Ok(None);
    };
    if doc.len() == 1 && (is_open(line) || !is_open(&new)) {
        return Ok(None);
    }
    first_text(alloc, &doc)
}

// Puts a recipe line behind a text, with `to` in the place of each occurrence of `from` behind its prefix.
fn push_recipe<B: Allocator>(
    new: &mut Vec<u8, B>,
    line: &[u8],
    from: &[u8],
    to: &[u8],
) -> Result<(), AllocError> {
    new.extend_from_slice(part(line, 0, 1))?;
    push_replaced(new, part(line, 1, line.len()), from, to)
}

// The text of the first line of a document.
fn first_text<B: Allocator + Copy>(
    alloc: B,
    doc: &Doc<B>,
) -> Result<Option<Vec<u8, B>>, AllocError> {
    let text = doc.get(0).map_or(b"".as_slice(), |line| line.text());
    Ok(Some(Vec::from_slice(alloc, text)?))
}

// The value that a change makes of another; none of a change of the operator, and of one that puts a word
// beside another.
fn new_value<B: Allocator + Copy>(
    alloc: B,
    value: &[u8],
    change: LineRewrite<'_>,
) -> Result<Option<Vec<u8, B>>, AllocError> {
    let mut new = Vec::new(alloc);
    let space: &[u8] = if value.is_empty() { b"" } else { b" " };
    let put = match change {
        LineRewrite::Prepend(text) => push_all(&mut new, &[text, space, value]),
        LineRewrite::ReplaceWord { word, value: text } => {
            push_with_words(&mut new, value, word, text)
        }
        LineRewrite::Substitute { from, to } => push_replaced(&mut new, value, from, to),
        LineRewrite::InsertWord { .. } | LineRewrite::SetOperator(_) => return Ok(None),
    };
    put?;
    Ok(Some(new))
}

// Puts a value behind a text, with a text in the place of each word of it that is this one.
fn push_with_words<B: Allocator>(
    new: &mut Vec<u8, B>,
    value: &[u8],
    word: &[u8],
    text: &[u8],
) -> Result<(), AllocError> {
    let mut done = 0;
    for at in words(value) {
        if part(value, at.start, at.end) == word {
            new.extend_from_slice(part(value, done, at.start))?;
            new.extend_from_slice(text)?;
            done = at.end;
        }
    }
    new.extend_from_slice(part(value, done, value.len()))
}

// A part of a text.
fn part(text: &[u8], start: usize, end: usize) -> &[u8] {
    text.get(start..end).unwrap_or_default()
}

// Puts a text behind another, with `to` in the place of each occurrence of `from` in it.
fn push_replaced<B: Allocator>(
    new: &mut Vec<u8, B>,
    text: &[u8],
    from: &[u8],
    to: &[u8],
) -> Result<(), AllocError> {
    let mut is_first = true;
    for piece in text.split_str(from) {
        new.extend_from_slice(if is_first { b"" } else { to })?;
        new.extend_from_slice(piece)?;
        is_first = false;
    }
    Ok(())
}

// The document of a text; none if it is too long or too deep.
fn opened<B: Allocator + Copy>(alloc: B, text: &[u8]) -> Result<Option<Doc<B>>, AllocError> {
    match Doc::open(alloc, text) {
        Ok(doc) => Ok(Some(doc)),
        Err(Fault::NoMemory) => Err(AllocError),
        Err(_) => Ok(None),
    }
}

// A value without the blanks at its ends.
fn inner(value: &[u8]) -> &[u8] {
    value.trim_ascii()
}
