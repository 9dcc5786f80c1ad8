//! One of the two makefiles, as its lines.

use mk_class::Class;
use mk_lines::Fault;
use mk_tree::{AssignmentRef, Doc, Line, Lines, RuleRef};
use std::alloc::{AllocError, Global};

/// A line of a makefile, with the rule in whose recipe it stands or may stand.
#[derive(Clone, Copy)]
pub(crate) struct SeenLine<'a> {
    /// The line.
    line: &'a Line,
    /// The line of the rule above it, with only lines between that do not end its recipe.
    rule: Option<&'a Line>,
    // How many bytes stand above it.
    start: usize,
}

impl<'a> SeenLine<'a> {
    /// The bytes of the line, with its line end.
    pub fn bytes(self) -> &'a [u8] {
        self.line.bytes()
    }

    /// What the line is.
    pub fn class(self) -> Class {
        self.line.class()
    }

    /// Whether it has only blanks.
    pub fn is_blank(self) -> bool {
        matches!(self.class(), Class::Blank)
    }

    /// Whether it has only a comment.
    pub fn is_comment(self) -> bool {
        matches!(self.class(), Class::Comment)
    }

    /// The assignment that it is.
    pub fn assignment(self) -> Option<AssignmentRef<'a>> {
        self.line.assignment()
    }

    /// The rule whose line it is.
    pub fn rule(self) -> Option<RuleRef<'a>> {
        self.line.rule()
    }

    /// The name of the variable that it assigns.
    pub fn name(self) -> Option<&'a [u8]> {
        Some(self.assignment()?.name())
    }

    /// The first target of the rule whose line it is.
    pub fn target(self) -> Option<&'a [u8]> {
        first_target(self.line)
    }

    /// The first target of the rule in whose recipe it is a line.
    pub fn recipe_target(self) -> Option<&'a [u8]> {
        match self.class() {
            Class::Recipe => first_target(self.rule?),
            _ => None,
        }
    }
}

// The first target of the rule whose line this is.
fn first_target(line: &Line) -> Option<&[u8]> {
    line.rule()?.targets().next()
}

/// A makefile as its lines.
#[derive(Drop)]
pub(crate) struct Text<'a> {
    bytes: &'a [u8],
    lines: Vec<SeenLine<'a>>,
}

/// The document of a text.
pub(crate) fn read(alloc: Global, text: &[u8]) -> Result<Doc, Fault> {
    Doc::open(alloc, text)
}

/// The lines of a document.
pub(crate) fn lines_of(doc: &Doc) -> Lines<'_> {
    doc.iter()
}

impl<'a> Text<'a> {
    /// The lines of a document, whose text is this.
    pub fn new(alloc: Global, doc: &'a Doc, bytes: &'a [u8]) -> Result<Text<'a>, AllocError> {
        let mut lines = Vec::new(alloc);
        let mut rule = None;
        let mut start = 0usize;
        for line in lines_of(doc) {
            rule = rule_at(line, rule);
            lines.push(SeenLine { line, rule, start })?;
            start = start.saturating_add(line.bytes().len());
        }
        Ok(Text { bytes, lines })
    }

    /// How many lines there are.
    pub fn len(&self) -> usize {
        self.lines.len()
    }

    /// The line at an index.
    pub fn line(&self, at: usize) -> Option<SeenLine<'a>> {
        self.lines.get(at).copied()
    }

    /// The line before an index.
    pub fn line_before(&self, at: usize) -> Option<SeenLine<'a>> {
        self.line(at.checked_sub(1)?)
    }

    /// The lines from an index up to another; as far as there are such lines.
    pub fn between(&self, start: usize, end: usize) -> &[SeenLine<'a>] {
        let lines = self.lines.as_slice();
        let end = end.min(lines.len());
        let start = start.min(end);
        &lines[start..end]
    }

    /// The text before the line at an index.
    pub fn before(&self, at: usize) -> &'a [u8] {
        part(self.bytes, 0, self.start(at))
    }

    /// The text from the line at an index on.
    pub fn after(&self, at: usize) -> &'a [u8] {
        after(self.bytes, self.start(at))
    }

    /// The bytes of each line.
    pub fn line_bytes(&self, alloc: Global) -> Result<Vec<&'a [u8]>, AllocError> {
        let mut bytes = Vec::new(alloc);
        for seen in &self.lines {
            bytes.push(seen.bytes())?;
        }
        Ok(bytes)
    }

    // Where the line at an index begins.
    fn start(&self, at: usize) -> usize {
        match self.line(at) {
            Some(seen) => seen.start,
            None => self.bytes.len(),
        }
    }
}

// The rule in whose recipe a line may stand, by that of the line before it.
fn rule_at<'a>(line: &'a Line, rule: Option<&'a Line>) -> Option<&'a Line> {
    match line.class() {
        Class::Header(_) => Some(line),
        Class::Recipe => rule,
        class if class.leaves_flag() => rule,
        _ => None,
    }
}

/// The block that some lines are: their physical lines without line ends, with LF between them.
pub(crate) fn block_of(alloc: Global, lines: &[SeenLine<'_>]) -> Result<Vec<u8>, AllocError> {
    block_around(alloc, &[], lines, &[])
}

/// The block that three runs of lines in a row are.
pub(crate) fn block_around(
    alloc: Global,
    above: &[SeenLine<'_>],
    lines: &[SeenLine<'_>],
    below: &[SeenLine<'_>],
) -> Result<Vec<u8>, AllocError> {
    let mut block = Vec::new(alloc);
    push_lines(&mut block, above)?;
    push_lines(&mut block, lines)?;
    push_lines(&mut block, below)?;
    if block.as_slice().ends_with(b"\n") {
        let _ = block.pop();
    }
    Ok(block)
}

// Puts lines behind a block.
fn push_lines(block: &mut Vec<u8>, lines: &[SeenLine<'_>]) -> Result<(), AllocError> {
    for seen in lines {
        push_line(block, seen.bytes())?;
    }
    Ok(())
}

// Puts a line behind a block, without the carriage returns in it.
fn push_line(block: &mut Vec<u8>, line: &[u8]) -> Result<(), AllocError> {
    for byte in line {
        if *byte != b'\r' {
            block.push(*byte)?;
        }
    }
    Ok(())
}

/// The text of a line without its line end.
pub(crate) fn without_end(bytes: &[u8]) -> &[u8] {
    match bytes {
        [text @ .., b'\r', b'\n'] => text,
        [text @ .., b'\n'] => text,
        text => text,
    }
}

/// A text from an index up to another; nothing if it has no such indices.
pub(crate) fn part(text: &[u8], start: usize, end: usize) -> &[u8] {
    text.get(start..end).unwrap_or(&[])
}

/// A text from an index on; nothing if it is not so long.
pub(crate) fn after(text: &[u8], at: usize) -> &[u8] {
    part(text, at, text.len())
}
