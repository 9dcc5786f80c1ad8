//! What is said of edits of whole lines: the lines that they speak of, and why one is refused.

use crate::address::number_in;
use crate::line::is_assigning;
use crate::part::Part::{Count, Makefile, Number, Text, Times, Words};
use crate::text::Notes;
use bstr::ByteSlice;
use mk_edit_language::{Place, Site};
use mk_edit_parts::address::Address;
use mk_lines::ends::without_line_end;
use mk_lines::words;
use mk_tree::Doc;
use std::alloc::{AllocError, Allocator};

/// The address of the line beside which whole lines go, or of the rule that goes for them, if the site names
/// one.
pub(crate) fn address_of_site<A: Allocator>(site: &Site<A>) -> Option<Address<'_>> {
    match site {
        Site::AtPlace(place) => address_of_place(place),
        Site::OfRule { nth, target } => Some(Address::Rule(*nth, target)),
        _ => None,
    }
}

// The address of a place of a new line, if it has one.
fn address_of_place<A: Allocator>(place: &Place<A>) -> Option<Address<'_>> {
    match place {
        Place::Top | Place::Bottom => None,
        Place::BeforeVar { nth, name } | Place::AfterVar { nth, name } => {
            Some(Address::Variable(*nth, name))
        }
        Place::AfterLastVar { name } => Some(Address::LastVariable(name)),
        Place::BeforeRule { nth, target } | Place::AfterRule { nth, target } => {
            Some(Address::Rule(*nth, target))
        }
    }
}

/// The number that a site gives, if it gives one.
pub(crate) fn number_of_site<A: Allocator>(site: &Site<A>) -> Option<u32> {
    match site {
        Site::BeforeLines { nth, .. } | Site::AfterLines { nth, .. } | Site::OfLines { nth, .. } =>
            *nth,
        _ => address_of_site(site).and_then(|it| number_in(it)),
    }
}

/// What the lines say that a site looks for, if it looks for lines.
pub(crate) fn sought_by<A: Allocator>(site: &Site<A>) -> Option<&[u8]> {
    match site {
        Site::BeforeLines { old, .. } | Site::AfterLines { old, .. } | Site::OfLines { old, .. } =>
            Some(old.as_slice()),
        Site::AtPlace(_) | Site::OfRule { .. } => None,
    }
}

/// Whether the lines of a document from an index on begin with lines that say a block.
pub(crate) fn is_run_at<A: Allocator>(doc: &Doc<A>, index: usize, block: &[u8]) -> bool {
    let mut left = block;
    for at in index..doc.len() {
        let Some(line) = doc.get(at) else {
            return false;
        };
        match left.strip_prefix(without_line_end(line.bytes())) {
            Some([]) => return true,
            Some([b'\n', rest @ ..]) => left = rest,
            _ => return false,
        }
    }
    false
}

// How many lines of a document begin lines that say a block.
fn count_of_runs<A: Allocator>(doc: &Doc<A>, block: &[u8]) -> u64 {
    let mut count: u64 = 0;
    for at in 0..doc.len() {
        count = count.saturating_add(u64::from(is_run_at(doc, at, block)));
    }
    count
}

/// The first line of a block.
pub(crate) fn first_line(block: &[u8]) -> &[u8] {
    block.split_str(b"\n").next().unwrap_or_default()
}

impl<'a, A: Allocator, B: Allocator + Copy> Notes<'a, A, B> {
    /// Puts which lines are missing that a site looks for.
    pub(crate) fn no_such_lines(&mut self, old: &[u8], nth: Option<u32>) -> Result<(), AllocError> {
        let nth = match nth {
            None | Some(1) => {
                self.say("@ does not have ", &[Makefile])?;
                return self.lines_of(old);
            }
            Some(0) => return self.say("counting starts at 1", &[]),
            Some(nth) => u64::from(nth),
        };
        self.say("@ has ", &[Makefile])?;
        self.lines_of(old)?;
        if !self.walks {
            return self.say(" fewer than @", &[Count(nth, "time")]);
        }
        match count_of_runs(self.doc, old) {
            0 => self.say(" nowhere", &[]),
            count => self.say(" @, and `nth @` is asked for", &[Times(count), Number(nth)]),
        }
    }

    /// Puts how often there are the lines that a site looks for.
    pub(crate) fn several_lines(&mut self, old: &[u8], count: u64) -> Result<(), AllocError> {
        self.say("@ has ", &[Makefile])?;
        self.lines_of(old)?;
        self.say(" @", &[Times(count)])
    }

    /// Puts that the new lines stand there already.
    pub(crate) fn lines_there(&mut self, new: &[u8]) -> Result<(), AllocError> {
        self.say("@ has ", &[Makefile])?;
        self.lines_of(new)?;
        self.say(" there already", &[])
    }

    /// Puts why new lines, or lines that go, would change how the lines below them read.
    pub(crate) fn lines_misread(&mut self, old: &[u8], new: &[u8]) -> Result<(), AllocError> {
        if let Some((line, said)) = unbalanced(new) {
            return self.say("the new line `@` @", &[Text(line), Words(said)]);
        }
        match unbalanced(old) {
            Some((line, said)) => self.say("the line `@` @", &[Text(line), Words(said)]),
            None => self.say(
                "no edit can change .RECIPEPREFIX or nest more than 256 conditionals",
                &[],
            ),
        }
    }

    // Puts the lines of a block, by the first of them.
    fn lines_of(&mut self, block: &[u8]) -> Result<(), AllocError> {
        let count = block.split_str(b"\n").count() as u64;
        let first = Text(first_line(block));
        if count > 1 {
            self.say("the @ from `@` on", &[Count(count, "line"), first])
        } else {
            self.say("the line `@`", &[first])
        }
    }
}

// The line of a block that opens a conditional or a define that no line of the block ends, or that ends
// one that none opens, and what it does; the last one that opens, or the first one that ends.
fn unbalanced(block: &[u8]) -> Option<(&[u8], &'static str)> {
    let mut open: u64 = 0;
    let mut opener = None;
    for line in block.split_str(b"\n") {
        match directive(line) {
            b"ifdef" | b"ifndef" | b"ifeq" | b"ifneq" => {
                open = open.saturating_add(1);
                opener = Some((line, "opens a conditional that goes on below"));
            }
            b"define" => {
                open = open.saturating_add(1);
                opener = Some((line, "opens a define that goes on below"));
            }
            b"endif" if open == 0 => return Some((line, "ends a conditional that begins above")),
            b"endef" if open == 0 => return Some((line, "ends a define that begins above")),
            b"endif" | b"endef" => open = open.saturating_sub(1),
            _ => {}
        }
    }
    if open > 0 { opener } else { None }
}

// The word of a line that may begin or end a conditional or a define: the first one behind modifiers, up
// to a comment. An assignment has none.
fn directive(line: &[u8]) -> &[u8] {
    for at in words(line) {
        let word = line.get(at.start..at.end).unwrap_or_default();
        let word = word.split_str(b"#").next().unwrap_or_default();
        if !matches!(word, b"export" | b"unexport" | b"override" | b"private") {
            let behind = line.get(at.end..).unwrap_or_default();
            return if is_assigning(behind) { &[] } else { word };
        }
    }
    &[]
}
