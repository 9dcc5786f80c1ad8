//! The line on a refusal, and the notes below it.
//!
//! The numbers of lines are those of the document as it stands when the edit is refused: after
//! accepted edits no other number would say where the next command looks.

use crate::address::{count_of, line_of, meant_by, name_in};
use crate::line::{has_target, is_hidden, is_near};
use crate::open_value::is_open_to;
use crate::run_notes::{RunNotes, Walks};
use crate::text::Notes;
use crate::whole_lines::{address_of_site, is_run_at, number_of_site, sought_by};
use mk_class::Class;
use mk_edit_language::{Edit, LineChange, Place, Refusal, Site, ValueChange};
use mk_edit_parts::address::{Address, address_of};
use mk_edit_parts::lean::begins_with;
use mk_queries::listing::{Position, assignments_of, numbered};
use mk_tree::Doc;
use std::alloc::{AllocError, Allocator};

impl<C: Allocator + Copy> RunNotes<'_, C> {
    /// The line on a refusal of a command, and the notes below it, as a text: each line begins with the
    /// name of a file and mostly the number of a line in it. The document is the makefile as it stood when
    /// the command was refused; the numbers of lines are its own.
    ///
    /// The line on the refusal goes on with `error`, what the command asks for, what is so, and the refusal
    /// as reports name it: `use-clang:3: error: set LDFLAGS: config.mk assigns no LDFLAGS [4 NoSuch]`. A
    /// command that is no edit has no notes. The others go on with `note`:
    ///
    /// | Refusal of an edit | Notes on |
    /// |---|---|
    /// | `Ambiguous` | the lines that fit the address, and what tells one of them; the line itself, if several of its recipe lines or words fit |
    /// | `NoSuch` | if the number is too high, the lines of the name; otherwise the lines of other names that are spelled alike, and those that begin with the name and that no edit looks at |
    /// | `Absent`, `Already`, `SharedRule` | the line that the edit means; with `all` those of the name; the new lines that are there |
    /// | `Misread` | the line, or the first one, that would not read as the edit says, and what it would become; of an edit of whole lines those that are sought |
    /// | `OpenValue` | the line that the edit means; with `all` those that would be changed and whose value is open, except for a fold at its end, or all of the name if there are none |
    /// | `Straddles` | the line of the rule, and the first line of a conditional below it |
    /// | `Taken` | the lines for the new name |
    /// | `OpenLine` | the last line |
    /// | `OpenDefine` | the line that begins the define |
    /// | `Leans` | the first line below the change that begins with the recipe prefix |
    ///
    /// There are no notes on any other refusal. Of many lines ten are told of, those with the word of the
    /// edit before others, each by at most 100 bytes of its text.
    ///
    /// # Errors
    ///
    /// [`AllocError`] if a growth was refused.
    pub fn refused<A: Allocator, B: Allocator>(
        &mut self,
        line: u64,
        doc: &Doc<A>,
        edit: Option<&Edit<B>>,
        refusal: Refusal,
    ) -> Result<Vec<u8, C>, AllocError> {
        let mut notes = Notes::new(self.alloc, self.names, line, doc);
        notes.refusal(&mut self.refused, edit, refusal)?;
        Ok(notes.into_text())
    }

    /// The notes on an edit behind `try` that is passed over, since there is no line of its name: the lines
    /// of names that are spelled alike. They are as those of [`RunNotes::refused`].
    ///
    /// # Errors
    ///
    /// [`AllocError`] if a growth was refused.
    pub fn passed_over<A: Allocator, B: Allocator>(
        &mut self,
        line: u64,
        doc: &Doc<A>,
        edit: &Edit<B>,
    ) -> Result<Vec<u8, C>, AllocError> {
        let mut notes = Notes::new(self.alloc, self.names, line, doc);
        if let Some(address) = meant_by(edit) {
            notes.passed_over(&mut self.refused, address)?;
        }
        Ok(notes.into_text())
    }
}

impl<'a, A: Allocator, C: Allocator + Copy> Notes<'a, A, C> {
    // Puts the line on a refusal, and the notes below it.
    fn refusal<B: Allocator>(
        &mut self,
        walks: &mut Walks,
        edit: Option<&Edit<B>>,
        refusal: Refusal,
    ) -> Result<(), AllocError> {
        self.walks = walks.are_left();
        self.error(edit, refusal)?;
        if let Some(edit) = edit {
            if walks.may_walk(self)? {
                self.on_refusal(edit, refusal)?;
            }
        }
        Ok(())
    }

    // Puts the notes on the lines of names that are spelled like that of an address, if none has that.
    fn passed_over(&mut self, walks: &mut Walks, address: Address<'_>) -> Result<(), AllocError> {
        if walks.may_walk(self)? && count_of(self.doc, address) == 0 {
            let said = b"; did you mean one of these?";
            self.near(address, &[b"`try` finds no ", name_in(address), said])?;
        }
        Ok(())
    }

    // Puts the notes on a refusal of an edit.
    fn on_refusal<B: Allocator>(
        &mut self,
        edit: &Edit<B>,
        refusal: Refusal,
    ) -> Result<(), AllocError> {
        let doc = self.doc;
        match (refusal, edit) {
            (Refusal::OpenLine, _) => self.line(numbered(doc).last().map(|(at, _)| at)),
            (Refusal::OpenDefine, _) => self.line(last_define(doc)),
            (Refusal::Taken, Edit::RenameTarget { to, .. }) => self.taken(to),
            (Refusal::OpenValue, Edit::ChangeValues { name, change }) => self.open(name, change),
            (Refusal::Leans, _) => self.line(leaning(doc, edit)),
            (Refusal::Misread, Edit::EachLine(each)) => self.first_misread(each),
            (
                Refusal::Already,
                Edit::ExchangeLines {
                    block: Some(new),
                    ..
                },
            ) => self.runs(new).map(|_| ()),
            (_, Edit::ExchangeLines { site, .. }) if sought_by(site).is_some() => {
                self.on_sought_lines(sought_by(site).unwrap_or_default(), refusal)
            }
            _ => match meant_by(edit) {
                Some(address) => self.refused(edit, address, refusal),
                None => Ok(()),
            },
        }
    }

    // Puts the notes on a refusal of an edit that is about the lines of an address.
    fn refused<B: Allocator>(
        &mut self,
        edit: &Edit<B>,
        address: Address<'_>,
        refusal: Refusal,
    ) -> Result<(), AllocError> {
        match refusal {
            Refusal::Ambiguous(_) => self.ambiguous(edit, address),
            Refusal::NoSuch => self.missing(address),
            Refusal::Absent if matches!(edit, Edit::SetValueIf { .. }) => self
                .candidates(Address::Variable(None, name_in(address)), b"")
                .map(|_| ()),
            Refusal::Straddles => {
                self.meant(edit, address)?;
                self.line(conditional_below(self.doc, address))
            }
            Refusal::Absent | Refusal::Already | Refusal::SharedRule(_) | Refusal::OpenValue => self
                .meant(edit, address)
                .map(|_| ()),
            Refusal::Misread => self.misread_line(edit, address),
            _ => Ok(()),
        }
    }

    // Puts the notes on several lines of which an address means one, and what tells one of them. Where
    // there is one alone, it is its recipe lines or its words that are several.
    fn ambiguous<B: Allocator>(
        &mut self,
        edit: &Edit<B>,
        address: Address<'_>,
    ) -> Result<(), AllocError> {
        let count = self.meant(edit, address)?;
        if count < 2 {
            return Ok(());
        }
        self.say_which(count, takes_all(edit))
    }

    // Puts the notes on a refusal of an edit that looks for lines by what they say.
    fn on_sought_lines(&mut self, old: &[u8], refusal: Refusal) -> Result<(), AllocError> {
        match refusal {
            Refusal::Ambiguous(_) => {
                let count = self.runs(old)?;
                self.say_which(count, false)
            }
            Refusal::Misread => self.runs(old).map(|_| ()),
            _ => Ok(()),
        }
    }

    // Puts the notes on the lines that say a block. Hands out how often there are some.
    fn runs(&mut self, block: &[u8]) -> Result<usize, AllocError> {
        let doc = self.doc;
        let found = numbered(doc).filter_map(|(at, _)| is_run_at(doc, at.index, block).then_some(
            at,
        ));
        self.lines(&[], found)
    }

    // Puts what tells one of some lines, where `all` may stand for their numbers or not.
    fn say_which(&mut self, count: usize, all: bool) -> Result<(), AllocError> {
        let mut digits = itoa::Buffer::new();
        self.script(&[
            b"`nth 1`",
            between(count, all).as_bytes(),
            b"`nth ",
            digits.format(count).as_bytes(),
            behind(all).as_bytes(),
            b" before the command says which",
        ])
    }

    // Puts the notes on an address that fits no line.
    fn missing(&mut self, address: Address<'_>) -> Result<(), AllocError> {
        let count = self.candidates(address, b"")?;
        if count == 0 {
            return self.elsewhere(address);
        }
        let mut digits = itoa::Buffer::new();
        self.script(&[b"`nth` is at most ", digits.format(count).as_bytes()])
    }

    // Puts the notes on what is there in the place of a name that no line has.
    fn elsewhere(&mut self, address: Address<'_>) -> Result<(), AllocError> {
        let doc = self.doc;
        if self.near(address, &[])? > 0 {
            self.script(&[b"did you mean one of these?"])?;
        }
        let hidden = numbered(doc).filter_map(|(at, line)| is_hidden(line, address).then_some(at));
        if self.lines(&[], hidden)? > 0 {
            self.script(&[b"no edit looks at these lines"])?;
        }
        Ok(())
    }

    // Puts the notes on the lines of names that are spelled alike, below what is said of them. Hands out
    // how many there are.
    fn near(&mut self, address: Address<'_>, said: &[&[u8]]) -> Result<usize, AllocError> {
        let near = numbered(self.doc);
        let near = near.filter_map(|(at, line)| is_near(line, address).then_some(at));
        self.lines(said, near)
    }

    // Puts the notes on the lines for a target.
    fn taken(&mut self, target: &[u8]) -> Result<(), AllocError> {
        let doc = self.doc;
        let found = numbered(doc).filter_map(|(at, line)| has_target(line, target).then_some(at));
        self.lines(&[], found).map(|_| ())
    }

    // Puts the notes on the assignments of a name whose values are open to a change of each of them; on
    // all of them if there are none.
    fn open<B: Allocator>(
        &mut self,
        name: &[u8],
        change: &ValueChange<B>,
    ) -> Result<(), AllocError> {
        let doc = self.doc;
        let mut count = 0;
        for line in assignments_of(doc, name) {
            if is_open_to(line.assignment.value(), change) {
                count = self.listed(&[], count, line.position)?;
            }
        }
        if self.end_list(count)? == 0 {
            self.candidates(Address::Variable(None, name), b"")?;
        }
        Ok(())
    }
}

// What stands between the first and the last of some numbers, where `all` may stand for them or not.
fn between<'s>(count: usize, all: bool) -> &'s str {
    match (count, all) {
        (2, true) => ", ",
        (2, false) => " or ",
        _ => " to ",
    }
}

// What stands behind the last of some numbers.
fn behind<'s>(all: bool) -> &'s str {
    if all { "` or `all`" } else { "`" }
}

// Whether `all` may stand before the command of an edit.
fn takes_all<A: Allocator>(edit: &Edit<A>) -> bool {
    match edit {
        Edit::SetValue { .. }
        | Edit::SetValueIf { .. }
        | Edit::AppendValue { .. }
        | Edit::AddWord { .. }
        | Edit::RemoveWord { .. } => true,
        Edit::ChangeLine { change, .. } => !matches!(change, LineChange::InsertWord { .. }),
        _ => false,
    }
}

// The last line that begins a define.
fn last_define<A: Allocator>(doc: &Doc<A>) -> Option<Position> {
    numbered(doc)
        .filter(|(_, line)| line.define().is_some())
        .last()
        .map(|(at, _)| at)
}

// The first line of a conditional below the line of an address.
fn conditional_below<A: Allocator>(doc: &Doc<A>, address: Address<'_>) -> Option<Position> {
    let above = line_of(doc, address)?;
    numbered(doc)
        .find(|(at, line)| at.index > above.index && line.conditional().is_some())
        .map(|(at, _)| at)
}

// The first line that begins with the recipe prefix and stands below the change of an edit: below the
// line of its address or of its site, or at it if a new line goes above that one.
fn leaning<A: Allocator, B: Allocator>(doc: &Doc<A>, edit: &Edit<B>) -> Option<Position> {
    let change = match edit {
        Edit::ExchangeLines { site, .. } => line_at_site(doc, site)?,
        Edit::AddRule {
            place: Place::Top,
            ..
        } => numbered(doc).next()?.0,
        _ => line_of(doc, address_of(edit)?)?,
    };
    let prefix = prefix_at(doc, change);
    let is_above = goes_above(edit);
    numbered(doc)
        .find(|(at, line)| {
            let is_below = at.index > change.index || (is_above && at.index == change.index);
            is_below && begins_with(line.bytes(), prefix)
        })
        .map(|(at, _)| at)
}

// The line beside which whole lines go, or the first of the lines that go for them.
fn line_at_site<A: Allocator, B: Allocator>(doc: &Doc<A>, site: &Site<B>) -> Option<Position> {
    if let Some(address) = address_of_site(site) {
        return line_of(doc, address);
    }
    let old = sought_by(site).unwrap_or_default();
    let before = (number_of_site(site).unwrap_or(1) as usize).saturating_sub(1);
    numbered(doc)
        .filter(|(at, _)| {
            matches!(site, Site::AtPlace(Place::Top)) || is_run_at(doc, at.index, old)
        })
        .nth(before)
        .map(|(at, _)| at)
}

// Whether the new lines of an edit go above the line of its address or of its site.
fn goes_above<A: Allocator>(edit: &Edit<A>) -> bool {
    match edit {
        Edit::AddAssign { place, .. }
        | Edit::AddRule { place, .. }
        | Edit::ExchangeLines {
            site: Site::AtPlace(place),
            ..
        } => matches!(
            place,
            Place::Top | Place::BeforeVar { .. } | Place::BeforeRule { .. }
        ),
        Edit::ExchangeLines { site, .. } => matches!(site, Site::BeforeLines { .. }),
        _ => false,
    }
}

// The recipe prefix in force at a position.
fn prefix_at<A: Allocator>(doc: &Doc<A>, at: Position) -> u8 {
    numbered(doc)
        .take(at.index)
        .filter_map(|(_, line)| match line.class() {
            Class::Assign(_, prefix) => prefix,
            _ => None,
        })
        .last()
        .unwrap_or(b'\t')
}
