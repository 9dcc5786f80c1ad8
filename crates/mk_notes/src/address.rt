//! The lines that an edit means.

use crate::line::is_named;
use crate::text::{MOST_LINES, Notes};
use crate::whole_lines::{address_of_site, number_of_site};
use memchr::memmem;
use mk_edit_language::{EachEdit, Edit, LineChange, ValueChange};
use mk_edit_parts::address::{Address, address_of, each_address_of};
use mk_edit_parts::seek::wanted;
use mk_queries::listing::{Position, RuleLine, numbered, rule_lines_for};
use mk_tree::Doc;
use std::alloc::{AllocError, Allocator};

/// The address of an edit or of its place; of one that means all lines of a name, that of the name without a
/// number.
pub(crate) fn meant_by<A: Allocator>(edit: &Edit<A>) -> Option<Address<'_>> {
    match edit {
        Edit::ChangeValues { name, .. } => Some(Address::Variable(None, name)),
        Edit::RenameTarget { from, .. } => Some(Address::Rule(None, from)),
        Edit::ExchangeLines { site, .. } => address_of_site(site),
        Edit::EachLine(each) => each_address_of(each),
        _ => address_of(edit),
    }
}

/// The number that an edit gives of the line or the lines that it means, if it gives one.
pub(crate) fn number_of<A: Allocator>(edit: &Edit<A>) -> Option<u32> {
    match edit {
        Edit::ExchangeLines { site, .. } => number_of_site(site),
        Edit::EachLine(each) => each_address_of(each).and_then(|address| number_in(address)),
        _ => address_of(edit).and_then(|address| number_in(address)),
    }
}

/// The name or the target of an address.
pub(crate) fn name_in<'a>(address: Address<'a>) -> &'a [u8] {
    match address {
        Address::Variable(_, name)
        | Address::LastVariable(name)
        | Address::Valued(_, name, _)
        | Address::Commented(_, name)
        | Address::Rule(_, name) => name,
    }
}

/// The number of an address, if it has one.
pub(crate) fn number_in(address: Address<'_>) -> Option<u32> {
    match address {
        Address::Variable(nth, _)
        | Address::Valued(nth, _, _)
        | Address::Commented(nth, _)
        | Address::Rule(nth, _) => nth,
        Address::LastVariable(_) => None,
    }
}

/// The word that an edit adds to lines, takes out of them, replaces or puts another one beside, the value or
/// the text in values or recipe lines that it replaces, or the new name of a target.
pub(crate) fn word_of<A: Allocator>(edit: &Edit<A>) -> Option<&[u8]> {
    match edit {
        Edit::AddWord { word, .. }
        | Edit::RemoveWord { word, .. }
        | Edit::AddPrereq { word, .. }
        | Edit::RemovePrereq { word, .. }
        | Edit::ReplacePrereq { old: word, .. }
        | Edit::SetValueIf { old: word, .. }
        | Edit::RenameTarget { to: word, .. }
        | Edit::ChangeValues {
            change: ValueChange::Add(word)
            | ValueChange::Remove(word)
            | ValueChange::SetIf { old: word, .. },
            ..
        }
        | Edit::EachLine(
            EachEdit::SubstValues { from: word, .. }
            | EachEdit::SubstRecipe { from: word, .. }
            | EachEdit::SubstRecipes { from: word, .. },
        ) => Some(word.as_slice()),
        Edit::ChangeLine { change, .. } | Edit::EachLine(EachEdit::ChangeEach { change, .. }) => {
            word_of_change(change)
        }
        _ => None,
    }
}

// The word of a value that a change replaces or puts another one beside, or the text that it replaces.
fn word_of_change<A: Allocator>(change: &LineChange<A>) -> Option<&[u8]> {
    match change {
        LineChange::ReplaceWord { word, .. }
        | LineChange::InsertWord { word, .. }
        | LineChange::Substitute { from: word, .. } => Some(word.as_slice()),
        LineChange::Prepend(_) | LineChange::SetOperator(_) => None,
    }
}

/// The line of the number of an address, or the first one that it may mean if it has no number; the last line
/// of the name of an address that means the last.
pub(crate) fn line_of<A: Allocator>(doc: &Doc<A>, address: Address<'_>) -> Option<Position> {
    let mut named = numbered(doc).filter(|(_, line)| is_named(line, address));
    let found = match address {
        Address::LastVariable(_) => named.last(),
        _ => named.nth(wanted(Some(address)).saturating_sub(1)),
    };
    found.map(|(at, _)| at)
}

/// The rule of the number of an address, or the first one that it may mean if it has no number; none if it
/// means no rule.
pub(crate) fn line_of_rule<'a, A: Allocator>(
    doc: &'a Doc<A>,
    address: Address<'a>,
) -> Option<RuleLine<'a, A>> {
    match address {
        Address::Rule(_, target) => {
            rule_lines_for(doc, target).nth(wanted(Some(address)).saturating_sub(1))
        }
        _ => None,
    }
}

/// How many lines have the name of an address.
pub(crate) fn count_of<A: Allocator>(doc: &Doc<A>, address: Address<'_>) -> u64 {
    let mut count: u64 = 0;
    for line in doc.iter() {
        count = count.saturating_add(u64::from(is_named(line, address)));
    }
    count
}

impl<'a, A: Allocator, B: Allocator + Copy> Notes<'a, A, B> {
    /// Puts the notes on the line of an address, or on all that it may mean if it has no number. Hands
    /// out how many these are.
    pub(crate) fn meant<C: Allocator>(
        &mut self,
        edit: &Edit<C>,
        address: Address<'_>,
    ) -> Result<usize, AllocError> {
        if number_in(address).is_none() {
            return self.candidates(address, word_of(edit).unwrap_or_default());
        }
        self.line(line_of(self.doc, address))?;
        Ok(1)
    }

    /// Puts the notes on all lines of the name of an address: on those with a word first, if there are too
    /// many to be shown. Hands out how many there are.
    pub(crate) fn candidates(
        &mut self,
        address: Address<'_>,
        word: &[u8],
    ) -> Result<usize, AllocError> {
        let doc = self.doc;
        let are_few = count_of(doc, address) <= MOST_LINES as u64;
        let mut count = 0;
        for is_first in [true, false] {
            for (at, line) in numbered(doc) {
                if is_named(line, address)
                    && is_first == (are_few || memmem::find(line.text(), word).is_some())
                {
                    count = self.listed(&[], count, at)?;
                }
            }
        }
        self.end_list(count)
    }
}
