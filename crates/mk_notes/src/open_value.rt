//! The sentence on a value that is open: what is written behind it, or behind a word that stays, would be
//! read together with it.

use crate::address::{line_of, name_in};
use crate::broken::{Test, broken, open_end};
use crate::part::Part::{Text, Words};
use crate::text::Notes;
use mk_class::is_value;
use mk_edit_language::{Edit, ValueChange};
use mk_edit_parts::address::Address;
use mk_edit_parts::text::has_word;
use mk_edit_parts::value_words::bares_end;
use mk_lines::is_closed;
use mk_queries::listing::assignments_of;
use mk_tree::{Doc, WordTexts};
use std::alloc::{AllocError, Allocator};

impl<'a, A: Allocator, B: Allocator + Copy> Notes<'a, A, B> {
    /// Puts how the value ends that an edit would change, or the word before one that would go.
    pub(crate) fn open_value<'e, C: Allocator>(
        &mut self,
        edit: &'e Edit<C>,
        address: Address<'e>,
    ) -> Result<(), AllocError> {
        let name = Text(name_in(address));
        let of = Words(match edit {
            Edit::ChangeValues { .. } => "a value",
            _ => "the value",
        });
        if !self.walks {
            return self.say(
                "what would follow @ of @, or a word of it, could be read with it",
                &[of, name],
            );
        }
        let value = value_in(self.doc, edit, address).unwrap_or_default();
        match (open_end(value), taken_out(edit)) {
            (Some(end), _) => self.say("@ of @ @", &[of, name, Words(end)]),
            (None, None) => self.say("@ of @ ends in a line continuation", &[of, name]),
            (None, Some(word)) => {
                let end = broken(word_before(value, word), Test::Value);
                self.say("the word before @ @", &[Text(word), Words(end)])
            }
        }
    }
}

// The value that an edit would change and that is open, up to a fold at its end.
fn value_in<'d, A: Allocator, B: Allocator>(
    doc: &'d Doc<A>,
    edit: &'d Edit<B>,
    address: Address<'d>,
) -> Option<&'d [u8]> {
    match edit {
        Edit::ChangeValues { name, change } => assignments_of(doc, name)
            .find(|line| is_open_to(line.assignment.value(), change))
            .map(|line| line.assignment.value()),
        _ => {
            let line = doc.get(line_of(doc, address)?.index)?;
            Some(line.assignment()?.value())
        }
    }
}

// The word that an edit takes out of values, if it takes one.
fn taken_out<A: Allocator>(edit: &Edit<A>) -> Option<&[u8]> {
    match edit {
        Edit::RemoveWord { word, .. }
        | Edit::ChangeValues {
            change: ValueChange::Remove(word),
            ..
        } => Some(word.as_slice()),
        _ => None,
    }
}

// The word of a value that stands directly before this one and is no value by itself.
fn word_before<'v>(value: &'v [u8], word: &[u8]) -> &'v [u8] {
    let mut before: &[u8] = &[];
    for next in WordTexts::new(value) {
        if next == word && !is_value(before) {
            return before;
        }
        before = next;
    }
    before
}

/// Whether a value does not let a change pass. A fold at its end, which bars a new word, is not seen.
pub(crate) fn is_open_to<A: Allocator>(value: &[u8], change: &ValueChange<A>) -> bool {
    match change {
        ValueChange::Set(_) | ValueChange::SetIf { .. } | ValueChange::Append(_) => !is_closed(
            value,
        ),
        ValueChange::Add(word) => !is_closed(value) && !has_word(value, word),
        ValueChange::Remove(word) => {
            has_word(value, word) && (!is_closed(value) || bares_end(value, word))
        }
    }
}
