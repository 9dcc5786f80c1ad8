//! The iterators over the units and the words of a text.
ghost use Rattle.std.specs.Prelude.{◌≡◌, ◌≤◌, List, length};
ghost use Rattle.std.specs.Iterator.{YieldsFirst, item_count};
ghost use Rattle.mk_lines.specs.Ranges.{unit_ranges, word_ranges};
ghost use Rattle.mk_lines.specs.UnitWalk.{units_left, words_left};
ghost use Rattle.mk_lines.specs.declared.split.Span.{Span};

use crate::blank::after_blanks;
use crate::split::Span;
use crate::unit::after_first_unit;
use crate::word::after_word;
use std::iter::FusedIterator;
use std::marker::Model;

/// The units of a text that are not yet given, each as the range of its bytes. Contracts see their
/// list.
///
/// The function [`units`](crate::units) makes it.
#[derive(Debug, Drop)]
pub struct Units<'a> {
    text_len: usize,
    rest: &'a [u8],
}

impl<'a> Model for Units<'a> {
    ghost Value = { List Span };

    ghost view = { λ units. units_left units.text_len units.rest.now };

    ghost invariant = { λ units. length units.rest.now ≤ units.text_len };
}

impl<'a> Units<'a> {
    /// All units of a text.
    pub(crate) fn new(text: &'a [u8]) -> Units<'a>
        ensures units { result ≡ unit_ranges text.now }
        ensures count { length result ≤ length text.now }
    {
        Units {
            text_len: text.len(),
            rest: text,
        }
    }
}

impl<'a> Iterator for Units<'a> {
    type Item = Span;

    ghost next_gives = { YieldsFirst (λ left. left) };

    ghost remaining = { item_count (λ left. left) };

    fn next(&mut self) -> Option<Span> {
        if self.rest.is_empty() {
            return None;
        }
        let start = self.text_len - self.rest.len();
        self.rest = after_first_unit(self.rest);
        let end = self.text_len - self.rest.len();
        Some(Span { start, end })
    }
}

impl<'a> FusedIterator for Units<'a> {}

/// The words of a text that are not yet given, each as the range of its bytes. Contracts see their
/// list.
///
/// The function [`words`](crate::words) makes it.
#[derive(Debug, Drop)]
pub struct Words<'a> {
    text_len: usize,
    rest: &'a [u8],
}

impl<'a> Model for Words<'a> {
    ghost Value = { List Span };

    ghost view = { λ words. words_left words.text_len words.rest.now };

    ghost invariant = { λ words. length words.rest.now ≤ words.text_len };
}

impl<'a> Words<'a> {
    /// All words of a text.
    pub(crate) fn new(text: &'a [u8]) -> Words<'a>
        ensures words { result ≡ word_ranges text.now }
        ensures count { length result ≤ length text.now }
    {
        Words {
            text_len: text.len(),
            rest: text,
        }
    }
}

impl<'a> Iterator for Words<'a> {
    type Item = Span;

    ghost next_gives = { YieldsFirst (λ left. left) };

    ghost remaining = { item_count (λ left. left) };

    fn next(&mut self) -> Option<Span> {
        self.rest = after_blanks(self.rest);
        if self.rest.is_empty() {
            return None;
        }
        let start = self.text_len - self.rest.len();
        self.rest = after_word(self.rest);
        let end = self.text_len - self.rest.len();
        Some(Span { start, end })
    }
}

impl<'a> FusedIterator for Words<'a> {}
