//! The words of a text, as byte strings.
ghost use Rattle.std.specs.Prelude.{◌≡◌};
ghost use Rattle.mk_lines.specs.Words.{words_in};

use mk_lines::split_first_word;
use std::iter::FusedIterator;
use std::marker::Model;

/// The words of a text that are not yet given, from its front to its end. Contracts see their list.
///
/// A word is a run of bytes without a blank, where a reference such as `$(a b)` counts as one byte.
/// To go through all of them takes time linear in the bytes of the text, and no memory.
#[derive(Debug, Drop)]
pub struct WordTexts<'a> {
    rest: &'a [u8],
}

impl<'a> Model for WordTexts<'a> {
    ghost use Rattle.std.specs.Prelude.{ℕ, List};
    ghost use Rattle.mk_lines.specs.Words.{words_in};

    ghost Value = { List (List ℕ) };

    ghost view = { λ words. words_in words.rest.now };
}

impl<'a> WordTexts<'a> {
    /// All words of a text.
    pub fn new(text: &'a [u8]) -> WordTexts<'a>
        ensures { result ≡ words_in text.now }
    {
        WordTexts { rest: text }
    }
}

impl<'a> Iterator for WordTexts<'a> {
    type Item = &'a [u8];

    ghost use Rattle.std.specs.Iterator.{YieldsFirstBy, item_count};

    ghost next_gives = { YieldsFirstBy (λ word. word.now) (λ left. left) };

    ghost remaining = { item_count (λ left. left) };

    fn next(&mut self) -> Option<&'a [u8]> {
        let (word, rest) = split_first_word(self.rest)?;
        self.rest = rest;
        Some(word)
    }
}

impl<'a> FusedIterator for WordTexts<'a> {}
