//! Words: the maximal runs of units that are not single blanks.
//!
//! A blank is a space or a tab. A blank inside a reference, as in `$(subst x y,z,w)`, or after a
//! backslash is a part of a larger unit, and so it ends no word.
//!
//! make expands a text before it cuts words. That words are cut before any expansion, by units, is
//! this project's profile.
ghost use Rattle.std.specs.Prelude.{◌≡◌, ◌<◌, ◌≤◌, [], ◌∷◌, ◌++◌, length, IfSome, MatchOption};
ghost use Rattle.mk_lines.specs.Lists.{after_leading};
ghost use Rattle.mk_lines.specs.Ranges.{word_ranges};
ghost use Rattle.mk_lines.specs.Words.{words};
ghost use Rattle.mk_lines.specs.UnitWalk.{after_word};
ghost use Rattle.mk_lines.specs.Bytes.{is_blank_byte};

use crate::blank::{after_blanks, is_blank};
use crate::iter::Words;
use crate::unit::after_first_unit;

/// The words of a text, from its front to its end, each as the range of its bytes.
///
/// The module says what a word is. To go through all of them takes time linear in the bytes of the
/// text, and no memory.
pub fn words(text: &[u8]) -> Words<'_>
    ensures words { result ≡ word_ranges text.now }
    ensures count { length result ≤ length text.now }
{
    Words::new(text)
}

/// The word at the front of a text, after any blanks, and what follows it; or `None` if the text
/// has no word.
///
/// Called again on what follows, it gives the words one after the other, as [`words`] gives their
/// ranges. Takes no memory.
pub fn split_first_word(text: &[u8]) -> Option<(&[u8], &[u8])>
    ensures words { MatchOption result (words (λ b. b) text.now ≡ []) (λ parts.
        words (λ b. b) text.now ≡ parts.0.now ∷ words (λ b. b) parts.1.now) }
    ensures joined { IfSome result (λ parts.
        parts.0.now ++ parts.1.now ≡ after_leading is_blank_byte text.now) }
    ensures shorter { IfSome result (λ parts. length parts.1.now < length text.now) }
{
    let words = after_blanks(text);
    if words.is_empty() {
        return None;
    }
    let after = after_word(words);
    Some(words.split_at(words.len() - after.len()))
}

/// What follows the word at the front of a text: the text from its first unit on that is a blank,
/// or nothing if no unit is.
pub(crate) fn after_word(text: &[u8]) -> &[u8]
    ensures rest { result.now ≡ after_word text.now }
    ensures within { length result.now ≤ length text.now }
{
    let mut rest = text;
    while let [first, ..] = rest {
        if is_blank(*first) {
            break;
        }
        rest = after_first_unit(rest);
    }
    rest
}
