//! A glance at the parts of a text: whether a word may be one of their words, and from where on.
//!
//! Most lines do not have the word that an edit looks for, and to cut their parts into words takes
//! longer than to look behind each blank. The blanks of the whole text are searched together, since
//! a search of the library goes byte by byte through a text of fewer than 32 bytes, and most parts
//! are that short.
ghost use Rattle.std.specs.Prelude.{◌≡◌, ◌≤◌, None, false, length, drop, IfSome};
ghost use Rattle.mk_class.specs.Texts.{is_one_of};
ghost use Rattle.mk_lines.specs.Ranges.{text_at};
ghost use Rattle.mk_lines.specs.Words.{words_in};
ghost use Rattle.mk_edit_parts.specs.Glances.{EndsPart, IsPassed, StandsAt, StandsBehindNone};
ghost use Rattle.mk_edit_parts.specs.RenamedRanges.{ArePartsWithin, IsWithin, span};

use crate::text::is_same_text;
use crate::word_parts::WordParts;
use memchr::memchr2_iter;
use mk_class::blank::begins_with_blank;
use mk_lines::split::Span;
use mk_tree::part::{part, rest};

/// A longer word is not looked for. It may have blanks of its own, within references, and a text may
/// begin as the word does behind each of its blanks: then each look would take time by the length of
/// the word.
const LONGEST: usize = 255;

/// Whether a word may be one of the words of a part of a text. `false` is certain, and quicker than
/// cutting the part into words. Takes no memory, and time linear in the bytes of the text.
pub fn may_have_word(text: &[u8], span: Span, word: &[u8]) -> bool
    requires { IsWithin (length text.now) span }
    ensures { result ≡ false → is_one_of word.now (words_in (text_at text.now span)) ≡ false }
{
    if word.len() > LONGEST {
        return true;
    }
    let parts = WordParts {
        targets: span,
        normal: span,
        order_only: span,
    };
    stands_at(text, parts, span.start, word) || first_blank(text, span, parts, word).is_some()
}

/// Where a word may first be one of the words of some parts of a text. A part that ends at this
/// offset or before it does not have the word, and if there is no such offset, no part has it. A
/// part that ends behind the offset may have the word or not. Takes no memory, and time linear in
/// the bytes of the text.
pub fn first_place(text: &[u8], parts: WordParts, word: &[u8]) -> Option<usize>
    requires { ArePartsWithin (length text.now) parts }
    ensures targets { IsPassed result parts.targets.end
        → is_one_of word.now (words_in (text_at text.now parts.targets)) ≡ false }
    ensures normal { IsPassed result parts.normal.end
        → is_one_of word.now (words_in (text_at text.now parts.normal)) ≡ false }
    ensures order_only { IsPassed result parts.order_only.end
        → is_one_of word.now (words_in (text_at text.now parts.order_only)) ≡ false }
{
    if word.len() > LONGEST || stands_at_front(text, parts, word) {
        return Some(0);
    }
    let range = Span {
        start: 0,
        end: last_end(parts),
    };
    first_blank(text, range, parts, word)
}

// The end of the part that ends last.
fn last_end(parts: WordParts) -> usize
    ensures targets { parts.targets.end ≤ result }
    ensures normal { parts.normal.end ≤ result }
    ensures order_only { parts.order_only.end ≤ result }
    ensures one { EndsPart parts result }
{
    let end = parts.targets.end.max(parts.normal.end);
    end.max(parts.order_only.end)
}

// Whether a word may stand at the front of one of the parts.
fn stands_at_front(text: &[u8], parts: WordParts, word: &[u8]) -> bool
    requires { ArePartsWithin (length text.now) parts }
    ensures targets { result ≡ false
        → StandsAt text.now word.now parts parts.targets.start → ⊥ }
    ensures normal { result ≡ false → StandsAt text.now word.now parts parts.normal.start → ⊥ }
    ensures order_only { result ≡ false
        → StandsAt text.now word.now parts parts.order_only.start → ⊥ }
{
    stands_at(text, parts, parts.targets.start, word)
        || stands_at(text, parts, parts.normal.start, word)
        || stands_at(text, parts, parts.order_only.start, word)
}

// The first blank of a range behind which a word may stand.
fn first_blank(text: &[u8], range: Span, parts: WordParts, word: &[u8]) -> Option<usize>
    requires { range.end ≤ length text.now }
    ensures none { result ≡ None → StandsBehindNone text.now word.now parts range }
    ensures first { IfSome result (λ blank.
        StandsBehindNone text.now word.now parts (span range.start blank)) }
{
    'blanks: for blank in memchr2_iter(b' ', b'\t', text) {
        if blank >= range.end {
            return None;
        }
        if blank >= range.start && stands_at(text, parts, blank + 1, word) {
            return Some(blank);
        }
    }
    None
}

// Whether a word may stand at an offset: its bytes do, and behind them a part ends or a blank stands.
fn stands_at(text: &[u8], parts: WordParts, at: usize, word: &[u8]) -> bool
    requires { at ≤ length text.now }
    ensures { result ≡ false → StandsAt text.now word.now parts at → ⊥ }
{
    let ahead = rest(text, at);
    if ahead.len() < word.len() {
        return false;
    }
    let behind = rest(ahead, word.len());
    if !ends_part(parts, at + word.len()) && !begins_with_blank(behind) {
        return false;
    }
    let front = Span {
        start: 0,
        end: word.len(),
    };
    is_same_text(part(ahead, front), word)
}

// Whether one of the parts ends at an offset.
fn ends_part(parts: WordParts, end: usize) -> bool
    ensures { result ≡ false → EndsPart parts end → ⊥ }
{
    parts.targets.end == end || parts.normal.end == end || parts.order_only.end == end
}
