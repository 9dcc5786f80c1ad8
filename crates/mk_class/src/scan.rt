//! A text read from its front, one unit at a time.
//!
//! Each call answers the rest of the text, as a part of it; the units of the rest are the last
//! units of the text. If a byte does not stand in a text, none of its units is that byte. So the
//! marks of a line or a search for the byte come first, and most texts are not read by units at all;
//! in the others the bytes before the first `$` or backslash are units by themselves. All calls take
//! time linear in the bytes that they pass over or search, and no memory.
ghost use Rattle.std.specs.Prelude.{◌≡◌, ◌≤◌, ◌+◌, ◌++◌, List, [], ◌∷◌, ℕ, false, length, MatchOption};
ghost use Rattle.std.specs.List.{list_any};
ghost use Rattle.mk_lines.specs.Lists.{after_leading, trailing};
ghost use Rattle.mk_lines.specs.Units.{byte_mark, units, Unmarked};
ghost use Rattle.mk_lines.specs.Words.{is_gap};
ghost use Rattle.mk_lines.specs.Bytes.{is_blank_byte};
ghost use Rattle.mk_class.specs.CutTexts.{after_head, cut_text, head};
ghost use Rattle.mk_class.specs.TextClasses.{itself};
ghost use Rattle.mk_class.specs.Marks.{Cover};
ghost use Rattle.mk_class.specs.Scans.{AreUnmarked, IsSplitAt, is_one_byte_of, is_other};
ghost use Rattle.mk_class.specs.ListTests.{first_passes};
ghost use Rattle.mk_class.specs.Symbols.{is_colon, is_equals, is_hash};

use crate::blank::ends_with_blank;
use crate::marks::Marks;
use memchr::{memchr, memchr2, memchr3};
use mk_lines::{after_first_unit, is_blank};

/// What follows the blanks at the front of a text.
pub(crate) fn after_blanks(text: &[u8]) -> &[u8]
    ensures rest { units itself result.now ≡ after_leading (is_gap itself) (units itself text.now) }
    ensures within { length result.now ≤ length text.now }
{
    let mut rest = text;
    while let [first, after @ ..] = rest {
        if !is_blank(*first) {
            break;
        }
        rest = after;
    }
    rest
}

/// A text from its first unit on that is one of these bytes; nothing if no unit is.
///
/// None of the bytes may be `$` or a backslash, with which longer units begin.
pub(crate) fn from_any<'a>(text: &'a [u8], stops: &[u8]) -> &'a [u8]
    requires { AreUnmarked stops.now }
    ensures rest { units itself result.now
        ≡ after_leading (is_other stops.now) (units itself text.now) }
    ensures within { length result.now ≤ length text.now }
{
    let mut rest = text;
    while let [first, ..] = rest {
        if stops.contains(first) {
            break;
        }
        rest = after_first_unit(rest);
    }
    rest
}

/// A text from its first unit on that is this byte; nothing if no unit is.
///
/// The byte may be neither `$` nor a backslash. Most texts do not have the byte, and then no unit
/// is looked at.
#[inline]
fn from_unit(text: &[u8], byte: u8) -> &[u8]
    requires { byte_mark byte ≡ Unmarked }
    ensures rest { units itself result.now
        ≡ after_leading (is_other (byte ∷ [])) (units itself text.now) }
    ensures within { length result.now ≤ length text.now }
{
    match memchr(byte, text) {
        Some(_) => from_unit_by_marks(text, byte),
        None => &[],
    }
}

/// As [`from_unit`], for a text that has the byte, if maybe only within longer units.
///
/// A longer unit begins with `$` or a backslash. So each byte before the first of these is a unit
/// by itself, and is passed over by a search.
// This stays a call of its own, so that the search before it is inlined where texts are read.
#[inline(never)]
fn from_unit_by_marks(text: &[u8], byte: u8) -> &[u8]
    requires { byte_mark byte ≡ Unmarked }
    ensures rest { units itself result.now
        ≡ after_leading (is_other (byte ∷ [])) (units itself text.now) }
    ensures within { length result.now ≤ length text.now }
{
    let passed = memchr3(b'$', b'\\', byte, text).unwrap_or(text.len());
    from_any(&text[passed..], &[byte])
}

/// A text split at its first unit that is this byte, which is neither `$` nor a backslash: what
/// stands before the unit and what follows it. `None` if no unit is the byte.
pub(crate) fn split_at_unit(text: &[u8], byte: u8) -> Option<(&[u8], &[u8])>
    requires { byte_mark byte ≡ Unmarked }
    ensures { MatchOption result (after_leading (is_other (byte ∷ [])) (units itself text.now) ≡ [])
        (λ parts. IsSplitAt byte (units itself text.now) (units itself parts.0.now)
        (units itself parts.1.now)) }
{
    let rest = from_unit(text, byte);
    if rest.is_empty() {
        return None;
    }
    Some((before(text, rest), after_first_unit(rest)))
}

/// Whether some unit of a text is this byte, which is neither `$` nor a backslash.
pub(crate) fn has_unit(text: &[u8], byte: u8) -> bool
    requires { byte_mark byte ≡ Unmarked }
    ensures { result ≡ list_any (is_one_byte_of (byte ∷ [])) (units itself text.now) }
{
    !from_unit(text, byte).is_empty()
}

/// What stands in a text before `rest`, the end of that text.
pub(crate) fn before<'a>(text: &'a [u8], rest: &[u8]) -> &'a [u8]
    requires { length rest.now ≤ length text.now }
    ensures units { (front : List (List ℕ)) → units itself text.now ≡ front ++ units itself rest.now
        → units itself result.now ≡ front }
    ensures length { length result.now + length rest.now ≡ length text.now }
{
    &text[..text.len() - rest.len()]
}

/// Whether a text with these marks has a unit `#`.
pub(crate) fn has_hash(text: &[u8], marks: Marks) -> bool
    requires { Cover marks text.now }
    ensures { result ≡ list_any (is_hash itself) (units itself text.now) }
{
    marks.has_hash() && has_unit(text, b'#')
}

/// The cut text of a line with these marks: its joined text before a comment.
pub(crate) fn cut_text(text: &[u8], marks: Marks) -> &[u8]
    requires { Cover marks text.now }
    ensures { units itself result.now ≡ cut_text itself (units itself text.now) }
{
    if !marks.has_hash() {
        return text;
    }
    before(text, from_unit(text, b'#'))
}

/// The head of a rule's line with these marks, which is its joined text before a `;` or a comment,
/// and what follows the head.
pub(crate) fn split_head(text: &[u8], marks: Marks) -> (&[u8], &[u8])
    requires { Cover marks text.now }
    ensures head { units itself result.0.now ≡ head itself (units itself text.now) }
    ensures tail { units itself result.1.now ≡ after_head itself (units itself text.now) }
{
    if !marks.has_end_of_head() {
        return (text, &[]);
    }
    let tail = from_any(text, b";#");
    (before(text, tail), tail)
}

/// The blanks at the end of a text.
///
/// In a text without `$` and backslash each byte is a unit by itself, and the bytes are looked at
/// from the end. Other texts are read by units, from the front.
pub(crate) fn blanks_at_end(text: &[u8]) -> &[u8]
    ensures rest { units itself result.now ≡ trailing (is_gap itself) (units itself text.now) }
    ensures within { length result.now ≤ length text.now }
{
    if !ends_with_blank(text) {
        return &[];
    }
    if memchr2(b'$', b'\\', text).is_none() {
        return blank_bytes_at_end(text);
    }
    let mut rest = text;
    loop {
        let word = after_blanks(rest);
        if word.is_empty() {
            return rest;
        }
        rest = from_any(after_first_unit(word), b" \t");
    }
}

/// The bytes at the end of a text that are blanks, be they units or not.
fn blank_bytes_at_end(text: &[u8]) -> &[u8]
    ensures { result.now ≡ trailing is_blank_byte text.now }
{
    let mut end = text.len();
    while ends_with_blank(&text[..end]) {
        end -= 1;
    }
    &text[end..]
}

/// What follows a `=` at the front of a text; `None` if no `=` stands there.
pub(crate) fn after_equals(text: &[u8]) -> Option<&[u8]>
    ensures found { MatchOption result
        (first_passes (is_equals itself) (units itself text.now) ≡ false)
        (λ rest. units itself text.now ≡ (61 ∷ []) ∷ units itself rest.now) }
    ensures within { MatchOption result (0 ≤ 0) (λ rest. length rest.now ≤ length text.now) }
{
    match text {
        [b'=', rest @ ..] => Some(rest),
        _ => None,
    }
}

/// What follows a `:` at the front of a text; `None` if no `:` stands there.
pub(crate) fn after_colon(text: &[u8]) -> Option<&[u8]>
    ensures found { MatchOption result
        (first_passes (is_colon itself) (units itself text.now) ≡ false)
        (λ rest. units itself text.now ≡ (58 ∷ []) ∷ units itself rest.now) }
    ensures within { MatchOption result (0 ≤ 0) (λ rest. length rest.now ≤ length text.now) }
{
    match text {
        [b':', rest @ ..] => Some(rest),
        _ => None,
    }
}
