//! Units: what a text is cut into before anything else is read in it.
//!
//! A makefile's text is cut from the left, byte by byte, so that what stands inside a variable
//! reference, or after a backslash, is not taken for a blank, a colon or a comment:
//!
//! - `$(` begins a reference, which ends where its `(` and `)` are level. Only these two count
//!   inside it, and nothing in it is escaped. `${` begins one in the same way with `{` and `}`. A
//!   reference that is not closed runs to the end of the text.
//! - `$` and any other byte are one unit, as in `$@` or `$$`.
//! - A backslash and the byte after it are one unit, unless that byte is a `$`, which keeps its
//!   meaning: then the backslash is a unit by itself.
//! - Each other byte is a unit, and so is a `$` or a backslash at the end of the text.
//!
//! References are those of the GNU make manual, "How to Use Variables: Basics of Variable
//! References". How a backslash is read, and that an unclosed reference takes the rest, is this
//! project's profile.
ghost use Rattle.std.specs.Prelude.{◌≡◌, ◌<◌, ◌≤◌, [], ◌∷◌, ◌++◌, Some, None, false, length, IfSome, MatchOption};
ghost use Rattle.mk_lines.specs.Units.{is_closed, units};
ghost use Rattle.mk_lines.specs.FirstUnit.{after_first_unit};
ghost use Rattle.mk_lines.specs.Ranges.{unit_ranges};
ghost use Rattle.mk_lines.specs.UnitWalk.{after_close};

use crate::iter::Units;

/// The units of a text, from its front to its end, each as the range of its bytes.
///
/// The ranges follow one another and cover the text; the module says what a unit is. To go through
/// all of them takes time linear in the bytes of the text, and no memory.
pub fn units(text: &[u8]) -> Units<'_>
    ensures units { result ≡ unit_ranges text.now }
    ensures count { length result ≤ length text.now }
{
    Units::new(text)
}

/// The unit at the front of a text and what follows it, or `None` if the text is empty.
///
/// Called again on what follows, it gives the units one after the other, as [`units`] gives their
/// ranges. Takes no memory.
pub fn split_first_unit(text: &[u8]) -> Option<(&[u8], &[u8])>
    ensures units { MatchOption result (text.now ≡ []) (λ parts.
        units (λ b. b) text.now ≡ parts.0.now ∷ units (λ b. b) parts.1.now) }
    ensures joined { IfSome result (λ parts. parts.0.now ++ parts.1.now ≡ text.now) }
    ensures shorter { IfSome result (λ parts. length parts.1.now < length text.now) }
{
    if text.is_empty() {
        return None;
    }
    let after = after_first_unit(text);
    Some(text.split_at(text.len() - after.len()))
}

/// Whether a text is closed: what is written after it does not become part of its last unit.
///
/// A text is not closed if its last unit is an unclosed reference, a lone `$` or a lone backslash.
/// The empty text is closed. The test takes time linear in the bytes of the text, and no memory.
pub fn is_closed(text: &[u8]) -> bool
    ensures { result ≡ is_closed (λ b. b) text.now }
{
    let mut rest = text;
    while !rest.is_empty() {
        match after_unit(rest) {
            Some(after) => rest = after,
            None => return false,
        }
    }
    true
}

/// What follows the first unit of a text; nothing if the text is empty.
///
/// So a text is read from its front, one unit at a time; the rest of it has the other units. The
/// time is linear in the bytes of the first unit. Takes no memory.
#[inline]
pub fn after_first_unit(text: &[u8]) -> &[u8]
    ensures rest { result.now ≡ after_first_unit (λ b. b) text.now }
    ensures shorter { 0 < length text.now → length result.now < length text.now }
    ensures within { length result.now ≤ length text.now }
{
    match text {
        [b'$' | b'\\', ..] => after_unit(text).unwrap_or_default(),
        [_, rest @ ..] => rest,
        [] => text,
    }
}

/// What follows the unit at the front of a text.
///
/// It is `None` if this unit is a lone `$`, a lone backslash at the end or an unclosed reference:
/// such a unit runs to the end of the text, and leaves the text open.
pub(crate) fn after_unit(text: &[u8]) -> Option<&[u8]>
    requires { 0 < length text.now }
    ensures after { MatchOption result (after_first_unit (λ b. b) text.now ≡ []) (λ rest.
        rest.now ≡ after_first_unit (λ b. b) text.now) }
    ensures closed { MatchOption result (is_closed (λ b. b) text.now ≡ false) (λ rest.
        is_closed (λ b. b) text.now ≡ is_closed (λ b. b) rest.now) }
{
    match text {
        [b'$', b'(', rest @ ..] => after_close(rest, b'(', b')'),
        [b'$', b'{', rest @ ..] => after_close(rest, b'{', b'}'),
        [b'$', _, rest @ ..] => Some(rest),
        [b'\\', b'$', ..] => Some(&text[1..]),
        [b'\\', _, rest @ ..] => Some(rest),
        [b'$'] | [b'\\'] | [] => None,
        [_, rest @ ..] => Some(rest),
    }
}

/// What follows the bracket that closes a reference whose opening bracket stands before the text;
/// `None` if no bracket closes it.
fn after_close(text: &[u8], opening: u8, closing: u8) -> Option<&[u8]>
    ensures { MatchOption result (after_close opening closing 0 text.now ≡ None) (λ rest.
        after_close opening closing 0 text.now ≡ Some rest.now) }
{
    let mut rest = text;
    let mut depth = 0usize;
    while let [byte, after @ ..] = rest {
        rest = after;
        if *byte == opening {
            depth += 1;
        } else if *byte == closing {
            if depth == 0 {
                return Some(rest);
            }
            depth -= 1;
        }
    }
    None
}
