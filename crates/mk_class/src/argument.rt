//! What an edit may write: the tests of values, words, targets, names and commands.
//!
//! Each test looks at every byte a bounded number of times and takes no memory. Which text may be
//! written at which place is this project's profile: a text that passes the test of a place can
//! stand there, and the meaning of what stands around it does not change.
ghost use Rattle.std.specs.Prelude.{◌≡◌};
ghost use Rattle.std.specs.List.{list_all, list_any};
ghost use Rattle.mk_lines.specs.Units.{units};
ghost use Rattle.mk_class.specs.Arguments.{ends_word, is_ampersand_byte, is_backslash_byte, is_barred_byte, is_clean, is_command, is_name, is_name_byte, is_target, is_value, is_word};
ghost use Rattle.mk_class.specs.ListTests.{last_passes};
ghost use Rattle.mk_class.specs.Symbols.{is_hash};

use crate::blank::{begins_with_blank, ends_with_blank};
use mk_lines::{is_closed, split_first_unit};

/// Whether a text may be a variable's value.
///
/// A value has no line feed, carriage return or NUL and no unit `#`; its first and last byte is no
/// blank, and its last byte is no backslash; and it is closed. The empty text is a value.
pub fn is_value(text: &[u8]) -> bool
    ensures { result ≡ is_value text.now }
{
    is_clean(text)
        && !begins_with_blank(text)
        && !ends_with_blank(text)
        && is_closed(text)
        && !has_hash(text)
        && !ends_with_backslash(text)
}

/// Whether a text may be a word, such as a prerequisite.
///
/// A word is not empty, and it is closed. It has no line feed, carriage return or NUL, and no unit
/// that is a blank, `#`, `:`, `;`, `=` or `|`, that begins with a backslash, or that is a `$`
/// before a blank or a backslash.
pub fn is_word(text: &[u8]) -> bool
    ensures { result ≡ is_word text.now }
{
    !text.is_empty() && is_clean(text) && is_closed(text) && !has_word_end(text)
}

/// Whether a text may be a target: a word that does not end in `&`. A `:` after an `&` would make
/// it a part of the separator.
pub fn is_target(text: &[u8]) -> bool
    ensures { result ≡ is_target text.now }
{
    is_word(text) && !ends_with_ampersand(text)
}

/// Whether a text may be a variable's name: one or more of the ASCII letters, the digits, `_`, `.`
/// and `-`.
pub fn is_name(text: &[u8]) -> bool
    ensures { result ≡ is_name text.now }
{
    !text.is_empty() && has_name_bytes_only(text)
}

/// Whether a text may be the command of a recipe line.
///
/// A command has no line feed, carriage return or NUL, and its last byte is no backslash. The empty
/// text is a command.
pub fn is_command(text: &[u8]) -> bool
    ensures { result ≡ is_command text.now }
{
    is_clean(text) && !ends_with_backslash(text)
}

/// Whether a text has no line feed, carriage return or NUL.
fn is_clean(text: &[u8]) -> bool
    ensures { result ≡ is_clean text.now }
{
    !has_barred_byte(text)
}

/// Whether a text has a line feed, a carriage return or a NUL.
fn has_barred_byte(text: &[u8]) -> bool
    ensures { result ≡ list_any is_barred_byte text.now }
{
    text.iter().any(|byte| is_barred_byte(*byte))
}

/// Whether a byte is a line feed, a carriage return or a NUL, which no argument may have.
fn is_barred_byte(byte: u8) -> bool
    ensures { result ≡ is_barred_byte byte }
{
    matches!(byte, b'\n' | b'\r' | 0)
}

/// Whether a byte is a backslash.
fn is_backslash_byte(byte: u8) -> bool
    ensures { result ≡ is_backslash_byte byte }
{
    byte == b'\\'
}

/// Whether the last byte of a text is a backslash.
fn ends_with_backslash(text: &[u8]) -> bool
    ensures { result ≡ last_passes is_backslash_byte text.now }
{
    match text {
        [.., last] => is_backslash_byte(*last),
        [] => false,
    }
}

/// Whether the last byte of a text is `&`.
fn ends_with_ampersand(text: &[u8]) -> bool
    ensures { result ≡ last_passes is_ampersand_byte text.now }
{
    match text {
        [.., last] => *last == b'&',
        [] => false,
    }
}

/// Whether each byte of a text may stand in a name.
fn has_name_bytes_only(text: &[u8]) -> bool
    ensures { result ≡ list_all is_name_byte text.now }
{
    text.iter().all(|byte| is_name_byte(*byte))
}

/// Whether a byte may stand in a name.
fn is_name_byte(byte: u8) -> bool
    ensures { result ≡ is_name_byte byte }
{
    byte.is_ascii_alphanumeric() || matches!(byte, b'_' | b'.' | b'-')
}

/// Whether a text has a unit `#`.
fn has_hash(text: &[u8]) -> bool
    ensures { result ≡ list_any (is_hash (λ b. b)) (units (λ b. b) text.now) }
{
    let mut rest = text;
    'units: while let Some((unit, after)) = split_first_unit(rest) {
        if matches!(unit, [b'#']) {
            return true;
        }
        rest = after;
    }
    false
}

/// Whether a text has a unit that may stand in no word.
fn has_word_end(text: &[u8]) -> bool
    ensures { result ≡ list_any ends_word (units (λ b. b) text.now) }
{
    let mut rest = text;
    'units: while let Some((unit, after)) = split_first_unit(rest) {
        if ends_word(unit) {
            return true;
        }
        rest = after;
    }
    false
}

/// Whether a unit may stand in no word.
fn ends_word(unit: &[u8]) -> bool
    ensures { result ≡ ends_word unit.now }
{
    matches!(
        unit,
        [b' ' | b'\t' | b'#' | b':' | b';' | b'=' | b'|']
            | [b'\\', ..]
            | [b'$', b' ' | b'\t' | b'\\', ..]
    )
}
