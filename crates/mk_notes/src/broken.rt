//! Which rule a text breaks that may not stand where an edit has it.
//!
//! `mk_class` has the rules for names, values, words and recipe lines.

use mk_lines::{is_closed, units};

/// What is said of a text that ends in a backslash.
pub(crate) const ENDS_IN_BACKSLASH: &str = "ends in a backslash";

/// What a text has to be.
#[derive(Clone, Copy)]
pub(crate) enum Test {
    /// The name of a variable.
    Name,
    /// A value.
    Value,
    /// A word of a value.
    ValueWord,
    /// A target or a prerequisite.
    Word,
    /// The text of a recipe line.
    Line,
    /// A piece of a value.
    Text,
    /// Whole lines.
    Block,
}

/// The rule that a text breaks that is not what it has to be.
pub(crate) fn broken(text: &[u8], test: Test) -> &'static str {
    if text.is_empty() {
        return "is empty";
    }
    let barred = barred_byte(text, test);
    match test {
        Test::Name => "has other characters than ASCII letters, digits, `_`, `.` and `-`",
        Test::Line | Test::Text | Test::Block => barred.unwrap_or(ENDS_IN_BACKSLASH),
        Test::Value | Test::ValueWord | Test::Word => barred
            .or(outer_blank(text))
            .or(open_end(text))
            .or(barred_unit(text, test))
            .unwrap_or(last_byte(text)),
    }
}

// The byte of a text that no text of an edit may have, if it has one; a line feed may stand between two
// lines of a block.
fn barred_byte(text: &[u8], test: Test) -> Option<&'static str> {
    for byte in text {
        match *byte {
            b'\n' if !matches!(test, Test::Block) => return Some("has a line feed"),
            b'\r' => return Some("has a carriage return"),
            0 => return Some("has a NUL"),
            _ => {}
        }
    }
    None
}

// Where a text has a blank at its front or at its end, if it has one there.
fn outer_blank(text: &[u8]) -> Option<&'static str> {
    match text {
        [b' ' | b'\t', ..] => Some("begins with a blank"),
        [.., b' ' | b'\t'] => Some("ends in a blank"),
        _ => None,
    }
}

/// How a text ends that is not closed, if it is not.
pub(crate) fn open_end(text: &[u8]) -> Option<&'static str> {
    if is_closed(text) {
        return None;
    }
    let last = units(text).last()?;
    match text.get(last.start..last.end)? {
        [b'$', b'(', ..] => Some("has an unclosed `$(`"),
        [b'$', b'{', ..] => Some("has an unclosed `${`"),
        [b'$'] => Some("ends in a lone `$`"),
        _ => Some(ENDS_IN_BACKSLASH),
    }
}

/// The unit of a text that may not stand in what it has to be, if it has one.
pub(crate) fn barred_unit(text: &[u8], test: Test) -> Option<&'static str> {
    for at in units(text) {
        let unit = text.get(at.start..at.end).unwrap_or_default();
        let said = said_of_unit(unit, test);
        if said.is_some() {
            return said;
        }
    }
    None
}

// What is said of a unit that may not stand in a text, if it may not.
fn said_of_unit(unit: &[u8], test: Test) -> Option<&'static str> {
    match (unit, test) {
        ([b'#'], _) => Some("has a `#`, which begins a comment"),
        (_, Test::Value) => None,
        ([b' ' | b'\t'], _) => Some("has a blank outside a reference"),
        (_, Test::ValueWord) => None,
        ([b':'], _) => Some("has a `:` outside a reference"),
        ([b';'], _) => Some("has a `;` outside a reference"),
        ([b'='], _) => Some("has a `=` outside a reference"),
        ([b'|'], _) => Some("has a `|` outside a reference"),
        ([b'\\', ..], _) => Some("has a backslash outside a reference"),
        ([b'$', b' ' | b'\t' | b'\\', ..], _) => Some("has a lone `$`"),
        _ => None,
    }
}

// What is said of the last byte of a text where all else may stand.
fn last_byte(text: &[u8]) -> &'static str {
    match text {
        [.., b'&'] => "ends in `&`",
        _ => ENDS_IN_BACKSLASH,
    }
}
