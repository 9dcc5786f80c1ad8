//! Words that are spelled alike: what somebody may have meant who wrote a word that is none.

use crate::table::{COMMANDS, CommandForm};

// What a text has behind its first bytes, of which there are so many.
fn behind(text: &[u8], count: usize) -> &[u8] {
    &text[text.len().min(count)..]
}

// Whether the first two bytes of two texts have changed places, and the rest is the same.
fn is_exchanged(one: &[u8], other: &[u8]) -> bool {
    match (one, other) {
        ([a, b, one_rest @ ..], [c, d, other_rest @ ..]) => {
            a.eq_ignore_ascii_case(d)
                && b.eq_ignore_ascii_case(c)
                && one_rest.eq_ignore_ascii_case(other_rest)
        }
        _ => false,
    }
}

/// Whether two words are spelled alike: they are the same up to the case of ASCII letters and one slip,
/// which is a byte too many, a byte too few, another byte, or two neighbours that have changed places.
pub fn are_alike(one: &[u8], other: &[u8]) -> bool {
    let same = one
        .iter()
        .zip(other)
        .take_while(|(a, b)| a.eq_ignore_ascii_case(b))
        .count();
    let (one, other) = (behind(one, same), behind(other, same));
    let (one_rest, other_rest) = (behind(one, 1), behind(other, 1));
    one_rest.eq_ignore_ascii_case(other_rest)
        || one_rest.eq_ignore_ascii_case(other)
        || one.eq_ignore_ascii_case(other_rest)
        || is_exchanged(one, other)
}

/// The first word with which commands begin that is spelled like this word, if there is one. Of several the
/// first of the table is meant.
pub fn nearest_command(word: &[u8]) -> Option<&'static str> {
    for (form, kind, _) in &COMMANDS {
        let command = CommandForm(form, *kind).word();
        if are_alike(word, command.as_bytes()) {
            return Some(command);
        }
    }
    None
}
