//! The fields of a line, read from its front.
//!
//! Blanks stand between fields, and may stand before and after them.
ghost use Rattle.std.specs.Prelude.{◌≡◌, ◌≤◌, false, length, option_map};
ghost use Rattle.mk_script.specs.Fields.{is_special};
ghost use Rattle.mk_script.specs.FieldReading.{after_blanks, bare_len, blanks_before, ends_field, fields_within, first_field, is_blank, quoted_field, until_quote};
ghost use Rattle.mk_script.specs.CommandReading.{front, one, three, two};
ghost use Rattle.mk_script.specs.SeenFields.{field_and_others, field_and_rest, field_text, field_texts, gathered, three_texts, two_parts, two_texts};
ghost use Rattle.mk_script.specs.ReaderAnswers.{IsFound};

use crate::fault::NotThere;
use crate::field::Field;
use arrayvec::ArrayVec;
use mk_lines::blank;

// How many blanks a text begins with.
fn blanks_before(text: &[u8]) -> usize
    ensures count { result ≡ blanks_before text.now }
    ensures within { result ≤ length text.now }
{
    text.iter()
        .take_while(|byte| blank::is_blank(**byte))
        .count()
}

/// How many bytes stand before the first blank of a text.
pub(crate) fn bare_len(text: &[u8]) -> usize
    ensures count { result ≡ bare_len text.now }
    ensures within { result ≤ length text.now }
{
    text.iter()
        .take_while(|byte| !blank::is_blank(**byte))
        .count()
}

/// What follows the blanks at the front of a text.
pub(crate) fn after_blanks(text: &[u8]) -> &[u8]
    ensures { result.now ≡ after_blanks text.now }
{
    &text[blanks_before(text)..]
}

/// Whether a text has only blanks.
pub(crate) fn is_blank(text: &[u8]) -> bool
    ensures { result ≡ is_blank text.now }
{
    matches!(after_blanks(text), [])
}

// Whether a text is empty or begins with a blank.
fn ends_field(text: &[u8]) -> bool
    ensures { result ≡ ends_field text.now }
{
    match text {
        [] => true,
        [first, ..] => blank::is_blank(*first),
    }
}

/// A text up to the quote that ends a field, and what follows the quote. A backslash before a quote
/// or before a backslash belongs to the field; no other backslash may stand there.
pub(crate) fn split_at_quote(text: &[u8]) -> Option<(&[u8], &[u8])>
    ensures { option_map two_parts result ≡ until_quote false text.now }
{
    let mut is_escaped = false;
    for (at, byte) in text.iter().enumerate() {
        if is_escaped {
            if !is_special(*byte) {
                return None;
            }
            is_escaped = false;
        } else if *byte == b'"' {
            return Some((&text[..at], &text[at + 1..]));
        } else {
            is_escaped = *byte == b'\\';
        }
    }
    None
}

/// Whether a byte is a quote or a backslash.
pub(crate) fn is_special(byte: u8) -> bool
    ensures { result ≡ is_special byte }
{
    matches!(byte, b'"' | b'\\')
}

// The field in a text that follows the field's opening quote, and what follows the field.
fn quoted_field(text: &[u8]) -> Result<(Field<'_>, &[u8]), NotThere>
    ensures { IsFound field_and_rest (quoted_field (until_quote false text.now)) result }
{
    match split_at_quote(text) {
        Some((written, rest)) if ends_field(rest) => Ok((Field::quoted(written), rest)),
        _ => Err(NotThere),
    }
}

/// The first field of a line, and what follows it.
///
/// # Errors
///
/// [`NotThere`] if the line has only blanks, or begins with a field whose quotes are bad.
pub(crate) fn first_field(line: &[u8]) -> Result<(Field<'_>, &[u8]), NotThere>
    ensures { IsFound field_and_rest (first_field line.now) result }
{
    let text = after_blanks(line);
    match text {
        [] => Err(NotThere),
        [b'"', quoted @ ..] => quoted_field(quoted),
        _ => {
            let (written, rest) = text.split_at(bare_len(text));
            Ok((Field::bare(written), rest))
        }
    }
}

/// The fields of a line. No command has more of them than `try nth N assign after-var NAME NAME OP VALUE`.
///
/// # Errors
///
/// [`NotThere`] if the line has more than nine fields, or if its quotes are bad.
pub(crate) fn fields_of(line: &[u8]) -> Result<ArrayVec<Field<'_>, 9>, NotThere>
    ensures { IsFound gathered (fields_within 9 line.now) result }
{
    let mut fields = ArrayVec::new();
    let mut rest = line;
    'read: while !is_blank(rest) {
        if fields.is_full() {
            return Err(NotThere);
        }
        let (field, others) = first_field(rest)?;
        fields.push(field);
        rest = others;
    }
    Ok(fields)
}

/// The first of some fields, and the others; an error if there is no field.
pub(crate) fn front<'b, 'a>(
    fields: &'b [Field<'a>],
) -> Result<(Field<'a>, &'b [Field<'a>]), NotThere>
    ensures { IsFound field_and_others (front (field_texts fields.now)) result }
{
    match fields {
        [] => Err(NotThere),
        [field, others @ ..] => Ok((*field, others)),
    }
}

/// The only field; an error if there is none, or more than one.
pub(crate) fn one<'a>(fields: &[Field<'a>]) -> Result<Field<'a>, NotThere>
    ensures { IsFound field_text (one (field_texts fields.now)) result }
{
    match fields {
        [field] => Ok(*field),
        _ => Err(NotThere),
    }
}

/// Two fields; an error if there are not exactly two.
pub(crate) fn two<'a>(fields: &[Field<'a>]) -> Result<(Field<'a>, Field<'a>), NotThere>
    ensures { IsFound two_texts (two (field_texts fields.now)) result }
{
    match fields {
        [first, second] => Ok((*first, *second)),
        _ => Err(NotThere),
    }
}

/// Three fields; an error if there are not exactly three.
pub(crate) fn three<'a>(fields: &[Field<'a>]) -> Result<(Field<'a>, Field<'a>, Field<'a>), NotThere>
    ensures { IsFound three_texts (three (field_texts fields.now)) result }
{
    match fields {
        [first, second, third] => Ok((*first, *second, *third)),
        _ => Err(NotThere),
    }
}
