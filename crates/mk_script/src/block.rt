//! Blocks over several lines: a field `<<WORD`, whose lines stand below its command, up to the first that
//! is exactly WORD.
//!
//! Only the last fields of some commands are blocks. They take their lines one after the other.
ghost use Rattle.std.specs.Prelude.{◌≡◌, ◌≤◌, ◌+◌, length};
ghost use Rattle.mk_script.specs.BlockReading.{filled_field, plain_at, plain_behind, plain_behind_nth, plain_behind_try, plain_fields, plain_in_place, plain_of_command, plain_of_edit, texts_of_line, until_word};
ghost use Rattle.mk_script.specs.SeenFields.{field_text, field_texts, gathered_texts, seen};
ghost use Rattle.mk_script.specs.ReaderAnswers.{Passes, TakesLines};

use crate::fault::NotThere;
use crate::field::Field;
use crate::fields::fields_of;
use crate::lines::LinesBelow;
use crate::table::{Word, front_word};
use crate::word::{PlaceWord, place_word};
use arrayvec::ArrayVec;

// The most fields that a line has.
const MOST_FIELDS: usize = 9;

/// Passes the lines up to the first that is a word, and says how many stand before it.
pub(crate) fn pass_block(below: &mut LinesBelow<'_>, word: &[u8]) -> Option<u64>
    ensures passed { Passes (until_word word.now below.old.lines) result below.new.lines }
    ensures number { below.new.number + length below.new.lines
        ≡ below.old.number + length below.old.lines }
{
    let mut count = 0;
    'lines: while let Some(line) = below.next() {
        if line == word {
            return Some(count);
        }
        count += 1;
    }
    None
}

// A field, which may have the lines of a block below it if it is not plain: then these are in its place.
fn filled<'a>(
    is_plain: bool,
    field: Field<'a>,
    below: &mut LinesBelow<'a>,
) -> Result<Field<'a>, NotThere>
    ensures field { TakesLines field_text (filled_field is_plain (seen field.entry) below.old.lines)
        result below.new.lines }
    ensures number { below.new.number + length below.new.lines
        ≡ below.old.number + length below.old.lines }
{
    if is_plain {
        return Ok(field);
    }
    let Some(word) = field.end_word() else {
        return Ok(field);
    };
    let script = below.as_script();
    let Some(count) = pass_block(below, word) else {
        return Err(NotThere);
    };
    if count == 0 {
        return Err(NotThere);
    }
    Ok(Field::lines(script, count))
}

/// The fields of a line. The lines of the blocks of its command are passed, and stand in the place of
/// their fields.
///
/// # Errors
///
/// [`NotThere`] if the line has too many fields, or bad quotes; or if a block has no lines, or its word
/// never comes.
pub(crate) fn fields_with_blocks<'a>(
    line: &'a [u8],
    below: &mut LinesBelow<'a>,
) -> Result<ArrayVec<Field<'a>, 9>, NotThere>
    ensures fields { TakesLines gathered_texts (texts_of_line line.now below.old.lines)
        result below.new.lines }
    ensures number { below.new.number + length below.new.lines
        ≡ below.old.number + length below.old.lines }
{
    let fields = fields_of(line)?;
    let found = fields.as_slice();
    let mut plain = plain_fields(found);
    let mut all = ArrayVec::new();
    for field in found {
        let whole = filled(plain > 0, *field, below)?;
        all.push(whole);
        plain = plain.saturating_sub(1);
    }
    Ok(all)
}

/// How many fields of a line stand before those that may be blocks.
pub(crate) fn plain_fields(fields: &[Field<'_>]) -> usize
    ensures { result ≡ plain_fields (field_texts fields.now) }
{
    match front_word(fields) {
        Ok((word, others)) => 1 + plain_behind_try(word, others),
        Err(_) => MOST_FIELDS,
    }
}

// The same of the fields behind a word that may be `try`, `or` or `nth`.
fn plain_behind_try(word: Word, fields: &[Field<'_>]) -> usize
    ensures count { result ≡ plain_behind_try word (field_texts fields.now) }
    ensures within { result ≤ 12 }
{
    match word {
        Word::Try | Word::Or => plain_of_edit(fields),
        _ => plain_behind_nth(word, fields),
    }
}

// The same of an edit, before which `nth` and a number may stand.
fn plain_of_edit(fields: &[Field<'_>]) -> usize
    ensures count { result ≡ plain_of_edit (field_texts fields.now) }
    ensures within { result ≤ 12 }
{
    match front_word(fields) {
        Ok((word, others)) => 1 + plain_behind_nth(word, others),
        Err(_) => MOST_FIELDS,
    }
}

// The same of the fields behind a word that may be `nth`.
fn plain_behind_nth(word: Word, fields: &[Field<'_>]) -> usize
    ensures count { result ≡ plain_behind_nth word (field_texts fields.now) }
    ensures within { result ≤ 11 }
{
    match (word, fields) {
        (Word::Nth, [_, others @ ..]) => 1 + plain_of_command(others),
        _ => plain_behind(word, fields),
    }
}

// The same of a command, before which nothing stands.
fn plain_of_command(fields: &[Field<'_>]) -> usize
    ensures count { result ≡ plain_of_command (field_texts fields.now) }
    ensures within { result ≤ 10 }
{
    match front_word(fields) {
        Ok((word, others)) => 1 + plain_behind(word, others),
        Err(_) => MOST_FIELDS,
    }
}

// The same of the fields behind the word of a command: all of them, if it has no blocks.
fn plain_behind(word: Word, fields: &[Field<'_>]) -> usize
    ensures count { result ≡ plain_behind word (field_texts fields.now) }
    ensures within { result ≤ 9 }
{
    match word {
        Word::Insert => plain_in_place(fields),
        Word::LineReplace | Word::LineRemove => 0,
        Word::RuleReplace => 1,
        _ => MOST_FIELDS,
    }
}

// The same of the fields of `insert`, by its place.
fn plain_in_place(fields: &[Field<'_>]) -> usize
    ensures count { result ≡ plain_in_place (field_texts fields.now) }
    ensures within { result ≤ 9 }
{
    match fields {
        [] => MOST_FIELDS,
        [place, ..] => plain_at(place_word(*place)),
    }
}

// The same by the word of a place.
fn plain_at(place: Option<PlaceWord>) -> usize
    ensures count { result ≡ plain_at place }
    ensures within { result ≤ 9 }
{
    match place {
        Some(PlaceWord::Top | PlaceWord::Bottom | PlaceWord::BeforeLine | PlaceWord::AfterLine) =>
            1,
        Some(_) => 2,
        None => MOST_FIELDS,
    }
}
