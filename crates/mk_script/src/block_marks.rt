//! The words that end the blocks of a line.
ghost use Rattle.std.specs.Prelude.{◌≡◌, ◌≤◌, ◌<◌, ◌+◌, ◌++◌, [], length, map, option_map};
ghost use Rattle.std.specs.List.{cons_option};
ghost use Rattle.mk_script.specs.BlockReading.{plain_fields};
ghost use Rattle.mk_script.specs.BlockWords.{block_words, word_of, words_among};
ghost use Rattle.mk_script.specs.SeenFields.{bytes, field_texts, seen};

use crate::block::plain_fields;
use crate::field::Field;
use crate::fields::fields_of;
use arrayvec::ArrayVec;

/// The words of the blocks of a line, without its line end: one for each field `<<WORD` that may be a block,
/// in their order. The blocks of a command are the lines below it up to each of these words in turn.
pub fn block_words(line: &[u8]) -> ArrayVec<&[u8], 9>
    ensures { map bytes result.items ≡ block_words line.now }
{
    match fields_of(line) {
        Ok(fields) => words_among(fields.as_slice()),
        Err(_) => ArrayVec::new(),
    }
}

// The words of the blocks of fields.
fn words_among<'a>(fields: &[Field<'a>]) -> ArrayVec<&'a [u8], 9>
    requires { length fields.now ≤ 9 }
    ensures { map bytes result.items
        ≡ words_among (plain_fields (field_texts fields.now)) (map seen fields.now) }
{
    let mut plain = plain_fields(fields);
    let mut words = ArrayVec::new();
    for field in fields {
        push_word(&mut words, word_of(plain > 0, *field));
        plain = plain.saturating_sub(1);
    }
    words
}

// Puts a word behind others, if there is one.
fn push_word<'a>(words: &mut ArrayVec<&'a [u8], 9>, word: Option<&'a [u8]>)
    requires { length words.old.items < 9 }
    ensures words { map bytes words.new.items
        ≡ map bytes words.old.items ++ cons_option (option_map bytes word.entry) [] }
    ensures few { length words.new.items ≤ length words.old.items + 1 }
{
    if let Some(word) = word {
        words.push(word);
    }
}

// The word of the block of a field that may have one if it is not plain.
fn word_of<'a>(is_plain: bool, field: Field<'a>) -> Option<&'a [u8]>
    ensures { option_map bytes result ≡ word_of is_plain (seen field.entry) }
{
    if is_plain { None } else { field.end_word() }
}
