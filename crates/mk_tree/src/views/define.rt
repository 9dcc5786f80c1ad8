//! The name of a define.
ghost use Rattle.std.specs.Prelude.{◌≡◌, [], get_or};
ghost use Rattle.mk_lines.specs.Words.{words_in};
ghost use Rattle.mk_class.specs.Keywords.{after_modifiers, modifier_words};
ghost use Rattle.mk_class.specs.Texts.{is_one_of};

use mk_lines::split_first_word;

/// The second of the words that follow the modifiers in a text: the name, in the line that begins a
/// define. It is empty if there is none.
pub(crate) fn defined_name(text: &[u8]) -> &[u8]
    ensures { result.now ≡ get_or (after_modifiers (words_in text.now)) 1 [] }
{
    let mut rest = text;
    'modifiers: while let Some((word, after)) = split_first_word(rest) {
        if !is_modifier(word) {
            return first_word(after);
        }
        rest = after;
    }
    &[]
}

// The first word of a text, or nothing if it has none.
fn first_word(text: &[u8]) -> &[u8]
    ensures { result.now ≡ get_or (words_in text.now) 0 [] }
{
    match split_first_word(text) {
        Some((word, _)) => word,
        None => &[],
    }
}

// Whether a word is a modifier.
fn is_modifier(word: &[u8]) -> bool
    ensures { result ≡ is_one_of word.now modifier_words }
{
    word == b"override".as_slice() || word == b"export".as_slice() || word == b"private".as_slice()
}
