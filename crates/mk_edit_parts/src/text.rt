//! Texts compared, and the words of a text.
ghost use Rattle.std.specs.Prelude.{◌≡◌};
ghost use Rattle.std.specs.Str.{bytes_eq};
ghost use Rattle.mk_class.specs.RecipePrefix.{is_prefix_name};
ghost use Rattle.mk_class.specs.Texts.{is_one_of};
ghost use Rattle.mk_lines.specs.Words.{words_in};

use mk_lines::split_first_word;

/// Whether two texts are the same.
pub fn is_same_text(left: &[u8], right: &[u8]) -> bool
    ensures { result ≡ bytes_eq left.now right.now }
{
    left == right
}

/// Whether a variable's name is that of the recipe prefix.
pub fn is_prefix_name(name: &[u8]) -> bool
    ensures { result ≡ is_prefix_name name.now }
{
    is_same_text(name, b".RECIPEPREFIX")
}

/// Whether a word is one of the words of a text.
pub fn has_word(text: &[u8], word: &[u8]) -> bool
    ensures { result ≡ is_one_of word.now (words_in text.now) }
{
    let mut rest = text;
    'words: while let Some((first, after)) = split_first_word(rest) {
        if is_same_text(word, first) {
            return true;
        }
        rest = after;
    }
    false
}
