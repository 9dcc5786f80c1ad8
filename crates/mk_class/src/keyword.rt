//! The words that say what a line is: those of conditionals, defines and the other directives, and
//! the modifiers.
//!
//! The words are the GNU make manual's; POSIX.1-2024 make has `include` and `-include` of them.
//! That a line goes by its first word, or by the first word after the modifiers, as the text stands
//! and not as it expands, is this project's profile.
ghost use Rattle.std.specs.Prelude.{◌≡◌};
ghost use Rattle.std.specs.Str.{bytes_eq};
ghost use Rattle.mk_lines.specs.Units.{units};
ghost use Rattle.mk_class.specs.ClassTable.{defines_prefix, directive, directive_by};
ghost use Rattle.mk_class.specs.FirstWords.{known_class, meant_keyword, modifier, text_words};
ghost use Rattle.mk_class.specs.ListTests.{first_passes};
ghost use Rattle.mk_class.specs.Keywords.{after_modifiers, directive_words, first_keyword, if_words, is_reserved_word, keyword, may_begin_reserved};
ghost use Rattle.mk_class.specs.TextClasses.{body_text_class, itself};
ghost use Rattle.mk_class.specs.Texts.{is_one_of};

use crate::assignment::Modifier;
use crate::class::Class;
use crate::context::Nesting;
use mk_lines::split_first_word;

/// What the first word of a line says.
#[derive(Clone, Copy, Debug, PartialEq, Eq)]
pub(crate) enum Keyword {
    /// `define`.
    Define,
    /// `endef`.
    Endef,
    /// A word that opens a conditional: `ifeq`, `ifneq`, `ifdef` or `ifndef`.
    If,
    /// `else`.
    Else,
    /// `endif`.
    Endif,
    /// Another directive, before which no modifier stands.
    Directive,
    /// `undefine`, before which modifiers may stand.
    Undefine,
}

/// What a word says as the first of a line. Its first byte says with which keywords it is compared:
/// with none for most words.
pub(crate) fn keyword_of(word: &[u8]) -> Option<Keyword>
    ensures { meant_keyword result ≡ keyword word.now }
{
    let [first, ..] = word else {
        return None;
    };
    match first {
        b'd' if is_text(word, b"define") => Some(Keyword::Define),
        b'e' if is_text(word, b"endef") => Some(Keyword::Endef),
        b'e' if is_text(word, b"else") => Some(Keyword::Else),
        b'e' if is_text(word, b"endif") => Some(Keyword::Endif),
        b'i' if is_if_word(word) => Some(Keyword::If),
        b'u' if is_text(word, b"undefine") => Some(Keyword::Undefine),
        b'-' | b'e' | b'i' | b'l' | b's' | b'u' | b'v' if is_directive_word(word) => {
            Some(Keyword::Directive)
        }
        _ => None,
    }
}

/// The modifier that a word is. Its first byte says with which one it is compared.
pub(crate) fn modifier_of(word: &[u8]) -> Option<Modifier>
    ensures { result ≡ modifier word.now }
{
    let [first, ..] = word else {
        return None;
    };
    match first {
        b'o' if is_text(word, b"override") => Some(Modifier::Override),
        b'e' if is_text(word, b"export") => Some(Modifier::Export),
        b'p' if is_text(word, b"private") => Some(Modifier::Private),
        _ => None,
    }
}

/// Whether a word is one that no target of a rule may be, since a line that begins with it would be
/// read in another way: the word of a directive or a conditional, or a modifier. Takes no memory.
///
/// These are `ifeq`, `ifneq`, `ifdef`, `ifndef`, `else`, `endif`, `define`, `endef`, `undefine`,
/// `include`, `-include`, `sinclude`, `load`, `-load`, `export`, `unexport`, `override`, `private`
/// and `vpath`. That an edit writes none of them as a target is this project's profile.
pub fn is_reserved_word(word: &[u8]) -> bool
    ensures { result ≡ is_reserved_word word.now }
{
    keyword_of(word).is_some() || modifier_of(word).is_some()
}

/// The class that the words of a cut text say, if they say one. Then the first word is a reserved
/// word. Most lines begin with a byte that begins no reserved word, and their first word is not cut.
pub(crate) fn directive_class(text: &[u8], in_conditional: bool) -> Option<Class>
    ensures { result ≡ known_class (directive in_conditional (text_words text.now)) }
{
    if !may_begin_reserved(text) {
        return None;
    }
    let (word, _) = split_first_word(text)?;
    let first = keyword_of(word);
    if modifier_of(word).is_none() {
        return class_by(first, first, text, in_conditional);
    }
    let bare = after_modifiers(text);
    class_by(first, first_keyword(bare), bare, in_conditional)
}

/// Whether the first word of a text may be a reserved word: the text begins with a blank, or with a
/// byte that begins a reserved word.
fn may_begin_reserved(text: &[u8]) -> bool
    ensures { result ≡ first_passes may_begin_reserved text.now }
{
    matches!(
        text,
        [
            b' ' | b'\t' | b'-' | b'd' | b'e' | b'i' | b'l' | b'o' | b'p' | b's' | b'u' | b'v',
            ..
        ]
    )
}

/// The class that keywords say: the first word of a text, and the first of `bare`, which is the text
/// after its modifiers.
fn class_by(
    first: Option<Keyword>,
    unmodified: Option<Keyword>,
    bare: &[u8],
    in_conditional: bool,
) -> Option<Class>
    ensures { result ≡ known_class (directive_by (meant_keyword first) (meant_keyword unmodified)
        in_conditional (text_words bare.now)) }
{
    match (first, unmodified) {
        (_, Some(Keyword::Define)) => Some(Class::DefineHead(defines_prefix(bare))),
        (Some(Keyword::If), _) => Some(Class::If),
        (Some(Keyword::Else), _) if in_conditional => Some(Class::Else),
        (Some(Keyword::Endif), _) if in_conditional => Some(Class::Endif),
        (Some(Keyword::Directive), _) | (_, Some(Keyword::Undefine)) => Some(Class::Directive),
        _ => None,
    }
}

/// The class of a line in a define, from its joined text: by its first word and the number of open
/// defines, unless the line begins with the recipe prefix.
pub(crate) fn body_class(text: &[u8], is_led: bool, defines: u32) -> Class
    ensures { result ≡ body_text_class is_led defines (units itself text.now) }
{
    if is_led {
        return Class::Body(Nesting::Keeps);
    }
    match first_keyword(text) {
        Some(Keyword::Define) => Class::Body(Nesting::Opens),
        Some(Keyword::Endef) if defines == 1 => Class::Endef,
        Some(Keyword::Endef) => Class::Body(Nesting::Closes),
        _ => Class::Body(Nesting::Keeps),
    }
}

/// What the first word of a text says.
#[tactic(auto, using(crate::proofs::WordLemmas::word_rules))]
fn first_keyword(text: &[u8]) -> Option<Keyword>
    ensures { meant_keyword result ≡ first_keyword (text_words text.now) }
{
    let (word, _) = split_first_word(text)?;
    keyword_of(word)
}

/// What follows the modifiers at the front of a text.
#[tactic(auto, using(crate::proofs::WordLemmas::word_rules))]
fn after_modifiers(text: &[u8]) -> &[u8]
    ensures { text_words result.now ≡ after_modifiers (text_words text.now) }
{
    let mut rest = text;
    'words: while let Some((word, after)) = split_first_word(rest) {
        if modifier_of(word).is_none() {
            break;
        }
        rest = after;
    }
    rest
}

/// Whether the second word of a text is `.RECIPEPREFIX`.
#[tactic(auto, using(crate::proofs::WordLemmas::word_rules))]
fn defines_prefix(text: &[u8]) -> bool
    ensures { result ≡ defines_prefix (text_words text.now) }
{
    let Some((_, rest)) = split_first_word(text) else {
        return false;
    };
    let Some((name, _)) = split_first_word(rest) else {
        return false;
    };
    is_text(name, b".RECIPEPREFIX")
}

/// Whether a word opens a conditional.
fn is_if_word(word: &[u8]) -> bool
    ensures { result ≡ is_one_of word.now if_words }
{
    is_text(word, b"ifeq")
        || is_text(word, b"ifneq")
        || is_text(word, b"ifdef")
        || is_text(word, b"ifndef")
}

/// Whether a word is that of another directive, except `undefine`.
fn is_directive_word(word: &[u8]) -> bool
    ensures { result ≡ is_one_of word.now directive_words }
{
    is_text(word, b"include")
        || is_text(word, b"-include")
        || is_text(word, b"sinclude")
        || is_text(word, b"export")
        || is_text(word, b"unexport")
        || is_text(word, b"vpath")
        || is_text(word, b"load")
        || is_text(word, b"-load")
}

/// Whether two texts are the same.
pub(crate) fn is_text(word: &[u8], text: &[u8]) -> bool
    ensures { result ≡ bytes_eq word.now text.now }
{
    word == text
}
