//! The words of places, operators and separators, in tables. A word between quotes is the same word.
ghost use Rattle.std.specs.Prelude.{◌≡◌, map};
ghost use Rattle.mk_script.specs.SeenFields.{field_text};
ghost use Rattle.mk_script.specs.WordReading.{named, operators, places, separators};

use crate::field::Field;
use mk_class::Flavor;
use mk_edit_language::RuleSeparator;

/// The first words of places. Beside lines that are found by their text only whole lines go.
#[derive(Clone, Copy)]
pub(crate) enum PlaceWord {
    Top,
    Bottom,
    BeforeVar,
    AfterVar,
    AfterLastVar,
    BeforeRule,
    AfterRule,
    BeforeLine,
    AfterLine,
}

const PLACES: [(PlaceWord, &[u8]); 9] = [
    (PlaceWord::Top, b"top"),
    (PlaceWord::Bottom, b"bottom"),
    (PlaceWord::BeforeVar, b"before-var"),
    (PlaceWord::AfterVar, b"after-var"),
    (PlaceWord::AfterLastVar, b"after-last-var"),
    (PlaceWord::BeforeRule, b"before-rule"),
    (PlaceWord::AfterRule, b"after-rule"),
    (PlaceWord::BeforeLine, b"before-line"),
    (PlaceWord::AfterLine, b"after-line"),
];

const OPERATORS: [(Flavor, &[u8]); 7] = [
    (Flavor::Recursive, b"="),
    (Flavor::Simple, b":="),
    (Flavor::PosixSimple, b"::="),
    (Flavor::Immediate, b":::="),
    (Flavor::Conditional, b"?="),
    (Flavor::Append, b"+="),
    (Flavor::Shell, b"!="),
];

const SEPARATORS: [(RuleSeparator, &[u8]); 2] = [
    (RuleSeparator::Single, b":"),
    (RuleSeparator::Double, b"::"),
];

// What the first row of a table with this word has.
fn named<K: Copy>(mut table: &[(K, &[u8])], word: &[u8]) -> Option<K>
    ensures { result ≡ named (map (λ row. (row.0, row.1.now)) table.entry.now) word.now }
{
    while let [row, rest @ ..] = table {
        if word == row.1 {
            return Some(row.0);
        }
        table = rest;
    }
    None
}

/// The place that begins with a word.
pub(crate) fn place_word(word: Field<'_>) -> Option<PlaceWord>
    ensures { result ≡ named places (field_text word.entry) }
{
    named(&PLACES, word.written())
}

/// The flavor that an operator tells.
pub(crate) fn flavor(operator: Field<'_>) -> Option<Flavor>
    ensures { result ≡ named operators (field_text operator.entry) }
{
    named(&OPERATORS, operator.written())
}

/// The separator of a new rule.
pub(crate) fn rule_separator(separator: Field<'_>) -> Option<RuleSeparator>
    ensures { result ≡ named separators (field_text separator.entry) }
{
    named(&SEPARATORS, separator.written())
}
