//! Headers, the lines of rules: their parts, and what makes such a line Rough.
ghost use Rattle.std.specs.Prelude.{◌≡◌, ◌≤◌, ℕ, List, ◌∷◌, [], ◌||◌, length, true, false, not, IfSome, MatchOption};
ghost use Rattle.std.specs.List.{list_any};
ghost use Rattle.mk_lines.specs.Units.{units};
ghost use Rattle.mk_lines.specs.Words.{is_gap};
ghost use Rattle.mk_class.specs.CutTexts.{after_head, head as head_of};
ghost use Rattle.mk_class.specs.ListTests.{first_passes, from, is_empty, last_passes};
ghost use Rattle.mk_class.specs.Symbols.{is_blank_or_backslash, is_dollar_before_blank, is_bar, is_colon, is_equals, is_escape, is_hash};
ghost use Rattle.mk_class.specs.Texts.{words_of};
ghost use Rattle.mk_class.specs.Separators.{begins_separator, separated};
ghost use Rattle.mk_class.specs.Scans.{AreSeparated, IsSeparatorAt};
ghost use Rattle.mk_class.specs.Headers.{has_bad_bar, has_unreadable, header_parts, is_single};
ghost use Rattle.mk_class.specs.HeadParts.{CoverParts, FitsHead, IsBarSplit, IsPatternSplit, IsSplitAtColons, is_rough_apart, parts_header};
ghost use Rattle.mk_class.specs.Marks.{Cover};
ghost use Rattle.mk_class.specs.TextClasses.{header_text_class, itself};

use crate::class::Class;
use crate::marks::Marks;
use crate::rule::{Header, Separator};
use crate::scan::{after_colon, before, blanks_at_end, has_unit, split_at_unit};
use memchr::memchr3;
use mk_lines::{after_first_unit, is_blank, is_closed, split_first_word};

/// A text at its first separator.
///
/// Without a separator, `separator` is `:` and the other two are empty.
#[derive(Clone, Copy, Debug)]
pub(crate) struct Separated<'a> {
    pub(crate) separator: Separator,
    /// The text from the separator on.
    pub(crate) from: &'a [u8],
    /// What follows the separator.
    pub(crate) rest: &'a [u8],
}

/// The line of a rule, as a header or as Rough, from its head taken apart at the first separator
/// and from what follows the head. `marks` are those of the line.
pub(crate) fn read_header(head: &[u8], split: Separated<'_>, tail: &[u8], marks: Marks) -> Class
    requires parts { AreSeparated (units itself head.now) split.separator
        (units itself split.from.now) (units itself split.rest.now) }
    requires from { length split.from.now ≤ length head.now }
    requires marks { Cover marks head.now }
    ensures { (us : List (List ℕ)) → units itself head.now ≡ head_of itself us
        → units itself tail.now ≡ after_head itself us → result ≡ header_text_class us }
{
    if has_unreadable(head, marks) {
        return Class::Rough;
    }
    let parts = head_parts(head, split, marks);
    if parts.is_rough(marks) {
        return Class::Rough;
    }
    let normal_start = head.len() - parts.prerequisites.len();
    Class::Header(Header {
        separator: parts.separator,
        has_pattern: parts.has_pattern,
        has_order_only: parts.has_order_only,
        has_recipe: begins_recipe(tail),
        targets_end: parts.targets.len(),
        normal_start,
        normal_end: normal_start + parts.normal.len(),
        head_end: head.len(),
    })
}

/// Whether an inline recipe begins after a head, which a `;` or a `#` ends.
fn begins_recipe(tail: &[u8]) -> bool
    ensures { result ≡ first_passes (λ u. not (is_hash itself u)) (units itself tail.now) }
{
    let [first, ..] = tail else {
        return false;
    };
    match first {
        b'#' => false,
        _ => true,
    }
}

/// The parts of a head, which follow one another in its text. A part that the head does not have is
/// empty.
#[derive(Clone, Copy, Debug)]
struct Parts<'a> {
    separator: Separator,
    targets: &'a [u8],
    /// Whether a second `:` stands after the separator, with a pattern before it.
    has_pattern: bool,
    pattern: &'a [u8],
    /// All after the separator and the pattern.
    prerequisites: &'a [u8],
    normal: &'a [u8],
    /// Whether a `|` stands after the normal prerequisites.
    has_order_only: bool,
    order_only: &'a [u8],
}

impl<'a> Parts<'a> {
    /// Whether the parts do not make a header. `marks` are those of the line.
    fn is_rough(&self, marks: Marks) -> bool
        requires marks { CoverParts marks self.now }
        requires colons { IsSplitAtColons self.now }
        ensures { result ≡ is_rough_apart (parts_header [] self.now []) }
    {
        (self.has_pattern && self.separator != Separator::SingleColon)
            || (self.has_pattern && (has_colon(self.normal) || has_colon(self.order_only)))
            || self.has_bad_bar(marks)
            || has_bar(self.order_only, marks)
            || (self.has_pattern && !is_one_word(self.pattern))
    }

    /// Whether there is a `|` among the prerequisites that is no word by itself.
    fn has_bad_bar(&self, marks: Marks) -> bool
        requires { CoverParts marks self.now }
        ensures { result ≡ has_bad_bar itself (parts_header [] self.now []) }
    {
        has_bar(self.targets, marks)
            || has_bar(self.pattern, marks)
            || (self.has_order_only
                && (ends_in_word(self.normal) || begins_with_word(self.order_only)))
    }
}

/// The parts of a head that is taken apart at its first separator. `marks` are those of the line.
fn head_parts<'a>(head: &'a [u8], split: Separated<'a>, marks: Marks) -> Parts<'a>
    requires parts { AreSeparated (units itself head.now) split.separator
        (units itself split.from.now) (units itself split.rest.now) }
    requires from { length split.from.now ≤ length head.now }
    requires marks { Cover marks head.now }
    ensures parts { (tail : List (List ℕ))
        → header_parts itself (separated itself (units itself head.now)) tail
        ≡ parts_header (separated itself (units itself head.now)).colons result tail }
    ensures offsets { FitsHead head.now result }
    ensures marks { CoverParts marks result }
    ensures colons { IsSplitAtColons result }
{
    let (has_pattern, pattern, prerequisites) = split_pattern(split.rest);
    let (normal, has_order_only, order_only) = split_order_only(prerequisites, marks);
    Parts {
        separator: split.separator,
        targets: before(head, split.from),
        has_pattern,
        pattern,
        prerequisites,
        normal,
        has_order_only,
        order_only,
    }
}

/// What follows the separator of a head: whether a second `:` stands there, the pattern before it,
/// and what follows it.
fn split_pattern(text: &[u8]) -> (bool, &[u8], &[u8])
    ensures { IsPatternSplit (units itself text.now) result.0 (units itself result.1.now)
        (units itself result.2.now) }
{
    match split_at_unit(text, b':') {
        Some((pattern, rest)) => (true, pattern, rest),
        None => (false, &[], text),
    }
}

/// Prerequisites: the normal ones, whether a `|` follows them, and the order-only ones. `marks` are
/// those of the line.
fn split_order_only(text: &[u8], marks: Marks) -> (&[u8], bool, &[u8])
    requires { Cover marks text.now }
    ensures { IsBarSplit (units itself text.now) (units itself result.0.now) result.1
        (units itself result.2.now) }
{
    if !marks.has_bar() {
        return (text, false, &[]);
    }
    match split_at_unit(text, b'|') {
        Some((normal, order_only)) => (normal, true, order_only),
        None => (text, false, &[]),
    }
}

/// Whether a text has a unit `:`.
fn has_colon(text: &[u8]) -> bool
    ensures { result ≡ list_any (is_colon itself) (units itself text.now) }
{
    has_unit(text, b':')
}

/// Whether a text, a part of a line with these marks, has a unit `|`.
fn has_bar(text: &[u8], marks: Marks) -> bool
    requires { Cover marks text.now }
    ensures { result ≡ list_any (is_bar itself) (units itself text.now) }
{
    marks.has_bar() && has_unit(text, b'|')
}

/// A text from its first separator on.
///
/// Each byte before the first `:`, `$` or backslash is a unit by itself, and no `:`. So a search
/// passes over all of these bytes but the last, which may be the `&` of a separator.
fn from_separator(text: &[u8]) -> &[u8]
    ensures rest { units itself result.now
        ≡ from (begins_separator itself) (units itself text.now) }
    ensures begins { (is_empty (units itself result.now)
        || begins_separator itself (units itself result.now)) ≡ true }
    ensures within { length result.now ≤ length text.now }
{
    let passed = memchr3(b'$', b'\\', b':', text).unwrap_or(text.len());
    let mut rest = &text[passed.saturating_sub(1)..];
    while !rest.is_empty() && !begins_separator(rest) {
        rest = after_first_unit(rest);
    }
    rest
}

/// Whether a separator stands at the front of a text.
fn begins_separator(text: &[u8]) -> bool
    ensures { result ≡ begins_separator itself (units itself text.now) }
{
    let [first, rest @ ..] = text else {
        return false;
    };
    match first {
        b':' => true,
        b'&' => after_colon(rest).is_some(),
        _ => false,
    }
}

/// The longest separator at the front of a text, and what follows the separator.
fn read_separator(text: &[u8]) -> Option<(Separator, &[u8])>
    ensures found { MatchOption result (begins_separator itself (units itself text.now) ≡ false)
        (λ found. IsSeparatorAt (units itself text.now) found.0 (units itself found.1.now)) }
    ensures within { IfSome result (λ found. length found.1.now ≤ length text.now) }
{
    let [first, after @ ..] = text else {
        return None;
    };
    match first {
        b':' => Some(match after_colon(after) {
            Some(rest) => (Separator::DoubleColon, rest),
            None => (Separator::SingleColon, after),
        }),
        b'&' => read_grouped_separator(after),
        _ => None,
    }
}

/// The longest separator that a `&` put before a text begins, and what follows the separator.
fn read_grouped_separator(text: &[u8]) -> Option<(Separator, &[u8])>
    ensures found { MatchOption result
        (first_passes (is_colon itself) (units itself text.now) ≡ false) (λ found.
        IsSeparatorAt ((38 ∷ []) ∷ units itself text.now) found.0 (units itself found.1.now)) }
    ensures within { IfSome result (λ found. length found.1.now ≤ length text.now) }
{
    let after = after_colon(text)?;
    match after_colon(after) {
        Some(rest) => Some((Separator::GroupedDoubleColon, rest)),
        None => Some((Separator::GroupedColon, after)),
    }
}

/// A text at its first separator. A text with a unit `:` has a separator.
pub(crate) fn separate(text: &[u8]) -> Separated<'_>
    ensures parts { AreSeparated (units itself text.now) result.separator
        (units itself result.from.now) (units itself result.rest.now) }
    ensures from { length result.from.now ≤ length text.now }
    ensures rest { length result.rest.now ≤ length result.from.now }
{
    let from = from_separator(text);
    match read_separator(from) {
        Some((separator, rest)) => Separated {
            separator,
            from,
            rest,
        },
        None => Separated {
            separator: Separator::SingleColon,
            from,
            rest: from,
        },
    }
}

/// Whether the head of a line with these marks has a `=`, or a unit that may stand in no word of a
/// header.
fn has_unreadable(head: &[u8], marks: Marks) -> bool
    requires { Cover marks head.now }
    ensures { result ≡ has_unreadable itself (units itself head.now) }
{
    marks.has_unreadable() && (has_unreadable_front(head) || !is_closed(head))
}

/// Whether a text has a unit that is a `=`, begins with a backslash, or is a `$` before a blank or
/// a backslash.
fn has_unreadable_front(text: &[u8]) -> bool
    ensures { result
        ≡ list_any
        (λ u. is_equals itself u || (is_escape itself u || is_dollar_before_blank itself u))
        (units itself text.now) }
{
    let mut rest = text;
    while !rest.is_empty() {
        if begins_unreadable(rest) {
            return true;
        }
        rest = after_first_unit(rest);
    }
    false
}

/// Whether the first unit of a text is a `=`, begins with a backslash, or is a `$` before a blank
/// or a backslash.
fn begins_unreadable(text: &[u8]) -> bool
    ensures { result
        ≡ first_passes
        (λ u. is_equals itself u || (is_escape itself u || is_dollar_before_blank itself u))
        (units itself text.now) }
{
    let [first, rest @ ..] = text else {
        return false;
    };
    match first {
        b'=' | b'\\' => true,
        b'$' => begins_with_blank_or_backslash(rest),
        _ => false,
    }
}

/// Whether the first byte of a text is a blank or a backslash.
fn begins_with_blank_or_backslash(text: &[u8]) -> bool
    ensures { result ≡ first_passes is_blank_or_backslash text.now }
{
    match text {
        [b' ' | b'\t' | b'\\', ..] => true,
        _ => false,
    }
}

/// Whether a text has just one word.
fn is_one_word(text: &[u8]) -> bool
    ensures { result ≡ is_single itself (words_of itself (units itself text.now)) }
{
    match split_first_word(text) {
        Some((_, rest)) => split_first_word(rest).is_none(),
        None => false,
    }
}

/// Whether a text has a last unit that is no blank.
fn ends_in_word(text: &[u8]) -> bool
    ensures { result ≡ last_passes (λ u. not (is_gap itself u)) (units itself text.now) }
{
    !text.is_empty() && blanks_at_end(text).is_empty()
}

/// Whether a text has a first unit that is no blank.
fn begins_with_word(text: &[u8]) -> bool
    ensures { result ≡ first_passes (λ u. not (is_gap itself u)) (units itself text.now) }
{
    match text {
        [first, ..] => !is_blank(*first),
        [] => false,
    }
}
