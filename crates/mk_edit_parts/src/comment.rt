//! Comments that say an assignment, as `# NAME = VALUE`.
ghost use Rattle.std.specs.Prelude.{◌≡◌, ◌≤◌, ◌+◌, true, false, not, drop, is_some, length, map, MatchOption};
ghost use Rattle.mk_lines.specs.Bytes.{is_blank_byte};
ghost use Rattle.mk_lines.specs.Lists.{after_leading, leading};
ghost use Rattle.mk_class.specs.Assignments.{operator_at};
ghost use Rattle.mk_class.specs.Keywords.{modifier_words};
ghost use Rattle.mk_class.specs.Symbols.{byte_symbol};
ghost use Rattle.mk_class.specs.Texts.{is_one_of};
ghost use Rattle.mk_edit_language.specs.Comments.{begins_assignment, begins_modifier, comment_mark, says_after_mark, says_assignment, word_length};
ghost use Rattle.mk_edit_parts.specs.LocatedParts.{says_name_located};
ghost use Rattle.mk_tree.specs.Trees.{line_view};

use crate::text::is_same_text;
use mk_class::Class;
use mk_lines::split::Span;
use mk_lines::{after_blanks, is_blank};
use mk_tree::Line;
use std::alloc::Allocator;

/// Whether a line is a comment that says an assignment of this name: its bytes begin with blanks, a
/// `#`, blanks, any modifiers with blanks after each, the name, blanks and an operator.
///
/// It takes time linear in the bytes up to the operator, and no memory.
pub fn says_name<A: Allocator>(line: &Line<A>, name: &[u8]) -> bool
    ensures { result ≡ says_name_located name.now (line_view line.now) }
{
    matches!(line.class(), Class::Comment) && says_after_mark(after_blanks(line.bytes()), name)
}

/// Where the `#` of a comment's line stands, with the blanks directly after it: what goes if the line
/// becomes that of an assignment.
pub fn comment_mark(line: &[u8]) -> Span
    ensures start { result.start ≡ length (leading is_blank_byte line.now) }
    ensures end { result.end ≡ result.start + length (comment_mark line.now) }
    ensures within { result.end ≤ length line.now }
{
    let text = after_blanks(line);
    let rest = after_blanks(after_first(text));
    Span {
        start: line.len() - text.len(),
        end: line.len() - rest.len(),
    }
}

// What follows the first byte of a text.
fn after_first(text: &[u8]) -> &[u8]
    ensures rest { result.now ≡ drop 1 text.now }
    ensures within { length result.now ≤ length text.now }
{
    match text {
        [_, rest @ ..] => rest,
        [] => text,
    }
}

// Whether a text begins with a `#`, blanks, and modifiers and an assignment of this name.
fn says_after_mark(text: &[u8], name: &[u8]) -> bool
    ensures { result ≡ says_after_mark name.now text.now }
{
    match text {
        [b'#', rest @ ..] => says_assignment(after_blanks(rest), name),
        _ => false,
    }
}

// Whether a text begins with modifiers, each with blanks after it, and an assignment of this name.
fn says_assignment(text: &[u8], name: &[u8]) -> bool
    ensures { result ≡ says_assignment name.now 0 text.now }
{
    let mut rest = text;
    'modifiers: while !begins_assignment(rest, name) {
        let Some(after) = after_modifier(rest) else {
            return false;
        };
        rest = after;
    }
    true
}

// Whether a text begins with a name, blanks and an operator.
fn begins_assignment(text: &[u8], name: &[u8]) -> bool
    ensures { result ≡ begins_assignment name.now text.now }
{
    text.len() >= name.len()
        && is_same_text(&text[..name.len()], name)
        && begins_operator(after_blanks(&text[name.len()..]))
}

// Whether a text begins with the operator of an assignment.
fn begins_operator(text: &[u8]) -> bool
    ensures { result ≡ is_some (operator_at (map byte_symbol text.now)) }
{
    matches!(
        text,
        [b'=', ..]
            | [b'?' | b'+' | b'!' | b':', b'=', ..]
            | [b':', b':', b'=', ..]
            | [b':', b':', b':', b'=', ..]
    )
}

// What follows a modifier at the front of a text and the blanks after it.
fn after_modifier(text: &[u8]) -> Option<&[u8]>
    ensures { MatchOption result (begins_modifier text.now ≡ false)
        (λ rest. (begins_modifier text.now ≡ true)
        × (rest.now ≡ drop (word_length text.now) text.now)) }
{
    let behind = after_word(text);
    let rest = after_blanks(behind);
    let word = &text[..text.len() - behind.len()];
    if rest.len() < behind.len() && is_modifier(word) {
        Some(rest)
    } else {
        None
    }
}

// Whether a word is a modifier.
fn is_modifier(word: &[u8]) -> bool
    ensures { result ≡ is_one_of word.now modifier_words }
{
    is_same_text(word, b"override")
        || is_same_text(word, b"export")
        || is_same_text(word, b"private")
}

// What follows the bytes at the front of a text that are no blanks.
fn after_word(text: &[u8]) -> &[u8]
    ensures rest { result.now ≡ after_leading (λ b. not (is_blank_byte b)) text.now }
    ensures within { length result.now ≤ length text.now }
{
    let mut rest = text;
    while let [first, after @ ..] = rest {
        if is_blank(*first) {
            break;
        }
        rest = after;
    }
    rest
}
