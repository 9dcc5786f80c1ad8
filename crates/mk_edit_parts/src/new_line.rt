//! The text of new lines.
ghost use Rattle.std.specs.Prelude.{◌≡◌, ◌==◌, ◌-◌, ◌*◌, ◌≤◌, ◌^◌, ◌∷◌, ◌++◌, ℕ, List, OnOk, IfOk, length, min};
ghost use Rattle.mk_class.specs.RecipePrefix.{is_prefix_led};
ghost use Rattle.mk_lines.specs.PhysicalLines.{line_end_bytes};
ghost use Rattle.mk_edit_language.specs.declared.edit.RuleSeparator as separator;
ghost use Rattle.mk_lines.specs.Spacing.{each_after_space, spaced_words, after_space};
ghost use Rattle.mk_edit_language.specs.NewLines.{assign_text, rule_separator_text, new_text, rule_text};
ghost use Rattle.mk_lines.specs.Words.{words_in};
ghost use Rattle.mk_edit_language.specs.EditViews.{edit_of};

use mk_class::Flavor;
use mk_edit_language::{Edit, RuleSeparator};
use mk_lines::ends::End;
use mk_lines::split_first_word;
use std::alloc::{AllocError, Allocator};

// The text of a separator.
fn rule_separator_text(separator: RuleSeparator) -> &'static [u8]
    ensures { result.now ≡ rule_separator_text separator }
{
    match separator {
        RuleSeparator::Single => b":",
        RuleSeparator::Double => b"::",
    }
}

// How many bytes a text has with a space before it; 0 if the text is empty.
fn spaced_len(text: &[u8]) -> usize
    ensures { result ≡ length (after_space text.now) }
{
    match text {
        [] => 0,
        _ => text.len() + 1,
    }
}

// How many bytes the words of a text have, each with a space before it.
fn each_spaced_len(text: &[u8]) -> usize
    ensures number { result ≡ length (each_after_space (words_in text.now)) }
    ensures few { result ≤ 2 * length text.now }
{
    let mut count = 0;
    let mut rest = text;
    'words: while let Some((word, after)) = split_first_word(rest) {
        count += word.len() + 1;
        rest = after;
    }
    count
}

// How many bytes the words of a text have with one space between them.
fn joined_len(text: &[u8]) -> usize
    ensures { result ≡ length (spaced_words (words_in text.now)) }
{
    each_spaced_len(text).saturating_sub(1)
}

/// How many bytes the text of an edit's new line has, without its line end, or the greatest `usize`
/// if it has more. Takes no memory.
pub fn new_len<A: Allocator>(edit: &Edit<A>) -> usize
    ensures { (prefix : ℕ)
        → result ≡ min (length (new_text prefix (edit_of edit.now))) (2 ^ 64 - 1) }
{
    match edit {
        Edit::AddAssign {
            name,
            flavor,
            value,
            ..
        } => assign_len(name, *flavor, value),
        Edit::AddRule {
            targets,
            separator,
            prereqs,
            ..
        } => rule_len(targets, *separator, prereqs),
        Edit::AddRecipe { line, .. } | Edit::InsertRecipe { line, .. } => {
            line.len().saturating_add(1)
        }
        _ => 0,
    }
}

// How many bytes an assignment has, or the greatest `usize` if it has more.
fn assign_len(name: &[u8], flavor: Flavor, value: &[u8]) -> usize
    ensures { result ≡ min (length (assign_text name.now flavor value.now)) (2 ^ 64 - 1) }
{
    let operator = flavor.text().len();
    name.len()
        .saturating_add(1 + operator)
        .saturating_add(spaced_len(value))
}

// How many bytes a rule has, or the greatest `usize` if it has more.
fn rule_len(targets: &[u8], separator: RuleSeparator, prereqs: &[u8]) -> usize
    ensures { result ≡ min (length (rule_text targets.now separator prereqs.now)) (2 ^ 64 - 1) }
{
    joined_len(targets)
        .saturating_add(rule_separator_text(separator).len())
        .saturating_add(each_spaced_len(prereqs))
}

/// The bytes of an edit's new line with a line end, if this recipe prefix is in force.
///
/// # Errors
///
/// [`AllocError`] if there is no memory for them.
pub fn new_line<A: Allocator + Copy>(
    alloc: A,
    edit: &Edit<A>,
    prefix: u8,
    end: End,
) -> Result<Vec<u8, A>, AllocError>
    ensures { IfOk result (λ bytes.
        bytes.items ≡ new_text prefix (edit_of edit.now) ++ line_end_bytes end) }
{
    let room = new_len(edit).saturating_add(2);
    let mut bytes = Vec::with_capacity(alloc, room)?;
    match edit {
        Edit::AddAssign {
            name,
            flavor,
            value,
            ..
        } => push_assign(&mut bytes, name, *flavor, value)?,
        Edit::AddRule {
            targets,
            separator,
            prereqs,
            ..
        } => push_rule(&mut bytes, targets, *separator, prereqs)?,
        Edit::AddRecipe { line, .. } | Edit::InsertRecipe { line, .. } => {
            push_recipe(&mut bytes, prefix, line)?
        }
        _ => (),
    }
    push_line_end(&mut bytes, end)?;
    Ok(bytes)
}

// Puts an assignment after some bytes.
fn push_assign<A: Allocator>(
    bytes: &mut Vec<u8, A>,
    name: &[u8],
    flavor: Flavor,
    value: &[u8],
) -> Result<(), AllocError>
    ensures { OnOk result
        (bytes.new.items ≡ bytes.old.items ++ assign_text name.now flavor value.now) }
{
    bytes.extend_from_slice(name)?;
    bytes.push(b' ')?;
    bytes.extend_from_slice(flavor.text().as_bytes())?;
    push_spaced(bytes, value)
}

// Puts a rule after some bytes.
fn push_rule<A: Allocator>(
    bytes: &mut Vec<u8, A>,
    targets: &[u8],
    separator: RuleSeparator,
    prereqs: &[u8],
) -> Result<(), AllocError>
    ensures { OnOk result
        (bytes.new.items ≡ bytes.old.items ++ rule_text targets.now separator prereqs.now) }
{
    push_joined(bytes, targets)?;
    bytes.extend_from_slice(rule_separator_text(separator))?;
    push_each_spaced(bytes, prereqs)
}

// Puts a recipe line after some bytes.
fn push_recipe<A: Allocator>(
    bytes: &mut Vec<u8, A>,
    prefix: u8,
    line: &[u8],
) -> Result<(), AllocError>
    ensures { OnOk result (bytes.new.items ≡ bytes.old.items ++ prefix ∷ line.now) }
{
    bytes.push(prefix)?;
    bytes.extend_from_slice(line)
}

// Puts a line end after some bytes.
fn push_line_end<A: Allocator>(bytes: &mut Vec<u8, A>, end: End) -> Result<(), AllocError>
    ensures { OnOk result (bytes.new.items ≡ bytes.old.items ++ line_end_bytes end) }
{
    match end {
        End::None => Ok(()),
        End::Lf => bytes.extend_from_slice(b"\n"),
        End::CrLf => bytes.extend_from_slice(b"\r\n"),
    }
}

// Puts a text after some bytes, with a space before it if it is not empty.
fn push_spaced<A: Allocator>(bytes: &mut Vec<u8, A>, text: &[u8]) -> Result<(), AllocError>
    ensures { OnOk result (bytes.new.items ≡ bytes.old.items ++ after_space text.now) }
{
    match text {
        [] => Ok(()),
        _ => {
            bytes.push(b' ')?;
            bytes.extend_from_slice(text)
        }
    }
}

// Puts the words of a text after some bytes, each with a space before it.
fn push_each_spaced<A: Allocator>(bytes: &mut Vec<u8, A>, text: &[u8]) -> Result<(), AllocError>
    ensures { OnOk result
        (bytes.new.items ≡ bytes.old.items ++ each_after_space (words_in text.now)) }
{
    let mut rest = text;
    'words: while let Some((word, after)) = split_first_word(rest) {
        bytes.push(b' ')?;
        bytes.extend_from_slice(word)?;
        rest = after;
    }
    Ok(())
}

// Puts the words of a text after some bytes, with one space between them.
fn push_joined<A: Allocator>(bytes: &mut Vec<u8, A>, text: &[u8]) -> Result<(), AllocError>
    ensures { OnOk result
        (bytes.new.items ≡ bytes.old.items ++ spaced_words (words_in text.now)) }
{
    let Some((word, after)) = split_first_word(text) else {
        return Ok(());
    };
    bytes.extend_from_slice(word)?;
    push_each_spaced(bytes, after)
}

/// Whether the new line of an edit begins with the recipe prefix, if this prefix is in force. Takes
/// no memory.
pub fn begins_with_prefix<A: Allocator>(edit: &Edit<A>, prefix: u8) -> bool
    ensures { result ≡ is_prefix_led prefix (new_text prefix (edit_of edit.now)) }
{
    match edit {
        Edit::AddAssign { name, .. } => first_byte(name, b' ') == prefix,
        Edit::AddRule { targets, .. } => first_of_rule(targets) == prefix,
        Edit::AddRecipe { .. } | Edit::InsertRecipe { .. } => true,
        _ => false,
    }
}

// The first byte of a text, or `other` if the text is empty.
fn first_byte(text: &[u8], other: u8) -> u8
    ensures { (prefix : ℕ) (after : List ℕ)
        → (result == prefix) ≡ is_prefix_led prefix (text.now ++ other ∷ after) }
{
    match text {
        [first, ..] => *first,
        [] => other,
    }
}

// The first byte of a rule with these targets.
fn first_of_rule(targets: &[u8]) -> u8
    ensures { (prefix : ℕ) (c : separator.RuleSeparator) (prereqs : List ℕ)
        → (result == prefix) ≡ is_prefix_led prefix (rule_text targets.now c prereqs) }
{
    match split_first_word(targets) {
        Some((word, _)) => first_byte(word, b':'),
        None => b':',
    }
}
