//! The causes of refusal that the fields of an edit decide by themselves.
ghost use Rattle.std.specs.Prelude.{◌≡◌, ◌||◌, ◌&&◌, ◌∷◌, [], not};
ghost use Rattle.std.specs.List.{list_any};
ghost use Rattle.mk_class.specs.Arguments.{is_barred_byte, is_clean, is_command, is_name, is_target, is_value, is_word};
ghost use Rattle.mk_class.specs.Keywords.{is_reserved_word};
ghost use Rattle.mk_class.specs.ListTests.{is_empty};
ghost use Rattle.mk_class.specs.RecipePrefix.{is_prefix_name};
ghost use Rattle.mk_edit_language.specs.ArgumentCauses.{Tested, address_names, address_targets, are_targets, are_words, bad_argument, change_tests, each_tests, exchange_tests, first_failed, is_place, is_value_word, line_change_tests, names, prereq_tests, targets};
ghost use Rattle.mk_edit_language.specs.Edits.{ReplacePrereq};
ghost use Rattle.mk_edit_language.specs.declared.refusal.Field.TheVariants.{Line, Old, Prereqs, Target, Targets};
ghost use Rattle.mk_lines.specs.Units.{units};
ghost use Rattle.mk_lines.specs.Words.{is_gap, words_in};
ghost use Rattle.mk_edit_language.specs.EditViews.{each_edit_of, edit_of, line_change_of, place_of, site_of, value_change_of};
ghost use Rattle.mk_edit_language.specs.declared.refusal.Field.TheVariants as field;
ghost use Rattle.mk_edit_language.specs.LineRuns.{block_lines, is_block};
ghost use Rattle.mk_edit_parts.specs.AddressViews.{address_seen, field_refusal};
ghost use Rattle.mk_edit_parts.specs.LineRunsFound.{block_seen};

use crate::address::{Address, address_of, each_address_of, site_address};
use crate::block::{block_of, is_block};
use crate::text::is_prefix_name;
use mk_class::{is_command, is_name, is_reserved_word, is_target, is_value, is_word};
use mk_edit_language::{EachEdit, Edit, Field, LineChange, Place, Site, ValueChange};
use mk_lines::{split_first_unit, split_first_word};
use std::alloc::Allocator;

/// The first field of an edit that fails its test: the cause `BadArgument`.
pub fn bad_field<A: Allocator>(edit: &Edit<A>) -> Option<Field>
    ensures { field_refusal result ≡ bad_argument (edit_of edit.now) }
{
    match edit {
        Edit::ExchangeLines { site, block } => bad_site_field(site, block_of(block)),
        Edit::AddAssign { place, .. } | Edit::AddRule { place, .. } if !is_place(place) => {
            Some(Field::Place)
        }
        Edit::SetValue { name, value, .. } | Edit::AddAssign { name, value, .. } => {
            bad_name_or(name, Field::Value, is_value(value))
        }
        Edit::SetValueIf {
            name,
            old,
            value,
            ..
        } => bad_values(name, old, value),
        Edit::AppendValue { name, value, .. } => bad_name_or(name, Field::Value, is_tail(value)),
        Edit::AddWord { name, word, .. } | Edit::RemoveWord { name, word, .. } => {
            bad_name_or(name, Field::Word, is_value_word(word))
        }
        Edit::ChangeValues { name, change } => bad_change(name, change),
        Edit::ChangeLine { name, change, .. } => bad_line_change(name, change),
        Edit::EachLine(each) => bad_each_field(each),
        Edit::RemoveAssign { name, .. }
        | Edit::CommentOut { name, .. }
        | Edit::Uncomment { name, .. } => failed(Field::Name, is_name(name)),
        Edit::AddRule {
            targets,
            prereqs,
            ..
        } => bad_lists(targets, prereqs),
        Edit::RemoveRule { target, .. } | Edit::RemoveRecipe { target, .. } => {
            failed(Field::Target, is_target(target))
        }
        Edit::AddPrereq { target, word, .. } | Edit::RemovePrereq { target, word, .. } => {
            first_failed(Field::Target, is_target(target), Field::Word, is_word(word))
        }
        Edit::ReplacePrereq {
            target,
            old,
            new,
            ..
        } => bad_words(target, old, new),
        Edit::AddRecipe { target, line, .. }
        | Edit::SetRecipe { target, line, .. }
        | Edit::InsertRecipe { target, line, .. } => bad_command(target, Field::Line, line),
        Edit::SetRecipeByText {
            target,
            old,
            line,
            ..
        } => bad_exchange(target, old, line),
        Edit::RemoveRecipeByText { target, old, .. } => bad_command(target, Field::Old, old),
        Edit::RenameTarget { from, to } => {
            first_failed(Field::Old, is_target(from), Field::New, is_target(to))
        }
    }
}

/// The first field that fails its test, of an exchange of whole lines. There is no block if lines are
/// taken out, which is one of lines alone.
pub(crate) fn bad_site_field<A: Allocator>(site: &Site<A>, block: Option<&[u8]>) -> Option<Field>
    ensures { field_refusal result
        ≡ first_failed (exchange_tests (site_of site.now) (block_seen block.entry)) }
{
    let is_new = is_new_block(block);
    match site {
        Site::AtPlace(place) => {
            first_failed(Field::Place, is_place(place), Field::Block, is_new)
        }
        Site::BeforeLines { old, .. } | Site::AfterLines { old, .. } => {
            first_failed(Field::Place, is_block(old), Field::Block, is_new)
        }
        Site::OfLines { old, .. } => {
            first_failed(Field::Old, is_block(old), Field::Block, may_be_block(block))
        }
        Site::OfRule { target, .. } => {
            first_failed(
                Field::Target,
                is_target(target),
                Field::Block,
                may_be_block(block),
            )
        }
    }
}

// Whether a text may be a block, if there is one.
fn may_be_block(block: Option<&[u8]>) -> bool
    ensures { result ≡ (is_empty (block_seen block.entry) || is_block (block_seen block.entry)) }
{
    match block {
        Some(block) => is_block(block),
        None => true,
    }
}

// Whether there is a block, and its text may be one.
fn is_new_block(block: Option<&[u8]>) -> bool
    ensures { result ≡ is_block (block_seen block.entry) }
{
    match block {
        Some(block) => is_block(block),
        None => false,
    }
}

// A field that fails its test.
fn failed(field: Field, passes: bool) -> Option<Field>
    ensures { field_refusal result ≡ first_failed (Tested field passes ∷ []) }
{
    if passes { None } else { Some(field) }
}

// The first of two fields that fails its test.
fn first_failed(one: Field, one_passes: bool, other: Field, other_passes: bool) -> Option<Field>
    ensures { field_refusal result
        ≡ first_failed (Tested one one_passes ∷ Tested other other_passes ∷ []) }
{
    if one_passes {
        failed(other, other_passes)
    } else {
        Some(one)
    }
}

// The first field that fails its test, of a name and the texts of a change of a line.
fn bad_line_change<A: Allocator>(name: &[u8], change: &LineChange<A>) -> Option<Field>
    ensures { field_refusal result
        ≡ first_failed (Tested field.Name (is_name name.now)
        ∷ line_change_tests (line_change_of change.now)) }
{
    match change {
        LineChange::Prepend(value) => bad_name_or(name, Field::Value, is_tail(value)),
        LineChange::ReplaceWord { word, value } => bad_name_or_two(
            name,
            Field::Word,
            is_value_word(word),
            Field::Value,
            is_tail(value),
        ),
        LineChange::InsertWord { word, new, .. } => bad_name_or_two(
            name,
            Field::Word,
            is_value_word(word),
            Field::New,
            is_value_word(new),
        ),
        LineChange::Substitute { from, to } => bad_name_or_two(
            name,
            Field::From,
            is_sought_text(from),
            Field::To,
            is_clean(to),
        ),
        LineChange::SetOperator(_) => failed(Field::Name, is_name(name)),
    }
}

// The first field that fails its test, of an edit of several lines. A word goes beside another one in
// one assignment only.
fn bad_each_field<A: Allocator>(edit: &EachEdit<A>) -> Option<Field>
    ensures { field_refusal result ≡ first_failed (each_tests (each_edit_of edit.now)) }
{
    match edit {
        EachEdit::ChangeEach {
            name,
            change: LineChange::InsertWord { .. },
        } => bad_name_or(name, Field::Word, false),
        EachEdit::ChangeEach { name, change } => bad_line_change(name, change),
        EachEdit::SubstRecipe { target, .. } if !is_target(target) => Some(Field::Target),
        EachEdit::SubstValues { from, to }
        | EachEdit::SubstRecipe { from, to, .. }
        | EachEdit::SubstRecipes { from, to } => {
            first_failed(Field::From, is_sought_text(from), Field::To, is_clean(to))
        }
    }
}

// Whether a text may be looked for: it has no line feed, carriage return or NUL, and is not empty.
fn is_sought_text(text: &[u8]) -> bool
    ensures { result ≡ (is_clean text.now && not (is_empty text.now)) }
{
    is_clean(text) && !text.is_empty()
}

// The first field that fails its test, of the targets and the prerequisites of a new rule.
fn bad_lists(targets: &[u8], prereqs: &[u8]) -> Option<Field>
    ensures { field_refusal result
        ≡ first_failed (Tested Targets (are_targets targets.now)
        ∷ Tested Prereqs (are_words prereqs.now) ∷ []) }
{
    first_failed(
        Field::Targets,
        are_targets(targets),
        Field::Prereqs,
        are_words(prereqs),
    )
}

// The first field that fails its test, of a target and the text of a recipe line.
fn bad_command(target: &[u8], field: Field, line: &[u8]) -> Option<Field>
    ensures { field_refusal result
        ≡ first_failed (Tested Target (is_target target.now)
        ∷ Tested field (is_command line.now) ∷ []) }
{
    first_failed(Field::Target, is_target(target), field, is_command(line))
}

// The first field that fails its test, of a target, the text of a recipe line and another command.
fn bad_exchange(target: &[u8], old: &[u8], line: &[u8]) -> Option<Field>
    ensures { field_refusal result
        ≡ first_failed (Tested Target (is_target target.now) ∷ Tested Old (is_command old.now)
        ∷ Tested Line (is_command line.now) ∷ []) }
{
    if is_target(target) {
        first_failed(Field::Old, is_command(old), Field::Line, is_command(line))
    } else {
        Some(Field::Target)
    }
}

// The first field that fails its test, of a target, a prerequisite and the word in its place.
fn bad_words(target: &[u8], old: &[u8], new: &[u8]) -> Option<Field>
    ensures { field_refusal result
        ≡ first_failed (Tested Target (is_target target.now)
        ∷ prereq_tests (ReplacePrereq old.now new.now)) }
{
    if is_target(target) {
        first_failed(Field::Old, is_word(old), Field::New, is_word(new))
    } else {
        Some(Field::Target)
    }
}

// The first field that fails its test, of the name of a variable, a value and the value in its place.
fn bad_values(name: &[u8], old: &[u8], value: &[u8]) -> Option<Field>
    ensures { field_refusal result
        ≡ first_failed (Tested field.Name (is_name name.now) ∷ Tested Old (is_value old.now)
        ∷ Tested field.Value (is_value value.now) ∷ []) }
{
    bad_name_or_two(
        name,
        Field::Old,
        is_value(old),
        Field::Value,
        is_value(value),
    )
}

// The name of a variable if it fails its test, or else another field if that does.
fn bad_name_or(name: &[u8], other: Field, passes: bool) -> Option<Field>
    ensures { field_refusal result
        ≡ first_failed (Tested field.Name (is_name name.now) ∷ Tested other passes ∷ []) }
{
    first_failed(Field::Name, is_name(name), other, passes)
}

// The name of a variable if it fails its test, or else the first of two other fields that does.
fn bad_name_or_two(
    name: &[u8],
    one: Field,
    one_passes: bool,
    other: Field,
    other_passes: bool,
) -> Option<Field>
    ensures { field_refusal result
        ≡ first_failed (Tested field.Name (is_name name.now) ∷ Tested one one_passes
        ∷ Tested other other_passes ∷ []) }
{
    if is_name(name) {
        first_failed(one, one_passes, other, other_passes)
    } else {
        Some(Field::Name)
    }
}

// Whether a text has no line feed, carriage return or NUL.
fn is_clean(text: &[u8]) -> bool
    ensures { result ≡ is_clean text.now }
{
    !has_barred_byte(text)
}

// Whether a text has a line feed, a carriage return or a NUL.
fn has_barred_byte(text: &[u8]) -> bool
    ensures { result ≡ list_any is_barred_byte text.now }
{
    text.iter().any(|byte| is_barred_byte(*byte))
}

// Whether a byte is a line feed, a carriage return or a NUL.
fn is_barred_byte(byte: u8) -> bool
    ensures { result ≡ is_barred_byte byte }
{
    matches!(byte, b'\n' | b'\r' | 0)
}

// The first field that fails its test, of the name of a variable and the text of a change of its
// values.
fn bad_change<A: Allocator>(name: &[u8], change: &ValueChange<A>) -> Option<Field>
    ensures { field_refusal result
        ≡ first_failed (Tested field.Name (is_name name.now)
        ∷ change_tests (value_change_of change.now)) }
{
    match change {
        ValueChange::Set(value) => bad_name_or(name, Field::Value, is_value(value)),
        ValueChange::SetIf { old, value } => bad_values(name, old, value),
        ValueChange::Append(text) => bad_name_or(name, Field::Value, is_tail(text)),
        ValueChange::Add(word) | ValueChange::Remove(word) => {
            bad_name_or(name, Field::Word, is_value_word(word))
        }
    }
}

// Whether a text may go behind a value: it is a value, and not empty.
fn is_tail(text: &[u8]) -> bool
    ensures { result ≡ (is_value text.now && not (is_empty text.now)) }
{
    is_value(text) && !text.is_empty()
}

// Whether a text may be a word of a value: a value that is one word by itself.
fn is_value_word(text: &[u8]) -> bool
    ensures { result ≡ is_value_word text.now }
{
    is_value(text) && is_one_word(text)
}

// Whether a text that begins and ends with no blank is one word: it is not empty, and no unit of it
// is a single blank.
fn is_one_word(text: &[u8]) -> bool
    ensures { result
        ≡ (not (is_empty text.now) && not (list_any (is_gap (λ b. b)) (units (λ b. b) text.now))) }
{
    !text.is_empty() && !has_gap(text)
}

// Whether a text has a unit that is a single blank.
fn has_gap(text: &[u8]) -> bool
    ensures { result ≡ list_any (is_gap (λ b. b)) (units (λ b. b) text.now) }
{
    let mut rest = text;
    'units: while let Some((unit, after)) = split_first_unit(rest) {
        if is_gap(unit) {
            return true;
        }
        rest = after;
    }
    false
}

// Whether a unit is a single blank.
fn is_gap(unit: &[u8]) -> bool
    ensures { result ≡ is_gap (λ b. b) unit.now }
{
    matches!(unit, [b' ' | b'\t'])
}

// Whether the name or the target of a place passes its test.
fn is_place<A: Allocator>(place: &Place<A>) -> bool
    ensures { result ≡ is_place (place_of place.now) }
{
    match place {
        Place::Top | Place::Bottom => true,
        Place::BeforeVar { name, .. }
        | Place::AfterVar { name, .. }
        | Place::AfterLastVar { name } => is_name(name),
        Place::BeforeRule { target, .. } | Place::AfterRule { target, .. } => is_target(target),
    }
}

// Whether a text is one or more targets.
fn are_targets(text: &[u8]) -> bool
    ensures { result ≡ are_targets text.now }
{
    split_first_word(text).is_some() && !has_no_target(text)
}

// Whether some word of a text may be no target.
fn has_no_target(text: &[u8]) -> bool
    ensures { result ≡ list_any (λ word. not (is_target word)) (words_in text.now) }
{
    let mut rest = text;
    'words: while let Some((word, after)) = split_first_word(rest) {
        if !is_target(word) {
            return true;
        }
        rest = after;
    }
    false
}

// Whether each word of a text may stand as a prerequisite. The text may have no words.
fn are_words(text: &[u8]) -> bool
    ensures { result ≡ are_words text.now }
{
    let mut rest = text;
    'words: while let Some((word, after)) = split_first_word(rest) {
        if !is_word(word) {
            return false;
        }
        rest = after;
    }
    true
}

/// Whether an edit names the recipe prefix as a variable, or a word of directives as a target: the
/// cause `Reserved`.
pub fn is_reserved<A: Allocator>(edit: &Edit<A>) -> bool
    ensures { result
        ≡ (list_any is_prefix_name (names (edit_of edit.now))
        || list_any is_reserved_word (targets (edit_of edit.now))) }
{
    match edit {
        Edit::ChangeValues { name, .. }
        | Edit::SetValueIf { name, .. }
        | Edit::CommentOut { name, .. }
        | Edit::Uncomment { name, .. } => is_prefix_name(name),
        Edit::AddAssign { name, .. } => {
            is_prefix_name(name) || is_reserved_address(address_of(edit))
        }
        Edit::AddRule { targets, .. } => {
            has_reserved_word(targets) || is_reserved_address(address_of(edit))
        }
        Edit::RenameTarget { from, to } => is_reserved_word(from) || is_reserved_word(to),
        Edit::ExchangeLines { site, .. } => is_reserved_address(site_address(site)),
        Edit::EachLine(each) => is_reserved_address(each_address_of(each)),
        _ => is_reserved_address(address_of(edit)),
    }
}

/// Whether an address names the recipe prefix, or a word of directives. The address of a value or of a
/// comment names nothing here: `is_reserved` asks for the name of an edit that has one.
pub(crate) fn is_reserved_address(address: Option<Address>) -> bool
    ensures { result
        ≡ (list_any is_prefix_name (address_names (address_seen address.entry))
        || list_any is_reserved_word (address_targets (address_seen address.entry))) }
{
    match address {
        None => false,
        Some(Address::Variable(_, name)) => is_prefix_name(name),
        Some(Address::LastVariable(name)) => is_prefix_name(name),
        Some(Address::Valued(..)) => false,
        Some(Address::Commented(..)) => false,
        Some(Address::Rule(_, target)) => is_reserved_word(target),
    }
}

// Whether some word of a text is a word of directives.
fn has_reserved_word(text: &[u8]) -> bool
    ensures { result ≡ list_any is_reserved_word (words_in text.now) }
{
    let mut rest = text;
    'words: while let Some((word, after)) = split_first_word(rest) {
        if is_reserved_word(word) {
            return true;
        }
        rest = after;
    }
    false
}
