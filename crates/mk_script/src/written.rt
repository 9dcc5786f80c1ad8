//! The lines of a script that say an edit.
//!
//! They are bytes, and `Edit` has no `Display`: the names and values of a makefile need not be
//! UTF-8, and a text with other bytes in their place would not read back as the same edit.
ghost use Rattle.std.specs.Prelude.{ℕ, ◌≡◌, ◌↔◌, ◌++◌, ◌∷◌, [], Err, List, false, true, IfOk, OnOk, codes};
ghost use Rattle.mk_class.specs.OperatorTexts.{operator_text};
ghost use Rattle.mk_edit_language.specs.EditViews.{each_edit_of, edit_of, line_change_of, lines_of, place_of, site_of, value_change_of};
ghost use Rattle.mk_edit_language.specs.Edits.{ChangeEach, EachLine, ExchangeLines};
ghost use Rattle.mk_edit_language.specs.LineRuns.{block_lines};
ghost use Rattle.mk_edit_language.specs.NewLines.{rule_separator_text};
ghost use Rattle.mk_history.specs.Machine.{Apply};
ghost use Rattle.mk_script.specs.CommandTable.{Block, IsCommand, Number, Text, after_nth, change_words, command_fields, depend_word, each_fields, exchange_fields, line_change_words, nth_of_place, place_words, texts};
ghost use Rattle.mk_script.specs.Fields as fields;
ghost use Rattle.mk_script.specs.WrittenEdits.{SaysOnly, has_no_command, inserts_word, is_lost, is_plain, script_of};
ghost use Rattle.mk_script.specs.WrittenLines.{IsCommandText, IsTextOf, fields_in, is_of_recipe, site_fields};

use crate::written_block::CommandText;
use crate::written_field::push_fields;
use mk_class::Flavor;
use mk_edit_language::{EachEdit, Edit, LineChange, Place, RuleSeparator, Side, Site, ValueChange};
use std::alloc::{AllocError, Allocator};
use thiserror::Error;

/// Why an edit has no line.
#[derive(Clone, Copy, Debug, PartialEq, Eq, Error)]
pub enum LineError {
    /// A text of the edit that is no block has a line feed, or a block of several lines a carriage return.
    #[error("a text of the edit has a line feed")]
    LineFeed,
    /// No command is the edit: it is to put in lines and has no block, or to put a word beside another one in
    /// each value.
    #[error("no command is the edit")]
    NoCommand,
    /// A growth was refused: the allocator had no memory for the line.
    #[error("no memory")]
    NoMemory,
}

impl From<AllocError> for LineError {
    ghost use Rattle.std.specs.Prelude.{◌≡◌};
    ghost use Rattle.mk_script.specs.declared.written.LineError.TheVariants.{NoMemory};

    ghost from_gives = { λ _ error. error ≡ NoMemory };

    fn from(_refused: AllocError) -> LineError {
        LineError::NoMemory
    }
}

/// The lines of a script that say an edit, with their line feeds: `nth 2 set CC "clang -m32"`. A script that
/// has these lines, and no others, is this edit alone, so [`parse_script`](crate::parse_script) gives it back,
/// as the command of line 1. Lines of edits in a row are a script of these edits.
///
/// Only a block of several lines stands below the line of the command, which has the field `<<E` for it. The
/// block ends with the line `E`, or, if one of its own lines is that, with the first of `E1`, `E2` and so on
/// that none of them is. Any other field stands between quotes if it is empty, has a blank, a carriage return
/// or a quote, or is `<<` and a word. The fields have one space between them. A script writes edits so by this
/// project's profile.
///
/// # Errors
///
/// - [`LineError::LineFeed`] if a text of the edit that is no block has a line feed, or if a block of several
///   lines has a carriage return. Such an edit is refused wherever it is made.
/// - [`LineError::NoCommand`] if the edit is to put in lines and has no block, or to put a word beside another
///   one in each value. No command is such an edit, which is refused wherever it is made.
/// - [`LineError::NoMemory`] if a growth was refused.
pub fn line_of_edit<A: Allocator + Copy, B: Allocator>(
    alloc: A,
    edit: &Edit<B>,
) -> Result<Vec<u8, A>, LineError>
    ensures text { IfOk result (λ text. text.items ≡ script_of (edit_of edit.now)) }
    ensures read { IfOk result (λ text. SaysOnly text.items (edit_of edit.now)) }
    ensures feed { result ≡ Err LineError.LineFeed → is_lost (edit_of edit.now) ≡ true }
    ensures kept { OnOk result (is_lost (edit_of edit.now) ≡ false) }
    ensures no_command { result ≡ Err LineError.NoCommand
        ↔ (has_no_command (edit_of edit.now) ≡ true) }
    ensures unsaid { result ≡ Err LineError.NoCommand → (said : List fields.Field) (below : List (List ℕ))
        → IsCommand said below (Apply (edit_of edit.now)) → ⊥ }
{
    if has_no_command(edit) {
        return Err(LineError::NoCommand);
    }
    let text = command_text(alloc, edit)?;
    if text.is_lost() {
        return Err(LineError::LineFeed);
    }
    let script = text.into_script()?;
    Ok(script)
}

// Whether no command is an edit.
fn has_no_command<B: Allocator>(edit: &Edit<B>) -> bool
    ensures { result ≡ has_no_command (edit_of edit.now) }
{
    match edit {
        Edit::ExchangeLines { site, block } => lacks_lines(site, block),
        Edit::EachLine(EachEdit::ChangeEach { change, .. }) => inserts_word(change),
        _ => false,
    }
}

// Whether a change puts a word beside another one.
fn inserts_word<B: Allocator>(change: &LineChange<B>) -> bool
    ensures { result ≡ inserts_word (line_change_of change.now) }
{
    matches!(change, LineChange::InsertWord { .. })
}

// Whether new lines are to go to a site, and there are none.
#[tactic(auto, using(crate::proofs::on_commands::BlockLemmas::some_lines))]
fn lacks_lines<B: Allocator>(site: &Site<B>, block: &Option<Vec<u8, B>>) -> bool
    ensures { result ≡ has_no_command (ExchangeLines (site_of site.now) (lines_of block.now)) }
{
    match (site, block) {
        (_, Some(_)) | (Site::OfLines { .. } | Site::OfRule { .. }, None) => false,
        _ => true,
    }
}

// The command of an edit.
fn command_text<A: Allocator + Copy, B: Allocator>(
    alloc: A,
    edit: &Edit<B>,
) -> Result<CommandText<A>, AllocError>
    requires { has_no_command (edit_of edit.now) ≡ false }
    ensures { IfOk result
        (λ text. IsTextOf (command_fields (Apply (edit_of edit.now))) text) }
{
    match edit {
        Edit::SetValue { nth, name, value } => said(alloc, *nth, b"set", &[name, value]),
        Edit::SetValueIf {
            nth,
            name,
            old,
            value,
        } => said(alloc, *nth, b"set-if", &[name, old, value]),
        Edit::AppendValue { nth, name, value } => said(alloc, *nth, b"append", &[name, value]),
        Edit::AddWord { nth, name, word } => said(alloc, *nth, b"add", &[name, word]),
        Edit::RemoveWord { nth, name, word } => said(alloc, *nth, b"drop", &[name, word]),
        Edit::ChangeValues { name, change } => change_text(alloc, name, change),
        Edit::ChangeLine { nth, name, change } => line_change_text(alloc, *nth, name, change),
        Edit::AddAssign {
            place,
            name,
            flavor,
            value,
        } => said_at(alloc, b"assign", place, &[name, operator(*flavor), value]),
        Edit::RemoveAssign { nth, name } => said(alloc, *nth, b"unset", &[name]),
        Edit::CommentOut { nth, name } => said(alloc, *nth, b"comment-out", &[name]),
        Edit::Uncomment { nth, name } => said(alloc, *nth, b"uncomment", &[name]),
        Edit::AddRule {
            place,
            targets,
            separator,
            prereqs,
        } => said_at(
            alloc,
            b"rule",
            place,
            &[targets, colons(*separator), prereqs],
        ),
        Edit::RemoveRule { nth, target } => said(alloc, *nth, b"unrule", &[target]),
        Edit::AddPrereq {
            order,
            nth,
            target,
            word,
        } => said(alloc, *nth, depend(*order), &[target, word]),
        Edit::RemovePrereq { nth, target, word } => {
            said(alloc, *nth, b"undepend", &[target, word])
        }
        Edit::ReplacePrereq {
            nth,
            target,
            old,
            new,
        } => said(alloc, *nth, b"depend-replace", &[target, old, new]),
        Edit::RenameTarget { from, to } => said(alloc, None, b"rename", &[from, to]),
        Edit::ExchangeLines { site, block } => exchange_text(alloc, site, block),
        Edit::EachLine(each) => each_text(alloc, each),
        _ => recipe_text(alloc, edit),
    }
}

// The command of an edit of all values of a name.
fn change_text<A: Allocator + Copy, B: Allocator>(
    alloc: A,
    name: &[u8],
    change: &ValueChange<B>,
) -> Result<CommandText<A>, AllocError>
    ensures { IfOk result (λ text. IsTextOf
        (texts (codes "all" ∷ change_words name.now (value_change_of change.now))) text) }
{
    match change {
        ValueChange::Set(value) => said(alloc, None, b"all", &[b"set", name, value]),
        ValueChange::SetIf { old, value } => {
            said(alloc, None, b"all", &[b"set-if", name, old, value])
        }
        ValueChange::Append(value) => said(alloc, None, b"all", &[b"append", name, value]),
        ValueChange::Add(word) => said(alloc, None, b"all", &[b"add", name, word]),
        ValueChange::Remove(word) => said(alloc, None, b"all", &[b"drop", name, word]),
    }
}

// The command of a change of the line of an assignment.
fn line_change_text<A: Allocator + Copy, B: Allocator>(
    alloc: A,
    nth: Option<u32>,
    name: &[u8],
    change: &LineChange<B>,
) -> Result<CommandText<A>, AllocError>
    ensures { IfOk result (λ text. IsTextOf (after_nth nth
        (texts (line_change_words name.now (line_change_of change.now)))) text) }
{
    match change {
        LineChange::Prepend(value) => said(alloc, nth, b"prepend", &[name, value]),
        LineChange::ReplaceWord { word, value } => {
            said(alloc, nth, b"replace", &[name, word, value])
        }
        LineChange::InsertWord {
            side: Side::Before,
            word,
            new,
        } => said(alloc, nth, b"add-before", &[name, word, new]),
        LineChange::InsertWord {
            side: Side::After,
            word,
            new,
        } => said(alloc, nth, b"add-after", &[name, word, new]),
        LineChange::Substitute { from, to } => said(alloc, nth, b"subst", &[name, from, to]),
        LineChange::SetOperator(flavor) => {
            said(alloc, nth, b"operator", &[name, operator(*flavor)])
        }
    }
}

// The command of an edit of several lines.
fn each_text<A: Allocator + Copy, B: Allocator>(
    alloc: A,
    edit: &EachEdit<B>,
) -> Result<CommandText<A>, AllocError>
    requires { has_no_command (EachLine (each_edit_of edit.now)) ≡ false }
    ensures { IfOk result (λ text. IsTextOf (each_fields (each_edit_of edit.now)) text) }
{
    match edit {
        EachEdit::ChangeEach { name, change } => change_each_text(alloc, name, change),
        EachEdit::SubstValues { from, to } => said(alloc, None, b"values-subst", &[from, to]),
        EachEdit::SubstRecipe {
            nth,
            target,
            from,
            to,
        } => said(alloc, *nth, b"recipe-subst", &[target, from, to]),
        EachEdit::SubstRecipes { from, to } => said(alloc, None, b"recipes-subst", &[from, to]),
    }
}

// The command of a change of the line of each assignment of a name.
fn change_each_text<A: Allocator + Copy, B: Allocator>(
    alloc: A,
    name: &[u8],
    change: &LineChange<B>,
) -> Result<CommandText<A>, AllocError>
    requires { inserts_word (line_change_of change.now) ≡ false }
    ensures { IfOk result (λ text. IsTextOf
        (each_fields (ChangeEach name.now (line_change_of change.now))) text) }
{
    match change {
        LineChange::Prepend(value) => said(alloc, None, b"all", &[b"prepend", name, value]),
        LineChange::ReplaceWord { word, value } => {
            said(alloc, None, b"all", &[b"replace", name, word, value])
        }
        LineChange::Substitute { from, to } => {
            said(alloc, None, b"all", &[b"subst", name, from, to])
        }
        LineChange::SetOperator(flavor) => {
            said(alloc, None, b"all", &[b"operator", name, operator(*flavor)])
        }
        LineChange::InsertWord { .. } => unreachable!(),
    }
}

// The command of an exchange of lines.
fn exchange_text<A: Allocator + Copy, B: Allocator>(
    alloc: A,
    site: &Site<B>,
    block: &Option<Vec<u8, B>>,
) -> Result<CommandText<A>, AllocError>
    requires { has_no_command (ExchangeLines (site_of site.now) (lines_of block.now)) ≡ false }
    ensures { IfOk result (λ text. IsTextOf
        (exchange_fields (site_of site.now) (lines_of block.now)) text) }
{
    match block {
        Some(block) => block_text(alloc, site, block),
        None => removal_text(alloc, site),
    }
}

// The command that takes the lines of a site out.
fn removal_text<A: Allocator + Copy, B: Allocator>(
    alloc: A,
    site: &Site<B>,
) -> Result<CommandText<A>, AllocError>
    requires { has_no_command (ExchangeLines (site_of site.now) []) ≡ false }
    ensures { IfOk result (λ text. IsTextOf (exchange_fields (site_of site.now) []) text) }
{
    match site {
        Site::OfLines { nth, old } => said_with(alloc, *nth, b"line-remove", &[], old),
        Site::OfRule { nth, target } => said(alloc, *nth, b"rule-remove", &[target]),
        _ => unreachable!(),
    }
}

// The command that puts a block to a site.
fn block_text<A: Allocator + Copy, B: Allocator>(
    alloc: A,
    site: &Site<B>,
    block: &[u8],
) -> Result<CommandText<A>, AllocError>
    ensures { IfOk result (λ text. IsTextOf
        (exchange_fields (site_of site.now) (block_lines block.now)) text) }
{
    let text = site_text(alloc, site)?;
    text.with_block(alloc, block)
}

// The command that puts a block to a site, up to the block.
fn site_text<A: Allocator + Copy, B: Allocator>(
    alloc: A,
    site: &Site<B>,
) -> Result<CommandText<A>, AllocError>
    ensures { IfOk result (λ text. IsTextOf (site_fields (site_of site.now)) text) }
{
    match site {
        Site::AtPlace(place) => said_at(alloc, b"insert", place, &[]),
        Site::BeforeLines { nth, old } => {
            said_with(alloc, *nth, b"insert", &[b"before-line"], old)
        }
        Site::AfterLines { nth, old } => {
            said_with(alloc, *nth, b"insert", &[b"after-line"], old)
        }
        Site::OfLines { nth, old } => said_with(alloc, *nth, b"line-replace", &[], old),
        Site::OfRule { nth, target } => said(alloc, *nth, b"rule-replace", &[target]),
    }
}

// The command of an edit of recipes.
fn recipe_text<A: Allocator + Copy, B: Allocator>(
    alloc: A,
    edit: &Edit<B>,
) -> Result<CommandText<A>, AllocError>
    requires { is_of_recipe (edit_of edit.now) ≡ true }
    ensures { IfOk result
        (λ text. IsTextOf (command_fields (Apply (edit_of edit.now))) text) }
{
    match edit {
        Edit::AddRecipe { nth, target, line } => said(alloc, *nth, b"recipe", &[target, line]),
        Edit::SetRecipe {
            nth,
            target,
            number,
            line,
        } => said_of_number(alloc, *nth, b"recipe-set", target, *number, &[line]),
        Edit::RemoveRecipe {
            nth,
            target,
            number,
        } => said_of_number(alloc, *nth, b"recipe-del", target, *number, &[]),
        Edit::InsertRecipe {
            nth,
            target,
            number,
            line,
        } => said_of_number(alloc, *nth, b"recipe-insert", target, *number, &[line]),
        Edit::SetRecipeByText {
            nth,
            target,
            old,
            line,
        } => said(alloc, *nth, b"recipe-replace", &[target, old, line]),
        Edit::RemoveRecipeByText { nth, target, old } => {
            said(alloc, *nth, b"recipe-remove", &[target, old])
        }
        _ => unreachable!(),
    }
}

// The operator of an assignment.
fn operator<'a>(flavor: Flavor) -> &'a [u8]
    ensures { result.now ≡ operator_text flavor }
{
    flavor.text().as_bytes()
}

// The word for a new prerequisite, order-only or not.
fn depend<'a>(order: bool) -> &'a [u8]
    ensures text { result.now ≡ depend_word order }
    ensures plain { is_plain (depend_word order) ≡ true }
{
    if order { b"depend-order" } else { b"depend" }
}

// The separator of a rule.
fn colons<'a>(separator: RuleSeparator) -> &'a [u8]
    ensures { result.now ≡ rule_separator_text separator }
{
    match separator {
        RuleSeparator::Single => b":",
        RuleSeparator::Double => b"::",
    }
}

// A command that has a place: its word, then the words of the place, then these fields.
fn said_at<A: Allocator + Copy, B: Allocator>(
    alloc: A,
    word: &[u8],
    place: &Place<B>,
    fields: &[&[u8]],
) -> Result<CommandText<A>, AllocError>
    requires { is_plain word.now ≡ true }
    ensures { IfOk result (λ text. IsTextOf (after_nth (nth_of_place (place_of place.now))
        (texts (word.now ∷ (place_words (place_of place.now) ++ fields_in fields.now)))) text) }
{
    match place {
        Place::Top => said_after(alloc, None, word, &[b"top"], fields),
        Place::Bottom => said_after(alloc, None, word, &[b"bottom"], fields),
        Place::BeforeVar { nth, name } => {
            said_after(alloc, *nth, word, &[b"before-var", name], fields)
        }
        Place::AfterVar { nth, name } => {
            said_after(alloc, *nth, word, &[b"after-var", name], fields)
        }
        Place::AfterLastVar { name } => {
            said_after(alloc, None, word, &[b"after-last-var", name], fields)
        }
        Place::BeforeRule { nth, target } => {
            said_after(alloc, *nth, word, &[b"before-rule", target], fields)
        }
        Place::AfterRule { nth, target } => {
            said_after(alloc, *nth, word, &[b"after-rule", target], fields)
        }
    }
}

// A command that has a number behind its target.
fn said_of_number<A: Allocator + Copy>(
    alloc: A,
    nth: Option<u32>,
    word: &[u8],
    target: &[u8],
    number: u32,
    fields: &[&[u8]],
) -> Result<CommandText<A>, AllocError>
    requires { is_plain word.now ≡ true }
    ensures { IfOk result (λ text. IsTextOf (after_nth nth
        (Text word.now ∷ Text target.now ∷ Number number ∷ texts (fields_in fields.now))) text) }
{
    let mut digits = itoa::Buffer::new();
    let digits = digits.format(number).as_bytes();
    said_after(alloc, nth, word, &[target, digits], fields)
}

// A command: its word after `nth` and a number if there is one, and these fields.
fn said<A: Allocator + Copy>(
    alloc: A,
    nth: Option<u32>,
    word: &[u8],
    fields: &[&[u8]],
) -> Result<CommandText<A>, AllocError>
    requires { is_plain word.now ≡ true }
    ensures { IfOk result
        (λ text. IsTextOf (after_nth nth (texts (word.now ∷ fields_in fields.now))) text) }
{
    said_after(alloc, nth, word, &[], fields)
}

// A command: its word after `nth` and a number if there is one, these fields, and a block.
fn said_with<A: Allocator + Copy>(
    alloc: A,
    nth: Option<u32>,
    word: &[u8],
    fields: &[&[u8]],
    block: &[u8],
) -> Result<CommandText<A>, AllocError>
    requires { is_plain word.now ≡ true }
    ensures { IfOk result (λ text. IsTextOf (after_nth nth
        (texts (word.now ∷ fields_in fields.now) ++ Block (block_lines block.now) ∷ [])) text) }
{
    let text = said(alloc, nth, word, fields)?;
    text.with_block(alloc, block)
}

// A command: its word after `nth` and a number if there is one, and two lists of fields.
fn said_after<A: Allocator + Copy>(
    alloc: A,
    nth: Option<u32>,
    word: &[u8],
    first: &[&[u8]],
    others: &[&[u8]],
) -> Result<CommandText<A>, AllocError>
    requires { is_plain word.now ≡ true }
    ensures { IfOk result (λ text. IsTextOf (after_nth nth
        (texts (word.now ∷ (fields_in first.now ++ fields_in others.now)))) text) }
{
    let mut line = begun(alloc, nth, word)?;
    push_fields(&mut line, first)?;
    push_fields(&mut line, others)?;
    Ok(CommandText {
        line,
        below: Vec::new(alloc),
    })
}

// The word of a command, after `nth` and a number if there is one.
fn begun<A: Allocator + Copy>(
    alloc: A,
    nth: Option<u32>,
    word: &[u8],
) -> Result<Vec<u8, A>, AllocError>
    requires { is_plain word.now ≡ true }
    ensures { IfOk result (λ line. IsCommandText (after_nth nth (texts (word.now ∷ []))) line.items []) }
{
    let Some(number) = nth else {
        return Vec::from_slice(alloc, word);
    };
    let mut digits = itoa::Buffer::new();
    let digits = digits.format(number).as_bytes();
    let mut line = Vec::from_slice(alloc, b"nth")?;
    push_fields(&mut line, &[digits, word])?;
    Ok(line)
}
