//! The edits, made from the fields behind their word.
//!
//! Fields stay in their line until it is known that they make an edit. Then their bytes are copied,
//! once each: memory is asked for only if there is an edit.
ghost use Rattle.std.specs.Prelude.{◌≡◌, option_and_then, option_map};
ghost use Rattle.mk_edit_language.specs.Edits as edits;
ghost use Rattle.mk_edit_language.specs.EditViews.{edit_of, line_change_of, place_of, site_of};
ghost use Rattle.mk_script.specs.Numbers.{number};
ghost use Rattle.mk_script.specs.SeenFields.{field_texts};
ghost use Rattle.mk_script.specs.CommandReading.{add_line, before_last, change_line, edit_with, exchange_lines, front, insert_lines, last_fields, line_change, line_edit, new_assign, new_rule, numbered, one, place_in, place_with, plain_edit, plain_place, prereq_edit, recipe_edit, site_in, site_with, three, two};
ghost use Rattle.mk_script.specs.ReaderAnswers.{IsRead, copied, copied_numbered, copied_three, copied_two, which_of};

use crate::fault::LineFault;
use crate::field::Field;
use crate::fields::{front, one, three, two};
use crate::number::number_of;
use crate::table::Word;
use crate::word::{PlaceWord, flavor, place_word, rule_separator};
use mk_edit_language::{EachEdit, Edit, LineChange, Place, Side, Site, ValueChange};
use std::alloc::Allocator;

/// Which assignments an edit of a value means.
#[derive(Clone, Copy)]
pub(crate) enum Which {
    /// The one of this number, from 1, or the only one.
    One(Option<u32>),
    /// Each.
    Every,
}

// The place of a new line that some fields are.
fn make_place<A: Allocator + Copy>(
    alloc: A,
    nth: Option<u32>,
    fields: &[Field<'_>],
) -> Result<Place<A>, LineFault>
    ensures { IsRead place_of (place_in nth (field_texts fields.now)) result }
{
    let (word, others) = front(fields)?;
    match place_word(word) {
        Some(word) => place_with(alloc, nth, word, others),
        None => Err(LineFault::NotACommand),
    }
}

// The place of a new line that a word and the fields behind it are.
#[tactic(auto, using(crate::proofs::on_commands::TableLemmas::is_some_mapped))]
fn place_with<A: Allocator + Copy>(
    alloc: A,
    nth: Option<u32>,
    word: PlaceWord,
    fields: &[Field<'_>],
) -> Result<Place<A>, LineFault>
    ensures { IsRead place_of (place_with nth word (field_texts fields.now)) result }
{
    match word {
        PlaceWord::BeforeVar => {
            let name = one_copied(alloc, fields)?;
            Ok(Place::BeforeVar { nth, name })
        }
        PlaceWord::AfterVar => {
            let name = one_copied(alloc, fields)?;
            Ok(Place::AfterVar { nth, name })
        }
        PlaceWord::BeforeRule => {
            let target = one_copied(alloc, fields)?;
            Ok(Place::BeforeRule { nth, target })
        }
        PlaceWord::AfterRule => {
            let target = one_copied(alloc, fields)?;
            Ok(Place::AfterRule { nth, target })
        }
        _ => match nth {
            None => plain_place(alloc, word, fields),
            Some(_) => Err(LineFault::NotACommand),
        },
    }
}

// The same of a place before which no number may stand.
fn plain_place<A: Allocator + Copy>(
    alloc: A,
    word: PlaceWord,
    fields: &[Field<'_>],
) -> Result<Place<A>, LineFault>
    ensures { IsRead place_of (plain_place word (field_texts fields.now)) result }
{
    match (word, fields) {
        (PlaceWord::Top, []) => Ok(Place::Top),
        (PlaceWord::Bottom, []) => Ok(Place::Bottom),
        (PlaceWord::AfterLastVar, [name]) => {
            let name = name.to_vec(alloc)?;
            Ok(Place::AfterLastVar { name })
        }
        _ => Err(LineFault::NotACommand),
    }
}

// The site of whole lines that some fields are.
fn make_site<A: Allocator + Copy>(
    alloc: A,
    nth: Option<u32>,
    fields: &[Field<'_>],
) -> Result<Site<A>, LineFault>
    ensures { IsRead site_of (site_in nth (field_texts fields.now)) result }
{
    let (word, others) = front(fields)?;
    match place_word(word) {
        Some(word) => site_with(alloc, nth, word, others),
        None => Err(LineFault::NotACommand),
    }
}

// The site of whole lines that a word and the fields behind it are.
#[tactic(auto, using(crate::proofs::on_commands::TableLemmas::is_some_mapped))]
fn site_with<A: Allocator + Copy>(
    alloc: A,
    nth: Option<u32>,
    word: PlaceWord,
    fields: &[Field<'_>],
) -> Result<Site<A>, LineFault>
    ensures { IsRead site_of (site_with nth word (field_texts fields.now)) result }
{
    match word {
        PlaceWord::BeforeLine => {
            let old = one_copied(alloc, fields)?;
            Ok(Site::BeforeLines { nth, old })
        }
        PlaceWord::AfterLine => {
            let old = one_copied(alloc, fields)?;
            Ok(Site::AfterLines { nth, old })
        }
        _ => Ok(Site::AtPlace(place_with(alloc, nth, word, fields)?)),
    }
}

// The fields before the last ones, of which there are so many, and these.
fn split_last<'b, 'a>(fields: &'b [Field<'a>], count: usize) -> (&'b [Field<'a>], &'b [Field<'a>])
    ensures before { field_texts result.0.now ≡ before_last count (field_texts fields.now) }
    ensures last { field_texts result.1.now ≡ last_fields count (field_texts fields.now) }
{
    fields.split_at(fields.len().saturating_sub(count))
}

// One field, copied.
fn one_copied<A: Allocator + Copy>(alloc: A, fields: &[Field<'_>]) -> Result<Vec<u8, A>, LineFault>
    ensures { IsRead copied (one (field_texts fields.now)) result }
{
    let text = one(fields)?.to_vec(alloc)?;
    Ok(text)
}

// Two fields, copied.
fn two_copied<A: Allocator + Copy>(
    alloc: A,
    fields: &[Field<'_>],
) -> Result<(Vec<u8, A>, Vec<u8, A>), LineFault>
    ensures { IsRead copied_two (two (field_texts fields.now)) result }
{
    let (first, second) = two(fields)?;
    let first = first.to_vec(alloc)?;
    let second = second.to_vec(alloc)?;
    Ok((first, second))
}

// Three fields, copied.
fn three_copied<A: Allocator + Copy>(
    alloc: A,
    fields: &[Field<'_>],
) -> Result<(Vec<u8, A>, Vec<u8, A>, Vec<u8, A>), LineFault>
    ensures { IsRead copied_three (three (field_texts fields.now)) result }
{
    let (first, second, third) = three(fields)?;
    let first = first.to_vec(alloc)?;
    let second = second.to_vec(alloc)?;
    let third = third.to_vec(alloc)?;
    Ok((first, second, third))
}

// The same, if the second is a number.
fn numbered_copied<A: Allocator + Copy>(
    alloc: A,
    fields: &[Field<'_>],
) -> Result<(Vec<u8, A>, u32, Vec<u8, A>), LineFault>
    ensures { IsRead copied_numbered (numbered (field_texts fields.now)) result }
{
    let (first, number, third) = three(fields)?;
    let number = number_of(number)?;
    let first = first.to_vec(alloc)?;
    let third = third.to_vec(alloc)?;
    Ok((first, number, third))
}

/// The edit that a word of the table and the fields behind it make.
///
/// # Errors
///
/// `NotACommand` if they make no edit; `NoMemory` if they make one, and a growth was refused.
#[tactic(auto, using(crate::proofs::on_commands::TableLemmas::is_some_mapped))]
pub(crate) fn make_edit<A: Allocator + Copy>(
    alloc: A,
    which: Which,
    word: Word,
    fields: &[Field<'_>],
) -> Result<Edit<A>, LineFault>
    ensures { IsRead edit_of (edit_with (which_of which) word (field_texts fields.now)) result }
{
    match which {
        Which::One(nth) => make_one(alloc, nth, word, fields),
        Which::Every => make_each(alloc, word, fields),
    }
}

// An edit of one line; by a word that changes no value, or not at its name, another one.
#[tactic(auto, using(crate::proofs::on_commands::TableLemmas::is_some_mapped))]
fn make_one<A: Allocator + Copy>(
    alloc: A,
    nth: Option<u32>,
    word: Word,
    fields: &[Field<'_>],
) -> Result<Edit<A>, LineFault>
    ensures { IsRead edit_of (edit_with (edits.One nth) word (field_texts fields.now)) result }
{
    match word {
        Word::Set => {
            let (name, value) = two_copied(alloc, fields)?;
            Ok(Edit::SetValue { nth, name, value })
        }
        Word::SetIf => {
            let (name, old, value) = three_copied(alloc, fields)?;
            Ok(Edit::SetValueIf {
                nth,
                name,
                old,
                value,
            })
        }
        Word::Append => {
            let (name, value) = two_copied(alloc, fields)?;
            Ok(Edit::AppendValue { nth, name, value })
        }
        Word::Add => {
            let (name, word) = two_copied(alloc, fields)?;
            Ok(Edit::AddWord { nth, name, word })
        }
        Word::Drop => {
            let (name, word) = two_copied(alloc, fields)?;
            Ok(Edit::RemoveWord { nth, name, word })
        }
        _ => make_line_edit(alloc, nth, word, fields),
    }
}

// An edit of each assignment of a name. No word goes beside others in each.
#[tactic(auto, using(crate::proofs::on_commands::TableLemmas::is_some_mapped))]
fn make_each<A: Allocator + Copy>(
    alloc: A,
    word: Word,
    fields: &[Field<'_>],
) -> Result<Edit<A>, LineFault>
    ensures { IsRead edit_of (edit_with edits.Every word (field_texts fields.now)) result }
{
    match word {
        Word::Set => {
            let (name, value) = two_copied(alloc, fields)?;
            let change = ValueChange::Set(value);
            Ok(Edit::ChangeValues { name, change })
        }
        Word::SetIf => {
            let (name, old, value) = three_copied(alloc, fields)?;
            let change = ValueChange::SetIf { old, value };
            Ok(Edit::ChangeValues { name, change })
        }
        Word::Append => {
            let (name, value) = two_copied(alloc, fields)?;
            let change = ValueChange::Append(value);
            Ok(Edit::ChangeValues { name, change })
        }
        Word::Add => {
            let (name, word) = two_copied(alloc, fields)?;
            let change = ValueChange::Add(word);
            Ok(Edit::ChangeValues { name, change })
        }
        Word::Drop => {
            let (name, word) = two_copied(alloc, fields)?;
            let change = ValueChange::Remove(word);
            Ok(Edit::ChangeValues { name, change })
        }
        Word::AddBefore | Word::AddAfter => Err(LineFault::NotACommand),
        _ => make_change_each(alloc, word, fields),
    }
}

// An edit of one line, or one that may have no number before it.
#[tactic(auto, using(crate::proofs::on_commands::TableLemmas::is_some_mapped))]
fn make_line_edit<A: Allocator + Copy>(
    alloc: A,
    nth: Option<u32>,
    word: Word,
    fields: &[Field<'_>],
) -> Result<Edit<A>, LineFault>
    ensures { IsRead edit_of (line_edit nth word (field_texts fields.now)) result }
{
    match word {
        Word::Unset => {
            let name = one_copied(alloc, fields)?;
            Ok(Edit::RemoveAssign { nth, name })
        }
        Word::CommentOut => {
            let name = one_copied(alloc, fields)?;
            Ok(Edit::CommentOut { nth, name })
        }
        Word::Uncomment => {
            let name = one_copied(alloc, fields)?;
            Ok(Edit::Uncomment { nth, name })
        }
        Word::Assign => make_assign(alloc, nth, fields),
        Word::Rule => make_rule(alloc, nth, fields),
        Word::Unrule => {
            let target = one_copied(alloc, fields)?;
            Ok(Edit::RemoveRule { nth, target })
        }
        Word::Rename | Word::ValuesSubst | Word::RecipesSubst => {
            make_plain_edit(alloc, nth, word, fields)
        }
        _ => make_prereq_edit(alloc, nth, word, fields),
    }
}

// An edit before which no number may stand.
#[tactic(auto, using(crate::proofs::on_commands::TableLemmas::is_some_mapped))]
fn make_plain_edit<A: Allocator + Copy>(
    alloc: A,
    nth: Option<u32>,
    word: Word,
    fields: &[Field<'_>],
) -> Result<Edit<A>, LineFault>
    ensures { IsRead edit_of (plain_edit nth word (field_texts fields.now)) result }
{
    match (nth, word) {
        (None, Word::Rename) => {
            let (from, to) = two_copied(alloc, fields)?;
            Ok(Edit::RenameTarget { from, to })
        }
        (None, Word::ValuesSubst) => {
            let (from, to) = two_copied(alloc, fields)?;
            Ok(Edit::EachLine(EachEdit::SubstValues { from, to }))
        }
        (None, Word::RecipesSubst) => {
            let (from, to) = two_copied(alloc, fields)?;
            Ok(Edit::EachLine(EachEdit::SubstRecipes { from, to }))
        }
        _ => Err(LineFault::NotACommand),
    }
}

// `assign PLACE NAME OP VALUE`.
fn make_assign<A: Allocator + Copy>(
    alloc: A,
    nth: Option<u32>,
    fields: &[Field<'_>],
) -> Result<Edit<A>, LineFault>
    ensures { IsRead edit_of (add_line nth new_assign (field_texts fields.now)) result }
{
    let (place, line) = split_last(fields, 3);
    let (name, operator, value) = three(line)?;
    let Some(flavor) = flavor(operator) else {
        return Err(LineFault::NotACommand);
    };
    let place = make_place(alloc, nth, place)?;
    let name = name.to_vec(alloc)?;
    let value = value.to_vec(alloc)?;
    Ok(Edit::AddAssign {
        place,
        name,
        flavor,
        value,
    })
}

// `rule PLACE TARGETS SEP PREREQS`.
fn make_rule<A: Allocator + Copy>(
    alloc: A,
    nth: Option<u32>,
    fields: &[Field<'_>],
) -> Result<Edit<A>, LineFault>
    ensures { IsRead edit_of (add_line nth new_rule (field_texts fields.now)) result }
{
    let (place, line) = split_last(fields, 3);
    let (targets, separator, prereqs) = three(line)?;
    let Some(separator) = rule_separator(separator) else {
        return Err(LineFault::NotACommand);
    };
    let place = make_place(alloc, nth, place)?;
    let targets = targets.to_vec(alloc)?;
    let prereqs = prereqs.to_vec(alloc)?;
    Ok(Edit::AddRule {
        place,
        targets,
        separator,
        prereqs,
    })
}

// An edit of the prerequisites of a rule; by another word one of a recipe.
#[tactic(auto, using(crate::proofs::on_commands::TableLemmas::is_some_mapped))]
fn make_prereq_edit<A: Allocator + Copy>(
    alloc: A,
    nth: Option<u32>,
    word: Word,
    fields: &[Field<'_>],
) -> Result<Edit<A>, LineFault>
    ensures { IsRead edit_of (prereq_edit nth word (field_texts fields.now)) result }
{
    match word {
        Word::Depend => make_depend(alloc, false, nth, fields),
        Word::DependOrder => make_depend(alloc, true, nth, fields),
        Word::Undepend => {
            let (target, word) = two_copied(alloc, fields)?;
            Ok(Edit::RemovePrereq { nth, target, word })
        }
        Word::DependReplace => {
            let (target, old, new) = three_copied(alloc, fields)?;
            Ok(Edit::ReplacePrereq {
                nth,
                target,
                old,
                new,
            })
        }
        _ => make_recipe_edit(alloc, nth, word, fields),
    }
}

// `depend TARGET WORD` and `depend-order TARGET WORD`.
#[tactic(auto, using(crate::proofs::on_commands::TableLemmas::is_some_mapped))]
fn make_depend<A: Allocator + Copy>(
    alloc: A,
    order: bool,
    nth: Option<u32>,
    fields: &[Field<'_>],
) -> Result<Edit<A>, LineFault>
    ensures { IsRead edit_of
        (option_map (λ p. edits.ChangePrereqs nth p.0 (edits.AddPrereq order p.1))
        (two (field_texts fields.now))) result }
{
    let (target, word) = two_copied(alloc, fields)?;
    Ok(Edit::AddPrereq {
        order,
        nth,
        target,
        word,
    })
}

// An edit of a recipe; by another word an exchange of lines.
#[tactic(auto, using(crate::proofs::on_commands::TableLemmas::is_some_mapped))]
fn make_recipe_edit<A: Allocator + Copy>(
    alloc: A,
    nth: Option<u32>,
    word: Word,
    fields: &[Field<'_>],
) -> Result<Edit<A>, LineFault>
    ensures { IsRead edit_of (recipe_edit nth word (field_texts fields.now)) result }
{
    match word {
        Word::Recipe => {
            let (target, line) = two_copied(alloc, fields)?;
            Ok(Edit::AddRecipe { nth, target, line })
        }
        Word::RecipeInsert => {
            let (target, number, line) = numbered_copied(alloc, fields)?;
            Ok(Edit::InsertRecipe {
                nth,
                target,
                number,
                line,
            })
        }
        Word::RecipeSet => {
            let (target, number, line) = numbered_copied(alloc, fields)?;
            Ok(Edit::SetRecipe {
                nth,
                target,
                number,
                line,
            })
        }
        Word::RecipeDel => make_recipe_del(alloc, nth, fields),
        Word::RecipeReplace => {
            let (target, old, line) = three_copied(alloc, fields)?;
            Ok(Edit::SetRecipeByText {
                nth,
                target,
                old,
                line,
            })
        }
        Word::RecipeRemove => {
            let (target, old) = two_copied(alloc, fields)?;
            Ok(Edit::RemoveRecipeByText { nth, target, old })
        }
        Word::RecipeSubst => make_recipe_subst(alloc, nth, fields),
        _ => make_exchange(alloc, nth, word, fields),
    }
}

// `recipe-del TARGET K`.
#[tactic(auto, using(crate::proofs::on_commands::TableLemmas::is_some_mapped))]
fn make_recipe_del<A: Allocator + Copy>(
    alloc: A,
    nth: Option<u32>,
    fields: &[Field<'_>],
) -> Result<Edit<A>, LineFault>
    ensures { IsRead edit_of
        (option_and_then (λ p. option_map
        (λ n. edits.RemoveLines (edits.OfRecipe nth p.0 (edits.ByNumber n))) (number p.1))
        (two (field_texts fields.now))) result }
{
    let (target, number) = two(fields)?;
    let number = number_of(number)?;
    let target = target.to_vec(alloc)?;
    Ok(Edit::RemoveRecipe {
        nth,
        target,
        number,
    })
}

// `recipe-subst TARGET FROM TO`.
#[tactic(auto, using(crate::proofs::on_commands::TableLemmas::is_some_mapped))]
fn make_recipe_subst<A: Allocator + Copy>(
    alloc: A,
    nth: Option<u32>,
    fields: &[Field<'_>],
) -> Result<Edit<A>, LineFault>
    ensures { IsRead edit_of
        (option_map (λ p. edits.EachLine (edits.SubstRecipe nth p.0 p.1 p.2))
        (three (field_texts fields.now))) result }
{
    let (target, from, to) = three_copied(alloc, fields)?;
    Ok(Edit::EachLine(EachEdit::SubstRecipe {
        nth,
        target,
        from,
        to,
    }))
}

// An exchange of whole lines; by another word a change of the line of an assignment.
#[tactic(auto, using(crate::proofs::on_commands::TableLemmas::is_some_mapped))]
fn make_exchange<A: Allocator + Copy>(
    alloc: A,
    nth: Option<u32>,
    word: Word,
    fields: &[Field<'_>],
) -> Result<Edit<A>, LineFault>
    ensures { IsRead edit_of (exchange_lines nth word (field_texts fields.now)) result }
{
    match word {
        Word::Insert => make_insert(alloc, nth, fields),
        Word::LineReplace => {
            let (old, block) = two_copied(alloc, fields)?;
            let site = Site::OfLines { nth, old };
            let block = Some(block);
            Ok(Edit::ExchangeLines { site, block })
        }
        Word::LineRemove => {
            let old = one_copied(alloc, fields)?;
            let site = Site::OfLines { nth, old };
            Ok(Edit::ExchangeLines { site, block: None })
        }
        Word::RuleReplace => {
            let (target, block) = two_copied(alloc, fields)?;
            let site = Site::OfRule { nth, target };
            let block = Some(block);
            Ok(Edit::ExchangeLines { site, block })
        }
        Word::RuleRemove => {
            let target = one_copied(alloc, fields)?;
            let site = Site::OfRule { nth, target };
            Ok(Edit::ExchangeLines { site, block: None })
        }
        _ => make_change_line(alloc, nth, word, fields),
    }
}

// `insert PLACE BLOCK`.
fn make_insert<A: Allocator + Copy>(
    alloc: A,
    nth: Option<u32>,
    fields: &[Field<'_>],
) -> Result<Edit<A>, LineFault>
    ensures { IsRead edit_of (insert_lines nth (field_texts fields.now)) result }
{
    let (site, block) = split_last(fields, 1);
    let block = one(block)?;
    let site = make_site(alloc, nth, site)?;
    let block = block.to_vec(alloc)?;
    Ok(Edit::ExchangeLines {
        site,
        block: Some(block),
    })
}

// A change of the line of an assignment.
fn make_change_line<A: Allocator + Copy>(
    alloc: A,
    nth: Option<u32>,
    word: Word,
    fields: &[Field<'_>],
) -> Result<Edit<A>, LineFault>
    ensures { IsRead edit_of (change_line nth word (field_texts fields.now)) result }
{
    let (name, others) = front(fields)?;
    let change = make_line_change(alloc, word, others)?;
    let name = name.to_vec(alloc)?;
    Ok(Edit::ChangeLine { nth, name, change })
}

// The same of each assignment of a name.
fn make_change_each<A: Allocator + Copy>(
    alloc: A,
    word: Word,
    fields: &[Field<'_>],
) -> Result<Edit<A>, LineFault>
    ensures { IsRead edit_of
        (option_and_then (λ p. option_map (λ c. edits.EachLine (edits.ChangeEach p.0 c))
        (line_change word p.1)) (front (field_texts fields.now))) result }
{
    let (name, others) = front(fields)?;
    let change = make_line_change(alloc, word, others)?;
    let name = name.to_vec(alloc)?;
    Ok(Edit::EachLine(EachEdit::ChangeEach { name, change }))
}

// What is done to the line, by the fields behind the name.
#[tactic(auto, using(crate::proofs::on_commands::TableLemmas::is_some_mapped))]
fn make_line_change<A: Allocator + Copy>(
    alloc: A,
    word: Word,
    fields: &[Field<'_>],
) -> Result<LineChange<A>, LineFault>
    ensures { IsRead line_change_of (line_change word (field_texts fields.now)) result }
{
    match word {
        Word::Prepend => {
            let value = one_copied(alloc, fields)?;
            Ok(LineChange::Prepend(value))
        }
        Word::Replace => {
            let (word, value) = two_copied(alloc, fields)?;
            Ok(LineChange::ReplaceWord { word, value })
        }
        Word::AddBefore => {
            let (word, new) = two_copied(alloc, fields)?;
            let side = Side::Before;
            Ok(LineChange::InsertWord { side, word, new })
        }
        Word::AddAfter => {
            let (word, new) = two_copied(alloc, fields)?;
            let side = Side::After;
            Ok(LineChange::InsertWord { side, word, new })
        }
        Word::Subst => {
            let (from, to) = two_copied(alloc, fields)?;
            Ok(LineChange::Substitute { from, to })
        }
        Word::Operator => match flavor(one(fields)?) {
            Some(flavor) => Ok(LineChange::SetOperator(flavor)),
            None => Err(LineFault::NotACommand),
        },
        _ => Err(LineFault::NotACommand),
    }
}
