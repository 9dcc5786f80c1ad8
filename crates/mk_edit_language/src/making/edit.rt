//! The edits of variables, of rules, of recipes and of whole lines, by the words of scripts.
ghost use Rattle.std.specs.Prelude.{◌≡◌, [], IfOk, None, true, false};
ghost use Rattle.mk_edit_language.specs.EditViews.{edit_of, place_of};
ghost use Rattle.mk_edit_language.specs.Edits as edits;
ghost use Rattle.mk_edit_language.specs.LineRuns.{block_lines};
ghost use Rattle.mk_edit_language.specs.Numbered.{numbered};

use crate::edit::{Edit, LineChange, Side, Site, ValueChange};
use crate::making::each_line::number_each;
use crate::making::place::number_place;
use crate::making::site::number_site;
use mk_class::Flavor;
use std::alloc::{AllocError, Allocator};

/// Makes edits, in a call each. The calls have the words of scripts, and docs/EDITS.md says what each
/// edit does and when it is refused. An edit means the only line of its name or target, unless
/// [`Edit::nth`] gives it a number. The edits that put in an assignment or a rule are made of
/// their place, by `assign` and `rule` of [`Place`], and those that put in whole lines of their
/// site, by `insert` of [`Site`].
///
/// Each call that takes an allocator has the error [`AllocError`] if there is no memory for a text.
/// No text is looked at: a bad one is refused when the edit is made.
impl<A: Allocator + Copy> Edit<A> {
    /// Gives the only assignment of a name another value, which may be empty: `set NAME VALUE`.
    pub fn set(alloc: A, name: &[u8], value: &[u8]) -> Result<Edit<A>, AllocError>
        ensures { IfOk result (λ e. edit_of e ≡ edits.ChangeValue (edits.One None) name.now (edits.Set value.now)) }
    {
        let name = Vec::from_slice(alloc, name)?;
        let value = Vec::from_slice(alloc, value)?;
        Ok(Edit::SetValue {
            nth: None,
            name,
            value,
        })
    }

    /// Gives the only assignment of a name that has a value another one: `set-if NAME OLD VALUE`.
    pub fn set_if(alloc: A, name: &[u8], old: &[u8], value: &[u8]) -> Result<Edit<A>, AllocError>
        ensures { IfOk result (λ e. edit_of e
            ≡ edits.ChangeValue (edits.One None) name.now (edits.SetIf old.now value.now)) }
    {
        let name = Vec::from_slice(alloc, name)?;
        let old = Vec::from_slice(alloc, old)?;
        let value = Vec::from_slice(alloc, value)?;
        Ok(Edit::SetValueIf {
            nth: None,
            name,
            old,
            value,
        })
    }

    /// Puts a text after the value of the only assignment of a name: `append NAME VALUE`.
    pub fn append(alloc: A, name: &[u8], value: &[u8]) -> Result<Edit<A>, AllocError>
        ensures { IfOk result (λ e. edit_of e ≡ edits.ChangeValue (edits.One None) name.now (edits.Append value.now)) }
    {
        let name = Vec::from_slice(alloc, name)?;
        let value = Vec::from_slice(alloc, value)?;
        Ok(Edit::AppendValue {
            nth: None,
            name,
            value,
        })
    }

    /// Puts a word after the value of the only assignment of a name: `add NAME WORD`.
    pub fn add_word(alloc: A, name: &[u8], word: &[u8]) -> Result<Edit<A>, AllocError>
        ensures { IfOk result (λ e. edit_of e ≡ edits.ChangeValue (edits.One None) name.now (edits.Add word.now)) }
    {
        let name = Vec::from_slice(alloc, name)?;
        let word = Vec::from_slice(alloc, word)?;
        Ok(Edit::AddWord {
            nth: None,
            name,
            word,
        })
    }

    /// Takes a word out of the value of the only assignment of a name: `drop NAME WORD`.
    pub fn drop_word(alloc: A, name: &[u8], word: &[u8]) -> Result<Edit<A>, AllocError>
        ensures { IfOk result (λ e. edit_of e ≡ edits.ChangeValue (edits.One None) name.now (edits.Remove word.now)) }
    {
        let name = Vec::from_slice(alloc, name)?;
        let word = Vec::from_slice(alloc, word)?;
        Ok(Edit::RemoveWord {
            nth: None,
            name,
            word,
        })
    }

    /// Puts a text before the value of the only assignment of a name: `prepend NAME VALUE`.
    pub fn prepend(alloc: A, name: &[u8], value: &[u8]) -> Result<Edit<A>, AllocError>
        ensures { IfOk result (λ e. edit_of e ≡ edits.ChangeLine None name.now (edits.Prepend value.now)) }
    {
        let name = Vec::from_slice(alloc, name)?;
        let value = Vec::from_slice(alloc, value)?;
        Ok(Edit::ChangeLine {
            nth: None,
            name,
            change: LineChange::Prepend(value),
        })
    }

    /// Puts a text in the place of a word of the value of the only assignment of a name:
    /// `replace NAME WORD VALUE`.
    pub fn replace_word(
        alloc: A,
        name: &[u8],
        word: &[u8],
        value: &[u8],
    ) -> Result<Edit<A>, AllocError>
        ensures { IfOk result (λ e. edit_of e ≡ edits.ChangeLine None name.now (edits.ReplaceWord word.now value.now)) }
    {
        let name = Vec::from_slice(alloc, name)?;
        let word = Vec::from_slice(alloc, word)?;
        let value = Vec::from_slice(alloc, value)?;
        Ok(Edit::ChangeLine {
            nth: None,
            name,
            change: LineChange::ReplaceWord { word, value },
        })
    }

    /// Puts a word before another one of the value of the only assignment of a name:
    /// `add-before NAME WORD NEW`.
    pub fn add_before(alloc: A, name: &[u8], word: &[u8], new: &[u8]) -> Result<Edit<A>, AllocError>
        ensures { IfOk result (λ e. edit_of e
            ≡ edits.ChangeLine None name.now (edits.InsertWord Side.Before word.now new.now)) }
    {
        insert_word(alloc, name, Side::Before, word, new)
    }

    /// Puts a word after another one of the value of the only assignment of a name:
    /// `add-after NAME WORD NEW`.
    pub fn add_after(alloc: A, name: &[u8], word: &[u8], new: &[u8]) -> Result<Edit<A>, AllocError>
        ensures { IfOk result (λ e. edit_of e
            ≡ edits.ChangeLine None name.now (edits.InsertWord Side.After word.now new.now)) }
    {
        insert_word(alloc, name, Side::After, word, new)
    }

    /// Puts a text in the place of each occurrence of another in the value of the only assignment
    /// of a name: `subst NAME FROM TO`.
    pub fn substitute(alloc: A, name: &[u8], from: &[u8], to: &[u8]) -> Result<Edit<A>, AllocError>
        ensures { IfOk result (λ e. edit_of e ≡ edits.ChangeLine None name.now (edits.Substitute from.now to.now)) }
    {
        let name = Vec::from_slice(alloc, name)?;
        let from = Vec::from_slice(alloc, from)?;
        let to = Vec::from_slice(alloc, to)?;
        Ok(Edit::ChangeLine {
            nth: None,
            name,
            change: LineChange::Substitute { from, to },
        })
    }

    /// Gives the only assignment of a name another operator: `operator NAME OP`.
    pub fn operator(alloc: A, name: &[u8], operator: Flavor) -> Result<Edit<A>, AllocError>
        ensures { IfOk result (λ e. edit_of e ≡ edits.ChangeLine None name.now (edits.SetOperator operator)) }
    {
        let name = Vec::from_slice(alloc, name)?;
        Ok(Edit::ChangeLine {
            nth: None,
            name,
            change: LineChange::SetOperator(operator),
        })
    }

    /// Gives each assignment of a name another value: `all set NAME VALUE`.
    pub fn all_set(alloc: A, name: &[u8], value: &[u8]) -> Result<Edit<A>, AllocError>
        ensures { IfOk result (λ e. edit_of e ≡ edits.ChangeValue edits.Every name.now (edits.Set value.now)) }
    {
        let name = Vec::from_slice(alloc, name)?;
        let value = Vec::from_slice(alloc, value)?;
        Ok(Edit::ChangeValues {
            name,
            change: ValueChange::Set(value),
        })
    }

    /// Puts a text after the value of each assignment of a name: `all append NAME VALUE`.
    pub fn all_append(alloc: A, name: &[u8], value: &[u8]) -> Result<Edit<A>, AllocError>
        ensures { IfOk result (λ e. edit_of e
            ≡ edits.ChangeValue edits.Every name.now (edits.Append value.now)) }
    {
        let name = Vec::from_slice(alloc, name)?;
        let value = Vec::from_slice(alloc, value)?;
        Ok(Edit::ChangeValues {
            name,
            change: ValueChange::Append(value),
        })
    }

    /// Gives each assignment of a name that has a value another one: `all set-if NAME OLD VALUE`.
    pub fn all_set_if(
        alloc: A,
        name: &[u8],
        old: &[u8],
        value: &[u8],
    ) -> Result<Edit<A>, AllocError>
        ensures { IfOk result (λ e. edit_of e
            ≡ edits.ChangeValue edits.Every name.now (edits.SetIf old.now value.now)) }
    {
        let name = Vec::from_slice(alloc, name)?;
        let old = Vec::from_slice(alloc, old)?;
        let value = Vec::from_slice(alloc, value)?;
        Ok(Edit::ChangeValues {
            name,
            change: ValueChange::SetIf { old, value },
        })
    }

    /// Puts a word after each value of a name that does not have it: `all add NAME WORD`.
    pub fn all_add_word(alloc: A, name: &[u8], word: &[u8]) -> Result<Edit<A>, AllocError>
        ensures { IfOk result (λ e. edit_of e ≡ edits.ChangeValue edits.Every name.now (edits.Add word.now)) }
    {
        let name = Vec::from_slice(alloc, name)?;
        let word = Vec::from_slice(alloc, word)?;
        Ok(Edit::ChangeValues {
            name,
            change: ValueChange::Add(word),
        })
    }

    /// Takes a word out of each value of a name that has it: `all drop NAME WORD`.
    pub fn all_drop_word(alloc: A, name: &[u8], word: &[u8]) -> Result<Edit<A>, AllocError>
        ensures { IfOk result (λ e. edit_of e
            ≡ edits.ChangeValue edits.Every name.now (edits.Remove word.now)) }
    {
        let name = Vec::from_slice(alloc, name)?;
        let word = Vec::from_slice(alloc, word)?;
        Ok(Edit::ChangeValues {
            name,
            change: ValueChange::Remove(word),
        })
    }

    /// Takes out the line of the only assignment of a name: `unset NAME`.
    pub fn unset(alloc: A, name: &[u8]) -> Result<Edit<A>, AllocError>
        ensures { IfOk result (λ e. edit_of e ≡ edits.RemoveLines (edits.OfAssign None name.now)) }
    {
        let name = Vec::from_slice(alloc, name)?;
        Ok(Edit::RemoveAssign { nth: None, name })
    }

    /// Makes the line of the only assignment of a name a comment: `comment-out NAME`.
    pub fn comment_out(alloc: A, name: &[u8]) -> Result<Edit<A>, AllocError>
        ensures { IfOk result (λ e. edit_of e ≡ edits.SwitchLine edits.CommentOut None name.now) }
    {
        let name = Vec::from_slice(alloc, name)?;
        Ok(Edit::CommentOut { nth: None, name })
    }

    /// Makes the only comment that says a name the line of an assignment: `uncomment NAME`.
    pub fn uncomment(alloc: A, name: &[u8]) -> Result<Edit<A>, AllocError>
        ensures { IfOk result (λ e. edit_of e ≡ edits.SwitchLine edits.Uncomment None name.now) }
    {
        let name = Vec::from_slice(alloc, name)?;
        Ok(Edit::Uncomment { nth: None, name })
    }

    /// Takes out the line of the only rule for a target, with its recipe: `unrule TARGET`.
    pub fn unrule(alloc: A, target: &[u8]) -> Result<Edit<A>, AllocError>
        ensures { IfOk result (λ e. edit_of e ≡ edits.RemoveLines (edits.OfRule None target.now)) }
    {
        let target = Vec::from_slice(alloc, target)?;
        Ok(Edit::RemoveRule { nth: None, target })
    }

    /// Puts a word after the prerequisites of the only rule for a target: `depend TARGET WORD`.
    pub fn depend(alloc: A, target: &[u8], word: &[u8]) -> Result<Edit<A>, AllocError>
        ensures { IfOk result (λ e. edit_of e ≡ edits.ChangePrereqs None target.now (edits.AddPrereq false word.now)) }
    {
        let target = Vec::from_slice(alloc, target)?;
        let word = Vec::from_slice(alloc, word)?;
        Ok(Edit::AddPrereq {
            order: false,
            nth: None,
            target,
            word,
        })
    }

    /// Puts a word after the order-only prerequisites of the only rule for a target:
    /// `depend-order TARGET WORD`.
    pub fn depend_order(alloc: A, target: &[u8], word: &[u8]) -> Result<Edit<A>, AllocError>
        ensures { IfOk result (λ e. edit_of e ≡ edits.ChangePrereqs None target.now (edits.AddPrereq true word.now)) }
    {
        let target = Vec::from_slice(alloc, target)?;
        let word = Vec::from_slice(alloc, word)?;
        Ok(Edit::AddPrereq {
            order: true,
            nth: None,
            target,
            word,
        })
    }

    /// Takes a word out of the prerequisites of the only rule for a target: `undepend TARGET WORD`.
    pub fn undepend(alloc: A, target: &[u8], word: &[u8]) -> Result<Edit<A>, AllocError>
        ensures { IfOk result (λ e. edit_of e ≡ edits.ChangePrereqs None target.now (edits.RemovePrereq word.now)) }
    {
        let target = Vec::from_slice(alloc, target)?;
        let word = Vec::from_slice(alloc, word)?;
        Ok(Edit::RemovePrereq {
            nth: None,
            target,
            word,
        })
    }

    /// Puts a word in the place of another of the prerequisites of the only rule for a target:
    /// `depend-replace TARGET OLD NEW`.
    pub fn depend_replace(
        alloc: A,
        target: &[u8],
        old: &[u8],
        new: &[u8],
    ) -> Result<Edit<A>, AllocError>
        ensures { IfOk result (λ e. edit_of e
            ≡ edits.ChangePrereqs None target.now (edits.ReplacePrereq old.now new.now)) }
    {
        let target = Vec::from_slice(alloc, target)?;
        let old = Vec::from_slice(alloc, old)?;
        let new = Vec::from_slice(alloc, new)?;
        Ok(Edit::ReplacePrereq {
            nth: None,
            target,
            old,
            new,
        })
    }

    /// Puts a line after the recipe of the only rule for a target: `recipe TARGET LINE`.
    pub fn recipe(alloc: A, target: &[u8], line: &[u8]) -> Result<Edit<A>, AllocError>
        ensures { IfOk result (λ e. edit_of e ≡ edits.AddRecipe None target.now edits.Last line.now) }
    {
        let target = Vec::from_slice(alloc, target)?;
        let line = Vec::from_slice(alloc, line)?;
        Ok(Edit::AddRecipe {
            nth: None,
            target,
            line,
        })
    }

    /// Puts a line into the recipe of the only rule for a target, where it gets a number from 1:
    /// `recipe-insert TARGET K LINE`.
    pub fn recipe_insert(
        alloc: A,
        target: &[u8],
        number: u32,
        line: &[u8],
    ) -> Result<Edit<A>, AllocError>
        ensures { IfOk result (λ e. edit_of e
            ≡ edits.AddRecipe None target.now (edits.At number) line.now) }
    {
        let target = Vec::from_slice(alloc, target)?;
        let line = Vec::from_slice(alloc, line)?;
        Ok(Edit::InsertRecipe {
            nth: None,
            target,
            number,
            line,
        })
    }

    /// Gives the recipe line of a number another command, in the only rule for a target:
    /// `recipe-set TARGET K LINE`.
    pub fn recipe_set(
        alloc: A,
        target: &[u8],
        number: u32,
        line: &[u8],
    ) -> Result<Edit<A>, AllocError>
        ensures { IfOk result (λ e. edit_of e ≡ edits.SetRecipe None target.now (edits.ByNumber number) line.now) }
    {
        let target = Vec::from_slice(alloc, target)?;
        let line = Vec::from_slice(alloc, line)?;
        Ok(Edit::SetRecipe {
            nth: None,
            target,
            number,
            line,
        })
    }

    /// Takes out the recipe line of a number, in the only rule for a target: `recipe-del TARGET K`.
    pub fn recipe_del(alloc: A, target: &[u8], number: u32) -> Result<Edit<A>, AllocError>
        ensures { IfOk result (λ e. edit_of e ≡ edits.RemoveLines (edits.OfRecipe None target.now (edits.ByNumber number))) }
    {
        let target = Vec::from_slice(alloc, target)?;
        Ok(Edit::RemoveRecipe {
            nth: None,
            target,
            number,
        })
    }

    /// Gives the only recipe line of a text another command, in the only rule for a target:
    /// `recipe-replace TARGET OLD LINE`.
    pub fn recipe_replace(
        alloc: A,
        target: &[u8],
        old: &[u8],
        line: &[u8],
    ) -> Result<Edit<A>, AllocError>
        ensures { IfOk result (λ e. edit_of e
            ≡ edits.SetRecipe None target.now (edits.ByText old.now) line.now) }
    {
        let target = Vec::from_slice(alloc, target)?;
        let old = Vec::from_slice(alloc, old)?;
        let line = Vec::from_slice(alloc, line)?;
        Ok(Edit::SetRecipeByText {
            nth: None,
            target,
            old,
            line,
        })
    }

    /// Takes out the only recipe line of a text, in the only rule for a target:
    /// `recipe-remove TARGET OLD`.
    pub fn recipe_remove(alloc: A, target: &[u8], old: &[u8]) -> Result<Edit<A>, AllocError>
        ensures { IfOk result (λ e. edit_of e ≡ edits.RemoveLines (edits.OfRecipe None target.now (edits.ByText old.now))) }
    {
        let target = Vec::from_slice(alloc, target)?;
        let old = Vec::from_slice(alloc, old)?;
        Ok(Edit::RemoveRecipeByText {
            nth: None,
            target,
            old,
        })
    }

    /// Gives a target another name, wherever it stands as a target or as a prerequisite:
    /// `rename OLD NEW`.
    pub fn rename(alloc: A, old: &[u8], new: &[u8]) -> Result<Edit<A>, AllocError>
        ensures { IfOk result (λ e. edit_of e ≡ edits.RenameTarget old.now new.now) }
    {
        let from = Vec::from_slice(alloc, old)?;
        let to = Vec::from_slice(alloc, new)?;
        Ok(Edit::RenameTarget { from, to })
    }

    /// Puts whole lines in the place of the only ones that say a block: `line-replace OLD BLOCK`.
    pub fn line_replace(alloc: A, old: &[u8], block: &[u8]) -> Result<Edit<A>, AllocError>
        ensures { IfOk result (λ e. edit_of e
            ≡ edits.ExchangeLines (edits.OfRun None (block_lines old.now)) (block_lines block.now)) }
    {
        let old = Vec::from_slice(alloc, old)?;
        let block = Vec::from_slice(alloc, block)?;
        Ok(Edit::ExchangeLines {
            site: Site::OfLines { nth: None, old },
            block: Some(block),
        })
    }

    /// Takes out the only lines that say a block: `line-remove OLD`.
    pub fn line_remove(alloc: A, old: &[u8]) -> Result<Edit<A>, AllocError>
        ensures { IfOk result (λ e. edit_of e
            ≡ edits.ExchangeLines (edits.OfRun None (block_lines old.now)) []) }
    {
        let old = Vec::from_slice(alloc, old)?;
        Ok(Edit::ExchangeLines {
            site: Site::OfLines { nth: None, old },
            block: None,
        })
    }

    /// Puts whole lines in the place of the only rule for a target, with its recipe:
    /// `rule-replace TARGET BLOCK`.
    pub fn rule_replace(alloc: A, target: &[u8], block: &[u8]) -> Result<Edit<A>, AllocError>
        ensures { IfOk result (λ e. edit_of e
            ≡ edits.ExchangeLines (edits.OfRuleRun None target.now) (block_lines block.now)) }
    {
        let target = Vec::from_slice(alloc, target)?;
        let block = Vec::from_slice(alloc, block)?;
        Ok(Edit::ExchangeLines {
            site: Site::OfRule { nth: None, target },
            block: Some(block),
        })
    }

    /// Takes out the only rule for a target, with its recipe and the conditionals in it:
    /// `rule-remove TARGET`.
    pub fn rule_remove(alloc: A, target: &[u8]) -> Result<Edit<A>, AllocError>
        ensures { IfOk result (λ e. edit_of e
            ≡ edits.ExchangeLines (edits.OfRuleRun None target.now) []) }
    {
        let target = Vec::from_slice(alloc, target)?;
        Ok(Edit::ExchangeLines {
            site: Site::OfRule { nth: None, target },
            block: None,
        })
    }

    /// The same edit of another line of its name or target, by its number from 1: `nth N` before
    /// a command. [`number_edit`] says which number it is, and which edits have none.
    pub fn nth(mut self, number: u32) -> Edit<A>
        ensures { edit_of result ≡ numbered number (edit_of self) }
    {
        number_edit(&mut self, number);
        self
    }
}

/// Gives an edit the number of the line that it means, from 1, among the lines of the same name or
/// target; where it puts a line in, the number of the place; and where it means whole lines, the
/// number of their run. The edits that mean each line of a name or of the file, those by
/// [`Edit::rename`], [`Edit::values_substitute`], [`Edit::recipes_substitute`] and the calls that begin
/// with `all`, have no number and stay. Takes no memory.
pub fn number_edit<A: Allocator>(edit: &mut Edit<A>, number: u32)
    ensures { edit_of edit.new ≡ numbered number (edit_of edit.old) }
{
    match edit {
        Edit::SetValue { nth, .. } => *nth = Some(number),
        Edit::SetValueIf { nth, .. } => *nth = Some(number),
        Edit::AppendValue { nth, .. } => *nth = Some(number),
        Edit::AddWord { nth, .. } => *nth = Some(number),
        Edit::RemoveWord { nth, .. } => *nth = Some(number),
        Edit::ChangeLine { nth, .. } => *nth = Some(number),
        Edit::RemoveAssign { nth, .. } => *nth = Some(number),
        Edit::CommentOut { nth, .. } => *nth = Some(number),
        Edit::Uncomment { nth, .. } => *nth = Some(number),
        Edit::RemoveRule { nth, .. } => *nth = Some(number),
        Edit::AddPrereq { nth, .. } => *nth = Some(number),
        Edit::RemovePrereq { nth, .. } => *nth = Some(number),
        Edit::ReplacePrereq { nth, .. } => *nth = Some(number),
        Edit::AddRecipe { nth, .. } => *nth = Some(number),
        Edit::SetRecipe { nth, .. } => *nth = Some(number),
        Edit::RemoveRecipe { nth, .. } => *nth = Some(number),
        Edit::InsertRecipe { nth, .. } => *nth = Some(number),
        Edit::SetRecipeByText { nth, .. } => *nth = Some(number),
        Edit::RemoveRecipeByText { nth, .. } => *nth = Some(number),
        Edit::AddAssign { place, .. } => number_place(place, number),
        Edit::AddRule { place, .. } => number_place(place, number),
        Edit::ExchangeLines { site, .. } => number_site(site, number),
        Edit::EachLine(each) => number_each(each, number),
        Edit::ChangeValues { .. } | Edit::RenameTarget { .. } => {}
    }
}

// Puts a word on one side of another one of the value of the only assignment of a name.
fn insert_word<A: Allocator + Copy>(
    alloc: A,
    name: &[u8],
    side: Side,
    word: &[u8],
    new: &[u8],
) -> Result<Edit<A>, AllocError>
    ensures { IfOk result (λ e. edit_of e
        ≡ edits.ChangeLine None name.now (edits.InsertWord side word.now new.now)) }
{
    let name = Vec::from_slice(alloc, name)?;
    let word = Vec::from_slice(alloc, word)?;
    let new = Vec::from_slice(alloc, new)?;
    Ok(Edit::ChangeLine {
        nth: None,
        name,
        change: LineChange::InsertWord { side, word, new },
    })
}
