//! The edits of several lines that are checked by reading, by the words of scripts.
ghost use Rattle.std.specs.Prelude.{◌≡◌, IfOk, None};
ghost use Rattle.mk_edit_language.specs.EditViews.{each_edit_of, edit_of};
ghost use Rattle.mk_edit_language.specs.Edits as edits;
ghost use Rattle.mk_edit_language.specs.Numbered.{numbered_each};

use crate::edit::{EachEdit, Edit, LineChange};
use mk_class::Flavor;
use std::alloc::{AllocError, Allocator};

impl<A: Allocator + Copy> Edit<A> {
    /// Puts a text before the value of each assignment of a name: `all prepend NAME VALUE`.
    pub fn all_prepend(alloc: A, name: &[u8], value: &[u8]) -> Result<Edit<A>, AllocError>
        ensures { IfOk result (λ e. edit_of e
            ≡ edits.EachLine (edits.ChangeEach name.now (edits.Prepend value.now))) }
    {
        let name = Vec::from_slice(alloc, name)?;
        let value = Vec::from_slice(alloc, value)?;
        Ok(Edit::EachLine(EachEdit::ChangeEach {
            name,
            change: LineChange::Prepend(value),
        }))
    }

    /// Puts a text in the place of a word of the value of each assignment of a name:
    /// `all replace NAME WORD VALUE`.
    pub fn all_replace_word(
        alloc: A,
        name: &[u8],
        word: &[u8],
        value: &[u8],
    ) -> Result<Edit<A>, AllocError>
        ensures { IfOk result (λ e. edit_of e
            ≡ edits.EachLine (edits.ChangeEach name.now (edits.ReplaceWord word.now value.now))) }
    {
        let name = Vec::from_slice(alloc, name)?;
        let word = Vec::from_slice(alloc, word)?;
        let value = Vec::from_slice(alloc, value)?;
        Ok(Edit::EachLine(EachEdit::ChangeEach {
            name,
            change: LineChange::ReplaceWord { word, value },
        }))
    }

    /// Puts a text in the place of each occurrence of another in the value of each assignment of a
    /// name: `all subst NAME FROM TO`.
    pub fn all_substitute(
        alloc: A,
        name: &[u8],
        from: &[u8],
        to: &[u8],
    ) -> Result<Edit<A>, AllocError>
        ensures { IfOk result (λ e. edit_of e
            ≡ edits.EachLine (edits.ChangeEach name.now (edits.Substitute from.now to.now))) }
    {
        let name = Vec::from_slice(alloc, name)?;
        let from = Vec::from_slice(alloc, from)?;
        let to = Vec::from_slice(alloc, to)?;
        Ok(Edit::EachLine(EachEdit::ChangeEach {
            name,
            change: LineChange::Substitute { from, to },
        }))
    }

    /// Gives each assignment of a name another operator: `all operator NAME OP`.
    pub fn all_operator(alloc: A, name: &[u8], operator: Flavor) -> Result<Edit<A>, AllocError>
        ensures { IfOk result (λ e. edit_of e
            ≡ edits.EachLine (edits.ChangeEach name.now (edits.SetOperator operator))) }
    {
        let name = Vec::from_slice(alloc, name)?;
        Ok(Edit::EachLine(EachEdit::ChangeEach {
            name,
            change: LineChange::SetOperator(operator),
        }))
    }

    /// Puts a text in the place of each occurrence of another in the values of all assignments:
    /// `values-subst FROM TO`.
    pub fn values_substitute(alloc: A, from: &[u8], to: &[u8]) -> Result<Edit<A>, AllocError>
        ensures { IfOk result (λ e. edit_of e ≡ edits.EachLine (edits.SubstValues from.now to.now)) }
    {
        let from = Vec::from_slice(alloc, from)?;
        let to = Vec::from_slice(alloc, to)?;
        Ok(Edit::EachLine(EachEdit::SubstValues { from, to }))
    }

    /// Puts a text in the place of each occurrence of another in the recipe lines of the rules for a
    /// target: `recipe-subst TARGET FROM TO`. With a number, it means one of these rules.
    pub fn recipe_substitute(
        alloc: A,
        target: &[u8],
        from: &[u8],
        to: &[u8],
    ) -> Result<Edit<A>, AllocError>
        ensures { IfOk result (λ e. edit_of e
            ≡ edits.EachLine (edits.SubstRecipe None target.now from.now to.now)) }
    {
        let target = Vec::from_slice(alloc, target)?;
        let from = Vec::from_slice(alloc, from)?;
        let to = Vec::from_slice(alloc, to)?;
        Ok(Edit::EachLine(EachEdit::SubstRecipe {
            nth: None,
            target,
            from,
            to,
        }))
    }

    /// Puts a text in the place of each occurrence of another in all recipe lines:
    /// `recipes-subst FROM TO`.
    pub fn recipes_substitute(alloc: A, from: &[u8], to: &[u8]) -> Result<Edit<A>, AllocError>
        ensures { IfOk result (λ e. edit_of e ≡ edits.EachLine (edits.SubstRecipes from.now to.now)) }
    {
        let from = Vec::from_slice(alloc, from)?;
        let to = Vec::from_slice(alloc, to)?;
        Ok(Edit::EachLine(EachEdit::SubstRecipes { from, to }))
    }
}

/// Gives an edit of several lines the number of the rule that it means, from 1, among the rules for its
/// target. The other edits have no number and stay. Takes no memory.
pub fn number_each<A: Allocator>(edit: &mut EachEdit<A>, number: u32)
    ensures { each_edit_of edit.new ≡ numbered_each number (each_edit_of edit.old) }
{
    match edit {
        EachEdit::SubstRecipe { nth, .. } => *nth = Some(number),
        EachEdit::ChangeEach { .. }
        | EachEdit::SubstValues { .. }
        | EachEdit::SubstRecipes { .. } => {}
    }
}
