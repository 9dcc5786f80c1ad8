//! The removal of a recipe line.
ghost use Rattle.std.specs.Prelude.{ℕ};
ghost use Rattle.mk_tree.specs.Documents.{IsFaithful};
ghost use Rattle.mk_edit_language.specs.EditViews.{edit_of};
ghost use Rattle.mk_edit_parts.specs.Seeking.{IsLineKnown};
ghost use Rattle.mk_edit.specs.Planned.{Plans};
ghost use Rattle.mk_edit.specs.RecipeEdits.{IsRemoveRecipe};

use crate::meant_recipe::meant_recipe;
use crate::moves::take_out;
use mk_edit_language::{Edit, Refusal};
use mk_edit_parts::find::find;
use mk_edit_parts::seek::Sought;
use mk_patch::Patch;
use mk_tree::Doc;
use std::alloc::Allocator;

/// Plans the removal of a rule's recipe line, by its number from 1 or by its text. It reads no line
/// anew.
///
/// # Errors
///
/// The first cause of the edit that holds: the causes of [`find`], or those of [`meant_recipe`]. If
/// no cause holds, [`Refusal::NoMemory`] if a growth was refused.
pub(crate) fn plan_remove_recipe<A: Allocator + Copy>(
    alloc: A,
    doc: &Doc<A>,
    edit: &Edit<A>,
    known: Option<Sought>,
) -> Result<Patch<A>, Refusal>
    requires faithful { IsFaithful doc.now }
    requires kind { IsRemoveRecipe (edit_of edit.now) }
    requires known { IsLineKnown (edit_of edit.now) doc.now known }
    ensures { (read : ℕ) → Plans (edit_of edit.now) doc.now read read result }
{
    // The contract of `size` says that the text is within the limit, and so is the rest of it.
    let _size = doc.size();
    let header = find(doc, edit, known)?;
    // No line below leans on a recipe line: a rule is open before it and after it.
    let at = meant_recipe(doc, edit, header.at + 1)?;
    take_out(alloc, at, 1)
}
