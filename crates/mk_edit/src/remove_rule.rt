//! The removal of a rule: its header, its recipe, and the lines between them.
ghost use Rattle.std.specs.Prelude.{ℕ};
ghost use Rattle.mk_tree.specs.Documents.{IsFaithful};
ghost use Rattle.mk_edit_language.specs.EditViews.{edit_of};
ghost use Rattle.mk_edit_parts.specs.Seeking.{IsLineKnown};
ghost use Rattle.mk_edit.specs.Planned.{Plans};
ghost use Rattle.mk_edit.specs.RecipeEdits.{IsRemoveRule};

use crate::moves::take_out;
use mk_edit_language::{Edit, Refusal};
use mk_edit_parts::find::find;
use mk_edit_parts::recipe::recipe_below;
use mk_edit_parts::rule::target_count;
use mk_edit_parts::seek::Sought;
use mk_patch::Patch;
use mk_tree::Doc;
use std::alloc::Allocator;

/// Plans the removal of a rule. It reads no line anew.
///
/// # Errors
///
/// The first cause of the edit that holds: the causes of [`find`]; [`Refusal::SharedRule`] if the
/// rule has several targets; and [`Refusal::Straddles`] if a line of a conditional stands in its
/// recipe. If no cause holds, [`Refusal::NoMemory`] if a growth was refused.
///
/// No line below leans: the first that counts does not begin with the recipe prefix, since it would
/// be one more recipe line. So the answer is never [`Refusal::Leans`].
pub(crate) fn plan_remove_rule<A: Allocator + Copy>(
    alloc: A,
    doc: &Doc<A>,
    edit: &Edit<A>,
    known: Option<Sought>,
) -> Result<Patch<A>, Refusal>
    requires faithful { IsFaithful doc.now }
    requires kind { IsRemoveRule (edit_of edit.now) }
    requires known { IsLineKnown (edit_of edit.now) doc.now known }
    ensures { (read : ℕ) → Plans (edit_of edit.now) doc.now read read result }
{
    // The contract of `size` says that the text is within the limit, and so is the rest of it.
    let _size = doc.size();
    let header = find(doc, edit, known)?;
    let targets = target_count(doc.line(header.at));
    if targets > 1 {
        return Err(Refusal::SharedRule(targets as u64));
    }
    let recipe = recipe_below(doc, header.at + 1);
    if recipe.is_split {
        return Err(Refusal::Straddles);
    }
    take_out(alloc, header.at, recipe.end - header.at)
}
