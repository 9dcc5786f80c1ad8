//! The recipe line that an edit means.
ghost use Rattle.std.specs.Prelude.{◌≡◌, ◌≤◌, filter, length};
ghost use Rattle.mk_tree.specs.Documents.{IsFaithful};
ghost use Rattle.mk_edit_language.specs.EditViews.{edit_of};
ghost use Rattle.mk_edit_language.specs.Stretches.{has_text};
ghost use Rattle.mk_edit_parts.specs.RecipeWalks.{lines_from, recipe_spots_in};
ghost use Rattle.mk_edit.specs.RecipeEdits.{meant_recipe, only_index};

use mk_edit_language::{Edit, Refusal};
use mk_edit_parts::recipe::recipe_line;
use mk_edit_parts::recipe_text::recipe_matches;
use mk_tree::Doc;
use std::alloc::Allocator;

/// The index of the recipe line that an edit means, by its number or by its text. The header of the
/// rule stands directly before the index `from`. The call reads no line anew and takes no memory.
///
/// # Errors
///
/// [`Refusal::Absent`] if the rule has no recipe line of that number or of that text;
/// [`Refusal::Ambiguous`] if several recipe lines have the text.
pub(crate) fn meant_recipe<A: Allocator>(
    doc: &Doc<A>,
    edit: &Edit<A>,
    from: usize,
) -> Result<usize, Refusal>
    requires faithful { IsFaithful doc.now }
    requires in_range { from ≤ length doc.now }
    ensures { result
        ≡ meant_recipe (edit_of edit.now) from (recipe_spots_in (lines_from doc.now from)) }
{
    match edit {
        Edit::SetRecipe { number, .. } | Edit::RemoveRecipe { number, .. } => {
            match recipe_line(doc, from, *number) {
                Some(at) => Ok(at),
                None => Err(Refusal::Absent),
            }
        }
        Edit::SetRecipeByText { old, .. } | Edit::RemoveRecipeByText { old, .. } => {
            only_recipe(doc, from, old)
        }
        _ => Err(Refusal::Absent),
    }
}

// The index of the only recipe line of a header that has this text.
fn only_recipe<A: Allocator>(doc: &Doc<A>, from: usize, text: &[u8]) -> Result<usize, Refusal>
    requires faithful { IsFaithful doc.now }
    requires in_range { from ≤ length doc.now }
    ensures { result
        ≡ only_index from
        (filter (has_text text.now) (recipe_spots_in (lines_from doc.now from))) }
{
    let matches = recipe_matches(doc, from, text);
    match matches.first {
        None => Err(Refusal::Absent),
        Some(at) => {
            if matches.count == 1 {
                Ok(at)
            } else {
                Err(Refusal::Ambiguous(matches.count as u64))
            }
        }
    }
}
