//! The causes of refusal of a rename, in their order.
ghost use Rattle.std.specs.Prelude.{◌≡◌, ◌+◌, ◌*◌, ◌≤◌, IfOk, IfErr, IfSome, None, Some, map, nat_lt};
ghost use Rattle.mk_lines.specs.Limits.{max_text};
ghost use Rattle.mk_class.specs.ClassedLines.{classed_lines};
ghost use Rattle.mk_class.specs.Contexts.{start};
ghost use Rattle.mk_tree.specs.Documents.{IsFaithful};
ghost use Rattle.mk_tree.specs.LocatedLines.{located_text};
ghost use Rattle.mk_edit_language.specs.Refusals.{causes, first_cause};
ghost use Rattle.mk_edit_language.specs.Edits.{RenameTarget};
ghost use Rattle.mk_edit_language.specs.EditViews.{edit_of};
ghost use Rattle.mk_edit_parts.specs.Windows.{AreWindows, concerns_rename, first_place};
ghost use Rattle.mk_edit.specs.RenameTargetEffects.{effect_on, first_of_lines};
ghost use Rattle.mk_edit.specs.RenameTargetPatches.{held_places, held_view};

use crate::rename_target_effect::{Effect, Survey, rename_target_effect};
use mk_edit_language::{Edit, Refusal};
use mk_edit_parts::argument::{bad_field, is_reserved};
use mk_edit_parts::window::Window;
use mk_lines::source::MAX_TEXT;
use mk_tree::Doc;
use std::alloc::Allocator;

/// What the rename of a word does to the lines of a document and where those lines stand, if no
/// cause of refusal holds. The call decides, in this order, whether a word may not be a target, or is
/// reserved; whether the recipe prefix is set in a way that is not read; whether the old word is no
/// target; whether a line would begin with the recipe prefix; whether the new word is a target; and
/// whether the text would be too long. It walks once over the lines of the windows, outside of which
/// no line concerns the rename, and reads no line anew. It takes memory for the places alone, and
/// decides the same without it.
///
/// # Errors
///
/// The first refusal whose cause holds.
pub(crate) fn accepted_rename<'a, A: Allocator + Copy>(
    alloc: A,
    doc: &'a Doc<A>,
    edit: &Edit<A>,
    windows: &[Window],
    from: &[u8],
    to: &[u8],
) -> Result<Survey<'a, A>, Refusal>
    requires faithful { IsFaithful doc.now }
    requires kind { edit_of edit.now ≡ RenameTarget from.now to.now }
    requires windows { AreWindows (concerns_rename from.now to.now) first_place doc.now windows.now }
    ensures effect { IfOk result (λ survey.
        survey.effect ≡ effect_on from.now to.now start doc.now) }
    ensures places { IfOk result (λ survey. IfSome survey.places (λ places.
        map held_view places.items ≡ held_places from.now doc.now)) }
    ensures accepted { IfOk result (λ _. first_cause (causes (located_text doc.now)
        (classed_lines (located_text doc.now)) (edit_of edit.now)) ≡ None) }
    ensures refused { IfErr result (λ refusal. first_cause (causes (located_text doc.now)
        (classed_lines (located_text doc.now)) (edit_of edit.now)) ≡ Some refusal) }
{
    if let Some(field) = bad_field(edit) {
        return Err(Refusal::BadArgument(field));
    }
    if is_reserved(edit) {
        return Err(Refusal::Reserved);
    }
    let survey = rename_target_effect(alloc, doc, windows, from, to);
    match first_of_lines(survey.effect, doc.size(), to.len()) {
        Some(refusal) => Err(refusal),
        None => Ok(survey),
    }
}

// The first refusal whose cause lies in the lines of a document of this size, by what a rename does
// to them. The new word has `new_length` bytes.
fn first_of_lines(effect: Effect, size: usize, new_length: usize) -> Option<Refusal>
    requires within { size ≤ max_text }
    requires few_bytes { effect.bytes ≤ max_text }
    ensures { result ≡ first_of_lines effect size new_length }
{
    if effect.has_unread_prefix {
        return Some(Refusal::RecipePrefix);
    }
    if !effect.is_there {
        return Some(Refusal::NoSuch);
    }
    if effect.begins_line {
        return Some(Refusal::RecipePrefix);
    }
    if effect.is_taken {
        return Some(Refusal::Taken);
    }
    if is_too_long(size, effect, new_length) {
        return Some(Refusal::TooLong);
    }
    None
}

// Whether a text of this size is longer than a text may be, after a rename that has this effect and
// whose new word has this length.
fn is_too_long(size: usize, effect: Effect, new_length: usize) -> bool
    requires within { size ≤ max_text }
    requires few_bytes { effect.bytes ≤ max_text }
    ensures { result ≡ nat_lt (max_text + effect.bytes) (size + effect.words * new_length) }
{
    // The new words alone may have more bytes than a number can say. Then the text is too long.
    effect.words.saturating_mul(new_length) > MAX_TEXT - size + effect.bytes
}
