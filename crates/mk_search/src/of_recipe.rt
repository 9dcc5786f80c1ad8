//! Commands for a recipe line that becomes another one.

use crate::aim::Aim;
use crate::bench::Bench;
use crate::fault::DeriveError;
use crate::text::{SeenLine, without_end};
use crate::text_change::{Carrier, tries_texts};
use mk_edit_language::Edit;

/// Tries to make one recipe line of another in the recipe of its rule.
pub(crate) fn tries_recipe(
    bench: &mut Bench,
    old: SeenLine<'_>,
    new: SeenLine<'_>,
    aim: Aim<'_>,
) -> Result<bool, DeriveError> {
    let (Some(target), Some(_)) = (old.recipe_target(), new.recipe_target()) else {
        return Ok(false);
    };
    let (Some(old), Some(new)) = (recipe_text(old), recipe_text(new)) else {
        return Ok(false);
    };
    if tries_texts(bench, Carrier::Recipe(target), old, new, aim)? {
        return Ok(true);
    }
    bench.tries(Edit::recipe_replace(bench.alloc(), target, old, new), aim)
}

/// The text of a recipe line after the recipe prefix, with its folds.
pub(crate) fn recipe_text<'a>(seen: SeenLine<'a>) -> Option<&'a [u8]> {
    match without_end(seen.bytes()) {
        [_, text @ ..] => Some(text),
        [] => None,
    }
}
