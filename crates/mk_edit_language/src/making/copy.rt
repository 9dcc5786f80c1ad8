//! Copies of edits and of places, and whether two of them are the same.
ghost use Rattle.std.specs.Prelude.{◌≡◌, ◌↔◌, IfOk, IsTrue};
ghost use Rattle.mk_edit_language.specs.EditViews.{edit_of, place_of};

use crate::edit::{Edit, Place};
use std::alloc::{AllocError, Allocator};

/// The copy that `clone` makes of an edit: the same edit, with texts of its own. They take memory from
/// the allocator of the edit's texts.
///
/// # Errors
///
/// [`AllocError`] if there is no memory for a text.
pub fn clone_edit<A: Allocator + Clone>(edit: &Edit<A>) -> Result<Edit<A>, AllocError>
    ensures { IfOk result (λ copy. edit_of copy ≡ edit_of edit.now) }
{
    edit.clone()
}

/// The copy that `clone` makes of a place, with a text of its own. It takes memory from the allocator of
/// the place's text.
///
/// # Errors
///
/// [`AllocError`] if there is no memory for the text.
pub fn clone_place<A: Allocator + Clone>(place: &Place<A>) -> Result<Place<A>, AllocError>
    ensures { IfOk result (λ copy. place_of copy ≡ place_of place.now) }
{
    place.clone()
}

/// Whether two edits are the same, as `==` says: the same edit of the definitions, with the same numbers
/// and the same texts, byte by byte. Takes no memory.
pub fn is_same_edit<A: Allocator>(edit: &Edit<A>, other: &Edit<A>) -> bool
    ensures { IsTrue result ↔ (edit_of edit.now ≡ edit_of other.now) }
{
    edit == other
}

/// Whether two places are the same, as `==` says. Takes no memory.
pub fn is_same_place<A: Allocator>(place: &Place<A>, other: &Place<A>) -> bool
    ensures { IsTrue result ↔ (place_of place.now ≡ place_of other.now) }
{
    place == other
}
