//! The lines that a change of values changes, noted by the walk that decides: where each stands, and
//! the line itself.
//!
//! A cause of refusal is told before a want of memory. So a growth that is refused does not end the
//! walk: the notes are dropped, and the walk goes on without any.
ghost use Rattle.std.specs.Prelude.{◌≡◌, ◌∷◌, ◌++◌, [], IfSome, option_map};

use mk_edit_parts::seek::Found;
use mk_tree::Line;
use std::alloc::Allocator;

/// A line that a change of values changes.
#[derive(Drop)]
pub(crate) struct Meant<'a, A: Allocator> {
    /// Where the line stands, and in which context.
    pub place: Found,
    /// The line. The patch reads it here, and does not go down the tree to find it.
    pub line: &'a Line<A>,
}

/// Some notes with one more line behind them. `None` if there are none, or if a growth was refused.
pub(crate) fn with_meant<'a, A: Allocator>(
    places: Option<Vec<Meant<'a, A>, A>>,
    meant: Meant<'a, A>,
) -> Option<Vec<Meant<'a, A>, A>>
    ensures { IfSome result (λ after. Some after.items
        ≡ option_map (λ before. before.items ++ meant.entry ∷ []) places.entry) }
{
    // The prover does not follow a struct with a reference that is moved on one way and dropped on
    // another. So the note is taken apart, and made anew where it is moved.
    let Meant { place, line } = meant;
    let mut places = places?;
    match places.push(Meant { place, line }) {
        Ok(()) => Some(places),
        Err(_) => None,
    }
}
