//! The lines that hold the word of a rename, noted by the walk that decides: where each stands, how
//! many of its words are replaced, and the line itself.
//!
//! A cause of refusal is told before a want of memory. So a growth that is refused does not end the
//! walk: the notes are dropped, and the walk goes on without any.
ghost use Rattle.std.specs.Prelude.{◌≡◌, ◌∷◌, ◌++◌, [], IfSome, option_map};

use mk_edit_parts::seek::Found;
use mk_edit_parts::tally::Tally;
use mk_tree::Line;
use std::alloc::Allocator;

/// A line that holds the word.
#[derive(Drop)]
pub(crate) struct Held<'a, A: Allocator> {
    /// Where the line stands, and in which context.
    pub place: Found,
    /// The count of its words that are replaced. The turns need it too, and do not count again.
    pub tally: Tally,
    /// The line. The turns read it here, and do not go down the tree to find it.
    pub line: &'a Line<A>,
}

/// Some notes with one more line behind them. `None` if there are none, or if a growth was refused.
pub(crate) fn noted<'a, A: Allocator>(
    places: Option<Vec<Held<'a, A>, A>>,
    held: Held<'a, A>,
) -> Option<Vec<Held<'a, A>, A>>
    ensures { IfSome result (λ after. Some after.items
        ≡ option_map (λ before. before.items ++ held.entry ∷ []) places.entry) }
{
    // The prover does not follow a struct with a reference that is moved on one way and dropped on
    // another. So the note is taken apart, and made anew where it is moved.
    let Held { place, tally, line } = held;
    let mut places = places?;
    match places.push(Held { place, tally, line }) {
        Ok(()) => Some(places),
        Err(_) => None,
    }
}
