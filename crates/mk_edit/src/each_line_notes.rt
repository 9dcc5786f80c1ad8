//! The lines that an edit of several lines changes, noted by the walk that decides: where each stands,
//! the line itself, and whether it becomes longer.
//!
//! A cause of refusal is told before a want of memory. So a growth that is refused does not end the
//! walk: the notes are dropped, and the walk goes on without any.
ghost use Rattle.std.specs.Prelude.{◌≡◌, ◌∷◌, ◌++◌, [], IfSome, option_map};

use mk_edit_parts::seek::Found;
use mk_tree::Line;
use std::alloc::Allocator;

/// A line that an edit changes.
#[derive(Drop)]
pub(crate) struct Noted<'a, A: Allocator> {
    /// Where the line stands, and in which context.
    pub place: Found,
    /// The line. The patch reads it here, and does not go down the tree to find it.
    pub line: &'a Line<A>,
    /// Whether the line becomes longer.
    pub is_longer: bool,
}

/// Some notes with one more behind them. `None` if there are none, or if a growth was refused.
pub(crate) fn with_noted<'a, A: Allocator>(
    notes: Option<Vec<Noted<'a, A>, A>>,
    noted: Noted<'a, A>,
) -> Option<Vec<Noted<'a, A>, A>>
    ensures { IfSome result (λ after. Some after.items
        ≡ option_map (λ before. before.items ++ noted.entry ∷ []) notes.entry) }
{
    // The prover does not follow a struct with a reference that is moved on one way and dropped on
    // another. So the note is taken apart, and made anew where it is moved.
    let Noted {
        place,
        line,
        is_longer,
    } = noted;
    let mut notes = notes?;
    match notes.push(Noted {
        place,
        line,
        is_longer,
    }) {
        Ok(()) => Some(notes),
        Err(_) => None,
    }
}
