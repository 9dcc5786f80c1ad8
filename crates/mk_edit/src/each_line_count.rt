//! The places of a line that an edit of several lines replaces, counted. The call takes no memory.
ghost use Rattle.std.specs.Prelude.{◌≡◌, ◌*◌, ◌≤◌, nat_lt};
ghost use Rattle.mk_lines.specs.Limits.{max_text};
ghost use Rattle.mk_tree.specs.Trees.{line_view};
ghost use Rattle.mk_edit_language.specs.EachLine.{InAssignment};
ghost use Rattle.mk_edit_parts.specs.EachLineWalks.{each_change_view};
ghost use Rattle.mk_edit_parts.specs.LineChangePlaces.{rewrite_view};
ghost use Rattle.mk_edit.specs.EachLineSurveys.{IsCountable, gets_longer, places_counted};

use crate::assignment::{assignment_of, value_text};
use mk_edit_parts::each_line::EachChange;
use mk_edit_parts::line_change::{LineRewrite, count_of, new_length};
use mk_edit_parts::recipe_change::occurrences;
use mk_tree::Line;
use std::alloc::Allocator;

/// Some places of a line that get the same new text.
#[derive(Clone, Copy)]
pub(crate) struct PlaceCount {
    /// How many there are.
    pub count: usize,
    /// How many bytes they have in the line as it stands.
    pub bytes: usize,
    /// How many bytes each gets.
    pub new: usize,
}

/// The places of a line that a change replaces.
pub(crate) fn count_places<A: Allocator>(change: EachChange<'_>, line: &Line<A>) -> PlaceCount
    requires { IsCountable (each_change_view change) (line_view line.now) }
    ensures { result ≡ places_counted (each_change_view change.entry) (line_view line.now) }
{
    match change {
        EachChange::InAssignment(rewrite) => count_in_assignment(rewrite, line),
        EachChange::InRecipe { from, to } => {
            let count = occurrences(line.bytes(), from);
            PlaceCount {
                count,
                bytes: count * from.len(),
                new: to.len(),
            }
        }
    }
}

// The places of an assignment's line that a change replaces.
fn count_in_assignment<A: Allocator>(change: LineRewrite<'_>, line: &Line<A>) -> PlaceCount
    requires { IsCountable (InAssignment (rewrite_view change)) (line_view line.now) }
    ensures { result
        ≡ places_counted (InAssignment (rewrite_view change.entry)) (line_view line.now) }
{
    let places = count_of(change, line, assignment_of(line));
    PlaceCount {
        count: places.count,
        bytes: places.bytes,
        // No change of several lines needs a separator.
        new: new_length(change, b"", value_text(line)),
    }
}

/// Whether a line in which these places get their new text becomes longer.
pub(crate) fn gets_longer(places: PlaceCount) -> bool
    requires { places.bytes ≤ max_text }
    ensures { result ≡ gets_longer places }
{
    places.count.saturating_mul(places.new) > places.bytes
}
