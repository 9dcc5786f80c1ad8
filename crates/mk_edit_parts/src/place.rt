//! Places further down in a document, and where the new line of a place goes.
ghost use Rattle.std.specs.Prelude.{◌≡◌, ◌≤◌, ◌+◌, length, Some, None, IfSome};
ghost use Rattle.mk_class.specs.ClassedLines.{classed_lines};
ghost use Rattle.mk_tree.specs.Documents.{IsFaithful};
ghost use Rattle.mk_tree.specs.LocatedLines.{located_text};
ghost use Rattle.mk_edit_language.specs.Addresses.{place_address};
ghost use Rattle.mk_edit_language.specs.EditViews.{place_of};
ghost use Rattle.mk_edit_language.specs.RuleCauses.{straddles_at};
ghost use Rattle.mk_edit_language.specs.Stretches.{place_found};
ghost use Rattle.mk_edit_language.specs.declared.refusal.Refusal.TheVariants.{Straddles};
ghost use Rattle.mk_edit_parts.specs.Found.{IsMeant, IsPlaceOf};
ghost use Rattle.mk_edit_parts.specs.NewPlaces.{IsInsertedAt};
ghost use Rattle.mk_edit_parts.specs.Windows.{first_place};

use crate::recipe::recipe_below;
use crate::seek::Found;
use mk_class::Context;
use mk_edit_language::Place;
use mk_lines::source::MAX_TEXT;
use mk_tree::{Doc, Run};
use std::alloc::Allocator;

/// Where the new line of a place goes. `found` is the line that the place names, or the end of the
/// document if it names no line. None if the place is after a rule, and a line of a conditional stands
/// in the rule's recipe. The call reads no line anew and takes no memory.
pub fn place_of_new<A: Allocator>(doc: &Doc<A>, place: &Place<A>, found: Found) -> Option<Found>
    requires faithful { IsFaithful doc.now }
    requires meant { IsMeant (classed_lines (located_text doc.now))
        (place_address (place_of place.now)) found }
    ensures inserted { IfSome result (λ found. IsInsertedAt doc.now
        (place_found (classed_lines (located_text doc.now)) (place_of place.now)) found) }
    ensures unsplit { IfSome result (λ found.
        straddles_at (classed_lines (located_text doc.now)) (place_of place.now) ≡ None) }
    ensures split { result ≡ None
        → straddles_at (classed_lines (located_text doc.now)) (place_of place.now)
        ≡ Some Straddles }
{
    prove!(doc.len() <= MAX_TEXT);
    match place {
        Place::Top => Some(top()),
        Place::AfterVar { .. } => Some(after_lines(doc, found, 1)),
        Place::AfterLastVar { .. } => Some(after_lines(doc, found, 1)),
        Place::AfterRule { .. } => {
            let recipe = recipe_below(doc, found.at + 1);
            if recipe.is_split {
                return None;
            }
            Some(after_lines(doc, found, recipe.end - found.at))
        }
        _ => Some(found),
    }
}

// The start of a document.
fn top() -> Found
    ensures { result ≡ first_place }
{
    Found {
        at: 0,
        context: Context::start(),
    }
}

/// The place `count` lines further down, with its context. The call steps over these lines, over a
/// run of recipe lines or of blank lines at once. It reads no line anew and takes no memory.
pub fn after_lines<A: Allocator>(doc: &Doc<A>, place: Found, count: usize) -> Found
    requires faithful { IsFaithful doc.now }
    requires place { IsPlaceOf doc.now place }
    requires in_range { place.at + count ≤ length doc.now }
    ensures at { result.at ≡ place.at + count }
    ensures place { IsPlaceOf doc.now result }
{
    prove!(doc.len() <= MAX_TEXT);
    // The contract of `iter` says that each line is admitted where it stands.
    let _lines = doc.iter();
    let end = place.at + count;
    let mut at = place.at;
    let mut context = place.context;
    let mut lines = doc.lines_from(at);
    'lines: while at < end {
        let Some(line) = lines.next() else {
            unreachable!()
        };
        let class = line.class();
        context = context.step(&class);
        at += 1;
        if let Some(run) = Run::of(&class) {
            at += lines.pass(run, end - at);
        }
    }
    Found { at: end, context }
}
