//! The lines that assign a variable, found by one walk, so that the line of any number is at hand.
ghost use Rattle.std.specs.Prelude.{◌≡◌, ◌+◌, ◌<◌, ◌≤◌, ℕ, if◌then◌else◌, List, [], ◌∷◌, ◌++◌, OnOk, IfOk, Some, drop, length};
ghost use Rattle.mk_lines.specs.Limits.{max_text};
ghost use Rattle.mk_class.specs.ClassedLines.{classed_lines};
ghost use Rattle.mk_class.specs.Contexts.{Admits};
ghost use Rattle.mk_tree.specs.Admissions.{AreAdmitted};
ghost use Rattle.mk_tree.specs.Documents.{IsFaithful};
ghost use Rattle.mk_tree.specs.LocatedLines.{LocatedLine, located_text};
ghost use Rattle.mk_tree.specs.Origins.{lines_between};
ghost use Rattle.mk_edit_language.specs.Addresses.{Variable};
ghost use Rattle.mk_edit_language.specs.Spots.{nth_of};
ghost use Rattle.mk_edit_parts.specs.Candidates.{AreCandidates, nothing_listed, seen_for};
ghost use Rattle.mk_edit_parts.specs.LocatedParts.{assigns_located};
ghost use Rattle.mk_edit_parts.specs.Seeking.{IsSought};
ghost use Rattle.mk_edit_parts.specs.SeekWalks.{noted_by, seek};
ghost use Rattle.mk_edit_parts.specs.Windows.{AreWindows, concerns_name, first_place};

use crate::line_test::assigns;
use crate::seek::{Found, Sought};
use crate::window::Window;
use mk_class::{Class, Context};
use mk_lines::source::MAX_TEXT;
use mk_tree::Doc;
use mk_tree::end::sets_prefix_unread;
use std::alloc::{AllocError, Allocator, Global};
use std::marker::Model;

/// The lines of a document that assign a variable, in their order, and what else a walk for one of them
/// sees.
#[derive(Drop)]
pub struct Candidates<A: Allocator = Global> {
    places: Vec<Found, A>,
    has_unread_prefix: bool,
    end: Found,
}

impl<A: Allocator> Model for Candidates<A> {
    ghost use Rattle.mk_edit_parts.specs.Candidates.{Listed};

    ghost Value = { Listed };

    ghost view = { λ c. record {
      places = c.places.items;
      has_unread_prefix = c.has_unread_prefix;
      end = c.end;
    } };
}

/// The lines of a document that assign a variable, by a walk over the lines of some windows alone. No
/// line outside of the windows assigns it, and none sets the recipe prefix in a way that is not read.
/// The call reads no line anew. [`AllocError`] if a growth was refused.
pub fn candidates_within<A: Allocator + Copy>(
    alloc: A,
    doc: &Doc<A>,
    windows: &[Window],
    name: &[u8],
) -> Result<Candidates<A>, AllocError>
    requires faithful { IsFaithful doc.now }
    requires windows { AreWindows (concerns_name name.now) first_place doc.now windows.now }
    ensures { IfOk result (λ candidates. AreCandidates name.now doc.now candidates) }
{
    // The contract of `iter` says that each line is admitted where it stands.
    let _lines = doc.iter();
    let mut candidates = Candidates::none(alloc);
    'windows: for window in windows {
        candidates.list_in(doc, *window, name)?;
    }
    Ok(candidates)
}

impl<A: Allocator + Copy> Candidates<A> {
    // What is listed before a walk.
    fn none(alloc: A) -> Candidates<A>
        ensures { result ≡ nothing_listed }
    {
        Candidates {
            places: Vec::new(alloc),
            has_unread_prefix: false,
            end: Found {
                at: 0,
                context: Context::start(),
            },
        }
    }

    // Lists the lines of one more window, and passes over those above it.
    fn list_in(&mut self, doc: &Doc<A>, window: Window, name: &[u8]) -> Result<(), AllocError>
        requires faithful { IsFaithful doc.now }
        requires in_range { window.place.at + window.count ≤ length doc.now }
        requires admitted { AreAdmitted window.place.context (drop window.place.at doc.now) }
        requires no_more { length self.old.places ≤ window.place.at }
        ensures { OnOk result ((wanted : ℕ) → seen_for wanted self.new
            ≡ seek (assigns_located name.now) wanted
            (record (seen_for wanted self.old) { end = window.place })
            (lines_between window.place.at window.count doc.now)) }
    {
        prove!(doc.len() <= MAX_TEXT);
        self.end = window.place;
        let mut lines = doc.lines_from(window.place.at);
        'lines: for at in 0..window.count {
            let Some(line) = lines.next() else {
                unreachable!()
            };
            let class = line.class();
            let is_meant = assigns(line, &class, name);
            let is_unread = sets_prefix_unread(line, &class);
            self.note(is_meant, is_unread, &class)?;
        }
        Ok(())
    }

    // Notes one more line, which has this class.
    fn note(&mut self, is_meant: bool, is_unread: bool, class: &Class) -> Result<(), AllocError>
        requires few { self.old.end.at < max_text }
        requires admitted { Admits self.old.end.context class.now }
        requires no_more { length self.old.places ≤ self.old.end.at }
        ensures seen { OnOk result ((wanted : ℕ) → seen_for wanted self.new
            ≡ noted_by is_meant is_unread wanted class.now (seen_for wanted self.old)) }
        ensures no_more { OnOk result (length self.new.places ≤ self.new.end.at) }
    {
        push_if(&mut self.places, is_meant, self.end)?;
        self.has_unread_prefix |= is_unread;
        self.end = Found {
            at: self.end.at + 1,
            context: self.end.context.step(class),
        };
        Ok(())
    }

    /// What a walk would find for the variable's line of this number, from 1. Takes no memory.
    pub fn sought(&self, number: u32) -> Sought
        ensures { (name : List ℕ) (lines : List LocatedLine) → IsFaithful lines
            → AreCandidates name lines self.now → IsSought (classed_lines (located_text lines))
            (Some (Variable (Some number) name)) result }
    {
        Sought {
            count: self.places.len(),
            found: nth_of(&self.places, number as usize),
            has_unread_prefix: self.has_unread_prefix,
            end: self.end,
        }
    }
}

// Pushes a place, if it is meant.
fn push_if<A: Allocator + Copy>(
    places: &mut Vec<Found, A>,
    is_meant: bool,
    place: Found,
) -> Result<(), AllocError>
    ensures { OnOk result (places.new.items
        ≡ (if is_meant then places.old.items ++ place ∷ [] else places.old.items)) }
{
    if is_meant {
        places.push(place)?;
    }
    Ok(())
}

// The place of a number, from 1, if there is one.
fn nth_of(places: &[Found], number: usize) -> Option<Found>
    ensures { result ≡ nth_of number places.now }
{
    if number == 0 || number > places.len() {
        return None;
    }
    Some(places[number - 1])
}
