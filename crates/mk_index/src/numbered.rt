//! The lines of the variable that an edit last meant by a number, so that the next edit need not count
//! them again.
ghost use Rattle.std.specs.Prelude.{List, Some, IfOk};
ghost use Rattle.mk_tree.specs.Documents.{IsFaithful};
ghost use Rattle.mk_tree.specs.LocatedLines.{LocatedLine};
ghost use Rattle.mk_edit_language.specs.Addresses.{Variable};
ghost use Rattle.mk_edit_parts.specs.Seeking.{IsKnownOf};
ghost use Rattle.mk_edit_parts.specs.Windows.{AreWindows, concerns_name, first_place};
ghost use Rattle.mk_index.specs.Effects.{AreNamedIn};

use mk_edit_parts::candidates::{Candidates, candidates_within};
use mk_edit_parts::seek::Sought;
use mk_edit_parts::text::is_same_text;
use mk_edit_parts::window::Window;
use mk_tree::Doc;
use std::alloc::{AllocError, Allocator, Global};
use std::marker::Model;

/// A variable, and the lines of a document that assign it, by their numbers.
#[derive(Drop)]
pub struct Numbered<A: Allocator = Global> {
    name: Vec<u8, A>,
    lines: Candidates<A>,
}

impl<A: Allocator> Model for Numbered<A> {
    ghost use Rattle.mk_index.specs.Effects.{NamedLines};

    ghost Value = { NamedLines };

    ghost view = { λ n. record { name = n.name.items; lines = n.lines } };
}

impl<A: Allocator + Copy> Numbered<A> {
    /// The lines that assign a variable, by a walk over the lines of some windows. No line outside of the
    /// windows assigns it, and none sets the recipe prefix in a way that is not read. [`AllocError`] if a
    /// growth was refused.
    pub fn new(
        alloc: A,
        doc: &Doc<A>,
        windows: &[Window],
        name: &[u8],
    ) -> Result<Numbered<A>, AllocError>
        requires faithful { IsFaithful doc.now }
        requires windows { AreWindows (concerns_name name.now) first_place doc.now windows.now }
        ensures { IfOk result (λ numbered. AreNamedIn doc.now numbered) }
    {
        let lines = candidates_within(alloc, doc, windows, name)?;
        let name = Vec::from_slice(alloc, name)?;
        Ok(Numbered { name, lines })
    }

    /// What the document has for the line of this number of a variable, if this is the variable. Takes
    /// no memory.
    pub fn sought(&self, name: &[u8], number: u32) -> Option<Sought>
        ensures { (lines : List LocatedLine) → IsFaithful lines → AreNamedIn lines self.now
            → IsKnownOf (Some (Variable (Some number) name.now)) lines result }
    {
        if !is_same_text(name, &self.name) {
            return None;
        }
        Some(self.lines.sought(number))
    }
}
