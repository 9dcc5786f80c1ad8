//! A document with the index of its lines.
//!
//! A history changes a document together with what is known of it. If it changed the document
//! alone, an undo would leave the index behind.
ghost use Rattle.std.specs.Prelude.{◌≡◌, ◌+◌, IfOk, Some, length};
ghost use Rattle.mk_tree.specs.Documents.{IsFaithful};
ghost use Rattle.mk_edit_language.specs.Addresses.{Variable};
ghost use Rattle.mk_edit_language.specs.EditViews.{edit_of};
ghost use Rattle.mk_edit_parts.specs.Seeking.{IsKnownOf};
ghost use Rattle.mk_edit_parts.specs.Windows.{IsKnown};
ghost use Rattle.mk_patch.specs.Moves.{FitMoves, after_moves, held_by, taken_by};
ghost use Rattle.mk_index.specs.Effects.{AreNamedIn, IsKnownFor};

use crate::change::IndexedPatch;
use crate::effect::{Effect, effect_of};
use crate::finder::Finder;
use crate::keys::Expected;
use crate::numbered::Numbered;
use mk_edit_language::Edit;
use mk_edit_parts::address::{Address, address_of};
use mk_edit_parts::seek::Sought;
use mk_edit_parts::window::{Known, Window};
use mk_patch::Patch;
use mk_tree::Doc;
use std::alloc::{AllocError, Allocator, Global};
use std::marker::Model;

// The fewest lines of a variable that are noted: to go over fewer takes no longer than the rest of an edit.
const FEWEST_NOTED: usize = 256;

/// A document with the index of its lines. Contracts see the lines of the document alone: the index
/// is always one of them, if there is one.
#[derive(Drop)]
pub struct IndexedDoc<A: Allocator = Global> {
    doc: Doc<A>,
    finder: Finder<A>,
    // The lines of the variable that an edit last meant by a number, if they were worth noting.
    numbered: Option<Numbered<A>>,
    // Whether a walk counted the lines of a variable, and they are where they were.
    is_counted: bool,
}

impl<A: Allocator> Model for IndexedDoc<A> {
    ghost use Rattle.std.specs.Prelude.{List, IfSome};
    ghost use Rattle.mk_tree.specs.LocatedLines.{LocatedLine};
    ghost use Rattle.mk_index.specs.Effects.{AreNamedIn, IsKnownFor};

    ghost Value = { List LocatedLine };

    ghost view = { λ d. d.doc };

    ghost invariant = { λ d. IsKnownFor d.doc d.finder
        × IfSome d.numbered (AreNamedIn d.doc) };
}

impl<A: Allocator> IndexedDoc<A> {
    /// A document with its finder. Takes no memory.
    pub fn new(doc: Doc<A>, finder: Finder<A>) -> IndexedDoc<A>
        requires { IsKnownFor doc finder }
        ensures { result ≡ doc }
    {
        IndexedDoc {
            doc,
            finder,
            numbered: None,
            is_counted: false,
        }
    }

    /// The document. Takes no memory.
    pub fn doc(&self) -> &Doc<A>
        ensures { result.now ≡ self.now }
    {
        &self.doc
    }
}

impl<A: Allocator + Copy> IndexedDoc<A> {
    /// Lets the next edit that asks for an index make one, as [`Finder::expect_edits`] does. Walks over
    /// nothing and takes no memory.
    pub fn expect_edits(&mut self, expected: Expected)
        ensures { self.new ≡ self.old }
    {
        self.finder.expect_edits(expected);
    }

    /// What is known before an edit is planned, as [`Finder::known`] tells it. The index may be made or
    /// brought up to date first. That takes memory; a growth that is refused is no refusal of the edit.
    pub fn known(&mut self, alloc: A, edit: &Edit<A>) -> Known<A>
        requires { IsFaithful self.old }
        ensures known { IsKnown (edit_of edit.now) self.old result }
        ensures same { self.new ≡ self.old }
    {
        let Some(Address::Variable(Some(number), name)) = address_of(edit) else {
            return self.finder.known(alloc, &self.doc, edit);
        };
        if let Some(sought) = self.sought(name, number) {
            return Known::Line(sought);
        }
        let known = self.finder.known(alloc, &self.doc, edit);
        if !self.is_walk_long(&known) {
            return known;
        }
        // The first walk notes nothing: where each edit moves lines, what it noted would be of no use.
        let is_again = self.is_counted && self.numbered.is_none();
        self.numbered = None;
        self.is_counted = true;
        if is_again {
            self.numbered = self.lines_of(alloc, name).ok();
        }
        known
    }

    // What the document has for the line of this number of a variable, if its lines are noted.
    fn sought(&self, name: &[u8], number: u32) -> Option<Sought>
        requires { IsFaithful self.now }
        ensures { IsKnownOf (Some (Variable (Some number) name.now)) self.now result }
    {
        match &self.numbered {
            Some(numbered) => numbered.sought(name, number),
            None => None,
        }
    }

    // Whether a long walk found the line of an edit's number, or one has to find it.
    fn is_walk_long(&self, known: &Known<A>) -> bool {
        match known {
            Known::Line(sought) => sought.count >= FEWEST_NOTED,
            Known::Nothing => self.finder.is_indexed(),
            Known::Windows(_) => false,
        }
    }

    // The lines that assign a variable, by the index or by a walk over all lines.
    fn lines_of(&mut self, alloc: A, name: &[u8]) -> Result<Numbered<A>, AllocError>
        requires { IsFaithful self.old }
        ensures lines { IfOk result (λ numbered. AreNamedIn self.old numbered) }
        ensures same { self.new ≡ self.old }
    {
        let address = Address::Variable(None, name);
        match self.finder.for_address(alloc, &self.doc, address) {
            Some(windows) => Numbered::new(alloc, &self.doc, &windows, name),
            None => Numbered::new(alloc, &self.doc, &[Window::whole(&self.doc)], name),
        }
    }

    /// Makes a patch that leads from a faithful document to a faithful one, as the patch of a planned
    /// edit does, and gives the patch that takes it back. What is known of the document follows: another
    /// value of the same variable leaves all of it right, unless the index lists what lines say, and after
    /// one more line at the end it is still known where the document ends. Lines that are exchanged for others of the same kind have
    /// their new keys listed, which takes memory; a growth that is refused drops the index. Never refused.
    pub fn make_planned(&mut self, patch: Patch<A>) -> IndexedPatch<A>
        requires faithful { IsFaithful self.old }
        requires faithful_after { IsFaithful (after_moves patch self.old) }
        requires fit { FitMoves patch self.old }
        ensures after { self.new ≡ after_moves patch self.old }
        ensures fits_back { FitMoves result self.new }
        ensures leads_back { after_moves result self.new ≡ self.old }
        ensures held { held_by result ≡ taken_by patch }
        ensures takes { taken_by result ≡ held_by patch }
        ensures number { length self.new + taken_by patch ≡ length self.old + held_by patch }
    {
        match (effect_of(&self.doc, &patch), self.finder.end()) {
            (Effect::Same, _) if !self.finder.lists_lines() => IndexedPatch {
                patch: patch.make(&mut self.doc),
            },
            (Effect::Appends, Some(end)) => {
                let back = self.make(patch);
                self.finder.append(&self.doc, end);
                back
            }
            _ => {
                self.numbered = None;
                self.is_counted = false;
                self.finder.follow_planned(&self.doc, &patch);
                IndexedPatch {
                    patch: patch.make(&mut self.doc),
                }
            }
        }
    }

    /// Makes any patch, and gives the patch that takes it back. The index follows. Never refused.
    /// Takes no memory.
    pub fn make(&mut self, patch: Patch<A>) -> IndexedPatch<A>
        requires { FitMoves patch self.old }
        ensures after { self.new ≡ after_moves patch self.old }
        ensures fits_back { FitMoves result self.new }
        ensures leads_back { after_moves result self.new ≡ self.old }
        ensures held { held_by result ≡ taken_by patch }
        ensures takes { taken_by result ≡ held_by patch }
        ensures number { length self.new + taken_by patch ≡ length self.old + held_by patch }
    {
        self.numbered = None;
        self.is_counted = false;
        self.finder.follow(&patch);
        IndexedPatch {
            patch: patch.make(&mut self.doc),
        }
    }
}
