//! Where the lines stand that edits take.
//!
//! What is known is asked as for an `unset` or an `unrule` that is not made, so the answer is that
//! of the definitions of edits, and the index needs nothing new for it.
ghost use Rattle.std.specs.Prelude.{◌≡◌, Some};
ghost use Rattle.mk_tree.specs.Documents.{IsFaithful};
ghost use Rattle.mk_edit_language.specs.Addresses.{Rule, Variable};
ghost use Rattle.mk_edit_language.specs.EditViews.{edit_of};
ghost use Rattle.mk_edit_parts.specs.Seeking.{IsKnownOf, IsLineKnown};
ghost use Rattle.mk_session.specs.Indices.{assignment_index, rule_index};

use super::Session;
use mk_edit::{Edit, Refusal};
use mk_edit_parts::seek::Sought;
use mk_index::IndexedDoc;
use std::alloc::Allocator;

impl<A: Allocator + Copy> Session<A> {
    /// The index, from 0, of the line of the assignment of this name that an edit takes: the nth, from 1,
    /// or the only one. [`Doc::get`](mk_tree::Doc::get) takes it, as long as no call changes the document.
    ///
    /// The call asks the index of the session, which is made as for an edit; where there is none, it walks
    /// over all lines. All that is shown stays, and no line is read. It takes memory for a while, and for
    /// the index; where a growth is refused, it walks.
    ///
    /// # Errors
    ///
    /// The refusal that an edit has for this name or its line, in this order:
    ///
    /// - [`Refusal::BadArgument`] if the name is none that a script may have.
    /// - [`Refusal::Reserved`] if it is `.RECIPEPREFIX`.
    /// - [`Refusal::RecipePrefix`] if the file sets `.RECIPEPREFIX` in a way that is not read.
    /// - [`Refusal::NoSuch`] if there is no such assignment, or no nth one.
    /// - [`Refusal::Ambiguous`] with their number if there are several and no number is given.
    pub fn find_assignment(&mut self, nth: Option<u32>, name: &[u8]) -> Result<usize, Refusal>
        ensures index { result ≡ assignment_index self.old.shown.text nth name.now }
        ensures same { self.new.shown ≡ self.old.shown }
        ensures none_read { self.new.rereads ≡ self.old.rereads }
    {
        let known = assignment_known(self.alloc, &mut self.doc, nth, name);
        crate::lookup::find_assignment(self.doc.doc(), nth, name, known)
    }

    /// The index, from 0, of the line of the rule for this target that an edit takes, as
    /// [`Session::find_assignment`] finds that of an assignment.
    ///
    /// # Errors
    ///
    /// Those of [`Session::find_assignment`], of the target: [`Refusal::BadArgument`] if it is no target,
    /// [`Refusal::Reserved`] if it is a word of directives, and then those of its line.
    pub fn find_rule(&mut self, nth: Option<u32>, target: &[u8]) -> Result<usize, Refusal>
        ensures index { result ≡ rule_index self.old.shown.text nth target.now }
        ensures same { self.new.shown ≡ self.old.shown }
        ensures none_read { self.new.rereads ≡ self.old.rereads }
    {
        let known = rule_known(self.alloc, &mut self.doc, nth, target);
        crate::lookup::find_rule(self.doc.doc(), nth, target, known)
    }
}

// What is known of an assignment. Nothing is, where a growth is refused.
fn assignment_known<A: Allocator + Copy>(
    alloc: A,
    doc: &mut IndexedDoc<A>,
    nth: Option<u32>,
    name: &[u8],
) -> Option<Sought>
    requires faithful { IsFaithful doc.old }
    ensures known { IsKnownOf (Some (Variable nth name.now)) doc.old result }
    ensures same { doc.new ≡ doc.old }
{
    match Vec::from_slice(alloc, name) {
        Ok(name) => line_known(alloc, doc, &Edit::RemoveAssign { nth, name }),
        Err(_) => None,
    }
}

// What is known of a rule. Nothing is, where a growth is refused.
fn rule_known<A: Allocator + Copy>(
    alloc: A,
    doc: &mut IndexedDoc<A>,
    nth: Option<u32>,
    target: &[u8],
) -> Option<Sought>
    requires faithful { IsFaithful doc.old }
    ensures known { IsKnownOf (Some (Rule nth target.now)) doc.old result }
    ensures same { doc.new ≡ doc.old }
{
    match Vec::from_slice(alloc, target) {
        Ok(target) => line_known(alloc, doc, &Edit::RemoveRule { nth, target }),
        Err(_) => None,
    }
}

// What is known of the line that an edit takes.
fn line_known<A: Allocator + Copy>(
    alloc: A,
    doc: &mut IndexedDoc<A>,
    edit: &Edit<A>,
) -> Option<Sought>
    requires faithful { IsFaithful doc.old }
    ensures known { IsLineKnown (edit_of edit.now) doc.old result }
    ensures same { doc.new ≡ doc.old }
{
    let known = doc.known(alloc, edit);
    known.line()
}
