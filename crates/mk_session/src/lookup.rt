//! Lookups, which change nothing: the value of the assignment that `set` takes, and where the lines stand that edits
//! take.
//!
//! - [`get`]: the value, or why there is no one value.
//! - [`index`]: the index of an assignment or of the line of a rule, or why there is no one line.
//! - [`laws`]: theorems on how a lookup stands to `set`.
ghost use Rattle.std.specs.Prelude.{◌≡◌, IfOk, IfErr, Ok, Err};
ghost use Rattle.mk_tree.specs.Documents.{IsFaithful};
ghost use Rattle.mk_tree.specs.LocatedLines.{located_text};
ghost use Rattle.mk_tree.specs.Trees.{line_view};
ghost use Rattle.mk_tree.specs.Views.{assignment_of};
ghost use Rattle.mk_session.specs.Lookups.{looked_up};
ghost use Rattle.mk_session.specs.ValuesSeen.{value_seen};

pub mod index;
pub mod laws;

pub use index::{find_assignment, find_rule};
use mk_class::is_name;
use mk_edit_language::{Field, Refusal};
use mk_edit_parts::address::Address;
use mk_edit_parts::find::pick;
use mk_edit_parts::seek::seek;
use mk_edit_parts::text::is_prefix_name;
use mk_tree::views::laws::views_are_the_parts;
use mk_tree::{Doc, Line};
use std::alloc::Allocator;

/// The value of the assignment of this name that `set` takes: the nth, from 1, or the only one.
/// Folds are spaces in it, and it has neither the blanks around it nor the comment. The line lends
/// it, and the call takes no memory. It takes time linear in the number of the document's lines, and
/// asks for a faithful document.
///
/// # Errors
///
/// The refusal that `set` has for its name or its line, in this order:
///
/// - [`Refusal::BadArgument`] if the name is none that a script may have.
/// - [`Refusal::Reserved`] if it is `.RECIPEPREFIX`.
/// - [`Refusal::RecipePrefix`] if the file sets `.RECIPEPREFIX` in a way that is not read.
/// - [`Refusal::NoSuch`] if there is no such assignment, or no nth one.
/// - [`Refusal::Ambiguous`] if there are several and no number is given.
pub fn get<'a, A: Allocator>(
    doc: &'a Doc<A>,
    nth: Option<u32>,
    name: &[u8],
) -> Result<&'a [u8], Refusal>
    requires { IsFaithful doc.now }
    ensures found { IfOk result (λ value.
        looked_up (located_text doc.now) nth name.now ≡ Ok value.now) }
    ensures refused { IfErr result (λ refusal.
        looked_up (located_text doc.now) nth name.now ≡ Err refusal) }
{
    if !is_name(name) {
        return Err(Refusal::BadArgument(Field::Name));
    }
    if is_prefix_name(name) {
        return Err(Refusal::Reserved);
    }
    let address = Address::Variable(nth, name);
    let sought = seek(doc, Some(address));
    if sought.has_unread_prefix {
        return Err(Refusal::RecipePrefix);
    }
    views_are_the_parts();
    match pick(Some(address), sought) {
        Ok(found) => Ok(value_of(doc.line(found.at))),
        Err(refusal) => Err(refusal),
    }
}

// The value of a line: of an assignment, what it sets.
fn value_of<A: Allocator>(line: &Line<A>) -> &[u8]
    ensures { result.now ≡ value_seen (assignment_of (line_view line.now)) }
{
    match line.assignment() {
        Some(assignment) => assignment.value(),
        None => &[],
    }
}
