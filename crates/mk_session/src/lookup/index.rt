//! Where the line of a name or a target stands.
ghost use Rattle.std.specs.Prelude.{◌≡◌, Some};
ghost use Rattle.mk_class.specs.ClassedLines.{classed_lines};
ghost use Rattle.mk_tree.specs.Documents.{IsFaithful};
ghost use Rattle.mk_tree.specs.LocatedLines.{located_text};
ghost use Rattle.mk_edit_language.specs.Addresses.{Rule, Variable};
ghost use Rattle.mk_edit_parts.specs.AddressViews.{address_view};
ghost use Rattle.mk_edit_parts.specs.Seeking.{IsKnownOf, IsSought};
ghost use Rattle.mk_session.specs.Indices.{assignment_index, rule_index};
ghost use Rattle.mk_session.specs.LineCauses.{line_index};

use mk_class::{is_name, is_reserved_word, is_target};
use mk_edit_language::{Field, Refusal};
use mk_edit_parts::address::Address;
use mk_edit_parts::find::pick;
use mk_edit_parts::seek::{Sought, seek};
use mk_edit_parts::text::is_prefix_name;
use mk_tree::Doc;
use std::alloc::Allocator;

/// The index, from 0, of the line of the assignment of this name that an edit takes: the nth, from 1, or
/// the only one. `known` is what is known of this name and number, for instance by an index; if nothing
/// is known, the call walks over all lines. It takes no memory, and asks for a faithful document.
///
/// # Errors
///
/// The refusal that an edit has for this name or its line, in this order:
///
/// - [`Refusal::BadArgument`] if the name is none that a script may have.
/// - [`Refusal::Reserved`] if it is `.RECIPEPREFIX`.
/// - [`Refusal::RecipePrefix`] if the file sets `.RECIPEPREFIX` in a way that is not read.
/// - [`Refusal::NoSuch`] if there is no such assignment, or no nth one.
/// - [`Refusal::Ambiguous`] with their number if there are several and no number is given.
pub fn find_assignment<A: Allocator>(
    doc: &Doc<A>,
    nth: Option<u32>,
    name: &[u8],
    known: Option<Sought>,
) -> Result<usize, Refusal>
    requires faithful { IsFaithful doc.now }
    requires known { IsKnownOf (Some (Variable nth name.now)) doc.now known }
    ensures { result ≡ assignment_index (located_text doc.now) nth name.now }
{
    if !is_name(name) {
        return Err(Refusal::BadArgument(Field::Name));
    }
    if is_prefix_name(name) {
        return Err(Refusal::Reserved);
    }
    line_index(doc, Address::Variable(nth, name), known)
}

/// The index, from 0, of the line of the rule for this target that an edit takes, as
/// [`find_assignment`] finds it of a name.
///
/// # Errors
///
/// Those of [`find_assignment`], of the target: [`Refusal::BadArgument`] if it is no target,
/// [`Refusal::Reserved`] if it is a word of directives, and then those of its line.
pub fn find_rule<A: Allocator>(
    doc: &Doc<A>,
    nth: Option<u32>,
    target: &[u8],
    known: Option<Sought>,
) -> Result<usize, Refusal>
    requires faithful { IsFaithful doc.now }
    requires known { IsKnownOf (Some (Rule nth target.now)) doc.now known }
    ensures { result ≡ rule_index (located_text doc.now) nth target.now }
{
    if !is_target(target) {
        return Err(Refusal::BadArgument(Field::Target));
    }
    if is_reserved_word(target) {
        return Err(Refusal::Reserved);
    }
    line_index(doc, Address::Rule(nth, target), known)
}

// The index of the line that an address means, by what is known of it or by a walk.
fn line_index<A: Allocator>(
    doc: &Doc<A>,
    address: Address,
    known: Option<Sought>,
) -> Result<usize, Refusal>
    requires faithful { IsFaithful doc.now }
    requires known { IsKnownOf (Some (address_view address)) doc.now known }
    ensures { result ≡ line_index (classed_lines (located_text doc.now)) (address_view address.entry) }
{
    let sought = sought_for(doc, address, known);
    if sought.has_unread_prefix {
        return Err(Refusal::RecipePrefix);
    }
    match pick(Some(address), sought) {
        Ok(found) => Ok(found.at),
        Err(refusal) => Err(refusal),
    }
}

// What the document has for an address: what is known of it, or what a walk finds.
fn sought_for<A: Allocator>(doc: &Doc<A>, address: Address, known: Option<Sought>) -> Sought
    requires faithful { IsFaithful doc.now }
    requires known { IsKnownOf (Some (address_view address)) doc.now known }
    ensures { IsSought (classed_lines (located_text doc.now)) (Some (address_view address.entry))
        result }
{
    match known {
        Some(sought) => sought,
        None => seek(doc, Some(address)),
    }
}
