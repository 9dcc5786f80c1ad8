//! Where an edit applies, and the causes of refusal that come before the edit's own, in their
//! order.
ghost use Rattle.std.specs.Prelude.{◌≡◌, ◌≤◌, not, if◌then◌else◌, length, IfOk, IfErr, Err, List};
ghost use Rattle.mk_class.specs.ClassedLines.{ClassedLine, classed_lines};
ghost use Rattle.mk_tree.specs.Documents.{IsFaithful};
ghost use Rattle.mk_tree.specs.LocatedLines.{located_text};
ghost use Rattle.mk_edit_language.specs.Addresses.{address};
ghost use Rattle.mk_edit_language.specs.AddressCauses.{assigns_none};
ghost use Rattle.mk_edit_language.specs.Refusals.{spans};
ghost use Rattle.mk_edit_language.specs.KeptLines.{IsOfOnePlace};
ghost use Rattle.mk_edit_language.specs.declared.refusal.Refusal.TheVariants.{Absent};
ghost use Rattle.mk_edit_language.specs.EditViews.{edit_of};
ghost use Rattle.mk_edit_parts.specs.AddressViews.{address_seen};
ghost use Rattle.mk_edit_parts.specs.Found.{IsAddressed, IsNotPicked, IsPicked, is_absent_at};
ghost use Rattle.mk_edit_parts.specs.Seeking.{IsKnownOf, IsLineKnown, IsSought, candidates_of};

use crate::address::{Address, address_of, nth_of};
use crate::argument::{bad_field, is_reserved};
use crate::seek::{Found, Sought, seek};
use mk_edit_language::{Edit, Refusal};
use mk_tree::Doc;
use std::alloc::Allocator;

/// Where an edit applies: at the line that it means, or at the end of the document if its new line
/// goes to the bottom. `known` is what is known of the edit's address, for instance by an index;
/// if nothing is known, the call walks over the lines. It reads no line anew and takes no memory.
///
/// It decides, in this order, whether a field fails its test; whether a name is reserved; whether
/// the recipe prefix is set in a way that is not read; whether there is no such line; and whether
/// there are several such lines. It asks for a faithful document, and for an edit of one place: a
/// rename does not mean one line, nor does a change of all values of a name. Where an exchange of
/// whole lines applies, [`find_site`](crate::site::find_site) tells.
pub fn find<A: Allocator>(
    doc: &Doc<A>,
    edit: &Edit<A>,
    known: Option<Sought>,
) -> Result<Found, Refusal>
    requires faithful { IsFaithful doc.now }
    requires known { IsLineKnown (edit_of edit.now) doc.now known }
    requires one_place { IsOfOnePlace (edit_of edit.now) }
    ensures found { IfOk result (λ found. IsAddressed (edit_of edit.now) doc.now found) }
    ensures refused { IfErr result (λ refusal.
        spans (located_text doc.now) (edit_of edit.now) ≡ Err refusal) }
{
    if let Some(field) = bad_field(edit) {
        return Err(Refusal::BadArgument(field));
    }
    if is_reserved(edit) {
        return Err(Refusal::Reserved);
    }
    let address = address_of(edit);
    let sought = sought_for(doc, address, known);
    if sought.has_unread_prefix {
        return Err(Refusal::RecipePrefix);
    }
    let count = sought.count;
    match pick(address, sought) {
        Ok(found) => Ok(found),
        Err(refusal) => Err(refusal_of(doc, address, count, refusal)),
    }
}

// The refusal of an edit whose address means no line: Absent, if the address has a value that is
// absent, and otherwise this one.
fn refusal_of<A: Allocator>(
    doc: &Doc<A>,
    address: Option<Address>,
    count: usize,
    refusal: Refusal,
) -> Refusal
    requires faithful { IsFaithful doc.now }
    requires count { count
        ≡ length (candidates_of (classed_lines (located_text doc.now)) (address_seen address)) }
    ensures { result
        ≡ (if is_absent_at (classed_lines (located_text doc.now)) (address_seen address.entry)
        then Absent else refusal) }
{
    if is_absent(doc, address, count) {
        Refusal::Absent
    } else {
        refusal
    }
}

// Whether the value of an address is absent: some line assigns the name, and none of the lines that
// are counted has the value.
fn is_absent<A: Allocator>(doc: &Doc<A>, address: Option<Address>, count: usize) -> bool
    requires faithful { IsFaithful doc.now }
    requires count { count
        ≡ length (candidates_of (classed_lines (located_text doc.now)) (address_seen address)) }
    ensures { result
        ≡ is_absent_at (classed_lines (located_text doc.now)) (address_seen address.entry) }
{
    match address {
        None => false,
        Some(Address::Variable(_, _)) => false,
        Some(Address::LastVariable(_)) => false,
        Some(Address::Valued(_, name, _)) => count == 0 && is_assigned(doc, name),
        Some(Address::Commented(_, _)) => false,
        Some(Address::Rule(_, _)) => false,
    }
}

// Whether some line assigns the variable of this name.
fn is_assigned<A: Allocator>(doc: &Doc<A>, name: &[u8]) -> bool
    requires { IsFaithful doc.now }
    ensures { result ≡ not (assigns_none name.now (classed_lines (located_text doc.now))) }
{
    seek(doc, Some(Address::Variable(None, name))).count > 0
}

// What a document has for an address: what is known of it, or what a walk finds.
fn sought_for<A: Allocator>(doc: &Doc<A>, address: Option<Address>, known: Option<Sought>) -> Sought
    requires faithful { IsFaithful doc.now }
    requires known { IsKnownOf (address_seen address) doc.now known }
    ensures { IsSought (classed_lines (located_text doc.now)) (address_seen address.entry) result }
{
    match known {
        Some(sought) => sought,
        None => seek(doc, address),
    }
}

/// The line that an address means, from what was sought for it; the end of the lines if there is no
/// address.
pub fn pick(address: Option<Address>, sought: Sought) -> Result<Found, Refusal>
    ensures found { (lines : List ClassedLine) → IsSought lines (address_seen address.entry) sought
        → IfOk result (λ found. IsPicked lines (address_seen address.entry) found) }
    ensures refused { (lines : List ClassedLine)
        → IsSought lines (address_seen address.entry) sought
        → IfErr result (λ refusal. IsNotPicked lines (address_seen address.entry) refusal) }
{
    let Some(address) = address else {
        return Ok(sought.end);
    };
    let nth = sought.found;
    let Some(found) = nth else {
        return Err(Refusal::NoSuch);
    };
    if nth_of(address).is_some() || sought.count == 1 {
        Ok(found)
    } else {
        Err(Refusal::Ambiguous(sought.count as u64))
    }
}
