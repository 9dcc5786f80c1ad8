//! The line that an edit means, as the edit says it.
ghost use Rattle.std.specs.Prelude.{◌≡◌};
ghost use Rattle.mk_edit_language.specs.Addresses.{address, each_address, nth_meant, place_address};
ghost use Rattle.mk_edit_language.specs.EditViews.{each_edit_of, edit_of, place_of, site_of};
ghost use Rattle.mk_edit_language.specs.LineRuns.{site_address};
ghost use Rattle.mk_edit_parts.specs.AddressViews.{address_seen, address_view};

use mk_edit_language::{EachEdit, Edit, Place, Site};
use std::alloc::Allocator;

/// What an edit says of the line that it means. The number counts from 1; without one the line is
/// the only one.
#[derive(Clone, Copy)]
pub enum Address<'a> {
    /// An assignment, by the variable's name.
    Variable(Option<u32>, &'a [u8]),
    /// The last assignment of a variable, by its name.
    LastVariable(&'a [u8]),
    /// An assignment, by the variable's name and its value.
    Valued(Option<u32>, &'a [u8], &'a [u8]),
    /// A comment that says an assignment, by the variable's name.
    Commented(Option<u32>, &'a [u8]),
    /// The line of a rule, by one of its targets.
    Rule(Option<u32>, &'a [u8]),
}

/// The number that an address gives, from 1, if it gives one.
pub fn nth_of(address: Address) -> Option<u32>
    ensures { result ≡ nth_meant (address_view address.entry) }
{
    match address {
        Address::Variable(nth, _)
        | Address::Valued(nth, _, _)
        | Address::Commented(nth, _)
        | Address::Rule(nth, _) => nth,
        Address::LastVariable(_) => None,
    }
}

/// The address of an edit, or of its place. A new line at the end has no address, and neither has a
/// rename, a change of all values of a name, an exchange of whole lines, or an edit of several lines.
pub fn address_of<A: Allocator>(edit: &Edit<A>) -> Option<Address<'_>>
    ensures { address_seen result ≡ address (edit_of edit.now) }
{
    match edit {
        Edit::SetValue { nth, name, .. }
        | Edit::AppendValue { nth, name, .. }
        | Edit::AddWord { nth, name, .. }
        | Edit::RemoveWord { nth, name, .. }
        | Edit::ChangeLine { nth, name, .. }
        | Edit::RemoveAssign { nth, name }
        | Edit::CommentOut { nth, name } => Some(Address::Variable(*nth, name)),
        Edit::SetValueIf { nth, name, old, .. } => Some(Address::Valued(*nth, name, old)),
        Edit::Uncomment { nth, name } => Some(Address::Commented(*nth, name)),
        Edit::AddAssign { place, .. } | Edit::AddRule { place, .. } => place_address(place),
        Edit::RemoveRule { nth, target }
        | Edit::AddPrereq { nth, target, .. }
        | Edit::RemovePrereq { nth, target, .. }
        | Edit::ReplacePrereq { nth, target, .. }
        | Edit::AddRecipe { nth, target, .. }
        | Edit::SetRecipe { nth, target, .. }
        | Edit::RemoveRecipe { nth, target, .. }
        | Edit::InsertRecipe { nth, target, .. }
        | Edit::SetRecipeByText { nth, target, .. }
        | Edit::RemoveRecipeByText { nth, target, .. } => Some(Address::Rule(*nth, target)),
        Edit::ChangeValues { .. }
        | Edit::RenameTarget { .. }
        | Edit::ExchangeLines { .. }
        | Edit::EachLine(_) => None,
    }
}

/// The address of the lines that an edit of several lines means: the assignments of a name, or the rules
/// for a target. An edit of all assignments or of all recipe lines has none.
pub fn each_address_of<A: Allocator>(edit: &EachEdit<A>) -> Option<Address<'_>>
    ensures { address_seen result ≡ each_address (each_edit_of edit.now) }
{
    match edit {
        EachEdit::ChangeEach { name, .. } => Some(Address::Variable(None, name)),
        EachEdit::SubstRecipe { nth, target, .. } => Some(Address::Rule(*nth, target)),
        EachEdit::SubstValues { .. } | EachEdit::SubstRecipes { .. } => None,
    }
}

/// The address in a site. Only a place of a new line and a rule may have one.
pub fn site_address<A: Allocator>(site: &Site<A>) -> Option<Address<'_>>
    ensures { address_seen result ≡ site_address (site_of site.now) }
{
    match site {
        Site::AtPlace(place) => place_address(place),
        Site::OfRule { nth, target } => Some(Address::Rule(*nth, target)),
        Site::BeforeLines { .. } | Site::AfterLines { .. } | Site::OfLines { .. } => None,
    }
}

/// The address of a place.
pub fn place_address<A: Allocator>(place: &Place<A>) -> Option<Address<'_>>
    ensures { address_seen result ≡ place_address (place_of place.now) }
{
    match place {
        Place::Top | Place::Bottom => None,
        Place::BeforeVar { nth, name } | Place::AfterVar { nth, name } => {
            Some(Address::Variable(*nth, name))
        }
        Place::AfterLastVar { name } => Some(Address::LastVariable(name)),
        Place::BeforeRule { nth, target } | Place::AfterRule { nth, target } => {
            Some(Address::Rule(*nth, target))
        }
    }
}
