//! The places of new lines, and the edits that put a line there.
ghost use Rattle.std.specs.Prelude.{◌≡◌, IfOk, None};
ghost use Rattle.mk_edit_language.specs.EditViews.{edit_of, place_of};
ghost use Rattle.mk_edit_language.specs.Edits as edits;
ghost use Rattle.mk_edit_language.specs.Numbered.{numbered_place};

use crate::edit::{Edit, Place, RuleSeparator};
use mk_class::Flavor;
use std::alloc::{AllocError, Allocator};

/// Makes places of new lines, and of a place the edit that puts a line there. The start of the file is
/// [`Place::Top`], and its end [`Place::Bottom`].
///
/// Each call that takes an allocator has the error [`AllocError`] if there is no memory for a text.
/// No text is looked at: a bad one is refused when the edit is made.
impl<A: Allocator + Copy> Place<A> {
    /// Before the line of the only assignment of a name.
    pub fn before_var(alloc: A, name: &[u8]) -> Result<Place<A>, AllocError>
        ensures { IfOk result (λ p. place_of p ≡ edits.BeforeVar None name.now) }
    {
        let name = Vec::from_slice(alloc, name)?;
        Ok(Place::BeforeVar { nth: None, name })
    }

    /// After the line of the only assignment of a name.
    pub fn after_var(alloc: A, name: &[u8]) -> Result<Place<A>, AllocError>
        ensures { IfOk result (λ p. place_of p ≡ edits.AfterVar None name.now) }
    {
        let name = Vec::from_slice(alloc, name)?;
        Ok(Place::AfterVar { nth: None, name })
    }

    /// After the last line that assigns a name.
    pub fn after_last_var(alloc: A, name: &[u8]) -> Result<Place<A>, AllocError>
        ensures { IfOk result (λ p. place_of p ≡ edits.AfterLastVar name.now) }
    {
        let name = Vec::from_slice(alloc, name)?;
        Ok(Place::AfterLastVar { name })
    }

    /// Before the line of the only rule for a target.
    pub fn before_rule(alloc: A, target: &[u8]) -> Result<Place<A>, AllocError>
        ensures { IfOk result (λ p. place_of p ≡ edits.BeforeRule None target.now) }
    {
        let target = Vec::from_slice(alloc, target)?;
        Ok(Place::BeforeRule { nth: None, target })
    }

    /// After the recipe of the only rule for a target.
    pub fn after_rule(alloc: A, target: &[u8]) -> Result<Place<A>, AllocError>
        ensures { IfOk result (λ p. place_of p ≡ edits.AfterRule None target.now) }
    {
        let target = Vec::from_slice(alloc, target)?;
        Ok(Place::AfterRule { nth: None, target })
    }

    /// The same place at another line of its name or target, by its number from 1. The start and the
    /// end of the file and the last line of a name have no number and stay.
    pub fn nth(mut self, number: u32) -> Place<A>
        ensures { place_of result ≡ numbered_place number (place_of self) }
    {
        number_place(&mut self, number);
        self
    }

    /// Puts in the line of an assignment here: `assign PLACE NAME OP VALUE`.
    pub fn assign(
        self,
        alloc: A,
        name: &[u8],
        flavor: Flavor,
        value: &[u8],
    ) -> Result<Edit<A>, AllocError>
        ensures { IfOk result (λ e. edit_of e
            ≡ edits.AddLine (place_of self) (edits.NewAssign name.now flavor value.now)) }
    {
        let name = Vec::from_slice(alloc, name)?;
        let value = Vec::from_slice(alloc, value)?;
        Ok(Edit::AddAssign {
            place: self,
            name,
            flavor,
            value,
        })
    }

    /// Puts in the line of a rule here: `rule PLACE TARGETS SEP PREREQS`.
    pub fn rule(
        self,
        alloc: A,
        targets: &[u8],
        separator: RuleSeparator,
        prereqs: &[u8],
    ) -> Result<Edit<A>, AllocError>
        ensures { IfOk result (λ e. edit_of e
            ≡ edits.AddLine (place_of self) (edits.NewRule targets.now separator prereqs.now)) }
    {
        let targets = Vec::from_slice(alloc, targets)?;
        let prereqs = Vec::from_slice(alloc, prereqs)?;
        Ok(Edit::AddRule {
            place: self,
            targets,
            separator,
            prereqs,
        })
    }
}

/// Gives a place the number of a line of its name or target, from 1. The start and the end of the file
/// and the last line of a name have no number and stay. Takes no memory.
pub fn number_place<A: Allocator>(place: &mut Place<A>, number: u32)
    ensures { place_of place.new ≡ numbered_place number (place_of place.old) }
{
    match place {
        Place::BeforeVar { nth, .. } => *nth = Some(number),
        Place::AfterVar { nth, .. } => *nth = Some(number),
        Place::BeforeRule { nth, .. } => *nth = Some(number),
        Place::AfterRule { nth, .. } => *nth = Some(number),
        Place::Top | Place::Bottom | Place::AfterLastVar { .. } => {}
    }
}
