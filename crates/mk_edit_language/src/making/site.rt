//! The sites of whole lines, and the edit that puts lines there.
ghost use Rattle.std.specs.Prelude.{◌≡◌, IfOk};
ghost use Rattle.mk_edit_language.specs.EditViews.{edit_of, site_of};
ghost use Rattle.mk_edit_language.specs.Edits as edits;
ghost use Rattle.mk_edit_language.specs.LineRuns.{block_lines};
ghost use Rattle.mk_edit_language.specs.Numbered.{numbered_site};

use crate::edit::{Edit, Site};
use crate::making::place::number_place;
use std::alloc::{AllocError, Allocator};

/// Makes of a site the edit that puts whole lines there. The edits that exchange lines or take them
/// out are [`Edit::line_replace`], [`Edit::line_remove`], [`Edit::rule_replace`] and
/// [`Edit::rule_remove`].
impl<A: Allocator + Copy> Site<A> {
    /// Puts in whole lines here: `insert PLACE BLOCK`.
    ///
    /// # Errors
    ///
    /// [`AllocError`] if there is no memory for the block.
    pub fn insert(self, alloc: A, block: &[u8]) -> Result<Edit<A>, AllocError>
        ensures { IfOk result (λ e. edit_of e ≡ edits.ExchangeLines (site_of self) (block_lines block.now)) }
    {
        let block = Vec::from_slice(alloc, block)?;
        Ok(Edit::ExchangeLines {
            site: self,
            block: Some(block),
        })
    }
}

/// Gives a site the number of its run, of its rule or of its place, from 1. A place without a number
/// stays. Takes no memory.
pub fn number_site<A: Allocator>(site: &mut Site<A>, number: u32)
    ensures { site_of site.new ≡ numbered_site number (site_of site.old) }
{
    match site {
        Site::AtPlace(place) => number_place(place, number),
        Site::BeforeLines { nth, .. } => *nth = Some(number),
        Site::AfterLines { nth, .. } => *nth = Some(number),
        Site::OfLines { nth, .. } => *nth = Some(number),
        Site::OfRule { nth, .. } => *nth = Some(number),
    }
}
