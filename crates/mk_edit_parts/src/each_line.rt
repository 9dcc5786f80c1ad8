//! Edits of several lines that are checked by reading: what is done to each line, and which lines are
//! meant, by a walk down a document.
ghost use Rattle.std.specs.Prelude.{◌≡◌, ◌<◌, ◌≤◌, ◌+◌};
ghost use Rattle.mk_lines.specs.Limits.{max_text};
ghost use Rattle.mk_tree.specs.Trees.{line_view};
ghost use Rattle.mk_edit_language.specs.Addresses.{each_address};
ghost use Rattle.mk_edit_language.specs.EachLine.{each_change};
ghost use Rattle.mk_edit_language.specs.EditViews.{each_edit_of};
ghost use Rattle.mk_edit_parts.specs.AddressViews.{address_seen};
ghost use Rattle.mk_edit_parts.specs.EachLineWalks.{assigns_other_located, each_change_view, is_meant_located, is_missing_among, is_number, no_reach, reach_after};
ghost use Rattle.mk_edit_parts.specs.LocatedParts.{IsClassed};
ghost use Rattle.mk_edit_parts.specs.Seeking.{may_mean};

use crate::address::{Address, each_address_of, nth_of};
use crate::line_change::{LineRewrite, rewrite_of};
use crate::line_test::assigns;
use crate::recipe::is_recipe;
use crate::seek::may_mean;
use mk_class::Class;
use mk_edit_language::EachEdit;
use mk_tree::Line;
use mk_tree::part::is_part;
use std::alloc::Allocator;

/// What an edit of several lines does to each line that it means, with its texts where they stand in the
/// edit.
#[derive(Clone, Copy)]
pub enum EachChange<'a> {
    /// Changes the line of an assignment.
    InAssignment(LineRewrite<'a>),
    /// Puts a text in the place of each occurrence of another in a recipe line, after its first byte.
    InRecipe {
        /// The text to look for.
        from: &'a [u8],
        /// The text in its place.
        to: &'a [u8],
    },
}

/// What an edit does to each line that it means.
pub fn each_change<A: Allocator>(edit: &EachEdit<A>) -> EachChange<'_>
    ensures { each_change_view result ≡ each_change (each_edit_of edit.now) }
{
    match edit {
        EachEdit::ChangeEach { change, .. } => EachChange::InAssignment(rewrite_of(change)),
        EachEdit::SubstValues { from, to } => {
            EachChange::InAssignment(LineRewrite::Substitute { from, to })
        }
        EachEdit::SubstRecipe { from, to, .. } | EachEdit::SubstRecipes { from, to } => {
            EachChange::InRecipe { from, to }
        }
    }
}

/// What a walk down a document knows of the lines that it passed, for an edit of several lines.
#[derive(Clone, Copy)]
pub struct Reach {
    /// How many of them the edit's address may mean: assignments of a name, or rules for a target.
    pub count: usize,
    /// Whether a recipe line that came next would be one of a rule that the edit means.
    pub is_in_rule: bool,
}

impl Reach {
    /// What a walk knows before the first line.
    pub fn none() -> Reach
        ensures { result ≡ no_reach }
    {
        Reach {
            count: 0,
            is_in_rule: false,
        }
    }
}

/// Whether an edit means a line that a walk has come to.
pub fn is_meant<A: Allocator>(
    edit: &EachEdit<A>,
    line: &Line<A>,
    class: &Class,
    reach: Reach,
) -> bool
    requires classed { IsClassed (line_view line.now) }
    requires class { class.now ≡ (line_view line.now).class }
    ensures { result ≡ is_meant_located (each_edit_of edit.now) reach (line_view line.now) }
{
    match edit {
        EachEdit::ChangeEach { name, .. } => assigns(line, class, name),
        EachEdit::SubstValues { .. } => assigns_other(line, class),
        EachEdit::SubstRecipe { .. } => reach.is_in_rule && is_recipe(class),
        EachEdit::SubstRecipes { .. } => is_recipe(class),
    }
}

// Whether a line assigns a variable, and not `.RECIPEPREFIX`.
fn assigns_other<A: Allocator>(line: &Line<A>, class: &Class) -> bool
    requires classed { IsClassed (line_view line.now) }
    requires class { class.now ≡ (line_view line.now).class }
    ensures { result ≡ assigns_other_located (line_view line.now) }
{
    match class {
        Class::Assign(assignment, _) => !is_part(line, assignment.name, b".RECIPEPREFIX"),
        _ => false,
    }
}

/// What a walk knows after one more line.
pub fn reach_after<A: Allocator>(
    edit: &EachEdit<A>,
    line: &Line<A>,
    class: &Class,
    reach: Reach,
) -> Reach
    requires few { reach.count < max_text }
    requires classed { IsClassed (line_view line.now) }
    requires class { class.now ≡ (line_view line.now).class }
    ensures reach { result ≡ reach_after (each_edit_of edit.now) (line_view line.now) reach }
    ensures few { result.count ≤ reach.count + 1 }
{
    let address = each_address_of(edit);
    if may_mean(address, line, class) {
        let count = reach.count + 1;
        return Reach {
            count,
            is_in_rule: is_number(address, count),
        };
    }
    Reach {
        count: reach.count,
        is_in_rule: reach.is_in_rule && (is_recipe(class) || class.leaves_flag()),
    }
}

// Whether an address means the line of this number, from 1; each if it has no number.
fn is_number(address: Option<Address>, number: usize) -> bool
    ensures { result ≡ is_number (address_seen address.entry) number }
{
    match address {
        Some(address) => match nth_of(address) {
            Some(nth) => number == nth as usize,
            None => true,
        },
        None => true,
    }
}

/// Whether an edit means lines of a variable or a target of which there is none, or not the one of its
/// number: the cause `NoSuch`, by how many lines its address may mean.
pub fn is_missing<A: Allocator>(edit: &EachEdit<A>, count: usize) -> bool
    ensures { result ≡ is_missing_among (each_address (each_edit_of edit.now)) count }
{
    let Some(address) = each_address_of(edit) else {
        return false;
    };
    match nth_of(address) {
        Some(nth) => nth == 0 || count < nth as usize,
        None => count == 0,
    }
}
