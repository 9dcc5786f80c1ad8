//! What an edit would do to a document, or why it is refused.
ghost use Rattle.std.specs.Prelude.{◌≡◌};
ghost use Rattle.mk_tree.specs.Documents.{IsFaithful};
ghost use Rattle.mk_edit_language.specs.Edits.{ChangeValue, EachLine, Every, ExchangeLines, RenameTarget};
ghost use Rattle.mk_edit_language.specs.EditViews.{each_edit_of, edit_of, site_of};
ghost use Rattle.mk_edit_parts.specs.LineRunsFound.{block_seen};
ghost use Rattle.mk_edit_parts.specs.Windows.{IsKnown};
ghost use Rattle.mk_edit.specs.Planned.{Plans};
ghost use Rattle.mk_edit.specs.ValueChangeLines.{change_view};

use crate::add_line::plan_add_line;
use crate::add_prereq::plan_add_prereq;
use crate::add_recipe::plan_add_recipe;
use crate::change_line::plan_change_line;
use crate::change_value::plan_change_value;
use crate::change_values::plan_change_values;
use crate::each_line::plan_each_line;
use crate::exchange_lines::plan_exchange_lines;
use crate::remove_assign::plan_remove_assign;
use crate::remove_prereq::plan_remove_prereq;
use crate::remove_recipe::plan_remove_recipe;
use crate::remove_rule::plan_remove_rule;
use crate::rename_target::plan_rename_target;
use crate::replace_prereq::plan_replace_prereq;
use crate::set_recipe::plan_set_recipe;
use crate::switch_line::{plan_comment_out, plan_uncomment};
use crate::value_change::{Change, change_of};
use mk_class::Meter;
use mk_edit_language::{EachEdit, Edit, Refusal, Site};
use mk_edit_parts::block_of;
use mk_edit_parts::line_change::rewrite_of;
use mk_edit_parts::window::{Known, Window};
use mk_patch::Patch;
use mk_tree::Doc;
use std::alloc::Allocator;

/// The patch that makes an edit of a document, or the first cause for which it is refused.
///
/// The document is not changed. The patch fits it, and leads to the document of the text with the
/// edit's spans replaced: no byte outside the spans changes, and the text reads as the edit's
/// stated change says. The call adds to the meter the number of lines that it reads anew: exactly
/// the edit's cost, or at most the cost if the edit is refused. The patch holds as many lines as
/// the edit costs, and takes out as many as the edit's size says; each number is one higher if a
/// last line gets a line end.
///
/// # Errors
///
/// The first [`Refusal`] whose cause holds, in their order. [`Refusal::NoMemory`] only if no other
/// cause holds and a growth was refused.
pub fn plan<A: Allocator + Copy>(
    alloc: A,
    doc: &Doc<A>,
    edit: &Edit<A>,
    meter: &mut Meter,
) -> Result<Patch<A>, Refusal>
    requires faithful { IsFaithful doc.now }
    ensures { Plans (edit_of edit.now) doc.now meter.old meter.new result }
{
    plan_with(alloc, doc, edit, &Known::Nothing, meter)
}

/// Plans an edit as [`plan`] does, with what is known of the document. If nothing is known, the call
/// walks over the document for the line that the edit means, or for the lines that concern a rename, a
/// change of all values of a name, an exchange of whole lines, or an edit of several lines. If windows are
/// known for one of these, it walks over their lines alone, and over the recipes below them.
///
/// # Errors
///
/// Those of [`plan`].
pub fn plan_with<A: Allocator + Copy>(
    alloc: A,
    doc: &Doc<A>,
    edit: &Edit<A>,
    known: &Known<A>,
    meter: &mut Meter,
) -> Result<Patch<A>, Refusal>
    requires faithful { IsFaithful doc.now }
    requires known { IsKnown (edit_of edit.now) doc.now known.now }
    ensures { Plans (edit_of edit.now) doc.now meter.old meter.new result }
{
    let sought = known.line();
    match edit {
        Edit::SetValue { value, .. } => {
            plan_change_value(alloc, doc, edit, sought, Change::Set(value), meter)
        }
        Edit::SetValueIf { old, value, .. } => {
            plan_change_value(alloc, doc, edit, sought, Change::SetIf(old, value), meter)
        }
        Edit::AppendValue { value, .. } => {
            plan_change_value(alloc, doc, edit, sought, Change::Append(value), meter)
        }
        Edit::AddWord { word, .. } => {
            plan_change_value(alloc, doc, edit, sought, Change::Add(word), meter)
        }
        Edit::RemoveWord { word, .. } => {
            plan_change_value(alloc, doc, edit, sought, Change::Remove(word), meter)
        }
        Edit::ChangeLine { change, .. } => {
            plan_change_line(alloc, doc, edit, sought, rewrite_of(change), meter)
        }
        Edit::AddAssign { place, .. } | Edit::AddRule { place, .. } => plan_add_line(
            alloc, doc, edit, place, sought, meter,
        ),
        Edit::RemoveAssign { .. } => plan_remove_assign(alloc, doc, edit, sought),
        Edit::RemoveRule { .. } => plan_remove_rule(alloc, doc, edit, sought),
        Edit::AddPrereq { order, word, .. } => {
            plan_add_prereq(alloc, doc, edit, sought, *order, word, meter)
        }
        Edit::RemovePrereq { word, .. } => plan_remove_prereq(
            alloc, doc, edit, sought, word, meter,
        ),
        Edit::ReplacePrereq { old, new, .. } => {
            plan_replace_prereq(alloc, doc, edit, sought, old, new, meter)
        }
        Edit::CommentOut { name, .. } => plan_comment_out(alloc, doc, edit, sought, name, meter),
        Edit::Uncomment { name, .. } => plan_uncomment(alloc, doc, edit, sought, name, meter),
        Edit::AddRecipe { .. } => plan_add_recipe(alloc, doc, edit, sought, None, meter),
        Edit::SetRecipe { line, .. } | Edit::SetRecipeByText { line, .. } => {
            plan_set_recipe(alloc, doc, edit, sought, line, meter)
        }
        Edit::RemoveRecipe { .. } | Edit::RemoveRecipeByText { .. } => plan_remove_recipe(
            alloc, doc, edit, sought,
        ),
        Edit::InsertRecipe { number, .. } => {
            plan_add_recipe(alloc, doc, edit, sought, Some(*number), meter)
        }
        Edit::ChangeValues { name, change } => {
            plan_values(alloc, doc, edit, known, name, change_of(change), meter)
        }
        Edit::RenameTarget { from, to } => plan_rename(alloc, doc, edit, known, from, to, meter),
        Edit::ExchangeLines { site, block } => {
            plan_lines(alloc, doc, known, site, block_of(block), meter)
        }
        Edit::EachLine(each) => plan_several(alloc, doc, edit, known, each, meter),
    }
}

// Plans a rename with what is known of the document: by a walk over the windows that are known, or
// over all lines.
fn plan_rename<A: Allocator + Copy>(
    alloc: A,
    doc: &Doc<A>,
    edit: &Edit<A>,
    known: &Known<A>,
    from: &[u8],
    to: &[u8],
    meter: &mut Meter,
) -> Result<Patch<A>, Refusal>
    requires faithful { IsFaithful doc.now }
    requires kind { edit_of edit.now ≡ RenameTarget from.now to.now }
    requires known { IsKnown (edit_of edit.now) doc.now known.now }
    ensures { Plans (edit_of edit.now) doc.now meter.old meter.new result }
{
    let whole = [Window::whole(doc)];
    let windows = match known {
        Known::Windows(windows) => windows,
        Known::Nothing | Known::Line(_) => &whole[..],
    };
    plan_rename_target(alloc, doc, edit, windows, from, to, meter)
}

// Plans a change of all values of a name with what is known of the document, as a rename is planned.
fn plan_values<A: Allocator + Copy>(
    alloc: A,
    doc: &Doc<A>,
    edit: &Edit<A>,
    known: &Known<A>,
    name: &[u8],
    change: Change<'_>,
    meter: &mut Meter,
) -> Result<Patch<A>, Refusal>
    requires faithful { IsFaithful doc.now }
    requires kind { edit_of edit.now ≡ ChangeValue Every name.now (change_view change) }
    requires known { IsKnown (edit_of edit.now) doc.now known.now }
    ensures { Plans (edit_of edit.now) doc.now meter.old meter.new result }
{
    match known {
        Known::Windows(known) => plan_change_values(alloc, doc, edit, known, name, change, meter),
        Known::Nothing | Known::Line(_) => {
            let all = [Window::whole(doc)];
            plan_change_values(alloc, doc, edit, &all, name, change, meter)
        }
    }
}

// Plans an exchange of whole lines with what is known of the document, as a rename is planned.
fn plan_lines<A: Allocator + Copy>(
    alloc: A,
    doc: &Doc<A>,
    known: &Known<A>,
    site: &Site<A>,
    block: Option<&[u8]>,
    meter: &mut Meter,
) -> Result<Patch<A>, Refusal>
    requires faithful { IsFaithful doc.now }
    requires known { IsKnown (ExchangeLines (site_of site.now) (block_seen block)) doc.now known.now }
    ensures { Plans (ExchangeLines (site_of site.now) (block_seen block.entry)) doc.now meter.old
        meter.new result }
{
    match known {
        Known::Windows(known) => plan_exchange_lines(alloc, doc, known, site, block, meter),
        Known::Nothing | Known::Line(_) => {
            let all = [Window::whole(doc)];
            plan_exchange_lines(alloc, doc, &all, site, block, meter)
        }
    }
}

// Plans an edit of several lines with what is known of the document, as a rename is planned.
fn plan_several<A: Allocator + Copy>(
    alloc: A,
    doc: &Doc<A>,
    edit: &Edit<A>,
    known: &Known<A>,
    each: &EachEdit<A>,
    meter: &mut Meter,
) -> Result<Patch<A>, Refusal>
    requires faithful { IsFaithful doc.now }
    requires kind { edit_of edit.now ≡ EachLine (each_edit_of each.now) }
    requires known { IsKnown (edit_of edit.now) doc.now known.now }
    ensures { Plans (edit_of edit.now) doc.now meter.old meter.new result }
{
    match known {
        Known::Windows(known) => plan_each_line(alloc, doc, edit, known, each, meter),
        Known::Nothing | Known::Line(_) => {
            let all = [Window::whole(doc)];
            plan_each_line(alloc, doc, edit, &all, each, meter)
        }
    }
}
