//! Another command for a recipe line, planned.
ghost use Rattle.std.specs.Prelude.{◌≡◌, ◌+◌};
ghost use Rattle.mk_tree.specs.Documents.{IsFaithful};
ghost use Rattle.mk_edit_language.specs.EditViews.{edit_of};
ghost use Rattle.mk_edit_parts.specs.Seeking.{IsLineKnown};
ghost use Rattle.mk_edit.specs.Planned.{Plans};
ghost use Rattle.mk_edit.specs.RecipeEdits.{IsSetRecipe, command_range};

use crate::meant_recipe::meant_recipe;
use crate::moves::replace_line;
use mk_class::Meter;
use mk_edit_language::{Edit, Refusal};
use mk_edit_parts::find::find;
use mk_edit_parts::place::after_lines;
use mk_edit_parts::range::with_replaced;
use mk_edit_parts::seek::Sought;
use mk_lines::ends::without_line_end;
use mk_lines::source::MAX_TEXT;
use mk_lines::split::Span;
use mk_patch::Patch;
use mk_tree::Doc;
use std::alloc::Allocator;

/// Plans another command for a rule's recipe line, by its number from 1 or by its text. The recipe
/// prefix and the line end stay.
///
/// # Errors
///
/// The first cause of the edit that holds: the causes of [`find`]; those of [`meant_recipe`]; and
/// [`Refusal::TooLong`]. If no cause holds, [`Refusal::NoMemory`] if a growth was refused.
pub(crate) fn plan_set_recipe<A: Allocator + Copy>(
    alloc: A,
    doc: &Doc<A>,
    edit: &Edit<A>,
    known: Option<Sought>,
    command: &[u8],
    meter: &mut Meter,
) -> Result<Patch<A>, Refusal>
    requires faithful { IsFaithful doc.now }
    requires kind { IsSetRecipe command.now (edit_of edit.now) }
    requires known { IsLineKnown (edit_of edit.now) doc.now known }
    ensures { Plans (edit_of edit.now) doc.now meter.old meter.new result }
{
    let size = doc.size();
    let header = find(doc, edit, known)?;
    let at = meant_recipe(doc, edit, header.at + 1)?;
    let line = doc.line(at);
    let range = command_range(line.bytes());
    if size + command.len() > MAX_TEXT + (range.end - range.start) {
        return Err(Refusal::TooLong);
    }
    let Ok(bytes) = with_replaced(alloc, line.bytes(), range, command) else {
        return Err(Refusal::NoMemory);
    };
    let place = after_lines(doc, header, at - header.at);
    replace_line(alloc, doc, place, bytes, meter)
}

// Where the command of a recipe line stands among its bytes: after the first byte, which is the
// recipe prefix, up to the line end.
fn command_range(line: &[u8]) -> Span
    ensures { result ≡ command_range line.now }
{
    Span {
        start: 1,
        end: without_line_end(line).len(),
    }
}
