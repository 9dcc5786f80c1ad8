//! The causes of refusal that the place of a new line decides.
ghost use Rattle.std.specs.Prelude.{◌≡◌, ◌+◌, ◌<◌, ◌≤◌, ◌==◌, ◌&&◌, nat_lt, not, ℕ, drop, length, take, min};
ghost use Rattle.mk_lines.specs.Limits.{max_text};
ghost use Rattle.mk_class.specs.ClassedLines.{classed_lines};
ghost use Rattle.mk_lines.specs.PhysicalLines.{line_end_bytes};
ghost use Rattle.mk_edit_parts.specs.LineRanges.{is_led_first_located};
ghost use Rattle.mk_edit_parts.specs.NewPlaces.{IsInsertedAt};
ghost use Rattle.mk_tree.specs.Documents.{IsFaithful, context_of};
ghost use Rattle.mk_tree.specs.Leaning.{is_same_flag};
ghost use Rattle.mk_tree.specs.LocatedLines.{last_line, located_text, size_of};
ghost use Rattle.mk_edit_language.specs.LineCauses.{flag_below_new};
ghost use Rattle.mk_edit_language.specs.Refusals.{first_cause};
ghost use Rattle.mk_edit_language.specs.NewLines.{new_text};
ghost use Rattle.mk_edit_language.specs.Stretches.{insertion};
ghost use Rattle.mk_edit_language.specs.EditViews.{edit_of};
ghost use Rattle.mk_edit.specs.Insertions.{IsOfNewLine, ends_length, is_at_bottom, is_open_line, place_causes};

use crate::moves::follows_unended;
use mk_class::RuleFlag;
use mk_edit_language::{Edit, Place, Refusal};
use mk_edit_parts::lean::leans;
use mk_edit_parts::line_end::doc_line_end;
use mk_edit_parts::new_line::new_len;
use mk_edit_parts::seek::Found;
use mk_lines::ends::{End, is_open};
use mk_lines::source::MAX_TEXT;
use mk_tree::Doc;
use std::alloc::Allocator;

/// The first cause of refusal that holds, of those that the place of an edit's new line decides:
/// the line would follow an open line, or would stand in an open define, or lines below would lean
/// on it, or the result is too long. The call walks over the lines below the place, reads no line
/// anew and takes no memory.
pub(crate) fn place_refusal<A: Allocator>(
    doc: &Doc<A>,
    edit: &Edit<A>,
    place: &Found,
) -> Option<Refusal>
    requires faithful { IsFaithful doc.now }
    requires of_new_line { IsOfNewLine (edit_of edit.now) }
    requires inserted { IsInsertedAt doc.now
        (insertion (classed_lines (located_text doc.now)) (edit_of edit.now)) place.now }
    ensures { result ≡ first_cause (place_causes (located_text doc.now) (edit_of edit.now)) }
{
    if follows_open_line(doc, place.at) {
        return Some(Refusal::OpenLine);
    }
    if is_in_define(edit, place) {
        return Some(Refusal::OpenDefine);
    }
    if is_leaned_on(doc, edit, place) {
        return Some(Refusal::Leans);
    }
    if is_too_long(doc, edit, place.at) {
        return Some(Refusal::TooLong);
    }
    None
}

/// Whether a new line at this place would follow a last line that is open.
pub(crate) fn follows_open_line<A: Allocator>(doc: &Doc<A>, at: usize) -> bool
    ensures { result ≡ ((at == length doc.now) && is_open_line (last_line doc.now)) }
{
    at == doc.len() && is_last_open(doc)
}

// Whether there is a last line, and it is open.
fn is_last_open<A: Allocator>(doc: &Doc<A>) -> bool
    ensures { result ≡ is_open_line (last_line doc.now) }
{
    let count = doc.len();
    count != 0 && is_open(doc.line(count - 1).bytes())
}

// Whether the new line of an edit would stand at the end of the document, in an open define.
fn is_in_define<A: Allocator>(edit: &Edit<A>, place: &Found) -> bool
    ensures { result ≡ (is_at_bottom (edit_of edit.now) && nat_lt 0 place.now.context.defines) }
{
    is_at_bottom(edit) && place.context.defines() > 0
}

// Whether an edit puts a line in at the end of the document.
fn is_at_bottom<A: Allocator>(edit: &Edit<A>) -> bool
    ensures { result ≡ is_at_bottom (edit_of edit.now) }
{
    match edit {
        Edit::AddAssign { place, .. } | Edit::AddRule { place, .. } => matches!(
            place,
            Place::Bottom
        ),
        _ => false,
    }
}

// Whether the lines from a place on lean on two flags: the flag with an edit's new line above them,
// and the flag without it.
fn is_leaned_on<A: Allocator>(doc: &Doc<A>, edit: &Edit<A>, place: &Found) -> bool
    requires { place.now.at ≤ length doc.now }
    ensures { result
        ≡ (not (is_same_flag (flag_below_new (edit_of edit.now)) place.now.context.flag)
        && is_led_first_located place.now.context.prefix (drop place.now.at doc.now)) }
{
    let context = place.context;
    let below = flag_below(edit);
    leans(doc, place.at, context.prefix(), below, context.flag())
}

// The flag below the new line of an edit.
fn flag_below<A: Allocator>(edit: &Edit<A>) -> RuleFlag
    ensures { result ≡ flag_below_new (edit_of edit.now) }
{
    match edit {
        Edit::AddAssign { .. } => RuleFlag::Off,
        _ => RuleFlag::Rule,
    }
}

// Whether the document has more bytes than a document may have, once the new line of an edit is put
// in at a place.
fn is_too_long<A: Allocator>(doc: &Doc<A>, edit: &Edit<A>, at: usize) -> bool
    requires { IsFaithful doc.now }
    ensures { (prefix : ℕ)
        → result
        ≡ nat_lt max_text (size_of doc.now
        + (length (new_text prefix (edit_of edit.now)) + ends_length doc.now at)) }
{
    let others = doc.size() + ends_len(doc, at);
    new_len(edit).saturating_add(others) > MAX_TEXT
}

// How many bytes the line ends have that come with a line put in at this place: its own, and the
// line end that a last line without one gets.
fn ends_len<A: Allocator>(doc: &Doc<A>, at: usize) -> usize
    requires { IsFaithful doc.now }
    ensures number { result ≡ ends_length doc.now at }
    ensures few { result ≤ 4 }
{
    let end = end_len(doc_line_end(doc));
    if follows_unended(doc, at) {
        end + end
    } else {
        end
    }
}

/// How many bytes a line end has.
pub(crate) fn end_len(end: End) -> usize
    ensures number { result ≡ length (line_end_bytes end) }
    ensures few { result ≤ 2 }
{
    match end {
        End::None => 0,
        End::Lf => 1,
        End::CrLf => 2,
    }
}
