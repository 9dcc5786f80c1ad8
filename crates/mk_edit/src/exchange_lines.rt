//! Whole lines put in, taken out or exchanged, planned.
//!
//! The new lines are read in the context of their place, and the edit is refused where they would
//! change what the lines around them read as.
ghost use Rattle.std.specs.Prelude.{◌≡◌, ◌+◌, ◌≤◌, ◌||◌, ◌&&◌, nat_lt, not, false, length};
ghost use Rattle.mk_lines.specs.Limits.{max_text};
ghost use Rattle.mk_lines.specs.LogicalLines.{has_no_line_end};
ghost use Rattle.mk_tree.specs.Documents.{IsFaithful};
ghost use Rattle.mk_tree.specs.LocatedLines.{size_of};
ghost use Rattle.mk_edit_language.specs.Edits.{ExchangeLines};
ghost use Rattle.mk_edit_language.specs.EditViews.{site_of};
ghost use Rattle.mk_edit_language.specs.ExchangeCauses.{agree_but_for_flag};
ghost use Rattle.mk_edit_language.specs.LineExchanges.{with_line_ends};
ghost use Rattle.mk_edit_parts.specs.LineRunsFound.{block_seen};
ghost use Rattle.mk_edit_parts.specs.SitesFound.{IsSited};
ghost use Rattle.mk_edit_parts.specs.Windows.{AreWindows, concerns_site, first_place};
ghost use Rattle.mk_edit.specs.ExchangePlans.{ending_length, is_bottom_site};
ghost use Rattle.mk_edit.specs.Planned.{Plans};

use crate::insertion::{end_len, follows_open_line};
use crate::lines_end::{LinesEnd, agree_but_for_flag, going_lines};
use crate::moves::{ending, follows_unended, take_lines};
use crate::new_lines::{LineEnds, ends_for, line_count, new_text, read_into, text_len};
use mk_class::{Context, Meter};
use mk_edit_language::{Place, Refusal, Site};
use mk_edit_parts::lean::leans;
use mk_edit_parts::line_end::doc_line_end;
use mk_edit_parts::seek::Found;
use mk_edit_parts::site::find_site;
use mk_edit_parts::window::Window;
use mk_lines::source::MAX_TEXT;
use mk_patch::Patch;
use mk_tree::Doc;
use std::alloc::Allocator;

/// Plans new lines at a site, or in the place of its lines. There is no block if lines are taken out.
/// No line outside of the windows decides what the site means.
///
/// # Errors
///
/// The first cause of the edit that holds: the causes of [`find_site`]; [`Refusal::OpenLine`];
/// [`Refusal::OpenDefine`]; [`Refusal::TooLong`]; [`Refusal::Misread`], if the new lines open one
/// conditional too many, say something of the recipe prefix, as the lines that go may not either, or
/// leave another context than these; and [`Refusal::Leans`]. [`Refusal::NoMemory`] if a growth was
/// refused and none of these holds but perhaps one of the last two.
pub(crate) fn plan_exchange_lines<A: Allocator + Copy>(
    alloc: A,
    doc: &Doc<A>,
    windows: &[Window],
    site: &Site<A>,
    block: Option<&[u8]>,
    meter: &mut Meter,
) -> Result<Patch<A>, Refusal>
    requires faithful { IsFaithful doc.now }
    requires windows { AreWindows (concerns_site (site_of site.now)) first_place doc.now
        windows.now }
    ensures { Plans (ExchangeLines (site_of site.now) (block_seen block.entry)) doc.now meter.old
        meter.new result }
{
    let window = find_site(doc, windows, site, block)?;
    exchange(alloc, doc, site, block, window, meter)
}

// The same, once it is known which lines the site means.
fn exchange<A: Allocator + Copy>(
    alloc: A,
    doc: &Doc<A>,
    site: &Site<A>,
    block: Option<&[u8]>,
    window: Window,
    meter: &mut Meter,
) -> Result<Patch<A>, Refusal>
    requires faithful { IsFaithful doc.now }
    requires sited { IsSited (site_of site.now) (block_seen block) doc.now window }
    ensures { Plans (ExchangeLines (site_of site.now) (block_seen block.entry)) doc.now meter.old
        meter.new result }
{
    // The contract of `size` bounds the number of lines, as reading asks.
    let _size = doc.size();
    let Window { place, count } = window;
    let Found { at, context } = place;
    if follows_open_line(doc, at) {
        return Err(Refusal::OpenLine);
    }
    if is_in_define(site, context) {
        return Err(Refusal::OpenDefine);
    }
    let old = going_lines(doc, Found { at, context }, count);
    let ends = ends_for(doc, at, count, block);
    if is_too_long(doc, at, old.bytes, block, ends) {
        return Err(Refusal::TooLong);
    }
    let Ok(text) = new_text(alloc, block, ends) else {
        return Err(Refusal::NoMemory);
    };
    let mut patch = ending(alloc, doc, at, count + line_count(&text))?;
    take_lines(&mut patch, at, count);
    let new = read_into(alloc, &mut patch, &text, Found { at, context }, meter)?;
    if is_misread(&old.end, &new) {
        return Err(Refusal::Misread);
    }
    let below = old.end.context;
    if leans(
        doc,
        at + count,
        below.prefix(),
        below.flag(),
        new.context.flag(),
    ) {
        return Err(Refusal::Leans);
    }
    Ok(patch.finish())
}

// Whether new lines at a site would stand at the end of the document, in an open define.
fn is_in_define<A: Allocator>(site: &Site<A>, context: Context) -> bool
    ensures { result ≡ (is_bottom_site (site_of site.now) && nat_lt 0 context.defines) }
{
    matches!(site, Site::AtPlace(Place::Bottom)) && context.defines() > 0
}

// Whether the document has more bytes than a document may have, once lines that have so many bytes go,
// and new ones come to their place.
fn is_too_long<A: Allocator>(
    doc: &Doc<A>,
    at: usize,
    gone: usize,
    block: Option<&[u8]>,
    ends: LineEnds,
) -> bool
    requires faithful { IsFaithful doc.now }
    requires few { gone ≤ size_of doc.now }
    requires ends { has_no_line_end ends.each ≡ false }
    ensures { result ≡ nat_lt (max_text + gone) (size_of doc.now + (ending_length doc.now at
        + length (with_line_ends ends.each ends.last (block_seen block.entry)))) }
{
    let others = doc.size() - gone + ending_len(doc, at);
    text_len(block, ends).saturating_add(others) > MAX_TEXT
}

// How many bytes the line end has that a last line gets, if it has none and new lines at a place would
// follow it.
fn ending_len<A: Allocator>(doc: &Doc<A>, at: usize) -> usize
    requires { IsFaithful doc.now }
    ensures number { result ≡ ending_length doc.now at }
    ensures few { result ≤ 2 }
{
    if follows_unended(doc, at) {
        end_len(doc_line_end(doc))
    } else {
        0
    }
}

// Whether new lines would be misread in the place of old ones, by what both leave below them: one of
// them says something of the recipe prefix, or the contexts below them differ but for the flag.
fn is_misread(old: &LinesEnd, new: &LinesEnd) -> bool
    ensures { result ≡ ((old.now.is_of_prefix || new.now.is_of_prefix)
        || not (agree_but_for_flag old.now.context new.now.context)) }
{
    old.is_of_prefix || new.is_of_prefix || !agree_but_for_flag(old.context, new.context)
}
