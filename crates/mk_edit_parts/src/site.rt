//! The lines that a site means, where whole lines are put in, taken out or exchanged; and the causes
//! of refusal that come before those of these lines, in their order.
ghost use Rattle.std.specs.Prelude.{◌≡◌, ◌≤◌, ◌+◌, length, true, List, ℕ, Some, None, IfOk, IfErr, Err};
ghost use Rattle.mk_class.specs.ClassedLines.{ClassedLine, classed_lines};
ghost use Rattle.mk_tree.specs.Documents.{IsFaithful};
ghost use Rattle.mk_tree.specs.LocatedLines.{located_text};
ghost use Rattle.mk_edit_language.specs.Addresses as addresses;
ghost use Rattle.mk_edit_language.specs.Edits.{AtPlace, ExchangeLines, OfRuleRun, OfRun};
ghost use Rattle.mk_edit_language.specs.ExchangeCauses.{straddles_at_site};
ghost use Rattle.mk_edit_language.specs.RuleCauses.{straddles_at};
ghost use Rattle.mk_edit_language.specs.EditViews.{place_of, site_of};
ghost use Rattle.mk_edit_language.specs.LineRuns as line_runs;
ghost use Rattle.mk_edit_language.specs.LineRuns.{block_lines, is_block, place_stretches, runs, site_number, site_stretches};
ghost use Rattle.mk_edit_language.specs.Refusals.{first_cause, spans};
ghost use Rattle.mk_edit_language.specs.Stretches.{Stretch};
ghost use Rattle.mk_edit_parts.specs.LineRunsFound.{AreRunMatches, block_seen};
ghost use Rattle.mk_edit_parts.specs.Seeking.{IsSought};
ghost use Rattle.mk_edit_parts.specs.SitesFound.{IsNotNew, IsNotOne, IsOfNew, IsOneAt, IsSited, causes_of_fields, no_lines};
ghost use Rattle.mk_edit_parts.specs.Windows.{AreWindows, concerns_site, first_place, says_first};

use crate::address::{Address, place_address, site_address};
use crate::argument::{bad_site_field, is_reserved_address};
use crate::find::pick;
use crate::line_run::{RunMatches, is_exchanged, is_in_run, run_matches};
use crate::place::{after_lines, place_of_new};
use crate::rule::{run_below, target_count};
use crate::seek::{Found, Sought, seek_within};
use crate::window::Window;
use mk_edit_language::{Place, Refusal, Site};
use mk_lines::source::MAX_TEXT;
use mk_tree::Doc;
use std::alloc::Allocator;

/// The lines that a site means: those that go, or no line where new lines go in. `block` is the new
/// lines; there is none if lines are taken out. No line outside of the windows decides what the site
/// means; they stand in the order of their lines, and the last one reaches the end of the document. The
/// call reads no line anew and takes no memory.
///
/// It decides, in this order, whether a field fails its test; whether a name is reserved; whether the
/// recipe prefix is set in a way that is not read; whether there are no such lines; whether they
/// stand already in new lines; whether there are several of them; whether a rule that goes has several
/// targets; whether it has no run, or the rule after which new lines go is split; and whether the new
/// lines stand there already. It asks for a faithful document.
pub fn find_site<A: Allocator>(
    doc: &Doc<A>,
    windows: &[Window],
    site: &Site<A>,
    block: Option<&[u8]>,
) -> Result<Window, Refusal>
    requires faithful { IsFaithful doc.now }
    requires windows { AreWindows (concerns_site (site_of site.now)) first_place doc.now
        windows.now }
    ensures found { IfOk result (λ window.
        IsSited (site_of site.now) (block_seen block.entry) doc.now window) }
    ensures refused { IfErr result (λ refusal.
        spans (located_text doc.now) (ExchangeLines (site_of site.now) (block_seen block.entry))
        ≡ Err refusal) }
{
    if let Some(field) = bad_site_field(site, block) {
        return Err(Refusal::BadArgument(field));
    }
    let address = site_address(site);
    if is_reserved_address(address) {
        return Err(Refusal::Reserved);
    }
    let sought = seek_within(doc, windows, address);
    if sought.has_unread_prefix {
        return Err(Refusal::RecipePrefix);
    }
    lines_meant(doc, windows, site, sought, block)
}

// The lines that a site means, once the causes of the fields and of the recipe prefix are decided.
fn lines_meant<A: Allocator>(
    doc: &Doc<A>,
    windows: &[Window],
    site: &Site<A>,
    sought: Sought,
    block: Option<&[u8]>,
) -> Result<Window, Refusal>
    requires faithful { IsFaithful doc.now }
    requires windows { AreWindows (concerns_site (site_of site.now)) first_place doc.now
        windows.now }
    requires sought { IsSought (classed_lines (located_text doc.now))
        (line_runs.site_address (site_of site.now)) sought }
    requires unrefused { first_cause
        (causes_of_fields (located_text doc.now) (site_of site.now) (block_seen block)) ≡ None }
    ensures found { IfOk result (λ window.
        IsSited (site_of site.now) (block_seen block.entry) doc.now window) }
    ensures refused { IfErr result (λ refusal.
        spans (located_text doc.now) (ExchangeLines (site_of site.now) (block_seen block.entry))
        ≡ Err refusal) }
{
    match site {
        Site::OfLines { nth, old } => run_exchanged(doc, windows, old, *nth, block),
        Site::OfRule { nth, target } => rule_exchanged(doc, target, *nth, sought, block),
        _ => match new_place(doc, windows, site, sought) {
            Ok(place) => unless_inserted(doc, site, place, block),
            Err(refusal) => Err(refusal),
        },
    }
}

// The run for a block that is meant, unless it is exchanged already, once the causes of the fields and
// of the recipe prefix are decided.
fn run_exchanged<A: Allocator>(
    doc: &Doc<A>,
    windows: &[Window],
    old: &[u8],
    nth: Option<u32>,
    block: Option<&[u8]>,
) -> Result<Window, Refusal>
    requires faithful { IsFaithful doc.now }
    requires windows { AreWindows (says_first (block_lines old.now)) first_place doc.now
        windows.now }
    requires unrefused { first_cause
        (causes_of_fields (located_text doc.now) (OfRun nth (block_lines old.now))
        (block_seen block)) ≡ None }
    ensures found { IfOk result (λ window.
        IsSited (OfRun nth (block_lines old.now)) (block_seen block.entry) doc.now window) }
    ensures refused { IfErr result (λ refusal.
        spans (located_text doc.now)
        (ExchangeLines (OfRun nth (block_lines old.now)) (block_seen block.entry))
        ≡ Err refusal) }
{
    let matches = run_matches(doc, windows, old, nth);
    if matches.found.is_none() {
        return Err(Refusal::NoSuch);
    }
    if is_exchanged(doc, old, nth, matches, block) {
        return Err(Refusal::Already);
    }
    match one_run(nth, matches) {
        Ok(run) => Ok(run),
        Err(refusal) => Err(refusal),
    }
}

// The run of the rule that is meant, unless it is exchanged already, from what was sought for the rule,
// once the causes of the fields and of the recipe prefix are decided.
fn rule_exchanged<A: Allocator>(
    doc: &Doc<A>,
    target: &[u8],
    nth: Option<u32>,
    sought: Sought,
    block: Option<&[u8]>,
) -> Result<Window, Refusal>
    requires faithful { IsFaithful doc.now }
    requires sought { IsSought (classed_lines (located_text doc.now))
        (Some (addresses.Rule nth target.now)) sought }
    requires unrefused { first_cause
        (causes_of_fields (located_text doc.now) (OfRuleRun nth target.now) (block_seen block))
        ≡ None }
    ensures found { IfOk result (λ window.
        IsSited (OfRuleRun nth target.now) (block_seen block.entry) doc.now window) }
    ensures refused { IfErr result (λ refusal.
        spans (located_text doc.now)
        (ExchangeLines (OfRuleRun nth target.now) (block_seen block.entry)) ≡ Err refusal) }
{
    prove!(doc.len() <= MAX_TEXT);
    let header = pick(Some(Address::Rule(nth, target)), sought)?;
    let targets = target_count(doc.line(header.at));
    if targets > 1 {
        return Err(Refusal::SharedRule(targets as u64));
    }
    let Some(below) = run_below(doc, header.at + 1) else {
        return Err(Refusal::Straddles);
    };
    let count = below + 1;
    if is_held(doc, header.at, count, block) {
        return Err(Refusal::Already);
    }
    Ok(Window {
        place: header,
        count,
    })
}

// Whether some lines, at least one, lie within a run for new lines; never, if there are none of these.
fn is_held<A: Allocator>(doc: &Doc<A>, at: usize, count: usize, block: Option<&[u8]>) -> bool
    requires faithful { IsFaithful doc.now }
    requires in_range { at + count ≤ length doc.now }
    requires some { 1 ≤ count }
    ensures { (stretch : Stretch) → length stretch.above ≡ at → length stretch.lines ≡ count
        → result
        ≡ line_runs.is_in_run (block_seen block.entry) (classed_lines (located_text doc.now))
        stretch }
{
    match block {
        Some(block) => is_in_run(doc, at, count, block),
        None => false,
    }
}

// Where new lines go, which go for no others, from what was sought for the address in their site.
fn new_place<A: Allocator>(
    doc: &Doc<A>,
    windows: &[Window],
    site: &Site<A>,
    sought: Sought,
) -> Result<Found, Refusal>
    requires faithful { IsFaithful doc.now }
    requires windows { AreWindows (concerns_site (site_of site.now)) first_place doc.now
        windows.now }
    requires new { IsOfNew (site_of site.now) }
    requires sought { IsSought (classed_lines (located_text doc.now))
        (line_runs.site_address (site_of site.now)) sought }
    ensures found { IfOk result (λ found. IsOneAt (classed_lines (located_text doc.now))
        (site_number (site_of site.now))
        (site_stretches (classed_lines (located_text doc.now)) (site_of site.now))
        (no_lines found)) }
    ensures whole { IfOk result (λ found.
        straddles_at_site (classed_lines (located_text doc.now)) (site_of site.now) ≡ None) }
    ensures refused { IfErr result (λ refusal.
        IsNotNew (classed_lines (located_text doc.now)) (site_of site.now) refusal) }
{
    match site {
        Site::AtPlace(place) => match place_meant(doc, place, sought) {
            Ok(found) => Ok(found),
            Err(refusal) => Err(refusal),
        },
        Site::BeforeLines { nth, old } => match one_run(
            *nth,
            run_matches(doc, windows, old, *nth),
        ) {
            Ok(run) => Ok(run.place),
            Err(refusal) => Err(refusal),
        },
        Site::AfterLines { nth, old } => match one_run(*nth, run_matches(doc, windows, old, *nth)) {
            Ok(run) => Ok(after_lines(doc, run.place, run.count)),
            Err(refusal) => Err(refusal),
        },
        Site::OfLines { .. } => unreachable!(),
        Site::OfRule { .. } => unreachable!(),
    }
}

// Where a new line of a place goes, from what was sought for its address.
fn place_meant<A: Allocator>(
    doc: &Doc<A>,
    place: &Place<A>,
    sought: Sought,
) -> Result<Found, Refusal>
    requires faithful { IsFaithful doc.now }
    requires sought { IsSought (classed_lines (located_text doc.now))
        (addresses.place_address (place_of place.now)) sought }
    ensures found { IfOk result (λ found. IsOneAt (classed_lines (located_text doc.now))
        (site_number (AtPlace (place_of place.now)))
        (place_stretches (classed_lines (located_text doc.now)) (place_of place.now))
        (no_lines found)) }
    ensures whole { IfOk result (λ found.
        straddles_at (classed_lines (located_text doc.now)) (place_of place.now) ≡ None) }
    ensures refused { IfErr result (λ refusal.
        IsNotNew (classed_lines (located_text doc.now)) (AtPlace (place_of place.now)) refusal) }
{
    match pick(place_address(place), sought) {
        Ok(found) => match place_of_new(doc, place, found) {
            Some(place) => Ok(place),
            None => Err(Refusal::Straddles),
        },
        Err(refusal) => Err(refusal),
    }
}

// The run for a block that is meant, of those that were found for it.
fn one_run(nth: Option<u32>, matches: RunMatches) -> Result<Window, Refusal>
    ensures found { (lines : List ClassedLine) (block : List (List ℕ))
        → AreRunMatches lines block nth matches
        → IfOk result (λ run. IsOneAt lines nth (runs block lines) run) }
    ensures refused { (lines : List ClassedLine) (block : List (List ℕ))
        → AreRunMatches lines block nth matches
        → IfErr result (λ refusal. IsNotOne nth (runs block lines) refusal) }
{
    let found = matches.found;
    let Some(run) = found else {
        return Err(Refusal::NoSuch);
    };
    if nth.is_some() || matches.count == 1 {
        Ok(run)
    } else {
        Err(Refusal::Ambiguous(matches.count as u64))
    }
}

// The place of new lines, unless it lies within a run for them or at an end of one, once the causes
// before are decided.
fn unless_inserted<A: Allocator>(
    doc: &Doc<A>,
    site: &Site<A>,
    place: Found,
    block: Option<&[u8]>,
) -> Result<Window, Refusal>
    requires faithful { IsFaithful doc.now }
    requires new { IsOfNew (site_of site.now) }
    requires unrefused { first_cause
        (causes_of_fields (located_text doc.now) (site_of site.now) (block_seen block)) ≡ None }
    requires one { IsOneAt (classed_lines (located_text doc.now)) (site_number (site_of site.now))
        (site_stretches (classed_lines (located_text doc.now)) (site_of site.now))
        (no_lines place) }
    requires whole { straddles_at_site (classed_lines (located_text doc.now)) (site_of site.now)
        ≡ None }
    ensures found { IfOk result (λ window.
        IsSited (site_of site.now) (block_seen block.entry) doc.now window) }
    ensures refused { IfErr result (λ refusal.
        spans (located_text doc.now) (ExchangeLines (site_of site.now) (block_seen block.entry))
        ≡ Err refusal) }
{
    if is_inserted(doc, place.at, block) {
        Err(Refusal::Already)
    } else {
        Ok(Window { place, count: 0 })
    }
}

// Whether the place of new lines, which is an index, lies within a run for them or at an end of one.
fn is_inserted<A: Allocator>(doc: &Doc<A>, at: usize, block: Option<&[u8]>) -> bool
    requires faithful { IsFaithful doc.now }
    requires in_range { at ≤ length doc.now }
    requires block { is_block (block_seen block) ≡ true }
    ensures { (stretch : Stretch) → length stretch.above ≡ at → length stretch.lines ≡ 0
        → result
        ≡ line_runs.is_in_run (block_seen block.entry) (classed_lines (located_text doc.now))
        stretch }
{
    match block {
        Some(block) => is_in_run(doc, at, 0, block),
        None => false,
    }
}
