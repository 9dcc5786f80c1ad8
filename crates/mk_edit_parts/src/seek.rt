//! The line of a document that an address means, found by one walk over the kept lines, or over
//! those of some windows.
ghost use Rattle.std.specs.Prelude.{◌≡◌, ◌+◌, ◌<◌, ◌≤◌, Some, drop, length};
ghost use Rattle.mk_lines.specs.Limits.{max_text};
ghost use Rattle.mk_class.specs.ClassedLines.{classed_lines};
ghost use Rattle.mk_class.specs.Contexts.{Admits};
ghost use Rattle.mk_tree.specs.Admissions.{AreAdmitted};
ghost use Rattle.mk_tree.specs.Documents.{IsFaithful};
ghost use Rattle.mk_tree.specs.LocatedLines.{located_text};
ghost use Rattle.mk_tree.specs.Origins.{lines_between};
ghost use Rattle.mk_tree.specs.Trees.{line_view};
ghost use Rattle.mk_edit_parts.specs.AddressViews.{address_seen};
ghost use Rattle.mk_edit_parts.specs.LocatedParts.{IsClassed};
ghost use Rattle.mk_edit_language.specs.Addresses.{LastVariable};
ghost use Rattle.mk_edit_parts.specs.Seeking.{IsNumbered, IsSought, may_mean, wanted};
ghost use Rattle.mk_edit_parts.specs.SeekWalks.{noted_by, nothing_seen, seek};
ghost use Rattle.mk_edit_parts.specs.Windows.{AreWindows, concerns, first_place};

use crate::address::{Address, nth_of};
use crate::comment::says_name;
use crate::line_test::{assigns, has_value, is_rule_for};
use crate::window::Window;
use mk_class::{Class, Context};
use mk_lines::source::MAX_TEXT;
use mk_tree::end::sets_prefix_unread;
use mk_tree::{Doc, Line};
use std::alloc::Allocator;

/// A place among the lines of a document, with the context there.
#[derive(Clone, Copy)]
pub struct Found {
    /// How many lines stand before it.
    pub at: usize,
    /// The context that these lines leave.
    pub context: Context,
}

/// What a walk over lines has seen.
#[derive(Clone, Copy)]
pub struct Sought {
    /// How many of the lines the address may mean.
    pub count: usize,
    /// Where the line of the address's number stands, or the first line if the address has no
    /// number.
    pub found: Option<Found>,
    /// Whether one of the lines sets the recipe prefix in a way that is not read.
    pub has_unread_prefix: bool,
    /// Where the lines end.
    pub end: Found,
}

/// What a document has for an address: how many lines it may mean, and where the line of its number
/// stands. The call reads no line anew and takes no memory.
pub fn seek<A: Allocator>(doc: &Doc<A>, address: Option<Address>) -> Sought
    requires { IsFaithful doc.now }
    ensures { IsSought (classed_lines (located_text doc.now)) (address_seen address.entry) result }
{
    seek_within(doc, &[Window::whole(doc)], address)
}

/// What a document has for an address, as [`seek`] finds it, by a walk over the lines of some
/// windows alone. No line outside the windows concerns the address: none is one that the address may
/// mean, and none sets the recipe prefix in a way that is not read. The windows stand in the order of
/// their lines, and the last one reaches the end of the document.
///
/// The call takes time linear in the number of these lines, and goes one way down the tree for each
/// window. It reads no line anew and takes no memory.
pub fn seek_within<A: Allocator>(
    doc: &Doc<A>,
    windows: &[Window],
    address: Option<Address>,
) -> Sought
    requires faithful { IsFaithful doc.now }
    requires windows { AreWindows (concerns (address_seen address)) first_place doc.now
        windows.now }
    ensures { IsSought (classed_lines (located_text doc.now)) (address_seen address.entry) result }
{
    match address {
        Some(Address::LastVariable(name)) => last_within(doc, windows, name),
        _ => walked(doc, windows, address),
    }
}

// What a document has for the last line that assigns a name: a walk counts these lines, and another one
// goes to the last. No line outside the windows assigns the name.
fn last_within<A: Allocator>(doc: &Doc<A>, windows: &[Window], name: &[u8]) -> Sought
    requires faithful { IsFaithful doc.now }
    requires windows { AreWindows (concerns (Some (LastVariable name.now))) first_place doc.now
        windows.now }
    ensures { IsSought (classed_lines (located_text doc.now)) (Some (LastVariable name.now)) result }
{
    let all = walked(doc, windows, Some(Address::Variable(None, name)));
    if all.count == 0 {
        return all;
    }
    let last = Some(all.count as u32);
    let sought = walked(doc, windows, Some(Address::Variable(last, name)));
    Sought { count: 1, ..sought }
}

// What a walk over the lines of some windows sees for an address that means a line by its number.
fn walked<A: Allocator>(doc: &Doc<A>, windows: &[Window], address: Option<Address>) -> Sought
    requires faithful { IsFaithful doc.now }
    requires windows { AreWindows (concerns (address_seen address)) first_place doc.now
        windows.now }
    requires numbered { IsNumbered (address_seen address) }
    ensures sought { IsSought (classed_lines (located_text doc.now)) (address_seen address.entry)
        result }
    ensures few { result.count ≤ max_text }
{
    prove!(doc.len() <= MAX_TEXT);
    // The contract of `iter` says that each line is admitted where it stands.
    let _lines = doc.iter();
    let wanted = wanted(address);
    let mut sought = nothing_seen();
    'windows: for window in windows {
        sought = noted_in(doc, *window, address, wanted, sought);
    }
    sought
}

// What a walk has seen after the lines of one more window. It passes over the lines between.
fn noted_in<A: Allocator>(
    doc: &Doc<A>,
    window: Window,
    address: Option<Address>,
    wanted: usize,
    sought: Sought,
) -> Sought
    requires faithful { IsFaithful doc.now }
    requires in_range { window.place.at + window.count ≤ length doc.now }
    requires admitted { AreAdmitted window.place.context (drop window.place.at doc.now) }
    requires no_more { sought.count ≤ window.place.at }
    ensures { result ≡ seek (may_mean (address_seen address.entry)) wanted
        (record sought { end = window.place })
        (lines_between window.place.at window.count doc.now) }
{
    prove!(doc.len() <= MAX_TEXT);
    let mut seen = Sought {
        end: window.place,
        ..sought
    };
    let mut lines = doc.lines_from(window.place.at);
    'lines: for at in 0..window.count {
        let Some(line) = lines.next() else {
            unreachable!()
        };
        let class = line.class();
        let is_meant = may_mean(address, line, &class);
        let is_unread = sets_prefix_unread(line, &class);
        seen = noted(is_meant, is_unread, wanted, &class, seen);
    }
    seen
}

// What a walk has seen at its start.
fn nothing_seen() -> Sought
    ensures { result ≡ nothing_seen }
{
    Sought {
        count: 0,
        found: None,
        has_unread_prefix: false,
        end: Found {
            at: 0,
            context: Context::start(),
        },
    }
}

// What a walk has seen after one more line. Inlined, so that nothing is copied from line to line.
#[inline(always)]
fn noted(is_meant: bool, is_unread: bool, wanted: usize, class: &Class, sought: Sought) -> Sought
    requires few { sought.end.at < max_text }
    requires no_more { sought.count ≤ sought.end.at }
    requires admitted { Admits sought.end.context class.now }
    ensures seen { result ≡ noted_by is_meant is_unread wanted class.now sought }
    ensures no_more { result.count ≤ result.end.at }
{
    let mut seen = sought;
    if is_meant {
        seen.count += 1;
        if seen.count == wanted {
            seen.found = Some(sought.end);
        }
    }
    if is_unread {
        seen.has_unread_prefix = true;
    }
    seen.end = Found {
        at: sought.end.at + 1,
        context: sought.end.context.step(class),
    };
    seen
}

/// Whether a line is one that an address may mean.
pub(crate) fn may_mean<A: Allocator>(
    address: Option<Address>,
    line: &Line<A>,
    class: &Class,
) -> bool
    requires classed { IsClassed (line_view line.now) }
    requires class { class.now ≡ (line_view line.now).class }
    ensures { result ≡ may_mean (address_seen address.entry) (line_view line.now) }
{
    match address {
        None => false,
        Some(Address::Variable(_, name) | Address::LastVariable(name)) => {
            assigns(line, class, name)
        }
        Some(Address::Valued(_, name, value)) => {
            assigns(line, class, name) && has_value(line, class, value)
        }
        Some(Address::Commented(_, name)) => says_name(line, name),
        Some(Address::Rule(_, target)) => is_rule_for(line, class, target),
    }
}

/// The number that is sought, from 1; 1 if the address has no number.
pub fn wanted(address: Option<Address>) -> usize
    ensures { result ≡ wanted (address_seen address.entry) }
{
    match address {
        Some(address) => match nth_of(address) {
            Some(nth) => nth as usize,
            None => 1,
        },
        None => 1,
    }
}
