//! The keys of a line, listed with its block.
//!
//! A line that sets the recipe prefix in a way that is not read has the empty word as a key, since
//! it is a cause of refusal of every edit. An index lists the words that edits ask for: without
//! prerequisites, which only a rename asks for, it is made in half of the time. Where a line goes
//! in for another, words are compared place by place: to look each new word up among the old ones
//! would take square time.
ghost use Rattle.std.specs.Prelude.{◌≡◌, ◌∷◌, ◌++◌, [], List, map, true, IsTrue, IfOk, OnOk};
ghost use Rattle.mk_lines.specs.Words.{words_in};
ghost use Rattle.mk_tree.specs.LocatedLines.{text_of_line};
ghost use Rattle.mk_tree.specs.Trees.{line_view};
ghost use Rattle.mk_edit_parts.specs.AddressViews.{address_seen};
ghost use Rattle.mk_edit_parts.specs.LocatedParts.{IsClassed, is_unread_located};
ghost use Rattle.mk_edit_parts.specs.RenamedRanges.{word_parts};
ghost use Rattle.mk_index.specs.Chains.{AreChainsOf, HaveListed, Mention, hash_of};
ghost use Rattle.mk_index.specs.Exchanges.{AreAlike, HaveExchanged, HaveListedBut};
ghost use Rattle.mk_edit_language.specs.EditViews.{site_of};
ghost use Rattle.mk_edit_parts.specs.Windows.{first_text};
ghost use Rattle.mk_index.specs.Keys.{IsKeyOf, IsListed, IsSiteKey, IsSiteListed, hashes_of, keys_in, listed, text_key, unread_key, words_of_parts};

use crate::bucket::{hash_of, hash_of_text};
use crate::chains::Chains;
use mk_class::Class;
use mk_edit_language::Site;
use mk_edit_parts::address::{Address, place_address};
use mk_edit_parts::tally::has_parts;
use mk_edit_parts::text::is_same_text;
use mk_edit_parts::word_parts::parts_of;
use mk_edit_parts::{block_front, line_front};
use mk_lines::split_first_word;
use mk_tree::Line;
use mk_tree::end::sets_prefix_unread;
use mk_tree::part::{part, text_of_line};
use std::alloc::{AllocError, Allocator};

/// The hash of a line that sets the recipe prefix in a way that is not read: that of the empty word.
pub(crate) const UNREAD: u32 = 0;

/// Which words an index lists.
#[derive(Clone, Copy)]
pub struct Scope {
    /// The names that lines assign: by these an edit of a variable finds its line.
    pub names: bool,
    /// Targets: by these an edit of a rule finds its line.
    pub targets: bool,
    /// Prerequisites, which a rename asks for besides targets.
    pub prerequisites: bool,
    /// What the first physical line of each line says: by this an edit of whole lines finds them.
    pub lines: bool,
}

/// Which edits are expected.
#[derive(Clone, Copy)]
pub struct Expected {
    /// Renames.
    pub renames: bool,
    /// Edits of whole lines.
    pub lines: bool,
    /// Other edits.
    pub others: bool,
}

impl Scope {
    /// No words.
    pub(crate) fn none() -> Scope {
        Scope {
            names: false,
            targets: false,
            prerequisites: false,
            lines: false,
        }
    }

    /// The words that some edits ask for: renames for targets and prerequisites, those of whole lines for
    /// what lines say, and others for names and targets.
    pub(crate) fn of(edits: Expected) -> Scope {
        Scope {
            names: edits.others,
            targets: edits.renames || edits.others,
            prerequisites: edits.renames,
            lines: edits.lines,
        }
    }

    /// The words of this scope, and those of another one.
    pub(crate) fn with(self, other: Scope) -> Scope {
        Scope {
            names: self.names || other.names,
            targets: self.targets || other.targets,
            prerequisites: self.prerequisites || other.prerequisites,
            lines: self.lines || other.lines,
        }
    }

    /// Whether all words of another scope are words of this one.
    pub(crate) fn has(self, other: Scope) -> bool {
        (self.names || !other.names)
            && (self.targets || !other.targets)
            && (self.prerequisites || !other.prerequisites)
            && (self.lines || !other.lines)
    }

    /// Whether the words are listed by which an address finds its line.
    pub(crate) fn lists(self, address: Option<Address>) -> bool
        ensures { IsTrue result → IsListed self (address_seen address.entry) }
    {
        match address {
            Some(Address::Variable(..) | Address::LastVariable(_) | Address::Valued(..)) => {
                self.names
            }
            Some(Address::Commented(..)) => false,
            Some(Address::Rule(..)) => self.targets,
            None => true,
        }
    }

    /// Whether that is listed by which the lines of a site are found.
    pub(crate) fn lists_site<A: Allocator>(self, site: &Site<A>) -> bool
        ensures { IsTrue result → IsSiteListed self (site_of site.now) }
    {
        match site {
            Site::AtPlace(place) => self.lists(place_address(place)),
            Site::OfRule { .. } => self.targets,
            Site::BeforeLines { .. } | Site::AfterLines { .. } | Site::OfLines { .. } => self.lines,
        }
    }

    /// Whether the words are listed that a rename asks for.
    pub(crate) fn lists_renames(self) -> bool
        ensures targets { IsTrue result → self.targets ≡ true }
        ensures prerequisites { IsTrue result → self.prerequisites ≡ true }
    {
        self.targets && self.prerequisites
    }
}

/// The hash of the word that an address says; any hash, if there is no address.
pub(crate) fn key_of(address: Option<Address>) -> u32
    ensures { IsKeyOf (address_seen address.entry) result }
{
    match address {
        Some(
            Address::Variable(_, name) | Address::LastVariable(name) | Address::Valued(_, name, _),
        ) => hash_of(name),
        Some(Address::Rule(_, target)) => hash_of(target),
        Some(Address::Commented(..)) | None => UNREAD,
    }
}

/// The hash of that by which the lines of a site are found; any hash, if there is nothing.
pub(crate) fn site_key<A: Allocator>(site: &Site<A>) -> u32
    ensures { IsSiteKey (site_of site.now) result }
{
    match site {
        Site::AtPlace(place) => key_of(place_address(place)),
        Site::OfRule { target, .. } => hash_of(target),
        Site::BeforeLines { old, .. } | Site::AfterLines { old, .. } | Site::OfLines { old, .. } =>
            { hash_of_text(block_front(old)) }
    }
}

/// Lists the keys of a line with the block in which it stands: what its first physical line says, the
/// name that it assigns, its targets and its prerequisites, each if such words are to be listed; and the
/// empty word, if it sets the recipe prefix in a way that is not read. The caller has the class of the line at hand. [`AllocError`] if a
/// growth was refused, or if the chains are full.
pub fn list_keys<A: Allocator + Copy>(
    chains: &mut Chains<A>,
    scope: Scope,
    line: &Line<A>,
    class: &Class,
    block: u32,
) -> Result<(), AllocError>
    requires classed { IsClassed (line_view line.now) }
    requires class { class.now ≡ (line_view line.now).class }
    ensures { (ms : List Mention) → AreChainsOf ms chains.old → OnOk result
        (HaveListed (hashes_of scope (line_view line.now)) block ms chains.new) }
{
    list_text(chains, scope, line, block)?;
    list_words_of(chains, scope, line, class, block)
}

// Lists what the first physical line of a line says, if that is to be listed.
fn list_text<A: Allocator + Copy>(
    chains: &mut Chains<A>,
    scope: Scope,
    line: &Line<A>,
    block: u32,
) -> Result<(), AllocError>
    ensures { (ms : List Mention) → AreChainsOf ms chains.old → OnOk result (HaveListed
        (map hash_of (listed scope.lines (text_key (first_text (line_view line.now).bytes) ∷ [])))
        block ms chains.new) }
{
    if !scope.lines {
        return Ok(());
    }
    chains.list(hash_of_text(line_front(line.bytes())), block)
}

// Lists the words of a line with the block in which it stands.
fn list_words_of<A: Allocator + Copy>(
    chains: &mut Chains<A>,
    scope: Scope,
    line: &Line<A>,
    class: &Class,
    block: u32,
) -> Result<(), AllocError>
    requires classed { IsClassed (line_view line.now) }
    requires class { class.now ≡ (line_view line.now).class }
    ensures { (ms : List Mention) → AreChainsOf ms chains.old → OnOk result (HaveListed
        (map hash_of (unread_key (is_unread_located (line_view line.now))
        ++ keys_in scope (text_of_line (line_view line.now)) (line_view line.now).class))
        block ms chains.new) }
{
    list_unread(chains, line, class, block)?;
    match class {
        Class::Assign(assignment, _) => {
            if !scope.names {
                return Ok(());
            }
            let name = part(text_of_line(line), assignment.name);
            chains.list(hash_of(name), block)
        }
        _ => list_parts(chains, scope, line, class, block),
    }
}

// Lists the empty word, if a line sets the recipe prefix in a way that is not read.
fn list_unread<A: Allocator + Copy>(
    chains: &mut Chains<A>,
    line: &Line<A>,
    class: &Class,
    block: u32,
) -> Result<(), AllocError>
    requires classed { IsClassed (line_view line.now) }
    requires class { class.now ≡ (line_view line.now).class }
    ensures { (ms : List Mention) → AreChainsOf ms chains.old → OnOk result
        (HaveListed (map hash_of (unread_key (is_unread_located (line_view line.now)))) block ms
        chains.new) }
{
    if !sets_prefix_unread(line, class) {
        return Ok(());
    }
    chains.list(hash_of(b""), block)
}

// Lists the targets of a line and its prerequisites, each if such words are to be listed.
fn list_parts<A: Allocator + Copy>(
    chains: &mut Chains<A>,
    scope: Scope,
    line: &Line<A>,
    class: &Class,
    block: u32,
) -> Result<(), AllocError>
    requires classed { IsClassed (line_view line.now) }
    requires class { class.now ≡ (line_view line.now).class }
    ensures { (ms : List Mention) → AreChainsOf ms chains.old → OnOk result
        (HaveListed (map hash_of (words_of_parts scope (text_of_line (line_view line.now))
        (word_parts class.now))) block ms chains.new) }
{
    if !has_parts(class) {
        return Ok(());
    }
    let text = text_of_line(line);
    let parts = parts_of(line, class);
    list_asked(chains, scope.targets, part(text, parts.targets), block)?;
    list_asked(chains, scope.prerequisites, part(text, parts.normal), block)?;
    list_asked(
        chains,
        scope.prerequisites,
        part(text, parts.order_only),
        block,
    )
}

// Lists the words of a text, if they are to be listed.
fn list_asked<A: Allocator + Copy>(
    chains: &mut Chains<A>,
    is_asked: bool,
    text: &[u8],
    block: u32,
) -> Result<(), AllocError>
    ensures { (ms : List Mention) → AreChainsOf ms chains.old → OnOk result
        (HaveListed (map hash_of (listed is_asked (words_in text.now))) block ms chains.new) }
{
    if !is_asked {
        return Ok(());
    }
    list_words(chains, text, block)
}

// Lists the words of a text.
fn list_words<A: Allocator + Copy>(
    chains: &mut Chains<A>,
    text: &[u8],
    block: u32,
) -> Result<(), AllocError>
    ensures { (ms : List Mention) → AreChainsOf ms chains.old → OnOk result
        (HaveListed (map hash_of (words_in text.now)) block ms chains.new) }
{
    let mut rest = text;
    'words: while let Some((first, after)) = split_first_word(rest) {
        chains.list(hash_of(first), block)?;
        rest = after;
    }
    Ok(())
}

/// Lists the keys of a line that goes in for another one of this block, but for those that the other
/// line has at the same place among its words. Whether this is all that the exchange means for an
/// index: it is not where the lines may lead from one context to different ones, or where one of them
/// has a key besides the words of its parts. [`AllocError`] if a growth was refused, or if the chains are
/// full.
pub fn list_exchanged<A: Allocator + Copy>(
    chains: &mut Chains<A>,
    scope: Scope,
    old: &Line<A>,
    new: &Line<A>,
    block: u32,
) -> Result<bool, AllocError>
    requires old { IsClassed (line_view old.now) }
    requires new { IsClassed (line_view new.now) }
    ensures { (ms : List Mention) → AreChainsOf ms chains.old → IfOk result (λ kept.
        HaveExchanged scope (line_view old.now) (line_view new.now) block kept ms chains.new) }
{
    let was = old.class();
    let class = new.class();
    if !are_alike(&was, &class) {
        return Ok(false);
    }
    list_text(chains, scope, new, block)?;
    list_parts_but(chains, scope, old, &was, new, &class, block)?;
    Ok(true)
}

// Whether lines of two classes lead from each context to the same one, and have no keys besides the
// words of their parts.
fn are_alike(old: &Class, new: &Class) -> bool
    ensures { IsTrue result → AreAlike old.now new.now }
{
    match (old, new) {
        (Class::Header(_), Class::Header(_)) => true,
        (Class::TargetAssign(_), Class::TargetAssign(_)) => true,
        (Class::Recipe, Class::Recipe) => true,
        _ => false,
    }
}

// Lists the words of the parts of a line, as `list_parts` does, but for those that another line has at
// the same place.
fn list_parts_but<A: Allocator + Copy>(
    chains: &mut Chains<A>,
    scope: Scope,
    old: &Line<A>,
    was: &Class,
    line: &Line<A>,
    class: &Class,
    block: u32,
) -> Result<(), AllocError>
    requires old { IsClassed (line_view old.now) }
    requires was { was.now ≡ (line_view old.now).class }
    requires classed { IsClassed (line_view line.now) }
    requires class { class.now ≡ (line_view line.now).class }
    ensures { (ms : List Mention) → AreChainsOf ms chains.old → OnOk result (HaveListedBut
        (map hash_of (words_of_parts scope (text_of_line (line_view old.now)) (word_parts was.now)))
        (map hash_of (words_of_parts scope (text_of_line (line_view line.now)) (word_parts class.now)))
        block ms chains.new) }
{
    if !has_parts(class) {
        return Ok(());
    }
    let before = text_of_line(old);
    let after = text_of_line(line);
    let there = parts_of(old, was);
    let here = parts_of(line, class);
    list_asked_but(
        chains,
        scope.targets,
        part(before, there.targets),
        part(after, here.targets),
        block,
    )?;
    list_asked_but(
        chains,
        scope.prerequisites,
        part(before, there.normal),
        part(after, here.normal),
        block,
    )?;
    list_asked_but(
        chains,
        scope.prerequisites,
        part(before, there.order_only),
        part(after, here.order_only),
        block,
    )
}

// Lists the words of a text, if they are to be listed, but for those that another text has at the same
// place.
fn list_asked_but<A: Allocator + Copy>(
    chains: &mut Chains<A>,
    is_asked: bool,
    there: &[u8],
    text: &[u8],
    block: u32,
) -> Result<(), AllocError>
    ensures { (ms : List Mention) → AreChainsOf ms chains.old → OnOk result (HaveListedBut
        (map hash_of (listed is_asked (words_in there.now)))
        (map hash_of (listed is_asked (words_in text.now))) block ms chains.new) }
{
    if !is_asked {
        return Ok(());
    }
    list_words_but(chains, there, text, block)
}

// Lists the words of a text, but for those that another text has at the same place.
fn list_words_but<A: Allocator + Copy>(
    chains: &mut Chains<A>,
    listed: &[u8],
    text: &[u8],
    block: u32,
) -> Result<(), AllocError>
    ensures { (ms : List Mention) → AreChainsOf ms chains.old → OnOk result (HaveListedBut
        (map hash_of (words_in listed.now)) (map hash_of (words_in text.now)) block ms chains.new) }
{
    let mut there = listed;
    let mut ahead = text;
    'words: while let Some((first, after)) = split_first_word(ahead) {
        match split_first_word(there) {
            Some((same, behind)) => {
                if !is_same_text(first, same) {
                    chains.list(hash_of(first), block)?;
                }
                there = behind;
            }
            None => chains.list(hash_of(first), block)?,
        }
        ahead = after;
    }
    Ok(())
}
