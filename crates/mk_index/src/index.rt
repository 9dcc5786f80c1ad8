//! An index of a document: in which block of its lines each word stands.
//!
//! Keys are listed when something is asked, so a block that ten edits have changed is read once,
//! and what takes memory stands in one place, before an edit is planned. Contexts are mended only
//! as far as they differ: most lines leave the context below them as it was.
ghost use Rattle.std.specs.Prelude.{◌≡◌, [], ◌∷◌, ◌≤◌, ◌+◌, ◌-◌, ◌*◌, ◌/◌, ℕ, List, Option, Some, Bool, false, IsTrue, OnOk, IfOk, IfSome, length, take, drop};
ghost use Rattle.mk_lines.specs.Limits.{max_text};
ghost use Rattle.mk_class.specs.Contexts as contexts;
ghost use Rattle.mk_class.specs.Contexts.{start};
ghost use Rattle.mk_tree.specs.Documents.{IsFaithful};
ghost use Rattle.mk_tree.specs.LocatedLines.{LocatedLine, context_after_located_lines};
ghost use Rattle.mk_tree.specs.Origins.{lines_between};
ghost use Rattle.mk_edit_language.specs.EditViews.{site_of};
ghost use Rattle.mk_edit_parts.specs.AddressViews.{address_seen};
ghost use Rattle.mk_edit_parts.specs.Seeking.{IsKnownOf};
ghost use Rattle.mk_edit_parts.specs.Windows.{AreWindows, concerns, concerns_rename, concerns_site, first_place};
ghost use Rattle.mk_patch.specs.Moves.{FitMoves, after_moves};
ghost use Rattle.mk_index.specs.Blocks.{AreBlocks, AreLinesMentioned, HaveListedLines, IsCarried, IsExpected, PassesInMarked, blocks_of, lines_in};
ghost use Rattle.mk_index.specs.Walks.{HasWindows, IsRefreshed};
ghost use Rattle.mk_index.specs.Chains.{AreChainsOf, Mention};
ghost use Rattle.mk_index.specs.Exchanges.{IsKept};
ghost use Rattle.mk_index.specs.declared.keys.Scope as scopes;
ghost use Rattle.mk_index.specs.Indexes.{AreMarked, IsFreshIndexOf, IsIndexOf, PassesByKeys};

use crate::blocks::{Block, Blocks, Group};
use crate::bucket::hash_of;
use crate::chains::{Chains, MOST_STEPS};
use crate::follow::{follow_all, holder, is_rising};
use crate::keys::{Scope, UNREAD, key_of, list_exchanged, list_keys, site_key};
use crate::marks::Marks;
use mk_class::Context;
use mk_edit_language::Site;
use mk_edit_parts::address::Address;
use mk_edit_parts::seek::{Found, Sought, seek_within};
use mk_edit_parts::window::Window;
use mk_patch::{Patch, Step};
use mk_tree::Doc;
use std::alloc::{AllocError, Allocator, Global};
use std::marker::Model;

// The most steps of a patch that are followed. Each takes a look at the blocks above its line, so that
// very many would take longer than the making of another index.
const MOST_FOLLOWED: usize = 8_192;

/// What is known of a document's lines, so that the lines of a word are found without a walk over all
/// lines.
#[derive(Drop)]
pub struct Index<A: Allocator = Global> {
    // Which words are listed.
    scope: Scope,
    chains: Chains<A>,
    blocks: Blocks<A>,
    // The context after the last line.
    end: Context,
    // How many entries the chains had when all blocks were first made fresh; 0 before that.
    first_entries: usize,
    // Marks for all blocks, none of which is marked; `None` before the first windows.
    marks: Option<Marks<A>>,
}

impl<A: Allocator> Model for Index<A> {
    ghost use Rattle.mk_index.specs.Indexes.{Stored};

    ghost Value = { Stored };

    ghost view = { λ i. record { scope = i.scope; chains = i.chains; blocks = i.blocks; end = i.end } };
}

impl<A: Allocator + Copy> Index<A> {
    /// An index of a document that lists these words, in which each block is stale. [`AllocError`] if a growth was refused.
    pub fn new(alloc: A, doc: &Doc<A>, scope: Scope) -> Result<Index<A>, AllocError>
        ensures { IfOk result (λ index. IsIndexOf doc.now index × (index.scope ≡ scope)) }
    {
        let blocks = Blocks::new(alloc, doc.len())?;
        let chains = Chains::new(alloc, doc.len() / 4 + 1)?;
        Ok(Index {
            scope,
            chains,
            blocks,
            end: Context::start(),
            first_entries: 0,
            marks: None,
        })
    }

    /// Follows the steps of a patch: their lines belong to stale blocks then. Whether it could; if not,
    /// as where the patch has more than 8,192 steps, the index is of no use any more. To be asked before
    /// the patch is made. Takes no memory.
    pub fn follow(&mut self, patch: &Patch<A>) -> bool
        ensures { (lines : List LocatedLine) → IsIndexOf lines self.old → FitMoves patch.now lines
            → IsTrue result → IsIndexOf (after_moves patch.now lines) self.new }
    {
        patch.step_count() <= MOST_FOLLOWED && follow_all(&mut self.blocks, patch)
    }

    /// Keeps the index right over a patch that exchanges lines, from the top down, for lines of the same
    /// kind: lists the keys of the new lines with the blocks in which they stand. Whether it could; if
    /// not, the index is still one of the document as it is. To be asked before the patch is made.
    /// [`AllocError`] if a growth was refused: then the index is of no use any more.
    pub fn keep(&mut self, doc: &Doc<A>, patch: &Patch<A>) -> Result<bool, AllocError>
        requires faithful { IsFaithful doc.now }
        requires faithful_after { IsFaithful (after_moves patch.now doc.now) }
        requires fit { FitMoves patch.now doc.now }
        requires index { IsIndexOf doc.now self.old }
        ensures { IfOk result (λ kept.
            IsKept doc.now (after_moves patch.now doc.now) kept self.new) }
    {
        list_steps(&mut self.chains, &self.blocks, self.scope, doc, patch)
    }

    /// Makes each stale block fresh: lists the keys of its lines, and mends the contexts after it. Where
    /// no block is stale, as after a patch that was kept for, it looks at none.
    /// [`AllocError`] if a growth was refused: then the index is of no use any more.
    pub fn refresh(&mut self, doc: &Doc<A>) -> Result<(), AllocError>
        requires faithful { IsFaithful doc.now }
        requires index { IsIndexOf doc.now self.old }
        ensures { OnOk result (IsFreshIndexOf doc.now self.new) }
    {
        if self.blocks.are_fresh() {
            return Ok(());
        }
        self.refresh_groups(doc)?;
        // The contract of `len` bounds the number of lines.
        let _lines = doc.len();
        self.blocks.place_groups();
        self.blocks.note_all_fresh();
        Ok(())
    }

    // Makes each stale block fresh, in a walk over all groups.
    fn refresh_groups(&mut self, doc: &Doc<A>) -> Result<(), AllocError>
        requires faithful { IsFaithful doc.now }
        requires index { IsIndexOf doc.now self.old }
        ensures { OnOk result (IsFreshIndexOf doc.now self.new) }
    {
        let mut at = 0;
        let mut carried = None;
        // The contract of `len` bounds the number of lines.
        let _lines = doc.len();
        'groups: for group in 0..self.blocks.group_count() {
            let Group {
                lines,
                may_be_stale,
                ..
            } = self.blocks.group(group);
            if may_be_stale || carried.is_some() {
                carried = self.refresh_group(doc, group, at, carried)?;
            }
            at += lines;
        }
        if let Some(context) = carried {
            self.end = context;
        }
        if self.first_entries == 0 {
            self.first_entries = self.chains.entries();
        }
        Ok(())
    }

    // Makes each stale block of a group fresh. This many lines stand above the group, and this context
    // is carried to it. The context that is carried to the group below.
    fn refresh_group(
        &mut self,
        doc: &Doc<A>,
        group: usize,
        above: usize,
        carried: Option<Context>,
    ) -> Result<Option<Context>, AllocError>
        requires faithful { IsFaithful doc.now }
        requires in_range { group ≤ length self.old.blocks / 128 }
        requires walk { IsRefreshed doc.now self.old carried (group * 128) above }
        ensures { IfOk result (λ after. IsRefreshed doc.now self.new after (group * 128 + 128)
            (above + lines_in (blocks_of group self.old.blocks))
            × (length self.new.blocks ≡ length self.old.blocks)) }
    {
        let mut at = above;
        let mut carried = carried;
        // The contract of `len` bounds the number of lines.
        let _lines = doc.len();
        'numbers: for number in self.blocks.first_of(group)..self.blocks.end_of(group) {
            let block = met(self.blocks.block(number), carried);
            let count = block.count as usize;
            if block.is_stale {
                let place = Found {
                    at,
                    context: block.context,
                };
                let Ok(named) = u32::try_from(number) else {
                    return Err(AllocError);
                };
                let after = list_lines(&mut self.chains, self.scope, doc, place, &block, named)?;
                let fresh = Block {
                    front: block.count,
                    back: block.count,
                    is_stale: false,
                    ..block
                };
                self.blocks.renew(number, fresh);
                carried = Some(after);
            } else {
                carried = None;
            }
            at += count;
        }
        self.blocks.note_fresh(group);
        Ok(carried)
    }

    /// Whether an index that gives up is worth making anew. It is when it has listed as many entries
    /// since it was first fresh as a walk looks at: the index that is made anew lists each of these
    /// words once.
    pub fn is_worn(&self) -> bool {
        self.chains.entries().saturating_sub(self.first_entries) >= MOST_STEPS
    }

    /// Windows of the document, outside of which no line has a key of these two hashes, nor sets the
    /// recipe prefix in a way that is not read. `None` if too many lines may do so, or if a growth was
    /// refused.
    pub fn windows(
        &mut self,
        alloc: A,
        doc: &Doc<A>,
        first: u32,
        second: u32,
    ) -> Option<Vec<Window, A>>
        requires faithful { IsFaithful doc.now }
        requires index { IsFreshIndexOf doc.now self.old }
        ensures windows { (test : LocatedLine → Bool)
            → PassesByKeys self.old.scope test (0 ∷ first ∷ second ∷ [])
            → IfSome result (λ windows. AreWindows test first_place doc.now windows.items) }
        ensures same { self.new ≡ self.old }
    {
        let mut marks = self.take_marks(alloc).ok()?;
        if !mark_all(&self.chains, first, second, &mut marks) {
            return None;
        }
        let windows = self.marked_windows(alloc, doc, &marks).ok();
        marks.wipe();
        self.marks = Some(marks);
        windows
    }

    // Marks for all blocks: those of the last windows, or new ones.
    fn take_marks(&mut self, alloc: A) -> Result<Marks<A>, AllocError>
        ensures marks { IfOk result (λ marks. length marks ≡ length self.old.blocks) }
        ensures same { self.new ≡ self.old }
    {
        match self.marks.take() {
            Some(marks) if marks.len() == self.blocks.len() => Ok(marks),
            _ => Marks::new(alloc, self.blocks.len()),
        }
    }

    /// What the document has for an address, by the windows outside of which no line concerns it.
    /// `None` if these are unknown.
    pub fn sought(&mut self, alloc: A, doc: &Doc<A>, address: Option<Address>) -> Option<Sought>
        requires faithful { IsFaithful doc.now }
        requires index { IsFreshIndexOf doc.now self.old }
        ensures known { IsKnownOf (address_seen address.entry) doc.now result }
        ensures same { self.new ≡ self.old }
    {
        let windows = self.for_address(alloc, doc, address)?;
        Some(seek_within(doc, &windows, address))
    }

    /// Windows of the document, outside of which no line concerns an address. `None` if these are
    /// unknown.
    pub fn for_address(
        &mut self,
        alloc: A,
        doc: &Doc<A>,
        address: Option<Address>,
    ) -> Option<Vec<Window, A>>
        requires faithful { IsFaithful doc.now }
        requires index { IsFreshIndexOf doc.now self.old }
        ensures windows { IfSome result (λ windows.
            AreWindows (concerns (address_seen address.entry)) first_place doc.now windows.items) }
        ensures same { self.new ≡ self.old }
    {
        if !self.scope.lists(address) {
            return None;
        }
        self.windows(alloc, doc, UNREAD, key_of(address))
    }

    /// Windows of the document, outside of which no line decides what a site means. `None` if these are
    /// unknown.
    pub fn for_site(&mut self, alloc: A, doc: &Doc<A>, site: &Site<A>) -> Option<Vec<Window, A>>
        requires faithful { IsFaithful doc.now }
        requires index { IsFreshIndexOf doc.now self.old }
        ensures windows { IfSome result (λ windows.
            AreWindows (concerns_site (site_of site.now)) first_place doc.now windows.items) }
        ensures same { self.new ≡ self.old }
    {
        if !self.scope.lists_site(site) {
            return None;
        }
        self.windows(alloc, doc, UNREAD, site_key(site))
    }

    /// Whether it lists what lines say.
    pub(crate) fn lists_lines(&self) -> bool
        ensures { result ≡ self.now.scope.lines }
    {
        self.scope.lines
    }

    /// Windows of the document, outside of which no line concerns the rename of a word to another.
    /// `None` if these are unknown, as where the index lists no prerequisites.
    pub fn for_rename(
        &mut self,
        alloc: A,
        doc: &Doc<A>,
        old: &[u8],
        new: &[u8],
    ) -> Option<Vec<Window, A>>
        requires faithful { IsFaithful doc.now }
        requires index { IsFreshIndexOf doc.now self.old }
        ensures windows { IfSome result (λ windows.
            AreWindows (concerns_rename old.now new.now) first_place doc.now windows.items) }
        ensures same { self.new ≡ self.old }
    {
        if !self.scope.lists_renames() {
            return None;
        }
        self.windows(alloc, doc, hash_of(old), hash_of(new))
    }

    // The blocks that are marked, as windows of the document, and its end.
    fn marked_windows(
        &self,
        alloc: A,
        doc: &Doc<A>,
        marks: &Marks<A>,
    ) -> Result<Vec<Window, A>, AllocError>
        requires faithful { IsFaithful doc.now }
        requires index { IsFreshIndexOf doc.now self.now }
        requires marks { length marks.now ≡ length self.now.blocks }
        ensures { (test : LocatedLine → Bool) (mentions : List Mention)
            → AreBlocks self.now.scope mentions 0 (Some start) doc.now self.now.blocks self.now.end
            → PassesInMarked self.now.scope test mentions marks.now
            → IfOk result (λ windows. AreWindows test first_place doc.now windows.items) }
    {
        let mut windows = Vec::new(alloc);
        // The contract of `len` bounds the number of lines; this one bounds that of groups.
        let lines = doc.len();
        let _groups = self.blocks.group_count();
        let mut from = 0;
        'groups: while let Some(group) = marks.marked_group(from) {
            let above = self.blocks.above(group);
            add_windows(&self.blocks, group, above, marks, &mut windows)?;
            from = group + 1;
        }
        let place = Found {
            at: lines,
            context: self.end,
        };
        windows.push(Window { place, count: 0 })?;
        Ok(windows)
    }
}

// Adds a window for each block of a group that is marked. This many lines stand above the group.
fn add_windows<A: Allocator + Copy>(
    blocks: &Blocks<A>,
    group: usize,
    above: usize,
    marks: &Marks<A>,
    windows: &mut Vec<Window, A>,
) -> Result<(), AllocError>
    requires in_range { group ≤ length blocks.now / 128 }
    requires marks { length marks.now ≡ length blocks.now }
    requires few { above + lines_in (blocks_of group blocks.now) ≤ max_text }
    ensures { (scope : scopes.Scope) (test : LocatedLine → Bool) (lines : List LocatedLine)
        (mentions : List Mention) (end : contexts.Context)
        → PassesInMarked scope test mentions marks.now
        → HasWindows scope test lines mentions blocks.now end (group * 128) above windows.old.items
        → IfOk result (λ _. HasWindows scope test lines mentions blocks.now end (group * 128 + 128)
        (above + lines_in (blocks_of group blocks.now)) windows.new.items) }
{
    let mut at = above;
    'numbers: for number in blocks.first_of(group)..blocks.end_of(group) {
        let block = blocks.block(number);
        let count = block.count as usize;
        if marks.is_marked(number) {
            let place = Found {
                at,
                context: block.context,
            };
            windows.push(Window { place, count })?;
        }
        at += count;
    }
    Ok(())
}

// Marks each block in which a key of one of two hashes stands, and each with an unread recipe prefix.
// Whether it could: it gives up where too many do.
fn mark_all<A: Allocator + Copy>(
    chains: &Chains<A>,
    first: u32,
    second: u32,
    marks: &mut Marks<A>,
) -> bool
    ensures length { length marks.new ≡ length marks.old }
    ensures marked { IsTrue result → AreMarked chains.now (0 ∷ first ∷ second ∷ []) marks.new }
{
    if !chains.mark(UNREAD, UNREAD, marks) {
        return false;
    }
    chains.mark(first, second, marks)
}

// Lists the keys of the lines of a patch that exchanges lines, from the top down, for lines of the same
// kind. Whether it is such a patch, and each line has its block.
fn list_steps<A: Allocator + Copy>(
    chains: &mut Chains<A>,
    blocks: &Blocks<A>,
    scope: Scope,
    doc: &Doc<A>,
    patch: &Patch<A>,
) -> Result<bool, AllocError>
    requires faithful { IsFaithful doc.now }
    requires faithful_after { IsFaithful (after_moves patch.now doc.now) }
    requires fit { FitMoves patch.now doc.now }
    ensures { (ms : List Mention) (end : contexts.Context) → AreChainsOf ms chains.old
        → AreBlocks scope ms 0 (Some start) doc.now blocks.now end → IfOk result (λ kept.
        IsKept doc.now (after_moves patch.now doc.now) kept
        (record { scope = scope; chains = chains.new; blocks = blocks.now; end = end })) }
{
    if patch.step_count() > MOST_FOLLOWED || !is_rising(patch) {
        return Ok(false);
    }
    'steps: for number in 0..patch.step_count() {
        let Some(Step::Exchange(at, line)) = patch.step(number) else {
            return Ok(false);
        };
        let Some(block) = holder(blocks, *at) else {
            return Ok(false);
        };
        if !list_exchanged(chains, scope, doc.line(*at), line, block)? {
            return Ok(false);
        }
    }
    Ok(true)
}

// A block with the context that is carried to it, if one is. It is stale if this is another one.
fn met(block: Block, carried: Option<Context>) -> Block
    ensures count { result.count ≡ block.count }
    ensures front { result.front ≡ block.front }
    ensures back { result.back ≡ block.back }
    ensures fresh { result.is_stale ≡ false → result ≡ block }
    ensures context { (expected : Option contexts.Context) (context : contexts.Context)
        → IsCarried carried expected context → IsExpected expected block.context
        → result.context ≡ context }
{
    match carried {
        Some(context) => Block {
            context,
            is_stale: block.is_stale || !is_same(block.context, context),
            ..block
        },
        None => block,
    }
}

// Whether two contexts are the same.
fn is_same(left: Context, right: Context) -> bool
    ensures { IsTrue result → left ≡ right }
{
    left.flag() == right.flag()
        && left.prefix() == right.prefix()
        && left.conds() == right.conds()
        && left.defines() == right.defines()
}

// Lists the keys of a block's lines, but for the first and the last that are listed already. The first
// line stands at this place of the document, and the block has this number. The context after the lines.
fn list_lines<A: Allocator + Copy>(
    chains: &mut Chains<A>,
    scope: Scope,
    doc: &Doc<A>,
    place: Found,
    block: &Block,
    number: u32,
) -> Result<Context, AllocError>
    requires faithful { IsFaithful doc.now }
    requires context { place.context
        ≡ context_after_located_lines start (take place.at doc.now) }
    requires in_range { place.at + block.now.count ≤ length doc.now }
    ensures { (mentions : List Mention) → AreChainsOf mentions chains.old
        → AreLinesMentioned scope mentions number (take block.now.front (lines_between place.at block.now.count doc.now))
        → AreLinesMentioned scope mentions number
        (drop (block.now.count - block.now.back) (lines_between place.at block.now.count doc.now))
        → IfOk result (λ after. HaveListedLines scope (lines_between place.at block.now.count doc.now) number mentions
        chains.new × (after
        ≡ context_after_located_lines place.context (lines_between place.at block.now.count doc.now))) }
{
    // The contract of `iter` says that each line may stand where it stands.
    let _lines = doc.iter();
    let mut lines = doc.lines_from(place.at);
    let mut context = place.context;
    let listed_from = block.count.saturating_sub(block.back);
    'lines: for passed in 0..block.count {
        let Some(line) = lines.next() else {
            return Ok(context);
        };
        let class = line.class();
        if block.front <= passed && passed < listed_from {
            list_keys(chains, scope, line, &class, number)?;
        }
        context = context.step(&class);
    }
    Ok(context)
}
