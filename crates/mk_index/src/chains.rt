//! The entries of an index, in chains: those of one bucket lead from the last to the first.
//!
//! A mention names a block and not a line: a line that is put in or taken out moves no mention,
//! since the blocks below keep their numbers. It has the hash of its word and not the word, which
//! would take memory of its own: two words of one hash cost a look at a block. Chains only grow,
//! since a line that is taken out takes no mention with it.
ghost use Rattle.std.specs.Prelude.{◌≡◌, ◌<◌, ◌==◌, ◌-◌, if◌then◌else◌, ℕ, [], ◌∷◌, List, length, get_or, slice_get, Some, None, true, false, IsTrue, IfOk, OnOk};
ghost use Rattle.mk_index.specs.Chains.{AreChainsOf, HaveListed, IsMentioned, Mention};
ghost use Rattle.mk_index.specs.Indexes.{AreMarked};
ghost use Rattle.mk_index.specs.declared.chains.Entry as entries;

use crate::bucket::bucket_of;
use crate::marks::Marks;
use std::alloc::{AllocError, Allocator, Global};
use std::marker::Model;
use std::mem::size_of;

/// The most entries that a walk looks at to mark blocks.
pub const MOST_STEPS: usize = 16_384;

// The most entries that a walk looks at to find one that is there already.
const FEW_STEPS: usize = 8;

// The most entries that chains have, so that the number of each fits its 32 bits.
const MOST_ENTRIES: usize = 4_000_000_000;

/// The entry of a mention: a word of some hash stands in some block.
#[derive(Clone, Copy)]
pub struct Entry {
    /// The hash of the word.
    pub hash: u32,
    /// The number of the block.
    pub block: u32,
    /// The number, from 1, of the last entry before this one in its bucket; 0 if there is none.
    pub before: u32,
}

// The walks of many edits read entries here and there: the smaller they are, the fewer of these reads
// wait for memory.
const _: () = prove!(size_of::<Entry>() == 12);

/// The entries of mentions, in the order in which they were listed. Each hash has a bucket; the
/// entries of a bucket are a chain.
#[derive(Drop)]
pub struct Chains<A: Allocator = Global> {
    // The number, from 1, of the last entry of each bucket; 0 if it has none.
    heads: Vec<u32, A>,
    entries: Vec<Entry, A>,
    // The greatest number of a block that has an entry, and one more.
    newest: u32,
    // How many entries there were before that block had one: none of them is of that block.
    since: usize,
}

impl<A: Allocator> Model for Chains<A> {
    ghost use Rattle.std.specs.Prelude.{◌<◌, length};
    ghost use Rattle.mk_index.specs.Chains.{Stored};

    ghost Value = { Stored };

    ghost view = { λ c. record { heads = c.heads.items; entries = c.entries.items } };

    ghost invariant = { λ c. (0 < length c.heads.items) × (length c.heads.items < 4294967296) };
}

impl<A: Allocator + Copy> Chains<A> {
    /// Chains without an entry, with this number of buckets. [`AllocError`] if a growth was
    /// refused.
    pub fn new(alloc: A, buckets: usize) -> Result<Chains<A>, AllocError>
        requires some { 0 < buckets }
        requires few { buckets < 4294967296 }
        ensures { IfOk result (λ chains. AreChainsOf [] chains) }
    {
        let heads = Vec::from_elem(alloc, 0, buckets)?;
        Ok(Chains {
            heads,
            entries: Vec::new(alloc),
            newest: 0,
            since: 0,
        })
    }

    /// Lists that a word of this hash stands in this block. It adds no entry where one of the last
    /// entries of the hash's bucket says so already. [`AllocError`] if a growth was refused, or if
    /// there are 4,000,000,000 entries.
    pub fn list(&mut self, hash: u32, block: u32) -> Result<(), AllocError>
        ensures { (ms : List Mention) → AreChainsOf ms self.old → OnOk result
            (HaveListed (hash ∷ []) block ms self.new) }
    {
        self.enter(block);
        if self.is_listed(hash, block) {
            return Ok(());
        }
        self.push(hash, block)
    }

    // Notes where the entries of a block begin, if no block above it had an entry yet.
    fn enter(&mut self, block: u32)
        ensures { self.new ≡ self.old }
    {
        if self.newest <= block {
            self.newest = block.saturating_add(1);
            self.since = self.entries.len();
        }
    }

    // Whether one of the last entries of the hash's bucket is that of this hash and of this block.
    fn is_listed(&self, hash: u32, block: u32) -> bool
        ensures { (ms : List Mention) → AreChainsOf ms self.now → IsTrue result
            → IsMentioned ms hash block }
    {
        let is_newest = block.saturating_add(1) == self.newest;
        let since = if is_newest { self.since } else { 0 };
        let mut number = self.heads[bucket_of(hash, self.heads.len())];
        'entries: for _ in 0..FEW_STEPS {
            if number as usize <= since {
                return false;
            }
            let Some(entry) = self.entry(number) else {
                return false;
            };
            if entry.hash == hash && entry.block == block {
                return true;
            }
            number = entry.before;
        }
        false
    }

    /// How many entries there are.
    pub fn entries(&self) -> usize
        ensures { result ≡ length self.now.entries }
    {
        self.entries.len()
    }

    // Adds an entry.
    fn push(&mut self, hash: u32, block: u32) -> Result<(), AllocError>
        ensures { (ms : List Mention) → AreChainsOf ms self.old → OnOk result
            (AreChainsOf (record { hash = hash; block = block } ∷ ms) self.new) }
    {
        if self.entries.len() >= MOST_ENTRIES {
            return Err(AllocError);
        }
        let bucket = bucket_of(hash, self.heads.len());
        let before = self.heads[bucket];
        self.entries.push(Entry {
            hash,
            block,
            before,
        })?;
        self.heads[bucket] = self.entries.len() as u32;
        Ok(())
    }

    // The entry of this number, from 1, if there is one.
    fn entry(&self, number: u32) -> Option<Entry>
        ensures { result
            ≡ (if number == 0 then None else slice_get self.now.entries (number - 1)) }
    {
        if number == 0 {
            return None;
        }
        self.entries.get(number as usize - 1).copied()
    }

    /// Marks each block in which a word of one of two hashes stands, where the block is among the
    /// marks, and takes back no mark. False if the chain of the bucket of one of them is too long: then
    /// some of these blocks may lack their mark. The call goes back over both chains side by side, and so
    /// waits for the memory of both at once. Takes no memory.
    pub fn mark(&self, first: u32, second: u32, marks: &mut Marks<A>) -> bool
        ensures length { length marks.new ≡ length marks.old }
        ensures kept { (b : ℕ) → get_or marks.old b false ≡ true → get_or marks.new b false ≡ true }
        ensures marked { IsTrue result → AreMarked self.now (first ∷ second ∷ []) marks.new }
    {
        let mut number = self.heads[bucket_of(first, self.heads.len())];
        let mut other = self.heads[bucket_of(second, self.heads.len())];
        'entries: for _ in 0..MOST_STEPS {
            if number == 0 && other == 0 {
                return true;
            }
            number = self.mark_entry(first, number, marks);
            other = self.mark_entry(second, other, marks);
        }
        number == 0 && other == 0
    }

    // Marks the block of the entry of this number, from 1, if it is of this hash. The number of the entry
    // before it in its bucket; 0 if there is none.
    #[inline(always)]
    fn mark_entry(&self, hash: u32, number: u32, marks: &mut Marks<A>) -> u32
        ensures length { length marks.new ≡ length marks.old }
        ensures kept { (b : ℕ) → get_or marks.old b false ≡ true → get_or marks.new b false ≡ true }
        ensures none { (if number == 0 then None else slice_get self.now.entries (number - 1)) ≡ None
            → result ≡ 0 }
        ensures some { (entry : entries.Entry)
            → (if number == 0 then None else slice_get self.now.entries (number - 1)) ≡ Some entry
            → (result ≡ entry.before) × (entry.hash ≡ hash → entry.block < length marks.old
            → get_or marks.new entry.block false ≡ true) }
    {
        let Some(entry) = self.entry(number) else {
            return 0;
        };
        if entry.hash == hash {
            marks.mark(entry.block as usize);
        }
        entry.before
    }
}
