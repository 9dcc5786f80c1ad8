//! Which blocks of an index are marked.
//!
//! Marks are kept from edit to edit, and only groups that have one are wiped: to make new marks for
//! each edit would cost as much as to use them.
ghost use Rattle.std.specs.Prelude.{◌≡◌, ◌<◌, ◌≤◌, ◌+◌, ◌*◌, ◌/◌, ℕ, true, false, IfOk, MatchOption, length, get_or, replicate};
ghost use Rattle.mk_index.specs.Blocks.{IsNextMarked, NoneMarked};

use crate::blocks::GROUP;
use memchr::memchr;
use std::alloc::{AllocError, Allocator, Global};
use std::marker::Model;

/// Which blocks are marked. Contracts see a mark, or none, for each block.
#[derive(Drop)]
pub struct Marks<A: Allocator = Global> {
    blocks: Vec<bool, A>,
    // For each group 1 if one of its blocks may be marked, and otherwise 0.
    groups: Vec<u8, A>,
}

impl<A: Allocator> Model for Marks<A> {
    ghost use Rattle.std.specs.Prelude.{Bool, List};
    ghost use Rattle.mk_index.specs.Blocks.{AreGroupMarks};

    ghost Value = { List Bool };

    ghost view = { λ m. m.blocks.items };

    ghost invariant = { λ m. AreGroupMarks m.blocks.items m.groups.items };
}

impl<A: Allocator + Copy> Marks<A> {
    /// No mark for each of this many blocks. [`AllocError`] if a growth was refused.
    pub fn new(alloc: A, count: usize) -> Result<Marks<A>, AllocError>
        ensures { IfOk result (λ marks. marks ≡ replicate count false) }
    {
        let blocks = Vec::from_elem(alloc, false, count)?;
        let groups = Vec::from_elem(alloc, 0, count / GROUP + 1)?;
        Ok(Marks { blocks, groups })
    }

    /// How many blocks there are, marked or not.
    pub fn len(&self) -> usize
        ensures { result ≡ length self.now }
    {
        self.blocks.len()
    }

    /// Takes back all marks, in time by the number of groups that have one. Takes no memory.
    pub fn wipe(&mut self)
        ensures length { length self.new ≡ length self.old }
        ensures none { (b : ℕ) → get_or self.new b false ≡ false }
    {
        let mut from = 0;
        'groups: while let Some(number) = self.marked_group(from) {
            self.wipe_group(number);
            self.groups[number] = 0;
            from = number + 1;
        }
    }

    // Takes back the marks of the blocks of a group.
    fn wipe_group(&mut self, number: usize)
        requires { number ≤ length self.old / 128 }
        ensures length { length self.new ≡ length self.old }
        ensures kept { (b : ℕ) → get_or self.old b false ≡ false → get_or self.new b false ≡ false }
        ensures none { (b : ℕ) → number * 128 ≤ b → b < number * 128 + 128
            → get_or self.new b false ≡ false }
    {
        let count = self.blocks.len();
        let first = number * GROUP;
        'blocks: for block in first..count.min(first + GROUP) {
            self.blocks[block] = false;
        }
    }

    /// Marks the block of a number, from 0, if there is one. Takes no memory.
    pub fn mark(&mut self, block: usize)
        ensures length { length self.new ≡ length self.old }
        ensures kept { (b : ℕ) → get_or self.old b false ≡ true → get_or self.new b false ≡ true }
        ensures marked { block < length self.old → get_or self.new block false ≡ true }
    {
        if block < self.blocks.len() {
            self.blocks[block] = true;
            self.groups[block / GROUP] = 1;
        }
    }

    /// Whether the block of a number, from 0, is marked.
    pub fn is_marked(&self, number: usize) -> bool
        requires { number < length self.now }
        ensures { result ≡ get_or self.now number false }
    {
        self.blocks[number]
    }

    /// The number of the first group, from this one on, of which a block may be marked; both count from 0.
    pub fn marked_group(&self, from: usize) -> Option<usize>
        requires { from ≤ length self.now / 128 + 1 }
        ensures { MatchOption result (NoneMarked from (length self.now / 128 + 1) self.now)
            (λ group. IsNextMarked from group self.now) }
    {
        match memchr(1, &self.groups[from..]) {
            Some(passed) => Some(from + passed),
            None => None,
        }
    }
}
