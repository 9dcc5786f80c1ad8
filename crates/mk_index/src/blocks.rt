//! The blocks of an index: the lines of a document, cut into stretches.
//!
//! An edit looks at each line of a block that mentions its word, and most of these lines are in no
//! cache. So blocks are small, and a walk over blocks passes those of a group at once.
ghost use Rattle.std.specs.Prelude.{◌≡◌, ◌<◌, ◌≤◌, ◌+◌, ◌*◌, ◌/◌, false, min, IfOk, IsTrue, length, get_or, set, take};
ghost use Rattle.mk_lines.specs.Limits.{max_text};
ghost use Rattle.mk_index.specs.Blocks.{AreFresh, IsGroupOf, blocks_of, lines_in, unlisted, unlisted_blocks};

use mk_class::Context;
use std::alloc::{AllocError, Allocator, Global};
use std::marker::Model;
use std::mem::size_of;

/// Lines of a document that stand one below the other. Each count is one of lines.
#[derive(Clone, Copy)]
pub struct Block {
    /// How many lines there are.
    pub count: u16,
    /// How many of the first lines have their keys listed.
    pub front: u16,
    /// How many of the last lines have their keys listed.
    pub back: u16,
    /// Whether lines have changed since the keys of all of them were listed.
    pub is_stale: bool,
    /// The context before the first line.
    pub context: Context,
}

impl Block {
    /// A block of so many lines, of which no key is listed. Where it stands is unknown.
    pub fn unlisted(count: u16) -> Block
        ensures { result ≡ unlisted count }
    {
        Block {
            count,
            front: 0,
            back: 0,
            is_stale: true,
            context: Context::start(),
        }
    }
}

// What is made of many lines is to be small.
const _: () = prove!(size_of::<Block>() == 16);

/// How many blocks stand in a group; in the last one there may be fewer.
pub const GROUP: usize = 128;

// How many lines a block has at first.
const BLOCK_LINES: usize = 16;

/// What is known of the blocks of a group, so that a walk passes all of them at once.
#[derive(Clone, Copy)]
pub struct Group {
    /// How many lines the blocks have.
    pub lines: usize,
    /// How many lines stand above the blocks, if that was noted and is right yet (`placed`).
    pub above: usize,
    /// Whether one of the blocks may be stale.
    pub may_be_stale: bool,
}

/// Where a group begins.
#[derive(Clone, Copy)]
pub struct Start {
    /// The number of the group, from 0.
    pub group: usize,
    /// How many lines stand above it.
    pub above: usize,
}

/// The blocks of an index, in groups. Contracts see the blocks.
#[derive(Drop)]
pub struct Blocks<A: Allocator = Global> {
    items: Vec<Block, A>,
    groups: Vec<Group, A>,
    // Whether it was noted that no block is stale, and none was changed since then.
    are_fresh: bool,
    // Of so many of the first groups it was noted how many lines stand above them, and no block above
    // them was changed since then.
    placed: usize,
}

impl<A: Allocator> Model for Blocks<A> {
    ghost use Rattle.std.specs.Prelude.{◌≡◌, List, true};
    ghost use Rattle.mk_index.specs.Blocks.{AreFresh, AreGroupsOf, ArePlaced};
    ghost use Rattle.mk_index.specs.declared.blocks.Block.{Block};

    ghost Value = { List Block };

    ghost view = { λ b. b.items.items };

    ghost invariant = { λ b. AreGroupsOf b.items.items b.groups.items
        × (b.are_fresh ≡ true → AreFresh b.items.items)
        × ArePlaced b.items.items b.groups.items b.placed };
}

impl<A: Allocator + Copy> Blocks<A> {
    /// Blocks of 16 lines each, and of the lines that are left, of which no key is listed.
    /// [`AllocError`] if a growth was refused.
    pub fn new(alloc: A, lines: usize) -> Result<Blocks<A>, AllocError>
        ensures { IfOk result (λ blocks. blocks ≡ unlisted_blocks lines) }
    {
        let full = Block::unlisted(BLOCK_LINES as u16);
        let mut items = Vec::from_elem(alloc, full, lines / BLOCK_LINES)?;
        items.push(Block::unlisted((lines % BLOCK_LINES) as u16))?;
        let mut groups = Vec::new(alloc);
        'groups: for group in 0..items.len() / GROUP + 1 {
            groups.push(group_of(&items, group))?;
        }
        Ok(Blocks {
            items,
            groups,
            are_fresh: false,
            placed: 0,
        })
    }

    /// How many blocks there are.
    pub fn len(&self) -> usize
        ensures { result ≡ length self.now }
    {
        self.items.len()
    }

    /// The block of a number, from 0.
    pub fn block(&self, number: usize) -> Block
        requires { number < length self.now }
        ensures { result ≡ get_or self.now number result }
    {
        self.items[number]
    }

    /// Whether it was noted that no block is stale, and none was changed since then.
    pub fn are_fresh(&self) -> bool
        ensures { IsTrue result → AreFresh self.now }
    {
        self.are_fresh
    }

    /// Notes that no block is stale.
    pub fn note_all_fresh(&mut self)
        requires { AreFresh self.old }
        ensures { self.new ≡ self.old }
    {
        self.are_fresh = true;
    }

    /// How many groups there are.
    pub fn group_count(&self) -> usize
        ensures { result ≡ length self.now / 128 + 1 }
    {
        self.groups.len()
    }

    /// The group of a number, from 0.
    pub fn group(&self, number: usize) -> Group
        requires { number ≤ length self.now / 128 }
        ensures { IsGroupOf (blocks_of number self.now) result }
    {
        self.groups[number]
    }

    /// The number of the first block of a group; both count from 0.
    pub fn first_of(&self, group: usize) -> usize
        requires { group ≤ length self.now / 128 }
        ensures { result ≡ group * 128 }
    {
        // This bounds the number of blocks.
        let _count = self.items.len();
        group * GROUP
    }

    /// The number after that of the last block of a group; both count from 0.
    pub fn end_of(&self, group: usize) -> usize
        requires { group ≤ length self.now / 128 }
        ensures { result ≡ min (length self.now) (group * 128 + 128) }
    {
        let count = self.items.len();
        count.min(self.first_of(group) + GROUP)
    }

    /// Puts a block in the place of another, whose number, from 0, is given.
    pub fn change(&mut self, at: usize, block: Block)
        requires { at < length self.old }
        ensures { self.new ≡ set self.old at block }
    {
        self.items[at] = block;
        let group = at / GROUP;
        let above = self.groups[group].above;
        self.groups[group] = Group {
            above,
            ..group_of(&self.items, group)
        };
        self.are_fresh = false;
        self.placed = self.placed.min(group + 1);
    }

    /// Puts a fresh block in the place of one that has as many lines, whose number, from 0, is given.
    pub fn renew(&mut self, at: usize, fresh: Block)
        requires in_range { at < length self.old }
        requires fresh { fresh.is_stale ≡ false }
        requires count { fresh.count ≡ (get_or self.old at fresh).count }
        ensures { self.new ≡ set self.old at fresh }
    {
        self.items[at] = fresh;
        self.are_fresh = false;
    }

    /// Notes that no block of the group of a number, from 0, is stale.
    pub fn note_fresh(&mut self, group: usize)
        requires in_range { group ≤ length self.old / 128 }
        requires fresh { AreFresh (blocks_of group self.old) }
        ensures { self.new ≡ self.old }
    {
        self.groups[group] = Group {
            may_be_stale: false,
            ..self.groups[group]
        };
    }

    /// Notes how many lines stand above each group. It takes a walk over the groups of which that is not
    /// known yet.
    pub fn place_groups(&mut self)
        requires { lines_in self.old ≤ max_text }
        ensures { self.new ≡ self.old }
    {
        let start = self.start_for(usize::MAX);
        let mut above = start.above;
        'groups: for group in start.group..self.group_count() {
            self.note_above(group, above);
            above += self.group(group).lines;
        }
    }

    // Notes how many lines stand above the group of a number, from 0. It is of use once this was noted of
    // all groups above.
    fn note_above(&mut self, group: usize, above: usize)
        requires in_range { group ≤ length self.old / 128 }
        requires above { above ≡ lines_in (take (group * 128) self.old) }
        ensures { self.new ≡ self.old }
    {
        self.groups[group] = Group {
            above,
            ..self.groups[group]
        };
        if self.placed == group {
            self.placed = group + 1;
        }
    }

    /// How many lines stand above the group of a number, from 0. Where that was noted, it takes no walk.
    pub fn above(&self, group: usize) -> usize
        requires in_range { group ≤ length self.now / 128 }
        requires few { lines_in self.now ≤ max_text }
        ensures { result ≡ lines_in (take (group * 128) self.now) }
    {
        if group < self.placed {
            return self.groups[group].above;
        }
        let mut above = 0;
        'groups: for passed in 0..group {
            above += self.group(passed).lines;
        }
        above
    }

    /// Where a walk over the groups may begin that looks for the line at an index, from 0: the last
    /// group above which fewer lines stand, as far as that was noted; or else the first one.
    pub fn start_for(&self, at: usize) -> Start
        ensures in_range { result.group ≤ length self.now / 128 }
        ensures above { result.above ≡ lines_in (take (result.group * 128) self.now) }
        ensures within { result.above ≤ at }
    {
        let mut start = Start { group: 0, above: 0 };
        let mut end = self.placed;
        'halves: while end - start.group > 1 {
            let middle = (start.group + end) / 2;
            let above = self.groups[middle].above;
            if above < at {
                start = Start {
                    group: middle,
                    above,
                };
            } else {
                end = middle;
            }
        }
        start
    }
}

// The group of a number, from 0, of which each block may be stale.
fn group_of(blocks: &[Block], number: usize) -> Group
    requires { number * 128 ≤ length blocks.now }
    ensures { IsGroupOf (blocks_of number blocks.now) result }
{
    let first = number * GROUP;
    let mut lines = 0;
    'numbers: for at in first..blocks.len().min(first + GROUP) {
        lines += blocks[at].count as usize;
    }
    Group {
        lines,
        above: 0,
        may_be_stale: true,
    }
}
