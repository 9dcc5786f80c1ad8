//! How the blocks of an index follow the steps of a patch.
//!
//! An undo may not fail, and passes through documents of which it is not known whether they are
//! faithful. So to follow a patch takes no memory and asks nothing of the document: a step changes
//! the count of one block and makes it stale.
ghost use Rattle.std.specs.Prelude.{◌≡◌, ◌≤◌, ◌+◌, ◌++◌, ℕ, List, Option, IsTrue, IfSome, length, take, drop};
ghost use Rattle.mk_class.specs.Contexts as contexts;
ghost use Rattle.mk_tree.specs.LocatedLines.{LocatedLine};
ghost use Rattle.mk_patch.specs.Moves.{FitMoves, FitsMove, after_move, after_moves};
ghost use Rattle.mk_patch.specs.StepMoves.{move_of};
ghost use Rattle.mk_index.specs.Blocks.{AreBlocks, lines_in};
ghost use Rattle.mk_index.specs.Chains.{Mention};
ghost use Rattle.mk_index.specs.Exchanges.{AreRising, IsHeld};
ghost use Rattle.mk_index.specs.declared.keys.Scope.{Scope};

use crate::blocks::{Block, Blocks};
use mk_patch::{Patch, Step};
use std::alloc::Allocator;

// The most lines of a block.
const MOST_LINES: u16 = 2_048;

/// Follows the steps of a patch. Whether it could; if not, the blocks are of no use any more. Takes no
/// memory.
pub(crate) fn follow_all<A: Allocator + Copy>(blocks: &mut Blocks<A>, patch: &Patch<A>) -> bool
    ensures { (scope : Scope) (mentions : List Mention) (number : ℕ)
        (expected : Option contexts.Context)
        (lines : List LocatedLine) (end : contexts.Context)
        → AreBlocks scope mentions number expected lines blocks.old end → FitMoves patch.now lines
        → IsTrue result
        → AreBlocks scope mentions number expected (after_moves patch.now lines) blocks.new end }
{
    'steps: for at in 0..patch.step_count() {
        let Some(step) = patch.step(at) else {
            return false;
        };
        if !follow(blocks, step) {
            return false;
        }
    }
    true
}

// Follows a step of a patch. Whether it could; if not, the blocks are of no use any more.
fn follow<A: Allocator + Copy>(blocks: &mut Blocks<A>, step: &Step<A>) -> bool
    ensures { (scope : Scope) (mentions : List Mention) (number : ℕ)
        (expected : Option contexts.Context)
        (lines : List LocatedLine) (end : contexts.Context)
        → AreBlocks scope mentions number expected lines blocks.old end
        → FitsMove (move_of step.now) lines → IsTrue result
        → AreBlocks scope mentions number expected (after_move (move_of step.now) lines) blocks.new end }
{
    match step {
        Step::PutIn(at, _) => splice(blocks, *at, 0, 1),
        Step::TakeOut(at) => splice(blocks, *at, 1, 0),
        Step::Exchange(at, _) => splice(blocks, *at, 1, 1),
        Step::SwapEnd(_) => match last_line(blocks) {
            Some(last) => splice(blocks, last, 1, 1),
            None => false,
        },
    }
}

// Follows a change of the lines: at an index from 0, some lines go out and some come in, and all of
// them belong to one block, which is stale then. False if there is no such block, or if it has 2,048
// lines already.
fn splice<A: Allocator + Copy>(blocks: &mut Blocks<A>, at: usize, takes: u16, puts: u16) -> bool
    requires { puts ≤ 1 }
    ensures { (scope : Scope) (mentions : List Mention) (number : ℕ)
        (expected : Option contexts.Context)
        (lines put_in : List LocatedLine) (end : contexts.Context)
        → AreBlocks scope mentions number expected lines blocks.old end → length put_in ≡ puts
        → IsTrue result → AreBlocks scope mentions number expected
        (take at lines ++ (put_in ++ drop (at + takes) lines)) blocks.new end }
{
    let start = blocks.start_for(at);
    let mut above = start.above;
    'groups: for group in start.group..blocks.group_count() {
        let lines = blocks.group(group).lines;
        let rest = at - above;
        if rest <= lines && takes as usize <= lines - rest {
            let first = blocks.first_of(group);
            return splice_below(blocks, first, above, at, takes, puts);
        }
        if rest < lines {
            return false;
        }
        above += lines;
    }
    false
}

// The same, where the lines belong to one of the blocks from a number, from 0, on. This many lines stand
// above that block.
fn splice_below<A: Allocator + Copy>(
    blocks: &mut Blocks<A>,
    first: usize,
    above: usize,
    at: usize,
    takes: u16,
    puts: u16,
) -> bool
    requires one { puts ≤ 1 }
    requires above { above ≡ lines_in (take first blocks.old) }
    requires in_range { above ≤ at }
    ensures { (scope : Scope) (mentions : List Mention) (number : ℕ)
        (expected : Option contexts.Context)
        (lines put_in : List LocatedLine) (end : contexts.Context)
        → AreBlocks scope mentions number expected lines blocks.old end → length put_in ≡ puts
        → IsTrue result → AreBlocks scope mentions number expected
        (take at lines ++ (put_in ++ drop (at + takes) lines)) blocks.new end }
{
    let mut above = above;
    'numbers: for number in first..blocks.len() {
        let block = blocks.block(number);
        let count = block.count as usize;
        let rest = at - above;
        if rest <= count && takes as usize <= count - rest {
            if block.count >= MOST_LINES {
                return false;
            }
            let changed = Block {
                count: block.count - takes + puts,
                front: block.front.min(rest as u16),
                back: block.back.min(block.count - rest as u16 - takes),
                is_stale: true,
                ..block
            };
            blocks.change(number, changed);
            return true;
        }
        if rest < count {
            return false;
        }
        above += count;
    }
    false
}

// The index of the last line, from 0, if the blocks have a line.
fn last_line<A: Allocator + Copy>(blocks: &Blocks<A>) -> Option<usize>
    ensures { (scope : Scope) (mentions : List Mention) (number : ℕ)
        (expected : Option contexts.Context)
        (lines : List LocatedLine) (end : contexts.Context)
        → AreBlocks scope mentions number expected lines blocks.now end
        → IfSome result (λ last. last + 1 ≡ length lines) }
{
    let mut lines = 0usize;
    'groups: for group in 0..blocks.group_count() {
        lines = lines.checked_add(blocks.group(group).lines)?;
    }
    lines.checked_sub(1)
}

/// Whether a patch exchanges lines and does nothing else, each line below the one before it.
pub(crate) fn is_rising<A: Allocator>(patch: &Patch<A>) -> bool
    ensures { IsTrue result → AreRising 0 patch.now }
{
    let mut from = 0;
    'steps: for number in 0..patch.step_count() {
        let Some(Step::Exchange(at, _)) = patch.step(number) else {
            return false;
        };
        if *at < from {
            return false;
        }
        let Some(next) = at.checked_add(1) else {
            return false;
        };
        from = next;
    }
    true
}

/// The number of the block that has the line at an index; both count from 0. `None` if there is no such
/// block.
pub(crate) fn holder<A: Allocator + Copy>(blocks: &Blocks<A>, at: usize) -> Option<u32>
    ensures { IfSome result (λ number. IsHeld blocks.now at number) }
{
    let start = blocks.start_for(at);
    let mut passed = start.above;
    'groups: for group in start.group..blocks.group_count() {
        let lines = blocks.group(group).lines;
        if at - passed < lines {
            return holder_below(blocks, blocks.first_of(group), passed, at);
        }
        passed += lines;
    }
    None
}

// The same, where it is one of the blocks from a number, from 0, on. This many lines stand above that
// block.
fn holder_below<A: Allocator + Copy>(
    blocks: &Blocks<A>,
    first: usize,
    above: usize,
    at: usize,
) -> Option<u32>
    requires above { above ≡ lines_in (take first blocks.now) }
    requires in_range { above ≤ at }
    ensures { IfSome result (λ number. IsHeld blocks.now at number) }
{
    let mut passed = above;
    'numbers: for number in first..blocks.len() {
        let count = blocks.block(number).count as usize;
        if at - passed < count {
            let Ok(named) = u32::try_from(number) else {
                return None;
            };
            return Some(named);
        }
        passed += count;
    }
    None
}
