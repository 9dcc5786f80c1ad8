//! The cells of a text, read from its last byte to its first.
//!
//! Cells are defined from the end: a line feed takes the blanks and folds that follow it; a
//! carriage return directly before a line feed joins it, and a backslash directly before that line
//! end joins it too; a blank joins a fold directly after it. So one pass backwards makes the cells,
//! over a stack whose top is the first cell so far.
ghost use Rattle.std.specs.Prelude.{◌≡◌, ◌≢◌, ◌==◌, ◌||◌, ◌+◌, ◌-◌, ◌≤◌, ◌<◌, ℕ, List, [], ◌∷◌, ◌++◌, length, drop, slice_index, OnOk, IfOk, IsOkUnless};
ghost use Rattle.std.specs.List.{prefix_len};
ghost use Rattle.mk_lines.specs.Bytes.{LineFeed, CarriageReturn, Backslash, Blank, byte_kind};
ghost use Rattle.mk_lines.specs.Cells.{Cell, cells, prepend};
ghost use Rattle.mk_lines.specs.CellStack.{stack_of};

use super::stored::FoldEnd;
use crate::fault::Fault;
use memchr::{memchr_iter, memrchr};
use std::alloc::Allocator;
use std::marker::Model;

/// What the first of some cells is.
#[derive(Clone, Copy, Debug, PartialEq, Eq)]
pub enum Top {
    /// A byte that stands for itself, or nothing.
    Byte,
    /// A fold.
    Fold,
    /// A line feed and the blanks after it, which may be the end of a fold.
    Lf,
    /// A line end as in `Lf`, with a carriage return before its line feed.
    CrLf,
}

/// The cells of the bytes that were read.
#[derive(Drop)]
pub struct Stack<A: Allocator> {
    /// The joined bytes stand at the end, behind room for the joined bytes that are not read yet.
    pub joined: Vec<u8, A>,
    /// Where the joined bytes begin.
    pub first: usize,
    /// The ends of the folds, the last first.
    pub ends: Vec<FoldEnd, A>,
    /// What the first cell is.
    top: Top,
    /// Whether a backslash stands directly before a fold.
    pub bad_fold: bool,
}

impl<A: Allocator> Model for Stack<A> {
    ghost use Rattle.std.specs.Prelude.{◌≤◌, drop, length};
    ghost use Rattle.mk_lines.specs.CellStack.{StackWithRoom};

    ghost Value = { StackWithRoom };

    ghost view = { λ s. record {
      stack = record {
        joined = drop s.first s.joined.items;
        ends = s.ends.items;
        top = s.top;
        bad_fold = s.bad_fold;
      };
      room = s.first;
    } };

    ghost invariant = { λ s. s.first ≤ length s.joined.items };
}

/// Reads a text from its last byte to its first: a fold byte by byte, and the other bytes together,
/// back to a line feed. The bytes before `feed` are known to be no line feeds.
///
/// # Errors
///
/// [`Fault::NoMemory`] if a list could not grow, or if an offset of a fold does not fit in 32 bits.
pub fn stack_of_text<A: Allocator + Copy>(
    alloc: A,
    text: &[u8],
    feed: usize,
) -> Result<Stack<A>, Fault>
    requires { (k : ℕ) → k < feed → slice_index text.now k ≢ 10 }
    ensures stack { IfOk result (λ stack. stack.stack ≡ stack_of 0 (cells text.now)) }
    ensures fault { IsOkUnless result Fault.NoMemory }
{
    // Each fold has a line feed, and few lines have more than these.
    let folds = memchr_iter(b'\n', text).take(16).count();
    let mut stack = Stack {
        joined: vec![in alloc; 0; text.len()]?,
        first: text.len(),
        ends: Vec::with_capacity(alloc, folds)?,
        top: Top::Byte,
        bad_fold: false,
    };
    let mut offset = text.len();
    while offset > 0 {
        offset = stack.prepend_some(text, offset, feed)?;
    }
    Ok(stack)
}

// Where the run of bytes before an offset begins that has no line feed; the bytes before `feed`
// have none.
fn run_start(text: &[u8], offset: usize, feed: usize) -> usize
    requires some { 0 < offset }
    requires offset { offset ≤ length text.now }
    requires last { slice_index text.now (offset - 1) ≢ 10 }
    requires before { (k : ℕ) → k < feed → slice_index text.now k ≢ 10 }
    ensures some { result < offset }
    ensures run { (k : ℕ) → result ≤ k → k < offset → slice_index text.now k ≢ 10 }
{
    if offset <= feed {
        return 0;
    }
    match memrchr(b'\n', &text[..offset]) {
        Some(at) => at + 1,
        None => 0,
    }
}

impl<A: Allocator> Stack<A> {
    // Reads one byte or more before an offset, and says where they begin. If a byte stands for
    // itself there, all bytes back to a line feed are read.
    fn prepend_some(&mut self, text: &[u8], offset: usize, feed: usize) -> Result<usize, Fault>
        requires before { (k : ℕ) → k < feed → slice_index text.now k ≢ 10 }
        requires some { 0 < offset }
        requires offset { offset ≤ length text.now }
        requires stack { self.old.stack ≡ stack_of offset (cells (drop offset text.now)) }
        requires room { offset ≤ self.old.room }
        ensures some { IfOk result (λ start. start < offset) }
        ensures room { IfOk result (λ start. start ≤ self.new.room) }
        ensures stack { IfOk result (λ start.
            self.new.stack ≡ stack_of start (cells (drop start text.now))) }
        ensures fault { IsOkUnless result Fault.NoMemory }
    {
        if self.top == Top::Byte && text[offset - 1] != b'\n' {
            let start = run_start(text, offset, feed);
            self.push_run(&text[start..offset]);
            Ok(start)
        } else {
            self.prepend(text, offset - 1)?;
            Ok(offset - 1)
        }
    }

    // Reads bytes that stand for themselves.
    fn push_run(&mut self, run: &[u8])
        requires { length run.now ≤ self.old.room }
        ensures stack { self.new.stack
            ≡ record self.old.stack { joined = run.now ++ self.old.stack.joined; top = Top.Byte } }
        ensures room { self.new.room + length run.now ≡ self.old.room }
    {
        let first = self.first - run.len();
        self.joined[first..self.first].copy_from_slice(run);
        self.first = first;
        self.top = Top::Byte;
    }

    // Reads the byte before those that were read.
    fn prepend(&mut self, text: &[u8], offset: usize) -> Result<(), Fault>
        requires offset { offset < length text.now }
        requires room { offset < self.old.room }
        requires stack { self.old.stack
            ≡ stack_of (offset + 1) (cells (drop (offset + 1) text.now)) }
        ensures room { OnOk result (offset ≤ self.new.room) }
        ensures stack { OnOk result
            (self.new.stack ≡ stack_of offset (cells (drop offset text.now))) }
        ensures fault { IsOkUnless result Fault.NoMemory }
    {
        match text[offset] {
            b'\n' => return self.push_line_feed(text, offset),
            b'\r' => self.push_carriage_return(),
            b'\\' => self.push_backslash(),
            b' ' => self.push_blank(b' '),
            b'\t' => self.push_blank(b'\t'),
            byte => self.push_byte(byte),
        }
        Ok(())
    }

    // Reads a line feed, which takes the blanks and folds that follow it: a fold that is there, or
    // only blanks.
    fn push_line_feed(&mut self, text: &[u8], offset: usize) -> Result<(), Fault>
        requires offset { offset < length text.now }
        requires room { offset < self.old.room }
        requires stack { self.old.stack
            ≡ stack_of (offset + 1) (cells (drop (offset + 1) text.now)) }
        ensures room { OnOk result (offset ≤ self.new.room) }
        ensures stack { OnOk result (self.new.stack
            ≡ stack_of offset (prepend LineFeed 10 (cells (drop (offset + 1) text.now)))) }
        ensures fault { IsOkUnless result Fault.NoMemory }
    {
        match self.top {
            Top::Fold => {
                self.replace_top(b'\n', Top::Lf);
                Ok(())
            }
            _ => self.push_line_end(text, offset),
        }
    }

    // Reads a line feed that has no fold directly after it: it takes only blanks.
    fn push_line_end(&mut self, text: &[u8], offset: usize) -> Result<(), Fault>
        requires offset { offset < length text.now }
        requires room { offset < self.old.room }
        requires stack { self.old.stack
            ≡ stack_of (offset + 1) (cells (drop (offset + 1) text.now)) }
        requires no_fold { self.old.stack.top ≢ Top.Fold }
        ensures room { OnOk result (offset ≤ self.new.room) }
        ensures stack { OnOk result (self.new.stack
            ≡ stack_of offset (prepend LineFeed 10 (cells (drop (offset + 1) text.now)))) }
        ensures fault { IsOkUnless result Fault.NoMemory }
    {
        let blanks = count_blanks(&text[offset + 1..]);
        let first = self.first + blanks;
        let end = FoldEnd::new(self.joined.len() - first, offset + 1 + blanks)?;
        self.first = first;
        self.ends.push(end)?;
        self.push_byte(b'\n');
        self.top = Top::Lf;
        Ok(())
    }

    // Reads a carriage return, which joins a line feed directly after it.
    fn push_carriage_return(&mut self)
        requires { 0 < self.old.room }
        ensures stack { (offset : ℕ) (cs : List Cell) → self.old.stack ≡ stack_of (offset + 1) cs
            → self.new.stack ≡ stack_of offset (prepend CarriageReturn 13 cs) }
        ensures room { self.old.room ≤ self.new.room + 1 }
    {
        match self.top {
            Top::Lf => self.top = Top::CrLf,
            Top::Byte | Top::Fold | Top::CrLf => self.push_byte(b'\r'),
        }
    }

    // Reads a backslash: with a line end directly after it, it makes a fold; a fold directly after
    // it becomes bad.
    fn push_backslash(&mut self)
        requires room { 0 < self.old.room }
        requires some { self.old.stack.top ≢ Top.Byte → 0 < length self.old.stack.joined }
        ensures stack { (offset : ℕ) (cs : List Cell) → self.old.stack ≡ stack_of (offset + 1) cs
            → self.new.stack ≡ stack_of offset (prepend Backslash 92 cs) }
        ensures room { self.old.room ≤ self.new.room + 1 }
    {
        match self.top {
            Top::Lf | Top::CrLf => self.replace_top(b' ', Top::Fold),
            Top::Fold => {
                self.bad_fold = true;
                self.push_byte(b'\\')
            }
            Top::Byte => self.push_byte(b'\\'),
        }
    }

    // Reads a blank, which joins a fold directly after it.
    fn push_blank(&mut self, blank: u8)
        requires blank { byte_kind blank ≡ Blank }
        requires room { 0 < self.old.room }
        ensures stack { (offset : ℕ) (cs : List Cell) → self.old.stack ≡ stack_of (offset + 1) cs
            → self.new.stack ≡ stack_of offset (prepend Blank blank cs) }
        ensures room { self.old.room ≤ self.new.room + 1 }
    {
        match self.top {
            Top::Fold => {}
            Top::Byte | Top::Lf | Top::CrLf => self.push_byte(blank),
        }
    }

    // Reads a byte that stands for itself.
    fn push_byte(&mut self, byte: u8)
        requires { 0 < self.old.room }
        ensures stack { self.new.stack
            ≡ record self.old.stack { joined = byte ∷ self.old.stack.joined; top = Top.Byte } }
        ensures room { self.new.room + 1 ≡ self.old.room }
    {
        self.first -= 1;
        self.joined[self.first] = byte;
        self.top = Top::Byte;
    }

    // Puts another cell on top, instead of the first.
    fn replace_top(&mut self, byte: u8, top: Top)
        requires { 0 < length self.old.stack.joined }
        ensures stack { (before : List ℕ) (last : ℕ) → self.old.stack.joined ≡ last ∷ before
            → self.new.stack ≡ record self.old.stack { joined = byte ∷ before; top = top } }
        ensures room { self.new.room ≡ self.old.room }
    {
        self.joined[self.first] = byte;
        self.top = top;
    }
}

// How many blanks a text begins with.
fn count_blanks(text: &[u8]) -> usize
    ensures { result ≡ prefix_len (λ b. b == 32 || b == 9) text.now }
{
    text.iter()
        .take_while(|byte| **byte == b' ' || **byte == b'\t')
        .count()
}
