//! The cells of a line as they are stored beside it, and their readers.
//!
//! A line without folds is its own joined text, and each of its raw offsets is the joined one, so
//! nothing is stored of it except a count and a flag. Of a line with folds the joined text is
//! stored, and the end of each fold: the nearest fold before a joined offset tells the raw offset.
ghost use Rattle.std.specs.Prelude.{◌≡◌, ◌≢◌, ◌==◌, ◌≤◌, ℕ, List, length, true, false, nat_lt, All, IfOk, IsOkUnless};
ghost use Rattle.std.specs.List.{list_any};
ghost use Rattle.std.specs.Option.{is_some};
ghost use Rattle.std.specs.List.Sorted.{IsNonDecreasingBy, IsPartitionPoint};
ghost use Rattle.memchr.specs.Find.{IsFirstByte, is_byte3};
ghost use Rattle.mk_lines.specs.Bytes.{byte_kind};
ghost use Rattle.mk_lines.specs.Cells.{cells, joined_text, line_cells};
ghost use Rattle.mk_lines.specs.CellFaults.{has_bad_fold, has_stray, is_stray_by};
ghost use Rattle.mk_lines.specs.StoredCells.{AreCellsOf, AreInOrder, fold_ends, stored_cells, stored_offset, offset_by_ends};
ghost use Rattle.mk_lines.specs.PhysicalLines.{without_line_end};
ghost use Rattle.mk_lines.specs.Ranges.{raw_range};
ghost use Rattle.mk_lines.specs.declared.cells.stored.FoldEnd.{FoldEnd};

use crate::ends::without_line_end;
use crate::fault::Fault;
use crate::split::Span;
use memchr::memchr3;
use std::alloc::{Allocator, Global};
use std::marker::Model;
use std::mem::size_of;

/// Where a fold ends. A line end that no backslash escapes counts as a fold; one logical line has
/// no such line end.
///
/// A document stores many of these, and its text has at most 16 MB. So the numbers have 32 bits.
#[derive(Clone, Copy, Debug, PartialEq, Eq)]
pub struct FoldEnd {
    /// How many joined bytes stand after the fold.
    after: u32,
    /// The raw offset of the fold's end: how many raw bytes stand before it.
    raw_end: u32,
}

impl FoldEnd {
    /// The end of a fold.
    ///
    /// # Errors
    ///
    /// [`Fault::NoMemory`] if one of the numbers does not fit in 32 bits.
    pub fn new(after: usize, raw_end: usize) -> Result<FoldEnd, Fault>
        ensures end { IfOk result (λ end. end ≡ record { after = after; raw_end = raw_end }) }
        ensures fault { IsOkUnless result Fault.NoMemory }
    {
        Ok(FoldEnd {
            after: short(after)?,
            raw_end: short(raw_end)?,
        })
    }
}

// An offset in 32 bits. One that does not fit is refused as if there were no memory for its line.
fn short(offset: usize) -> Result<u32, Fault>
    ensures same { IfOk result (λ short. short ≡ offset) }
    ensures fault { IsOkUnless result Fault.NoMemory }
{
    u32::try_from(offset).map_err(|_| Fault::NoMemory)
}

/// The cells of a logical line, as [`cells`](super::cells) gives them.
///
/// They are stored beside their line and do not hold it: a second copy of each line would double
/// the memory of a document. So [`text`](Cells::text) takes the line as an argument. None of the
/// readers takes memory.
#[derive(Debug, Drop)]
pub struct Cells<A: Allocator> {
    stored: Stored<A>,
}

// A document stores one of these for each of its lines that has folds, in a box. In `Stored` the
// flags stand first, beside the enum's tag: after the lists they would take 8 bytes more.
const _: () = prove!(size_of::<Cells<Global>>() == 56);

/// What is stored of a line.
#[derive(Debug, Drop)]
enum Stored<A: Allocator> {
    /// Of a line without folds.
    Plain {
        /// Whether there is a stray byte.
        stray: bool,
        /// How many cells there are, which is how many bytes the joined text has.
        count: usize,
    },
    /// Of a line with folds. There are as many cells as joined bytes.
    Folded {
        /// Whether a backslash stands directly before a fold.
        bad_fold: bool,
        /// Whether there is a stray byte.
        stray: bool,
        /// The joined text.
        joined: Vec<u8, A>,
        /// The ends of the folds, the last fold first.
        ends: Vec<FoldEnd, A>,
    },
}

impl<A: Allocator> Model for Cells<A> {
    ghost use Rattle.mk_lines.specs.StoredCells.{StoredCells, AreInOrder, count_stored, ends_stored, joined_stored, has_bad_fold_stored, has_stray_stored, HasFoldsStored};

    ghost Value = { StoredCells };

    ghost view = { λ c. record {
      count = count_stored c.stored;
      joined = joined_stored c.stored;
      ends = ends_stored c.stored;
      bad_fold = has_bad_fold_stored c.stored;
      stray = has_stray_stored c.stored;
    } };

    ghost invariant = { λ c. AreInOrder (ends_stored c.stored) × HasFoldsStored c.stored };
}

impl<A: Allocator> Cells<A> {
    // The cells of a text without a line feed: each byte stands for itself.
    pub(super) fn plain(text: &[u8], stray: bool) -> Cells<A>
        requires no_line_feed { All (λ b. b ≢ 10) text.now }
        requires stray { stray ≡ list_any (λ b. is_stray_by (byte_kind b) (b == 0)) text.now }
        ensures { result ≡ stored_cells (cells text.now) }
    {
        Cells {
            stored: Stored::Plain {
                stray,
                count: text.len(),
            },
        }
    }

    // The cells of a text with a line feed, by its joined text and its folds.
    pub(super) fn folded(
        text: &[u8],
        joined: Vec<u8, A>,
        ends: Vec<FoldEnd, A>,
        bad_fold: bool,
    ) -> Cells<A>
        requires some { All (λ b. b ≢ 10) text.now → ⊥ }
        requires joined { joined.items ≡ joined_text (cells text.now) }
        requires ends { ends.items ≡ fold_ends 0 (cells text.now) }
        requires bad_fold { bad_fold ≡ has_bad_fold (cells text.now) }
        ensures { result ≡ stored_cells (cells text.now) }
    {
        let stray = has_stray_byte(&joined);
        Cells {
            stored: Stored::Folded {
                bad_fold,
                stray,
                joined,
                ends,
            },
        }
    }

    /// The cells of a line without folds. Takes no memory; the time is linear in the line's bytes.
    pub fn without_folds(line: &[u8]) -> Cells<A>
        requires no_line_feed { All (λ b. b ≢ 10) (without_line_end line.now) }
        ensures { AreCellsOf result line.now }
    {
        let text = without_line_end(line);
        Cells::plain(text, has_stray_byte(text))
    }

    /// Whether the line has folds.
    pub fn has_folds(&self) -> bool
        ensures folded { (line : List ℕ) → AreCellsOf self.now line
            → result ≡ true → All (λ b. b ≢ 10) (without_line_end line) → ⊥ }
        ensures plain { (line : List ℕ) → AreCellsOf self.now line
            → result ≡ false → All (λ b. b ≢ 10) (without_line_end line) }
    {
        match &self.stored {
            Stored::Plain { .. } => false,
            Stored::Folded { .. } => true,
        }
    }

    /// The joined text: the line without its line end, with each fold made one space.
    ///
    /// `line` is the line whose cells these are. Without folds the answer is a part of `line`,
    /// since no copy is stored; with folds it is the joined text that is stored.
    pub fn text<'a>(&'a self, line: &'a [u8]) -> &'a [u8]
        requires { AreCellsOf self.now line.now }
        ensures text { result.now ≡ joined_text (line_cells line.now) }
        ensures length { length result.now ≡ self.now.count }
    {
        match &self.stored {
            Stored::Plain { .. } => without_line_end(line),
            Stored::Folded { joined, .. } => joined,
        }
    }

    /// The raw bytes of the joined bytes from `start` up to `end`, as a range of bytes of the line.
    ///
    /// Each fold in the range counts with its whole run. Takes time logarithmic in the number of
    /// folds, and no memory.
    pub fn raw_range(&self, start: usize, end: usize) -> Span
        requires order { start ≤ end }
        requires within { end ≤ self.now.count }
        ensures { (line : List ℕ) → AreCellsOf self.now line
            → result ≡ raw_range (line_cells line) start end }
    {
        Span {
            start: self.raw_offset(start),
            end: self.raw_offset(end),
        }
    }

    // How many raw bytes stand before the joined byte at an offset, or before the end of the text
    // if the offset is that end.
    fn raw_offset(&self, offset: usize) -> usize
        requires { offset ≤ self.now.count }
        ensures { result ≡ stored_offset self.now offset }
    {
        match &self.stored {
            Stored::Plain { .. } => offset,
            Stored::Folded { joined, ends, .. } => {
                offset_by_ends(ends, joined.len() - offset, offset)
            }
        }
    }

    /// Whether some fold is bad: a backslash stands directly before its whole run. This project's
    /// profile.
    pub fn has_bad_fold(&self) -> bool
        ensures { (line : List ℕ) → AreCellsOf self.now line
            → result ≡ has_bad_fold (line_cells line) }
    {
        match &self.stored {
            Stored::Plain { .. } => false,
            Stored::Folded { bad_fold, .. } => *bad_fold,
        }
    }

    /// Whether there is a stray byte: a NUL, or a CR that is no part of a line end. This project's
    /// profile.
    pub fn has_stray(&self) -> bool
        ensures { (line : List ℕ) → AreCellsOf self.now line
            → result ≡ has_stray (line_cells line) }
    {
        match &self.stored {
            Stored::Plain { stray, .. } | Stored::Folded { stray, .. } => *stray,
        }
    }
}

// The raw offset of a joined offset that `after` joined bytes follow: the nearest fold before it
// tells the raw offset.
fn offset_by_ends(ends: &[FoldEnd], after: usize, offset: usize) -> usize
    requires { AreInOrder ends.now }
    ensures { result ≡ offset_by_ends ends.now after offset }
{
    match ends.get(count_folds_behind(ends, after)) {
        Some(end) => end.raw_end as usize + (end.after as usize - after),
        None => offset,
    }
}

// How many folds end behind the offset that `after` joined bytes follow.
fn count_folds_behind(ends: &[FoldEnd], after: usize) -> usize
    requires { IsNonDecreasingBy (λ (e : FoldEnd). e.after) ends.now }
    ensures { IsPartitionPoint (λ (e : FoldEnd). nat_lt e.after after ≡ true)
        (λ (e : FoldEnd). nat_lt e.after after ≡ false) ends.now result }
{
    ends.partition_point(|end| (end.after as usize) < after)
}

// Whether a joined text has a stray byte.
fn has_stray_byte(joined: &[u8]) -> bool
    ensures { result ≡ list_any (λ b. is_stray_by (byte_kind b) (b == 0)) joined.now }
{
    first_stray_byte(joined).is_some()
}

// The offset of the first stray byte. A line feed counts as a stray byte here.
pub(super) fn first_stray_byte(text: &[u8]) -> Option<usize>
    ensures first { IsFirstByte (is_byte3 0 10 13) text.now result }
    ensures some { is_some result ≡ list_any (λ b. is_stray_by (byte_kind b) (b == 0)) text.now }
{
    memchr3(b'\0', b'\n', b'\r', text)
}
