//! What a document stores of a line.
ghost use Rattle.std.specs.Prelude.{◌≡◌, ◌≢◌, ◌<◌, ◌≤◌, ℕ, List, All, IfOk, IsOk, IsOkUnless, length};
ghost use Rattle.mk_lines.specs.Cells.{joined_text, line_cells};
ghost use Rattle.mk_lines.specs.PhysicalLines.{without_line_end};
ghost use Rattle.mk_lines.specs.Ranges.{raw_range};
ghost use Rattle.mk_lines.specs.StoredCells.{AreCellsOf};
ghost use Rattle.mk_class.specs.ClassTable.{is_unreadable};
ghost use Rattle.mk_class.specs.LineReads.{IsPlain};
ghost use Rattle.mk_tree.specs.LocatedLines.{text_of_line};
ghost use Rattle.mk_tree.specs.ShortClasses.{IsLong};

use crate::line_bytes::LineBytes;
use crate::short_class::ShortClass;
use mk_class::Class;
use mk_lines::ends::without_line_end;
use mk_lines::split::Span;
use mk_lines::{Cells, Fault};
use std::alloc::{Allocator, Global};
use std::marker::Model;
use std::mem::{self, size_of};

/// The bytes of a line (at least one), and what was read of them.
#[derive(Drop)]
pub(crate) struct Content<A: Allocator = Global> {
    stored: Stored<A>,
}

// A document has one of these for each line.
const _: () = prove!(size_of::<Content<Global>>() == 24);

/// What is stored of a line: its bytes, its class and its cells. A line with folds, or with a class
/// that is not short, has a box of its own for them; few lines have.
#[derive(Drop)]
pub(crate) enum Stored<A: Allocator> {
    /// A line without folds. Nothing is stored of its cells.
    Plain(ShortClass, LineBytes<A>),
    /// A line with folds.
    Folded(ShortClass, Box<Celled<A>, A>),
    /// A line whose class is not short.
    Long(Box<Long<A>, A>),
}

/// The bytes of a line, and its cells.
#[derive(Drop)]
pub(crate) struct Celled<A: Allocator> {
    bytes: LineBytes<A>,
    cells: Cells<A>,
}

/// A line with its whole class.
#[derive(Drop)]
pub(crate) struct Long<A: Allocator> {
    class: Class,
    line: Celled<A>,
}

impl<A: Allocator> Model for Content<A> {
    ghost use Rattle.mk_tree.specs.LocatedLines.{LocatedLine};
    ghost use Rattle.mk_tree.specs.Contents.{IsContent, stored_bytes, stored_class};

    ghost Value = { LocatedLine };

    ghost view = { λ c. record { bytes = stored_bytes c.stored; class = stored_class c.stored } };

    ghost invariant = { λ c. IsContent c.stored };
}

impl<A: Allocator> Celled<A> {
    // The joined text.
    fn text(&self) -> &[u8]
        requires { AreCellsOf self.now.cells self.now.bytes }
        ensures { result.now ≡ joined_text (line_cells self.now.bytes) }
    {
        self.cells.text(self.bytes.as_slice())
    }
}

impl<A: Allocator> Content<A> {
    /// What is stored of a line with these cells and this class. It takes memory only for a line
    /// with folds, and for a class that is not short.
    ///
    /// # Errors
    ///
    /// [`Fault::NoMemory`] if a growth was refused.
    pub(crate) fn new(
        alloc: A,
        bytes: LineBytes<A>,
        cells: Cells<A>,
        class: Class,
    ) -> Result<Content<A>, Fault>
        requires some_bytes { 0 < length bytes }
        requires cells { AreCellsOf cells bytes }
        ensures content { IfOk result (λ content. content
            ≡ record { bytes = bytes; class = class }) }
        ensures small { All (λ b. b ≢ 10) (without_line_end bytes) → (IsLong class → ⊥)
            → IsOk result }
        ensures fault { IsOkUnless result Fault.NoMemory }
    {
        let stored = match ShortClass::of(&class) {
            Some(short) if cells.has_folds() => {
                Stored::Folded(short, Box::new(alloc, Celled { bytes, cells })?)
            }
            Some(short) => Stored::Plain(short, bytes),
            None => {
                let line = Celled { bytes, cells };
                Stored::Long(Box::new(alloc, Long { class, line })?)
            }
        };
        Ok(Content { stored })
    }

    /// What is stored of a plain line with this class. It takes memory only for a class that is not
    /// short.
    ///
    /// # Errors
    ///
    /// [`Fault::NoMemory`] if a growth was refused.
    pub(crate) fn plain(alloc: A, bytes: LineBytes<A>, class: Class) -> Result<Content<A>, Fault>
        requires some_bytes { 0 < length bytes }
        requires plain { IsPlain bytes }
        ensures content { IfOk result (λ content. content
            ≡ record { bytes = bytes; class = class }) }
        ensures small { (IsLong class → ⊥) → IsOk result }
        ensures fault { IsOkUnless result Fault.NoMemory }
    {
        if let Some(short) = ShortClass::of(&class) {
            let stored = Stored::Plain(short, bytes);
            return Ok(Content { stored });
        }
        let cells = Cells::without_folds(bytes.as_slice());
        Content::new(alloc, bytes, cells, class)
    }

    pub(crate) fn bytes(&self) -> &[u8]
        ensures bytes { result.now ≡ self.now.bytes }
        ensures some_bytes { 0 < length self.now.bytes }
    {
        match &self.stored {
            Stored::Plain(_, bytes) => bytes.as_slice(),
            Stored::Folded(_, line) => line.bytes.as_slice(),
            Stored::Long(long) => long.line.bytes.as_slice(),
        }
    }

    #[inline(always)]
    pub(crate) fn class(&self) -> Class
        ensures { result ≡ self.now.class }
    {
        match &self.stored {
            Stored::Plain(class, _) | Stored::Folded(class, _) => class.whole(),
            Stored::Long(long) => long.class,
        }
    }

    /// The joined text.
    pub(crate) fn text(&self) -> &[u8]
        ensures { result.now ≡ text_of_line self.now }
    {
        match &self.stored {
            Stored::Plain(_, bytes) => without_line_end(bytes.as_slice()),
            Stored::Folded(_, line) => line.text(),
            Stored::Long(long) => long.line.text(),
        }
    }

    /// The raw bytes of the joined bytes from `start` up to `end`, as a range of the line's bytes.
    pub(crate) fn raw_range(&self, start: usize, end: usize) -> Span
        requires order { start ≤ end }
        requires within { end ≤ length (line_cells self.now.bytes) }
        ensures { result ≡ raw_range (line_cells self.now.bytes) start end }
    {
        match &self.stored {
            Stored::Plain(..) => Span { start, end },
            Stored::Folded(_, line) => line.cells.raw_range(start, end),
            Stored::Long(long) => long.line.cells.raw_range(start, end),
        }
    }

    /// Whether the line has a stray byte or a bad fold.
    pub(crate) fn is_unreadable(&self) -> bool
        ensures { result ≡ is_unreadable (line_cells self.now.bytes) }
    {
        match &self.stored {
            Stored::Plain(_, bytes) => is_unreadable(&Cells::<A>::without_folds(bytes.as_slice())),
            Stored::Folded(_, line) => is_unreadable(&line.cells),
            Stored::Long(long) => is_unreadable(&long.line.cells),
        }
    }

    /// Puts other bytes of the same joined text in the place of the line's bytes, and hands these
    /// out.
    pub(crate) fn swap_bytes(&mut self, bytes: LineBytes<A>) -> LineBytes<A>
        requires some_bytes { 0 < length bytes }
        requires same_text { without_line_end bytes ≡ without_line_end self.old.bytes }
        ensures old { result ≡ self.old.bytes }
        ensures some_bytes_back { 0 < length result }
        ensures bytes { self.new.bytes ≡ bytes }
        ensures class { self.new.class ≡ self.old.class }
    {
        match &mut self.stored {
            Stored::Plain(_, old) => mem::replace(old, bytes),
            Stored::Folded(_, line) => mem::replace(&mut line.bytes, bytes),
            Stored::Long(long) => mem::replace(&mut long.line.bytes, bytes),
        }
    }
}

// Whether a line with these cells has a stray byte or a bad fold.
fn is_unreadable<A: Allocator>(cells: &Cells<A>) -> bool
    ensures { (line : List ℕ) → AreCellsOf cells.now line
        → result ≡ is_unreadable (line_cells line) }
{
    cells.has_stray() || cells.has_bad_fold()
}
