//! A document's text, gathered into few writes.
ghost use Rattle.std.specs.Prelude.{◌≡◌, ◌+◌, ◌≤◌, ◌++◌, false, length, take, drop};
ghost use Rattle.mk_lines.specs.Device.{Writes};
ghost use Rattle.mk_tree.specs.LocatedLines.{located_text, size_of};
ghost use Rattle.mk_tree.specs.Origins.{lines_between};
ghost use Rattle.mk_tree.specs.Printing.{Gathers};

use crate::document::Doc;
use crate::gathering::{Gathered, put};
use arrayvec::ArrayVec;
use mk_lines::Fault;
use mk_lines::sink::{ByteSink, write_all};
use std::alloc::Allocator;

// The text of a document in three parts: lines that stand in the text that was read, lines that are
// printed one by one, and again lines that stand in the text that was read.
#[derive(Clone, Copy)]
struct Parts<'a> {
    front: &'a [u8],
    // The index of the first line that is printed by itself, and how many lines are.
    from: usize,
    count: usize,
    end: &'a [u8],
}

impl<A: Allocator> Doc<A> {
    /// Writes the lines one after the other, gathered into few calls of [`ByteSink::write`].
    /// Nothing is flushed. Takes no memory.
    ///
    /// The lines before and after all those that were changed are not gone through where they are
    /// many: they are written at once.
    ///
    /// # Errors
    ///
    /// [`Fault::Write`] if a write answered it or took no byte. A prefix of the text is out then.
    pub fn write_to<W: ByteSink>(&self, out: &mut W) -> Result<(), Fault>
        requires { W.failed out.old ≡ false }
        ensures { Writes W.contents W.failed W.flushes out.old out.new result
            (located_text self.now) }
    {
        let parts = self.parts();
        let mut gathered = ArrayVec::new();
        put(&mut gathered, out, parts.front)?;
        self.put_lines(&mut gathered, out, parts.from, parts.count)?;
        put(&mut gathered, out, parts.end)?;
        write_all(out, &gathered)
    }

    // Puts some lines behind the bytes that are held back: as many as `count` says, from an index
    // on.
    fn put_lines<W: ByteSink>(
        &self,
        gathered: &mut Gathered,
        out: &mut W,
        from: usize,
        count: usize,
    ) -> Result<(), Fault>
        requires works { W.failed out.old ≡ false }
        requires in_range { from + count ≤ length self.now }
        ensures { Gathers W.contents W.failed W.flushes out.old out.new gathered.old.items
            gathered.new.items result (located_text (lines_between from count self.now)) }
    {
        let mut lines = self.lines_from(from);
        'lines: for at in 0..count {
            let Some(line) = lines.next() else {
                unreachable!()
            };
            put(gathered, out, line.bytes())?;
        }
        Ok(())
    }

    // The parts of the text. To tell their sizes takes a walk over the lines in the middle, and over
    // those on the shorter side. Where that takes longer than it spares, all lines are printed one
    // by one.
    fn parts(&self) -> Parts<'_>
        ensures whole { located_text self.now
            ≡ result.front.now
            ++ (located_text (lines_between result.from result.count self.now) ++ result.end.now) }
        ensures in_range { result.from + result.count ≤ length self.now }
    {
        let lines = self.len();
        let first = self.origin.first;
        let last = self.origin.last.min(lines - first);
        let count = lines - first - last;
        if lines <= first.min(last) + 2 * count {
            return Parts {
                front: &[],
                from: 0,
                count: lines,
                end: &[],
            };
        }
        let (front, end) = self.sizes_around(first, count);
        let text = self.origin.text();
        Parts {
            front: &text[..front],
            from: first,
            count,
            end: &text[text.len() - end..],
        }
    }

    // How many bytes the lines have that stand before some lines, and those that stand after them.
    fn sizes_around(&self, from: usize, count: usize) -> (usize, usize)
        requires in_range { from + count ≤ length self.now }
        ensures before { result.0 ≡ size_of (take from self.now) }
        ensures after { result.1 ≡ size_of (drop (from + count) self.now) }
    {
        let behind = self.len() - from - count;
        let between = self.bytes_between(from, count);
        if from < behind {
            let before = self.bytes_between(0, from);
            (before, self.size - between - before)
        } else {
            let after = self.bytes_between(from + count, behind);
            (self.size - between - after, after)
        }
    }

    // How many bytes some lines have: as many lines as `count` says, from an index on.
    fn bytes_between(&self, from: usize, count: usize) -> usize
        requires in_range { from + count ≤ length self.now }
        ensures bytes { result ≡ size_of (lines_between from count self.now) }
    {
        let _size = self.size(); // its contract says that the text is within the limit
        let mut bytes = 0;
        let mut lines = self.lines_from(from);
        'lines: for at in 0..count {
            let Some(line) = lines.next() else {
                unreachable!()
            };
            bytes += line.bytes().len();
        }
        bytes
    }
}
