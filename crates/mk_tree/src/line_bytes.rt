//! The bytes of a line, as a part of a text.
ghost use Rattle.std.specs.Prelude.{◌≡◌, ◌^◌, ◌<◌, ◌≤◌, IfOk, IsOkUnless, length};
ghost use Rattle.std.specs.Rc.{rc_slice_items};
ghost use Rattle.mk_lines.specs.Ranges.{text_at};

use mk_lines::Fault;
use mk_lines::split::Span;
use std::alloc::{Allocator, Global};
use std::marker::Model;
use std::rc::RcSlice;

/// The bytes of a line: a part of a text. The lines that were parsed from the text own it
/// together.
///
/// So a document has one copy of its text instead of one for each line, and frees it at once. The
/// text is kept as long as one of its lines is.
#[derive(Drop)]
pub struct LineBytes<A: Allocator = Global> {
    text: RcSlice<u8, A>,
    // How many bytes of the text stand before and after the part. A document stores these two
    // numbers for each line, so they have 32 bits; for a whole text, of any length, both are 0.
    before: u32,
    after: u32,
}

impl<A: Allocator> Model for LineBytes<A> {
    ghost use Rattle.std.specs.Prelude.{ℕ, List, ◌+◌, ◌-◌, ◌≤◌, length, slice_range};
    ghost use Rattle.std.specs.Rc.{rc_slice_items};

    ghost Value = { List ℕ };

    ghost view = { λ b.
        slice_range (rc_slice_items b.text) b.before (length (rc_slice_items b.text) - b.after) };

    ghost invariant = { λ b. b.before + b.after ≤ length (rc_slice_items b.text) };
}

impl<A: Allocator> LineBytes<A> {
    /// Bytes as a text of their own. Nothing is copied.
    ///
    /// # Errors
    ///
    /// [`Fault::NoMemory`] if a growth was refused.
    pub fn new(bytes: Vec<u8, A>) -> Result<LineBytes<A>, Fault>
    where
        A: Clone,
        ensures ok { IfOk result (λ own. own ≡ bytes.items) }
        ensures fault { IsOkUnless result Fault.NoMemory }
    {
        Ok(LineBytes {
            text: RcSlice::from_vec(bytes)?,
            before: 0,
            after: 0,
        })
    }

    /// A part of a text. Nothing is copied.
    ///
    /// # Errors
    ///
    /// [`Fault::NoMemory`] if the text has as many owners as can be counted.
    pub(crate) fn of_text(text: &RcSlice<u8, A>, span: Span) -> Result<LineBytes<A>, Fault>
        requires short { length (rc_slice_items text.now) < 2 ^ 32 }
        requires order { span.start ≤ span.end }
        requires within { span.end ≤ length (rc_slice_items text.now) }
        ensures ok { IfOk result (λ bytes. bytes ≡ text_at (rc_slice_items text.now) span) }
        ensures fault { IsOkUnless result Fault.NoMemory }
    {
        Ok(LineBytes {
            text: text.clone()?,
            before: span.start as u32,
            after: (text.len() - span.end) as u32,
        })
    }

    /// The bytes. Takes no memory.
    pub fn as_slice(&self) -> &[u8]
        ensures { result.now ≡ self.now }
    {
        let text = self.text.as_slice();
        &text[self.before as usize..text.len() - self.after as usize]
    }
}
