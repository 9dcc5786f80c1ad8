//! The lines of a text that are still to be read.
ghost use Rattle.std.specs.Prelude.{◌≡◌, ◌+◌, ◌-◌, ◌^◌, ◌<◌, ◌≤◌, ◌∷◌, [], false, IfErr, IfOk, MatchOption, OnOk, length, min};
ghost use Rattle.std.specs.Rc.{rc_slice_items};
ghost use Rattle.mk_lines.specs.Limits.{max_text};
ghost use Rattle.mk_lines.specs.LogicalLines.{logical_lines};
ghost use Rattle.mk_class.specs.Contexts.{start};
ghost use Rattle.mk_tree.specs.Faults.{IsReadingFault};
ghost use Rattle.mk_tree.specs.Trees.{line_view};
ghost use Rattle.mk_tree.specs.Unread.{AreReadFrom, AreTooDeep};

use crate::end::{DocEnd, sets_prefix_unread};
use crate::line_bytes::LineBytes;
use crate::plain::{clean_up_to, first_line};
use crate::read::read_line;
use crate::tree::Line;
use mk_class::{Context, Meter};
use mk_lines::Fault;
use mk_lines::split::Span;
use std::alloc::Allocator;
use std::marker::Model;
use std::rc::RcSlice;

/// The lines of a text from some line on, each read in the context of the lines before it.
/// Contracts see the lines, the context of the first line, and whether a line before it sets the
/// recipe prefix in a way that is not read.
///
/// A line is cut from the text when it is read. A list of all lines would take 16 bytes for each
/// line, beside the text and the lines that were read.
#[derive(Drop)]
pub(crate) struct Unread<'a, A: Allocator> {
    alloc: A,
    text: &'a RcSlice<u8, A>,
    // how many bytes of the text are read
    at: usize,
    // from there up to this offset the text has no NUL and no carriage return
    clean: usize,
    // what the lines that were read leave
    end: DocEnd,
}

impl<'a, A: Allocator> Model for Unread<'a, A> {
    ghost use Rattle.std.specs.Prelude.{drop};
    ghost use Rattle.std.specs.Rc.{rc_slice_items};
    ghost use Rattle.mk_lines.specs.LogicalLines.{logical_lines};
    ghost use Rattle.mk_tree.specs.Unread.{AreUnread, UnreadLines};

    ghost Value = { UnreadLines };

    ghost view = { λ u. record {
      context = u.end.context;
      has_unread_prefix = u.end.has_unread_prefix;
      lines = logical_lines (drop u.at (rc_slice_items u.text.now));
    } };

    ghost invariant = { λ u. AreUnread (rc_slice_items u.text.now) u.at u.clean u.end.context };
}

impl<'a, A: Allocator + Copy> Unread<'a, A> {
    /// All lines of a text.
    pub(crate) fn new(alloc: A, text: &'a RcSlice<u8, A>) -> Unread<'a, A>
        requires { length (rc_slice_items text.now) ≤ max_text }
        ensures { result ≡ record {
          context = start;
          has_unread_prefix = false;
          lines = logical_lines (rc_slice_items text.now);
        } }
    {
        Unread {
            alloc,
            text,
            at: 0,
            clean: 0,
            end: DocEnd {
                context: Context::start(),
                has_unread_prefix: false,
            },
        }
    }

    /// What the lines that were read leave. After the last line, this is where the text ends.
    pub(crate) fn end(&self) -> DocEnd
        ensures { result ≡ record {
          context = self.now.context;
          has_unread_prefix = self.now.has_unread_prefix;
        } }
    {
        self.end
    }

    /// Reads the first line, or answers `None` if no line is left. The call adds one to the meter
    /// for a line; if it answers a fault before the line has its class, it adds nothing.
    pub(crate) fn read_next(&mut self, meter: &mut Meter) -> Result<Option<Line<A>>, Fault>
        ensures read { IfOk result (λ found.
            MatchOption found ((self.new ≡ self.old) × (self.old.lines ≡ [])) (λ line.
            AreReadFrom self.old (line_view line ∷ []) self.new)) }
        ensures fault { IfErr result (λ fault. IsReadingFault (AreTooDeep self.old) fault) }
        ensures counted { IfOk result (λ found.
            MatchOption found (meter.new ≡ meter.old) (λ _.
            meter.new ≡ min (meter.old + 1) (2 ^ 64 - 1))) }
        ensures forward { meter.old ≤ meter.new }
        ensures few_read { meter.new + length self.new.lines ≤ meter.old + length self.old.lines }
    {
        let text = self.text.as_slice();
        let Some(first) = first_line(&text[self.at..]) else {
            return Ok(None);
        };
        let start = self.at;
        let end = start + first.length;
        let clean = clean_up_to(text, self.clean, start, end);
        self.clean = clean;
        self.at = end;
        let is_plain = first.is_physical && end <= clean;
        let bytes = LineBytes::of_text(self.text, Span { start, end })?;
        let (line, class, after) = read_line(self.alloc, bytes, is_plain, self.end.context, meter)?;
        self.end.context = after;
        self.end.has_unread_prefix |= sets_prefix_unread(&line, &class);
        Ok(Some(line))
    }
}
