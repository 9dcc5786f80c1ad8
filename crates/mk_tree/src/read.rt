//! Lines as they are read: with their class and their cells.
ghost use Rattle.std.specs.Prelude.{◌≡◌, ◌+◌, ◌-◌, ◌^◌, ◌<◌, ◌≤◌, [], ◌∷◌, true, IfErr, IfOk, OnOk, min};
ghost use Rattle.mk_lines.specs.Limits.{max_text};
ghost use Rattle.mk_lines.specs.LogicalLines.{logical_lines};
ghost use Rattle.mk_lines.specs.Cells.{joined_byte};
ghost use Rattle.mk_class.specs.Contexts.{max_conditionals};
ghost use Rattle.mk_class.specs.Classes.Class.{If};
ghost use Rattle.mk_class.specs.ClassTable.{class_of};
ghost use Rattle.mk_class.specs.LocatedClasses.{located_class};
ghost use Rattle.mk_class.specs.LineReads.{IsLineRead, IsPlain, OpensTooDeep};
ghost use Rattle.mk_tree.specs.Faults.{IsReadingFault};
ghost use Rattle.mk_tree.specs.Trees.{line_view};

use crate::content::Content;
use crate::line_bytes::LineBytes;
use crate::tree::Line;
use mk_class::{Class, Context, Meter, class_of_plain_line, class_with_cells};
use mk_lines::Fault;
use mk_lines::cells::cells;
use std::alloc::Allocator;

impl<A: Allocator + Copy> Line<A> {
    /// One logical line, with its class in a context and its cells. The call adds one to the meter;
    /// if it answers a fault before the line has its class, it adds nothing.
    ///
    /// `bytes` are one logical line: [`split`](mk_lines::split::split) of it gives one span.
    ///
    /// # Errors
    ///
    /// - [`Fault::TooDeep`] if the line opens a conditional and 256 are open.
    /// - [`Fault::NoMemory`] if a growth was refused.
    pub fn read(
        alloc: A,
        bytes: Vec<u8, A>,
        context: Context,
        meter: &mut Meter,
    ) -> Result<Line<A>, Fault>
        requires line { logical_lines bytes.items ≡ bytes.items ∷ [] }
        requires defines { context.defines < max_text }
        ensures line { IfOk result (λ line. line_view line
            ≡ record {
              bytes = bytes.items;
              class = located_class joined_byte (class_of context bytes.items);
            }) }
        ensures shallow { IfOk result (λ _.
            class_of context bytes.items ≡ If → context.conditionals < max_conditionals) }
        ensures fault { IfErr result (λ fault.
            IsReadingFault (OpensTooDeep context bytes.items) fault) }
        ensures counted { OnOk result (meter.new ≡ min (meter.old + 1) (2 ^ 64 - 1)) }
        ensures forward { meter.old ≤ meter.new }
        ensures once { meter.new ≤ meter.old + 1 }
    {
        let cells = cells(alloc, &bytes)?;
        let (class, _) = class_with_cells(&bytes, &cells, context, meter)?;
        let bytes = LineBytes::new(bytes)?;
        Ok(Line::new(alloc, Content::new(alloc, bytes, cells, class)?)?)
    }
}

/// One logical line, as [`Line::read`] gives it, its class, and the context after it. A line that is
/// known to be plain, with neither folds nor a stray byte, is not searched for them.
pub(crate) fn read_line<A: Allocator + Copy>(
    alloc: A,
    bytes: LineBytes<A>,
    is_plain: bool,
    context: Context,
    meter: &mut Meter,
) -> Result<(Line<A>, Class, Context), Fault>
    requires line { logical_lines bytes ≡ bytes ∷ [] }
    requires defines { context.defines < max_text }
    requires plain { is_plain ≡ true → IsPlain bytes }
    ensures bytes { IfOk result (λ r. (line_view r.0).bytes ≡ bytes) }
    ensures class { IfOk result (λ r. r.1 ≡ (line_view r.0).class) }
    ensures read { IfOk result (λ r. IsLineRead context bytes (line_view r.0).class r.2) }
    ensures fault { IfErr result (λ fault. IsReadingFault (OpensTooDeep context bytes) fault) }
    ensures counted { OnOk result (meter.new ≡ min (meter.old + 1) (2 ^ 64 - 1)) }
    ensures forward { meter.old ≤ meter.new }
    ensures once { meter.new ≤ meter.old + 1 }
{
    if is_plain {
        return read_plain_line(alloc, bytes, context, meter);
    }
    let cells = cells(alloc, bytes.as_slice())?;
    let (class, after) = class_with_cells(bytes.as_slice(), &cells, context, meter)?;
    let line = Line::new(alloc, Content::new(alloc, bytes, cells, class)?)?;
    Ok((line, class, after))
}

// One plain line, as [`read_line`] gives it. No cells are made for it.
fn read_plain_line<A: Allocator + Copy>(
    alloc: A,
    bytes: LineBytes<A>,
    context: Context,
    meter: &mut Meter,
) -> Result<(Line<A>, Class, Context), Fault>
    requires line { logical_lines bytes ≡ bytes ∷ [] }
    requires defines { context.defines < max_text }
    requires plain { IsPlain bytes }
    ensures bytes { IfOk result (λ r. (line_view r.0).bytes ≡ bytes) }
    ensures class { IfOk result (λ r. r.1 ≡ (line_view r.0).class) }
    ensures read { IfOk result (λ r. IsLineRead context bytes (line_view r.0).class r.2) }
    ensures fault { IfErr result (λ fault. IsReadingFault (OpensTooDeep context bytes) fault) }
    ensures counted { OnOk result (meter.new ≡ min (meter.old + 1) (2 ^ 64 - 1)) }
    ensures forward { meter.old ≤ meter.new }
    ensures once { meter.new ≤ meter.old + 1 }
{
    let (class, after) = class_of_plain_line(bytes.as_slice(), context, meter)?;
    let line = Line::new(alloc, Content::plain(alloc, bytes, class)?)?;
    Ok((line, class, after))
}
