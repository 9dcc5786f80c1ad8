//! Where a line stands, as the queries print it.
ghost use Rattle.std.specs.Prelude.{◌≡◌, false};
ghost use Rattle.mk_tree.specs.Printing.{Gathers};
ghost use Rattle.mk_queries.specs.Texts.{position_text};

use crate::gathering::put_parts;
use crate::listing::Position;
use mk_lines::Fault;
use mk_lines::sink::ByteSink;
use mk_tree::gathering::Gathered;

/// Puts the number of a line, and how many conditionals are open there, each with a `:` behind it.
///
/// # Errors
///
/// The errors of [`put`](mk_tree::gathering::put).
pub(crate) fn put_position<W: ByteSink>(
    gathered: &mut Gathered,
    out: &mut W,
    position: Position,
) -> Result<(), Fault>
    requires { W.failed out.old ≡ false }
    ensures { Gathers W.contents W.failed W.flushes out.old out.new gathered.old.items
        gathered.new.items result (position_text position) }
{
    let mut number_digits = itoa::Buffer::new();
    let mut depth_digits = itoa::Buffer::new();
    let number = number_digits.format(position.number).as_bytes();
    let depth = depth_digits.format(position.conditionals).as_bytes();
    put_parts(gathered, out, &[number, b":", depth, b":"])
}
