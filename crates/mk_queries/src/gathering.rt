//! Several texts that are held back on their way to a sink.
ghost use Rattle.std.specs.Prelude.{◌≡◌, false};
ghost use Rattle.mk_lines.specs.Device.{text_of_parts};
ghost use Rattle.mk_tree.specs.Printing.{Gathers};

use mk_lines::Fault;
use mk_lines::sink::ByteSink;
use mk_tree::gathering::{Gathered, put};

/// Puts some texts behind those that are held back, one after the other.
///
/// # Errors
///
/// The errors of [`put`].
pub(crate) fn put_parts<W: ByteSink>(
    gathered: &mut Gathered,
    out: &mut W,
    parts: &[&[u8]],
) -> Result<(), Fault>
    requires { W.failed out.old ≡ false }
    ensures { Gathers W.contents W.failed W.flushes out.old out.new gathered.old.items
        gathered.new.items result (text_of_parts parts.now) }
{
    for part in parts {
        put(gathered, out, part)?;
    }
    Ok(())
}
