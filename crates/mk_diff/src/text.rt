//! A text that grows at its end.
ghost use Rattle.std.specs.Prelude.{◌≡◌, ◌++◌, IfOk, IsOkUnless};

use mk_lines::Fault;
use std::alloc::Allocator;

/// Puts some bytes behind a text.
///
/// # Errors
///
/// [`Fault::NoMemory`] if the text could not grow.
pub(crate) fn put<A: Allocator>(text: &mut Vec<u8, A>, bytes: &[u8]) -> Result<(), Fault>
    ensures bytes { IfOk result (λ _. text.new.items ≡ text.old.items ++ bytes.now) }
    ensures fault { IsOkUnless result Fault.NoMemory }
{
    text.extend_from_slice(bytes)?;
    Ok(())
}
