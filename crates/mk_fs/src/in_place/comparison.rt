//! Whether two sources have the same bytes.
ghost use Rattle.std.specs.Prelude.{◌≡◌, ◌≢◌, ◌↔◌, ◌≤◌, ◌<◌, IfOk, IfSome, is_some, length, take, true, false};
ghost use Rattle.std.specs.Io.KnownBytes.{Consumes, IsAtEnd};

use mk_lines::source::BUFFER;
use mk_lines::{ByteSource, Fault};

/// Two sources were compared, and have the same bytes. [`same_bytes`] alone makes this value.
#[derive(Clone, Copy, Drop)]
pub struct SameBytes(());

// Fills the buffer from a source, and says how many bytes came. Where the buffer is not full, the
// source has no byte left.
fn fill<R: ByteSource>(source: &mut R, buffer: &mut [u8]) -> Result<usize, Fault>
    ensures bound { IfOk result (λ count. count ≤ length buffer.new) }
    ensures size { length buffer.new ≡ length buffer.old }
    ensures bytes { IfOk result (λ count.
        Consumes (R.remaining source.old) (R.remaining source.new) (take count buffer.new)) }
    ensures end { IfOk result (λ count. count < length buffer.new → IsAtEnd (R.remaining source.new)) }
{
    let mut filled = 0;
    while filled < buffer.len() {
        let count = source.read(&mut buffer[filled..])?;
        if count == 0 {
            return Ok(filled);
        }
        filled += count;
    }
    Ok(filled)
}

/// Reads two sources to their ends, or until they differ. `Some` says that their bytes are the same.
///
/// # Errors
///
/// [`Fault::Read`] where a read answered it.
pub fn same_bytes<L: ByteSource, R: ByteSource>(
    left: &mut L,
    right: &mut R,
) -> Result<Option<SameBytes>, Fault>
    ensures { IfOk result (λ same. IfSome (L.remaining left.old) (λ one. IfSome (R.remaining right.old)
        (λ other. is_some same ≡ true ↔ one ≡ other))) }
{
    let mut of_left = [0u8; BUFFER];
    let mut of_right = [0u8; BUFFER];
    for _ in 0..u64::MAX {
        let count = fill(left, &mut of_left)?;
        let other = fill(right, &mut of_right)?;
        if of_left[..count] != of_right[..other] {
            return Ok(None);
        }
        if count < BUFFER {
            return Ok(Some(SameBytes(())));
        }
    }
    Err(Fault::Read)
}
