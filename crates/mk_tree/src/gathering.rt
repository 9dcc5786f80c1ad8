//! Texts on their way to a sink. Short texts are held back, so that they go out together in few
//! writes.
ghost use Rattle.std.specs.Prelude.{◌≡◌, false};
ghost use Rattle.mk_tree.specs.Printing.{Gathers};

use arrayvec::ArrayVec;
use mk_lines::Fault;
use mk_lines::sink::{ByteSink, write_all};

/// The bytes that are held back. They are stored in the value itself, so that no memory is taken.
pub type Gathered = ArrayVec<u8, 16_384>;

/// Puts a text behind the bytes that are held back. If there is no room for it, these go out first.
///
/// # Errors
///
/// [`Fault::Write`] if a write answered it or took no byte. A prefix of the bytes that were held
/// back, and of the text after them, is out then.
pub fn put<W: ByteSink>(gathered: &mut Gathered, out: &mut W, text: &[u8]) -> Result<(), Fault>
    requires { W.failed out.old ≡ false }
    ensures { Gathers W.contents W.failed W.flushes out.old out.new gathered.old.items
        gathered.new.items result text.now }
{
    if gathered.try_extend_from_slice(text).is_ok() {
        return Ok(());
    }
    write_all(out, gathered)?;
    gathered.clear();
    if gathered.try_extend_from_slice(text).is_ok() {
        return Ok(());
    }
    write_all(out, text)
}
