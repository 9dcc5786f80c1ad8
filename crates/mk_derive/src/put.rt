//! A script that goes out.
ghost use Rattle.std.specs.Prelude.{◌≡◌, List, ℕ, Err, OnOk, false};
ghost use Rattle.std.specs.Io.KnownBytes.{Appends};
ghost use Rattle.mk_search.specs.declared.fault.DeriveError.{DeriveError};
ghost use Rattle.mk_derive.specs.Derived.{Makes};

use crate::derived::derive;
use mk_lines::sink::write_all;
use mk_lines::{ByteSink, Fault};
use mk_search::DeriveError;
use std::alloc::Global;

/// Why no script went out.
#[derive(Clone, Copy, Debug, PartialEq, Eq)]
pub enum NotPut {
    /// There is none.
    NoScript(DeriveError),
    /// It could not be written.
    Unwritten(Fault),
}

/// Puts out a script that makes one text of another, and flushes it. Where there is none, nothing goes out.
///
/// # Errors
///
/// [`NotPut::NoScript`] as [`derive`] says, and [`NotPut::Unwritten`] if the sink failed.
pub fn put_derived<W: ByteSink>(
    alloc: Global,
    old: &[u8],
    new: &[u8],
    out: &mut W,
) -> Result<(), NotPut>
    requires { W.failed out.old ≡ false }
    ensures made { OnOk result ((script : List ℕ) × Makes script old.now new.now
        × Appends (W.contents out.old) (W.contents out.new) script) }
    ensures nothing { (error : DeriveError) → result ≡ Err (NotPut.NoScript error)
        → out.new ≡ out.old }
{
    let script = match derive(alloc, old, new) {
        Ok(script) => script,
        Err(error) => return Err(NotPut::NoScript(error)),
    };
    match put_out(out, script.as_slice()) {
        Ok(()) => Ok(()),
        Err(fault) => Err(NotPut::Unwritten(fault)),
    }
}

// Puts out a text, and flushes it.
fn put_out<W: ByteSink>(out: &mut W, text: &[u8]) -> Result<(), Fault>
    requires { W.failed out.old ≡ false }
    ensures { OnOk result (Appends (W.contents out.old) (W.contents out.new) text.now) }
{
    write_all(out, text)?;
    out.flush()
}
