//! The search for a script, and the run that tries it.
ghost use Rattle.std.specs.Prelude.{IfOk};
ghost use Rattle.mk_derive.specs.Derived.{Makes};

use crate::tried::makes;
use mk_lines::Fault;
use mk_search::{DeriveError, Makefile, found};
use mk_tree::Doc;
use std::alloc::Global;

/// A script that makes the new makefile of the old one, byte for byte. It was tried: its run over the old
/// makefile ends without a refusal, and with exactly the new text. The script of equal texts is empty.
///
/// # Errors
///
/// - [`DeriveError::Unread`] if a makefile is too long or too deep.
/// - [`DeriveError::NoCommand`] with the lines that no command writes.
/// - [`DeriveError::NotTried`] if the commands do not make the new makefile together.
/// - [`DeriveError::NoMemory`] if a growth was refused.
pub fn derive(alloc: Global, old: &[u8], new: &[u8]) -> Result<Vec<u8>, DeriveError>
    ensures tried { IfOk result (λ script. Makes script.items old.now new.now) }
{
    let _old = opened(alloc, old, Makefile::Old)?;
    let target = opened(alloc, new, Makefile::New)?;
    let script = found(alloc, old, &target, new)?;
    if makes(alloc, script.as_slice(), old, new)? {
        Ok(script)
    } else {
        Err(DeriveError::NotTried)
    }
}

// The document of a makefile.
fn opened(alloc: Global, text: &[u8], makefile: Makefile) -> Result<Doc, DeriveError> {
    match Doc::open(alloc, text) {
        Ok(doc) => Ok(doc),
        Err(Fault::NoMemory) => Err(DeriveError::NoMemory),
        Err(fault) => Err(DeriveError::Unread(makefile, fault)),
    }
}
