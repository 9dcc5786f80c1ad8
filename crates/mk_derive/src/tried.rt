//! The run that tries a script.
ghost use Rattle.std.specs.Prelude.{◌≡◌, Ok, true};
ghost use Rattle.mk_derive.specs.Derived.{Makes};

use mk_escape::TextSink;
use mk_lines::StdSource;
use mk_run::{Outcome, run};
use std::alloc::{AllocError, Global};

// The depth of undo that a run has if none is given. No command of the script undoes anything.
const DEPTH: u32 = 100;

/// Whether a script makes a text of another: its run ends without a refusal, and with exactly that text.
///
/// # Errors
///
/// [`AllocError`] if a growth was refused.
pub(crate) fn makes(
    alloc: Global,
    script: &[u8],
    old: &[u8],
    new: &[u8],
) -> Result<bool, AllocError>
    ensures { result ≡ Ok true → Makes script.now old.now new.now }
{
    let mut out = TextSink::new(alloc);
    let mut report = TextSink::new(alloc);
    let outcome = run(
        alloc,
        &mut StdSource::new(old),
        &mut StdSource::new(script),
        DEPTH,
        false,
        &mut out,
        &mut report,
        &mut (),
        &mut None,
    );
    let is_made = out.text.as_slice() == new && report.text.is_empty();
    match outcome {
        Outcome::Done => Ok(is_made),
        Outcome::NoMemory | Outcome::Write => Err(AllocError),
        _ => Ok(false),
    }
}
