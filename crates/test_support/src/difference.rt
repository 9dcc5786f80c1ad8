//! What a row is answered in another way than it expects.
ghost use Rattle.std.specs.Prelude.{◌≡◌, IfOk, Ok};

use crate::text::escape;
use mk_lines::Fault;
use std::alloc::{AllocError, AllocFailed, Global};

/// One answer that is another than the expected one.
#[derive(Drop)]
pub struct Difference {
    /// What was compared.
    pub what: &'static str,
    /// What was expected, with escapes.
    pub expected: String,
    /// What came, with escapes.
    pub found: String,
}

/// Why a row ended early.
#[derive(Drop)]
pub enum Stop {
    /// An answer was another than the expected one.
    Differs(Difference),
    /// The row is none of its table, or a growth was refused.
    Failed(anyhow::Error),
}

impl From<AllocError> for Stop {
    fn from(error: AllocError) -> Stop {
        Stop::Failed(anyhow::Error::from(error))
    }
}

impl<T: Drop> From<AllocFailed<T>> for Stop {
    fn from(error: AllocFailed<T>) -> Stop {
        Stop::from(AllocError::from(error))
    }
}

impl From<anyhow::Error> for Stop {
    fn from(error: anyhow::Error) -> Stop {
        Stop::Failed(error)
    }
}

/// What came without a fault. A fault is a difference.
pub fn no_fault<T>(alloc: Global, what: &'static str, answer: Result<T, Fault>) -> Result<T, Stop>
    ensures { IfOk result (λ value. answer ≡ Ok value) }
{
    match answer {
        Ok(value) => Ok(value),
        Err(fault) => Err(Stop::Differs(Difference {
            what,
            expected: String::from_str(alloc, "no fault")?,
            found: format!(in alloc; "{fault}")?,
        })),
    }
}

/// Fails if two texts are not the same.
pub fn same_text(
    alloc: Global,
    what: &'static str,
    expected: &[u8],
    found: &[u8],
) -> Result<(), Stop> {
    if expected == found {
        return Ok(());
    }
    Err(Stop::Differs(Difference {
        what,
        expected: escape(alloc, expected)?,
        found: escape(alloc, found)?,
    }))
}

/// Fails if two words are not the same.
pub fn same_word(
    alloc: Global,
    what: &'static str,
    expected: &str,
    found: &str,
) -> Result<(), Stop> {
    same_text(alloc, what, expected.as_bytes(), found.as_bytes())
}

/// Fails if two numbers are not the same.
pub fn same_number(
    alloc: Global,
    what: &'static str,
    expected: u64,
    found: u64,
) -> Result<(), Stop> {
    if expected == found {
        return Ok(());
    }
    Err(Stop::Differs(Difference {
        what,
        expected: expected.to_string(alloc)?,
        found: found.to_string(alloc)?,
    }))
}

/// Fails if a number is above a limit. No limit, none is too high.
pub fn at_most(
    alloc: Global,
    what: &'static str,
    limit: Option<u64>,
    found: u64,
) -> Result<(), Stop> {
    match limit {
        Some(limit) if found > limit => Err(Stop::Differs(Difference {
            what,
            expected: format!(in alloc; "at most {limit}")?,
            found: format!(in alloc; "{found}")?,
        })),
        _ => Ok(()),
    }
}

/// Fails if something does not hold.
pub fn holds(alloc: Global, what: &'static str, is_so: bool) -> Result<(), Stop> {
    let found = if is_so { "so" } else { "not so" };
    same_word(alloc, what, "so", found)
}
