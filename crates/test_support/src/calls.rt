//! Rows of calls. The calls that allocate are made with each of their growths refused in turn, and those
//! that write with each of their writes failing in turn.
ghost use Rattle.std.specs.Prelude.{◌≡◌, false};

use crate::difference::{Stop, holds, same_text, same_word};
use crate::sinks::MemorySink;
use crate::text::{unescape, unescape_all};
use crate::watched::Watched;
use anyhow::bail;
use mk_lines::Fault;
use std::alloc::Global;

/// Memory whose growths are counted and refused.
pub type Heap = Watched<Global>;

/// A call on the texts of a row.
#[derive(Clone, Copy)]
pub struct Case<'a> {
    /// Memory of which no growth is refused.
    pub alloc: Global,
    /// The memory of the call.
    pub heap: &'a Heap,
    /// The name of the table, which is that of the call.
    pub table: &'a str,
    /// The texts.
    pub fields: &'a [Vec<u8>],
}

/// The calls of a program.
pub trait Calls {
    /// Makes a call that allocates from the heap of its case, and gives its answer as a text. `None` if
    /// there is no such call.
    fn answer(&self, case: &Case<'_>) -> Result<Option<Vec<u8>>, Fault>;

    /// Makes a call that writes. `false` if there is no such call.
    fn write(&self, case: &Case<'_>, out: &mut MemorySink) -> Result<bool, Fault>
        requires { out.old.is_failed ≡ false };
}

/// Runs a row. Its last columns say how the call is tried, and what it answers.
///
/// - `writes`: each write fails in turn, and takes nothing in turn. Then a front of the answer is out, and
///   the answer is a write fault.
/// - A number: each growth is refused in turn, of which there are so many. Then the answer is `no memory`.
/// - `+`: the same, with any number of growths but none.
/// - `-`: no growth is refused.
pub fn run_call<C: Calls>(
    calls: &C,
    alloc: Global,
    table: &str,
    columns: &[&str],
) -> Result<(), Stop> {
    let [fields @ .., how, expected] = columns else {
        return Err(Stop::Failed(anyhow::anyhow!("a row without its columns")));
    };
    let expected = unescape(alloc, expected)?;
    let fields = unescape_all(alloc, fields)?;
    let heap = Watched::new(alloc);
    let case = Case {
        alloc,
        heap: &heap,
        table,
        fields: &fields,
    };
    match *how {
        "writes" => try_writes(calls, &case, &expected),
        "-" => {
            let answer = shown(alloc, calls.answer(&case))?;
            same_text(alloc, "the answer", &expected, &answer)
        }
        growths => try_growths(calls, &case, growths, &expected),
    }
}

/// An answer, or the text of its fault.
fn shown(alloc: Global, answer: Result<Option<Vec<u8>>, Fault>) -> Result<Vec<u8>, Stop> {
    match answer {
        Ok(Some(text)) => Ok(text),
        Ok(None) => Err(Stop::Failed(anyhow::anyhow!("no such call"))),
        Err(fault) => Ok(format!(in alloc; "{fault}")?.into_bytes()),
    }
}

/// Makes a call with each growth refused in turn.
fn try_growths<C: Calls>(
    calls: &C,
    case: &Case<'_>,
    growths: &str,
    expected: &[u8],
) -> Result<(), Stop> {
    for admitted in 0..1_000u64 {
        case.heap.refuse_one_after(admitted);
        let answer = shown(case.alloc, calls.answer(case))?;
        if !case.heap.has_refused() {
            same_text(case.alloc, "the answer", expected, &answer)?;
            return check_growths(case.alloc, growths, admitted);
        }
        let what = "the answer if a growth is refused";
        same_text(case.alloc, what, b"no memory", &answer)?;
    }
    holds(case.alloc, "a growth is not refused", false)
}

/// Fails if a call has another number of growths than its row says.
fn check_growths(alloc: Global, growths: &str, found: u64) -> Result<(), Stop> {
    if growths == "+" {
        return holds(alloc, "the call has growths", found > 0);
    }
    let found = found.to_string(alloc)?;
    same_word(alloc, "the number of growths", growths, found.as_str())
}

/// Makes a call over a sink that fails at each write in turn.
fn try_writes<C: Calls>(calls: &C, case: &Case<'_>, expected: &[u8]) -> Result<(), Stop> {
    let end = expected.len() + 1;
    for passed in 0..end {
        let call = Some(passed as u64 + 1);
        let failing = MemorySink::new(Vec::new(case.alloc), 1).failing_at(call);
        try_write(calls, case, expected, passed, failing)?;
        let taking_nothing = MemorySink::new(Vec::new(case.alloc), 1).taking_nothing_at(call);
        try_write(calls, case, expected, passed, taking_nothing)?;
    }
    Ok(())
}

/// Makes a call over a sink to which so many bytes of its text may go, one in a write.
fn try_write<C: Calls>(
    calls: &C,
    case: &Case<'_>,
    expected: &[u8],
    passed: usize,
    mut out: MemorySink,
) -> Result<(), Stop>
    requires { out.is_failed ≡ false }
{
    let answer = match calls.write(case, &mut out) {
        Ok(true) => "ok",
        Ok(false) => "no such call",
        Err(_) => "write fault",
    };
    let wanted = if passed == expected.len() {
        "ok"
    } else {
        "write fault"
    };
    same_word(case.alloc, "the answer", wanted, answer)?;
    let front = &expected[..passed.min(expected.len())];
    same_text(case.alloc, "the bytes that are out", front, out.bytes())?;
    holds(case.alloc, "nothing is flushed", out.flushes() == 0)
}
