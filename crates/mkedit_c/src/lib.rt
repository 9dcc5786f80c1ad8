//! mkedit for C: functions over bytes and numbers, which `include/mkedit.h` declares and explains.
//!
//! The caller owns every byte that a call reads or writes, and nothing outlives a call: what a call takes
//! for its work it gives up before it returns, and it keeps no state. So nothing is to be freed, and calls
//! in several threads have no part in each other. A slice is a pointer and a length for C. `Global` is
//! nothing at all: it stands for the program's `malloc`.
//!
//! - `answer`: the numbers that a call answers.
//! - `buffer`: a text that goes into a buffer of the caller.
//! - `texts`: runs, diffs and lists over texts in memory.
#![tactic(auto)]

ghost use Rattle.std.specs.Prelude.{◌≡◌, ◌≢◌, ◌≤◌, ◌<◌, List, length};
ghost use Rattle.mk_lines.specs.Limits.{max_text};
ghost use Rattle.mk_lines.specs.PhysicalLines.{physical_lines};
ghost use Rattle.mk_diff.specs.Hunks.{Hunk, IsDiff};
ghost use Rattle.mk_diff.specs.HunkTexts.{diff_text};
ghost use Rattle.mk_tree.specs.Documents.{IsTooDeep};
ghost use Rattle.mkedit_c.specs.Answers.{Answers, IsPut};

mod answer;
mod buffer;
mod texts;

use answer::{
    BAD_DEPTH, DONE, NO_MEMORY, NO_ROOM, NO_SUCH_LIST, NOT_A_COMMAND, REFUSED, TOO_DEEP, TOO_LONG,
    number,
};
use buffer::{is_long, put};
use mk_lines::Fault;
use mk_run::Outcome;
use std::alloc::Global;
use texts::{diff_texts, list, list_of, run_texts};

/// What a run tells besides its answer.
#[repr(C)]
#[derive(Drop)]
pub struct Told {
    /// How many bytes the text has; 0 if none goes out.
    pub text: usize,
    /// How many bytes the report has.
    pub report: usize,
    /// The number of the script's line, from 1, that is no command; 0 if there is none.
    pub line: u64,
}

// The version: 10,000 times its first number, and 100 times its second, and its third.
const VERSION: u32 = 100;

/// The version of the library, as a number: 100 is 0.1.0, and 10203 would be 1.2.3.
#[unsafe(no_mangle)]
pub extern "C" fn mkedit_version() -> u32
    ensures { result ≡ VERSION }
{
    VERSION
}

/// Runs a script over a makefile, as [`mk_run::run`] does. The first refusal ends the run.
///
/// If every command is done, the text stands at the front of `out`, and the answer is 0. If one is
/// refused, the line on it stands at the front of `report`, and the answer is 1. Otherwise neither is
/// written. If it has too few bytes, the answer is 7, and `told` has how many it needs. A text or a script
/// past the limit is too long before anything else is looked at.
#[unsafe(no_mangle)]
#[tactic(auto, using(crate::proofs::AnswerLemmas::answer_rules))]
pub extern "C" fn mkedit_run_into(
    alloc: Global,
    text: &[u8],
    script: &[u8],
    depth: u32,
    out: &mut [u8],
    report: &mut [u8],
    told: &mut Told,
) -> u32
    // Unless memory or room ends, the answer, the text and the report are those of the run.
    ensures run { result < 6 → length text.now ≤ max_text → length script.now ≤ max_text
        → Answers text.now script.now depth result told.new out.old out.new report.old report.new }
    ensures long_text { max_text < length text.now → result ≡ 4 }
    ensures long_script { max_text < length script.now → result ≡ 4 }
    ensures out { result ≢ 0 → out.new ≡ out.old }
    ensures report { result ≢ 1 → report.new ≡ report.old }
{
    *told = Told {
        text: 0,
        report: 0,
        line: 0,
    };
    if is_long(text) || is_long(script) {
        return TOO_LONG;
    }
    let ran = run_texts(alloc, text, script, depth);
    match ran.outcome {
        Outcome::Done => {
            told.text = ran.text.len();
            if put(out, &ran.text) { DONE } else { NO_ROOM }
        }
        Outcome::Refused(_) => {
            told.report = ran.report.len();
            if put(report, &ran.report) {
                REFUSED
            } else {
                NO_ROOM
            }
        }
        Outcome::NotACommand(line) => {
            told.line = line;
            NOT_A_COMMAND
        }
        Outcome::BadDepth => BAD_DEPTH,
        Outcome::TooLong => TOO_LONG,
        Outcome::TooDeep => TOO_DEEP,
        Outcome::Read | Outcome::Write | Outcome::NoMemory => NO_MEMORY,
    }
}

/// The unified diff of two texts, under the name of a file, at the front of `out`. `size` is how many
/// bytes it has, also if `out` has too few. Nothing is written unless the answer is 0.
#[unsafe(no_mangle)]
pub extern "C" fn mkedit_diff_into(
    alloc: Global,
    old: &[u8],
    new: &[u8],
    name: &[u8],
    out: &mut [u8],
    size: &mut usize,
) -> u32
    ensures diff { result ≡ 0 → (hunks : List Hunk)
        × IsDiff (physical_lines old.now) (physical_lines new.now) hunks
        × IsPut out.old out.new (diff_text name.now hunks)
        × (size.new ≡ length (diff_text name.now hunks)) }
    ensures long_old { max_text < length old.now → result ≡ 4 }
    ensures long_new { max_text < length new.now → result ≡ 4 }
    ensures out { result ≢ 0 → out.new ≡ out.old }
{
    *size = 0;
    if is_long(old) || is_long(new) || is_long(name) {
        return TOO_LONG;
    }
    let Ok(diff) = diff_texts(alloc, old, new, name) else {
        return NO_MEMORY;
    };
    *size = diff.len();
    if put(out, &diff) { DONE } else { NO_ROOM }
}

/// What a makefile has, as lines of JSON, at the front of `out`: its assignments (0), its rules (1), its
/// recipe lines (2), or the lines that are not read inside (3). The objects call it by the name of a file.
/// `size` is how many bytes they have, also if `out` has too few. Nothing is written unless the answer is 0.
#[unsafe(no_mangle)]
pub extern "C" fn mkedit_list_into(
    alloc: Global,
    which: u32,
    text: &[u8],
    name: &[u8],
    out: &mut [u8],
    size: &mut usize,
) -> u32
    ensures which { 4 ≤ which → result ≡ 8 }
    ensures long { which < 4 → max_text < length text.now → result ≡ 4 }
    ensures shallow { result ≡ 0 → IsTooDeep text.now → ⊥ }
    ensures deep { result ≡ 5 → IsTooDeep text.now }
    ensures out { result ≢ 0 → out.new ≡ out.old }
{
    *size = 0;
    let Some(wanted) = list_of(which) else {
        return NO_SUCH_LIST;
    };
    if is_long(text) || is_long(name) {
        return TOO_LONG;
    }
    match list(alloc, wanted, text, name) {
        Ok(lines) => {
            *size = lines.len();
            if put(out, &lines) { DONE } else { NO_ROOM }
        }
        Err(fault) => number(Outcome::from(fault)),
    }
}
