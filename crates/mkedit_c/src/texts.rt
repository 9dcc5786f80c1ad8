//! Runs, diffs and lists over texts in memory.
ghost use Rattle.std.specs.Prelude.{◌≡◌, ◌<◌, [], IfOk, IfErr, List, Some, None, ◌↔◌, ◌≤◌, length, false};
ghost use Rattle.mk_lines.specs.PhysicalLines.{physical_lines};
ghost use Rattle.mk_diff.specs.Hunks.{Hunk, IsDiff};
ghost use Rattle.mk_diff.specs.HunkTexts.{diff_text};
ghost use Rattle.mk_tree.specs.Documents.{IsFaithful, IsTooDeep};
ghost use Rattle.mk_tree.specs.Faults.{IsParsingFault};
ghost use Rattle.mk_lines.specs.Limits.{max_text};
ghost use Rattle.mk_run.specs.RunEnds.{IsWhole, written};
ghost use Rattle.mk_run.specs.Runs.{IsRun, RunResult};
ghost use Rattle.mkedit_c.specs.Answers.{number_of};

use mk_diff::diff;
use mk_escape::TextSink;
use mk_lines::{Fault, StdSource};
use mk_queries::{check_json, recipes_json, rules_json, vars_json};
use mk_run::{Outcome, run};
use mk_tree::Doc;
use std::alloc::{AllocError, Global};

/// What a run over texts in memory came to.
#[derive(Drop)]
pub(crate) struct Ran {
    /// How it ended.
    pub outcome: Outcome,
    /// The text that goes out.
    pub text: Vec<u8>,
    /// The line on a refused command.
    pub report: Vec<u8>,
}

/// Runs a script over a makefile, as [`mk_run::run`] does. The first refusal ends the run.
pub(crate) fn run_texts(alloc: Global, text: &[u8], script: &[u8], depth: u32) -> Ran
    ensures { number_of result.outcome < 6 → (run : RunResult)
        × IsRun text.now script.now depth false run
        × IsWhole run result.outcome (written (Some []) (Some result.report.items))
        (written (Some []) (Some result.text.items)) }
{
    let mut out = TextSink::new(alloc);
    let mut report = TextSink::new(alloc);
    let outcome = run(
        alloc,
        &mut StdSource::new(text),
        &mut StdSource::new(script),
        depth,
        false,
        &mut out,
        &mut report,
        &mut (),
        &mut None,
    );
    Ran {
        outcome,
        text: out.text,
        report: report.text,
    }
}

/// The unified diff of two texts, under the name of a file.
///
/// # Errors
///
/// [`Fault::NoMemory`] if there was no memory for it.
pub(crate) fn diff_texts(
    alloc: Global,
    old: &[u8],
    new: &[u8],
    name: &[u8],
) -> Result<Vec<u8>, Fault>
    ensures { IfOk result (λ text. (hunks : List Hunk)
        × IsDiff (physical_lines old.now) (physical_lines new.now) hunks
        × (text.items ≡ diff_text name.now hunks)) }
{
    diff(alloc, old, new, name)
}

/// What a makefile can be asked for.
#[derive(Clone, Copy)]
pub(crate) enum Wanted {
    /// Its assignments.
    Vars,
    /// Its rules.
    Rules,
    /// Its recipe lines.
    Recipes,
    /// The lines that are not read inside.
    Check,
}

/// The list of a number.
pub(crate) fn list_of(which: u32) -> Option<Wanted>
    ensures { (result ≡ None) ↔ (4 ≤ which) }
{
    match which {
        0 => Some(Wanted::Vars),
        1 => Some(Wanted::Rules),
        2 => Some(Wanted::Recipes),
        3 => Some(Wanted::Check),
        _ => None,
    }
}

// What a document has, as lines of JSON, in which it has the name of a file.
fn lines_of<'a>(
    alloc: Global,
    wanted: Wanted,
    name: &[u8],
    doc: &'a Doc,
) -> Result<Vec<u8>, AllocError>
    requires { IsFaithful doc.now }
{
    let all: Option<&'a [u8]> = None;
    match wanted {
        Wanted::Vars => vars_json(alloc, name, doc, None),
        Wanted::Rules => rules_json(alloc, name, doc, all),
        Wanted::Recipes => recipes_json(alloc, name, doc, all),
        Wanted::Check => check_json(alloc, name, doc),
    }
}

/// What a makefile has, as lines of JSON, in which it has the name of a file.
///
/// # Errors
///
/// Those of [`Doc::open`].
pub(crate) fn list(
    alloc: Global,
    wanted: Wanted,
    text: &[u8],
    name: &[u8],
) -> Result<Vec<u8>, Fault>
    ensures shallow { IfOk result (λ _. IsTooDeep text.now → ⊥) }
    ensures fault { IfErr result (λ fault.
        IsParsingFault (max_text < length text.now) (IsTooDeep text.now) fault) }
{
    let doc = Doc::open(alloc, text)?;
    Ok(lines_of(alloc, wanted, name, &doc)?)
}
