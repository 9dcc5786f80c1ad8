//! A script: its steps, from its lines.
//!
//! With the lines of its blocks a line says one thing, and what the lines say is what the steps say: so
//! no definition goes over the lines with a state. An `or` that may not stand in its line is found before its
//! edit is read, so want of memory never hides it.
ghost use Rattle.std.specs.Prelude.{◌≡◌, ◌+◌, ◌++◌, ◌∷◌, [], List, length, map, option_map, IfOk, IfErr};
ghost use Rattle.mk_script.specs.Lines.{Or};
ghost use Rattle.mk_script.specs.Scripts as scripts;
ghost use Rattle.mk_script.specs.Scripts.{IsScript, IsScriptFault, edit_at, numbered_edit, step_of};
ghost use Rattle.mk_script.specs.BlockReading.{saying};
ghost use Rattle.mk_script.specs.CommandReading.{edit_in, saying_in};
ghost use Rattle.mk_script.specs.SeenFields.{field_texts};
ghost use Rattle.mk_script.specs.ReaderAnswers.{Adds, AddsBelow, AddsLine, IsRead, Pushes};

use crate::block::fields_with_blocks;
use crate::command::{is_skipped, read_command, read_edit};
use crate::fault::LineFault;
use crate::field::Field;
use crate::lines::LinesBelow;
use crate::step::{Chain, NumberedCommand, NumberedEdit, Step};
use crate::table::{Word, front_word};
use std::alloc::Allocator;
use thiserror::Error;

/// Why a script was not read.
#[derive(Clone, Copy, Debug, PartialEq, Eq, Error)]
pub enum ScriptFault {
    /// The line of this number, from 1, is the first that is no command.
    #[error("script line {0} is not a command")]
    NotACommand(u64),
    /// A growth was refused: the allocator had no memory for a command. A later line may be no
    /// command.
    #[error("no memory")]
    NoMemory,
}

/// The steps of a script, in the order of its lines.
///
/// # Errors
///
/// - [`ScriptFault::NotACommand`] with the number of the first line that is no command, or that has
///   `or` where none may stand. A command whose block has no lines, or never ends, is none.
/// - [`ScriptFault::NoMemory`] if a growth was refused for a command. Each line before that command
///   is skipped, is a command, or is of a block.
pub fn parse_script<A: Allocator + Copy>(
    alloc: A,
    script: &[u8],
) -> Result<Vec<Step<A>, A>, ScriptFault>
    ensures steps { IfOk result (λ steps. IsScript script.now (map step_of steps.items)) }
    ensures fault { IfErr result (λ fault. IsScriptFault script.now fault) }
{
    let mut steps = Vec::new(alloc);
    let mut below = LinesBelow::new(script);
    'lines: while let Some(line) = below.next() {
        if is_skipped(line) {
            continue;
        }
        let number = below.number();
        match add_line(alloc, &mut steps, number, line, &mut below) {
            Ok(()) => {}
            Err(LineFault::NotACommand) => return Err(ScriptFault::NotACommand(number)),
            Err(LineFault::NoMemory) => return Err(ScriptFault::NoMemory),
        }
    }
    Ok(steps)
}

// Adds what a line, with the lines of its blocks below it, says to the steps of the lines above. The line is
// not skipped.
fn add_line<'a, A: Allocator + Copy>(
    alloc: A,
    steps: &mut Vec<Step<A>, A>,
    number: u64,
    line: &'a [u8],
    below: &mut LinesBelow<'a>,
) -> Result<(), LineFault>
    ensures line { AddsLine (map step_of steps.old.items) number
        (saying line.now below.old.lines) (map step_of steps.new.items) result below.new.lines }
    ensures number { below.new.number + length below.new.lines
        ≡ below.old.number + length below.old.lines }
{
    let fields = fields_with_blocks(line, below)?;
    add_fields(alloc, steps, number, fields.as_slice())
}

// Adds what some fields say to the steps.
fn add_fields<A: Allocator + Copy>(
    alloc: A,
    steps: &mut Vec<Step<A>, A>,
    number: u64,
    fields: &[Field<'_>],
) -> Result<(), LineFault>
    ensures { Adds (map step_of steps.old.items) number (saying_in (field_texts fields.now))
        (map step_of steps.new.items) result }
{
    let (word, rest) = front_word(fields)?;
    match word {
        Word::Try => {
            let edit = read_edit(alloc, rest)?;
            push(steps, Step::Try(NumberedEdit { line: number, edit }))
        }
        Word::Or => add_alternative(alloc, steps, number, rest),
        _ => {
            let command = read_command(alloc, word, rest)?;
            let numbered = NumberedCommand {
                line: number,
                command,
            };
            push(steps, Step::Alone(numbered))
        }
    }
}

// Puts the edit that follows `or` behind the last of the steps.
fn add_alternative<A: Allocator + Copy>(
    alloc: A,
    steps: &mut Vec<Step<A>, A>,
    number: u64,
    rest: &[Field<'_>],
) -> Result<(), LineFault>
    ensures { Adds (map step_of steps.old.items) number
        (option_map Or (edit_in (field_texts rest.now))) (map step_of steps.new.items) result }
{
    let Some(last) = steps.pop() else {
        return Err(LineFault::NotACommand);
    };
    let step = with_alternative(alloc, last, number, rest)?;
    push(steps, step)
}

// A step with one alternative more: the edit that follows `or`.
fn with_alternative<A: Allocator + Copy>(
    alloc: A,
    step: Step<A>,
    number: u64,
    rest: &[Field<'_>],
) -> Result<Step<A>, LineFault>
    ensures { (above : List scripts.Step) → AddsBelow step_of above (step_of step) number
        (option_map Or (edit_in (field_texts rest.now))) result }
{
    let Some((first, mut others)) = step.into_edits(alloc) else {
        return Err(LineFault::NotACommand);
    };
    push_edit(alloc, &mut others, number, rest)?;
    Ok(Step::Chain(Chain { first, others }))
}

// Puts the edit that some fields are behind others.
fn push_edit<A: Allocator + Copy>(
    alloc: A,
    edits: &mut Vec<NumberedEdit<A>, A>,
    number: u64,
    fields: &[Field<'_>],
) -> Result<(), LineFault>
    ensures { IsRead (λ done. map numbered_edit edits.new.items)
        (option_map (λ edit. map numbered_edit edits.old.items ++ edit_at number edit ∷ [])
        (edit_in (field_texts fields.now))) result }
{
    let edit = read_edit(alloc, fields)?;
    push(edits, NumberedEdit { line: number, edit })
}

// Puts a value behind others.
fn push<T: Drop, A: Allocator>(values: &mut Vec<T, A>, value: T) -> Result<(), LineFault>
    ensures { Pushes values.old.items value values.new.items result }
{
    match values.push(value) {
        Ok(()) => Ok(()),
        Err(_) => Err(LineFault::NoMemory),
    }
}
