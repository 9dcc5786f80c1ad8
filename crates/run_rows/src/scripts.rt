//! Scripts, the lines of edits, and what is wrong with lines that are no commands.

use crate::sessions::edit_of;
use mk_lines::Fault;
use mk_script::spelling::are_alike;
use mk_script::{LineError, ScriptFault, line_of_edit, mistake_at, nearest_at, parse_script};
use mk_session::Edit;
use test_support::Case;
use test_support::text::number;

/// How many steps a script has, or the text of its fault.
pub fn steps_of(case: &Case<'_>, script: &[u8]) -> Result<Vec<u8>, Fault> {
    match parse_script(case.heap, script) {
        Ok(steps) => Ok(steps.len().to_string(case.alloc)?.into_bytes()),
        Err(ScriptFault::NoMemory) => Err(Fault::NoMemory),
        Err(fault) => Ok(fault.to_string(case.alloc)?.into_bytes()),
    }
}

/// The line of the edit of a line.
pub fn written(case: &Case<'_>, line: &[u8]) -> Result<Vec<u8>, Fault> {
    line_of(case, &edit_of(case.alloc, line)?)
}

/// The line of the edit that gives `X` a value.
pub fn written_value(case: &Case<'_>, value: &[u8]) -> Result<Vec<u8>, Fault> {
    line_of(case, &Edit::set(case.alloc, b"X", value)?)
}

/// The line of an edit, or the text of its error.
fn line_of(case: &Case<'_>, edit: &Edit) -> Result<Vec<u8>, Fault> {
    match line_of_edit(case.heap, edit) {
        Ok(line) => Ok(Vec::from_slice(case.alloc, line.as_slice())?),
        Err(LineError::NoMemory) => Err(Fault::NoMemory),
        Err(error) => Ok(error.to_string(case.alloc)?.into_bytes()),
    }
}

/// What is wrong with the line of a number of a script, and the word of a command that is spelled like its
/// first word.
pub fn mistake(case: &Case<'_>, script: &[u8], line: &[u8]) -> Result<Vec<u8>, Fault> {
    let mistake = mistake_at(script, number(line));
    let nearest = nearest_at(script, number(line), 1);
    Ok(format!(in case.alloc; "{mistake:?}, {nearest:?}")?.into_bytes())
}

/// Whether a word is spelled like another one, and the other like it.
pub fn alike(case: &Case<'_>, one: &[u8], other: &[u8]) -> Result<Vec<u8>, Fault> {
    let (there, back) = (are_alike(one, other), are_alike(other, one));
    Ok(format!(in case.alloc; "{there}, {back}")?.into_bytes())
}
