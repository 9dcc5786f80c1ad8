//! What is said at a terminal, as sentences.

use crate::line_length;
use crate::not_done::NotDone;
use mk_cli::{ScriptMistake, explanation, script_mistake};
use mk_escape::TextSink;
use mk_run::write_refusal;
use mk_script::MistakeCause;
use mk_session::Refusal;
use std::alloc::{AllocError, Global};

/// What is said where no memory is left to say more.
pub const NO_MEMORY: &str = "There is no memory for this.\n";

/// What is said of a command that was done and has changed no byte.
pub const AS_IT_WAS: &[u8] = b"Done; the text is as it was.\n";

/// What is said of a line that is too long.
pub const TOO_LONG: &[u8] = b"This line is too long.\n";

// Puts the first sentence of a text behind a line, with blanks for its line ends. A full stop ends it
// which a blank or a line end follows.
fn push_sentence(line: &mut Vec<u8>, text: &[u8]) -> Result<(), AllocError> {
    let mut is_stop = false;
    for byte in text {
        let is_blank = matches!(*byte, b' ' | b'\n');
        if is_stop && is_blank {
            break;
        }
        is_stop = *byte == b'.';
        if line.push(if is_blank { b' ' } else { *byte }).is_err() {
            return Err(AllocError);
        }
    }
    line.extend_from_slice(b"\n")
}

// Why a refusal comes, in one line: what a report says of it, and the first sentence of its explanation.
fn refusal_sentence(alloc: Global, refusal: Refusal) -> Result<Vec<u8>, AllocError> {
    let mut report = TextSink::new(alloc);
    if write_refusal(&mut report, refusal).is_err() {
        return Err(AllocError);
    }
    let mut line = report.text;
    line.pop();
    line.extend_from_slice(b": ")?;
    push_sentence(&mut line, explanation(&refusal).as_bytes())?;
    Ok(line)
}

// What is said of the makefile, behind its name, where a request is not done; or of the request alone.
fn said_of(not_done: NotDone) -> &'static str {
    match not_done {
        NotDone::Refused(_) => "",
        NotDone::NotACommand => "This is no command and no request; `help` lists them.\n",
        NotDone::NoMemory => NO_MEMORY,
        NotDone::NoRefusal => "No refusal has this name or this number.\n",
        NotDone::NoCommand => "No command of a script has this word.\n",
        NotDone::CannotRead => " cannot be read, and is not written.\n",
        NotDone::CannotWrite => " cannot be written.\n",
        NotDone::HasChanged => " has changed since, and is not written; `write!` writes it.\n",
        NotDone::BeyondDepth => "All is undone that can be; the text is another than at first.\n",
        NotDone::Unwritten => {
            "There are unwritten changes: `write` writes them, and `quit` once more drops them.\n"
        }
    }
}

/// Why a request is not done, as a sentence. A makefile is shown by this name.
///
/// # Errors
///
/// Want of memory.
pub fn sentence(alloc: Global, not_done: NotDone, name: &[u8]) -> Result<Vec<u8>, AllocError> {
    if let NotDone::Refused(refusal) = not_done {
        return refusal_sentence(alloc, refusal);
    }
    let mut said = Vec::new(alloc);
    if matches!(
        not_done,
        NotDone::CannotRead | NotDone::CannotWrite | NotDone::HasChanged
    ) {
        said.extend_from_slice(name)?;
    }
    said.extend_from_slice(said_of(not_done).as_bytes())?;
    Ok(said)
}

// Whether it is told what is wrong with a line. It is not where its first word is like that of no command.
fn is_told(found: &ScriptMistake<'_>) -> bool {
    !matches!(found.mistake.cause, MistakeCause::UnknownCommand) || found.nearest.is_some()
}

/// What is wrong with a text that is no command, as the notes on a script say it. It is empty where the
/// first word of the text is like that of no command.
///
/// # Errors
///
/// Want of memory.
pub fn mistake_sentence(alloc: Global, text: &[u8]) -> Result<String, AllocError> {
    match script_mistake("", text, 1) {
        Some(found) if is_told(&found) => {
            let column = found.mistake.column;
            format!(in alloc; "Column {column}: {found}\n")
        }
        _ => Ok(String::new(alloc)),
    }
}

// Whether a line of a diff says what was taken out or put in. That a line has no line feed is said below
// it, in a line that counts if the line above does.
fn is_change(line: &[u8], is_above: bool) -> bool {
    match line.first() {
        Some(b'-' | b'+') => true,
        Some(b'\\') => is_above,
        _ => false,
    }
}

/// The lines of a diff that were taken out and put in, without its context and its names. `shown` is the
/// diff as it is shown, in colours or not: it has the lines of the diff one by one, and gives those that
/// are said.
///
/// # Errors
///
/// Want of memory.
pub fn changed_lines(alloc: Global, diff: &[u8], shown: &[u8]) -> Result<Vec<u8>, AllocError> {
    let mut changes = Vec::new(alloc);
    let (mut rest, mut shown_rest) = (diff, shown);
    let mut names = 2;
    let mut is_above = false;
    'lines: while !rest.is_empty() && !shown_rest.is_empty() {
        let (line, after) = rest.split_at(line_length(rest));
        let (shown_line, shown_after) = shown_rest.split_at(line_length(shown_rest));
        if names > 0 {
            names -= 1;
        } else {
            is_above = is_change(line, is_above);
            if is_above {
                changes.extend_from_slice(shown_line)?;
            }
        }
        rest = after;
        shown_rest = shown_after;
    }
    Ok(changes)
}
