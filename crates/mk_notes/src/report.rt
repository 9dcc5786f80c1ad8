//! The lines of a report in JSON that are on no command: the message on how a run ended, and what became of a
//! makefile.

use mk_cli::{COMMAND_HINT, EXCHANGED_HINT, ScriptMistake, is_command_word};
use mk_fs::SystemFault;
use mk_queries::Object;
use std::alloc::{AllocError, Global};

/// The line of JSON on a message, and on the fault and the mistake that it is about. The message is as it
/// goes out elsewhere, behind `mkedit: ` and with a line feed at its end.
///
/// # Errors
///
/// [`AllocError`] if an allocation failed.
pub fn message_in_json(
    alloc: Global,
    message: &[u8],
    fault: Option<SystemFault<'_>>,
    mistake: Option<ScriptMistake<'_>>,
) -> Result<Vec<u8>, AllocError> {
    let mut object = Object::begin(alloc, Vec::new(alloc))?;
    put_message(alloc, &mut object, message, fault, mistake)?;
    object.end()
}

// (each way out of the function that owns an object drops it, which makes a long proof of many)
fn put_message(
    alloc: Global,
    object: &mut Object<Global>,
    message: &[u8],
    fault: Option<SystemFault<'_>>,
    mistake: Option<ScriptMistake<'_>>,
) -> Result<(), AllocError> {
    object.string("kind", "message")?;
    if let Some(fault) = fault {
        object.string("file", fault.name)?;
    }
    if let Some(found) = mistake {
        put_place(object, &found)?;
    }
    let said = message.strip_prefix(b"mkedit: ").unwrap_or(message);
    object.text("sentence", said.trim_ascii_end())?;
    if let Some(fault) = fault {
        put_fault(alloc, object, fault)?;
    }
    if let Some(found) = mistake {
        put_mistake(alloc, object, &found)?;
    }
    Ok(())
}

fn put_place(object: &mut Object<Global>, found: &ScriptMistake<'_>) -> Result<(), AllocError> {
    object.string("script", found.script)?;
    object.number("line", found.line as usize)?;
    object.number("column", found.mistake.column)
}

fn put_fault(
    alloc: Global,
    object: &mut Object<Global>,
    fault: SystemFault<'_>,
) -> Result<(), AllocError> {
    let cause = format!(in alloc; "{}", fault.cause)?;
    object.string("cause", &cause)?;
    if is_command_word(fault.name) {
        object.string("hint", COMMAND_HINT)?;
    }
    Ok(())
}

fn put_mistake(
    alloc: Global,
    object: &mut Object<Global>,
    found: &ScriptMistake<'_>,
) -> Result<(), AllocError> {
    let cause = format!(in alloc; "{found}")?;
    object.string("cause", &cause)?;
    if found.exchanged.is_some() {
        object.string("hint", EXCHANGED_HINT)?;
    }
    Ok(())
}

/// The line of JSON on what became of a makefile whose run ended with this status. Whether the makefile was
/// changed is not known where the text is printed.
///
/// # Errors
///
/// [`AllocError`] if an allocation failed.
pub fn file_in_json(
    alloc: Global,
    file: &str,
    status: u8,
    is_changed: Option<bool>,
) -> Result<Vec<u8>, AllocError> {
    let became = match (status, is_changed) {
        (0, Some(true)) => "changed",
        (0, Some(false)) => "unchanged",
        (0, None) => "printed",
        (1, _) => "refused",
        _ => "failed",
    };
    let mut object = Object::begin(alloc, Vec::new(alloc))?;
    object.string("kind", "file")?;
    object.string("file", file)?;
    object.string("result", became)?;
    object.end()
}
