//! What somebody may have meant whose words `clap` does not take.

use crate::command_help::command_called;
use crate::explain::refusal_of;
use std::alloc::{AllocError, Global};

/// What the words may mean that were not taken, as an error says it.
///
/// # Errors
///
/// Want of memory.
pub(crate) fn hint(alloc: Global, words: &[String]) -> Result<Option<String>, AllocError> {
    let first = words.get(1).map_or("", |word| word.as_str());
    let second = words.get(2).map_or("", |word| word.as_str());
    if command_called(first).is_some() {
        let text = format!(in alloc;
            "'{first}' is a command of a script: 'mkedit edit -e \"{first} ...\" FILE' runs it"
        )?;
        return Ok(Some(text));
    }
    if first == "help" && refusal_of(second).is_some() {
        return Ok(Some(format!(in alloc;
            "'{second}' is a refusal: 'mkedit explain {second}' explains it"
        )?));
    }
    if first == "explain" && command_called(second).is_some() {
        return Ok(Some(format!(in alloc;
            "'{second}' is a command of a script: 'mkedit help {second}' explains it"
        )?));
    }
    let suffix = words
        .iter()
        .filter_map(|word| word.strip_prefix("-i"))
        .find(|suffix| suffix.starts_with("."));
    match suffix {
        Some(suffix) if first == "edit" => Ok(Some(format!(in alloc;
            "'-i' takes no suffix: '-i --backup {suffix}' keeps the old file"
        )?)),
        _ => Ok(None),
    }
}
