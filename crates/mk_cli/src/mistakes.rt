//! The note on a line of a script that is no command: where in the line a mistake is, and what is wrong.

use mk_escape::shown_name;
use mk_script::table::command_form;
use mk_script::{Mistake, MistakeCause, mistake_at, nearest_at};
use std::alloc::{AllocError, Global};
use std::fmt;
use std::str::from_utf8;

/// What the lines of the command line are called, where they are the script.
pub const COMMAND_LINES: &str = "-e";

/// What stands between the name of a script and the number of a line in it. `-e` is no file: its lines are
/// those of all `-e` together, and an editor is to open none.
pub fn before_number(script: &str) -> &'static str {
    if script == COMMAND_LINES { " " } else { ":" }
}

// What the table of commands calls a whole command, where it is the field of another one.
const COMMAND: &str = "COMMAND";

/// What is wrong with a line of a script that is no command. It is shown in words, with the nearest
/// command.
#[derive(Clone, Copy)]
pub struct ScriptMistake<'a> {
    /// What the script is called.
    pub script: &'a str,
    /// The number of the line, from 1.
    pub line: u64,
    /// What is wrong with it.
    pub mistake: Mistake,
    /// The word of a command that is spelled like the word there, where that is no command's.
    pub nearest: Option<&'static str>,
    /// The name of the makefile, where that is a script: the two may be exchanged.
    pub exchanged: Option<&'a str>,
}

impl fmt::Display for ScriptMistake<'_> {
    fn fmt<W: fmt::Write>(&self, f: &mut fmt::Formatter<W>) -> fmt::Result {
        let field = missing_field(self.mistake.cause);
        let said = said_of(self.mistake.cause);
        match self.nearest {
            Some(word) => write!(f, "{said}; did you mean `{word}`?"),
            None => write!(f, "{field}{said}"),
        }
    }
}

/// What is wrong with a script of this name and text at a line, from 1, that is no command.
pub fn script_mistake<'a>(script: &'a str, text: &[u8], line: u64) -> Option<ScriptMistake<'a>> {
    let mistake = mistake_at(text, line)?;
    let nearest = match mistake.cause {
        MistakeCause::UnknownCommand => {
            nearest_at(text, line, mistake.column).or_else(|| usual_command(text, line))
        }
        _ => None,
    };
    Some(ScriptMistake {
        script,
        line,
        mistake,
        nearest,
        exchanged: None,
    })
}

// The command that does what a line, from 1, asks for in words of a makefile or of other programs.
fn usual_command(text: &[u8], line: u64) -> Option<&'static str> {
    let before = usize::try_from(line).ok()?.checked_sub(1)?;
    let line = from_utf8(text).ok()?.lines().nth(before)?;
    let mut words = line.split_whitespace();
    match (words.next()?, words.next()) {
        ("remove" | "delete" | "del" | "rm", _) => Some("unset"),
        (_, Some("=" | ":=" | "::=" | ":::=" | "?=")) => Some("set"),
        (_, Some("+=")) => Some("append"),
        _ => None,
    }
}

/// What may be meant where a name begins with a command.
pub const COMMAND_HINT: &str = "-e goes before a command";

/// What may be meant where the makefile is a script, and the script is none.
pub const EXCHANGED_HINT: &str = "did you swap SCRIPT and FILE?";

/// Whether a name begins with a command: somebody may have left out `-e` before it.
pub fn is_command_word(name: &str) -> bool {
    match name.split_once(' ') {
        Some((word, _)) => command_form(word.as_bytes()).is_some(),
        None => false,
    }
}

// The name of the field that is missing, before the words on it, if one is.
fn missing_field(cause: MistakeCause) -> &'static str {
    match cause {
        MistakeCause::Missing(name) if name != COMMAND => name,
        _ => "",
    }
}

// What is wrong, in words.
fn said_of(cause: MistakeCause) -> &'static str {
    match cause {
        MistakeCause::Missing(name) if name == COMMAND => "a command is missing",
        MistakeCause::Missing(_) => " is missing",
        MistakeCause::TooMany =>
            "no field may follow here; a field with blanks stands between double quotes",
        MistakeCause::OpenQuote => "the quote is not closed",
        MistakeCause::BadEscape => "between quotes `\\` stands before `\"` or `\\` alone",
        MistakeCause::TextAfterQuote => "a blank follows the closing quote",
        MistakeCause::NotANumber => "this is no number of at most ten digits, up to 4294967295",
        MistakeCause::UnknownPlace =>
            "PLACE is `top`, `bottom`, `before-var NAME`, `after-var NAME`, `after-last-var NAME`, \
             `before-rule TARGET` or `after-rule TARGET`",
        MistakeCause::UnknownSite =>
            "PLACE is `before-line OLD`, `after-line OLD` or a place of `assign`",
        MistakeCause::UnknownOperator => "OP is `=`, `:=`, `::=`, `:::=`, `?=`, `+=` or `!=`",
        MistakeCause::UnknownSeparator => "SEP is `:` or `::`",
        MistakeCause::UnknownCommand => "there is no such command",
        MistakeCause::NotAfterTry =>
            "`try` and `or` stand before the whole command of an edit, and only one of them",
        MistakeCause::NotAfterNth => "`nth` may not stand before this command",
        MistakeCause::NotAfterAll =>
            "`all` stands before edits of values alone, and not before `add-before` or `add-after`",
        MistakeCause::NthPlace => "`nth` may not stand before a command with this place",
        MistakeCause::StrayOr => "`or` stands below an edit without `try`, or below another `or`",
        MistakeCause::OpenBlock => "no line below is WORD, which ends the block of `<<WORD`",
        MistakeCause::EmptyBlock => "the block has no line; `\"\"` is a block of one empty line",
    }
}

/// Puts the notes on a mistake behind others: where it is and what is wrong, and below it whether script
/// and makefile may be exchanged.
///
/// # Errors
///
/// Want of memory.
pub fn push_mistake(
    alloc: Global,
    notes: &mut String,
    found: &ScriptMistake<'_>,
) -> Result<(), AllocError> {
    let script = shown_name(alloc, found.script)?;
    let between = before_number(found.script);
    let (line, column) = (found.line, found.mistake.column);
    writeln!(notes, "{script}{between}{line}:{column}: note: {found}")?;
    if let Some(makefile) = found.exchanged {
        let makefile = shown_name(alloc, makefile)?;
        writeln!(
            notes,
            "{script}: note: this is not a script, but {makefile} is: {EXCHANGED_HINT}"
        )?;
    }
    Ok(())
}
