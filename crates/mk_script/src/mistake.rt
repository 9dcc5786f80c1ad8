//! What is wrong with a line that is no command.
//!
//! The fields of a line are looked at from its front, as they are read. The first thing that may not
//! stand where it does is the mistake. docs/EDITS.md, "If a line is not a command", has examples.

use crate::block::{pass_block, plain_fields};
use crate::command::is_skipped;
use crate::field::Field;
use crate::fields::{
    after_blanks, bare_len, fields_of, first_field, is_blank, is_special, split_at_quote,
};
use crate::lines::LinesBelow;
use crate::number::number_of;
use crate::spelling::nearest_command;
use crate::table::{CommandKind, Row, Word, row_of};
use crate::word::{PlaceWord, flavor, place_word, rule_separator};

/// What is wrong with a line that is no command.
#[derive(Clone, Copy, Debug, PartialEq, Eq)]
pub enum MistakeCause {
    /// The line ends, and the field of this name should follow, as the table of commands has it.
    Missing(&'static str),
    /// The command has all its fields, and another one follows.
    TooMany,
    /// A double quote begins a field, and none ends it.
    OpenQuote,
    /// A backslash between double quotes stands before this byte, which is neither a quote nor a
    /// backslash.
    BadEscape,
    /// The quote that ends a field has no blank behind it.
    TextAfterQuote,
    /// N or K is no number.
    NotANumber,
    /// No place of a new line begins with this word.
    UnknownPlace,
    /// No place of `insert` begins with this word.
    UnknownSite,
    /// No operator is spelled so.
    UnknownOperator,
    /// No separator is spelled so.
    UnknownSeparator,
    /// No command begins with this word.
    UnknownCommand,
    /// This word of a command may not stand behind `try` or `or`.
    NotAfterTry,
    /// This word of a command may not stand behind `nth` and a number.
    NotAfterNth,
    /// This word of a command may not stand behind `all`.
    NotAfterAll,
    /// `nth` stands before the command, and no several lines could be meant by its place.
    NthPlace,
    /// The line above is no edit without `try`, and no `or`. Or there is none.
    StrayOr,
    /// No line below is the word of this block.
    OpenBlock,
    /// This block has no line: its word is the next line.
    EmptyBlock,
}

/// What is wrong with a line that is no command, and where.
#[derive(Clone, Copy, Debug, PartialEq, Eq)]
pub struct Mistake {
    /// Where, as a number of bytes from 1. It is one more than the line has bytes where the line ends
    /// too early.
    pub column: usize,
    /// What is wrong there.
    pub cause: MistakeCause,
}

// A mistake, by how many bytes of its line stand from it on.
#[derive(Clone, Copy)]
struct Fault {
    left: usize,
    cause: MistakeCause,
}

impl Fault {
    // A fault at the front of a text.
    fn new(text: &[u8], cause: MistakeCause) -> Fault {
        let left = text.len();
        Fault { left, cause }
    }

    // A fault at the first field of a text.
    fn at_field(text: &[u8], cause: MistakeCause) -> Fault {
        Fault::new(after_blanks(text), cause)
    }
}

// What is wrong with the quotes of a text that begins with one.
fn quotes_fault(opened: &[u8]) -> Fault {
    let text = &opened[opened.len().min(1)..];
    if let Some((_, rest)) = split_at_quote(text) {
        return Fault::new(rest, MistakeCause::TextAfterQuote);
    }
    let mut is_escaped = false;
    for (at, byte) in text.iter().enumerate() {
        if is_escaped && !is_special(*byte) {
            return Fault::new(&text[at..], MistakeCause::BadEscape);
        }
        is_escaped = !is_escaped && *byte == b'\\';
    }
    Fault::new(opened, MistakeCause::OpenQuote)
}

// The field of this name at the front of a text, and what follows it.
fn field_at<'a>(name: &'static str, text: &'a [u8]) -> Result<(Field<'a>, &'a [u8]), Fault> {
    match first_field(text) {
        Ok(found) => Ok(found),
        Err(_) if is_blank(text) => Err(Fault::at_field(text, MistakeCause::Missing(name))),
        Err(_) => Err(quotes_fault(after_blanks(text))),
    }
}

// What is wrong with a field of this name, alone.
fn cause_of(name: &str, field: Field<'_>) -> Option<MistakeCause> {
    if (name == "N" || name == "K") && number_of(field).is_err() {
        Some(MistakeCause::NotANumber)
    } else if name == "OP" && flavor(field).is_none() {
        Some(MistakeCause::UnknownOperator)
    } else if name == "SEP" && rule_separator(field).is_none() {
        Some(MistakeCause::UnknownSeparator)
    } else {
        None
    }
}

// What follows the field of this name at the front of a text.
fn after_field<'a>(name: &'static str, text: &'a [u8]) -> Result<&'a [u8], Fault> {
    let (field, rest) = field_at(name, text)?;
    match cause_of(name, field) {
        None => Ok(rest),
        Some(cause) => Err(Fault::at_field(text, cause)),
    }
}

// What follows the place of a new line at the front of a text.
fn after_place(is_numbered: bool, text: &[u8]) -> Result<&[u8], Fault> {
    let (word, rest) = field_at("PLACE", text)?;
    match place_word(word) {
        Some(PlaceWord::Top | PlaceWord::Bottom | PlaceWord::AfterLastVar) if is_numbered => {
            Err(Fault::at_field(text, MistakeCause::NthPlace))
        }
        Some(PlaceWord::Top | PlaceWord::Bottom) => Ok(rest),
        Some(PlaceWord::BeforeVar | PlaceWord::AfterVar | PlaceWord::AfterLastVar) => {
            after_field("NAME", rest)
        }
        Some(PlaceWord::BeforeRule | PlaceWord::AfterRule) => after_field("TARGET", rest),
        _ => Err(Fault::at_field(text, MistakeCause::UnknownPlace)),
    }
}

// What follows the site of whole lines at the front of a text.
fn after_site(is_numbered: bool, text: &[u8]) -> Result<&[u8], Fault> {
    let (word, rest) = field_at("PLACE", text)?;
    match place_word(word) {
        None => Err(Fault::at_field(text, MistakeCause::UnknownSite)),
        Some(PlaceWord::BeforeLine | PlaceWord::AfterLine) => after_field("OLD", rest),
        Some(_) => after_place(is_numbered, text),
    }
}

// Whether a text has no field.
fn check_end(text: &[u8]) -> Result<(), Fault> {
    if is_blank(text) {
        Ok(())
    } else {
        Err(Fault::at_field(text, MistakeCause::TooMany))
    }
}

// Whether a text is what may follow the word of a command: its fields, which the row of the table has behind
// the word. `is_numbered` says whether `nth` and a number stand before it.
fn check_fields(command: Row, is_numbered: bool, text: &[u8]) -> Result<(), Fault> {
    let mut names = command.0.split(' ');
    names.next();
    let mut rest = text;
    for name in names {
        rest = if name != "PLACE" {
            after_field(name, rest)?
        } else if matches!(command.2, Word::Insert) {
            after_site(is_numbered, rest)?
        } else {
            after_place(is_numbered, rest)?
        };
    }
    check_end(rest)
}

// The command that the word at the front of a text begins.
fn command_at(word: Field<'_>, text: &[u8]) -> Result<Row, Fault> {
    match row_of(word.written()) {
        Some(command) => Ok(command),
        None => Err(Fault::at_field(text, MistakeCause::UnknownCommand)),
    }
}

// Whether a text is what may follow `nth`.
fn check_numbered(text: &[u8]) -> Result<(), Fault> {
    let text = after_field("N", text)?;
    let (word, rest) = field_at("COMMAND", text)?;
    let command = command_at(word, text)?;
    match command.1 {
        CommandKind::ValueEdit | CommandKind::NumberedEdit => check_fields(command, true, rest),
        _ => Err(Fault::at_field(text, MistakeCause::NotAfterNth)),
    }
}

// Whether a text is what may follow `all`.
fn check_all(text: &[u8]) -> Result<(), Fault> {
    let (word, rest) = field_at("COMMAND", text)?;
    let command = command_at(word, text)?;
    match command.1 {
        CommandKind::ValueEdit => check_fields(command, false, rest),
        _ => Err(Fault::at_field(text, MistakeCause::NotAfterAll)),
    }
}

// Whether a text is an edit's command.
fn check_edit(text: &[u8]) -> Result<(), Fault> {
    let (word, rest) = field_at("COMMAND", text)?;
    match command_at(word, text)? {
        (_, _, Word::Nth) => check_numbered(rest),
        (_, _, Word::All) => check_all(rest),
        (_, CommandKind::Call | CommandKind::Prefix, _) => {
            Err(Fault::at_field(text, MistakeCause::NotAfterTry))
        }
        command => check_fields(command, false, rest),
    }
}

// Whether a line is right by itself: it is skipped or is a command, alone or behind `try` or `or`.
fn check_line(line: &[u8]) -> Result<(), Fault> {
    if is_skipped(line) {
        return Ok(());
    }
    let (word, rest) = field_at("COMMAND", line)?;
    match row_of(word.written()) {
        Some((_, _, Word::Try | Word::Or)) => check_edit(rest),
        Some(call @ (_, CommandKind::Call, _)) => check_fields(call, false, rest),
        _ => check_edit(line),
    }
}

// Whether the lines of a block that this field may have stand below, behind those of the fields before it.
fn check_block(field: Field<'_>, text: &[u8], below: &mut LinesBelow<'_>) -> Result<(), Fault> {
    let Some(word) = field.end_word() else {
        return Ok(());
    };
    match pass_block(below, word) {
        None => Err(Fault::at_field(text, MistakeCause::OpenBlock)),
        Some(0) => Err(Fault::at_field(text, MistakeCause::EmptyBlock)),
        Some(_) => Ok(()),
    }
}

// Whether the lines of the blocks of a line that is right by itself stand below it.
fn check_blocks(line: &[u8], below: &mut LinesBelow<'_>) -> Result<(), Fault> {
    let Ok(fields) = fields_of(line) else {
        return Ok(());
    };
    let plain = plain_fields(fields.as_slice());
    let mut rest = line;
    for (at, field) in fields.as_slice().iter().enumerate() {
        if at >= plain {
            check_block(*field, rest, below)?;
        }
        rest = after_first(rest);
    }
    Ok(())
}

// What follows the first field of a line.
fn after_first(line: &[u8]) -> &[u8] {
    match first_field(line) {
        Ok((_, rest)) => rest,
        Err(_) => b"",
    }
}

// Whether a line and its blocks are right by themselves.
fn check_command(line: &[u8], below: &mut LinesBelow<'_>) -> Result<(), Fault> {
    check_line(line)?;
    check_blocks(line, below)
}

// The line of a number, from 1, and the lines below it.
fn line_at(script: &[u8], number: u64) -> Option<(&[u8], LinesBelow<'_>)> {
    if number == 0 {
        return None;
    }
    let mut below = LinesBelow::new(script);
    for _ in 1..number {
        below.next()?;
    }
    let line = below.next()?;
    Some((line, below))
}

/// What is wrong with the first line of a script that is no command, by its number, from 1. `None` if the
/// script has no line of this number.
///
/// A line that is right by itself, as are its blocks, and is no command where it stands, has an `or` that
/// may not stand there.
pub fn mistake_at(script: &[u8], number: u64) -> Option<Mistake> {
    let (line, mut below) = line_at(script, number)?;
    let fault = match check_command(line, &mut below) {
        Ok(()) => Fault::at_field(line, MistakeCause::StrayOr),
        Err(fault) => fault,
    };
    Some(Mistake {
        column: line.len().saturating_sub(fault.left) + 1,
        cause: fault.cause,
    })
}

/// The word of a command that is spelled like the word at a column of a line, both counted from 1, of a
/// script. `None` if there is no such word.
pub fn nearest_at(script: &[u8], number: u64, column: usize) -> Option<&'static str> {
    let (line, _below) = line_at(script, number)?;
    let text = &line[line.len().min(column.saturating_sub(1))..];
    nearest_command(&text[..bare_len(text)])
}
