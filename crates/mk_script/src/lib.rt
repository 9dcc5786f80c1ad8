//! Scripts: the steps that a program does one after the other.
//!
//! A script's lines end in LF or CR LF; the last line may have no line end. A line whose first byte
//! is `#`, and a line of blanks only, are skipped. Every other line is one command: fields with
//! blanks between them. Before the command of an edit `try` may stand, or `or`, which makes it an
//! alternative of the edit above. A field for a block may be `<<WORD`: then the lines below its command,
//! up to the first that is exactly WORD, are the block. This is this project's profile.
//!
//! - [`block`]: blocks over several lines.
//! - [`block_marks`]: the words that end them.
//! - [`command`]: a command.
//! - [`edit`]: the edits, and the places of new lines, made from their fields.
//! - [`end_words`]: the words with which the blocks of an edit end.
//! - [`fault`]: why a line gave no command.
//! - [`field`]: a field, bare or between quotes.
//! - [`fields`]: the fields of a line.
//! - [`laws`]: what holds for every script.
//! - [`lines`]: the lines of a script with their numbers.
//! - [`mistake`]: what is wrong with a line that is no command.
//! - [`number`]: numbers.
//! - [`script`]: the steps of a script, from its lines.
//! - [`spelling`]: words that are spelled alike.
//! - [`step`]: the steps of a script.
//! - [`table`]: the table of commands, and the words that it has.
//! - [`word`]: the words of places, operators and separators.
//! - [`written`]: the lines of a script that say an edit.
//! - [`written_block`]: the command of an edit with the lines of its blocks.
//! - [`written_field`]: a field in the line of an edit.
//!
//! A script does not say whether a field may stand in its edit, such as a name or a value: an edit
//! with a bad field is refused when it is made.
#![tactic(auto)]

mod block;
mod block_marks;
mod command;
mod edit;
mod end_words;
mod fault;
mod field;
mod fields;
pub mod laws;
mod lines;
mod mistake;
mod number;
pub mod script;
pub mod spelling;
pub mod step;
pub mod table;
mod word;
pub mod written;
mod written_block;
mod written_field;

pub use block_marks::block_words;
pub use mistake::{Mistake, MistakeCause, mistake_at, nearest_at};
pub use mk_edit_language::Command;
pub use script::{ScriptFault, parse_script};
pub use step::{Chain, NumberedCommand, NumberedEdit, Step};
pub use written::{LineError, line_of_edit};
