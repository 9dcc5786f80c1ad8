//! What is said to a person of the commands of a run, as texts: why one is refused, in a sentence and by the
//! lines of the makefile that are the cause; and why an edit that was made may do nothing in make.
//!
//! - [`RunNotes`]: the lines on the refusals of a run, and the notes on its edits.
//! - [`message_in_json`], [`file_in_json`]: what else a report in JSON says of a run.
//!
//! A note is a line of text: the name of a file, mostly the number of a line in it, and what is said of
//! it; or a line of JSON with these parts. No call promises which notes there are. Stored outputs of the program fix them.
//!
//! The modules, lowest first:
//!
//! - `branch`: the branch of a conditional in which a line stands, and the other branches.
//! - `line`: what notes ask of one line.
//! - `text`: the text of the notes.
//! - `part`: sentences with names, texts and numbers in them.
//! - `whole_lines`: what is said of edits of whole lines.
//! - `each_line`: what is said of edits of several lines that are checked by reading.
//! - `address`: the lines that an edit means.
//! - `asked`: what an edit asks for.
//! - `broken`: which rule a text breaks.
//! - `bad_field`, `open_value`, `idle`, `misread`: the sentences on a field that may not stand there, on a
//!   value that is open, on an edit that finds nothing to do, and on a line that would not read as its edit says.
//! - `sentence`: the sentence of each refusal of an edit.
//! - `becomes`: what a line would become that would not read as its edit says.
//! - `error`: the line on a refusal.
//! - `tally`: which words of a makefile may stand in several lines.
//! - `run_notes`: the notes on the edits of a run, and how far they may walk.
//! - `refused`: the line on a refusal, and the notes below it.
//! - `new_rule`: the notes on a new rule, and on a new recipe.
//! - `made`: the notes on an edit that was made.
//! - `report`: the lines of a report in JSON that are on no command.
//!
//! Notes are hints to a reader: a definition of their text would be this code once more.
#![tactic(auto)]

mod address;
mod asked;
mod bad_field;
mod becomes;
mod branch;
mod broken;
mod each_line;
mod error;
mod idle;
mod line;
mod made;
mod misread;
mod new_rule;
mod open_value;
mod part;
mod refused;
mod report;
mod run_notes;
mod sentence;
mod tally;
mod text;
mod whole_lines;

pub use report::{file_in_json, message_in_json};
pub use run_notes::RunNotes;
pub use text::Names;
