//! The command line of the program `mkedit`: what its words ask for, as `clap` reads them, and what is
//! printed of the program itself.
//!
//! [`read_command_line`] reads the words. What a refusal is, which `mkedit explain` takes, the caller says by a
//! type, such as [`CalledRefusal`].
//!
//! - `utf8`: the words, each as UTF-8.
//! - `request`: what the words can ask for.
//! - `arguments`: the arguments of the commands.
//! - `commands`: the commands with their arguments, as `clap` has to read them.
//! - `color`: when a diff has colours.
//! - `help`: the texts of help.
//! - `reading`: from the words to the request; `hints`: what words may mean that are not taken.
//! - `explain`: why a command is refused; `explanations` has the texts.
//! - `command_help`: what a command of a script does; `command_texts` has the commands and the texts.
//! - `mistakes`: what is wrong with a line of a script that is no command.
//! - `progress`: how many of several makefiles are done, at a terminal; how many were changed, at the end.
#![tactic(auto)]

mod arguments;
mod color;
mod command_help;
mod command_texts;
mod commands;
mod explain;
mod explanations;
mod help;
mod hints;
mod mistakes;
mod progress;
mod reading;
pub mod request;
mod utf8;

pub use color::has_color;
pub use command_help::{CommandHelp, asked_command, command_called, put_help};
pub use explain::{CalledRefusal, NoRefusal, put_explanation, refusal_of};
pub use explanations::explanation;
pub use mistakes::{
    COMMAND_HINT, COMMAND_LINES, EXCHANGED_HINT, ScriptMistake, before_number, is_command_word,
    push_mistake, script_mistake,
};
pub use progress::{Progress, Summary};
pub use reading::read_command_line;
pub use request::{
    Backup, Color, DeriveWords, EditWords, Form, Input, MAX_DEPTH, Output, Query, QueryWords,
    Question, Report, Request, Script, SessionWords,
};
pub use utf8::{bad_files, command_line_words, tell_bad_words};
