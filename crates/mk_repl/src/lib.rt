//! A session that somebody talks to, command by command: each is answered before the next is read.
//!
//! - [`read_line`]: the next line of a source, which may be too long to be a command.
//! - [`answer_line`]: a command of a script, executed by a session, and the reply to it; [`execute_line`]
//!   executes it, and [`write_reply`] replies. A command has a line, and below it those of its blocks.
//! - [`read_request`]: what a line asks for that is no command.
//! - [`answer_lines`]: a text as the lines of an answer, which stand before a reply.
//! - [`lines_between`]: some lines of a text; [`line_length`]: the first of them.
//! - [`revert`]: all that can be undone, undone.
//! - [`serve`]: command after command is read, and a [`Handler`] replies to each. What it says first and
//!   what it replies to a command whose lines are not read is [`write_greeting`] and [`write_unread`] by
//!   the protocol.
//! - [`found_for`]: what a makefile has for a question; [`put_found`] writes it.
//! - [`Server`]: the makefile that `mkedit session` has open, a handler by the protocol;
//!   [`serve_at_terminal`] replies to a person.
//!
//! The modules:
//!
//! - `line`: the lines of a source; `command_lines`: those of a command.
//! - `answer`: a line, and the reply to it.
//! - `request`: what a line asks for.
//! - `lines`: the physical lines of a text.
//! - `quote`: the lines of an answer.
//! - `talk`: commands that are read and answered, one after the other.
//! - `undoing`: all that can be undone, undone.
//! - `question`: what is found for a question to a makefile.
//! - `server`: a makefile that is open, and what it answers; `help_text`: what `help` says.
//! - `command_log`: the edits that stand, and what can be undone and redone.
//! - `text_lines`: answers as lines of JSON.
//! - `not_done`: why a request is not done.
//! - `on_disk`: the makefile's file.
//! - `protocol`: the replies to a program; `terminal`: those to a person, whose words `sentences` has.
#![tactic(auto)]

mod answer;
mod command_lines;
mod command_log;
mod help_text;
mod line;
mod lines;
mod not_done;
mod on_disk;
mod protocol;
mod question;
mod quote;
mod request;
mod sentences;
mod server;
mod talk;
mod terminal;
mod text_lines;
mod undoing;

pub use answer::{Executed, Handled, answer_line, execute_line, write_reply};
pub use command_lines::Unread;
pub use line::{LineRead, MAX_LINE, read_line};
pub use lines::{line_length, lines_between};
pub use not_done::NotDone;
pub use question::{Found, Unanswered, found_for, put_found};
pub use quote::answer_lines;
pub use request::{Request, RequestOf, RequestWord, read_request};
pub use server::{Asked, Opened, Server};
pub use talk::{After, Handler, serve, write_greeting, write_unread};
pub use terminal::serve_at_terminal;
pub use undoing::{Reverted, revert};
