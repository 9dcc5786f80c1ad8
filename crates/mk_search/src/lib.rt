//! The search for commands that make one makefile of another.
//!
//! The search tries commands in a session over the old makefile, step by step from its top, and keeps those
//! after which the text is the new makefile as far as the search has come. That they make the new one
//! together is for the caller to try.
//!
//! - [`fault`]: why there is no script.
//! - `text`: one of the two makefiles, as its lines.
//! - `kinship`: how alike two lines are.
//! - `step`: the steps that lead from the old lines to the new ones.
//! - `aim`: the text to which a step leads.
//! - `bench`: the session in which commands are tried, and the script so far.
//! - `text_change`: the texts in which two others differ.
//! - `of_all`: one command for many equal changes.
//! - `of_value`, `of_rule`, `of_recipe`: commands for one changed line.
//! - `of_lines`, `of_new_lines`: commands for lines by what they say.
//! - `search`: the search.
#![tactic(auto)]

mod aim;
mod bench;
pub mod fault;
mod kinship;
mod of_all;
mod of_lines;
mod of_new_lines;
mod of_recipe;
mod of_rule;
mod of_value;
mod search;
mod step;
mod text;
mod text_change;

pub use fault::{DeriveError, Makefile, Unwritten};
pub use search::found;
