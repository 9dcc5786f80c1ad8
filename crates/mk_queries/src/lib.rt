//! What a makefile has: its assignments, rules and recipe lines, for programs that walk over them, and as text or
//! JSON.
//!
//! - [`listing`]: walks over the lines of a document.
//! - [`vars`]: a line of text on each assignment; [`vars_named`]: on those of one name.
//! - [`rules`]: a line of text on each rule; [`rules_named`]: on those for one target.
//! - [`recipes`]: a line of text on each rule that has recipe lines, and on each of these;
//!   [`recipes_named`]: on the rules for one target and theirs.
//! - [`check`]: a line of text on each line that is not read inside, and what is open at the end;
//!   [`check_texts`]: with the text of each line.
//! - [`caveats`]: a line of text on each line that make may read otherwise, as far as the lines
//!   show it; [`line_caveats`]: what make may read otherwise, of each line.
//!
//! - [`vars_json`] and the like: the same as lines of JSON; [`value_json`]: the object on the value of a variable;
//!   [`push_text_line`]: one on a line of any text; [`Object`]: one that a caller fills.
//!
//! A query formats what [`listing`] lists. One in text takes no memory. [`caveats`] reads each opaque line once
//! more, on a meter of its own; no other query reads a line anew. It also goes through all lines once more
//! for each of the rules that may add nothing, of which it looks at so many that it takes linear time. The
//! formats are this project's profile.
//!
//! The modules, lowest first:
//!
//! - [`listing`]: the lines, assignments, rules and recipe lines, each with where it stands.
//! - `gathering`: texts that go out in few writes.
//! - `words`: words with spaces, and targets.
//! - `position`: where a line stands.
//! - [`caveat`]: what make may read in a line otherwise.
//! - `make_word`: the first word of a line, as make finds it.
//! - `seen`: what the lines above tell of rules, where make passes some of them.
//! - `bare_rule`: rules that have one target and nothing else, and recipes for their targets.
//! - [`walk`]: the caveat of each line of a document.
//! - `query`: the five queries in text, each in the module of its name.
//! - `json_format`: the queries as JSON.
#![tactic(auto)]

mod bare_rule;
pub mod caveat;
mod gathering;
mod json_format;
pub mod listing;
mod make_word;
mod position;
mod query;
mod seen;
pub mod walk;
mod words;

pub use caveat::Caveat;
pub use json_format::{
    Object, caveats_json, check_json, push_text_line, recipes_json, rules_json, value_json,
    vars_json,
};
pub use query::caveats::caveats;
pub use query::check::{check, check_texts};
pub use query::recipes::{recipes, recipes_named};
pub use query::rules::{rules, rules_named};
pub use query::vars::{vars, vars_named};
pub use walk::{LineCaveats, line_caveats};
