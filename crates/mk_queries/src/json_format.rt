//! Queries as lines of JSON, for programs.
//!
//! - [`vars_json`]: an object on each assignment, of one name if one is asked for.
//! - [`rules_json`]: an object on the line of each rule, for one target if one is asked for.
//! - [`recipes_json`]: an object on each rule that has recipe lines, and on each of these, for one target if one is
//!   asked for.
//! - [`check_json`]: an object on each line that is not read inside, and on what is open at the end.
//! - [`caveats_json`]: an object on each line that make may read otherwise, as far as the lines show it.
//! - [`value_json`]: the object on the value of a variable.
//! - [`push_text_line`]: an object on a line of any text.
//! - [`Object`]: an object that a caller fills.
//!
//! Each line of text is an object (JSON Lines). It says in which file and where the line of the
//! makefile stands, in which branch of a conditional, and what its parts are. A branch and the rule of recipe
//! lines are told once, above, and named by their lines; so text, time and memory are linear in the size of
//! the makefile. Objects and their members are this project's profile; JSON is that of RFC 8259,
//! written by the library `json`.
//!
//! The modules, lowest first:
//!
//! - `object`: an object, member by member.
//! - `line_objects`: the objects on lines of a makefile, and on branches.
//! - `query`: the queries.
//! - `text_line`: the object on a line of any text.
//!
//! No definition says what an object on a line of a makefile is: its members are names of this
//! project and parts that `mk_tree` and [`listing`](crate::listing) state, so a definition would be this code once
//! more. Python makes the same objects by a reading of its own, and `tests/program` compares the
//! bytes. All objects are in memory before one is written, so the only fault is want of memory.
mod line_objects;
mod object;
mod query;
mod text_line;

pub use object::Object;
pub use query::{caveats_json, check_json, recipes_json, rules_json, value_json, vars_json};
pub use text_line::push_text_line;
