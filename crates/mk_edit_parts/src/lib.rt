//! The parts of edits: which line an edit means, and the bytes of the lines that it writes.
//!
//! What an edit does is defined in `mk_edit_language`, whose laws say what follows from it. The calls
//! here answer what these definitions say; `mk_edit` plans edits with these calls.
//!
//! - [`text`]: texts compared, and the words of a text.
//! - [`argument`]: the causes of refusal that the fields of an edit decide.
//! - [`address`]: the line that an edit means, as the edit says it.
//! - [`line_test`]: which variable a line assigns, and which targets it has.
//! - [`comment`]: comments that say an assignment.
//! - [`window`]: some lines of a document, outside of which a walk need not look; and what is known
//!   before an edit is planned.
//! - [`seek`]: the line that an address means, found by one walk.
//! - [`candidates`]: the lines that assign a variable, by their numbers.
//! - [`find`]: where an edit applies, after the causes that come before its own.
//! - [`lean`]: whether lines lean on the flag before them.
//! - [`place`]: places further down in a document.
//! - [`range`]: where the value of a line stands, whether it ends in a fold, and bytes with a range
//!   replaced.
//! - [`line_end`]: the line ends of new lines.
//! - [`new_line`]: the text of new lines.
//! - [`prerequisite`]: the prerequisites in the line of a rule.
//! - `raw_part`: the raw bytes of a part of a line, for the modules of this crate.
//! - [`value_words`]: the words of a value, and the line without one of them.
//! - [`recipe`]: the recipe of a rule, by a walk down from its header.
//! - [`recipe_text`]: the recipe lines that have a text.
//! - `block`: which texts may be blocks of lines, and what a line says of a block.
//! - [`line_run`]: the runs for a block: lines that say together what it says.
//! - [`site`]: the lines that a site means, after the causes that come before its own.
//! - [`word_parts`]: the words of a line that a rename replaces.
//! - [`glance`]: whether a word may be one of a text's words, and from where on.
//! - [`tally`]: the count of these words.
//! - [`renamed_line`]: the bytes of a line after a rename.
//! - [`line_change`]: the places of an assignment's line that a change replaces, if the change is
//!   checked by reading.
//! - [`recipe_change`]: recipe lines with a text in the place of each occurrence of another.
//! - [`each_line`]: edits of several lines: what is done to each line, and which lines are meant.
#![tactic(auto)]

pub mod address;
pub mod argument;
mod block;
pub mod candidates;
pub mod comment;
pub mod each_line;
pub mod find;
pub mod glance;
pub mod lean;
pub mod line_change;
pub mod line_end;
pub mod line_run;
pub mod line_test;
pub mod new_line;
pub mod place;
pub mod prerequisite;
pub mod range;
mod raw_part;
pub mod recipe;
pub mod recipe_change;
pub mod recipe_text;
pub mod renamed_line;
pub mod rule;
pub mod seek;
pub mod site;
pub mod tally;
pub mod text;
pub mod value_words;
pub mod window;
pub mod word_parts;

pub use block::{block_front, block_of, line_feeds, line_front};
