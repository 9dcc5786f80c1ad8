//! What each line of a makefile is: an assignment, a rule, a recipe line, a directive, or a line
//! that is kept and not read inside; and the context that the line stands in.
//!
//! - [`class`]: the classes of lines.
//! - [`reading`]: the class of a line in its context.
//! - [`assignment`]: assignments, their flavors and modifiers.
//! - [`rule`]: rules and their separators.
//! - [`context`]: what the lines before a line leave for it.
//! - [`meter`]: a count of the lines that were classified.
//! - [`argument`]: what an edit may write.
//! - [`blank`]: whether a text begins or ends with a blank.
//! - [`laws`]: theorems on the definitions of assignments and classes.
//!
//! The other modules are the crate's own, lowest first:
//!
//! - `marks`: which of the bytes that tell lines apart a text has.
//! - `scan`: a text read from its front, one unit at a time.
//! - `keyword`: the words that say what a line is.
//! - `header`: the parts of the line of a rule, and what makes such a line Rough.
#![tactic(auto)]

pub mod argument;
pub mod assignment;
pub mod blank;
pub mod class;
pub mod context;
mod header;
mod keyword;
pub mod laws;
mod marks;
pub mod meter;
pub mod reading;
pub mod rule;
mod scan;

pub use argument::{is_command, is_name, is_target, is_value, is_word};
pub use assignment::{Assignment, Flavor, Modifier, TargetAssignment};
pub use class::Class;
pub use context::{Context, Nesting, RuleFlag};
pub use keyword::is_reserved_word;
pub use meter::Meter;
pub use reading::{class_of_plain_line, class_with_cells, classify};
pub use rule::{Header, Separator};
