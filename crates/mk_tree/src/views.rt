//! Views of the lines of a makefile: their parts, by name.
//!
//! - [`assignment`]: the parts of an assignment, and of an assignment for targets.
//! - `define`: the name of a define.
//! - [`laws`]: theorems on what a view shows.
//! - [`line`]: the views of a line.
//! - [`rule`]: the parts of the line of a rule.
//! - `clip`: parts of a text, by their offsets.
//! - [`text`]: the text of a document, in memory.
//! - [`word_texts`]: the words of a text, as byte strings.
//!
//! A class tells where the parts of a line stand, as offsets in its joined text. A view lends the
//! parts themselves. It asks nothing of the line, copies nothing and takes no memory.

pub mod assignment;
mod clip;
mod define;
pub mod laws;
pub mod line;
pub mod rule;
pub mod text;
pub mod word_texts;

pub use assignment::{AssignmentRef, TargetAssignmentRef};
pub use line::Conditional;
pub use rule::RuleRef;
pub use text::text_of;
pub use word_texts::WordTexts;
