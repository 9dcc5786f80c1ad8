//! What a makefile has, line by line, for programs that walk over it.
//!
//! - [`position`]: where a line stands.
//! - [`walk`]: the lines of a document, each with where it stands.
//! - [`assignment`]: the assignments, all of them or those of one name.
//! - [`rule`]: the lines of rules, all of them or those for one target.
//! - [`recipe`]: the recipe lines of a rule.
//! - [`branch`]: the lines, each with the branches of conditionals in which it stands.
//! - [`number`]: the number that an edit takes for a line, by the index of the line.
//! - [`lists`]: the calls that begin a walk over a document.
//! - [`laws`]: these numbers, and those of what is listed, are those that edits take.
//!
//! A walk borrows the document and reads no line. It takes no memory, but for the list of branches. It
//! asks nothing of a caller: no call here has a `requires`.
pub mod assignment;
pub mod branch;
pub mod laws;
pub mod lists;
pub mod number;
pub mod position;
pub mod recipe;
pub mod rule;
pub mod walk;

pub use assignment::{AssignmentLine, Assignments, is_of};
pub use branch::{Branch, LinesInBranches};
pub use lists::{
    assignments, assignments_of, line_at, numbered, rule_lines, rule_lines_for, with_conditionals,
};
pub use number::{assignment_number, rule_number};
pub use position::Position;
pub use recipe::{RecipeLine, RecipeLines};
pub use rule::{RuleLine, Rules};
pub use walk::NumberedLines;
