//! mkedit as a library: one crate to list, and one `use`.
//!
//! - [`Session`]: a makefile that is edited, with a call for each edit, undo, redo and groups; [`Edit`],
//!   [`Place`] and [`Site`] make edits as values.
//! - [`assignments`], [`rule_lines`] and their like: what a makefile has, line by line; a [`Line`] lends its parts.
//! - [`get`]: the value of a variable.
//! - [`run`]: a script over a makefile, as the program does it; [`parse_script`]: its steps.
//! - [`diff`]: the unified diff of two texts.
//! - [`ByteSource`] and [`ByteSink`]: devices of a program; those of std are [`StdSource`] and [`StdSink`].
//!
//! Each name stands in a crate of its own, which ARCHITECTURE.md has in a table. Whoever writes contracts over
//! these calls names the definitions of that crate, and lists it too.
#![tactic(auto)]

pub use mk_class::{Class, Context, Meter, Separator};
pub use mk_diff::{diff, painted};
pub use mk_history::history::MAX_DEPTH;
pub use mk_lines::source::{MAX_TEXT, read_all};
pub use mk_lines::{ByteSink, ByteSource, Fault, StdSink, StdSource};
pub use mk_queries::listing::{
    AssignmentLine, Branch, LinesInBranches, Position, RecipeLine, RuleLine, assignment_number,
    assignments, assignments_of, line_at, numbered, rule_lines, rule_lines_for, rule_number,
    with_conditionals,
};
pub use mk_run::{Observer, Outcome, Reported, message, run, run_steps, status};
pub use mk_script::{Chain, ScriptFault, Step, line_of_edit, parse_script};
pub use mk_session::lookup::{find_assignment, find_rule, get};
pub use mk_session::{
    Command, Detail, EachEdit, Edit, Expected, Field, Flavor, LineChange, Place, Refusal,
    RuleSeparator, Session, Side, Site, ValueChange, laws,
};
pub use mk_tree::{
    AssignmentRef, Conditional, Doc, Line, RuleRef, TargetAssignmentRef, WordTexts, text_of,
};
