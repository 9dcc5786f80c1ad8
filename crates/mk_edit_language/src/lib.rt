//! The language of edits: what each edit is, which spans of the text it replaces, what it does to the
//! reading, and why it may be refused.
//!
//! - [`edit`]: the edits, those of several lines, the changes of values and of lines, the places of
//!   new lines, the sites of whole lines, and the separators of new rules.
//! - [`making`]: edits, made in one call each.
//! - [`command`]: the calls of a session as values.
//! - [`refusal`]: why an edit, or another call on an edited document, is refused.
//! - [`laws`]: theorems on the definitions of edits.
#![tactic(auto)]

pub mod command;
pub mod edit;
pub mod laws;
pub mod making;
pub mod refusal;

pub use command::Command;
pub use edit::{EachEdit, Edit, LineChange, Place, RuleSeparator, Side, Site, ValueChange};
pub use making::{clone_edit, clone_place, is_same_edit, is_same_place, number_edit, number_place};
pub use refusal::{Detail, Field, Refusal};
