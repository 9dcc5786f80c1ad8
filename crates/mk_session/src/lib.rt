//! A session: a makefile that is edited, with undo, redo and groups of edits.
//!
//! - [`command`]: the calls of a session as values, which `mk_edit_language` has, done.
//! - [`lookup`]: the value of a variable and the places of lines, of a document, without a session.
//! - [`laws`]: what holds for a session over any list of calls.
//! - [`session`]: the session; its module `edits` has the calls that make one edit each, `group` the call
//!   that makes edits as one, `dry_run` the one that tells whether they can be made, `finding` those that
//!   say where the lines stand that edits take, and `shown` what `{:?}` shows of it.
//!
//! `mk_history` has the machine of a session over anything that is changed, `mk_edit` has the edits
//! of makefiles. This crate puts them together; it is the only crate that knows both.
#![tactic(auto)]

pub mod command;
pub mod laws;
pub mod lookup;
pub mod session;

pub use command::Command;
pub use mk_class::Flavor;
pub use mk_edit::{Detail, Edit, Field, Place, Refusal, RuleSeparator, ValueChange};
pub use mk_edit_language::{
    EachEdit, LineChange, Side, Site, clone_edit, clone_place, is_same_edit, is_same_place,
    number_edit, number_place,
};
pub use mk_index::Expected;
pub use session::Session;
