//! Bounded undo and redo, over any change that can be taken back.
//!
//! - [`change`]: what a change is, and what it promises.
//! - [`history`]: the changes that can be undone and redone, up to a depth.
//! - [`laws`]: what holds for every list of calls of a session that stands on a history.
//! - [`sequence`]: several changes, one after the other, as one.
#![tactic(auto)]

pub mod change;
pub mod history;
pub mod laws;
pub mod sequence;

pub use change::{Change, SureChange};
pub use history::{History, HistoryError};
pub use sequence::Sequence;
