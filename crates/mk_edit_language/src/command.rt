//! One call of a session. `mk_script` reads it from the lines of a script, and `mk_session` does it: neither
//! stands on the other.
use crate::edit::Edit;
use std::alloc::{Allocator, Global};

/// One call of the type `Session` of `mk_session`.
#[derive(Drop)]
pub enum Command<A: Allocator = Global> {
    /// Makes an edit: `Session::apply`.
    Apply(Edit<A>),
    /// Takes back the last edit or group: `Session::undo`.
    Undo,
    /// Makes the last undone edit or group again: `Session::redo`.
    Redo,
    /// Begins a group: `Session::begin`.
    Begin,
    /// Ends the group: `Session::end`.
    End,
    /// Takes back the edits of the group and ends it: `Session::cancel`.
    Cancel,
}
