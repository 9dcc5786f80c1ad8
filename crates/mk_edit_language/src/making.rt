//! Edits, made in one call each: `Edit::set(alloc, b"CC", b"clang")?`.
//!
//! - [`edit`]: the edits of variables, of rules, of recipes and of whole lines, by the words of
//!   scripts.
//! - [`each_line`]: the edits of several lines that are checked by reading.
//! - [`place`]: the places of new lines.
//! - [`site`]: the sites of whole lines.
//! - [`copy`]: copies of edits and of places, and whether two of them are the same.
//!
//! The calls copy the texts that they are given, and nothing else can go wrong than that there is no memory.

pub mod copy;
pub mod each_line;
pub mod edit;
pub mod place;
pub mod site;

pub use copy::{clone_edit, clone_place, is_same_edit, is_same_place};
pub use edit::number_edit;
pub use place::number_place;
