//! Patches of a document: lines that are moved.
//!
//! A patch knows where each line goes, and holds the lines that go in. To make it reads nothing and
//! takes no memory, and gives the patch that takes it back. A patch knows nothing of edits: the
//! crate `mk_edit` plans patches for edits.
//!
//! - [`step`]: one line that is put in, taken out or exchanged, or the line end of the last line.
//! - [`patch`]: several steps as one.
//! - [`builder`]: a patch whose steps are being gathered.
#![tactic(auto)]

pub mod builder;
pub mod patch;
pub mod step;

pub use builder::PatchBuilder;
pub use patch::Patch;
pub use step::Step;
