//! The definitions of lines, classes, documents and readings, computed on rows with answers from outside.
//!
//! There is no code here: `proofs/` has rows, which the check computes. It is a crate of its own, since 1,500
//! rows take time, and all crates above `mk_lines`, `mk_class` and `mk_tree` would wait for them.
#![tactic(auto)]
