//! The definitions of edits, queries, scripts and runs, computed on rows with answers from outside.
//!
//! There is no code here: `proofs/` has lists of rows, and an equation for each list, which the check
//! computes. It is a crate of its own, since 6,000 rows take memory and time, and no other crate uses them.
//!
//! - `proofs/edits`: what each edit makes of a text, or why it is refused.
//! - `proofs/queries`: what each query prints of a makefile.
//! - `proofs/scripts`: what each script says, or its first line that is no command.
//! - `proofs/runs`: what each run of a script prints, and how it ends.
#![tactic(auto)]
