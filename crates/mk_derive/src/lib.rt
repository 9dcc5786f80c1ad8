//! A script out of two makefiles: [`derive`] finds commands that make the new one of the old one.
//!
//! The commands are found by [`mk_search`]. At its end the whole script is run over the old makefile, and
//! given only if that gives the new one.
//!
//! - `tried`: the run that tries a script.
//! - `derived`: the search and the run together.
//! - `put`: a script that goes out; `script`: into a file or on standard output.
#![tactic(auto)]

mod derived;
mod put;
mod script;
mod tried;

pub use derived::derive;
pub use mk_search::{DeriveError, Makefile, Unwritten};
pub use put::{NotPut, put_derived};
pub use script::{Names, Stop, put_script};
