//! Support for tests, and for programs of rows: an allocator that refuses growths, and sources and sinks
//! over bytes in memory that move few bytes a call, fail or take nothing.
//!
//! - [`watched`]: the allocator.
//! - [`sources`]: sources.
//! - [`sinks`]: a sink.
//! - [`rows`]: tables of rows, as a program runs them.
//! - [`calls`]: rows of calls that allocate or write.
//! - [`text`]: texts as rows have them.
//! - [`difference`]: what a row is answered in another way than it expects.
#![tactic(auto)]

pub mod calls;
pub mod difference;
pub mod rows;
pub mod sinks;
pub mod sources;
pub mod text;
pub mod watched;

pub use calls::{Calls, Case, Heap, run_call};
pub use rows::{RunRow, run_tables};
pub use sinks::MemorySink;
pub use sources::MemorySource;
pub use watched::{Growths, Watched};
