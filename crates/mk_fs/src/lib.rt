//! Files: what is read, what is written, and how a makefile is replaced in one step.
//!
//! - [`fault`]: which file or stream failed, and why, as a note says it.
//! - [`with_error`]: readers and writers that remember why they failed.
//! - [`files`]: files beside the standard streams.
//! - [`stream`]: a file, standard input or a text as one kind of reader.
//! - [`out_file`]: a sink to a file that is opened at the first write or flush.
//! - [`in_place`]: a sink to a makefile, whose name a new file takes when the text is whole and on the disk.
#![tactic(auto)]

pub mod fault;
pub mod files;
pub mod in_place;
pub mod out_file;
pub mod stream;
pub mod with_error;

pub use fault::{Cause, STANDARD_INPUT, STANDARD_OUTPUT, SystemFault};
pub use files::{Created, create, is_regular, open};
pub use in_place::{AsRead, Expected, InPlaceFile, Removed, SameBytes, same_bytes};
pub use out_file::OutFile;
pub use stream::Stream;
pub use with_error::WithError;
