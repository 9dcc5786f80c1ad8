//! The document: a makefile as the list of its lines, each with its bytes and its class.
//!
//! - [`document`]: the document, and the calls that change its lines.
//! - [`draft`]: the lines of a document while they are changed.
//! - [`parse`]: a document made of a text.
//! - `read`: lines as they are read, with their class and their cells.
//! - `plain`: which lines of a text are plain, as most are, and need no cells.
//! - `unread`: the lines of a text that are still to be read.
//! - [`end`]: what is known where the lines of a document end.
//! - `contexts`: the context of a document's lines.
//! - [`part`]: parts of a line's text, by their offsets.
//! - [`iter`]: the lines of a document in order.
//! - `as_list`: a document as the lists of Rust are: `get`, and a `for` over `&doc`.
//! - [`walk`]: the lines of a document in order, each with its context.
//! - [`run`]: lines of one kind, which a walk may pass together.
//! - [`tree`]: the balanced tree that the lines stand in, and a line by itself.
//! - `content`: what a document stores of a line.
//! - `short_class`: the class of a line as it is stored, with small numbers for its offsets.
//! - [`line_bytes`]: the bytes of a line, a part of the text that it was parsed from.
//! - `origin`: the text that a document was read from, and the lines that stand in it still.
//! - `print`: the text of a document.
//! - `shown`: documents and lines as `{:?}` shows them.
//! - [`gathering`]: texts on their way to a sink, gathered into few writes.
//! - [`views`]: the parts of a line, by name.
//! - [`laws`]: theorems on the definitions of documents.
#![tactic(auto)]

mod as_list;
mod content;
mod contexts;
pub mod document;
pub mod draft;
pub mod end;
pub mod gathering;
pub mod iter;
pub mod laws;
pub mod line_bytes;
mod origin;
pub mod parse;
pub mod part;
mod plain;
mod print;
mod read;
pub mod run;
mod short_class;
mod shown;
pub mod tree;
mod unread;
pub mod views;
pub mod walk;

pub use document::Doc;
pub use draft::Draft;
pub use end::DocEnd;
pub use iter::Lines;
pub use line_bytes::LineBytes;
pub use run::Run;
pub use tree::Line;
pub use views::{AssignmentRef, Conditional, RuleRef, TargetAssignmentRef, WordTexts, text_of};
pub use walk::ContextedLines;
