//! An index of a document, so that a session need not walk over all lines for each edit.
//!
//! - [`bucket`]: the hash of a word, and the bucket of a hash.
//! - [`chains`]: which words stand in which block of lines.
//! - [`keys`]: the words by which edits find a line.
//! - [`blocks`]: the lines of a document, cut into blocks.
//! - [`follow`]: how blocks follow the steps of a patch.
//! - [`marks`]: which blocks are marked.
//! - [`index`]: the words of all blocks.
//! - [`effect`]: what a change of the document means for what is known of it.
//! - [`finder`]: what is known of a document that is edited.
//! - [`numbered`]: the lines of a variable that edits mean by numbers.
//! - [`document`]: a document with what is known of it.
//! - [`change`]: a patch as a change of such a document.
//!
//! An index says where not to look. The walk over its windows is the walk over all lines, by the
//! same code and the same proof, so an edit is planned alike whoever has found its line. All that
//! is proved of an index is that no line outside of the windows concerns the edit: a mention need
//! not be true, and a wrong one costs a look at a block.
#![tactic(auto)]

pub mod blocks;
pub mod bucket;
pub mod chains;
pub mod change;
pub mod document;
pub mod effect;
pub mod finder;
pub mod follow;
pub mod index;
pub mod keys;
pub mod marks;
pub mod numbered;

pub use change::IndexedPatch;
pub use document::IndexedDoc;
pub use finder::Finder;
pub use index::Index;
pub use keys::{Expected, Scope};
