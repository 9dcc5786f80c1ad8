//! The difference of two texts, as a unified diff.
//!
//! - [`diff`]: the diff of two texts, as `patch` and `git apply` take it.
//! - [`differences`]: the stretches in which two lists of texts differ.
//! - [`painted`]: a diff in the colours of a terminal; [`shown`]: the same where colours are asked for.
//! - [`patch_name`]: the name of a file as `patch` takes it.
//!
//! Nothing here knows of makefiles: the lines are physical lines, each with its line end.
//!
//! The modules, lowest first:
//!
//! - `text`: a text that grows at its end.
//! - `name`: the name of a file in a diff.
//! - `lines`: the physical lines of a text.
//! - `stretch`: lines of the old text and the lines of the new text in their place.
//! - `places`: where each line of a text stands last.
//! - `matching`: how far two texts agree, and where they agree again.
//! - `finder`: the stretches in which two texts differ.
//! - `hunk`: the text of a hunk.
//! - `unified`: which changes make a hunk, and the whole diff.
//! - `paint`: a diff in colours.
#![tactic(auto)]

mod finder;
mod hunk;
mod lines;
mod matching;
mod name;
mod paint;
mod places;
mod stretch;
mod text;
mod unified;

pub use finder::differences;
pub use name::patch_name;
pub use paint::{painted, shown};
pub use stretch::Stretch;
pub use unified::diff;
