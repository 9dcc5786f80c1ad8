//! The lines of a makefile, and the devices that its bytes come from and go to.
//!
//! - [`fault`]: why a call gave up.
//! - [`source`]: where bytes come from, and how a whole text is read from there.
//! - [`sink`]: where bytes go to, and how a whole text or some parts are written there.
//! - [`split`]: the logical lines of a text.
//! - [`ends`]: how a line ends.
//! - [`unit`]: the units of a text, and whether it is closed.
//! - [`blank`]: spaces and tabs.
//! - [`word`]: the words of a text.
//! - [`iter`]: the iterators over units and words.
//! - [`cells`]: a logical line with its folds made spaces.
//! - [`laws`]: theorems on the definitions of lines, cells, units and words.
#![tactic(auto)]

pub mod blank;
pub mod cells;
pub mod ends;
pub mod fault;
pub mod iter;
pub mod laws;
pub mod sink;
pub mod source;
pub mod split;
pub mod unit;
pub mod word;

pub use blank::{after_blanks, is_blank};
pub use cells::Cells;
pub use ends::End;
pub use fault::Fault;
pub use iter::{Units, Words};
pub use sink::{ByteSink, StdSink};
pub use source::{ByteSource, StdSource};
pub use split::Span;
pub use unit::{after_first_unit, is_closed, split_first_unit, units};
pub use word::{split_first_word, words};
