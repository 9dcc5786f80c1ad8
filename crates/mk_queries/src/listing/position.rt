//! Where a line stands.

/// Where a line of a document stands.
#[derive(Clone, Copy, Debug, PartialEq, Eq)]
pub struct Position {
    /// The index of the line, from 0: how many lines are above it.
    pub index: usize,
    /// The number of its first physical line, from 1, as editors count lines.
    pub number: usize,
    /// How many conditionals are open there. The line that ends one is still within it.
    pub conditionals: u16,
}
