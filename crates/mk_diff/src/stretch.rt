//! A stretch of two texts.

/// Some lines of the old text, and the lines of the new text that stand in their place. Lines are
/// counted from 0; a stretch goes up to its end, which is not in it.
#[derive(Clone, Copy)]
pub struct Stretch {
    /// The first of the old lines.
    pub old_start: usize,
    /// The line after the last of the old lines.
    pub old_end: usize,
    /// The first of the new lines.
    pub new_start: usize,
    /// The line after the last of the new lines.
    pub new_end: usize,
}
