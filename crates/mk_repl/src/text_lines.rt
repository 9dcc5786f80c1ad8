//! Answers as lines of JSON.

use crate::line_length;
use mk_queries::push_text_line;
use std::alloc::{AllocError, Allocator};

/// The lines of an answer as lines of JSON, each an object with the text of its line.
///
/// # Errors
///
/// [`AllocError`] if a growth was refused.
pub(crate) fn text_lines<A: Allocator + Copy>(
    alloc: A,
    text: &[u8],
) -> Result<Vec<u8, A>, AllocError> {
    let mut lines = Vec::new(alloc);
    let mut rest = text;
    'lines: while !rest.is_empty() {
        let (line, after) = rest.split_at(line_length(rest));
        lines = match line.strip_suffix(b"\n") {
            Some(ended) => push_text_line(lines, alloc, ended, false)?,
            None => push_text_line(lines, alloc, line, true)?,
        };
        rest = after;
    }
    Ok(lines)
}
