//! The lines of an answer, as they stand before its reply.
//!
//! A last line without a line feed has a mark of its own, so that each reply begins a line, and the
//! text can be told from one that has the line feed.
ghost use Rattle.std.specs.Prelude.{◌≡◌, ◌++◌, IfOk};
ghost use Rattle.mk_repl.specs.AnswerLines.{answer_line, answer_lines};

use crate::lines::line_length;
use std::alloc::{AllocError, Allocator};

// What stands before a line of an answer, and before its last line if that has no line feed.
const LINE: &[u8] = b"| ";

const OPEN_LINE: &[u8] = b"|~ ";

// Puts a line behind a text, as a line of an answer.
fn push_line<A: Allocator>(answer: &mut Vec<u8, A>, line: &[u8]) -> Result<(), AllocError>
    ensures { IfOk result (λ _. answer.new.items ≡ answer.old.items ++ answer_line line.now) }
{
    if line.last() == Some(&b'\n') {
        answer.extend_from_slice(LINE)?;
        return answer.extend_from_slice(line);
    }
    answer.extend_from_slice(OPEN_LINE)?;
    answer.extend_from_slice(line)?;
    answer.extend_from_slice(b"\n")
}

/// A text as the lines of an answer: each line behind `| `, and a last line without a line feed behind
/// `|~ `, with one.
///
/// # Errors
///
/// Want of memory.
pub fn answer_lines<A: Allocator>(alloc: A, text: &[u8]) -> Result<Vec<u8, A>, AllocError>
    ensures { IfOk result (λ answer. answer.items ≡ answer_lines text.now) }
{
    let mut answer = Vec::new(alloc);
    let mut rest = text;
    'lines: while !rest.is_empty() {
        let (line, after) = rest.split_at(line_length(rest));
        push_line(&mut answer, line)?;
        rest = after;
    }
    Ok(answer)
}
