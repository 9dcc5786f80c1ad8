//! What is said of one of several things: each line begins with its name.
ghost use Rattle.std.specs.Prelude.{◌≡◌, ◌++◌, IfOk};
ghost use Rattle.mkedit.specs.NamedLines.{named_line, named_lines};

use mk_repl::line_length;
use std::alloc::{AllocError, Allocator};

// Puts a line behind a text, with another text before it.
fn push_named<A: Allocator>(
    named: &mut Vec<u8, A>,
    before: &[u8],
    line: &[u8],
) -> Result<(), AllocError>
    ensures { IfOk result (λ _. named.new.items ≡ named.old.items ++ named_line before.now line.now) }
{
    named.extend_from_slice(before)?;
    named.extend_from_slice(line)
}

/// A text with another text before each of its lines.
///
/// # Errors
///
/// Want of memory.
pub fn named_lines<A: Allocator>(
    alloc: A,
    before: &[u8],
    text: &[u8],
) -> Result<Vec<u8, A>, AllocError>
    ensures { IfOk result (λ named. named.items ≡ named_lines before.now text.now) }
{
    let mut named = Vec::new(alloc);
    let mut rest = text;
    'lines: while !rest.is_empty() {
        let (line, after) = rest.split_at(line_length(rest));
        push_named(&mut named, before, line)?;
        rest = after;
    }
    Ok(named)
}
