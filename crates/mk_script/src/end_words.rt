//! The words with which the blocks of an edit end in a script.
ghost use Rattle.std.specs.Prelude.{◌≡◌, false, true, IfOk, OnOk};
ghost use Rattle.mk_edit_language.specs.LineRuns.{block_lines};
ghost use Rattle.mk_script.specs.Blocks.{is_word};
ghost use Rattle.mk_script.specs.WrittenEdits.{end_word_of, free_word, has_line};

use bstr::ByteSlice;
use std::alloc::{AllocError, Allocator};

/// The word with which a block ends in a script: the first of `E`, `E1`, `E2` and so on that no line of the
/// block is.
pub(crate) fn free_word<A: Allocator + Copy>(
    alloc: A,
    block: &[u8],
) -> Result<Vec<u8, A>, AllocError>
    ensures word { IfOk result (λ word. word.items ≡ free_word (block_lines block.now)) }
    ensures is_word { OnOk result (is_word (free_word (block_lines block.now)) ≡ true) }
    ensures free { OnOk result
        (has_line (block_lines block.now) (free_word (block_lines block.now)) ≡ false) }
{
    // The contract of `len` bounds the number of lines.
    let _length = block.len();
    let mut number = 0;
    loop {
        let word = end_word(alloc, number)?;
        if has_line(block, &word) {
            number += 1;
        } else {
            return Ok(word);
        }
    }
}

// The word of this number.
fn end_word<A: Allocator>(alloc: A, number: u64) -> Result<Vec<u8, A>, AllocError>
    ensures { IfOk result (λ word. word.items ≡ end_word_of number) }
{
    let mut word = Vec::from_slice(alloc, b"E")?;
    if number > 0 {
        let mut digits = itoa::Buffer::new();
        word.extend_from_slice(digits.format(number).as_bytes())?;
    }
    Ok(word)
}

// Whether a line of a block is this word.
fn has_line(block: &[u8], word: &[u8]) -> bool
    ensures { result ≡ has_line (block_lines block.now) word.now }
{
    let mut rest = block;
    'lines: while let Some(feed) = rest.find_byte(b'\n') {
        if &rest[..feed] == word {
            return true;
        }
        rest = &rest[feed + 1..];
    }
    rest == word
}
