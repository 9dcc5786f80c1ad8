//! The command of an edit as it is written: its line, and below it the lines of its blocks.
ghost use Rattle.std.specs.Prelude.{◌≡◌, ◌||◌, ◌++◌, ◌∷◌, [], false, true, IfOk, OnOk};
ghost use Rattle.mk_edit_language.specs.LineRuns.{block_lines};
ghost use Rattle.mk_script.specs.WrittenEdits.{has_line_feed, has_return};
ghost use Rattle.mk_script.specs.WrittenLines.{HasBlockMore};

use crate::end_words::free_word;
use crate::written_field::push_field;
use std::alloc::{AllocError, Allocator};

/// A command that is written.
#[derive(Drop)]
pub(crate) struct CommandText<A: Allocator> {
    /// Its line, without a line feed.
    pub(crate) line: Vec<u8, A>,
    /// The lines of its blocks, each with a line feed.
    pub(crate) below: Vec<u8, A>,
}

impl<A: Allocator + Copy> CommandText<A> {
    /// The command with one field more, which is a block. If the block has several lines, it stands below the
    /// line.
    pub(crate) fn with_block(self, alloc: A, block: &[u8]) -> Result<CommandText<A>, AllocError>
        ensures { IfOk result (λ text. HasBlockMore (block_lines block.now)
            self.line.items self.below.items text.line.items text.below.items) }
    {
        if has_line_feed(block) {
            self.with_lines(alloc, block)
        } else {
            self.with_field(block)
        }
    }

    // The same, if the block stands in the line.
    fn with_field(self, block: &[u8]) -> Result<CommandText<A>, AllocError>
        requires { has_line_feed block.now ≡ false }
        ensures { IfOk result (λ text. HasBlockMore (block_lines block.now)
            self.line.items self.below.items text.line.items text.below.items) }
    {
        let CommandText { mut line, below } = self;
        push_field(&mut line, block)?;
        Ok(CommandText { line, below })
    }

    // The same, if the block stands below the line.
    fn with_lines(self, alloc: A, block: &[u8]) -> Result<CommandText<A>, AllocError>
        requires { has_line_feed block.now ≡ true }
        ensures { IfOk result (λ text. HasBlockMore (block_lines block.now)
            self.line.items self.below.items text.line.items text.below.items) }
    {
        let CommandText {
            mut line,
            mut below,
        } = self;
        let word = free_word(alloc, block)?;
        line.extend_from_slice(b" <<")?;
        line.extend_from_slice(&word)?;
        push_line(&mut below, block)?;
        push_line(&mut below, &word)?;
        Ok(CommandText { line, below })
    }

    /// Whether the lines of a script cannot be these: that of the command has a line feed, or a line of a
    /// block a carriage return.
    pub(crate) fn is_lost(&self) -> bool
        ensures { result ≡ (has_line_feed self.now.line.items || has_return self.now.below.items) }
    {
        has_line_feed(&self.line) || has_return(&self.below)
    }

    /// The command as lines of a script.
    pub(crate) fn into_script(self) -> Result<Vec<u8, A>, AllocError>
        ensures { IfOk result (λ script.
            script.items ≡ self.line.items ++ 10 ∷ self.below.items) }
    {
        let CommandText { mut line, below } = self;
        line.extend_from_slice(b"\n")?;
        line.extend_from_slice(&below)?;
        Ok(line)
    }
}

// Puts lines behind others, and a line feed behind them.
fn push_line<A: Allocator>(lines: &mut Vec<u8, A>, text: &[u8]) -> Result<(), AllocError>
    ensures { OnOk result (lines.new.items ≡ lines.old.items ++ (text.now ++ 10 ∷ [])) }
{
    lines.extend_from_slice(text)?;
    lines.extend_from_slice(b"\n")
}

// Whether a text has a line feed.
fn has_line_feed(text: &[u8]) -> bool
    ensures { result ≡ has_line_feed text.now }
{
    text.iter().any(|byte| *byte == b'\n')
}

// Whether a text has a carriage return.
fn has_return(text: &[u8]) -> bool
    ensures { result ≡ has_return text.now }
{
    text.iter().any(|byte| *byte == b'\r')
}
