//! A talk: commands that are read and answered, one after the other, each with the lines of its blocks.
//!
//! A talk knows nothing of sessions. What a handler says and replies stands in its ghost members,
//! so what is proved of a talk holds for any handler: the replies are those to the commands read, in
//! their order.
ghost use Rattle.std.specs.Prelude.{◌≡◌, ◌∷◌, ◌++◌, List, false, true, ℕ, ⊤, IfErr, IfOk, OnOk};
ghost use Rattle.mk_lines.specs.Device.{Writes};
ghost use Rattle.mk_repl.specs.CommandLines.{AreRead, HasBlocks, LosesBelow, Takes, waited_for, words_below};
ghost use Rattle.mk_repl.specs.InputLines.{IsShort};
ghost use Rattle.mk_repl.specs.Talks.{ArePrompts, IsReplied, IsTalk, IsTurn, SaysOut, greeting, unread_reply};

use crate::command_lines::{CommandLines, Unread, line_text};
use crate::line::{LineRead, MAX_LINE, read_line};
use mk_lines::sink::write_all;
use mk_lines::{ByteSink, ByteSource, Fault};
use mk_script::block_words;
use std::alloc::Allocator;

/// Whether a talk goes on after a command.
#[derive(Clone, Copy, Debug, PartialEq, Eq)]
pub enum After {
    /// The next line is read.
    GoesOn,
    /// No more is read.
    Ends,
}

/// Somebody who replies to commands. Each has one line, or the lines of its blocks below it too.
pub trait Handler {
    ghost use Rattle.mk_repl.specs.declared.command_lines.Unread.{Unread};
    ghost use Rattle.mk_repl.specs.declared.talk.After.{After};

    // What the handler says before the first line. The default says nothing of it.
    ghost greets: { Self → List ℕ → Type 0 } = { λ _ _. ⊤ };

    // What the handler says before each line of a block. The default says nothing of it.
    ghost prompts: { Self → List ℕ → Type 0 } = { λ _ _. ⊤ };

    // What a command whose lines are not read comes to: the handler before it, why they are not read, the
    // reply, and the handler after it. The default says nothing.
    ghost rejects: { Self → Unread → List ℕ → Self → Type 0 } = { λ _ _ _ _. ⊤ };

    // What handling a command comes to: the handler before it, its text, the reply, whether the talk goes
    // on, and the handler after it. The default says nothing.
    ghost handles: { Self → List ℕ → List ℕ → After → Self → Type 0 } = { λ _ _ _ _ _. ⊤ };

    /// Says what stands before the first line is read. Nothing is flushed.
    ///
    /// # Errors
    ///
    /// [`Fault::Write`] if the sink failed.
    fn greet<W: ByteSink>(&self, out: &mut W) -> Result<(), Fault>
        requires { W.failed out.old ≡ false }
        ensures greeted { OnOk result (SaysOut (W.contents out.old) (W.contents out.new)
            (greets self.now)) }
        ensures works { OnOk result (W.failed out.new ≡ false) };

    /// Says what stands before a line of a block is read. Nothing is flushed.
    ///
    /// # Errors
    ///
    /// [`Fault::Write`] if the sink failed.
    fn prompt<W: ByteSink>(&self, out: &mut W) -> Result<(), Fault>
        requires { W.failed out.old ≡ false }
        ensures prompted { OnOk result (SaysOut (W.contents out.old) (W.contents out.new)
            (prompts self.now)) }
        ensures works { OnOk result (W.failed out.new ≡ false) };

    /// Replies to a command whose lines are not read. Nothing is flushed.
    ///
    /// # Errors
    ///
    /// [`Fault::Write`] if the sink failed.
    fn reject<W: ByteSink>(&mut self, why: Unread, out: &mut W) -> Result<(), Fault>
        requires { W.failed out.old ≡ false }
        ensures turned { OnOk result (SaysOut (W.contents out.old) (W.contents out.new)
            (λ reply. rejects self.old why reply self.new)) }
        ensures works { OnOk result (W.failed out.new ≡ false) };

    /// Replies to a command, and says whether the talk goes on. The text is a line, or a line and below it
    /// those of its blocks; the last may have no line feed. Nothing is flushed.
    ///
    /// # Errors
    ///
    /// [`Fault::Write`] if the sink failed.
    fn handle<W: ByteSink>(&mut self, text: &[u8], out: &mut W) -> Result<After, Fault>
        requires { W.failed out.old ≡ false }
        ensures handled { IfOk result (λ after. SaysOut (W.contents out.old) (W.contents out.new)
            (λ reply. handles self.old text.now reply after self.new)) }
        ensures fault { IfErr result (λ fault. (fault ≡ Fault.Write) × (W.failed out.new ≡ true)) }
        ensures works { OnOk result (W.failed out.new ≡ false) };
}

/// Writes the first line of the protocol, which has its version.
///
/// # Errors
///
/// [`Fault::Write`] if the sink failed. A prefix of the line is out then.
pub fn write_greeting<W: ByteSink>(out: &mut W) -> Result<(), Fault>
    requires { W.failed out.old ≡ false }
    ensures { Writes W.contents W.failed W.flushes out.old out.new result greeting }
{
    write_all(out, b"mkedit session 1\n")
}

/// Writes the reply of the protocol to a command whose lines are not read.
///
/// # Errors
///
/// [`Fault::Write`] if the sink failed. A prefix of the reply is out then.
pub fn write_unread<W: ByteSink>(why: Unread, out: &mut W) -> Result<(), Fault>
    requires { W.failed out.old ≡ false }
    ensures { Writes W.contents W.failed W.flushes out.old out.new result (unread_reply why) }
{
    match why {
        Unread::TooLong => write_all(out, b"fault line too long\n"),
        Unread::NoMemory => write_all(out, b"fault no memory\n"),
    }
}

// Has the handler say what stands before the first line, and flushes it.
fn greet<L: Handler, W: ByteSink>(handler: &L, out: &mut W) -> Result<(), Fault>
    requires { W.failed out.old ≡ false }
    ensures greeted { OnOk result (SaysOut (W.contents out.old) (W.contents out.new)
        (L.greets handler.now)) }
    ensures works { OnOk result (W.failed out.new ≡ false) }
{
    handler.greet(out)?;
    out.flush()
}

// Has the handler say what stands before a line of a block, and flushes it.
fn prompt<L: Handler, W: ByteSink>(handler: &L, out: &mut W) -> Result<(), Fault>
    requires { W.failed out.old ≡ false }
    ensures prompted { OnOk result (SaysOut (W.contents out.old) (W.contents out.new)
        (L.prompts handler.now)) }
    ensures works { OnOk result (W.failed out.new ≡ false) }
{
    handler.prompt(out)?;
    out.flush()
}

// Has the handler reply to a command whose lines are not read.
fn reject<L: Handler, W: ByteSink>(
    handler: &mut L,
    why: Unread,
    out: &mut W,
) -> Result<After, Fault>
    requires { W.failed out.old ≡ false }
    ensures replied { IfOk result (λ after. (after ≡ After.GoesOn)
        × SaysOut (W.contents out.old) (W.contents out.new)
        (λ reply. L.rejects handler.old why reply handler.new)) }
    ensures works { OnOk result (W.failed out.new ≡ false) }
{
    handler.reject(why, out)?;
    Ok(After::GoesOn)
}

// Reads the lines of a command's blocks, up to the words that end them or to the end of the source.
fn read_blocks<A, S, L, W>(
    source: &mut S,
    handler: &L,
    command: &mut CommandLines<'_, A>,
    below: &mut Vec<u8, A>,
    out: &mut W,
) -> Result<(), Fault>
where
    A: Allocator,
    S: ByteSource,
    L: Handler,
    W: ByteSink,
    requires source_works { S.failed source.old ≡ false }
    requires out_works { W.failed out.old ≡ false }
    ensures read { OnOk result ((lines : List (List ℕ))
        × LosesBelow (S.remaining source.old) (S.remaining source.new) (waited_for command.old) lines
        × Takes lines command.old command.new) }
    ensures prompted { OnOk result (SaysOut (W.contents out.old) (W.contents out.new)
        (ArePrompts (L.prompts handler.now))) }
    ensures source { OnOk result (S.failed source.new ≡ false) }
    ensures works { OnOk result (W.failed out.new ≡ false) }
{
    for _ in 0..u64::MAX {
        if !command.is_open() {
            return Ok(());
        }
        prompt(handler, out)?;
        match read_line(source, below)? {
            LineRead::Line => command.take(below.as_slice()),
            LineRead::TooLong => command.lose(),
            LineRead::End => return Ok(()),
        }
    }
    Err(Fault::TooLong)
}

// Reads the lines of a command's blocks, and replies to it. Its line is there.
fn answer_blocks<A, S, L, W>(
    source: &mut S,
    handler: &mut L,
    mut command: CommandLines<'_, A>,
    below: &mut Vec<u8, A>,
    out: &mut W,
) -> Result<After, Fault>
where
    A: Allocator,
    S: ByteSource,
    L: Handler,
    W: ByteSink,
    requires source_works { S.failed source.old ≡ false }
    requires out_works { W.failed out.old ≡ false }
    ensures replied { IfOk result (λ after. (lines : List (List ℕ))
        × LosesBelow (S.remaining source.old) (S.remaining source.new) (waited_for command.entry) lines
        × SaysOut (W.contents out.old) (W.contents out.new) (λ reply. (above : List (List ℕ))
        → HasBlocks above → AreRead above command.entry.text.items command.entry.unread
        → IsReplied L.prompts L.rejects L.handles (above ++ lines) handler.old reply after handler.new)) }
    ensures source { OnOk result (S.failed source.new ≡ false) }
    ensures works { OnOk result (W.failed out.new ≡ false) }
{
    read_blocks(source, handler, &mut command, below, out)?;
    match command.text() {
        Ok(text) => handler.handle(text, out),
        Err(why) => reject(handler, why, out),
    }
}

// Replies to a command whose line was read.
fn answer_command<A, S, L, W>(
    alloc: A,
    source: &mut S,
    handler: &mut L,
    line: &[u8],
    below: &mut Vec<u8, A>,
    out: &mut W,
) -> Result<After, Fault>
where
    A: Allocator,
    S: ByteSource,
    L: Handler,
    W: ByteSink,
    requires source_works { S.failed source.old ≡ false }
    requires out_works { W.failed out.old ≡ false }
    requires short { IsShort line.now }
    ensures replied { IfOk result (λ after. (lines : List (List ℕ))
        × LosesBelow (S.remaining source.old) (S.remaining source.new) (words_below line.now) lines
        × SaysOut (W.contents out.old) (W.contents out.new)
        (λ reply. IsReplied L.prompts L.rejects L.handles (line.now ∷ lines) handler.old reply after
        handler.new)) }
    ensures source { OnOk result (S.failed source.new ≡ false) }
    ensures works { OnOk result (W.failed out.new ≡ false) }
{
    let words = block_words(line_text(line));
    if words.is_empty() {
        return handler.handle(line, out);
    }
    let command = CommandLines::new(alloc, line, words.as_slice());
    answer_blocks(source, handler, command, below, out)
}

// Reads a command and replies to it. After the last one there is no reply.
fn answer_next<A, S, L, W>(
    alloc: A,
    source: &mut S,
    handler: &mut L,
    line: &mut Vec<u8, A>,
    below: &mut Vec<u8, A>,
    out: &mut W,
) -> Result<After, Fault>
where
    A: Allocator,
    S: ByteSource,
    L: Handler,
    W: ByteSink,
    requires source_works { S.failed source.old ≡ false }
    requires out_works { W.failed out.old ≡ false }
    ensures turn { IfOk result (λ after. SaysOut (W.contents out.old) (W.contents out.new)
        (λ reply. IsTurn L.prompts L.rejects L.handles (S.remaining source.old) (S.remaining source.new)
        handler.old reply after handler.new)) }
    ensures source { OnOk result (S.failed source.new ≡ false) }
    ensures works { OnOk result (W.failed out.new ≡ false) }
{
    match read_line(source, line)? {
        LineRead::Line => answer_command(alloc, source, handler, line.as_slice(), below, out),
        LineRead::TooLong => reject(handler, Unread::TooLong, out),
        LineRead::End => Ok(After::Ends),
    }
}

/// Has the handler greet, then reads command after command and has it reply, until it says that the talk
/// ends, or until there is no line any more. A command with blocks has the lines below it, up to the words
/// that end the blocks. After the greeting, after each reply and after what stands before a line of a block
/// the sink is flushed, before more is read.
///
/// # Errors
///
/// - [`Fault::NoMemory`] if there is no memory for two lines; nothing is read or written then.
/// - [`Fault::Read`] if the source answered it.
/// - [`Fault::Write`] if the sink failed.
/// - [`Fault::TooLong`] if a line has no end after 2^64 bytes, or if no end comes after 2^64 lines.
pub fn serve<A, S, L, W>(
    alloc: A,
    source: &mut S,
    handler: &mut L,
    out: &mut W,
) -> Result<(), Fault>
where
    A: Allocator + Copy,
    S: ByteSource,
    L: Handler,
    W: ByteSink,
    requires source_works { S.failed source.old ≡ false }
    requires out_works { W.failed out.old ≡ false }
    ensures talk { OnOk result (SaysOut (W.contents out.old) (W.contents out.new)
        (λ said. IsTalk L.greets L.prompts L.rejects L.handles (S.remaining source.old) handler.old said
        handler.new)) }
    ensures source { OnOk result (S.failed source.new ≡ false) }
    ensures works { OnOk result (W.failed out.new ≡ false) }
{
    let mut line = Vec::with_capacity(alloc, MAX_LINE)?;
    let mut below = Vec::with_capacity(alloc, MAX_LINE)?;
    greet(handler, out)?;
    for _ in 0..u64::MAX {
        let after = answer_next(alloc, source, handler, &mut line, &mut below, out)?;
        out.flush()?;
        match after {
            After::Ends => return Ok(()),
            After::GoesOn => {}
        }
    }
    Err(Fault::TooLong)
}
