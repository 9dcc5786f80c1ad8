//! The lines of a command: its own line, and below it those of its blocks.
ghost use Rattle.std.specs.Prelude.{◌≡◌, ◌≢◌, [], ◌∷◌, ◌++◌, false, true, List, ℕ, IfErr, IfOk, None, Some, map};
ghost use Rattle.bstr.specs.Text.{without_terminator};

use std::alloc::Allocator;

/// Why the lines of a command are not read.
#[derive(Clone, Copy, Debug, PartialEq, Eq)]
pub enum Unread {
    /// A line has [`crate::MAX_LINE`] bytes or more before its line feed.
    TooLong,
    /// Memory ran out for the lines of a command with blocks.
    NoMemory,
}

/// The lines of a command with blocks, as far as they have come.
#[derive(Drop)]
pub(crate) struct CommandLines<'a, A: Allocator> {
    // The words that are waited for. The first ends the block that is open.
    words: &'a [&'a [u8]],
    text: Vec<u8, A>,
    // Why the text does not have all the lines.
    unread: Option<Unread>,
}

/// A line without its line end, which is LF or CR LF.
pub(crate) fn line_text(line: &[u8]) -> &[u8]
    ensures { result.now ≡ without_terminator line.now }
{
    let count = line.len();
    if count == 0 || line[count - 1] != b'\n' {
        return line;
    }
    if count == 1 || line[count - 2] != b'\r' {
        return &line[..count - 1];
    }
    &line[..count - 2]
}

impl<'a, A: Allocator> CommandLines<'a, A> {
    ghost use Rattle.mk_repl.specs.CommandLines.{AreRead, HasBlocks, Takes, waited_behind, waited_for};
    ghost use Rattle.mk_repl.specs.InputLines.{IsLong, IsShort};
    ghost use Rattle.mk_script.specs.SeenFields.{bytes};

    /// The line of a command, below which stand the lines of blocks up to these words.
    pub(crate) fn new(alloc: A, line: &[u8], words: &'a [&'a [u8]]) -> Self
        requires short { IsShort line.now }
        requires blocks { HasBlocks (line.now ∷ []) }
        ensures words { waited_for result ≡ map bytes words.now }
        ensures read { AreRead (line.now ∷ []) result.text.items result.unread }
    {
        let mut command = CommandLines {
            words,
            text: Vec::new(alloc),
            unread: None,
        };
        command.put(line);
        command
    }

    /// Whether a block is open.
    pub(crate) fn is_open(&self) -> bool
        ensures open { result ≡ true → waited_for self.now ≢ [] }
        ensures closed { result ≡ false → waited_for self.now ≡ [] }
    {
        !self.words.is_empty()
    }

    // Puts a line behind those above it, if these are in the text.
    fn put(&mut self, line: &[u8])
        requires { IsShort line.now }
        ensures words { self.new.words ≡ self.old.words }
        ensures read { (lines : List (List ℕ)) → HasBlocks (lines ++ line.now ∷ [])
            → AreRead lines self.old.text.items self.old.unread
            → AreRead (lines ++ line.now ∷ []) self.new.text.items self.new.unread }
    {
        if self.unread.is_none() && self.text.extend_from_slice(line).is_err() {
            self.unread = Some(Unread::NoMemory);
        }
    }

    // The words that are waited for behind a line, which may be the first of them.
    fn words_behind(line: &[u8], words: &'a [&'a [u8]]) -> &'a [&'a [u8]]
        requires { IsShort line.now }
        ensures { map bytes result.now ≡ waited_behind line.now (map bytes words.now) }
    {
        match words {
            [word, others @ ..] => {
                if line_text(line) == *word {
                    others
                } else {
                    words
                }
            }
            [] => words,
        }
    }

    /// Takes the next line, which may end the block that is open.
    pub(crate) fn take(&mut self, line: &[u8])
        requires { IsShort line.now }
        ensures words { waited_for self.new ≡ waited_behind line.now (waited_for self.old) }
        ensures read { Takes (line.now ∷ []) self.old self.new }
    {
        self.put(line);
        self.words = Self::words_behind(line, self.words);
    }

    /// Takes note that the next line is too long.
    pub(crate) fn lose(&mut self)
        ensures words { self.new.words ≡ self.old.words }
        ensures read { (long : List ℕ) → IsLong long → Takes (long ∷ []) self.old self.new }
    {
        if self.unread.is_none() {
            self.unread = Some(Unread::TooLong);
        }
    }

    /// The text of all lines.
    ///
    /// # Errors
    ///
    /// Why they are not read.
    pub(crate) fn text(&self) -> Result<&[u8], Unread>
        ensures text { IfOk result (λ text. (self.now.unread ≡ None)
            × (text.now ≡ self.now.text.items)) }
        ensures unread { IfErr result (λ why. self.now.unread ≡ Some why) }
    {
        match self.unread {
            Some(why) => Err(why),
            None => Ok(self.text.as_slice()),
        }
    }
}
