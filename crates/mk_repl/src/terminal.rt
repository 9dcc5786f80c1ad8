//! A makefile that is open at a terminal: a prompt before each line, and sentences for replies.
//!
//! This is a second handler, and not a second loop: the greeting is the first prompt, and each
//! reply ends with the next one. Before the line of a block stands a shorter prompt. An end of the
//! input that does not end the session ends a talk, and another one begins. Which lines of a diff show
//! an edit is told by the diff without colours: with colours a line begins with a sequence of the terminal.
ghost use Rattle.std.specs.Prelude.{◌≡◌, ◌++◌, codes, false, ⊤, IfOk, OnOk};
ghost use Rattle.mk_lines.specs.Device.{Writes};
ghost use Rattle.mk_repl.specs.Talks.{Tells};
ghost use Rattle.mk_diff.specs.PaintedDiffs.{shown_diff};
ghost use Rattle.mk_escape.specs.Escapes.{escaped};

use crate::not_done::NotDone;
use crate::sentences::{AS_IT_WAS, NO_MEMORY, TOO_LONG, changed_lines, mistake_sentence, sentence};
use crate::server::Server;
use crate::{
    After, Executed, Handler, Request, RequestOf, RequestWord, Unread, read_request, serve,
};
use mk_diff::{diff, patch_name, shown};
use mk_escape::{Layout, escaped};
use mk_lines::sink::{write_all, write_parts};
use mk_lines::{ByteSink, ByteSource, Fault};
use mk_session::Refusal;
use std::mem;

// Writes a text, and a prompt with this name and this mark behind it.
fn write_prompt<'b, W: ByteSink>(
    said: &'b [u8],
    name: &'b [u8],
    mark: &'b [u8],
    out: &mut W,
) -> Result<(), Fault>
    requires { W.failed out.old ≡ false }
    ensures { Writes W.contents W.failed W.flushes out.old out.new result
        (said.now ++ (name.now ++ (mark.now ++ codes "> "))) }
{
    write_parts(out, &[said, name, mark, b"> "])
}

// A makefile that is open at a terminal.
#[derive(Drop)]
struct Terminal<'s, 'a> {
    server: &'s mut Server<'a>,
    // The name of the makefile, its control characters escaped.
    name: Vec<u8>,
    // The text as it was shown last.
    shown: Vec<u8>,
    // Whether a diff has colours.
    has_color: bool,
}

impl<'s, 'a> Terminal<'s, 'a> {
    // The session is at its first line.
    fn open(server: &'s mut Server<'a>, has_color: bool) -> Result<Terminal<'s, 'a>, Fault> {
        let alloc = server.runtime().alloc();
        let name = escaped(alloc, server.name().as_bytes(), Layout::Escaped)?;
        let shown = Vec::from_slice(alloc, server.left())?;
        Ok(Terminal {
            server,
            name,
            shown,
            has_color,
        })
    }

    // A mark where there are unwritten changes.
    fn mark(&self) -> &'static [u8] {
        if self.shown.as_slice() == self.server.left() {
            b""
        } else {
            b"*"
        }
    }

    // Writes a text, and what stands before the next line.
    fn put_prompt<W: ByteSink>(&self, said: &[u8], out: &mut W) -> Result<(), Fault>
        requires { W.failed out.old ≡ false }
        ensures { Tells W.contents W.failed out.old out.new result (λ _ _. ⊤) }
    {
        write_prompt(said, &self.name, self.mark(), out)
    }

    // The sentence on a request that is not done, of the file of this name.
    fn sentence(&self, not_done: NotDone, name: &[u8]) -> Result<Vec<u8>, NotDone> {
        let alloc = self.server.runtime().alloc();
        let name = escaped(alloc, name, Layout::Escaped)?;
        Ok(sentence(alloc, not_done, name.as_slice())?)
    }

    // A diff as it is shown.
    fn diff_shown(&self, diff: &[u8]) -> Result<Vec<u8>, NotDone>
        ensures { IfOk result (λ text. text.items
            ≡ shown_diff self.now.has_color (escaped Layout.Kept diff.now)) }
    {
        let alloc = self.server.runtime().alloc();
        let diff = escaped(alloc, diff, Layout::Kept)?;
        match shown(alloc, diff, self.has_color) {
            Ok(text) => Ok(text),
            Err(_) => Err(NotDone::NoMemory),
        }
    }

    // The lines of a diff that were taken out and put in, as they are shown.
    fn changes_of(&self, diff: &[u8]) -> Result<Vec<u8>, NotDone> {
        let alloc = self.server.runtime().alloc();
        let shown = self.diff_shown(diff)?;
        Ok(changed_lines(alloc, diff, shown.as_slice())?)
    }

    // What has changed since the text was shown last, of which no more is said from now on.
    fn change(&mut self) -> Result<Vec<u8>, NotDone> {
        let alloc = self.server.runtime().alloc();
        let text = self.server.text()?;
        let shown = mem::replace(&mut self.shown, text);
        let name = patch_name(self.server.name().as_bytes());
        match diff(alloc, shown.as_slice(), self.shown.as_slice(), name) {
            Ok(diff) => self.changes_of(diff.as_slice()),
            Err(_) => Err(NotDone::NoMemory),
        }
    }

    // What a command that was done has changed.
    fn done(&mut self) -> Result<Vec<u8>, NotDone> {
        let changed = self.change()?;
        if changed.is_empty() {
            return Ok(Vec::from_slice(self.server.runtime().alloc(), AS_IT_WAS)?);
        }
        Ok(changed)
    }

    // That a file is written.
    fn written(&self, name: &[u8]) -> Result<Vec<u8>, NotDone> {
        let mut said = escaped(self.server.runtime().alloc(), name, Layout::Escaped)?;
        said.extend_from_slice(b" is written.\n")?;
        Ok(said)
    }

    // The answer to a request, and a line end behind it where it has none.
    fn answer(&mut self, request: Request<'_>) -> Result<Vec<u8>, NotDone> {
        let text = self.server.ask(request).answer?;
        let file = self.server.file_of(request);
        match request {
            Request::Word(RequestWord::Write | RequestWord::WriteAnyway)
            | Request::Of(RequestOf::Write, _) => self.written(file),
            Request::Word(RequestWord::Revert) => self.done(),
            Request::Word(RequestWord::Diff) => self.diff_shown(text.as_slice()),
            _ => {
                let alloc = self.server.runtime().alloc();
                let mut text = escaped(alloc, &text, Layout::Kept)?;
                if !matches!(text.last(), None | Some(b'\n')) {
                    text.extend_from_slice(b"\n")?;
                }
                Ok(text)
            }
        }
    }

    // What is said of a request. What one has undone that is not done is shown too.
    fn said_of(&mut self, request: Request<'_>) -> Result<Vec<u8>, NotDone> {
        match self.answer(request) {
            Ok(text) => Ok(text),
            Err(not_done) => {
                let mut said = self.change()?;
                let file = self.server.file_of(request);
                let sentence = self.sentence(not_done, file)?;
                said.extend_from_slice(sentence.as_slice())?;
                Ok(said)
            }
        }
    }

    // That a text is neither a command nor a request, and what is wrong with it as a command.
    fn no_command(&self, text: &[u8]) -> Result<Vec<u8>, NotDone> {
        let mut said = self.sentence(NotDone::NotACommand, b"")?;
        let mistake = mistake_sentence(self.server.runtime().alloc(), text)?;
        said.extend_from_slice(mistake.as_bytes())?;
        Ok(said)
    }

    // What is said of a text that is no command.
    fn said_of_other(&mut self, text: &[u8]) -> Result<Vec<u8>, NotDone> {
        let request = match read_request(text) {
            Some(request) => Some(request),
            None => usual_request(text),
        };
        match request {
            Some(request) => self.said_of(request),
            None => {
                self.server.forget_quit();
                self.no_command(text)
            }
        }
    }

    // What is said of a text, which is a line, or a line and below it those of its blocks.
    fn said(&mut self, text: &[u8]) -> Result<Vec<u8>, NotDone> {
        match self.server.execute(text) {
            Executed::Done => self.done(),
            Executed::Refused(Refusal::NoMemory) => Err(NotDone::NoMemory),
            Executed::Refused(refusal) => self.sentence(NotDone::Refused(refusal), b""),
            Executed::Nothing => Ok(Vec::new(self.server.runtime().alloc())),
            Executed::NoCommand => self.said_of_other(text),
        }
    }

    // Says a text, and the next prompt if the session goes on.
    fn put_said<W: ByteSink>(&self, said: &[u8], out: &mut W) -> Result<After, Fault>
        requires { W.failed out.old ≡ false }
        ensures { Tells W.contents W.failed out.old out.new result (λ _ _. ⊤) }
    {
        if self.server.is_over() {
            write_all(out, said)?;
            return Ok(After::Ends);
        }
        self.put_prompt(said, out)?;
        Ok(After::GoesOn)
    }

    // The key that ends the input was pressed, which is `quit`.
    fn end<W: ByteSink>(&mut self, out: &mut W) -> Result<(), Fault>
        requires { W.failed out.old ≡ false }
        ensures works { OnOk result (W.failed out.new ≡ false) }
    {
        let said = self.said_of(Request::Word(RequestWord::Quit));
        write_parts(out, &[b"\n", text_said(&said)])?;
        out.flush()
    }
}

// The request that a word of other programs means.
fn usual_request<'a>(line: &[u8]) -> Option<Request<'a>> {
    match line.trim_ascii() {
        b"save" | b"w" => Some(Request::Word(RequestWord::Write)),
        b"exit" | b"q" => Some(Request::Word(RequestWord::Quit)),
        b"q!" => Some(Request::Word(RequestWord::QuitAnyway)),
        _ => None,
    }
}

// What is to be said, or that there is no memory for it.
fn text_said(said: &Result<Vec<u8>, NotDone>) -> &[u8] {
    match said {
        Ok(text) => text.as_slice(),
        Err(_) => NO_MEMORY.as_bytes(),
    }
}

impl Handler for Terminal<'_, '_> {
    fn greet<W: ByteSink>(&self, out: &mut W) -> Result<(), Fault> {
        self.put_prompt(b"", out)
    }

    fn prompt<W: ByteSink>(&self, out: &mut W) -> Result<(), Fault> {
        write_all(out, b"> ")
    }

    fn reject<W: ByteSink>(&mut self, why: Unread, out: &mut W) -> Result<(), Fault> {
        self.server.forget_quit();
        let sentence = match why {
            Unread::TooLong => TOO_LONG,
            Unread::NoMemory => NO_MEMORY.as_bytes(),
        };
        self.put_prompt(sentence, out)
    }

    fn handle<W: ByteSink>(&mut self, text: &[u8], out: &mut W) -> Result<After, Fault> {
        let said = self.said(text);
        self.put_said(text_said(&said), out)
    }
}

// Replies to the lines of a source up to its end, which is a `quit`, or up to another one.
fn serve_once<S: ByteSource, W: ByteSink>(
    terminal: &mut Terminal<'_, '_>,
    source: &mut S,
    out: &mut W,
) -> Result<(), Fault>
    requires source_works { S.failed source.old ≡ false }
    requires out_works { W.failed out.old ≡ false }
    ensures source { OnOk result (S.failed source.new ≡ false) }
    ensures works { OnOk result (W.failed out.new ≡ false) }
{
    serve(terminal.server.runtime().alloc(), source, terminal, out)?;
    if terminal.server.is_over() {
        return Ok(());
    }
    terminal.end(out)?;
    Ok(())
}

// Replies to the lines of a source, also behind an end of it that is a `quit` which is not done.
fn serve_all<S: ByteSource, W: ByteSink>(
    server: &mut Server<'_>,
    has_color: bool,
    source: &mut S,
    out: &mut W,
) -> Result<(), Fault>
    requires source_works { S.failed source.old ≡ false }
    requires out_works { W.failed out.old ≡ false }
{
    let mut terminal = Terminal::open(server, has_color)?;
    for _ in 0..u64::MAX {
        serve_once(&mut terminal, source, out)?;
        if terminal.server.is_over() {
            return Ok(());
        }
    }
    Err(Fault::TooLong)
}

/// Replies at a terminal to the lines of a source, also behind an end of it that is a `quit` which is
/// not done. What changes is shown in colours or not. The session is not given up: the program ends soon.
///
/// # Errors
///
/// Those of [`serve`], and [`Fault::NoMemory`] if there is none for the text that is shown.
pub fn serve_at_terminal<S: ByteSource, W: ByteSink>(
    mut server: Server<'_>,
    has_color: bool,
    source: &mut S,
    out: &mut W,
) -> Result<(), Fault>
    requires source_works { S.failed source.old ≡ false }
    requires out_works { W.failed out.old ≡ false }
{
    let served = serve_all(&mut server, has_color, source, out);
    mem::forget(server);
    served
}
