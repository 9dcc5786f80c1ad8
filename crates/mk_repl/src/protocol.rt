//! The replies of a makefile that is open, by the protocol.
ghost use Rattle.std.specs.Prelude.{◌≡◌, ◌⊎◌, false, true, [], Err, IfErr, IfOk, IsOkAnd, Ok, Some, is_ok};
ghost use Rattle.mk_repl.specs.AnswerLines.{answer_lines};
ghost use Rattle.mk_repl.specs.Quits.{IsWarned, MayQuit, left_with};
ghost use Rattle.mk_repl.specs.Requests.{Word, asked_of, request_in};
ghost use Rattle.mk_repl.specs.Replies.{reply_to};
ghost use Rattle.mk_repl.specs.SessionFaults.{fault_text};
ghost use Rattle.mk_repl.specs.Talks.{Tells, greeting, unread_reply};
ghost use Rattle.mk_repl.specs.SessionReplies.{IsHandled, IsOtherAnswered, IsReplyTo, answer_text};

use crate::not_done::{NotDone, put_fault};
use crate::server::Server;
use crate::{
    After, Executed, Handler, Request, RequestWord, Unread, answer_lines, read_request,
    write_greeting, write_reply, write_unread,
};
use mk_lines::sink::{write_all, write_parts};
use mk_lines::{ByteSink, Fault};

impl Server<'_> {
    // The lines of an answer, if there is one.
    fn quoted(&self, answer: Result<Vec<u8>, NotDone>) -> Result<Vec<u8>, NotDone>
        ensures lines { IfOk result (λ lines. IsOkAnd answer
            (λ text. lines.items ≡ answer_lines text.items)) }
        ensures fault { IfErr result (λ why. (answer ≡ Err why)
            ⊎ ((is_ok answer ≡ true) × (why ≡ NotDone.NoMemory))) }
    {
        match answer {
            Ok(text) => match answer_lines(self.runtime().alloc(), text.as_slice()) {
                Ok(lines) => Ok(lines),
                Err(_) => Err(NotDone::NoMemory),
            },
            Err(not_done) => Err(not_done),
        }
    }

    // Replies to a request. A file has this name.
    fn put_answer<W: ByteSink>(
        &self,
        answer: Result<Vec<u8>, NotDone>,
        name: &[u8],
        out: &mut W,
    ) -> Result<(), Fault>
        requires { W.failed out.old ≡ false }
        ensures { Tells W.contents W.failed out.old out.new result
            (λ _. IsReplyTo name.now (answer_text answer)) }
    {
        match self.quoted(answer) {
            Ok(lines) => write_parts(out, &[lines.as_slice(), b"ok\n"]),
            Err(not_done) => put_fault(not_done, name, out),
        }
    }

    // Replies to a text that is neither a command nor a request.
    fn answer_nothing<W: ByteSink>(&mut self, out: &mut W) -> Result<After, Fault>
        requires { W.failed out.old ≡ false }
        ensures told { Tells W.contents W.failed out.old out.new result (λ after reply.
            (reply ≡ fault_text NotDone.NotACommand []) × (after ≡ After.GoesOn)) }
        ensures session { self.new.session ≡ self.old.session }
        ensures opened { self.new.opened ≡ self.old.opened }
        ensures warned { self.new.is_warned ≡ false }
    {
        self.forget_quit();
        put_fault(NotDone::NotACommand, b"", out)?;
        Ok(After::GoesOn)
    }

    // Replies to a request.
    fn answer_request<W: ByteSink>(
        &mut self,
        request: Request<'_>,
        out: &mut W,
    ) -> Result<After, Fault>
        requires { W.failed out.old ≡ false }
        ensures told { Tells W.contents W.failed out.old out.new result (λ after reply.
            IsOtherAnswered (Some (asked_of request.entry)) self.old.opened self.old.session.shown reply
            after self.new.session.shown) }
        ensures opened { self.new.opened ≡ self.old.opened }
        ensures quit { result ≡ Ok After.Ends → asked_of request.entry ≡ Word RequestWord.Quit
            → MayQuit self.old.is_warned (left_with self.old.opened self.old.written)
            self.new.session.shown.text }
        ensures warned { self.new.is_warned ≡ true → asked_of request.entry ≡ Word RequestWord.Quit }
    {
        let asked = self.ask(request);
        self.put_answer(asked.answer, self.file_of(request), out)?;
        Ok(asked.after)
    }

    // Replies to a text that is no command.
    fn answer_other<W: ByteSink>(&mut self, text: &[u8], out: &mut W) -> Result<After, Fault>
        requires { W.failed out.old ≡ false }
        ensures told { Tells W.contents W.failed out.old out.new result (λ after reply.
            IsOtherAnswered (request_in text.now) self.old.opened self.old.session.shown reply after
            self.new.session.shown) }
        ensures opened { self.new.opened ≡ self.old.opened }
        ensures quit { result ≡ Ok After.Ends → request_in text.now ≡ Some (Word RequestWord.Quit)
            → MayQuit self.old.is_warned (left_with self.old.opened self.old.written)
            self.new.session.shown.text }
        ensures warned { self.new.is_warned ≡ true
            → request_in text.now ≡ Some (Word RequestWord.Quit) }
    {
        match read_request(text) {
            Some(request) => self.answer_request(request, out),
            None => self.answer_nothing(out),
        }
    }

    // Replies to a text, which is a line, or a line and below it those of its blocks.
    fn answer_to<W: ByteSink>(&mut self, text: &[u8], out: &mut W) -> Result<After, Fault>
        requires { W.failed out.old ≡ false }
        ensures told { Tells W.contents W.failed out.old out.new result (λ after reply.
            IsHandled text.now self.old.opened self.old.session.shown reply after
            self.new.session.shown
            × IsWarned (request_in text.now) reply self.old.is_warned self.new.is_warned
            × (self.new.opened ≡ self.old.opened)) }
        ensures quit { result ≡ Ok After.Ends → request_in text.now ≡ Some (Word RequestWord.Quit)
            → MayQuit self.old.is_warned (left_with self.old.opened self.old.written)
            self.new.session.shown.text }
    {
        match self.execute(text) {
            Executed::NoCommand => self.answer_other(text, out),
            executed => answer_command(executed, out),
        }
    }
}

// Replies to a command of which this came.
fn answer_command<W: ByteSink>(executed: Executed, out: &mut W) -> Result<After, Fault>
    requires { W.failed out.old ≡ false }
    ensures { Tells W.contents W.failed out.old out.new result (λ after reply.
        (reply ≡ reply_to executed) × (after ≡ After.GoesOn)) }
{
    write_reply(executed, out)?;
    Ok(After::GoesOn)
}

impl Handler for Server<'_> {
    ghost greets = { λ _ text. text ≡ greeting };

    ghost prompts = { λ _ text. text ≡ [] };

    ghost rejects = { λ old why reply new. (reply ≡ unread_reply why) × (new.session ≡ old.session)
        × (new.opened ≡ old.opened) × (new.written ≡ old.written) × (new.is_warned ≡ false) };

    ghost handles = { λ old text reply after new.
        IsHandled text old.opened old.session.shown reply after new.session.shown
        × IsWarned (request_in text) reply old.is_warned new.is_warned
        × (new.opened ≡ old.opened) };

    fn greet<W: ByteSink>(&self, out: &mut W) -> Result<(), Fault> {
        write_greeting(out)
    }

    fn prompt<W: ByteSink>(&self, out: &mut W) -> Result<(), Fault> {
        write_all(out, b"")
    }

    fn reject<W: ByteSink>(&mut self, why: Unread, out: &mut W) -> Result<(), Fault> {
        self.forget_quit();
        write_unread(why, out)
    }

    fn handle<W: ByteSink>(&mut self, text: &[u8], out: &mut W) -> Result<After, Fault> {
        self.answer_to(text, out)
    }
}
