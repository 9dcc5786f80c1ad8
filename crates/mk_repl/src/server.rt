//! A makefile that is open, and what it answers to requests.
ghost use Rattle.std.specs.Prelude.{◌≡◌, ◌||◌, IfErr, IfOk, List, None, OnOk, Some, [], false, true, is_ok, map, option_and_then};
ghost use Rattle.mk_diff.specs.HunkTexts.{diff_text};
ghost use Rattle.mk_diff.specs.Hunks.{Hunk, IsDiff};
ghost use Rattle.mk_diff.specs.NameTexts.{patch_name};
ghost use Rattle.mk_lines.specs.PhysicalLines.{physical_lines};
ghost use Rattle.mk_run.specs.ExecutedSteps.{is_met, is_missing};
ghost use Rattle.mk_run.specs.RunSteps.{IsExecuted};
ghost use Rattle.mk_script.specs.Scripts.{Alone, Tried, numbered, numbered_edit, step_of};
ghost use Rattle.mk_repl.specs.CommandLogs.{IsKept};
ghost use Rattle.mk_repl.specs.StandingScripts.{MakesText};
ghost use Rattle.mk_repl.specs.AnswerLines.{lines_between};
ghost use Rattle.mk_repl.specs.Replies.{AreExecuted, IsLineExecuted, reply_to};
ghost use Rattle.mk_repl.specs.Requests.{Of, Word, asked_of};
ghost use Rattle.mk_session.specs.Sessions.{IsOpeningFault, seen_opened};
ghost use Rattle.mk_tree.specs.Documents.{document_lines};
ghost use Rattle.mk_repl.specs.QueryTexts.{query_text};
ghost use Rattle.mk_repl.specs.Quits.{IsLeft, MayQuit, left_with};
ghost use Rattle.mk_repl.specs.SessionForms.{in_form};
ghost use Rattle.mk_repl.specs.SessionReplies.{HasAnswer, IfScript, IsListed, IsRequestDone, IsReverted, after_request, answer_printed, answer_text, is_quit};

use crate::answer::{came_of, unread};
use crate::command_log::CommandLog;
use crate::help_text::HELP;
use crate::not_done::NotDone;
use crate::on_disk::{look, look_missing, put, put_or_make};
use crate::question::{json_lines, put_lines};
use crate::text_lines::text_lines;
use crate::{After, Executed, Request, RequestOf, RequestWord, Reverted, lines_between, revert};
use mk_cli::{Form, Query, SessionWords, command_called, put_explanation, put_help, refusal_of};
use mk_diff::{diff, patch_name};
use mk_escape::TextSink;
use mk_fs::{AsRead, Expected};
use mk_lines::Fault;
use mk_run::{RefusedCommand, Step, execute_step, parse_script};
use mk_script::{NumberedCommand, NumberedEdit};
use mk_session::lookup::get;
use mk_session::{Command, Refusal, Session};
use mk_tree::text_of;
use std::alloc::Global;
use std::str::from_utf8;

/// How a makefile was opened.
#[derive(Drop)]
pub struct Opened<'a> {
    /// Its name, as the command line has it.
    pub name: &'a str,
    /// How answers are written.
    pub form: Form,
    /// Its text then.
    pub text: Vec<u8>,
}

/// A makefile that is open.
#[derive(Drop)]
pub struct Server<'a> {
    rt: &'a HostRuntime,
    session: Session<Global>,
    opened: Opened<'a>,
    // The text as it was written last, if it was.
    written: Option<Vec<u8>>,
    // Whether there is no file yet.
    is_missing: bool,
    command_log: CommandLog,
    // Whether the last request was a `quit` that was not done.
    is_warned: bool,
    // Whether a request has ended the session.
    is_over: bool,
    ghost kept: { ∥ IsKept opened.text.items command_log session.shown ∥₁ },
}

/// What came of a request.
#[derive(Drop)]
pub struct Asked {
    /// The text of the answer, or why the request is not done.
    pub answer: Result<Vec<u8>, NotDone>,
    /// Whether the session goes on.
    pub after: After,
}

// Whether a request asks that the session ends.
fn is_quit(request: Request<'_>) -> bool
    ensures { result ≡ is_quit (asked_of request.entry) }
{
    match request {
        Request::Word(RequestWord::Quit | RequestWord::QuitAnyway) => true,
        _ => false,
    }
}

// Whether a refusal behind `try` is none.
fn is_idle(refusal: Refusal) -> bool
    ensures { result ≡ (is_missing refusal || is_met refusal) }
{
    matches!(
        refusal,
        Refusal::NoSuch | Refusal::Absent | Refusal::Already
    )
}

// The query that answers a request of one word, if one does.
fn listed_word(word: RequestWord) -> Option<Query<'static>>
    ensures { IsListed (Word word) result }
{
    match word {
        RequestWord::Vars => Some(Query::Vars(None)),
        RequestWord::Rules => Some(Query::Rules(None)),
        RequestWord::Recipes => Some(Query::Recipes(None)),
        RequestWord::Check => Some(Query::Check),
        RequestWord::Caveats => Some(Query::Caveats),
        _ => None,
    }
}

// The same of a request of two words.
fn listed_of(of: RequestOf, word: &[u8]) -> Option<Query<'_>>
    ensures { IsListed (Of of word.now) result }
{
    match of {
        RequestOf::Vars => Some(Query::Vars(Some(word))),
        RequestOf::Rules => Some(Query::Rules(Some(word))),
        RequestOf::Recipes => Some(Query::Recipes(Some(word))),
        _ => None,
    }
}

// The query that answers a request, if one does.
fn listed(request: Request<'_>) -> Option<Query<'_>>
    ensures { IsListed (asked_of request.entry) result }
{
    match request {
        Request::Of(of, word) => listed_of(of, word),
        Request::Word(word) => listed_word(word),
        _ => None,
    }
}

// Whether the session goes on after a request that was done or not.
fn after_request(request: Request<'_>, is_done: bool) -> After
    ensures { result ≡ after_request (asked_of request.entry) is_done }
{
    if is_quit(request) && is_done {
        After::Ends
    } else {
        After::GoesOn
    }
}

impl<'a> Server<'a> {
    ghost use Rattle.mk_repl.specs.Answered.{IsAnswered, IsChange, IsDone};

    /// Opens a text, which is that of the makefile, or that of a makefile that is missing.
    ///
    /// # Errors
    ///
    /// Those of [`Session::open_vec`].
    pub fn open(
        rt: &'a HostRuntime,
        words: SessionWords<'a>,
        text: Vec<u8>,
        is_missing: bool,
    ) -> Result<Server<'a>, Fault>
        ensures session { IfOk result (λ server. server.session ≡ seen_opened words.entry.depth text.items) }
        ensures opened { IfOk result (λ server. server.opened.text.items ≡ text.items) }
        ensures name { IfOk result (λ server. server.opened.name ≡ words.entry.file) }
        ensures form { IfOk result (λ server. server.opened.form ≡ words.entry.form) }
        ensures written { IfOk result (λ server. server.written ≡ None) }
        ensures warned { IfOk result (λ server. server.is_warned ≡ false) }
        ensures fault { IfErr result (λ fault. IsOpeningFault words.entry.depth text.items fault) }
    {
        let session = Session::open_vec(rt.alloc(), text, words.depth)?;
        let opened = Opened {
            name: words.file,
            form: words.form,
            text: text_of(rt.alloc(), session.doc())?,
        };
        Ok(Server {
            rt,
            session,
            opened,
            written: None,
            is_missing,
            command_log: CommandLog::new(rt.alloc(), words.depth as usize),
            is_warned: false,
            is_over: false,
        })
    }

    /// The runtime.
    pub fn runtime(&self) -> &'a HostRuntime {
        self.rt
    }

    /// The name of the makefile, as the command line has it.
    pub fn name(&self) -> &'a str {
        self.opened.name
    }

    /// The bytes that the makefile was left with.
    pub fn left(&self) -> &[u8]
        ensures { result.now ≡ left_with self.now.opened self.now.written }
    {
        match &self.written {
            Some(text) => text.as_slice(),
            None => self.opened.text.as_slice(),
        }
    }

    /// The text that is shown.
    ///
    /// # Errors
    ///
    /// [`NotDone::NoMemory`].
    pub fn text(&self) -> Result<Vec<u8>, NotDone>
        ensures text { IfOk result (λ text. text.items ≡ self.now.session.shown.text) }
        ensures fault { IfErr result (λ fault. fault ≡ NotDone.NoMemory) }
    {
        Ok(text_of(self.rt.alloc(), self.session.doc())?)
    }

    // The lines of the text from one number to another.
    fn print(&self, from: u64, to: u64) -> Result<Vec<u8>, NotDone>
        ensures { IfOk result (λ lines. lines.items ≡ lines_between from to self.now.session.shown.text) }
    {
        let text = self.text()?;
        let lines = lines_between(text.as_slice(), from, to);
        Ok(Vec::from_slice(self.rt.alloc(), lines)?)
    }

    // What has changed since the text was opened.
    fn diff(&self) -> Result<Vec<u8>, NotDone>
        ensures { IfOk result (λ text. (hunks : List Hunk)
            × IsDiff (physical_lines self.now.opened.text.items)
            (physical_lines self.now.session.shown.text) hunks
            × (text.items ≡ diff_text (patch_name self.now.opened.name.now) hunks)) }
    {
        let text = self.text()?;
        let name = patch_name(self.opened.name.as_bytes());
        match diff(
            self.rt.alloc(),
            self.opened.text.as_slice(),
            text.as_slice(),
            name,
        ) {
            Ok(text) => Ok(text),
            Err(_) => Err(NotDone::NoMemory),
        }
    }

    // An answer in the form that is asked for.
    fn in_form(&self, text: Vec<u8>) -> Result<Vec<u8>, NotDone>
        ensures { HasAnswer (in_form self.now.opened.form text.items) (answer_text result) }
    {
        match self.opened.form {
            Form::Text => Ok(text),
            Form::Json => Ok(text_lines(self.rt.alloc(), text.as_slice())?),
        }
    }

    // The answer to a query, for a person.
    fn query_text(&self, query: Query<'_>) -> Result<Vec<u8>, NotDone>
        ensures { HasAnswer (query_text query.entry (document_lines self.now.session.shown.text))
            (answer_text result) }
    {
        let mut sink = TextSink::new(self.rt.alloc());
        match put_lines(query, self.session.doc(), &mut sink) {
            Ok(()) => Ok(sink.text),
            Err(_) => Err(NotDone::NoMemory),
        }
    }

    // The answer to a query, in the form that is asked for.
    fn query(&self, query: Query<'_>) -> Result<Vec<u8>, NotDone>
        ensures { HasAnswer (option_and_then (in_form self.now.opened.form)
            (query_text query.entry (document_lines self.now.session.shown.text)))
            (answer_text result) }
    {
        let alloc = self.rt.alloc();
        match self.opened.form {
            Form::Text => self.query_text(query),
            Form::Json => Ok(json_lines(alloc, query, self.opened.name, self.session.doc())?),
        }
    }

    // What is said of the refusal that a word calls.
    fn explain(&self, word: &[u8]) -> Result<Vec<u8>, NotDone> {
        let Ok(word) = from_utf8(word) else {
            return Err(NotDone::NoRefusal);
        };
        let Some(refusal) = refusal_of(word) else {
            return Err(NotDone::NoRefusal);
        };
        let mut sink = TextSink::new(self.rt.alloc());
        match put_explanation(&refusal, &mut sink) {
            Ok(()) => Ok(sink.text),
            Err(_) => Err(NotDone::NoMemory),
        }
    }

    // What is said of the command that has a word.
    fn help(&self, word: &[u8]) -> Result<Vec<u8>, NotDone> {
        let Ok(word) = from_utf8(word) else {
            return Err(NotDone::NoCommand);
        };
        let Some(command) = command_called(word) else {
            return Err(NotDone::NoCommand);
        };
        let mut sink = TextSink::new(self.rt.alloc());
        match put_help(command, &mut sink) {
            Ok(()) => Ok(sink.text),
            Err(_) => Err(NotDone::NoMemory),
        }
    }

    // The value of a variable, which `set` would change, and the end of its line.
    fn get(&self, nth: Option<u32>, name: &[u8]) -> Result<Vec<u8>, NotDone> {
        match get(self.session.doc(), nth, name) {
            Ok(value) => {
                let mut text = Vec::from_slice(self.rt.alloc(), value)?;
                text.extend_from_slice(b"\n")?;
                Ok(text)
            }
            Err(refusal) => Err(NotDone::Refused(refusal)),
        }
    }

    // The value of one of several assignments.
    fn get_nth(&self, nth: u64, name: &[u8]) -> Result<Vec<u8>, NotDone> {
        match u32::try_from(nth) {
            Ok(nth) => self.get(Some(nth), name),
            Err(_) => Err(NotDone::Refused(Refusal::NoSuch)),
        }
    }

    // Puts the text into the makefile's place, and answers it.
    fn put_text(&self) -> Result<Vec<u8>, NotDone>
        ensures { IfOk result (λ text. text.items ≡ self.now.session.shown.text) }
    {
        let (rt, name, text) = (self.rt, self.opened.name, self.text()?);
        if self.is_missing {
            put_or_make(rt, name, text.as_slice())?;
        } else {
            put(rt, name, Expected::AnyFile, text.as_slice())?;
        }
        Ok(text)
    }

    // The same, if the makefile is as it was left.
    fn put_if_left(&self) -> Result<Vec<u8>, NotDone>
        ensures { IfOk result (λ text. text.items ≡ self.now.session.shown.text) }
    {
        let (rt, name, text) = (self.rt, self.opened.name, self.text()?);
        if self.is_missing {
            look_missing(rt, name)?;
            put(rt, name, Expected::Nothing, text.as_slice())?;
            return Ok(text);
        }
        let left = self.left();
        let file = &look(rt, name, left)?;
        let expected = Expected::AsRead(AsRead { file, text: left });
        put(rt, name, expected, text.as_slice())?;
        Ok(text)
    }

    // Takes note of the text that the makefile has now.
    fn note_written(&mut self, text: Vec<u8>)
        ensures session { self.new.session ≡ self.old.session }
        ensures opened { self.new.opened ≡ self.old.opened }
        ensures written { self.new.written ≡ Some text }
    {
        self.is_missing = false;
        self.written = Some(text);
    }

    // Puts the text into the makefile's place.
    fn write_text(&mut self) -> Result<(), NotDone>
        ensures session { self.new.session ≡ self.old.session }
        ensures opened { self.new.opened ≡ self.old.opened }
        ensures left { IsLeft self.old.opened (Word RequestWord.WriteAnyway) (is_ok result)
            self.new.session.shown.text self.old.written self.new.written }
    {
        let text = self.put_text()?;
        self.note_written(text);
        Ok(())
    }

    // The same, if the makefile is as it was left.
    fn write_if_left(&mut self) -> Result<(), NotDone>
        ensures session { self.new.session ≡ self.old.session }
        ensures opened { self.new.opened ≡ self.old.opened }
        ensures left { IsLeft self.old.opened (Word RequestWord.Write) (is_ok result)
            self.new.session.shown.text self.old.written self.new.written }
    {
        let text = self.put_if_left()?;
        self.note_written(text);
        Ok(())
    }

    // Puts the text into a file of this name. The makefile's own name is `write`.
    fn write_to(&mut self, file: &[u8]) -> Result<(), NotDone>
        ensures session { self.new.session ≡ self.old.session }
        ensures opened { self.new.opened ≡ self.old.opened }
        ensures left { IsLeft self.old.opened (Of RequestOf.Write file.now) (is_ok result)
            self.new.session.shown.text self.old.written self.new.written }
    {
        let Ok(file) = from_utf8(file) else {
            return Err(NotDone::CannotWrite);
        };
        if file == self.opened.name {
            return self.write_if_left();
        }
        let text = self.text()?;
        put_or_make(self.rt, file, text.as_slice())
    }

    // Undoes all that can be undone.
    fn revert(&mut self) -> Result<(), NotDone>
        ensures reverted { IsReverted self.old.opened.text.items self.old.session.shown self.new.session.shown result }
        ensures opened { self.new.opened ≡ self.old.opened }
        ensures written { self.new.written ≡ self.old.written }
    {
        let reverted = revert(
            self.rt.alloc(),
            &mut self.session,
            self.opened.text.as_slice(),
        );
        if reverted.is_ok() {
            self.command_log.note_reverted();
        }
        match reverted {
            Ok(Reverted::Opened) => Ok(()),
            Ok(Reverted::BeyondDepth) => Err(NotDone::BeyondDepth),
            Ok(Reverted::Unknown) => Err(NotDone::NoMemory),
            Err(refusal) => Err(NotDone::Refused(refusal)),
        }
    }

    // Whether all changes are in the makefile, or the request before was a `quit` that was not done.
    fn quit(&self) -> Result<(), NotDone>
        ensures { OnOk result (MayQuit self.now.is_warned (left_with self.now.opened self.now.written)
            self.now.session.shown.text) }
    {
        if self.is_warned {
            return Ok(());
        }
        let text = self.text()?;
        if text.as_slice() == self.left() {
            Ok(())
        } else {
            Err(NotDone::Unwritten)
        }
    }

    /// Whether a request has ended the session.
    pub fn is_over(&self) -> bool {
        self.is_over
    }

    /// Whether the session has changes that are not in the makefile, and no request has said to drop them.
    pub fn is_unwritten(&self) -> bool {
        !self.is_over && self.quit().is_err()
    }

    // The edits that stand, as a script.
    fn script(&self) -> Result<Vec<u8>, NotDone>
        ensures { IfOk result (λ script. MakesText script.items self.now.opened.text.items
            self.now.session.shown.text) }
    {
        Ok(self.command_log.script()?)
    }

    // The commands and the requests, for a person.
    fn commands(&self) -> Result<Vec<u8>, NotDone> {
        Ok(Vec::from_slice(self.rt.alloc(), HELP.as_bytes())?)
    }

    // The text of the answer to a question of one word that no query answers: `diff`, `history`, `script`
    // or `help`.
    fn text_of_word(&self, word: RequestWord) -> Result<Vec<u8>, NotDone>
        ensures { IfScript (Word word) (IfOk result (λ script. MakesText script.items
            self.now.opened.text.items self.now.session.shown.text)) }
    {
        match word {
            RequestWord::Diff => self.diff(),
            RequestWord::History => Ok(self.command_log.text()?),
            RequestWord::Script => self.script(),
            _ => self.commands(),
        }
    }

    // The same of two words: `explain`, `help` or `get`.
    fn text_of_two(&self, of: RequestOf, word: &[u8]) -> Result<Vec<u8>, NotDone> {
        match of {
            RequestOf::Explain => self.explain(word),
            RequestOf::Help => self.help(word),
            _ => self.get(None, word),
        }
    }

    // The text of the answer to a question that no query answers.
    fn text_of(&self, request: Request<'_>) -> Result<Vec<u8>, NotDone>
        ensures printed { HasAnswer (answer_printed self.now.session.shown.text (asked_of request.entry))
            (answer_text result) }
        ensures script { IfScript (asked_of request.entry) (IfOk result (λ script. MakesText script.items
            self.now.opened.text.items self.now.session.shown.text)) }
    {
        match request {
            Request::Print(from, to) => self.print(from, to),
            Request::GetNth(nth, name) => self.get_nth(nth, name),
            Request::Of(of, word) => self.text_of_two(of, word),
            Request::Word(word) => self.text_of_word(word),
        }
    }

    // What is answered to a question.
    fn answer(&self, request: Request<'_>) -> Result<Vec<u8>, NotDone>
        ensures { IsAnswered (asked_of request.entry) self.now (answer_text result) }
    {
        match listed(request) {
            Some(query) => self.query(query),
            None => self.in_form(self.text_of(request)?),
        }
    }

    // What came of a request of one word that is no question.
    fn change_word(&mut self, word: RequestWord) -> Option<Result<(), NotDone>>
        ensures { IsChange (Word word) self.old self.new result }
    {
        match word {
            RequestWord::Write => Some(self.write_if_left()),
            RequestWord::WriteAnyway => Some(self.write_text()),
            RequestWord::Revert => Some(self.revert()),
            RequestWord::Quit => Some(self.quit()),
            RequestWord::QuitAnyway => Some(Ok(())),
            _ => None,
        }
    }

    // The same of two words.
    fn change_of(&mut self, of: RequestOf, word: &[u8]) -> Option<Result<(), NotDone>>
        ensures { IsChange (Of of word.now) self.old self.new result }
    {
        match of {
            RequestOf::Write => Some(self.write_to(word)),
            _ => None,
        }
    }

    // What came of a request that is no question.
    fn change(&mut self, request: Request<'_>) -> Option<Result<(), NotDone>>
        ensures { IsChange (asked_of request.entry) self.old self.new result }
    {
        match request {
            Request::Of(of, word) => self.change_of(of, word),
            Request::Word(word) => self.change_word(word),
            Request::Print(_, _) | Request::GetNth(_, _) => None,
        }
    }

    // What is answered to a request.
    fn done(&mut self, request: Request<'_>) -> Result<Vec<u8>, NotDone>
        ensures { IsDone (asked_of request.entry) self.old self.new (answer_text result) }
    {
        match self.change(request) {
            Some(Ok(())) => Ok(Vec::new(self.rt.alloc())),
            Some(Err(not_done)) => Err(not_done),
            None => self.answer(request),
        }
    }

    // Executes a command alone, and takes note of it if it is done.
    fn execute_alone(&mut self, text: &[u8], alone: NumberedCommand) -> Result<(), RefusedCommand>
        ensures executed { IsExecuted (Alone (numbered alone)) result self.old.session.shown
            self.new.session.shown }
        ensures opened { self.new.opened ≡ self.old.opened }
        ensures written { self.new.written ≡ self.old.written }
        ensures warned { self.new.is_warned ≡ self.old.is_warned }
    {
        match self.session.execute(&alone.command) {
            Ok(()) => {
                self.command_log.note(text, alone.command);
                Ok(())
            }
            Err(refusal) => Err(RefusedCommand {
                line: alone.line,
                refusal,
            }),
        }
    }

    // The same of an edit behind `try`: an idle refusal is none.
    fn execute_try(&mut self, text: &[u8], tried: NumberedEdit) -> Result<(), RefusedCommand>
        ensures executed { IsExecuted (Tried (numbered_edit tried)) result self.old.session.shown
            self.new.session.shown }
        ensures opened { self.new.opened ≡ self.old.opened }
        ensures written { self.new.written ≡ self.old.written }
        ensures warned { self.new.is_warned ≡ self.old.is_warned }
    {
        match self.session.apply(&tried.edit) {
            Ok(()) => {
                self.command_log.note(text, Command::Apply(tried.edit));
                Ok(())
            }
            Err(refusal) if is_idle(refusal) => Ok(()),
            Err(refusal) => Err(RefusedCommand {
                line: tried.line,
                refusal,
            }),
        }
    }

    // The same of a step. A session is told of no chain: its lines are commands of their own.
    fn execute_step(&mut self, text: &[u8], step: Step) -> Result<(), RefusedCommand>
        ensures executed { IsExecuted (step_of step) result self.old.session.shown
            self.new.session.shown }
        ensures opened { self.new.opened ≡ self.old.opened }
        ensures written { self.new.written ≡ self.old.written }
        ensures warned { self.new.is_warned ≡ self.old.is_warned }
    {
        match step {
            Step::Alone(alone) => self.execute_alone(text, alone),
            Step::Try(tried) => self.execute_try(text, tried),
            chain => {
                self.command_log.lose();
                execute_step(&mut self.session, &chain, &mut ())
            }
        }
    }

    // The same of the steps of a text, of which there may be one.
    fn execute_only(&mut self, text: &[u8], mut steps: Vec<Step>) -> Executed
        ensures executed { AreExecuted (map step_of steps.items) self.old.session.shown
            self.new.session.shown result }
        ensures opened { self.new.opened ≡ self.old.opened }
        ensures written { self.new.written ≡ self.old.written }
        ensures warned { self.new.is_warned ≡ self.old.is_warned }
    {
        if steps.len() > 1 {
            return Executed::NoCommand;
        }
        match steps.pop() {
            Some(step) => came_of(self.execute_step(text, step)),
            None => Executed::Nothing,
        }
    }

    // The same of a text.
    fn execute_text(&mut self, text: &[u8]) -> Executed
        ensures executed { IsLineExecuted text.now self.old.session.shown self.new.session.shown result }
        ensures opened { self.new.opened ≡ self.old.opened }
        ensures written { self.new.written ≡ self.old.written }
        ensures warned { self.new.is_warned ≡ self.old.is_warned }
    {
        match parse_script(self.rt.alloc(), text) {
            Ok(steps) => self.execute_only(text, steps),
            Err(fault) => unread(fault),
        }
    }

    /// Executes the command of a text, if it is one: a line, or a line and below it those of its blocks.
    pub fn execute(&mut self, text: &[u8]) -> Executed
        ensures executed { IsLineExecuted text.now self.old.session.shown self.new.session.shown result }
        ensures opened { self.new.opened ≡ self.old.opened }
        ensures written { self.new.written ≡ self.old.written }
        ensures warned { self.new.is_warned ≡ true
            → (reply_to result ≡ []) × (self.old.is_warned ≡ true) }
        ensures name { self.new.opened.name ≡ self.old.opened.name }
    {
        let executed = self.execute_text(text);
        if matches!(executed, Executed::Done | Executed::Refused(_)) {
            self.is_warned = false;
        }
        executed
    }

    /// Takes note of a text that is neither a command nor a request: a `quit` behind it is the first one.
    pub(crate) fn forget_quit(&mut self)
        ensures session { self.new.session ≡ self.old.session }
        ensures opened { self.new.opened ≡ self.old.opened }
        ensures written { self.new.written ≡ self.old.written }
        ensures warned { self.new.is_warned ≡ false }
    {
        self.is_warned = false;
    }

    /// The name of the file of which a reply to a request tells: that of the makefile, or of the file that
    /// the request names.
    pub fn file_of<'b>(&self, request: Request<'b>) -> &'b [u8]
    where
        'a: 'b,
    {
        match request {
            Request::Of(RequestOf::Write, file) => file,
            _ => self.opened.name.as_bytes(),
        }
    }

    /// Answers a request. The second `quit` in a row ends the session.
    pub fn ask(&mut self, request: Request<'_>) -> Asked
        ensures done { IsRequestDone (asked_of request.entry) self.old.opened self.old.session.shown
            self.new.session.shown (answer_text result.answer) }
        ensures opened { self.new.opened ≡ self.old.opened }
        ensures after { result.after ≡ after_request (asked_of request.entry) (is_ok result.answer) }
        ensures quit { asked_of request.entry ≡ Word RequestWord.Quit → OnOk result.answer
            (MayQuit self.old.is_warned (left_with self.old.opened self.old.written)
            self.new.session.shown.text) }
        ensures left { IsLeft self.old.opened (asked_of request.entry) (is_ok result.answer)
            self.new.session.shown.text self.old.written self.new.written }
        ensures warned { self.new.is_warned ≡ true → asked_of request.entry ≡ Word RequestWord.Quit }
    {
        let answer = self.done(request);
        self.is_warned = matches!(request, Request::Word(RequestWord::Quit));
        let after = after_request(request, answer.is_ok());
        self.is_over = after == After::Ends;
        Asked { answer, after }
    }
}
