//! `mkedit session`: a makefile that is edited step by step. Each line of standard input is a command or
//! a request, and is answered before the next one is read, by [`mk_repl`].
ghost use Rattle.std.specs.Prelude.{◌≡◌, false};
ghost use Rattle.mk_repl.specs.SessionForms.{is_by_protocol};

use crate::ending::{End, ended};
use mk_cli::{Form, Report, SessionWords, has_color};
use mk_fs::{Cause, STANDARD_OUTPUT, SystemFault, WithError, open};
use mk_lines::source::read_all;
use mk_lines::{ByteSink, ByteSource, Fault, StdSink, StdSource};
use mk_repl::{Server, serve, serve_at_terminal};
use std::io::{ErrorKind, IsTerminal};
use std::mem;
use std::process::ExitCode;

// Opens the makefile, which may be missing if the words say so, and a session over it.
fn open_server<'a>(rt: &'a HostRuntime, words: SessionWords<'a>) -> Result<Server<'a>, End<'a>> {
    let makefile = match open(rt, words.file) {
        Ok(makefile) => makefile,
        Err(
            SystemFault {
                cause: Cause::NotOpened(ErrorKind::NotFound),
                ..
            },
        ) if words.may_be_new => return Ok(Server::open(rt, words, Vec::new(rt.alloc()), true)?),
        Err(fault) => return Err(End::from(fault)),
    };
    let text = read_all(rt.alloc(), &mut StdSource::new(makefile))?;
    Ok(Server::open(rt, words, text, false)?)
}

// To whom a session replies.
#[derive(Clone, Copy)]
enum Asker {
    // A program, by the protocol.
    Program,
    // A person at a terminal, who sees what changes in colours or not.
    Person { has_color: bool },
}

// Whether the replies are those of the protocol, also at a terminal: JSON is for programs.
fn is_by_protocol(words: SessionWords<'_>) -> bool
    ensures { result ≡ is_by_protocol words.entry }
{
    words.by_protocol || words.form == Form::Json
}

// To whom a session replies whose standard streams are terminals or not.
fn asker_of(rt: &HostRuntime, words: SessionWords<'_>) -> Asker {
    if is_by_protocol(words) || !rt.stdin().is_terminal() {
        return Asker::Program;
    }
    Asker::Person {
        has_color: has_color(rt, words.color, rt.stdout().is_terminal()),
    }
}

// Replies to the lines of a source. The session is not given up: the program ends soon.
fn reply<S: ByteSource, W: ByteSink>(
    rt: &HostRuntime,
    asker: Asker,
    mut server: Server<'_>,
    source: &mut S,
    out: &mut W,
) -> Result<(), Fault>
    requires source_works { S.failed source.old ≡ false }
    requires out_works { W.failed out.old ≡ false }
{
    if let Asker::Person { has_color } = asker {
        return serve_at_terminal(server, has_color, source, out);
    }
    let talked = serve(rt.alloc(), source, &mut server, out);
    if server.is_unwritten() && rt.stderr().is_terminal() {
        let _ = eprintln!(rt; "mkedit: note: the input has ended, and the changes are not written");
    }
    mem::forget(server);
    talked
}

// Replies to the lines of standard input, on standard output.
fn talk<'a>(rt: &'a HostRuntime, words: SessionWords<'a>, server: Server<'a>) -> End<'a> {
    let asker = asker_of(rt, words);
    let mut source = StdSource::new(rt.stdin());
    let mut device = WithError::new(rt.stdout());
    let mut out = StdSink::new(&mut device);
    let talked = reply(rt, asker, server, &mut source, &mut out);
    End::of_print(talked).with_fault(device.fault(STANDARD_OUTPUT))
}

/// Opens the makefile, replies to the lines of standard input, and answers the status.
pub fn session<'a>(rt: &'a HostRuntime, words: SessionWords<'a>) -> ExitCode {
    let end = match open_server(rt, words) {
        Ok(server) => talk(rt, words, server),
        Err(end) => end,
    };
    ended(rt, &end, Report::Plain.at(rt.stderr().is_terminal()))
}
