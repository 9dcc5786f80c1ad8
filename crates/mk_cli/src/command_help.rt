//! What `mkedit help` says of a command of a script: its form, what it does, its refusals and an example.
ghost use Rattle.std.specs.Prelude.{◌≡◌, false, true, IfErr, OnOk};

use crate::command_texts::texts;
use mk_lines::sink::write_parts;
use mk_lines::{ByteSink, Fault};
use mk_script::table::command_form;

/// What is said of a command of a script.
#[derive(Clone, Copy)]
pub struct CommandHelp {
    // Its word and its fields.
    form: &'static str,
    // What it does, its refusals and an example.
    text: &'static str,
}

/// What is said of the command of a script that has this word, if one has.
pub fn command_called(word: &str) -> Option<CommandHelp> {
    let command = command_form(word.as_bytes())?;
    for (known, text) in texts() {
        if *known == word {
            return Some(CommandHelp {
                form: command.0,
                text,
            });
        }
    }
    None
}

/// What is said of the command of a script on which the words ask for help, if they do: they are the
/// program's name, `help` and the word of the command.
pub fn asked_command(words: &[String]) -> Option<CommandHelp> {
    match words {
        [_, help, word] if help.as_str() == "help" => command_called(word.as_str()),
        _ => None,
    }
}

/// Writes the form of a command, and below it what is said of it. It is flushed once.
///
/// # Errors
///
/// [`Fault::Write`] if the sink failed. A prefix is out then.
pub fn put_help<W: ByteSink>(command: CommandHelp, out: &mut W) -> Result<(), Fault>
    requires { W.failed out.old ≡ false }
    ensures works { OnOk result (W.failed out.new ≡ false) }
    ensures fault { IfErr result (λ fault. (fault ≡ Fault.Write) × (W.failed out.new ≡ true)) }
{
    write_parts(
        out,
        &[command.form.as_bytes(), b"\n\n", command.text.as_bytes()],
    )?;
    out.flush()
}
