//! Whether a script stands where a makefile should: SCRIPT and FILE may be exchanged, or one of several
//! FILEs is a script too.
//!
//! A line of a makefile is almost never a command of a script, so a file that is a script
//! throughout is no makefile. Whether SCRIPT reads as a makefile is not asked: every text does.
ghost use Rattle.std.specs.Prelude.{◌≡◌, false};

use crate::ending::End;
use mk_cli::{EditWords, Input, Script, ScriptMistake};
use mk_escape::write_name;
use mk_fs::{is_regular, open};
use mk_lines::{ByteSource, StdSink, StdSource};
use mk_run::read_script;
use std::alloc::Allocator;

// Whether the bytes of a source are a script that has a command. Where they cannot be read to their end,
// that is not known.
fn is_script<A: Allocator + Copy, S: ByteSource>(alloc: A, source: &mut S) -> bool
    requires { S.failed source.old ≡ false }
{
    match read_script(alloc, source) {
        Ok(steps) => !steps.is_empty(),
        Err(_) => false,
    }
}

// Whether the file of a name is a script that has a command. It is opened for this alone, and another
// file than a regular one is not: to open a pipe may wait without end.
fn is_script_file(rt: &HostRuntime, name: &str) -> bool {
    if !is_regular(rt, name) {
        return false;
    }
    match open(rt, name) {
        Ok(file) => is_script(rt.alloc(), &mut StdSource::new(file)),
        Err(_) => false,
    }
}

/// The same end; where it knows a mistake of the script, and the first makefile is a script, with the
/// makefile's name. Standard input is not read for it, and commands of the command line are exchanged
/// with nothing.
pub fn with_exchanged<'a>(rt: &HostRuntime, words: &EditWords<'a>, end: End<'a>) -> End<'a>
    ensures { result.outcome ≡ end.entry.outcome }
{
    let (Script::From(_), Some(found), Some(Input::File(name))) = (
        &words.script,
        end.mistake,
        words.files.first(),
    ) else {
        return end;
    };
    if !is_script_file(rt, name) {
        return end;
    }
    end.with_mistake(Some(ScriptMistake {
        exchanged: Some(*name),
        ..found
    }))
}

/// Says on standard error which of several makefiles is a script, if one is: it would be edited as a
/// makefile, where its commands were to be executed.
pub fn tell_script(rt: &HostRuntime, words: &EditWords<'_>) -> bool {
    let files = words.files.as_slice();
    if words.force_text || files.len() < 2 {
        return false;
    }
    for file in files {
        if let Input::File(name) = *file {
            if is_script_file(rt, name) {
                let name = name.as_bytes();
                let told =
                    b" is a script: there is one SCRIPT alone, unless --force-text makes it a FILE\n";
                let _ = write_name(&mut StdSink::new(rt.stderr()), b"mkedit: ", name, told);
                return true;
            }
        }
    }
    false
}
