//! What scripts and makefiles are read from, and what they are called.
ghost use Rattle.std.specs.Prelude.{◌≡◌};
ghost use Rattle.mkedit.specs.Destinations.{input_name, name_of};

use crate::ending::End;
use mk_cli::{COMMAND_LINES, EditWords, Input, Report, Script};
use mk_fs::{STANDARD_INPUT, Stream, SystemFault, WithError, open};
use mk_lines::StdSource;
use mk_lines::source::read_all;
use mk_notes::Names;

/// Opens an input to be read.
///
/// # Errors
///
/// The fault of a file that cannot be opened.
pub fn open_input<'a>(rt: &HostRuntime, input: Input<'a>) -> Result<Stream<'a>, SystemFault<'a>> {
    match input {
        Input::File(name) => Ok(Stream::File(open(rt, name)?)),
        Input::Standard => Ok(Stream::Standard(rt.stdin())),
    }
}

/// Opens a script to be read.
///
/// # Errors
///
/// The fault of a file that cannot be opened.
pub fn open_script<'s, 'a>(
    rt: &HostRuntime,
    script: &'s Script<'a>,
) -> Result<Stream<'s>, SystemFault<'a>> {
    match script {
        Script::From(Input::File(name)) => Ok(Stream::File(open(rt, name)?)),
        Script::From(Input::Standard) => Ok(Stream::Standard(rt.stdin())),
        Script::Lines(lines) => Ok(Stream::Text(lines.as_bytes())),
    }
}

/// The text of a stream that is read to its end and has this name.
///
/// # Errors
///
/// How a run ends that cannot read it.
pub fn text_of<'a>(
    rt: &HostRuntime,
    stream: Stream<'_>,
    name: &'a str,
) -> Result<Vec<u8>, End<'a>> {
    let mut device = WithError::new(stream);
    let read = read_all(rt.alloc(), &mut StdSource::new(&mut device));
    match read {
        Ok(text) => Ok(text),
        Err(fault) => Err(
            End::from(fault)
                .with_fault(device.fault(name))
                .with_limit(name),
        ),
    }
}

/// What a makefile is called where lines begin with its name.
pub fn name_of<'a>(file: Input<'a>) -> &'a str
    ensures { result.now ≡ name_of file.entry }
{
    match file {
        Input::File(name) => name,
        Input::Standard => "-",
    }
}

/// What a file is called in notes.
pub fn input_name<'a>(file: Input<'a>) -> &'a str
    ensures { result.now ≡ input_name file.entry }
{
    match file {
        Input::File(name) => name,
        Input::Standard => STANDARD_INPUT,
    }
}

/// What a script is called in notes.
pub fn script_name<'a>(script: &Script<'a>) -> &'a str {
    match script {
        Script::From(file) => input_name(*file),
        Script::Lines(_) => COMMAND_LINES,
    }
}

/// What the words call the script and this makefile in notes, and the form of these.
pub fn names_of<'a>(words: &EditWords<'a>, file: Input<'a>) -> Names<'a> {
    Names {
        makefile: input_name(file),
        script: script_name(&words.script),
        is_json: words.report == Report::Json,
    }
}
