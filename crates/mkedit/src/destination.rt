//! Where the text of a makefile goes.
ghost use Rattle.std.specs.Prelude.{◌≡◌};
ghost use Rattle.mkedit.specs.Destinations.{destination_of};

use crate::input::open_input;
use mk_cli::{Backup, Input, Output};
use mk_fs::{Stream, SystemFault, open};
use std::fs::File;

/// Where a text, or a diff in its place, is printed.
#[derive(Clone, Copy)]
pub enum Printed<'a> {
    /// On standard output.
    Standard,
    /// In the file of this name, which is written in place of what it has.
    File(&'a str),
    /// Nowhere: the commands are tried.
    Nowhere,
}

/// Where the text of a makefile goes.
#[derive(Clone, Copy)]
pub enum Destination<'a> {
    /// It is printed.
    Printed(Printed<'a>),
    /// Into the place of the makefile of this name. The suffix is that of the old one's second name, if
    /// it is kept.
    InPlace(&'a str, Option<&'a str>),
}

/// Where the text of this makefile goes. In place of standard input, which the command line does not
/// take, is standard output.
pub fn destination_of<'a>(output: Output<'a>, file: Input<'a>) -> Destination<'a>
    ensures { result ≡ destination_of output.entry file.entry }
{
    match (output, file) {
        (Output::Standard, _) => Destination::Printed(Printed::Standard),
        (Output::File(name), _) => Destination::Printed(Printed::File(name)),
        (Output::Nowhere, _) => Destination::Printed(Printed::Nowhere),
        (Output::InPlace(Backup(suffix)), Input::File(name)) => Destination::InPlace(name, suffix),
        (Output::InPlace(_), Input::Standard) => Destination::Printed(Printed::Standard),
    }
}

/// A makefile that is open, and where its text goes.
#[derive(Drop)]
pub enum Makefile<'a> {
    /// Its text is printed.
    Printed(Stream<'a>, Printed<'a>),
    /// Its text takes its place. It has this name, and the suffix is that of the old one's second name,
    /// if it is kept.
    InPlace(File, &'a str, Option<&'a str>),
}

/// Opens a makefile whose text goes there.
///
/// # Errors
///
/// The fault of a file that cannot be opened.
pub fn open_makefile<'a>(
    rt: &HostRuntime,
    output: Output<'a>,
    file: Input<'a>,
) -> Result<Makefile<'a>, SystemFault<'a>> {
    match destination_of(output, file) {
        Destination::Printed(to) => Ok(Makefile::Printed(open_input(rt, file)?, to)),
        Destination::InPlace(name, suffix) => Ok(Makefile::InPlace(open(rt, name)?, name, suffix)),
    }
}
