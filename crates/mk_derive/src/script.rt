//! The script as `mkedit derive` puts it out: into a file or on standard output. Where there is none, the reason
//! is told on standard error.

use crate::put::{NotPut, put_derived};
use mk_escape::shown_name;
use mk_fs::{OutFile, STANDARD_OUTPUT, SystemFault, WithError};
use mk_lines::StdSink;
use mk_run::Outcome;
use mk_search::{DeriveError, Makefile, Unwritten};

/// What the two makefiles are called.
#[derive(Clone, Copy)]
pub struct Names<'a> {
    /// The one that the script is for.
    pub old: &'a str,
    /// The one that it makes.
    pub new: &'a str,
}

impl<'a> Names<'a> {
    fn of(self, makefile: Makefile) -> &'a str {
        match makefile {
            Makefile::Old => self.old,
            Makefile::New => self.new,
        }
    }
}

/// Why no script is out.
#[derive(Clone, Copy)]
pub struct Stop<'a> {
    /// The outcome that stands for it.
    pub outcome: Outcome,
    /// What the file or standard output failed with, if it failed.
    pub fault: Option<SystemFault<'a>>,
    /// The makefile that is beyond a limit, if the outcome says so.
    pub name: &'a str,
}

/// Puts out a script that makes the new text of the old one: into the file of a name, or on standard output.
///
/// # Errors
///
/// Why there is none, or why it could not be written.
pub fn put_script<'a>(
    rt: &'a HostRuntime,
    output: Option<&'a str>,
    names: Names<'a>,
    old: &[u8],
    new: &[u8],
) -> Result<(), Stop<'a>> {
    if let Some(name) = output {
        let mut out = OutFile::new(rt, name);
        let put = put_derived(rt.alloc(), old, new, &mut out);
        return told(rt, names, put, out.fault());
    }
    let mut device = WithError::new(rt.stdout());
    let put = put_derived(rt.alloc(), old, new, &mut StdSink::new(&mut device));
    told(rt, names, put, device.fault(STANDARD_OUTPUT))
}

// What a script came to, which is told where there is none.
fn told<'a>(
    rt: &HostRuntime,
    names: Names<'a>,
    put: Result<(), NotPut>,
    fault: Option<SystemFault<'a>>,
) -> Result<(), Stop<'a>> {
    let (outcome, name) = match put {
        Ok(()) => return Ok(()),
        Err(NotPut::NoScript(error)) => told_error(rt, names, error),
        Err(NotPut::Unwritten(fault)) => (Outcome::from(fault), names.new),
    };
    Err(Stop {
        outcome,
        fault,
        name,
    })
}

// The outcome where there is no script, and the makefile that it is about.
fn told_error<'a>(rt: &HostRuntime, names: Names<'a>, error: DeriveError) -> (Outcome, &'a str) {
    match error {
        DeriveError::Unread(makefile, fault) => (Outcome::from(fault), names.of(makefile)),
        DeriveError::NoMemory => (Outcome::NoMemory, names.new),
        DeriveError::NoCommand(lines) => {
            let name = names.of(lines.makefile);
            let _ = tell_lines(rt, name, &lines);
            (Outcome::Refused(1), name)
        }
        DeriveError::NotTried => {
            let _ = eprintln!(rt; "mkedit: no script makes NEW of OLD");
            (Outcome::Refused(1), names.new)
        }
    }
}

// Tells which lines no command writes, and why.
fn tell_lines(rt: &HostRuntime, name: &str, lines: &Unwritten) -> std::io::Result<()> {
    let name = shown_name(rt.alloc(), name)?;
    let (first, last, reason) = (lines.first, lines.last, lines.reason());
    if first < last {
        eprintln!(rt; "{name}:{first}: no command writes lines {first} to {last}: {reason}")
    } else {
        eprintln!(rt; "{name}:{first}: no command writes line {first}: {reason}")
    }
}
