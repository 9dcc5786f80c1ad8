//! The commands with their arguments, and the program by which `clap` reads words.

use crate::arguments::{
    Argument, BACKUP, CHECK, COLOR, DEPTH, DIFF, EXPRESSION, FILES, FORCE_TEXT, IN_PLACE, JSON,
    KEEP_GOING, Kind, NAME, NEW, NEW_MAKEFILE, NOTES, NTH, OLD_MAKEFILE, OUTPUT, PROTOCOL, REFUSAL,
    REPORT, SCRIPT, SESSION_FILE, SUMMARY, TARGET, VARIABLE,
};
use crate::help;
use clap::builder::ValueParser;
use clap::{Arg, ArgAction, Command};
use std::alloc::{AllocError, Global};

/// The version that `--version` names, of which CHANGELOG.md says what is new, and a place for the
/// commit: tools/link writes its first twelve digits over `not recorded` in the built program.
const VERSION: &str = "0.1.0 (commit not recorded)";

// A command of the program.
#[derive(Clone, Copy)]
struct Subcommand {
    // The word that names it.
    word: &'static str,
    // What it does, in a line.
    about: &'static str,
    // Its options in the order in which help lists them, and its words in theirs.
    arguments: &'static [Argument],
}

// All commands, in the order in which help lists them.
static SUBCOMMANDS: [Subcommand; 10] = [
    Subcommand {
        word: "edit",
        about: "Runs a script over a makefile and prints the result",
        arguments: &[
            KEEP_GOING, DEPTH, OUTPUT, IN_PLACE, BACKUP, DIFF, COLOR, CHECK, SUMMARY, FORCE_TEXT,
            EXPRESSION, NOTES, REPORT, SCRIPT, FILES,
        ],
    },
    Subcommand {
        word: "derive",
        about: "Prints a script that makes one makefile of another",
        arguments: &[OUTPUT, NOTES, OLD_MAKEFILE, NEW_MAKEFILE],
    },
    Subcommand {
        word: "vars",
        about: "Lists the assignments of a makefile",
        arguments: &[NAME, JSON, NOTES, FILES],
    },
    Subcommand {
        word: "rules",
        about: "Lists the rules of a makefile",
        arguments: &[TARGET, JSON, NOTES, FILES],
    },
    Subcommand {
        word: "recipes",
        about: "Lists the recipe lines of a makefile with their numbers",
        arguments: &[TARGET, JSON, NOTES, FILES],
    },
    Subcommand {
        word: "check",
        about: "Lists the lines of a makefile that mkedit cannot parse",
        arguments: &[JSON, NOTES, FILES],
    },
    Subcommand {
        word: "caveats",
        about: "Lists the lines of a makefile that make may read differently",
        arguments: &[JSON, NOTES, FILES],
    },
    Subcommand {
        word: "get",
        about: "Prints the value of a variable of a makefile",
        arguments: &[NTH, JSON, NOTES, VARIABLE, FILES],
    },
    Subcommand {
        word: "explain",
        about: "Explains why a command is refused, and what to do then",
        arguments: &[REFUSAL],
    },
    Subcommand {
        word: "session",
        about: "Answers commands and requests on one makefile, line by line",
        arguments: &[DEPTH, PROTOCOL, JSON, NEW, COLOR, SESSION_FILE],
    },
];

// These commands. The proof of who asks for them has none of their texts before it.
fn subcommands() -> &'static [Subcommand] {
    &SUBCOMMANDS
}

// An option by its long name and its letter, if it has one.
fn option<'a>(arg: Arg<'a>, long: &'static str, letter: Option<char>) -> Arg<'a> {
    let arg = arg.long(long);
    match letter {
        Some(letter) => arg.short(letter),
        None => arg,
    }
}

// An argument, as `clap` has to read it.
fn clap_arg<'a>(alloc: Global, argument: &Argument) -> Arg<'a> {
    let id = argument.id;
    let arg = Arg::new(alloc, id).help(argument.help);
    match argument.kind {
        Kind::Flag(letter) => option(arg, id, letter).action(ArgAction::SetTrue),
        Kind::Value(letter, name) => option(arg, id, letter).value_name(name),
        Kind::Values(letter, name) => option(arg, id, letter)
            .value_name(name)
            .action(ArgAction::Append),
        Kind::Number {
            letter,
            name,
            greatest,
            default,
        } => option(arg, id, letter)
            .value_name(name)
            .value_parser(ValueParser::unsigned(1, greatest))
            .default_value(default),
        Kind::Required => arg.required(true),
        Kind::Word => arg,
        Kind::Words => arg.action(ArgAction::Append),
    }
}

// A command, as `clap` has to read it.
fn clap_command<'a>(alloc: Global, subcommand: &Subcommand) -> Result<Command<'a>, AllocError> {
    let mut command = Command::new(alloc, subcommand.word)
        .about(subcommand.about)
        .after_help(help::example(subcommand.word));
    if let Some(usage) = help::usage(subcommand.word) {
        command = command.override_usage(usage);
    }
    for argument in subcommand.arguments {
        command = command.arg(clap_arg(alloc, argument))?;
    }
    Ok(command)
}

// The command that the first word after the program's name names, if it names one.
fn first_command(words: &[String]) -> Option<&'static Subcommand> {
    let word = words.get(1)?.as_str();
    subcommands().iter().find(|command| command.word == word)
}

/// The command that the first word names, by which an error of its words has its usage.
///
/// # Errors
///
/// Want of memory.
pub(crate) fn command_for<'a>(alloc: Global, words: &[String]) -> Result<Command<'a>, AllocError> {
    match first_command(words) {
        Some(subcommand) => {
            let name = format!(in alloc; "mkedit {}", subcommand.word)?;
            clap_command(alloc, subcommand)?.bin_name(name.as_str())
        }
        None => program_for(alloc, words),
    }
}

/// The program as `clap` has to read these words. Where the first word names a command, `clap` asks
/// for no other, and none is built.
///
/// # Errors
///
/// Want of memory.
pub(crate) fn program_for<'a>(alloc: Global, words: &[String]) -> Result<Command<'a>, AllocError> {
    let mut program = Command::new(alloc, "mkedit")
        .version(VERSION)
        .about(
            "Makes scripted edits to makefiles and preserves every byte it was not asked to change",
        )
        .after_help(help::PROGRAM)
        .subcommand_required(true);
    if let Some(subcommand) = first_command(words) {
        return program.subcommand(clap_command(alloc, subcommand)?);
    }
    for subcommand in subcommands() {
        program = program.subcommand(clap_command(alloc, subcommand)?)?;
    }
    Ok(program)
}
