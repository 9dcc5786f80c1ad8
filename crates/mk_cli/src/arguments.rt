//! The arguments of the commands.

use crate::request::MAX_DEPTH;

/// An argument of a command.
#[derive(Clone, Copy)]
pub(crate) struct Argument {
    /// The name by which its values are found; of an option also its long name.
    pub(crate) id: &'static str,
    /// What is written for it.
    pub(crate) kind: Kind,
    /// What help says of it.
    pub(crate) help: &'static str,
}

/// What is written for an argument. An option has its letter here, if it has one, and then the name by
/// which help calls its value.
#[derive(Clone, Copy)]
pub(crate) enum Kind {
    /// An option without a value, at most once.
    Flag(Option<char>),
    /// An option with a value, at most once.
    Value(Option<char>, &'static str),
    /// An option with a value, any number of times.
    Values(Option<char>, &'static str),
    /// An option with a number, at most once.
    Number {
        letter: Option<char>,
        name: &'static str,
        /// The greatest number that it takes; the least is 1.
        greatest: u64,
        /// Its number where it is left out.
        default: &'static str,
    },
    /// A word that has to be there.
    Required,
    /// A word that may be left out.
    Word,
    /// Any number of words.
    Words,
}

pub(crate) const KEEP_GOING: Argument = Argument {
    id: "keep-going",
    kind: Kind::Flag(Some('k')),
    help: "Continues after a refused command",
};

pub(crate) const DEPTH: Argument = Argument {
    id: "depth",
    kind: Kind::Number {
        letter: Some('d'),
        name: "DEPTH",
        greatest: MAX_DEPTH as u64,
        default: "100",
    },
    help: "How many edits can be undone, from 1 to 10000",
};

pub(crate) const OUTPUT: Argument = Argument {
    id: "output",
    kind: Kind::Value(Some('o'), "OUT"),
    help: "Writes the result to OUT; to write it to FILE itself, name FILE twice",
};

pub(crate) const IN_PLACE: Argument = Argument {
    id: "in-place",
    kind: Kind::Flag(Some('i')),
    help: "Replaces FILE with the result atomically; access lists (ACLs) are not kept",
};

pub(crate) const BACKUP: Argument = Argument {
    id: "backup",
    kind: Kind::Value(None, "SUFFIX"),
    help: "With -i, keeps the old file as FILE with SUFFIX at its end",
};

pub(crate) const DIFF: Argument = Argument {
    id: "diff",
    kind: Kind::Flag(None),
    help: "Prints a diff instead, for patch -p1 or git apply in the current directory (.. for ../m, / for /x/m)",
};

pub(crate) const COLOR: Argument = Argument {
    id: "color",
    kind: Kind::Value(None, "WHEN"),
    help: "When to colour changes: auto (at a terminal), always or never [default: auto]",
};

pub(crate) const CHECK: Argument = Argument {
    id: "check",
    kind: Kind::Flag(None),
    help: "Tries every command, reports each refusal and writes nothing; with --diff, a change fails too",
};

pub(crate) const SUMMARY: Argument = Argument {
    id: "summary",
    kind: Kind::Flag(None),
    help: "Ends with how many FILEs were changed; the default for several FILEs at a terminal",
};

pub(crate) const FORCE_TEXT: Argument = Argument {
    id: "force-text",
    kind: Kind::Flag(None),
    help: "Edits several FILEs even if one of them is a script and not a makefile",
};

pub(crate) const EXPRESSION: Argument = Argument {
    id: "expression",
    kind: Kind::Values(Some('e'), "COMMAND"),
    help: "Runs COMMAND in place of SCRIPT; several -e are the lines of a script",
};

pub(crate) const NOTES: Argument = Argument {
    id: "notes",
    kind: Kind::Flag(None),
    help: "Explains messages and refusals, with the lines concerned; the default at a terminal",
};

pub(crate) const REPORT: Argument = Argument {
    id: "report",
    kind: Kind::Value(None, "FORM"),
    help: "Reports refusals and messages as text, or with json as one JSON object per line [default: text]",
};

pub(crate) const JSON: Argument = Argument {
    id: "json",
    kind: Kind::Flag(None),
    help: "Prints one JSON object per line",
};

pub(crate) const NAME: Argument = Argument {
    id: "name",
    kind: Kind::Value(None, "NAME"),
    help: "Lists only the assignments of NAME, target-specific ones too",
};

pub(crate) const TARGET: Argument = Argument {
    id: "target",
    kind: Kind::Value(None, "TARGET"),
    help: "Lists only what belongs to the rules for TARGET",
};

pub(crate) const NTH: Argument = Argument {
    id: "nth",
    kind: Kind::Value(None, "N"),
    help: "Prints the value of the N-th assignment of NAME, counted from 1",
};

pub(crate) const PROTOCOL: Argument = Argument {
    id: "protocol",
    kind: Kind::Flag(None),
    help: "Replies as to a program, even at a terminal",
};

pub(crate) const NEW: Argument = Argument {
    id: "new",
    kind: Kind::Flag(None),
    help: "Opens a missing FILE as an empty one; `write` creates it",
};

pub(crate) const SCRIPT: Argument = Argument {
    id: "SCRIPT",
    kind: Kind::Word,
    help: "The script, one command per line; - is standard input",
};

pub(crate) const FILES: Argument = Argument {
    id: "FILE",
    kind: Kind::Words,
    help: "The makefiles; standard input if one is -, or if there is none",
};

pub(crate) const VARIABLE: Argument = Argument {
    id: "NAME",
    kind: Kind::Required,
    help: "The name of the variable, or several names with commas between them",
};

pub(crate) const REFUSAL: Argument = Argument {
    id: "REFUSAL",
    kind: Kind::Required,
    help: "Its number or its name, as in the report",
};

pub(crate) const SESSION_FILE: Argument = Argument {
    id: "FILE",
    kind: Kind::Required,
    help: "The makefile; the requests come from standard input",
};

pub(crate) const OLD_MAKEFILE: Argument = Argument {
    id: "OLD",
    kind: Kind::Required,
    help: "The makefile as it is; - is standard input",
};

pub(crate) const NEW_MAKEFILE: Argument = Argument {
    id: "NEW",
    kind: Kind::Required,
    help: "The makefile as the script is to make it; - is standard input",
};
