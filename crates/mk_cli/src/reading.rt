//! From the words of the command line to what they ask for.

use crate::arguments::{
    BACKUP, CHECK, COLOR, DEPTH, DIFF, EXPRESSION, FILES, FORCE_TEXT, IN_PLACE, JSON, KEEP_GOING,
    NAME, NEW, NEW_MAKEFILE, NOTES, NTH, OLD_MAKEFILE, OUTPUT, PROTOCOL, REFUSAL, REPORT, SCRIPT,
    SESSION_FILE, SUMMARY, TARGET, VARIABLE,
};
use crate::commands::{command_for, program_for};
use crate::hints::hint;
use crate::request::{
    Backup, Color, DeriveWords, EditWords, Form, Input, Output, Query, QueryWords, Question,
    Report, Request, Script, SessionWords,
};
use clap::ArgMatches;
use clap::error::ErrorKind;
use std::alloc::{AllocError, Global};
use std::str::FromStr;

// Why words that `clap` takes ask for nothing. The text says what is wrong with them.
#[derive(Clone, Copy)]
enum Fault {
    // Memory ran out.
    NoMemory(AllocError),
    // A word that has to be there is missing.
    Missing(&'static str),
    // Words that do not go together.
    Conflict(&'static str),
    // A word that means nothing where it stands.
    Invalid(&'static str),
}

impl From<AllocError> for Fault {
    fn from(error: AllocError) -> Fault {
        Fault::NoMemory(error)
    }
}

// The number that decimal digits write: a parse takes a `+` before them too.
fn number(word: &str) -> Option<u32> {
    let is_plain = word.bytes().all(|byte| byte.is_ascii_digit());
    if is_plain { word.parse().ok() } else { None }
}

// How many edits can be undone.
fn depth_of(matches: &ArgMatches<'_>) -> Result<u32, Fault> {
    matches.get_str(DEPTH.id).and_then(number).ok_or(Fault::Invalid(
        "invalid value for '--depth <DEPTH>': only decimal digits may stand there",
    ))
}

// Which of several assignments is meant, if the words say it.
fn nth_of(matches: &ArgMatches<'_>) -> Result<Option<u32>, Fault> {
    match matches.get_str(NTH.id) {
        Some(word) => Ok(Some(number(word).ok_or(Fault::Invalid(
            "invalid value for '--nth <N>': it has to be a number in decimal digits, up to 4294967295",
        ))?)),
        None => Ok(None),
    }
}

// When a diff has colours.
fn color_of(matches: &ArgMatches<'_>) -> Result<Color, Fault> {
    match matches.get_str(COLOR.id) {
        None | Some("auto") => Ok(Color::Auto),
        Some("always") => Ok(Color::Always),
        Some("never") => Ok(Color::Never),
        Some(_) => Err(Fault::Invalid(
            "invalid value for '--color <WHEN>': it is auto, always or never",
        )),
    }
}

// How refusals and messages of a query are told.
fn notes_of(matches: &ArgMatches<'_>) -> Report {
    if matches.get_flag(NOTES.id) {
        Report::Notes
    } else {
        Report::Plain
    }
}

// How refusals and messages of a run are told.
fn report_of(matches: &ArgMatches<'_>) -> Result<Report, Fault> {
    match matches.get_str(REPORT.id) {
        None | Some("text") => Ok(notes_of(matches)),
        Some("json") => Ok(Report::Json),
        Some(_) => Err(Fault::Invalid("invalid value for '--report <FORM>': it is text or json")),
    }
}

// How an answer is written.
fn form_of(matches: &ArgMatches<'_>) -> Form {
    if matches.get_flag(JSON.id) {
        Form::Json
    } else {
        Form::Text
    }
}

// The input that a word names.
fn input<'a>(word: &'a str) -> Input<'a> {
    match word {
        "-" => Input::Standard,
        name => Input::File(name),
    }
}

// Whether an input is the file of a name.
fn is_named(file: &Input<'_>) -> bool {
    matches!(file, Input::File(_))
}

// The makefiles: that of a first word, if there is one, and those of the words for makefiles. Without
// words it is standard input.
fn makefiles<'a>(
    alloc: Global,
    first: Option<&'a str>,
    matches: &ArgMatches<'a>,
) -> Result<Vec<Input<'a>>, AllocError> {
    let mut files = Vec::new(alloc);
    if let Some(word) = first {
        files.push(input(word))?;
    }
    for word in matches.get_strs(FILES.id).unwrap_or(&[]) {
        files.push(input(word))?;
    }
    if files.is_empty() {
        files.push(Input::Standard)?;
    }
    Ok(files)
}

// The script and the makefiles. After -e no word is for a script: each is for a makefile.
fn script_and_files<'a>(
    alloc: Global,
    matches: &ArgMatches<'a>,
) -> Result<(Script<'a>, Vec<Input<'a>>), Fault> {
    let first = matches.get_str(SCRIPT.id);
    if let Some(commands) = matches.get_strs(EXPRESSION.id) {
        let lines = commands.join(alloc, "\n")?;
        return Ok((Script::Lines(lines), makefiles(alloc, first, matches)?));
    }
    let script = Script::From(input(first.ok_or(Fault::Missing(
        "a SCRIPT is required, or '--expression <COMMAND>'",
    ))?));
    let files = makefiles(alloc, None, matches)?;
    if matches!(script, Script::From(Input::Standard)) && !files.iter().all(is_named) {
        return Err(Fault::Conflict(
            "SCRIPT and FILE cannot both be standard input, which FILE is where it is '-' or left out",
        ));
    }
    Ok((script, files))
}

// What the name of the old makefile gets at its end, if the old makefile is kept.
fn backup_of<'a>(matches: &ArgMatches<'a>) -> Result<Backup<'a>, Fault> {
    match matches.get_str(BACKUP.id) {
        Some(suffix) if suffix.is_empty() || suffix.contains('/') => Err(Fault::Invalid(
            "invalid value for '--backup <SUFFIX>': it may neither be empty nor have a '/'",
        )),
        suffix => Ok(Backup(suffix)),
    }
}

// Where the text of each makefile goes in place, which goes with no other output.
fn in_place<'a>(
    matches: &ArgMatches<'_>,
    backup: Backup<'a>,
    files: &[Input<'_>],
) -> Result<Output<'a>, Fault> {
    if matches.get_flag(DIFF.id) {
        return Err(Fault::Conflict("the argument '--diff' cannot be used with '--in-place'"));
    }
    if matches.get_str(OUTPUT.id).is_some() {
        return Err(Fault::Conflict(
            "the argument '--in-place' cannot be used with '--output <OUT>'",
        ));
    }
    if !files.iter().all(is_named) {
        return Err(Fault::Conflict(
            "with '--in-place' FILE has to be the name of a file, and neither '-' nor left out",
        ));
    }
    Ok(Output::InPlace(backup))
}

// That commands are tried goes with no output but a diff on standard output.
fn check_conflict(matches: &ArgMatches<'_>) -> Result<(), Fault> {
    if !matches.get_flag(CHECK.id) {
        return Ok(());
    }
    if matches.get_flag(IN_PLACE.id) {
        return Err(Fault::Conflict("the argument '--check' cannot be used with '--in-place'"));
    }
    if matches.get_str(OUTPUT.id).is_some() {
        return Err(Fault::Conflict("the argument '--check' cannot be used with '--output <OUT>'"));
    }
    Ok(())
}

// Where the text of each makefile goes, or the diff of each.
fn output_of<'a>(matches: &ArgMatches<'a>, files: &[Input<'_>]) -> Result<Output<'a>, Fault> {
    let backup = backup_of(matches)?;
    check_conflict(matches)?;
    if matches.get_flag(IN_PLACE.id) {
        return in_place(matches, backup, files);
    }
    if backup.0.is_some() {
        return Err(Fault::Conflict("'--backup <SUFFIX>' may stand beside '--in-place' alone"));
    }
    match matches.get_str(OUTPUT.id) {
        None if matches.get_flag(DIFF.id) => Ok(Output::Standard),
        None if matches.get_flag(CHECK.id) => Ok(Output::Nowhere),
        _ if files.len() > 1 => Err(Fault::Conflict(
            "several FILEs may stand beside '--in-place' or '--check', or beside '--diff' without '--output'",
        )),
        None => Ok(Output::Standard),
        Some(name) => Ok(Output::File(name)),
    }
}

// Whether a line at the end says how many makefiles were changed.
fn summary_of(matches: &ArgMatches<'_>, output: Output<'_>) -> Result<bool, Fault> {
    let has_summary = matches.get_flag(SUMMARY.id);
    if has_summary && !output.is_compared(matches.get_flag(DIFF.id)) {
        return Err(Fault::Conflict(
            "'--summary' may stand beside '--in-place' or '--check', or beside '--diff' without '--output'",
        ));
    }
    Ok(has_summary)
}

// What the words of `edit` ask for. Where commands are tried, all of them are.
fn edit_words<'a>(alloc: Global, matches: &ArgMatches<'a>) -> Result<EditWords<'a>, Fault> {
    let depth = depth_of(matches)?;
    let (script, files) = script_and_files(alloc, matches)?;
    let output = output_of(matches, files.as_slice())?;
    let has_summary = summary_of(matches, output)?;
    let (is_diff, is_check) = (matches.get_flag(DIFF.id), matches.get_flag(CHECK.id));
    Ok(EditWords {
        keep_going: matches.get_flag(KEEP_GOING.id) || is_check,
        depth,
        report: report_of(matches)?,
        output,
        is_diff,
        color: color_of(matches)?,
        wants_no_change: is_diff && is_check,
        has_summary,
        force_text: matches.get_flag(FORCE_TEXT.id),
        script,
        files,
    })
}

// The word of an option or an argument, as bytes.
fn bytes_of<'a>(matches: &ArgMatches<'a>, id: &str) -> Option<&'a [u8]> {
    matches.get_str(id).map(|word| word.as_bytes())
}

// Questions to the makefiles of a command.
fn asked<'a, R: Drop>(
    alloc: Global,
    questions: Vec<Question<'a>>,
    matches: &ArgMatches<'a>,
) -> Result<Request<'a, R>, Fault> {
    Ok(Request::Query(QueryWords {
        questions,
        report: notes_of(matches),
        files: makefiles(alloc, None, matches)?,
    }))
}

// What the words of a query ask for.
fn query<'a, R: Drop>(
    alloc: Global,
    query: Query<'a>,
    matches: &ArgMatches<'a>,
) -> Result<Request<'a, R>, Fault> {
    let questions = [Question::List(query, form_of(matches))].to_vec(alloc)?;
    asked(alloc, questions, matches)
}

// The questions for the values of some names: no name has a comma in it, so that commas stand between them.
fn values<'a>(
    alloc: Global,
    nth: Option<u32>,
    names: &'a str,
    form: Form,
) -> Result<Vec<Question<'a>>, AllocError> {
    let mut questions = Vec::new(alloc);
    for name in names.split(',') {
        questions.push(Question::Value(nth, name.as_bytes(), form))?;
    }
    Ok(questions)
}

// What the words of `get` ask for.
fn value<'a, R: Drop>(alloc: Global, matches: &ArgMatches<'a>) -> Result<Request<'a, R>, Fault> {
    let nth = nth_of(matches)?;
    let names = matches
        .get_str(VARIABLE.id)
        .ok_or(Fault::Missing("a NAME is required"))?;
    let questions = values(alloc, nth, names, form_of(matches))?;
    asked(alloc, questions, matches)
}

// What the words of `derive` ask for.
fn derive_words<'a>(matches: &ArgMatches<'a>) -> Result<DeriveWords<'a>, Fault> {
    let (Some(old), Some(new)) = (
        matches.get_str(OLD_MAKEFILE.id),
        matches.get_str(NEW_MAKEFILE.id),
    ) else {
        return Err(Fault::Missing("OLD and NEW are required"));
    };
    let (old, new) = (input(old), input(new));
    if !is_named(&old) && !is_named(&new) {
        return Err(Fault::Conflict("OLD and NEW cannot both be standard input"));
    }
    Ok(DeriveWords {
        output: matches.get_str(OUTPUT.id),
        report: notes_of(matches),
        old,
        new,
    })
}

// What the words of `session` ask for.
fn session_words<'a>(matches: &ArgMatches<'a>) -> Result<SessionWords<'a>, Fault> {
    let depth = depth_of(matches)?;
    let color = color_of(matches)?;
    match matches.get_str(SESSION_FILE.id) {
        None | Some("-") => Err(Fault::Invalid("FILE has to be the name of a file, and not '-'")),
        Some(file) => Ok(SessionWords {
            depth,
            by_protocol: matches.get_flag(PROTOCOL.id),
            form: form_of(matches),
            may_be_new: matches.get_flag(NEW.id),
            color,
            file,
        }),
    }
}

// What the words ask for, by what `clap` finds in them.
fn request_of<'a, R: FromStr + Drop>(
    alloc: Global,
    matches: &ArgMatches<'a>,
) -> Result<Request<'a, R>, Fault>
where
    R::Err: Drop,
{
    match matches.subcommand() {
        Some(("edit", words)) => Ok(Request::Edit(edit_words(alloc, words)?)),
        Some(("derive", words)) => Ok(Request::Derive(derive_words(words)?)),
        Some(("vars", words)) => query(alloc, Query::Vars(bytes_of(words, NAME.id)), words),
        Some(("rules", words)) => query(alloc, Query::Rules(bytes_of(words, TARGET.id)), words),
        Some(("recipes", words)) => query(alloc, Query::Recipes(bytes_of(words, TARGET.id)), words),
        Some(("check", words)) => query(alloc, Query::Check, words),
        Some(("caveats", words)) => query(alloc, Query::Caveats, words),
        Some(("get", words)) => value(alloc, words),
        Some(("explain", words)) => match words.get_one(REFUSAL.id) {
            Some(refusal) => Ok(Request::Explain(refusal)),
            None => Err(Fault::Invalid(
                "invalid value for '<REFUSAL>': it is no number from 1 to 21, and no refusal has this name",
            )),
        },
        Some(("session", words)) => Ok(Request::Session(session_words(words)?)),
        _ => Err(Fault::Missing("a command is required")),
    }
}

/// What the words ask for, of which the first is the program's name. `R` reads the word of
/// `explain`: it is a refusal, or fails where the word calls none.
///
/// # Errors
///
/// What `clap` finds wrong with them, which has its text, and help or the version where one is
/// asked for; a depth that is not written in decimal digits alone, or is not from 1 to 10,000;
/// neither a script nor `-e`; two of a script and makefiles that are both standard input; a word that calls
/// no refusal, or says no colours; a number of an assignment that is none; several makefiles without
/// `-i`, without `--check` and without `--diff` to standard output; `-i` beside `-o`, beside `--diff`,
/// beside `--check` or without the name of a file; `--check` beside `-o`; a suffix that is empty or has
/// a `/`, or that stands without `-i`; `--summary` where a text is printed; a report in no form that there
/// is; a session over `-`. A query that `clap` takes fails only if memory runs out.
pub fn read_command_line<'a, R: FromStr + Drop>(
    alloc: Global,
    words: &'a [String],
) -> Result<Request<'a, R>, clap::Error>
where
    R::Err: Drop,
{
    let mut program = program_for(alloc, words)?;
    let matches = match program.try_get_matches_from_mut(words) {
        Ok(matches) => matches,
        Err(error) if error.use_stderr() => match hint(alloc, words)? {
            Some(text) => return Err(program.error(ErrorKind::InvalidSubcommand, text.as_str())?),
            None => return Err(error),
        },
        Err(error) => return Err(error),
    };
    let (kind, text) = match request_of(alloc, &matches) {
        Ok(request) => return Ok(request),
        Err(Fault::NoMemory(error)) => return Err(error.into()),
        Err(Fault::Missing(text)) => (ErrorKind::MissingRequiredArgument, text),
        Err(Fault::Conflict(text)) => (ErrorKind::ArgumentConflict, text),
        Err(Fault::Invalid(text)) => (ErrorKind::ValueValidation, text),
    };
    let mut command = command_for(alloc, words)?;
    match hint(alloc, words)? {
        Some(hint) => Err(command.error(kind, hint.as_str())?),
        None => Err(command.error(kind, text)?),
    }
}
