//! Laws that hold for every script, each as the contract of a function that does nothing.
ghost use Rattle.mk_script.specs.ScriptLaws.{AllBeginsItsEdits, BlocksEndAtTheirWords, CommandsAreSteps, EachSayingHasALine, EachScriptIsRead, FaultsWithoutAlternativesStay, FieldsAreOne, FirstCommandsStay, FirstFaultIsOne, LineSaysOneThing, LinesWithoutMarksStandAlone, NoScriptIsBoth, SkippedLineSaysNothing, StepsAreOne, WrittenFieldsAreRead};

/// A line has at most one list of fields, and any fields have a line.
pub fn lines_and_fields()
    ensures one { FieldsAreOne }
    ensures written { WrittenFieldsAreRead }
{}

/// With the lines below it a line is at most one command, alone or behind `try` or `or`, and at most one
/// list of these lines is that of its blocks: none, if no field of the line is `<<` and a word, without
/// quotes. These lines are those up to the words of its blocks. A line that is skipped is no command. Each command whose numbers a script can write has a line,
/// and so has each edit behind `try` and behind `or`.
pub fn lines_and_commands()
    ensures one { LineSaysOneThing }
    ensures skipped { SkippedLineSaysNothing }
    ensures alone { LinesWithoutMarksStandAlone }
    ensures ends { BlocksEndAtTheirWords }
    ensures written { EachSayingHasALine }
{}

/// A command begins with `all` exactly if it is the edit of every assignment of a name. So a script
/// in which no command begins with it, alone or behind `try` or `or`, has none of these edits: each
/// of its commands is one of the others.
pub fn commands_of_every_line_begin_with_all()
    ensures { AllBeginsItsEdits }
{}

/// A script has steps, or a first line that is no command. It does not have both, and it has at
/// most one of each.
pub fn scripts_say_one_thing()
    ensures either { EachScriptIsRead }
    ensures not_both { NoScriptIsBoth }
    ensures steps { StepsAreOne }
    ensures fault { FirstFaultIsOne }
{}

/// A script without `try` and `or` says what its lines say, each with the lines of its blocks: its steps are
/// its commands, each alone; and its first line that is neither skipped nor a command, nor of a block, is
/// the first that is no command.
pub fn scripts_of_commands_are_read()
    ensures steps { CommandsAreSteps }
    ensures fault { FaultsWithoutAlternativesStay }
{}

/// A script of first commands means what it meant before there were others: its steps are exactly
/// these commands, each alone, whatever else a line may be.
///
/// The first commands are `set`, `append`, `unset`, `assign`, `rule`, `unrule`, `depend`,
/// `depend-order`, `undepend`, `recipe`, `recipe-set`, `recipe-del`, `rename`, `undo`, `redo`,
/// `begin`, `end` and `cancel`; those that have an address may have `nth N` before them.
pub fn scripts_of_first_commands_stay()
    ensures { FirstCommandsStay }
{}
