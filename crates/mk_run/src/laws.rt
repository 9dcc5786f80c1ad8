//! Laws that hold for every run, each as the contract of a function that does nothing.
//!
//! They are about the result that the definitions give a run. The clause `law` of
//! [`run`](crate::run) says that what the code writes is that result.
ghost use Rattle.mk_run.specs.RunLaws.{EachRunHasAResult, ResultsAreOne, RunsKeepEveryByte, RunsOfCommandsStay, RunsOfFirstCommandsStay};

/// The run of any script over any makefile, at any depth, has one result.
pub fn runs_have_one_result()
    ensures some { EachRunHasAResult }
    ensures one { ResultsAreOne }
{}

/// Every byte that no edit concerns stays.
///
/// Each edit of a script that is granted changes the reading by exactly its stated change, and
/// changes no byte outside its spans. Each command that is refused changes nothing. What a run puts
/// out is the makefile with the edits that stand replayed over it. If these edits are within the
/// depth and no group is open, undoing all of them gives back the makefile: by `undo` after the run,
/// or, if no refusal ended the run, at the end of the same script, whose run then puts out the makefile.
///
/// It follows from the laws of [`mk_session::laws`], which say the same for a session over any
/// calls.
pub fn runs_keep_every_byte()
    ensures { RunsKeepEveryByte }
{}

/// A script without `try` and `or` runs as a list of commands.
///
/// Each command is executed in its turn, and each refusal is told and counted: what `try` and `or` mean
/// changes nothing of the report, the output and the outcome of such a script.
pub fn scripts_of_commands_run_as_commands()
    ensures { RunsOfCommandsStay }
{}

/// A script of first commands runs as these commands, whatever commands there are besides.
///
/// It follows from [`mk_script::laws::scripts_of_first_commands_stay`], which says which commands these
/// are.
pub fn scripts_of_first_commands_run_as_these()
    ensures { RunsOfFirstCommandsStay }
{}
