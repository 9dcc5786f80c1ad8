//! Laws of documents: each contract is a theorem on the definitions that the calls of this crate
//! are specified by. The functions do nothing.
ghost use Rattle.mk_tree.specs.ChangeLaws.{ContextsBelowAgree, LinesAreReplacedEach, LinesBelowKeepTheirClasses, NewLinesStand, RunsAreReplaced, SpansStayInLines};
ghost use Rattle.mk_tree.specs.DocumentLaws.{LinesAreTheText, RulesEndByFlag};

/// The lines of a text, joined, are the text.
pub fn lines_are_the_text()
    ensures { LinesAreTheText }
{}

/// The lines of a header's rule, among which its recipe lines are, are those before the next line
/// that begins a rule or sets the flag to anything other than Rule.
pub fn rules_end_by_flag()
    ensures { RulesEndByFlag }
{}

/// Lines below a change keep their classes, unless they lean on the flag.
///
/// The open defines, the open conditionals and the recipe prefix directly above the lines have to
/// be as they were. Lines lean on the flag if it differs, and the first of them that begins with
/// the prefix, or has a class that sets the flag, begins with the prefix.
pub fn lines_below_keep_their_classes()
    ensures { LinesBelowKeepTheirClasses }
{}

/// Contexts that agree in all except perhaps the flag agree so after any lines, and they are the
/// same after lines of which one sets the flag.
pub fn contexts_below_agree()
    ensures { ContextsBelowAgree }
{}

/// A text replaces a run of lines; the text and the run may be empty. The lines above stay, the
/// lines of the text stand after them, and the lines below stay if they do not lean on the flag.
///
/// If lines are below, the text has to end a line. If the run is empty and no line is below, and
/// the text has lines, the lines above have to end a line.
pub fn runs_are_replaced()
    ensures { RunsAreReplaced }
{}

/// Several lines, each replaced by one line, after which the context is the same, and which ends a
/// line if lines follow it: the lines above and below stay.
pub fn lines_are_replaced_each()
    ensures { LinesAreReplacedEach }
{}

/// A new line with the file's line end, put at any place, is one line there, and no other item
/// changes.
///
/// It has no LF, CR or NUL, its last byte is no backslash, and the lines below do not lean on the
/// flag. If it is put at the end of the text, the last line must not be open, and gets a line end
/// if it has none.
pub fn new_lines_stand()
    ensures { NewLinesStand }
{}

/// Bytes inside a line, replaced by their offsets in the text: the line begins at the length of the
/// text of the lines above it.
pub fn spans_stay_in_lines()
    ensures { SpansStayInLines }
{}
