//! Laws of edits: each contract is a theorem on the definitions that the calls of this crate are
//! specified by. The functions do nothing.
ghost use Rattle.mk_edit_language.specs.EditLaws.{EditsReadAsChanged, NewAssignmentsStand, OtherLinesStay, RefusedChangesNothing};
ghost use Rattle.mk_edit_language.specs.RuleTaken.{RemoveRuleTakesTheRuleAlone};

pub mod lines;
pub mod outside;

/// Each accepted edit, of every kind, changes the reading by exactly its stated change:
///
/// | Edit | What becomes of the reading |
/// |---|---|
/// | a value set, whatever the old one or in the place of an expected one | the assignment has this value; where the new one is empty and a fold is left without its next line, one lone backslash |
/// | a text appended | the assignment has the old value, a space and the text; no space where the old value is empty or its last byte is a fold |
/// | a word taken out | the assignment has the old value without each such word and the blanks before it, or after it where no word stays before; where no word stays at all, what a value set to nothing gives |
/// | every value of a name changed | each assignment of the name has what the edit of its value alone gives; where a word is added, those that have it stay as they are, and where one is taken out, those that do not |
/// | a text put before a value, a word or a text replaced in it | the assignment has the value so made; after a text is replaced, without the blanks at its ends |
/// | an operator changed | the assignment has this operator |
/// | every assignment of a name changed in one of these ways, or a text replaced in all values | each assignment in whose line a part is replaced has what the edit of its line alone gives |
/// | a new assignment, a new rule, a new recipe line | its item comes in at its place |
/// | an assignment or a recipe line removed, or the line of an assignment made a comment | its item goes |
/// | a comment made the line of an assignment | the item that the line has without its mark comes in at its place |
/// | a rule removed | the items of its header and of its recipe lines go |
/// | a recipe line changed | the item has this text |
/// | a text replaced in recipe lines | the item of each line that has it has the text so made |
/// | a new prerequisite | it stands last in its list of the header |
/// | a prerequisite removed | each word that is it goes from both lists of the header |
/// | a prerequisite replaced | the new word stands for each word that is the old one, in both lists of the header |
/// | whole lines put in, taken out or exchanged | the items of the new lines stand in the place of those of the lines that go; each new line is read below the lines above it |
/// | a target renamed | the new word stands for each target and each prerequisite that was the old one, in headers and target assignments |
///
/// No other item changes.
pub fn edits_read_as_changed()
    ensures { EditsReadAsChanged }
{}

/// An accepted removal of a rule takes out the line of the rule that its address means, and the
/// recipe of the rule, and nothing else. The rule has no other target.
///
/// Each line that goes with the rule's line is a recipe line, a blank line or a comment, and the
/// last is a recipe line. The lines that go read as the item of the header and the items of the
/// recipe lines. No recipe line of the rule stays.
pub fn remove_rule_takes_the_rule_alone()
    ensures { RemoveRuleTakesTheRuleAlone }
{}

/// An accepted edit that takes lines out leaves the lines above and below them, each with its
/// class.
pub fn other_lines_stay()
    ensures { OtherLinesStay }
{}

/// A refused edit changes nothing.
pub fn refused_changes_nothing()
    ensures { RefusedChangesNothing }
{}

/// After an accepted new assignment its line stands at its place. The lines below it stay, each
/// with its class. The lines above it stay too, except that a last line without a line end gets
/// one.
pub fn new_assignments_stand()
    ensures { NewAssignmentsStand }
{}
