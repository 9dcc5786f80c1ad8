//! What an edit leaves as it was: the bytes outside its spans, and the lines that its spans do not
//! touch.
ghost use Rattle.mk_edit_language.specs.EditLaws.{EditedLinesStand, EditsKeepOthers, LengthsAddUp, OnlySpansAreReplaced, SpansTouchFewLines};

/// The spans of an accepted edit stand in the text in order and apart, and the bytes outside them
/// are as before: the text after the edit is the text before it with each span replaced.
pub fn only_spans_are_replaced()
    ensures { OnlySpansAreReplaced }
{}

/// The number of bytes of the text after an accepted edit, of every kind: that of the text before
/// it, less the bytes in its spans, and with the bytes put in their place.
pub fn lengths_add_up()
    ensures { LengthsAddUp }
{}

/// The spans of an accepted edit, other than a rename, a change of every value of a name, an edit of
/// several lines that is checked by reading, and an exchange of whole lines, stand within lines that
/// follow one another. These are at most as many lines as the edit's size says.
pub fn spans_touch_few_lines()
    ensures { SpansTouchFewLines }
{}

/// After an accepted edit, other than a rename, a change of every value of a name, an edit of several
/// lines that is checked by reading, and an exchange of whole lines, the lines are the lines above
/// those that it touches, the edited lines with their bytes and their classes, and the lines below.
///
/// If the edit takes lines out, there is no edited line. If it puts a line in, the edited line is
/// the new line with the file's line end, and a last line above it without a line end gets one.
/// Otherwise it is the one line that the edit touches, with the spans in it replaced. Each has the
/// class that it has below the lines above.
pub fn edited_lines_stand()
    ensures { EditedLinesStand }
{}

/// Each accepted edit, of every kind, leaves the lines that its spans do not touch. But for an
/// exchange of whole lines, the greatest number of conditionals open at once is as before.
///
/// An edit that sets a value or appends to it, changes a recipe line, puts in, takes out or replaces a
/// prerequisite, or makes a line a comment or a comment a line, touches one line. A new assignment, rule or recipe line is one line more, and a
/// last line without a line end gets one if the new line follows it. An assignment or a recipe line
/// that is removed is one line less; a rule that is removed takes with it the lines down to its
/// last recipe line. The lines above and below are as before, with their classes.
///
/// A rename, a change of every value of a name, and an edit of several lines that is checked by
/// reading change lines that may stand apart. After such an edit each line stands in its place, and is
/// the line before with its spans replaced: it is one logical line, it has its class in the same
/// context, and it is of no conditional if the edit changes it. The contexts between lines are as
/// before. A line that the edit does not change is the same, with its class, and at most as many lines
/// differ as the edit costs. The spans stand within the other lines, and the greatest number of
/// conditionals open at once is as before.
///
/// After whole lines were put in, taken out or exchanged, the lines are the lines above, the new
/// lines, and the lines below. The lines above and below keep their bytes and classes, except that a
/// last line without a line end gets one if new lines follow it. The new lines have the classes that
/// they have below the lines above: as many are new as the edit costs, and as many are gone as its
/// size says. The spans stand within the lines that go, and no more conditionals are open at once
/// than a document may have, if no more were before.
pub fn edits_keep_others()
    ensures { EditsKeepOthers }
{}
