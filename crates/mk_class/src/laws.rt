//! Laws of classes and assignments: each contract is a theorem on the definitions that the calls of
//! this crate are specified by. The functions do nothing.
ghost use Rattle.mk_class.specs.ClassLaws.{AssignmentsAreWhole, ClassesAreOfJoinedTexts, ClassesFitCounts, ClassesLookUp, ContextsOfAllLines, FirstEqualsDecides, FlagIsForFirstLines, FlagIsForLedLines, HeadersAreReadAgain, HeadersAreWhole, HeadersFit, HeadsDecideAssignments, OffsetsAreParts, PrefixesAreMarks, ValueIsFree, ValueTextIsFree};

/// A line that does not begin with the recipe prefix has the same class under each flag.
pub fn flag_is_for_led_lines()
    ensures { FlagIsForLedLines }
{}

/// The classes of lines do not depend on the lines below them.
pub fn classes_look_up()
    ensures { ClassesLookUp }
{}

/// Under another flag lines keep their classes, unless the first of them that begins with the
/// recipe prefix, or has a class that sets the flag, begins with the prefix.
pub fn flag_is_for_first_lines()
    ensures { FlagIsForFirstLines }
{}

/// The context after the lines of a text: its flag is told by the last line that does not leave the
/// flag, its prefix by the last line that sets the prefix, and its open defines and conditionals by
/// counting.
pub fn contexts_of_all_lines()
    ensures { ContextsOfAllLines }
{}

/// What a class says of the numbers of open defines and conditionals: an Endef ends the only
/// define; a Body that closes a define stands in two or more, and any other Body in one or more;
/// each other line stands in none, and an Else or Endif also in a conditional.
pub fn classes_fit_counts()
    ensures { ClassesFitCounts }
{}

/// The class of a line, with its offsets, is that of its joined text.
///
/// Apart from the text it depends only on the context, on whether the line begins with the recipe
/// prefix, and on whether it has a stray byte or a bad fold.
pub fn classes_are_of_joined_texts()
    ensures { ClassesAreOfJoinedTexts }
{}

/// If the class of a line has the offsets of the parts of an assignment or a rule, these parts
/// stand there: each range of the joined text has the text, the units and the words of its part,
/// and the raw range has the raw bytes of the part.
pub fn offsets_are_parts()
    ensures { OffsetsAreParts }
{}

/// The recipe prefix in force is a tab, or a printable byte of ASCII other than the blank, `$` and
/// the backslash.
pub fn prefixes_are_marks()
    ensures { PrefixesAreMarks }
{}

/// The parts of a header's line, in order, are the line: the targets, the separator, the pattern
/// and the second `:`, the normal prerequisites, the `|`, the order-only ones, and what follows.
pub fn headers_are_whole()
    ensures { HeadersAreWhole }
{}

/// The parts of a header's line fit each other: the targets have no `:`, the separator is one, a
/// pattern stands before a second `:`, and so on.
pub fn headers_fit()
    ensures { HeadersFit }
{}

/// Parts that fit each other are read again from their units, so that words of a header's line may
/// be replaced, added and removed.
pub fn headers_are_read_again()
    ensures { HeadersAreReadAgain }
{}

/// A text whose head, the units before its first `;`, has no `=` is no assignment.
pub fn heads_decide_assignments()
    ensures { HeadsDecideAssignments }
{}

/// The parts of an assignment, in order, are its text: what stands before the name, the name, the
/// operator, the value, and the blanks after the value.
pub fn assignments_are_whole()
    ensures { AssignmentsAreWhole }
{}

/// The modifiers, the name and the flavor of an assignment do not depend on its value.
pub fn value_is_free()
    ensures { ValueIsFree }
{}

/// An assignment's text with the value replaced by a closed text, which begins and ends with no
/// blank, is the same assignment with that value.
pub fn value_text_is_free()
    ensures { ValueTextIsFree }
{}

/// An assignment is what stands before its first `=`, which ends the operator, and what follows it.
///
/// The definition takes the longest operator that stands after the name; both give the same
/// assignment.
pub fn first_equals_decides()
    ensures { FirstEqualsDecides }
{}
