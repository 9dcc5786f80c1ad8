//! Assignments: their flavors, their modifiers, and where their parts stand.

ghost use Rattle.std.specs.Prelude.{◌≡◌, ◌≤◌, ◌-◌, ◌∷◌, [], length, map, None, MatchOption};
ghost use Rattle.mk_lines.specs.Units.{units};
ghost use Rattle.mk_class.specs.ListTests.{from};
ghost use Rattle.mk_class.specs.Symbols.{Colon, symbol};
ghost use Rattle.mk_class.specs.Assignments.{assignment, definition, ends_name, operator_at};
ghost use Rattle.mk_class.specs.TextClasses.{itself};
ghost use Rattle.mk_class.specs.Scans.{IsOperatorAt};
ghost use Rattle.mk_class.specs.LocatedAssignments.{located};
ghost use Rattle.mk_class.specs.Marks.{Cover};
ghost use Rattle.mk_class.specs.OperatorTexts.{operator_text};

use crate::keyword::modifier_of;
use crate::marks::Marks;
use crate::rule::Separator;
use crate::scan::{after_blanks, after_colon, after_equals, before, blanks_at_end, from_any};
use mk_lines::after_first_unit;
use mk_lines::split::Span;

/// The flavor of an assignment, which its operator tells.
///
/// POSIX.1-2024 make has all of them except `:=`, which is the GNU make manual's (section "The Two
/// Flavors of Variables").
#[derive(Clone, Copy, Debug, PartialEq, Eq)]
pub enum Flavor {
    /// `=`: the value is expanded when the variable is.
    Recursive,
    /// `:=`: the value is expanded at once.
    Simple,
    /// `::=`: as `:=`, in the spelling of POSIX.
    PosixSimple,
    /// `:::=`: the value is expanded at once, and the result again when the variable is.
    Immediate,
    /// `?=`: as `=`, but only if the variable is not yet defined.
    Conditional,
    /// `+=`: the value goes after the one that the variable has.
    Append,
    /// `!=`: the value is a command, whose output the variable gets.
    Shell,
}

impl Flavor {
    /// The operator, as a makefile has it.
    pub fn text(self) -> &'static str
        ensures { result.now ≡ operator_text self }
    {
        match self {
            Flavor::Recursive => "=",
            Flavor::Simple => ":=",
            Flavor::PosixSimple => "::=",
            Flavor::Immediate => ":::=",
            Flavor::Conditional => "?=",
            Flavor::Append => "+=",
            Flavor::Shell => "!=",
        }
    }
}

/// A word before an assignment or a `define`. The GNU make manual has these words in its sections
/// on `override`, on variables for sub-makes and on `private`.
#[derive(Clone, Copy, Debug, PartialEq, Eq)]
pub enum Modifier {
    /// `override`: the makefile's value holds against the command line's.
    Override,
    /// `export`: sub-makes get the variable.
    Export,
    /// `private`: prerequisites do not inherit the variable.
    Private,
}

/// Where the parts of an assignment stand, as ranges of bytes of the line's joined text, from 0.
///
/// An assignment is blanks and modifiers, a name, an operator with blanks around it, a value and
/// blanks, up to the end of the cut text, where a comment may begin. A name ends before a blank, a
/// `:`, `=` or `;`, or before a `+`, `?` or `!` with a `=` after it. The operator is the longest
/// that stands there. The modifiers are the words before the name.
/// POSIX.1-2024 make, Macros; GNU make manual, "Setting Variables". That a `;` ends a name, and
/// that the blanks before a comment do not belong to the value, is this project's profile.
#[derive(Clone, Copy, Debug, PartialEq, Eq)]
pub struct Assignment {
    /// The flavor, which the operator tells.
    pub flavor: Flavor,
    /// The name, which is not empty.
    pub name: Span,
    /// The value, without the blanks around it. An empty value stands at the end of the cut text.
    pub value: Span,
    /// The end of the cut text. Only blanks stand between the value and this offset.
    pub end: usize,
}

/// Where the parts of an assignment for targets stand, as offsets in the line's joined text, in
/// bytes from 0.
///
/// GNU make manual, "Target-specific Variable Values" and "Pattern-specific Variable Values".
#[derive(Clone, Copy, Debug, PartialEq, Eq)]
pub struct TargetAssignment {
    /// What stands between the targets and the assignment: `:` or `::`.
    pub separator: Separator,
    /// The end of the targets, which begin at 0: the offset of the separator.
    pub targets_end: usize,
    /// The assignment, with its offsets in the whole joined text.
    pub assignment: Assignment,
}

/// The assignment that a cut text is; the cut text is the joined text before its comment of a line
/// with these marks. Each operator has a `=`, so a text without it is no assignment.
///
/// The time is linear in the bytes of the text, and no memory is taken.
pub(crate) fn read_assignment(cut: &[u8], marks: Marks) -> Option<Assignment>
    requires { Cover marks cut.now }
    ensures { result ≡ located 0 (assignment itself (units itself cut.now)) }
{
    if !marks.has_equals() {
        return None;
    }
    assignment_at_end(cut, cut.len())
}

/// The assignment that `text`, the end of a cut text of `len` bytes, is. Its offsets are those in
/// the whole cut text.
pub(crate) fn assignment_at_end(text: &[u8], len: usize) -> Option<Assignment>
    requires { length text.now ≤ len }
    ensures { result ≡ located (len - length text.now) (assignment itself (units itself text.now)) }
{
    let mut rest = text;
    loop {
        let definition = read_definition(rest, len);
        if definition.is_some() {
            return definition;
        }
        let word = after_blanks(rest);
        let after = from_any(word, b" \t");
        modifier_of(before(word, after))?;
        rest = after;
    }
}

/// The assignment without modifiers that `text`, the end of a cut text of `len` bytes, is.
fn read_definition(text: &[u8], len: usize) -> Option<Assignment>
    requires { length text.now ≤ len }
    ensures { result ≡ located (len - length text.now) (definition itself (units itself text.now)) }
{
    let named = after_blanks(text);
    let after_name = after_name(named);
    let (flavor, operand) = read_operator(after_blanks(after_name))?;
    if after_name.len() == named.len() {
        return None;
    }
    let value = after_blanks(operand);
    let after_value = blanks_at_end(value);
    Some(Assignment {
        flavor,
        name: Span {
            start: len - named.len(),
            end: len - after_name.len(),
        },
        value: Span {
            start: len - value.len(),
            end: len - after_value.len(),
        },
        end: len,
    })
}

/// What follows the name at the front of a text.
pub(crate) fn after_name(text: &[u8]) -> &[u8]
    ensures rest { units itself result.now ≡ from (ends_name itself) (units itself text.now) }
    ensures within { length result.now ≤ length text.now }
{
    let mut rest = text;
    while let [first, after @ ..] = rest {
        rest = match first {
            b'$' | b'\\' => after_first_unit(rest),
            _ if ends_name(rest) => break,
            _ => after,
        };
    }
    rest
}

/// Whether a name ends at the front of a text.
fn ends_name(text: &[u8]) -> bool
    ensures { result ≡ ends_name itself (units itself text.now) }
{
    let [first, rest @ ..] = text else {
        return false;
    };
    match first {
        b' ' | b'\t' | b':' | b'=' | b';' => true,
        b'+' | b'?' | b'!' => after_equals(rest).is_some(),
        _ => false,
    }
}

/// The longest operator at the front of a text, and what follows it.
pub(crate) fn read_operator(text: &[u8]) -> Option<(Flavor, &[u8])>
    ensures found { MatchOption result
        (operator_at (map (symbol itself) (units itself text.now)) ≡ None)
        (λ found. IsOperatorAt (units itself text.now) found.0 (units itself found.1.now)) }
    ensures within { MatchOption result (0 ≤ 0) (λ found. length found.1.now ≤ length text.now) }
{
    let [first, rest @ ..] = text else {
        return None;
    };
    match first {
        b'=' => Some((Flavor::Recursive, rest)),
        b'?' => Some((Flavor::Conditional, after_equals(rest)?)),
        b'+' => Some((Flavor::Append, after_equals(rest)?)),
        b'!' => Some((Flavor::Shell, after_equals(rest)?)),
        b':' => read_colon_operator(rest),
        _ => None,
    }
}

/// The longest operator that a `:` put before a text begins, and what follows the operator.
fn read_colon_operator(text: &[u8]) -> Option<(Flavor, &[u8])>
    ensures found { MatchOption result
        (operator_at (Colon ∷ map (symbol itself) (units itself text.now)) ≡ None) (λ found.
        IsOperatorAt ((58 ∷ []) ∷ units itself text.now) found.0 (units itself found.1.now)) }
    ensures within { MatchOption result (0 ≤ 0) (λ found. length found.1.now ≤ length text.now) }
{
    if let Some(rest) = after_equals(text) {
        return Some((Flavor::Simple, rest));
    }
    let text = after_colon(text)?;
    if let Some(rest) = after_equals(text) {
        return Some((Flavor::PosixSimple, rest));
    }
    let rest = after_equals(after_colon(text)?)?;
    Some((Flavor::Immediate, rest))
}
