//! The query `vars`: the assignments.
//!
//! The query goes over all lines and not over a list of assignments, since assignments for targets
//! stand among the others.
ghost use Rattle.std.specs.Prelude.{◌≡◌, ◌++◌, Some, None, false, option_map};
ghost use Rattle.mk_lines.specs.Device.{Writes};
ghost use Rattle.mk_lines.specs.Spacing.{after_space};
ghost use Rattle.mk_class.specs.OperatorTexts.{operator_text};
ghost use Rattle.mk_tree.specs.Printing.{Gathers};
ghost use Rattle.mk_tree.specs.Trees.{line_view};
ghost use Rattle.mk_queries.specs.Listings.{is_of};
ghost use Rattle.mk_queries.specs.Queries.{said_if, variable_line, vars_text};
ghost use Rattle.mk_queries.specs.Texts.{assigned_text, position_text, target_assigned_text};

use crate::gathering::put_parts;
use crate::listing::{Position, is_of, numbered};
use crate::position::put_position;
use crate::words::{put_targets, put_words};
use mk_lines::Fault;
use mk_lines::sink::{ByteSink, write_all};
use mk_tree::gathering::Gathered;
use mk_tree::{AssignmentRef, Doc, Line, TargetAssignmentRef};
use std::alloc::Allocator;

/// Writes a line of text on each assignment of the makefile, in order. Nothing is flushed. Takes no
/// memory.
///
/// The line begins with the number of the assignment's first physical line, from 1, and the number
/// of conditionals that are open there. Then come, with one space between each two, the targets and
/// the separator of an assignment for targets, the modifiers, the name, the operator, and the value
/// if it is not empty. Folds are spaces, and comments are left out:
///
/// ```text
/// 2:1: export CC ?= gcc
/// 4:0: foo: X += 1
/// 5:0: Y :=
/// ```
///
/// # Errors
///
/// [`Fault::Write`] if a write answered it or took no byte. A prefix of the text is out then.
pub fn vars<A: Allocator, W: ByteSink>(doc: &Doc<A>, out: &mut W) -> Result<(), Fault>
    requires { W.failed out.old ≡ false }
    ensures { Writes W.contents W.failed W.flushes out.old out.new result (vars_text None doc.now) }
{
    write_vars(doc, None, out)
}

/// Writes those lines of [`vars`] alone that tell of an assignment of this name, for targets or not.
/// Nothing is flushed. Takes no memory.
///
/// # Errors
///
/// [`Fault::Write`] if a write answered it or took no byte. A prefix of the text is out then.
pub fn vars_named<A: Allocator, W: ByteSink>(
    doc: &Doc<A>,
    name: &[u8],
    out: &mut W,
) -> Result<(), Fault>
    requires { W.failed out.old ≡ false }
    ensures { Writes W.contents W.failed W.flushes out.old out.new result
        (vars_text (Some name.now) doc.now) }
{
    write_vars(doc, Some(name), out)
}

// Writes the lines on the assignments, of one name if one is asked for.
fn write_vars<A: Allocator, W: ByteSink>(
    doc: &Doc<A>,
    name: Option<&[u8]>,
    out: &mut W,
) -> Result<(), Fault>
    requires { W.failed out.old ≡ false }
    ensures { Writes W.contents W.failed W.flushes out.old out.new result
        (vars_text (option_map (λ word. word.now) name.entry) doc.now) }
{
    let mut gathered = Gathered::new();
    'lines: for (position, line) in numbered(doc) {
        put_variable(&mut gathered, out, position, name, line)?;
    }
    write_all(out, &gathered)
}

// Puts what is said of a line, if it is an assignment, of the name if one is asked for.
fn put_variable<A: Allocator, W: ByteSink>(
    gathered: &mut Gathered,
    out: &mut W,
    position: Position,
    name: Option<&[u8]>,
    line: &Line<A>,
) -> Result<(), Fault>
    requires { W.failed out.old ≡ false }
    ensures { Gathers W.contents W.failed W.flushes out.old out.new gathered.old.items
        gathered.new.items result (variable_line (option_map (λ word. word.now) name.entry)
        position (line_view line.now)) }
{
    put_assignment(gathered, out, position, name, line.assignment())?;
    put_target_assignment(gathered, out, position, name, line.target_assignment())
}

// Puts what is said of an assignment, if there is one, of the name if one is asked for.
fn put_assignment<W: ByteSink>(
    gathered: &mut Gathered,
    out: &mut W,
    position: Position,
    name: Option<&[u8]>,
    assignment: Option<AssignmentRef<'_>>,
) -> Result<(), Fault>
    requires { W.failed out.old ≡ false }
    ensures { Gathers W.contents W.failed W.flushes out.old out.new gathered.old.items
        gathered.new.items result (said_if (is_of (option_map (λ word. word.now) name.entry))
        (λ a. position_text position ++ assigned_text a) assignment.entry) }
{
    match assignment {
        Some(assignment) if is_of(&assignment, name) => {
            put_position(gathered, out, position)?;
            put_assigned(gathered, out, &assignment)
        }
        _ => Ok(()),
    }
}

// Puts what is said of an assignment for targets, if there is one, of the name if one is asked for.
fn put_target_assignment<W: ByteSink>(
    gathered: &mut Gathered,
    out: &mut W,
    position: Position,
    name: Option<&[u8]>,
    assignment: Option<TargetAssignmentRef<'_>>,
) -> Result<(), Fault>
    requires { W.failed out.old ≡ false }
    ensures { Gathers W.contents W.failed W.flushes out.old out.new gathered.old.items
        gathered.new.items result
        (said_if (λ a. is_of (option_map (λ word. word.now) name.entry) a.assignment)
        (λ a. position_text position ++ target_assigned_text a) assignment.entry) }
{
    match assignment {
        Some(assignment) if is_of(&assignment.assignment(), name) => {
            put_position(gathered, out, position)?;
            put_targets(gathered, out, assignment.targets(), assignment.separator())?;
            put_assigned(gathered, out, &assignment.assignment())
        }
        _ => Ok(()),
    }
}

// Puts an assignment, to the end of its line.
fn put_assigned<W: ByteSink>(
    gathered: &mut Gathered,
    out: &mut W,
    assignment: &AssignmentRef<'_>,
) -> Result<(), Fault>
    requires { W.failed out.old ≡ false }
    ensures { Gathers W.contents W.failed W.flushes out.old out.new gathered.old.items
        gathered.new.items result (assigned_text assignment.now) }
{
    put_words(gathered, out, assignment.modifiers())?;
    let value = assignment.value();
    put_parts(
        gathered,
        out,
        &[
            b" ",
            assignment.name(),
            b" ",
            operator(assignment),
            space_before(value),
            value,
            b"\n",
        ],
    )
}

// The operator of an assignment.
fn operator<'a>(assignment: &AssignmentRef<'a>) -> &'a [u8]
    ensures { result.now ≡ operator_text assignment.now.flavor }
{
    assignment.flavor().text().as_bytes()
}

// What stands between an operator and a value: a space, or nothing if the value is empty.
fn space_before(value: &[u8]) -> &[u8]
    ensures { result.now ++ value.now ≡ after_space value.now }
{
    match value {
        [] => b"",
        _ => b" ",
    }
}
