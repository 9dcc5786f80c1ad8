//! The class of a line in its context.
//!
//! A line is read from its front, by the units of its joined text. One pass over its bytes comes
//! before that (`Marks`): it tells of most lines that a class does not fit. The class of a line is
//! the first that fits, in the order of the table in docs/LANGUAGE.md.
ghost use Rattle.std.specs.Prelude.{◌≡◌, ◌⊎◌, ◌<◌, ◌≤◌, ◌≢◌, ◌+◌, ◌-◌, ◌^◌, ℕ, List, true, false, All, IfErr, IfOk, MatchOption, Some, min, nat_lt};
ghost use Rattle.mk_lines.specs.Limits.{max_text};
ghost use Rattle.mk_lines.specs.Units.{units};
ghost use Rattle.mk_lines.specs.StoredCells.{AreCellsOf};
ghost use Rattle.mk_lines.specs.PhysicalLines.{without_line_end};
ghost use Rattle.mk_class.specs.Contexts.{max_conditionals};
ghost use Rattle.mk_class.specs.Assignments.{Assignment, assignment};
ghost use Rattle.mk_lines.specs.Cells.{joined_text, line_cells};
ghost use Rattle.mk_class.specs.ClassTable.{is_unreadable};
ghost use Rattle.mk_class.specs.declared.class.Class.TheVariants.{If, TargetAssign};
ghost use Rattle.mk_class.specs.LineReads.{IsLineRead, IsPlain, OpensTooDeep};
ghost use Rattle.mk_class.specs.CutTexts.{cut_text};
ghost use Rattle.mk_class.specs.ListTests.{first_passes};
ghost use Rattle.mk_class.specs.Marks.{Cover};
ghost use Rattle.mk_class.specs.RecipePrefix.{is_dot, may_be_prefix, may_set_prefix, prefix_of_value, prefix_set_by};
ghost use Rattle.mk_class.specs.Separators.{takes_assignment};
ghost use Rattle.mk_class.specs.TextClasses.{header_text_class, itself, plain_text_class, rule_text_class, text_class};

use crate::assignment::{
    Flavor, TargetAssignment, after_name, assignment_at_end, read_assignment, read_operator,
};
use crate::class::Class;
use crate::context::{Context, MAX_CONDITIONALS, RuleFlag};
use crate::header::{read_header, separate};
use crate::keyword::{body_class, directive_class, is_text};
use crate::marks::Marks;
use crate::meter::Meter;
use crate::rule::Separator;
use crate::scan::{after_blanks, before, blanks_at_end, cut_text, has_hash, split_head};
use mk_lines::cells::cells;
use mk_lines::ends::without_line_end;
use mk_lines::{Cells, Fault};
use std::alloc::Allocator;

/// The class of a line in its context, and the context of the next line.
///
/// `line` is one logical line, with its line end. The call adds one to the meter, also if the
/// answer is a fault. A line without folds takes no memory. The time is linear in the line's bytes.
///
/// It asks that fewer than [`MAX_DEFINES`](crate::context::MAX_DEFINES) defines are open.
///
/// # Errors
///
/// [`Fault::TooDeep`] if the line opens a conditional and [`MAX_CONDITIONALS`] are open: this
/// project's profile.
/// [`Fault::NoMemory`] if there is no memory for the cells of a line with folds.
pub fn classify<A: Allocator + Copy>(
    alloc: A,
    line: &[u8],
    context: Context,
    meter: &mut Meter,
) -> Result<(Class, Context), Fault>
    requires { context.defines < max_text }
    ensures class { IfOk result (λ read. IsLineRead context line.now read.0 read.1) }
    ensures fault { IfErr result (λ fault.
        (fault ≡ Fault.NoMemory) ⊎ ((fault ≡ Fault.TooDeep) × OpensTooDeep context line.now)) }
    ensures plain { All (λ b. b ≢ 10) (without_line_end line.now)
        → IfErr result (λ fault. fault ≡ Fault.TooDeep) }
    ensures meter { meter.new ≡ min (meter.old + 1) (2 ^ 64 - 1) }
    ensures forward { meter.old ≤ meter.new }
{
    match cells(alloc, line) {
        Ok(cells) => class_with_cells(line, &cells, context, meter),
        Err(fault) => {
            meter.add();
            Err(fault)
        }
    }
}

/// The class of a line in its context, and the context of the next line, if the line's cells are at
/// hand. Takes no memory; otherwise as [`classify`].
///
/// # Errors
///
/// [`Fault::TooDeep`] if the line opens a conditional and [`MAX_CONDITIONALS`] are open: this
/// project's profile.
pub fn class_with_cells<A: Allocator>(
    line: &[u8],
    cells: &Cells<A>,
    context: Context,
    meter: &mut Meter,
) -> Result<(Class, Context), Fault>
    requires cells { AreCellsOf cells.now line.now }
    requires defines { context.defines < max_text }
    ensures class { IfOk result (λ read. IsLineRead context line.now read.0 read.1) }
    ensures fault { IfErr result (λ fault.
        (fault ≡ Fault.TooDeep) × OpensTooDeep context line.now) }
    ensures meter { meter.new ≡ min (meter.old + 1) (2 ^ 64 - 1) }
    ensures forward { meter.old ≤ meter.new }
{
    meter.add();
    class_of_text(line, cells.text(line), is_unreadable(cells), context)
}

/// The class of a plain line in its context, and the context of the next line. A line is plain if it
/// has neither folds nor a stray byte, so it is its own joined text and its cells tell nothing more.
/// Takes no memory; otherwise as [`classify`].
///
/// # Errors
///
/// [`Fault::TooDeep`] if the line opens a conditional and [`MAX_CONDITIONALS`] are open: this
/// project's profile.
pub fn class_of_plain_line(
    line: &[u8],
    context: Context,
    meter: &mut Meter,
) -> Result<(Class, Context), Fault>
    requires plain { IsPlain line.now }
    requires defines { context.defines < max_text }
    ensures class { IfOk result (λ read. IsLineRead context line.now read.0 read.1) }
    ensures fault { IfErr result (λ fault.
        (fault ≡ Fault.TooDeep) × OpensTooDeep context line.now) }
    ensures meter { meter.new ≡ min (meter.old + 1) (2 ^ 64 - 1) }
    ensures forward { meter.old ≤ meter.new }
{
    meter.add();
    class_of_text(line, without_line_end(line), false, context)
}

/// The class of a line in its context, and the context of the next line, from the joined text of the
/// line and from whether it has a stray byte or a bad fold.
///
/// It is inlined, so that a class is not moved once more on its way to the document.
#[inline(always)]
fn class_of_text(
    line: &[u8],
    text: &[u8],
    unreadable: bool,
    context: Context,
) -> Result<(Class, Context), Fault>
    requires text { text.now ≡ joined_text (line_cells line.now) }
    requires unreadable { unreadable ≡ is_unreadable (line_cells line.now) }
    requires defines { context.defines < max_text }
    ensures class { IfOk result (λ read. IsLineRead context line.now read.0 read.1) }
    ensures fault { IfErr result (λ fault.
        (fault ≡ Fault.TooDeep) × OpensTooDeep context line.now) }
{
    let class = text_class(text, context.leads(line), context, unreadable);
    if is_too_deep(&class, context) {
        return Err(Fault::TooDeep);
    }
    Ok((class, context.step(&class)))
}

/// Whether a line has a stray byte or a bad fold.
fn is_unreadable<A: Allocator>(cells: &Cells<A>) -> bool
    ensures { (line : List ℕ) → AreCellsOf cells.now line
        → result ≡ is_unreadable (line_cells line) }
{
    cells.has_stray() || cells.has_bad_fold()
}

/// Whether a line of this class opens a conditional and [`MAX_CONDITIONALS`] are open.
fn is_too_deep(class: &Class, context: Context) -> bool
    ensures deep { result ≡ true → (class.now ≡ If) × (context.conditionals ≡ max_conditionals) }
    ensures fits { result ≡ false → class.now ≡ If → context.conditionals < max_conditionals }
{
    match class {
        Class::If => context.conds() == MAX_CONDITIONALS,
        _ => false,
    }
}

/// The class of a joined text in a context: `is_led` says whether the line begins with the recipe
/// prefix, and `is_unreadable` whether it has a stray byte or a bad fold.
fn text_class(text: &[u8], is_led: bool, context: Context, is_unreadable: bool) -> Class
    ensures { result
        ≡ text_class is_led context.defines context.flag (nat_lt 0 context.conditionals)
        is_unreadable text.now }
{
    let defines = context.defines();
    if defines > 0 {
        return body_class(text, is_led, defines);
    }
    match context.flag() {
        RuleFlag::Rule if is_led => Class::Recipe,
        RuleFlag::Unknown if is_led => Class::Opaque,
        _ => plain_class(text, is_led, context.conds() > 0, is_unreadable),
    }
}

/// The class of a joined text outside defines and recipes.
fn plain_class(text: &[u8], is_led: bool, in_conditional: bool, is_unreadable: bool) -> Class
    ensures { result
        ≡ plain_text_class is_led in_conditional is_unreadable (units itself text.now) }
{
    let marks = Marks::of(text);
    let cut = cut_text(text, marks);
    if after_blanks(cut).is_empty() {
        return if has_hash(text, marks) {
            Class::Comment
        } else {
            Class::Blank
        };
    }
    if is_unreadable {
        return Class::Opaque;
    }
    if let Some(assignment) = read_assignment(cut, marks) {
        return Class::Assign(assignment, prefix_set_by(cut, in_conditional));
    }
    if let Some(class) = directive_class(cut, in_conditional) {
        return class;
    }
    if is_led {
        return Class::Opaque;
    }
    if !marks.has_colon() {
        return Class::Opaque;
    }
    let (head, tail) = split_head(text, marks);
    let split = separate(head);
    if split.from.is_empty() {
        return Class::Opaque;
    }
    match read_target_assignment(cut, marks) {
        Some(assignment) => Class::TargetAssign(assignment),
        None => read_header(head, split, tail, marks),
    }
}

/// The assignment for targets that a cut text of a line with these marks is, if it is one. The
/// line's head has a `:`.
fn read_target_assignment(cut: &[u8], marks: Marks) -> Option<TargetAssignment>
    requires { Cover marks cut.now }
    ensures { (us : List (List ℕ)) → units itself cut.now ≡ cut_text itself us
        → MatchOption result (header_text_class us ≡ rule_text_class us) (λ t.
        TargetAssign t ≡ rule_text_class us) }
{
    if !marks.has_equals() {
        return None;
    }
    let split = separate(cut);
    if !takes_assignment(split.separator) {
        return None;
    }
    let assignment = assignment_at_end(split.rest, cut.len())?;
    Some(TargetAssignment {
        separator: split.separator,
        targets_end: cut.len() - split.from.len(),
        assignment,
    })
}

/// Whether an assignment may stand after a separator.
fn takes_assignment(separator: Separator) -> bool
    ensures { result ≡ takes_assignment separator }
{
    matches!(separator, Separator::SingleColon | Separator::DoubleColon)
}

/// The recipe prefix that an assignment sets, from its cut text, if it sets one.
fn prefix_set_by(cut: &[u8], in_conditional: bool) -> Option<u8>
    ensures { (a : Assignment ℕ) → assignment itself (units itself cut.now) ≡ Some a
        → result ≡ prefix_set_by itself in_conditional a }
{
    if in_conditional {
        return None;
    }
    let named = after_blanks(cut);
    if !begins_with_dot(named) {
        return None;
    }
    let after_name = after_name(named);
    if !is_text(before(named, after_name), b".RECIPEPREFIX") {
        return None;
    }
    let (flavor, operand) = read_operator(after_blanks(after_name))?;
    if !may_set_prefix(flavor) {
        return None;
    }
    let value = after_blanks(operand);
    prefix_of_value(before(value, blanks_at_end(value)))
}

/// Whether the first byte of a text is a `.`, as that of `.RECIPEPREFIX` is.
fn begins_with_dot(text: &[u8]) -> bool
    ensures { result ≡ first_passes is_dot text.now }
{
    matches!(text, [b'.', ..])
}

/// Whether an assignment of this flavor may set the recipe prefix.
fn may_set_prefix(flavor: Flavor) -> bool
    ensures { result ≡ may_set_prefix flavor }
{
    matches!(
        flavor,
        Flavor::Recursive | Flavor::Simple | Flavor::PosixSimple
    )
}

/// The recipe prefix that a value says: a tab if the value is empty, and otherwise its first byte,
/// if that byte may be a prefix.
fn prefix_of_value(value: &[u8]) -> Option<u8>
    ensures { result ≡ prefix_of_value value.now }
{
    match value {
        [] => Some(b'\t'),
        [first, ..] if may_be_prefix(*first) => Some(*first),
        _ => None,
    }
}

/// Whether a byte may be the recipe prefix: a printable byte of ASCII other than the blank, `$` and
/// the backslash.
fn may_be_prefix(byte: u8) -> bool
    ensures { result ≡ may_be_prefix byte }
{
    byte.is_ascii_graphic() && byte != b'$' && byte != b'\\'
}
