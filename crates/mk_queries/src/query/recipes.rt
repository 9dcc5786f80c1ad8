//! The query `recipes`: the recipe lines of rules, with the numbers by which edits mean them.
ghost use Rattle.std.specs.Prelude.{◌≡◌, Some, None, false};
ghost use Rattle.std.specs.List.{flat_map};
ghost use Rattle.mk_lines.specs.Device.{Writes};
ghost use Rattle.mk_tree.specs.Printing.{Gathers};
ghost use Rattle.mk_queries.specs.Items.{recipe_spot, rule_spot};
ghost use Rattle.mk_queries.specs.Queries.{recipes_text, rule_recipes};
ghost use Rattle.mk_queries.specs.Texts.{before_recipe, recipe_text};

use crate::gathering::put_parts;
use crate::listing::{RecipeLine, RuleLine, Rules};
use crate::position::put_position;
use crate::words::put_targets;
use mk_lines::Fault;
use mk_lines::sink::{ByteSink, write_all};
use mk_tree::Doc;
use mk_tree::gathering::{Gathered, put};
use std::alloc::Allocator;

/// Writes a line of text on each rule that has recipe lines, and behind it one on each of these, in order.
/// Nothing is flushed. Takes no memory.
///
/// Each begins with the number of the line's first physical line, from 1, and the number of conditionals
/// that are open there. Then come the targets of the rule and the separator; or of a recipe line its
/// number among those of its rule, from 1, in brackets, by which edits mean it, and its text after the
/// recipe prefix. Folds are spaces. An inline recipe is not listed, since it has no such number:
///
/// ```text
/// 1:0: clean:
/// 2:0: [1] rm -f x
/// 3:0: [2] @echo done
/// 4:0: x.o y.o:
/// 6:1: [1] cc -c $<
/// ```
///
/// Text and time are linear in the size of the makefile.
///
/// # Errors
///
/// [`Fault::Write`] if a write answered it or took no byte. A prefix of the text is out then.
pub fn recipes<A: Allocator, W: ByteSink>(doc: &Doc<A>, out: &mut W) -> Result<(), Fault>
    requires { W.failed out.old ≡ false }
    ensures { Writes W.contents W.failed W.flushes out.old out.new result
        (recipes_text None doc.now) }
{
    write_recipes(crate::listing::rule_lines(doc), out)
}

/// Writes those lines of [`recipes`] alone that tell of a rule for this target, or of its recipe lines.
/// Nothing is flushed. Takes no memory.
///
/// # Errors
///
/// [`Fault::Write`] if a write answered it or took no byte. A prefix of the text is out then.
pub fn recipes_named<A: Allocator, W: ByteSink>(
    doc: &Doc<A>,
    target: &[u8],
    out: &mut W,
) -> Result<(), Fault>
    requires { W.failed out.old ≡ false }
    ensures { Writes W.contents W.failed W.flushes out.old out.new result
        (recipes_text (Some target.now) doc.now) }
{
    write_recipes(crate::listing::rule_lines_for(doc, target), out)
}

// Writes the lines on the recipe lines of some rules.
fn write_recipes<A: Allocator, W: ByteSink>(rules: Rules<'_, A>, out: &mut W) -> Result<(), Fault>
    requires { W.failed out.old ≡ false }
    ensures { Writes W.contents W.failed W.flushes out.old out.new result
        (flat_map rule_recipes rules.entry) }
{
    let mut gathered = Gathered::new();
    'rules: for rule in rules {
        put_recipes(&mut gathered, out, &rule)?;
    }
    write_all(out, &gathered)
}

// Puts a line on a rule and on each of its recipe lines, if it has any.
fn put_recipes<A: Allocator, W: ByteSink>(
    gathered: &mut Gathered,
    out: &mut W,
    rule: &RuleLine<'_, A>,
) -> Result<(), Fault>
    requires { W.failed out.old ≡ false }
    ensures { Gathers W.contents W.failed W.flushes out.old out.new gathered.old.items
        gathered.new.items result (rule_recipes (rule_spot rule.now)) }
{
    'lines: for line in rule.recipe_lines() {
        put_recipe(gathered, out, rule, &line)?;
    }
    Ok(())
}

// Puts a line on a recipe line of a rule, and before the first one the line on the rule.
fn put_recipe<A: Allocator, W: ByteSink>(
    gathered: &mut Gathered,
    out: &mut W,
    rule: &RuleLine<'_, A>,
    line: &RecipeLine<'_>,
) -> Result<(), Fault>
    requires { W.failed out.old ≡ false }
    ensures { Gathers W.contents W.failed W.flushes out.old out.new gathered.old.items
        gathered.new.items result (recipe_text (rule_spot rule.now) (recipe_spot line.now)) }
{
    let mut digits = itoa::Buffer::new();
    let number = digits.format(line.number).as_bytes();
    put_before(gathered, out, rule, line.number)?;
    put_position(gathered, out, line.position)?;
    put_parts(gathered, out, &[b" [", number, b"] ", line.text, b"\n"])
}

// Puts the line on a rule, if the recipe line of this number is the first below it.
fn put_before<A: Allocator, W: ByteSink>(
    gathered: &mut Gathered,
    out: &mut W,
    rule: &RuleLine<'_, A>,
    number: u32,
) -> Result<(), Fault>
    requires { W.failed out.old ≡ false }
    ensures { Gathers W.contents W.failed W.flushes out.old out.new gathered.old.items
        gathered.new.items result (before_recipe (rule_spot rule.now) number) }
{
    if number != 1 {
        return Ok(());
    }
    put_position(gathered, out, rule.position)?;
    put_targets(gathered, out, rule.rule.targets(), rule.rule.separator())?;
    put(gathered, out, b"\n")
}
