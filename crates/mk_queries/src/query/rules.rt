//! The query `rules`: the lines of rules.
ghost use Rattle.std.specs.Prelude.{◌≡◌, ◌≤◌, Some, None, false, option_map};
ghost use Rattle.std.specs.List.{flat_map};
ghost use Rattle.mk_lines.specs.Device.{Writes};
ghost use Rattle.mk_tree.specs.Printing.{Gathers};
ghost use Rattle.mk_queries.specs.Items.{rule_spot};
ghost use Rattle.mk_queries.specs.Queries.{rules_text};
ghost use Rattle.mk_queries.specs.Texts.{count_text, inline_count, order_only_text, pattern_text, rule_text};

use crate::gathering::put_parts;
use crate::listing::{RuleLine, Rules};
use crate::position::put_position;
use crate::words::{put_targets, put_words};
use mk_lines::Fault;
use mk_lines::sink::{ByteSink, write_all};
use mk_tree::gathering::Gathered;
use mk_tree::{Doc, RuleRef, WordTexts};
use std::alloc::Allocator;

/// Writes a line of text on each rule of the makefile, in order. Nothing is flushed. Takes no memory.
///
/// The line begins with the number of the first physical line of the rule's line, from 1, and the
/// number of conditionals that are open there. Then come the targets; the separator; the pattern and a
/// `:`, if there is a pattern; the normal prerequisites; the order-only prerequisites after a `|`, if
/// there are any; and in brackets the number of the rule's recipe lines, where an inline recipe
/// counts as one. Folds are spaces, and comments are left out:
///
/// ```text
/// 1:0: %.o: %.c | out [1]
/// 3:0: x.o y.o: %.o: %.c [0]
/// 4:0: foo&: a [1]
/// ```
///
/// # Errors
///
/// [`Fault::Write`] if a write answered it or took no byte. A prefix of the text is out then.
pub fn rules<A: Allocator, W: ByteSink>(doc: &Doc<A>, out: &mut W) -> Result<(), Fault>
    requires { W.failed out.old ≡ false }
    ensures { Writes W.contents W.failed W.flushes out.old out.new result (rules_text None doc.now) }
{
    write_rules(crate::listing::rule_lines(doc), out)
}

/// Writes those lines of [`rules`] alone that tell of a rule for this target. Nothing is flushed.
/// Takes no memory.
///
/// # Errors
///
/// [`Fault::Write`] if a write answered it or took no byte. A prefix of the text is out then.
pub fn rules_named<A: Allocator, W: ByteSink>(
    doc: &Doc<A>,
    target: &[u8],
    out: &mut W,
) -> Result<(), Fault>
    requires { W.failed out.old ≡ false }
    ensures { Writes W.contents W.failed W.flushes out.old out.new result
        (rules_text (Some target.now) doc.now) }
{
    write_rules(crate::listing::rule_lines_for(doc, target), out)
}

// Writes a line on each of some rules.
fn write_rules<A: Allocator, W: ByteSink>(rules: Rules<'_, A>, out: &mut W) -> Result<(), Fault>
    requires { W.failed out.old ≡ false }
    ensures { Writes W.contents W.failed W.flushes out.old out.new result
        (flat_map rule_text rules.entry) }
{
    let mut gathered = Gathered::new();
    'rules: for rule in rules {
        put_rule(&mut gathered, out, &rule)?;
    }
    write_all(out, &gathered)
}

// Puts a line on a rule.
fn put_rule<A: Allocator, W: ByteSink>(
    gathered: &mut Gathered,
    out: &mut W,
    line: &RuleLine<'_, A>,
) -> Result<(), Fault>
    requires { W.failed out.old ≡ false }
    ensures { Gathers W.contents W.failed W.flushes out.old out.new gathered.old.items
        gathered.new.items result (rule_text (rule_spot line.now)) }
{
    let rule = &line.rule;
    put_position(gathered, out, line.position)?;
    put_targets(gathered, out, rule.targets(), rule.separator())?;
    put_pattern(gathered, out, rule.pattern())?;
    put_words(gathered, out, rule.prereqs())?;
    put_order_only(gathered, out, rule.order_only())?;
    put_count(gathered, out, line.recipe_count() + inline_count(rule))
}

// Puts a pattern, if there is one, with a space before it and a `:` behind it.
fn put_pattern<W: ByteSink>(
    gathered: &mut Gathered,
    out: &mut W,
    pattern: Option<&[u8]>,
) -> Result<(), Fault>
    requires { W.failed out.old ≡ false }
    ensures { Gathers W.contents W.failed W.flushes out.old out.new gathered.old.items
        gathered.new.items result (pattern_text (option_map (λ word. word.now) pattern.entry)) }
{
    match pattern {
        Some(pattern) => put_parts(gathered, out, &[b" ", pattern, b":"]),
        None => Ok(()),
    }
}

// Puts order-only prerequisites, if there are any, with a `|` before them.
fn put_order_only<W: ByteSink>(
    gathered: &mut Gathered,
    out: &mut W,
    words: WordTexts<'_>,
) -> Result<(), Fault>
    requires { W.failed out.old ≡ false }
    ensures { Gathers W.contents W.failed W.flushes out.old out.new gathered.old.items
        gathered.new.items result (order_only_text words.entry) }
{
    let mut others = words;
    let Some(first) = others.next() else {
        return Ok(());
    };
    put_parts(gathered, out, &[b" | ", first])?;
    put_words(gathered, out, others)
}

// Puts a number of recipe lines, at the end of a line.
fn put_count<W: ByteSink>(gathered: &mut Gathered, out: &mut W, count: usize) -> Result<(), Fault>
    requires { W.failed out.old ≡ false }
    ensures { Gathers W.contents W.failed W.flushes out.old out.new gathered.old.items
        gathered.new.items result (count_text count) }
{
    let mut digits = itoa::Buffer::new();
    let count = digits.format(count).as_bytes();
    put_parts(gathered, out, &[b" [", count, b"]\n"])
}

// The number of recipe lines that an inline recipe counts as.
fn inline_count(rule: &RuleRef<'_>) -> usize
    ensures value { result ≡ inline_count rule.now.inline_recipe }
    ensures one { result ≤ 1 }
{
    match rule.inline_recipe() {
        Some(_) => 1,
        None => 0,
    }
}
