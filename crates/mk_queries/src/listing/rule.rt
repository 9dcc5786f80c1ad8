//! The rules of a document.
ghost use Rattle.std.specs.Prelude.{◌≡◌, ◌≤◌, length, option_map};
ghost use Rattle.mk_lines.specs.Limits.{max_text};
ghost use Rattle.mk_tree.specs.Views.{rule_of};
ghost use Rattle.mk_queries.specs.Finding.{FindsFirst};
ghost use Rattle.mk_queries.specs.Listings.{is_for, recipes_ahead, rules_ahead, whole};

use crate::listing::position::Position;
use crate::listing::recipe::{RecipeLines, count_recipe_lines};
use crate::listing::walk::{NumberedLines, Place};
use mk_tree::{Doc, RuleRef};
use std::alloc::{Allocator, Global};
use std::marker::Model;

/// The line of a rule, with where it stands.
#[derive(Drop)]
pub struct RuleLine<'a, A: Allocator = Global> {
    /// Where the line stands.
    pub position: Position,
    /// The number of the rule among those that are listed, from 1. If those for one target are listed,
    /// it is the number that the `nth` of an edit takes.
    pub nth: u32,
    /// The parts of the line.
    pub rule: RuleRef<'a>,
    below: Place<'a, A>,
}

impl<'a, A: Allocator> RuleLine<'a, A> {
    /// The recipe lines of the rule. An inline recipe is none of them: [`RuleRef::inline_recipe`]
    /// has it.
    pub fn recipe_lines(&self) -> RecipeLines<'a, A>
        ensures { result ≡ recipes_ahead 1 self.now.below }
    {
        RecipeLines::new(self.below.numbered())
    }

    /// How many recipe lines the rule has: as many as [`recipe_lines`](RuleLine::recipe_lines) gives.
    /// They are counted without where they stand, which takes less time.
    pub fn recipe_count(&self) -> usize
        ensures count { result ≡ length (recipes_ahead 1 self.now.below) }
        ensures few { result ≤ max_text }
    {
        count_recipe_lines(self.below.lines())
    }
}

/// The rules of a document that are not yet given, from its front to its end: all of them, or those
/// for one target. Contracts see their list.
///
/// A rule is one whose line is read inside (`Class::Header`). To go through all of them takes time
/// linear in the size of the document, and no memory.
#[derive(Drop)]
pub struct Rules<'a, A: Allocator = Global> {
    walk: NumberedLines<'a, A>,
    target: Option<&'a [u8]>,
    // How many were given.
    given: u32,
}

impl<'a, A: Allocator> Model for Rules<'a, A> {
    ghost use Rattle.std.specs.Prelude.{◌+◌, ◌≤◌, List, length, option_map};
    ghost use Rattle.mk_lines.specs.Limits.{max_text};
    ghost use Rattle.mk_queries.specs.Listings.{RuleSpot, rules_ahead};

    ghost Value = { List RuleSpot };

    ghost view = { λ r.
        rules_ahead (option_map (λ target. target.now) r.target) (r.given + 1) r.walk };

    ghost invariant = { λ r. r.given + length r.walk.ahead ≤ max_text };
}

impl<'a, A: Allocator> Rules<'a, A> {
    // The rules of a document, for one target if one is asked for.
    pub(crate) fn new(doc: &'a Doc<A>, target: Option<&'a [u8]>) -> Rules<'a, A>
        ensures { result
            ≡ rules_ahead (option_map (λ word. word.now) target.entry) 1 (whole doc.now) }
    {
        let _size = doc.len(); // its contract bounds the number of lines
        Rules {
            walk: NumberedLines::new(doc),
            target,
            given: 0,
        }
    }
}

impl<'a, A: Allocator> Iterator for Rules<'a, A> {
    type Item = RuleLine<'a, A>;

    ghost use Rattle.std.specs.Iterator.{YieldsFirstBy, item_count};
    ghost use Rattle.mk_queries.specs.Items.{rule_spot};

    ghost next_gives = { YieldsFirstBy rule_spot (λ left. left) };

    ghost remaining = { item_count (λ left. left) };

    fn next(&mut self) -> Option<RuleLine<'a, A>> {
        let (position, rule) = next_rule(&mut self.walk, self.target)?;
        self.given += 1;
        Some(RuleLine {
            position,
            nth: self.given,
            rule,
            below: self.walk.place(),
        })
    }
}

// The next rule of a walk, for one target if one is asked for.
fn next_rule<'a, A: Allocator>(
    walk: &mut NumberedLines<'a, A>,
    target: Option<&[u8]>,
) -> Option<(Position, RuleRef<'a>)>
    ensures { FindsFirst rule_of (is_for (option_map (λ word. word.now) target.entry)) walk.old result
        walk.new }
{
    'lines: while let Some((position, line)) = walk.next() {
        if let Some(rule) = line.rule() {
            if is_for(&rule, target) {
                return Some((position, rule));
            }
        }
    }
    None
}

/// Whether a rule is one for a target, if one is asked for.
pub(crate) fn is_for(rule: &RuleRef<'_>, target: Option<&[u8]>) -> bool
    ensures { result ≡ is_for (option_map (λ word. word.now) target.entry) rule.now }
{
    let Some(target) = target else {
        return true;
    };
    'targets: for word in rule.targets() {
        if target == word {
            return true;
        }
    }
    false
}
