//! The notes on a new rule, and on a new recipe where another rule has one.

use crate::tally::Tally;
use crate::text::Notes;
use mk_class::{Class, Separator};
use mk_edit_language::{Edit, RuleSeparator};
use mk_queries::listing::{Position, RuleLine, assignments_of, numbered, rule_lines_for};
use mk_tree::{Line, WordTexts};
use std::alloc::{AllocError, Allocator};

/// How many targets of a new rule are looked at.
const MOST_TARGETS: usize = 10;

impl<'a, A: Allocator, B: Allocator + Copy> Notes<'a, A, B> {
    /// Puts the notes on a new rule for these targets, which has its line at a position or at the end.
    pub(crate) fn new_rule<C: Allocator>(
        &mut self,
        tally: &Tally<B>,
        edit: &Edit<C>,
        targets: &[u8],
        at: Option<Position>,
    ) -> Result<(), AllocError> {
        let is_double = matches!(
            edit,
            Edit::AddRule {
                separator: RuleSeparator::Double,
                ..
            }
        );
        for target in WordTexts::new(targets).take(MOST_TARGETS) {
            if tally.has_rules(target) && self.other_colons(is_double, target)? == 0 {
                self.other_recipes(0, target)?;
            }
        }
        match at {
            Some(at) => self.default_goal(at.index),
            None => Ok(()),
        }
    }

    // Puts the notes on the rules for the target of a new rule that have colons of the other kind. Hands
    // out how many there are.
    fn other_colons(&mut self, is_double: bool, target: &[u8]) -> Result<usize, AllocError> {
        if target.contains(&b'%') {
            return Ok(0);
        }
        let said: &[u8] = if is_double {
            b" has a rule with `:`, and make stops with an error if it reads both"
        } else {
            b" has a rule with `::`, and make stops with an error if it reads both"
        };
        let mut count = 0;
        for line in rule_lines_for(self.doc, target) {
            if has_double_colon(&line) != is_double {
                count = self.listed(&[target, said], count, line.position)?;
            }
        }
        self.end_list(count)
    }

    /// Puts the notes on the rules for a target that have a recipe, besides the one of the number `own`,
    /// from 1. The number of a new rule is 0.
    pub(crate) fn other_recipes(&mut self, own: u32, target: &[u8]) -> Result<(), AllocError> {
        if target.contains(&b'%') {
            return Ok(());
        }
        let mut count = 0;
        for line in rule_lines_for(self.doc, target) {
            if line.nth != own && !has_double_colon(&line) && has_recipe(&line) {
                let said = &[target, b" has a recipe in another rule"];
                count = self.listed(said, count, line.position)?;
            }
        }
        self.end_list(count).map(|_| ())
    }

    // Puts the note on a new rule with the line at an index, if its target is now the default goal in place
    // of another one.
    fn default_goal(&mut self, own: usize) -> Result<(), AllocError> {
        let doc = self.doc;
        if assignments_of(doc, b".DEFAULT_GOAL").next().is_some() {
            return Ok(());
        }
        let mut new: Option<&[u8]> = None;
        for (at, line) in numbered(doc) {
            match (goal_of(line), new) {
                (None, _) if matches!(line.class(), Class::Rough) => return Ok(()),
                (None, _) => {}
                (Some(goal), None) if at.index == own => new = Some(goal),
                (Some(goal), Some(new)) if goal != new => {
                    let said = b" as its default goal now, in place of ";
                    self.script(&[b"make may take ", new, said, goal])?;
                    return self.line(Some(at));
                }
                _ => return Ok(()),
            }
        }
        Ok(())
    }
}

// Whether a rule is one of those with `::`: make takes each of them by itself.
fn has_double_colon<A: Allocator>(line: &RuleLine<'_, A>) -> bool {
    matches!(
        line.rule.separator(),
        Separator::DoubleColon | Separator::GroupedDoubleColon
    )
}

// Whether a rule has a recipe.
fn has_recipe<A: Allocator>(line: &RuleLine<'_, A>) -> bool {
    line.rule.inline_recipe().is_some() || line.recipe_lines().next().is_some()
}

// The target of a line that make takes as its default goal, if no line above has one.
fn goal_of<A: Allocator>(line: &Line<A>) -> Option<&[u8]> {
    line.rule()?.targets().find(|target| may_be_goal(target))
}

// Whether a target may be the default goal: it is no pattern, and begins with no dot or has a `/`. make
// drops a `./` at its front.
fn may_be_goal(target: &[u8]) -> bool {
    let target = target.strip_prefix(b"./").unwrap_or(target);
    !target.contains(&b'%') && (!target.starts_with(b".") || target.contains(&b'/'))
}
