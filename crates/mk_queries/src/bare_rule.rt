//! Bare rules, which have one target and nothing else, and recipes for their targets.
//!
//! A rule with several targets is none of them: a look for each would need memory or a walk of its
//! own. Nor is one whose target may mean something else to make: a special target, a pattern or a
//! reference.

use crate::listing::{RuleLine, rule_lines_for};
use mk_class::Separator;
use mk_tree::{Doc, RuleRef};
use std::alloc::Allocator;

/// The target of a rule that has one, with a `:`, and nothing else; none if this is the target of a
/// special rule, a suffix rule or a pattern rule, or has a dollar.
pub(crate) fn bare_target<'a, A: Allocator>(line: &RuleLine<'a, A>) -> Option<&'a [u8]> {
    let mut targets = line.rule.targets();
    let target = targets.next()?;
    if is_alone(&line.rule)
        && targets.next().is_none()
        && is_plain(target)
        && line.recipe_lines().next().is_none()
    {
        Some(target)
    } else {
        None
    }
}

// Whether a rule has a `:` and nothing after it.
fn is_alone(rule: &RuleRef<'_>) -> bool {
    matches!(rule.separator(), Separator::SingleColon)
        && rule.pattern().is_none()
        && rule.prereqs().next().is_none()
        && rule.order_only().next().is_none()
        && rule.inline_recipe().is_none()
}

// Whether a target is that of no special rule, suffix rule or pattern rule, and has no dollar.
fn is_plain(target: &[u8]) -> bool {
    let is_dotted = target.first() == Some(&b'.') && !target.contains(&b'/');
    !is_dotted && !target.contains(&b'$') && !target.contains(&b'%')
}

/// Whether a rule for this target has a recipe.
pub(crate) fn has_recipe_for<A: Allocator>(doc: &Doc<A>, target: &[u8]) -> bool {
    for line in rule_lines_for(doc, target) {
        if line.rule.inline_recipe().is_some() || line.recipe_lines().next().is_some() {
            return true;
        }
    }
    false
}
