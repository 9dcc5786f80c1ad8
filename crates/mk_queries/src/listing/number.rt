//! The number that an edit takes for a line, by the index of the line.
ghost use Rattle.std.specs.Prelude.{◌≡◌, ◌≤◌, length};
ghost use Rattle.mk_lines.specs.Limits.{max_text};
ghost use Rattle.mk_tree.specs.Trees.{line_view};
ghost use Rattle.mk_queries.specs.Counting.{is_counted};
ghost use Rattle.mk_queries.specs.Numbers.{assignment_number, count_down_to, rule_number};

use crate::listing::assignment::is_of;
use crate::listing::lists::line_at;
use crate::listing::rule::is_for;
use mk_tree::{Doc, Line, Lines};
use std::alloc::Allocator;

/// The number of the assignment on the line with this index, from 0: the `nth` by which an edit of its
/// variable means it. None if the line is no assignment, or if there are not so many lines.
///
/// It walks over the lines down to this one, and takes no memory.
pub fn assignment_number<A: Allocator>(doc: &Doc<A>, index: usize) -> Option<u32>
    ensures { result ≡ assignment_number doc.now index }
{
    let assignment = line_at(doc, index)?.assignment()?;
    let _len = doc.len(); // its contract bounds the number of lines
    Some(count(doc.iter(), index, Counted::Assignments(assignment.name())))
}

/// The number of the rule on the line with this index, from 0: the `nth` by which an edit of a rule for
/// this target means it. None if the line is no rule for the target, or if there are not so many lines.
///
/// It walks over the lines down to this one, and takes no memory.
pub fn rule_number<A: Allocator>(doc: &Doc<A>, index: usize, target: &[u8]) -> Option<u32>
    ensures { result ≡ rule_number doc.now index target.now }
{
    let rule = line_at(doc, index)?.rule()?;
    if !is_for(&rule, Some(target)) {
        return None;
    }
    let _len = doc.len(); // its contract bounds the number of lines
    Some(count(doc.iter(), index, Counted::Rules(target)))
}

// What is counted: the assignments of a variable, or the rules for a target.
#[derive(Clone, Copy)]
enum Counted<'a> {
    Assignments(&'a [u8]),
    Rules(&'a [u8]),
}

// Whether a line is counted.
fn is_counted<A: Allocator>(line: &Line<A>, counted: Counted<'_>) -> bool
    ensures { result ≡ is_counted counted.entry (line_view line.now) }
{
    match counted {
        Counted::Assignments(name) => match line.assignment() {
            Some(assignment) => is_of(&assignment, Some(name)),
            None => false,
        },
        Counted::Rules(target) => match line.rule() {
            Some(rule) => is_for(&rule, Some(target)),
            None => false,
        },
    }
}

// How many lines are counted, down to the one with this index.
fn count<A: Allocator>(lines: Lines<'_, A>, index: usize, counted: Counted<'_>) -> u32
    requires { length lines ≤ max_text }
    ensures { result ≡ count_down_to index (is_counted counted.entry) lines.entry }
{
    let (mut count, mut above) = (0, index);
    'lines: for line in lines {
        if is_counted(line, counted) {
            count += 1;
        }
        if above == 0 {
            return count;
        }
        above -= 1;
    }
    count
}
