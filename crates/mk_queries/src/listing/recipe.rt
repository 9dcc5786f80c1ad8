//! The recipe lines of a rule.
ghost use Rattle.std.specs.Prelude.{◌≡◌, ◌≤◌, length};
ghost use Rattle.mk_lines.specs.Limits.{max_text};
ghost use Rattle.mk_queries.specs.Finding.{FindsRecipe, recipe_count};
ghost use Rattle.mk_queries.specs.Listings.{recipes_ahead};

use crate::listing::position::Position;
use crate::listing::walk::NumberedLines;
use mk_class::Class;
use mk_tree::Lines;
use std::alloc::{Allocator, Global};
use std::marker::Model;

/// A recipe line, with where it stands.
#[derive(Debug, Drop)]
pub struct RecipeLine<'a> {
    /// Where the line stands.
    pub position: Position,
    /// Its number among the recipe lines of its rule, from 1, which edits of recipe lines take.
    pub number: u32,
    /// Its text after the recipe prefix. Folds are spaces.
    pub text: &'a [u8],
}

/// The recipe lines of a rule that are not yet given, in order. Contracts see their list.
///
/// Blank lines, comments and the lines of conditionals may stand between them; any other line ends
/// the rule. It takes no memory.
#[derive(Drop)]
pub struct RecipeLines<'a, A: Allocator = Global> {
    walk: NumberedLines<'a, A>,
    // How many were given.
    given: u32,
    has_ended: bool,
}

impl<'a, A: Allocator> Model for RecipeLines<'a, A> {
    ghost use Rattle.std.specs.Prelude.{◌+◌, ◌≤◌, if◌then◌else◌, List, [], length};
    ghost use Rattle.mk_lines.specs.Limits.{max_text};
    ghost use Rattle.mk_queries.specs.Listings.{RecipeSpot, recipes_ahead};

    ghost Value = { List RecipeSpot };

    ghost view = { λ r. if r.has_ended then [] else recipes_ahead (r.given + 1) r.walk };

    ghost invariant = { λ r. r.given + length r.walk.ahead ≤ max_text };
}

impl<'a, A: Allocator> RecipeLines<'a, A> {
    // The recipe lines that a walk below the line of a rule has ahead.
    pub(crate) fn new(walk: NumberedLines<'a, A>) -> RecipeLines<'a, A>
        ensures { result ≡ recipes_ahead 1 walk.entry }
    {
        RecipeLines {
            walk,
            given: 0,
            has_ended: false,
        }
    }
}

impl<'a, A: Allocator> Iterator for RecipeLines<'a, A> {
    type Item = RecipeLine<'a>;

    ghost use Rattle.std.specs.Iterator.{YieldsFirstBy, item_count};
    ghost use Rattle.mk_queries.specs.Items.{recipe_spot};

    ghost next_gives = { YieldsFirstBy recipe_spot (λ left. left) };

    ghost remaining = { item_count (λ left. left) };

    fn next(&mut self) -> Option<RecipeLine<'a>> {
        if self.has_ended {
            return None;
        }
        match next_recipe(&mut self.walk) {
            Some((position, text)) => {
                self.given += 1;
                Some(RecipeLine {
                    position,
                    number: self.given,
                    text,
                })
            }
            None => {
                self.has_ended = true;
                None
            }
        }
    }
}

// The next recipe line of a walk below the line of a rule, if one comes before the first line that
// ends the rule.
fn next_recipe<'a, A: Allocator>(walk: &mut NumberedLines<'a, A>) -> Option<(Position, &'a [u8])>
    ensures { FindsRecipe walk.old result walk.new }
{
    'lines: while let Some((position, line)) = walk.next() {
        if let Some(text) = line.recipe() {
            return Some((position, text));
        }
        if !line.class().leaves_flag() {
            return None;
        }
    }
    None
}

/// How many recipe lines the rule above some lines has.
pub(crate) fn count_recipe_lines<A: Allocator>(lines: Lines<'_, A>) -> usize
    requires { length lines ≤ max_text }
    ensures count { result ≡ recipe_count lines.entry }
    ensures few { result ≤ max_text }
{
    let mut count = 0;
    'lines: for line in lines {
        match line.class() {
            Class::Recipe => count += 1,
            class if class.leaves_flag() => {}
            _ => return count,
        }
    }
    count
}
