//! The recipe of a rule, found by a walk down from its header.
//!
//! A walk looks at the classes of the lines that it passes, and passes a run of recipe lines or of
//! blank lines at once. It reads no line anew and takes no memory.
ghost use Rattle.std.specs.Prelude.{◌≡◌, ◌≤◌, ◌+◌, length, option_map};
ghost use Rattle.std.specs.List.{list_any};
ghost use Rattle.mk_class.specs.Classes.{is_conditional};
ghost use Rattle.mk_tree.specs.Documents.{IsFaithful};
ghost use Rattle.mk_tree.specs.LocatedLines.{is_conditional_located};
ghost use Rattle.mk_tree.specs.RecipeLines.{recipe_run};
ghost use Rattle.mk_edit_language.specs.Spots.{nth_of};
ghost use Rattle.mk_edit_parts.specs.RecipeWalks.{follows_recipe, gaps_in, is_recipe_located, lines_from, recipe_spots_in};

use mk_class::Class;
use mk_lines::source::MAX_TEXT;
use mk_tree::{Doc, Run};
use std::alloc::Allocator;

/// Where the recipe of a rule ends: after its last recipe line, which may stand above the line that
/// ends the rule.
#[derive(Clone, Copy)]
pub struct Recipe {
    /// The index after the last recipe line of the rule, or after the header if the rule has no
    /// recipe line.
    pub end: usize,
    /// Whether a line of a conditional stands between the header and the last recipe line.
    pub is_split: bool,
}

/// Where the recipe of a header ends. The header stands directly before the index `from`.
pub fn recipe_below<A: Allocator>(doc: &Doc<A>, from: usize) -> Recipe
    requires faithful { IsFaithful doc.now }
    requires in_range { from ≤ length doc.now }
    ensures end { result.end ≡ from + length (recipe_run (lines_from doc.now from)) }
    ensures is_split { result.is_split
        ≡ list_any (λ line. is_conditional line.class) (recipe_run (lines_from doc.now from)) }
{
    prove!(doc.len() <= MAX_TEXT);
    let mut recipe = Recipe {
        end: from,
        is_split: false,
    };
    // Whether a line of a conditional was passed so far.
    let mut is_split = false;
    let mut at = from;
    let mut lines = doc.lines_from(from);
    'lines: while let Some(line) = lines.next() {
        let class = line.class();
        if is_recipe(&class) {
            at += lines.pass(Run::Recipes, MAX_TEXT) + 1;
            recipe = Recipe { end: at, is_split };
        } else if class.leaves_flag() {
            is_split = is_split || is_conditional(&class);
            at += lines.pass(Run::Gaps, MAX_TEXT) + 1;
        } else {
            return recipe;
        }
    }
    recipe
}

/// The index of a header's recipe line, by its number from 1. The header stands directly before the
/// index `from`.
pub fn recipe_line<A: Allocator>(doc: &Doc<A>, from: usize, number: u32) -> Option<usize>
    requires faithful { IsFaithful doc.now }
    requires in_range { from ≤ length doc.now }
    ensures { result
        ≡ option_map (λ spot. from + length spot.above)
        (nth_of number (recipe_spots_in (lines_from doc.now from))) }
{
    prove!(doc.len() <= MAX_TEXT);
    let mut passed = 0;
    let mut at = from;
    let mut lines = doc.lines_from(from);
    'lines: while let Some(line) = lines.next() {
        let class = line.class();
        if is_recipe(&class) {
            passed += 1;
            if passed == number as usize {
                return Some(at);
            }
            let more = lines.pass(Run::Recipes, (number as usize).saturating_sub(passed + 1));
            passed += more;
            at += more + 1;
        } else if class.leaves_flag() {
            at += lines.pass(Run::Gaps, MAX_TEXT) + 1;
        } else {
            return None;
        }
    }
    None
}

/// The index where a header's new recipe line goes that is to have this number, from 1: before the
/// recipe line of this number, or after the last one if the number is one more than theirs. The
/// header stands directly before the index `from`.
pub fn recipe_gap<A: Allocator>(doc: &Doc<A>, from: usize, number: u32) -> Option<usize>
    requires faithful { IsFaithful doc.now }
    requires in_range { from ≤ length doc.now }
    ensures { result
        ≡ option_map (λ gap. from + gap) (nth_of number (gaps_in (lines_from doc.now from))) }
{
    let line = recipe_line(doc, from, number);
    if line.is_some() {
        return line;
    }
    if follows_recipe(doc, from, number) {
        Some(recipe_below(doc, from).end)
    } else {
        None
    }
}

// Whether a recipe line of this number would be the first of a header, or would follow one.
fn follows_recipe<A: Allocator>(doc: &Doc<A>, from: usize, number: u32) -> bool
    requires faithful { IsFaithful doc.now }
    requires in_range { from ≤ length doc.now }
    ensures { result ≡ follows_recipe number (recipe_spots_in (lines_from doc.now from)) }
{
    match number {
        0 => false,
        1 => true,
        _ => recipe_line(doc, from, number - 1).is_some(),
    }
}

/// Whether a line of this class is a recipe line.
pub fn is_recipe(class: &Class) -> bool
    ensures { result ≡ is_recipe_located class.now }
{
    matches!(class, Class::Recipe)
}

// Whether a line of this class belongs to a conditional.
fn is_conditional(class: &Class) -> bool
    ensures { result ≡ is_conditional_located class.now }
{
    matches!(class, Class::If | Class::Else | Class::Endif)
}
