//! The recipe lines of a rule that have a text, found by a walk down from its header.
//!
//! A walk reads no line anew and takes no memory.
ghost use Rattle.std.specs.Prelude.{◌≡◌, ◌≤◌, ◌<◌, ◌+◌, drop, filter, length, option_map};
ghost use Rattle.std.specs.Str.{bytes_eq};
ghost use Rattle.mk_lines.specs.Limits.{max_text};
ghost use Rattle.mk_lines.specs.PhysicalLines.{without_line_end};
ghost use Rattle.mk_tree.specs.Documents.{IsFaithful};
ghost use Rattle.mk_tree.specs.Trees.{line_view};
ghost use Rattle.mk_edit_language.specs.EachLine.{recipe_text};
ghost use Rattle.mk_edit_language.specs.Spots.{nth_of};
ghost use Rattle.mk_edit_language.specs.Stretches.{has_text};
ghost use Rattle.mk_edit_parts.specs.RecipeWalks.{lines_from, recipe_spots_in};
ghost use Rattle.mk_edit_parts.specs.TextMatches.{with_match};

use crate::recipe::is_recipe;
use crate::text::is_same_text;
use mk_lines::ends::without_line_end;
use mk_lines::source::MAX_TEXT;
use mk_tree::{Doc, Line};
use std::alloc::Allocator;

/// The recipe lines of a rule that have a text.
#[derive(Clone, Copy)]
pub struct Matches {
    /// The index of the first of them.
    pub first: Option<usize>,
    /// How many there are.
    pub count: usize,
}

/// The recipe lines of a header that have this text after the recipe prefix. The header stands
/// directly before the index `from`.
pub fn recipe_matches<A: Allocator>(doc: &Doc<A>, from: usize, text: &[u8]) -> Matches
    requires faithful { IsFaithful doc.now }
    requires in_range { from ≤ length doc.now }
    ensures first { result.first
        ≡ option_map (λ spot. from + length spot.above)
        (nth_of 1 (filter (has_text text.now) (recipe_spots_in (lines_from doc.now from)))) }
    ensures count { result.count
        ≡ length (filter (has_text text.now) (recipe_spots_in (lines_from doc.now from))) }
{
    prove!(doc.len() <= MAX_TEXT);
    let mut matches = Matches {
        first: None,
        count: 0,
    };
    let mut lines = doc.lines_from(from);
    'lines: for at in from..doc.len() {
        let Some(line) = lines.next() else {
            unreachable!()
        };
        let class = line.class();
        if is_recipe(&class) {
            if has_text(line, text) {
                matches = with_match(matches, at);
            }
        } else if !class.leaves_flag() {
            return matches;
        }
    }
    matches
}

// What is found with one more line, at this index.
fn with_match(matches: Matches, at: usize) -> Matches
    requires few { matches.count < max_text }
    ensures { result ≡ with_match matches at }
{
    let first = match matches.first {
        Some(first) => first,
        None => at,
    };
    Matches {
        first: Some(first),
        count: matches.count + 1,
    }
}

// Whether a recipe line has this text after its first byte, up to its line end.
fn has_text<A: Allocator>(line: &Line<A>, text: &[u8]) -> bool
    ensures { result ≡ bytes_eq (drop 1 (without_line_end (line_view line.now).bytes)) text.now }
{
    is_same_text(recipe_text(line.bytes()), text)
}

/// The text of a recipe line: what stands after its first byte, up to its line end.
pub fn recipe_text(line: &[u8]) -> &[u8]
    ensures { result.now ≡ recipe_text line.now }
{
    match without_line_end(line) {
        [_, text @ ..] => text,
        [] => b"",
    }
}
