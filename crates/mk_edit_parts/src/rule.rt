//! A rule in a document: how many targets it has, and how far its run goes.
//!
//! The run of a rule is its line, its recipe, and the lines of the conditionals that begin in it. The
//! calls look at the classes of lines. They read no line anew and take no memory.
ghost use Rattle.std.specs.Prelude.{◌≡◌, ◌<◌, ◌≤◌, ◌+◌, length, option_map};
ghost use Rattle.mk_lines.specs.Limits.{max_text};
ghost use Rattle.mk_lines.specs.Words.{words_in};
ghost use Rattle.mk_class.specs.Contexts.{conditionals_after_located};
ghost use Rattle.mk_tree.specs.Documents.{IsFaithful};
ghost use Rattle.mk_tree.specs.RecipeLines.{recipe_run};
ghost use Rattle.mk_tree.specs.Trees.{line_view};
ghost use Rattle.mk_edit_language.specs.RuleRuns.{run_below};
ghost use Rattle.mk_edit_parts.specs.LocatedParts.{IsClassed};
ghost use Rattle.mk_edit_parts.specs.RecipeWalks.{header_targets_located, lines_from};
ghost use Rattle.mk_edit_parts.specs.RuleRunWalks.{ends_branch_located, stands_located};

use crate::recipe::{is_recipe, recipe_below};
use mk_class::Class;
use mk_lines::source::MAX_TEXT;
use mk_lines::split::Span;
use mk_lines::split_first_word;
use mk_tree::part::{part, text_of_line};
use mk_tree::{Doc, Line};
use std::alloc::Allocator;

/// How many targets a header has; 0 for any other line.
pub fn target_count<A: Allocator>(line: &Line<A>) -> usize
    requires { IsClassed (line_view line.now) }
    ensures { result ≡ length (header_targets_located (line_view line.now)) }
{
    match line.class() {
        Class::Header(header) => {
            let targets = Span {
                start: 0,
                end: header.targets_end,
            };
            word_count(part(text_of_line(line), targets))
        }
        _ => 0,
    }
}

// How many words a text has.
fn word_count(text: &[u8]) -> usize
    ensures { result ≡ length (words_in text.now) }
{
    let mut count = 0;
    let mut rest = text;
    'words: while let Some((_, after)) = split_first_word(rest) {
        count += 1;
        rest = after;
    }
    count
}

/// How many lines the run of a rule has below its header, if it has a run. The header stands directly
/// before the index `from`. The run ends at or after the last recipe line, where no conditional is open
/// that begins in it.
pub fn run_below<A: Allocator>(doc: &Doc<A>, from: usize) -> Option<usize>
    requires faithful { IsFaithful doc.now }
    requires in_range { from ≤ length doc.now }
    ensures { result
        ≡ option_map (λ run. length run.lines)
        (run_below 0 (length (recipe_run (lines_from doc.now from))) (lines_from doc.now from)) }
{
    prove!(doc.len() <= MAX_TEXT);
    // How many lines there are yet up to the last recipe line, and how many conditionals are open.
    let mut left = recipe_below(doc, from).end - from;
    let mut begun = 0;
    let mut passed = 0;
    let mut lines = doc.lines_from(from);
    'lines: while begun + left > 0 {
        let Some(line) = lines.next() else {
            return None;
        };
        let class = line.class();
        if !stands_in_run(begun, &class) {
            return None;
        }
        begun = conditionals_after(begun, &class);
        left = left.saturating_sub(1);
        passed += 1;
    }
    Some(passed)
}

// Whether a line of this class may stand in the run of a rule, where so many conditionals are open that
// begin in the run.
fn stands_in_run(begun: usize, class: &Class) -> bool
    ensures { result ≡ stands_located begun class.now }
{
    (is_recipe(class) || class.leaves_flag()) && (begun > 0 || !ends_branch(class))
}

// Whether a line of this class belongs to a conditional that begins above it.
fn ends_branch(class: &Class) -> bool
    ensures { result ≡ ends_branch_located class.now }
{
    matches!(class, Class::Else | Class::Endif)
}

// How many conditionals are open after a line of this class.
fn conditionals_after(begun: usize, class: &Class) -> usize
    requires { begun < max_text }
    ensures { result ≡ conditionals_after_located begun class.now }
{
    match class {
        Class::If => begun + 1,
        Class::Endif => begun.saturating_sub(1),
        _ => begun,
    }
}
