//! Whether lines lean on the flag before them.
ghost use Rattle.std.specs.Prelude.{◌≡◌, ◌≤◌, ◌&&◌, not, drop, length};
ghost use Rattle.mk_class.specs.RecipePrefix.{is_prefix_led};
ghost use Rattle.mk_tree.specs.Leaning.{is_same_flag};
ghost use Rattle.mk_edit_parts.specs.LineRanges.{is_led_first_located};

use mk_class::RuleFlag;
use mk_tree::Doc;
use std::alloc::Allocator;

/// Whether the lines of a document from an index on lean on the flags before and after a change
/// above them: the flags differ, and the first line that counts begins with the prefix.
///
/// It walks over these lines up to the first that counts, reads no line anew and takes no memory.
pub fn leans<A: Allocator>(
    doc: &Doc<A>,
    from: usize,
    prefix: u8,
    before: RuleFlag,
    after: RuleFlag,
) -> bool
    requires { from ≤ length doc.now }
    ensures { result
        ≡ (not (is_same_flag before after) && is_led_first_located prefix (drop from doc.now)) }
{
    !is_same_flag(before, after) && is_led_first(doc, from, prefix)
}

// Whether two flags are the same.
fn is_same_flag(left: RuleFlag, right: RuleFlag) -> bool
    ensures { result ≡ is_same_flag left right }
{
    matches!(
        (left, right),
        (RuleFlag::Off, RuleFlag::Off)
            | (RuleFlag::Rule, RuleFlag::Rule)
            | (RuleFlag::Unknown, RuleFlag::Unknown)
    )
}

// Whether the first of the lines from an index on that begins with the prefix or sets the flag
// begins with the prefix.
fn is_led_first<A: Allocator>(doc: &Doc<A>, from: usize, prefix: u8) -> bool
    requires { from ≤ length doc.now }
    ensures { result ≡ is_led_first_located prefix (drop from doc.now) }
{
    let mut lines = doc.lines_from(from);
    'lines: for at in from..doc.len() {
        let Some(line) = lines.next() else {
            unreachable!()
        };
        if begins_with(line.bytes(), prefix) {
            return true;
        }
        if !line.class().leaves_flag() {
            return false;
        }
    }
    false
}

/// Whether a line begins with a byte.
pub fn begins_with(line: &[u8], prefix: u8) -> bool
    ensures { result ≡ is_prefix_led prefix line.now }
{
    matches!(line, [first, ..] if *first == prefix)
}
