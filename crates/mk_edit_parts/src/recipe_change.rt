//! Recipe lines with a text in the place of each occurrence of another, and whether they read as stated.
ghost use Rattle.std.specs.Prelude.{◌≡◌, ◌≤◌, ◌<◌, ◌-◌, ◌&&◌, IfOk, length};
ghost use Rattle.std.specs.Str.{bytes_eq};
ghost use Rattle.mk_lines.specs.PhysicalLines.{without_line_end};
ghost use Rattle.mk_tree.specs.Trees.{line_view};
ghost use Rattle.mk_edit_language.specs.EachLine.{recipe_after, recipe_text};
ghost use Rattle.mk_edit_parts.specs.RecipeChanges.{line_end_length, reads_as_stated, recipe_ranges, stated_text};

use crate::recipe::is_recipe;
use crate::recipe_text::recipe_text;
use crate::renamed_line::write_word;
use crate::text::is_same_text;
use memchr::memmem::find_iter;
use mk_lines::ends::without_line_end;
use mk_lines::split::Span;
use mk_tree::Line;
use mk_tree::part::rest;
use std::alloc::{AllocError, Allocator};

/// How often a text occurs in a recipe line, after its first byte. Occurrences are taken from the left,
/// none overlapping the one before.
pub fn occurrences(line: &[u8], from: &[u8]) -> usize
    ensures { result ≡ length (recipe_ranges from.now line.now) }
{
    find_iter(recipe_text(line), from).count()
}

/// The bytes of a recipe line with a text in the place of each occurrence of another. `room` is the
/// memory that is taken at first.
///
/// # Errors
///
/// [`AllocError`] if there is no memory for them.
pub fn recipe_after<A: Allocator>(
    alloc: A,
    line: &[u8],
    from: &[u8],
    to: &[u8],
    room: usize,
) -> Result<Vec<u8, A>, AllocError>
    requires { 1 ≤ length from.now }
    ensures { IfOk result (λ bytes. bytes.items ≡ recipe_after from.now to.now line.now) }
{
    let mut bytes = Vec::with_capacity(alloc, room)?;
    let mut done = 0;
    'texts: for at in find_iter(recipe_text(line), from) {
        let start = at + 1;
        let end = start + from.len();
        write_word(&mut bytes, line, done, Span { start, end }, to)?;
        done = end;
    }
    bytes.extend_from_slice(rest(line, done))?;
    Ok(bytes)
}

/// Whether a line that was made of a recipe line by [`recipe_after`] reads as stated: as a recipe line
/// whose text is all that was made between the first byte and the old line end.
pub fn reads_as_stated<A: Allocator>(old: &[u8], new: &Line<A>) -> bool
    requires { line_end_length old.now < length (line_view new.now).bytes }
    ensures { result ≡ reads_as_stated old.now (line_view new.now) }
{
    let bytes = new.bytes();
    let stated = stated_text(old, bytes);
    is_recipe(&new.class()) && is_same_text(recipe_text(bytes), stated)
}

// The bytes of a new line between the first one and the line end of the old line.
fn stated_text<'a>(old: &[u8], new: &'a [u8]) -> &'a [u8]
    requires { line_end_length old.now < length new.now }
    ensures { result.now ≡ stated_text old.now new.now }
{
    let line_end = old.len() - without_line_end(old).len();
    &new[1..new.len() - line_end]
}
