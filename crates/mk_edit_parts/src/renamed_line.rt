//! The bytes of a line after a rename.
ghost use Rattle.std.specs.Prelude.{◌≡◌, ◌≤◌, [], ◌∷◌, ◌++◌, IfOk, length};
ghost use Rattle.mk_lines.specs.Cells.{line_cells};
ghost use Rattle.mk_tree.specs.Trees.{line_view};
ghost use Rattle.mk_edit_parts.specs.LocatedParts.{IsClassed};
ghost use Rattle.mk_edit_parts.specs.RenamedRanges.{IsWithin, no_words, part_ranges, renamed_ranges, tallied};
ghost use Rattle.mk_edit_parts.specs.RenamedTexts.{AreApart, renamed_text, rewritten, written};
ghost use Rattle.mk_edit_parts.specs.WordCuts.{last_end};

use crate::glance::may_have_word;
use crate::tally::Tally;
use crate::word_parts::{parts_of, range_of_word};
use mk_class::Class;
use mk_lines::split::Span;
use mk_lines::words;
use mk_tree::Line;
use mk_tree::part::{part, rest, text_of_line};
use std::alloc::{AllocError, Allocator};

/// The bytes of a line in which a rename replaces the words that are `from` by `to`. The caller
/// says how many bytes there will be, so that room is taken once, and has counted the words: a line
/// with one such word, as most are, is not cut into words again.
///
/// # Errors
///
/// [`AllocError`] if there is no memory for them.
pub fn renamed_bytes<A: Allocator + Copy>(
    alloc: A,
    line: &Line<A>,
    class: &Class,
    from: &[u8],
    to: &[u8],
    room: usize,
    tally: Tally,
) -> Result<Vec<u8, A>, AllocError>
    requires classed { IsClassed (line_view line.now) }
    requires class { class.now ≡ (line_view line.now).class }
    requires apart { AreApart 0 (length (line_view line.now).bytes)
        (renamed_ranges from.now (line_view line.now)) }
    requires tally { tally ≡ tallied no_words (renamed_ranges from.now (line_view line.now)) }
    ensures { IfOk result (λ bytes.
        bytes.items ≡ renamed_text from.now to.now (line_view line.now)) }
{
    if let (1, Some(word)) = (tally.words, tally.first) {
        return rewritten(alloc, line.bytes(), &[word], to, room);
    }
    let parts = parts_of(line, class);
    let mut bytes = Vec::with_capacity(alloc, room)?;
    let targets_end = write_part(&mut bytes, line, parts.targets, from, to, 0)?;
    let normal_end = write_part(&mut bytes, line, parts.normal, from, to, targets_end)?;
    let end = write_part(&mut bytes, line, parts.order_only, from, to, normal_end)?;
    bytes.extend_from_slice(rest(line.bytes(), end))?;
    Ok(bytes)
}

/// A text with a new text in the place of each of some ranges of it, which stand in order and apart.
/// `room` is the memory that is taken at first.
///
/// # Errors
///
/// [`AllocError`] if there is no memory for it.
pub fn rewritten<A: Allocator>(
    alloc: A,
    text: &[u8],
    ranges: &[Span],
    new: &[u8],
    room: usize,
) -> Result<Vec<u8, A>, AllocError>
    requires { AreApart 0 (length text.now) ranges.now }
    ensures { IfOk result (λ all. all.items ≡ rewritten text.now new.now ranges.now) }
{
    let mut all = Vec::with_capacity(alloc, room)?;
    let mut done = 0;
    let mut left = ranges;
    'left: while let [range, after @ ..] = left {
        write_word(&mut all, text, done, *range, new)?;
        done = range.end;
        left = after;
    }
    all.extend_from_slice(rest(text, done))?;
    Ok(all)
}

/// Writes a line from an offset up to the end of the last word of a part that is replaced, and
/// answers this end; if no word is replaced, it writes nothing and answers the offset. Most parts do
/// not have the word, and are not cut into words: a look from blank to blank is quicker.
pub(crate) fn write_part<A: Allocator + Copy>(
    bytes: &mut Vec<u8, A>,
    line: &Line<A>,
    span: Span,
    from: &[u8],
    to: &[u8],
    done: usize,
) -> Result<usize, AllocError>
    requires within { IsWithin (length (line_cells (line_view line.now).bytes)) span }
    requires apart { AreApart done (length (line_view line.now).bytes)
        (part_ranges (line_cells (line_view line.now).bytes) from.now span) }
    ensures end { IfOk result (λ end.
        end ≡ last_end done (part_ranges (line_cells (line_view line.now).bytes) from.now span)) }
    ensures written { IfOk result (λ end. bytes.new.items
        ≡ bytes.old.items
        ++ written (line_view line.now).bytes done to.now
        (part_ranges (line_cells (line_view line.now).bytes) from.now span)) }
{
    let text = text_of_line(line);
    if !may_have_word(text, span, from) {
        return Ok(done);
    }
    let mut done = done;
    'words: for word in words(part(text, span)) {
        if let Some(range) = range_of_word(line, span.start, word, from) {
            write_word(bytes, line.bytes(), done, range, to)?;
            done = range.end;
        }
    }
    Ok(done)
}

/// Writes a line from an offset up to a word, and then the new word.
pub(crate) fn write_word<A: Allocator>(
    bytes: &mut Vec<u8, A>,
    line: &[u8],
    done: usize,
    word: Span,
    to: &[u8],
) -> Result<(), AllocError>
    requires after { done ≤ word.start }
    requires within { word.start ≤ length line.now }
    ensures { IfOk result (λ _.
        bytes.new.items ≡ bytes.old.items ++ written line.now done to.now (word ∷ [])) }
{
    bytes.extend_from_slice(&line[done..word.start])?;
    bytes.extend_from_slice(to)?;
    Ok(())
}
