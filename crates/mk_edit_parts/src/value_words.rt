//! The words of a value: whether a word that stays would be read together with what follows one
//! that goes, and the line without a word of its value.
ghost use Rattle.std.specs.Prelude.{◌≡◌, ◌≤◌, ◌<◌, ◌++◌, List, false, length, IfOk};
ghost use Rattle.mk_lines.specs.PhysicalLines.{line_end, line_end_bytes};
ghost use Rattle.mk_lines.specs.Cells.{Cell, line_cells};
ghost use Rattle.mk_lines.specs.Pieces.{new_bytes};
ghost use Rattle.mk_lines.specs.Ranges.{text_at, word_ranges};
ghost use Rattle.mk_lines.specs.Words.{words_in};
ghost use Rattle.mk_class.specs.Assignments;
ghost use Rattle.mk_tree.specs.Trees.{line_view};
ghost use Rattle.mk_tree.specs.LocatedLines.{text_of_line};
ghost use Rattle.mk_edit_language.specs.LineCauses.{bares_end_among};
ghost use Rattle.mk_edit_parts.specs.SeenAssignments.{HasAssignment, IsAssignmentSeen};
ghost use Rattle.mk_edit_parts.specs.ValuePieces.{line_without_pieces};
ghost use Rattle.mk_edit_parts.specs.WordCuts.{some_stays, staying_words};

use crate::raw_part::{raw_part, raw_rest};
use crate::text::is_same_text;
use mk_class::{Assignment, is_value};
use mk_lines::split::Span;
use mk_lines::{split_first_word, words};
use mk_tree::Line;
use mk_tree::part::{part, text_of_line};
use std::alloc::{AllocError, Allocator};

/// Whether some word of a value stands directly before one that is this word, and is no value by
/// itself. What follows the word would then be read together with the end of the word before it, if
/// it were taken out.
pub fn bares_end(value: &[u8], word: &[u8]) -> bool
    ensures { result ≡ bares_end_among word.now (words_in value.now) }
{
    let mut rest = value;
    let mut is_value_before = true;
    'words: while let Some((next, after)) = split_first_word(rest) {
        if !is_value_before && is_same_text(next, word) {
            return true;
        }
        is_value_before = is_value(next);
        rest = after;
    }
    false
}

/// The line of an assignment without a word of its value: the word goes wherever it stands, each
/// time with the blanks and folds directly before it; or with those after it, if no word before it
/// stays. If no word stays, the blanks and folds after the value go too. All memory is taken at
/// once.
///
/// # Errors
///
/// [`AllocError`] if there is no memory for it.
pub fn without_word<A: Allocator + Copy>(
    alloc: A,
    line: &Line<A>,
    assignment: Assignment,
    word: &[u8],
) -> Result<Vec<u8, A>, AllocError>
    requires { HasAssignment (line_view line.now) assignment }
    ensures { IfOk result (λ bytes.
        (a : Assignments.Assignment Cell) (rest : List Cell)
        → IsAssignmentSeen (line_view line.now) assignment a rest
        → bytes.items
        ≡ new_bytes (line_without_pieces word.now a rest) ++ line_end_bytes
        (line_end (line_view line.now).bytes)) }
{
    let value = assignment.value;
    let mut bytes = Vec::with_capacity(alloc, line.bytes().len())?;
    bytes.extend_from_slice(raw_part(
        line,
        Span {
            start: 0,
            end: value.start,
        },
    ))?;
    let stays = put_staying(&mut bytes, line, value, word)?;
    let rest = if stays { value.end } else { assignment.end };
    bytes.extend_from_slice(raw_rest(line, rest))?;
    Ok(bytes)
}

// Puts the raw bytes of the words of a value that are not this word after some bytes: each with
// what stands between it and the word before it, but the first one by itself. Tells whether there is
// such a word.
fn put_staying<A: Allocator>(
    bytes: &mut Vec<u8, A>,
    line: &Line<A>,
    value: Span,
    word: &[u8],
) -> Result<bool, AllocError>
    requires rises { value.start ≤ value.end }
    requires within { value.end ≤ length (line_cells (line_view line.now).bytes) }
    ensures { IfOk result (λ stays.
        (stays
        ≡ some_stays (text_at (text_of_line (line_view line.now)) value) word.now false
        (word_ranges (text_at (text_of_line (line_view line.now)) value)))
        × (bytes.new.items
        ≡ bytes.old.items
        ++ staying_words (line_cells (line_view line.now).bytes) value.start
        (text_at (text_of_line (line_view line.now)) value) word.now false value.start
        (word_ranges (text_at (text_of_line (line_view line.now)) value)))) }
{
    let text = part(text_of_line(line), value);
    let mut stays = false;
    let mut done = value.start;
    'words: for found in words(text) {
        let end = value.start + found.end;
        if !is_same_text(part(text, found), word) {
            let start = if stays {
                done
            } else {
                value.start + found.start
            };
            bytes.extend_from_slice(raw_part(line, Span { start, end }))?;
            stays = true;
        }
        done = end;
    }
    Ok(stays)
}
