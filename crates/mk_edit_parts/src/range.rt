//! Ranges of the bytes of a line: where its value stands, whether the value ends in a fold, and the
//! line with a range replaced.
ghost use Rattle.std.specs.Prelude.{◌≡◌, ◌<◌, ◌≤◌, ◌++◌, IfOk, false, take, drop, length};
ghost use Rattle.mk_lines.specs.Cells.{line_cells};
ghost use Rattle.mk_lines.specs.CellFaults.{has_stray, is_fold};
ghost use Rattle.mk_class.specs.ListTests.{first_passes};
ghost use Rattle.mk_tree.specs.Trees.{line_view};
ghost use Rattle.mk_edit_parts.specs.LineRanges.{ends_in_fold_located, value_range_located};
ghost use Rattle.mk_edit_parts.specs.LocatedParts.{IsClassed};

use mk_class::Class;
use mk_lines::split::Span;
use mk_tree::Line;
use mk_tree::part::text_of_line;
use std::alloc::{AllocError, Allocator};

/// Where the value of an assignment's line stands among its bytes, with the blanks and folds after
/// it if `with_blanks` says so.
pub fn value_range<A: Allocator>(line: &Line<A>, with_blanks: bool) -> Span
    requires { IsClassed (line_view line.now) }
    ensures { result ≡ value_range_located with_blanks (line_view line.now) }
{
    match line.class() {
        Class::Assign(assignment, _) => {
            let end = if with_blanks {
                assignment.end
            } else {
                assignment.value.end
            };
            line.raw_range(assignment.value.start, end)
        }
        _ => Span { start: 0, end: 0 },
    }
}

/// Whether the last byte of a value, in its joined text, is a fold.
pub fn ends_in_fold<A: Allocator>(line: &Line<A>) -> bool
    requires { IsClassed (line_view line.now) }
    ensures { result ≡ ends_in_fold_located (line_view line.now) }
{
    match line.class() {
        Class::Assign(assignment, _) => {
            let value = assignment.value;
            value.start < value.end && is_fold_at(line, value.end - 1)
        }
        _ => false,
    }
}

// Whether the byte at an offset of a line's joined text is a fold. A fold alone has several raw
// bytes.
fn is_fold_at<A: Allocator>(line: &Line<A>, at: usize) -> bool
    requires within { at < length (line_cells (line_view line.now).bytes) }
    requires readable { has_stray (line_cells (line_view line.now).bytes) ≡ false }
    ensures { result ≡ first_passes is_fold (drop at (line_cells (line_view line.now).bytes)) }
{
    // The length of a text is bounded, so the offset after its end is a number.
    let _text = text_of_line(line);
    let raw = line.raw_range(at, at + 1);
    raw.end - raw.start > 1
}

/// Bytes with a range of them replaced, in memory of their own. All memory is taken at once.
///
/// # Errors
///
/// [`AllocError`] if the memory was refused.
pub fn with_replaced<A: Allocator>(
    alloc: A,
    bytes: &[u8],
    range: Span,
    new: &[u8],
) -> Result<Vec<u8, A>, AllocError>
    requires rises { range.start ≤ range.end }
    requires within { range.end ≤ length bytes.now }
    ensures { IfOk result (λ all.
        all.items ≡ take range.start bytes.now ++ (new.now ++ drop range.end bytes.now)) }
{
    let length = bytes.len() - (range.end - range.start) + new.len();
    let mut all = Vec::with_capacity(alloc, length)?;
    all.extend_from_slice(&bytes[..range.start])?;
    all.extend_from_slice(new)?;
    all.extend_from_slice(&bytes[range.end..])?;
    Ok(all)
}
