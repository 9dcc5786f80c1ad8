//! The raw bytes of a part of a line, by offsets in its joined text.
ghost use Rattle.std.specs.Prelude.{◌≡◌, ◌≤◌, ◌++◌, length, drop};
ghost use Rattle.mk_lines.specs.PhysicalLines.{line_end, line_end_bytes};
ghost use Rattle.mk_lines.specs.Cells.{line_cells, raw_text};
ghost use Rattle.mk_tree.specs.Trees.{line_view};
ghost use Rattle.mk_edit_parts.specs.WordCuts.{raw_between};

use mk_lines::split::Span;
use mk_tree::Line;
use mk_tree::part::part;
use std::alloc::Allocator;

/// The raw bytes of a range of a line's joined text.
pub(crate) fn raw_part<A: Allocator>(line: &Line<A>, span: Span) -> &[u8]
    requires rises { span.start ≤ span.end }
    requires within { span.end ≤ length (line_cells (line_view line.now).bytes) }
    ensures { result.now ≡ raw_between (line_cells (line_view line.now).bytes) span.start span.end }
{
    part(line.bytes(), line.raw_range(span.start, span.end))
}

/// The raw bytes of a line from an offset in its joined text on, with its line end.
pub(crate) fn raw_rest<A: Allocator>(line: &Line<A>, start: usize) -> &[u8]
    requires within { start ≤ length (line_cells (line_view line.now).bytes) }
    ensures { result.now
        ≡ raw_text (drop start (line_cells (line_view line.now).bytes))
        ++ line_end_bytes (line_end (line_view line.now).bytes) }
{
    let bytes = line.bytes();
    let start = line.raw_range(start, start).start;
    let end = bytes.len();
    part(bytes, Span { start, end })
}
