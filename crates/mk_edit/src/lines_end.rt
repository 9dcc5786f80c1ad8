//! What lines leave below them, as far as an exchange of whole lines has to know it.
ghost use Rattle.std.specs.Prelude.{◌≡◌, ◌+◌, ◌≤◌, ◌==◌, ◌&&◌, length, not};
ghost use Rattle.mk_edit_language.specs.ExchangeCauses.{agree_but_for_flag};
ghost use Rattle.mk_edit_parts.specs.Found.{IsPlaceOf};
ghost use Rattle.mk_edit_parts.specs.LocatedParts.{IsClassed};
ghost use Rattle.mk_edit.specs.ExchangePlans.{end_after_all, end_before, is_of_prefix_located};
ghost use Rattle.mk_tree.specs.Documents.{IsFaithful};
ghost use Rattle.mk_tree.specs.LocatedLines.{size_of};
ghost use Rattle.mk_tree.specs.Origins.{lines_between};
ghost use Rattle.mk_tree.specs.Trees.{line_view};

use mk_class::{Class, Context};
use mk_edit_parts::line_test::assigns;
use mk_edit_parts::seek::Found;
use mk_tree::{Doc, Line};
use std::alloc::Allocator;

/// What some lines leave below them.
#[derive(Clone, Copy)]
pub(crate) struct LinesEnd {
    /// The context after them.
    pub context: Context,
    /// Whether one of them assigns `.RECIPEPREFIX` or opens a define for it.
    pub is_of_prefix: bool,
}

/// Whether a line assigns `.RECIPEPREFIX` or opens a define for it.
pub(crate) fn is_of_prefix<A: Allocator>(line: &Line<A>, class: &Class) -> bool
    requires classed { IsClassed (line_view line.now) }
    requires class { class.now ≡ (line_view line.now).class }
    ensures { result ≡ is_of_prefix_located (line_view line.now) }
{
    assigns(line, class, b".RECIPEPREFIX") || matches!(class, Class::DefineHead(true))
}

/// Whether two contexts agree in all except perhaps the flag.
pub(crate) fn agree_but_for_flag(left: Context, right: Context) -> bool
    ensures { result ≡ agree_but_for_flag left right }
{
    left.defines() == right.defines()
        && left.conds() == right.conds()
        && left.prefix() == right.prefix()
}

/// Lines that go.
#[derive(Clone, Copy)]
pub(crate) struct GoingLines {
    /// How many bytes they have.
    pub bytes: usize,
    /// What they leave below them.
    pub end: LinesEnd,
}

/// `count` lines from a place on, which go, by one walk over them. It reads no line anew and takes no
/// memory.
pub(crate) fn going_lines<A: Allocator>(doc: &Doc<A>, place: Found, count: usize) -> GoingLines
    requires faithful { IsFaithful doc.now }
    requires place { IsPlaceOf doc.now place }
    requires in_range { place.at + count ≤ length doc.now }
    ensures bytes { result.bytes ≡ size_of (lines_between place.at count doc.now) }
    ensures few { result.bytes ≤ size_of doc.now }
    ensures end { result.end
        ≡ end_after_all (end_before place.context) (lines_between place.at count doc.now) }
{
    // The contract of `size` says that the text is within the limit; that of `iter` says that each
    // line is admitted where it stands.
    let _size = doc.size();
    let _lines = doc.iter();
    let from = place.at;
    let mut context = place.context;
    let mut bytes = 0;
    let mut has_prefix = false;
    let mut lines = doc.lines_from(from);
    'lines: for passed in 0..count {
        let Some(line) = lines.next() else {
            unreachable!()
        };
        let class = line.class();
        bytes += line.bytes().len();
        has_prefix |= is_of_prefix(line, &class);
        context = context.step(&class);
    }
    let end = LinesEnd {
        context,
        is_of_prefix: has_prefix,
    };
    GoingLines { bytes, end }
}
