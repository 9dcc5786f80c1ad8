//! A balanced tree of lines: one boxed node for each line, in the order of the lines.
//!
//! The heights of two siblings differ by at most one (Adelson-Velsky and Landis, 1962). The box of
//! a node is the line itself, so that a line by itself can be put into a tree without memory. Where
//! a line is put in or taken out, a tree is changed by value: [`Tree::unlink`] takes it apart at
//! its top, and [`Tree::join`] puts two trees and a line between them together. Where a line takes
//! the place of another, the nodes stay, and two boxes exchange what they hold ([`Tree::replace`]).
ghost use Rattle.std.specs.Prelude.{◌≡◌, ◌+◌, ◌<◌, ◌≤◌, max, [], ◌∷◌, ◌++◌, length, Some, IfOk, MatchOption, slice_get, take, drop, IfSome, true};
ghost use Rattle.mk_lines.specs.Limits.{max_text};
ghost use Rattle.mk_lines.specs.Cells.{line_cells};
ghost use Rattle.mk_lines.specs.PhysicalLines.{without_line_end};
ghost use Rattle.mk_lines.specs.Ranges.{raw_range};
ghost use Rattle.mk_class.specs.ClassTable.{is_unreadable};
ghost use Rattle.mk_tree.specs.LocatedLines.{bytes_of_line, last_line, size_of, size_of_line, text_of_line, with_last_bytes};
ghost use Rattle.mk_tree.specs.Runs.{AreRun};
ghost use Rattle.mk_tree.specs.Trees.{line_view, lines_and_height, DifferByAtMost, AreFew, IsUnlinked, IsTop, IsHeightAfter};

use crate::content::Content;
use crate::line_bytes::LineBytes;
use crate::run::Run;
use mk_class::Class;
use mk_lines::split::Span;
use std::alloc::{AllocFailed, Allocator, Global};
use std::marker::Model;
use std::mem::{self, size_of};

/// No tree of at most 16,777,216 lines is higher than this.
pub(crate) const HEIGHT_LIMIT: usize = 34;

/// Some lines in order, as a tree.
#[cycle(tree)]
#[derive(Drop)]
pub(crate) struct Tree<A: Allocator = Global> {
    link: Link<A>,
}

#[cycle(tree)]
#[derive(Drop)]
enum Link<A: Allocator> {
    Empty,
    // What is known of the tree stands beside the pointer to its top, so that a way down reads only
    // the nodes on it. It comes first, since a variant begins with what fits beside its tag.
    Full {
        height: u8,
        // What its lines are, if they are known to be a run.
        run: Option<Run>,
        lines: u32,
        top: Line<A>,
    },
}

/// A line of a makefile, in a box of its own. In a document the box also holds what stands before
/// and after the line.
#[cycle(tree)]
#[derive(Drop)]
pub struct Line<A: Allocator = Global> {
    node: Box<Node<A>, A>,
}

#[cycle(tree)]
#[derive(Drop)]
struct Node<A: Allocator> {
    content: Content<A>,
    left: Tree<A>,
    right: Tree<A>,
}

// A document has one node for each line. To print or drop the document takes the time that it takes
// to go through the memory of all nodes.
const _: () = prove!(size_of::<Node<Global>>() == 56);

impl<A: Allocator> Model for Tree<A> {
    ghost use Rattle.std.specs.Prelude.{ℕ, List, length};
    ghost use Rattle.mk_tree.specs.LocatedLines.{LocatedLine};

    ghost Value = { List LocatedLine × ℕ };

    ghost use Rattle.mk_tree.specs.Trees.{lines_and_height, IsBalanced};

    ghost view = { λ t. lines_and_height t.link };

    ghost invariant = { λ t. IsBalanced t.link };

    ghost size = { λ v. length v.0 };

    ghost use Rattle.std.proofs.Common.{arith, length-append};

    ghost size_decreases = { λ t h. Prim.grind (arith, length-append) };
}

impl<A: Allocator> Node<A> {
    fn into_content(self) -> Content<A>
        ensures { result ≡ self.content }
    {
        self.content
    }
}

impl<A: Allocator> Line<A> {
    /// A line by itself. If there is no memory for it, the content comes back.
    pub(crate) fn new(alloc: A, content: Content<A>) -> Result<Line<A>, AllocFailed<Content<A>>>
        ensures ok { IfOk result (λ line. line_view line ≡ content) }
    {
        let node = Node {
            content,
            left: Tree::new(),
            right: Tree::new(),
        };
        match Box::new(alloc, node) {
            Ok(node) => Ok(Line { node }),
            Err(failed) => Err(AllocFailed {
                value: failed.value.into_content(),
            }),
        }
    }

    /// The bytes, with the line end if there is one. Takes no memory.
    pub fn bytes(&self) -> &[u8]
        ensures bytes { result.now ≡ (line_view self.now).bytes }
        ensures some_bytes { 0 < length result.now }
    {
        self.node.content.bytes()
    }

    /// What the line is, with the offsets of its parts in the joined text. Takes no memory.
    #[inline(always)]
    pub fn class(&self) -> Class
        ensures { result ≡ (line_view self.now).class }
    {
        self.node.content.class()
    }

    /// The joined text: the line without its line end, with each fold made one space. Takes no
    /// memory.
    pub fn text(&self) -> &[u8]
        ensures { result.now ≡ text_of_line (line_view self.now) }
    {
        self.node.content.text()
    }

    /// The raw bytes of the joined bytes from `start` up to `end`, as a range of bytes of the line.
    ///
    /// Each fold in the range counts with its whole run. Takes time logarithmic in the number of
    /// folds, and no memory.
    pub fn raw_range(&self, start: usize, end: usize) -> Span
        requires order { start ≤ end }
        requires within { end ≤ length (line_cells (line_view self.now).bytes) }
        ensures { result ≡ raw_range (line_cells (line_view self.now).bytes) start end }
    {
        self.node.content.raw_range(start, end)
    }

    /// Whether the line has a stray byte (a NUL, or a CR that is no part of a line end) or a bad fold
    /// (one with a backslash directly before it). A line with either is not read inside, unless a
    /// recipe or a define has it: this project's profile. Takes no memory; the time is linear in the
    /// line's bytes.
    pub fn is_unreadable(&self) -> bool
        ensures { result ≡ is_unreadable (line_cells (line_view self.now).bytes) }
    {
        self.node.content.is_unreadable()
    }

    /// What stands before the line in its tree, below it.
    pub(crate) fn before(&self) -> &Tree<A>
        ensures { result.now ≡ self.now.node.value.left }
    {
        &self.node.left
    }

    /// What stands after the line in its tree, below it.
    pub(crate) fn after(&self) -> &Tree<A>
        ensures { result.now ≡ self.now.node.value.right }
    {
        &self.node.right
    }
}

impl<A: Allocator> Tree<A> {
    /// No lines.
    pub(crate) fn new() -> Tree<A>
        ensures empty { result ≡ ([], 0) }
    {
        Tree { link: Link::Empty }
    }

    // How many lines stand on the longest way down from the top.
    fn height(&self) -> u8
        ensures height { result ≡ self.now.1 }
        ensures few { AreFew self.now.0 self.now.1 }
    {
        match &self.link {
            Link::Empty => 0,
            Link::Full { height, .. } => *height,
        }
    }

    // How many lines there are.
    fn lines(&self) -> u32
        ensures lines { result ≡ length self.now.0 }
        ensures few { AreFew self.now.0 self.now.1 }
    {
        match &self.link {
            Link::Empty => 0,
            Link::Full { lines, .. } => *lines,
        }
    }

    /// How many lines there are.
    pub(crate) fn len(&self) -> usize
        ensures len { result ≡ length self.now.0 }
        ensures few { AreFew self.now.0 self.now.1 }
    {
        self.lines() as usize
    }

    /// Whether the lines are known to be a run of this kind. No lines are.
    pub(crate) fn is_run(&self, run: Run) -> bool
        ensures { result ≡ true → AreRun run self.now.0 }
    {
        match &self.link {
            Link::Empty => true,
            Link::Full { run: known, .. } => match known {
                Some(known) => known.is(run),
                None => false,
            },
        }
    }

    /// The line at the top.
    pub(crate) fn top(&self) -> Option<&Line<A>>
        ensures top { MatchOption result (self.now ≡ ([], 0)) (λ line. IsTop self.now line.now) }
    {
        match &self.link {
            Link::Empty => None,
            Link::Full { top, .. } => Some(top),
        }
    }

    /// The line at an index, from 0.
    pub(crate) fn line(&self, at: usize) -> &Line<A>
        requires in_range { at < length self.now.0 }
        ensures line { Some (line_view result.now) ≡ slice_get self.now.0 at }
    {
        match &self.link {
            Link::Empty => unreachable!(),
            Link::Full { top, .. } => {
                let before = top.node.left.len();
                if at < before {
                    top.node.left.line(at)
                } else if at == before {
                    top
                } else {
                    top.node.right.line(at - before - 1)
                }
            }
        }
    }

    /// Puts a line before the line at an index, or at the end. Takes no memory.
    #[tactic(auto, using(crate::proofs::Indices::indices))]
    pub(crate) fn insert(self, at: usize, line: Line<A>) -> Tree<A>
        requires in_range { at ≤ length self.0 }
        requires fits { size_of self.0 + length (line_view line).bytes ≤ max_text }
        ensures lines { result.0 ≡ take at self.0 ++ line_view line ∷ drop at self.0 }
        ensures size { size_of result.0 ≡ size_of self.0 + length (line_view line).bytes }
        ensures height { (self.1 ≤ result.1) × (result.1 ≤ self.1 + 1) }
    {
        match self.unlink() {
            None => Tree::join(Tree::new(), line, Tree::new()),
            Some((left, top, right)) => {
                let before = left.len();
                if at <= before {
                    Tree::balance(left.insert(at, line), top, right)
                } else {
                    Tree::balance(left, top, right.insert(at - before - 1, line))
                }
            }
        }
    }

    /// Takes out the line at an index.
    #[tactic(auto, using(crate::proofs::Indices::indices))]
    pub(crate) fn remove(self, at: usize) -> (Tree<A>, Line<A>)
        requires in_range { at < length self.0 }
        ensures line { Some (line_view result.1) ≡ slice_get self.0 at }
        ensures lines { result.0.0 ≡ take at self.0 ++ drop (at + 1) self.0 }
        ensures size { size_of self.0 ≡ size_of result.0.0 + length (line_view result.1).bytes }
        ensures height { (result.0.1 ≤ self.1) × (self.1 ≤ result.0.1 + 1) }
    {
        match self.unlink() {
            None => unreachable!(),
            Some((left, top, right)) => {
                let before = left.len();
                if at < before {
                    let (left, line) = left.remove(at);
                    (Tree::balance(left, top, right), line)
                } else if at > before {
                    let (right, line) = right.remove(at - before - 1);
                    (Tree::balance(left, top, right), line)
                } else if right.len() == 0 {
                    (left, top)
                } else {
                    let (right, next) = right.remove(0);
                    (Tree::balance(left, next, right), top)
                }
            }
        }
    }

    /// Puts a line in the place of another, which it hands out. The nodes stay where they are, and
    /// the boxes of the two lines exchange what they hold.
    #[tactic(auto, using(crate::proofs::Indices::indices))]
    pub(crate) fn replace(&mut self, at: usize, mut line: Line<A>) -> Line<A>
        requires in_range { at < length self.old.0 }
        requires fits { size_of self.old.0 + length (line_view line).bytes
            ≤ max_text + size_of_line (slice_get self.old.0 at) }
        ensures line { Some (line_view result) ≡ slice_get self.old.0 at }
        ensures lines { self.new.0
            ≡ take at self.old.0 ++ line_view line ∷ drop (at + 1) self.old.0 }
        ensures size { size_of self.new.0 + size_of_line (slice_get self.old.0 at)
            ≡ size_of self.old.0 + length (line_view line).bytes }
        ensures height { self.new.1 ≡ self.old.1 }
        ensures few { AreFew self.new.0 self.new.1 }
    {
        match &mut self.link {
            Link::Empty => unreachable!(),
            Link::Full { top, run, .. } => {
                *run = Run::with(*run, &line.class());
                let before = top.node.left.len();
                // The contracts of `len` and `bytes` say that no line is empty.
                let _after = top.node.right.len();
                let _top_bytes = top.bytes();
                let _line_bytes = line.bytes();
                if at < before {
                    top.node.left.replace(at, line)
                } else if at > before {
                    top.node.right.replace(at - before - 1, line)
                } else {
                    mem::swap(&mut top.node.content, &mut line.node.content);
                    line
                }
            }
        }
    }

    /// Puts other bytes of the same joined text in the place of the last line's bytes, and hands
    /// these out.
    pub(crate) fn swap_end(self, bytes: LineBytes<A>) -> (Tree<A>, LineBytes<A>)
        requires some_lines { 0 < length self.0 }
        requires some_bytes { 0 < length bytes }
        requires same_text { without_line_end bytes
            ≡ without_line_end (bytes_of_line (last_line self.0)) }
        requires fits { size_of self.0 + length bytes ≤ max_text + size_of_line (last_line self.0) }
        ensures lines { result.0.0 ≡ with_last_bytes bytes self.0 }
        ensures old { result.1 ≡ bytes_of_line (last_line self.0) }
        ensures some_bytes_back { 0 < length result.1 }
    {
        let at = self.len() - 1;
        let (rest, mut line) = self.remove(at);
        let old = line.node.content.swap_bytes(bytes);
        (rest.insert(at, line), old)
    }

    // Takes a tree apart: what stands before the line at the top, this line, and what stands after
    // it.
    #[tactic(auto, using(crate::proofs::Indices::sizes))]
    fn unlink(self) -> Option<(Tree<A>, Line<A>, Tree<A>)>
        ensures { MatchOption result (self ≡ ([], 0)) (λ parts.
            IsUnlinked self parts.0 (line_view parts.1) parts.2) }
    {
        match self.link {
            Link::Empty => None,
            Link::Full { mut top, .. } => {
                let left = mem::replace(&mut top.node.left, Tree::new());
                let right = mem::replace(&mut top.node.right, Tree::new());
                Some((left, top, right))
            }
        }
    }

    // Joins two trees whose heights differ by at most one, with a line between them.
    #[tactic(auto, using(crate::proofs::Indices::sizes))]
    pub(crate) fn join(left: Tree<A>, mut line: Line<A>, right: Tree<A>) -> Tree<A>
        requires balanced { DifferByAtMost 1 left.1 right.1 }
        requires fits { size_of left.0 + length (line_view line).bytes + size_of right.0
            ≤ max_text }
        ensures lines { result.0 ≡ left.0 ++ line_view line ∷ right.0 }
        ensures size { size_of result.0
            ≡ size_of left.0 + length (line_view line).bytes + size_of right.0 }
        ensures height { result.1 ≡ max left.1 right.1 + 1 }
    {
        let height = left.height().max(right.height()) + 1;
        let lines = left.lines() + 1 + right.lines();
        let run = run_between(&left, &line, &right);
        let node = &mut *line.node;
        let has_bytes = !node.content.bytes().is_empty();
        prove!(has_bytes);
        node.left = left;
        node.right = right;
        Tree {
            link: Link::Full {
                height,
                run,
                lines,
                top: line,
            },
        }
    }

    /// Joins two trees with a line between them. The right tree is no higher than the left one. The
    /// call takes time by the difference of the two heights.
    pub(crate) fn append(left: Tree<A>, line: Line<A>, right: Tree<A>) -> Tree<A>
        requires no_higher { right.1 ≤ left.1 }
        requires fits { size_of left.0 + length (line_view line).bytes + size_of right.0
            ≤ max_text }
        ensures lines { result.0 ≡ left.0 ++ line_view line ∷ right.0 }
        ensures size { size_of result.0
            ≡ size_of left.0 + length (line_view line).bytes + size_of right.0 }
        ensures height { IsHeightAfter left.1 right.1 result.1 }
    {
        // Most trees that are read have about the same height.
        if left.height() <= right.height() + 1 {
            return Tree::join(left, line, right);
        }
        if left.height() == right.height() + 2 {
            return Tree::balance(left, line, right);
        }
        let Some((before, top, after)) = left.unlink() else {
            unreachable!()
        };
        Tree::balance(before, top, Tree::append(after, line, right))
    }

    // Joins two trees whose heights differ by at most two, with a line between them.
    fn balance(left: Tree<A>, line: Line<A>, right: Tree<A>) -> Tree<A>
        requires near { DifferByAtMost 2 left.1 right.1 }
        requires fits { size_of left.0 + length (line_view line).bytes + size_of right.0
            ≤ max_text }
        ensures lines { result.0 ≡ left.0 ++ line_view line ∷ right.0 }
        ensures size { size_of result.0
            ≡ size_of left.0 + length (line_view line).bytes + size_of right.0 }
        ensures height { IsHeightAfter left.1 right.1 result.1 }
    {
        if left.height() > right.height() + 1 {
            Tree::lean_left(left, line, right)
        } else if right.height() > left.height() + 1 {
            Tree::lean_right(left, line, right)
        } else {
            Tree::join(left, line, right)
        }
    }

    // Joins two trees with a line between them. The left tree is two higher.
    fn lean_left(left: Tree<A>, line: Line<A>, right: Tree<A>) -> Tree<A>
        requires two_higher { left.1 ≡ right.1 + 2 }
        requires fits { size_of left.0 + length (line_view line).bytes + size_of right.0
            ≤ max_text }
        ensures lines { result.0 ≡ left.0 ++ line_view line ∷ right.0 }
        ensures size { size_of result.0
            ≡ size_of left.0 + length (line_view line).bytes + size_of right.0 }
        ensures height { (left.1 ≤ result.1) × (result.1 ≤ left.1 + 1) }
    {
        let Some((outer, top, inner)) = left.unlink() else {
            unreachable!()
        };
        if outer.height() >= inner.height() {
            return Tree::join(outer, top, Tree::join(inner, line, right));
        }
        let Some((before, middle, after)) = inner.unlink() else {
            unreachable!()
        };
        Tree::join(
            Tree::join(outer, top, before),
            middle,
            Tree::join(after, line, right),
        )
    }

    // Joins two trees with a line between them. The right tree is two higher.
    fn lean_right(left: Tree<A>, line: Line<A>, right: Tree<A>) -> Tree<A>
        requires two_higher { right.1 ≡ left.1 + 2 }
        requires fits { size_of left.0 + length (line_view line).bytes + size_of right.0
            ≤ max_text }
        ensures lines { result.0 ≡ left.0 ++ line_view line ∷ right.0 }
        ensures size { size_of result.0
            ≡ size_of left.0 + length (line_view line).bytes + size_of right.0 }
        ensures height { (right.1 ≤ result.1) × (result.1 ≤ right.1 + 1) }
    {
        let Some((inner, top, outer)) = right.unlink() else {
            unreachable!()
        };
        if outer.height() >= inner.height() {
            return Tree::join(Tree::join(left, line, inner), top, outer);
        }
        let Some((before, middle, after)) = inner.unlink() else {
            unreachable!()
        };
        Tree::join(
            Tree::join(left, line, before),
            middle,
            Tree::join(after, top, outer),
        )
    }
}

// The run that the lines of two trees and the line between them are, if they are one.
fn run_between<A: Allocator>(left: &Tree<A>, line: &Line<A>, right: &Tree<A>) -> Option<Run>
    ensures { IfSome result (λ run. AreRun run (left.now.0 ++ line_view line.now ∷ right.now.0)) }
{
    let run = Run::of(&line.class())?;
    if left.is_run(run) && right.is_run(run) {
        Some(run)
    } else {
        None
    }
}
