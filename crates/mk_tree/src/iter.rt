//! The lines of a tree in order.
ghost use Rattle.std.specs.Prelude.{◌≡◌, ◌+◌, ◌≤◌, ◌++◌, drop, length};
ghost use Rattle.arrayvec.specs.ArrayVec.{array_vec_len};
ghost use Rattle.mk_lines.specs.Limits.{max_text};
ghost use Rattle.mk_tree.specs.Runs.{Passes};
ghost use Rattle.mk_tree.specs.TreeWalks.{lines_ahead, HaveRoom};

use crate::run::Run;
use crate::tree::{HEIGHT_LIMIT, Line, Tree};
use arrayvec::ArrayVec;
use std::alloc::{Allocator, Global};
use std::marker::Model;

/// The lines that a way down has passed on their left side: each comes before what stands right of
/// it, and a later one comes before the earlier ones.
type Passed<'a, A> = ArrayVec<Option<&'a Line<A>>, HEIGHT_LIMIT>;

/// The lines of a document from some line to the last, in order.
///
/// It borrows the document and takes no memory: it keeps the lines on the way down to the next
/// line. There are at most 34 of these, since a document has at most 16,777,216 lines in a balanced
/// tree.
///
/// A walk over a large document waits for memory most of its time: where the next line is, only the
/// line before it says. So a way down also looks at the right side of each line that it passes, and
/// the processor fetches both sides at once.
#[derive(Drop)]
pub struct Lines<'a, A: Allocator = Global> {
    passed: Passed<'a, A>,
    // What the looks at right sides saw. Nobody reads it, but without it there would be no look.
    seen: bool,
}

impl<'a, A: Allocator> Model for Lines<'a, A> {
    ghost use Rattle.std.specs.Prelude.{List};
    ghost use Rattle.mk_tree.specs.LocatedLines.{LocatedLine};
    ghost use Rattle.mk_tree.specs.TreeWalks.{lines_ahead, HaveRoom};

    ghost Value = { List LocatedLine };

    ghost view = { λ i. lines_ahead i.passed.items };

    ghost invariant = { λ i. HaveRoom 0 i.passed.items };
}

impl<'a, A: Allocator> Lines<'a, A> {
    /// The lines of a tree.
    pub(crate) fn new(tree: &'a Tree<A>) -> Lines<'a, A>
        ensures lines { result ≡ tree.now.0 }
        ensures few { length result ≤ max_text }
    {
        let mut passed = ArrayVec::new();
        let mut seen = false;
        if tree.len() > 0 {
            pass_left(&mut passed, &mut seen, tree);
        }
        Lines { passed, seen }
    }

    /// The lines of a tree from the one at an index on.
    pub(crate) fn from_index(tree: &'a Tree<A>, at: usize) -> Lines<'a, A>
        requires { at ≤ length tree.now.0 }
        ensures { result ≡ drop at tree.now.0 }
    {
        let mut passed = ArrayVec::new();
        if at < tree.len() {
            pass_to(&mut passed, tree, at);
        }
        Lines {
            passed,
            seen: false,
        }
    }
}

impl<'a, A: Allocator> Lines<'a, A> {
    /// Passes lines of a run that come next, at most `most` of them, and answers how many it passed.
    ///
    /// It passes what stands below a line of the tree in one step, and stops where that is more than
    /// it may pass or is not known to be of the run. So a walk that calls it after each line that it
    /// is handed takes time logarithmic in the length of a run. The call takes no memory.
    pub fn pass(&mut self, run: Run, most: usize) -> usize
        ensures passes { Passes run most result self.old self.new }
        ensures left { length self.new + result ≡ length self.old }
    {
        pass_run(&mut self.passed, run, most)
    }
}

// Passes lines that are ahead, while they are of a run and no more than `most`.
fn pass_run<A: Allocator>(passed: &mut Passed<'_, A>, run: Run, most: usize) -> usize
    requires within { HaveRoom 0 passed.old.items }
    ensures within { HaveRoom 0 passed.new.items }
    ensures passes { Passes run most result (lines_ahead passed.old.items)
        (lines_ahead passed.new.items) }
{
    let mut number = 0;
    'next: while let Some(next) = passed.pop() {
        let Some(line) = next else { unreachable!() };
        let after = line.after();
        if after.len() < most - number && run.has(&line.class()) && after.is_run(run) {
            number += after.len() + 1;
        } else {
            passed.push(next);
            return number;
        }
    }
    number
}

// Goes down to the line of a tree at an index, past the lines on the way that come after it.
fn pass_to<'a, A: Allocator>(passed: &mut Passed<'a, A>, whole: &'a Tree<A>, index: usize)
    requires in_range { index ≤ length whole.now.0 }
    requires room { array_vec_len passed.old + whole.now.1 ≤ 34 }
    requires within { HaveRoom 0 passed.old.items }
    ensures ahead { lines_ahead passed.new.items
        ≡ drop index whole.now.0 ++ lines_ahead passed.old.items }
    ensures within { HaveRoom 0 passed.new.items }
{
    let mut tree = whole;
    let mut at = index;
    'down: while let Some(line) = tree.top() {
        let before = line.before().len();
        if at <= before {
            passed.push(Some(line));
            tree = line.before();
        } else {
            at = at - before - 1;
            tree = line.after();
        }
    }
}

// Goes down to the first line of a tree, past the lines on the way, and looks at their right sides.
fn pass_left<'a, A: Allocator>(passed: &mut Passed<'a, A>, seen: &mut bool, tree: &'a Tree<A>)
    requires room { array_vec_len passed.old + tree.now.1 ≤ 34 }
    requires within { HaveRoom 0 passed.old.items }
    ensures ahead { lines_ahead passed.new.items ≡ tree.now.0 ++ lines_ahead passed.old.items }
    ensures within { HaveRoom 0 passed.new.items }
{
    let mut tree = tree;
    'down: while let Some(line) = tree.top() {
        passed.push(Some(line));
        if let Some(right) = line.after().top() {
            *seen ^= right.before().top().is_none(); // without a branch, which would wait for it
        }
        tree = line.before();
    }
}

impl<'a, A: Allocator> Iterator for Lines<'a, A> {
    type Item = &'a Line<A>;

    ghost use Rattle.std.specs.Prelude.{length};
    ghost use Rattle.std.specs.Iterator.{at_most};
    ghost use Rattle.mk_tree.specs.TreeWalks.{GivesLine};

    ghost next_gives = { GivesLine };

    ghost remaining = { λ rest. at_most (length rest) };

    fn next(&mut self) -> Option<&'a Line<A>> {
        match self.passed.pop() {
            Some(Some(line)) => {
                pass_left(&mut self.passed, &mut self.seen, line.after());
                Some(line)
            }
            Some(None) => unreachable!(),
            None => None,
        }
    }
}
