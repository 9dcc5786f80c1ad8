//! The lines of a document, each with the branches of conditionals in which it stands.
ghost use Rattle.std.specs.Prelude.{◌≡◌, IfOk};
ghost use Rattle.mk_queries.specs.Listings.{GivesStanding, whole};

use crate::listing::position::Position;
use crate::listing::walk::NumberedLines;
use mk_tree::part::text_of_line;
use mk_tree::{Conditional, Doc, Line};
use std::alloc::{AllocError, Allocator};
use std::marker::Model;

/// A branch of a conditional.
#[derive(Clone, Copy, Debug)]
pub struct Branch<'a> {
    /// The number of the line that begins it, from 1: the first line of its conditional, or an `else`.
    pub line: usize,
    /// The text of that line, in which folds are spaces.
    pub text: &'a [u8],
    /// The number of the first line of its conditional.
    pub first: usize,
    /// How many conditionals are open round its own.
    pub depth: usize,
    /// The number of the line that begins the branch round its conditional, if there is one.
    pub outer: Option<usize>,
    // How many branches stand above its conditional in the list.
    above: usize,
}

/// The lines of a document in order, each with the branches of conditionals in which it stands. Contracts
/// see the lines that were passed and those that are ahead; what it tells of branches is tested.
#[derive(Drop)]
pub struct LinesInBranches<'a, A: Allocator, B: Allocator> {
    lines: NumberedLines<'a, A>,
    // The line that was given last, which is not counted among those above yet.
    given: Option<(Position, &'a Line<A>)>,
    branches: Vec<Branch<'a>, B>,
}

impl<'a, A: Allocator, B: Allocator> Model for LinesInBranches<'a, A, B> {
    ghost use Rattle.mk_queries.specs.Listings.{Walk};

    ghost Value = { Walk };

    ghost view = { λ w. w.lines };
}

impl<'a, A: Allocator, B: Allocator> LinesInBranches<'a, A, B> {
    // The lines of a document.
    pub(crate) fn new(alloc: B, doc: &'a Doc<A>) -> LinesInBranches<'a, A, B>
        ensures { result ≡ whole doc.now }
    {
        LinesInBranches {
            lines: NumberedLines::new(doc),
            given: None,
            branches: Vec::new(alloc),
        }
    }

    /// The next line with where it stands, if there is one.
    ///
    /// # Errors
    ///
    /// [`AllocError`] if a growth of the list of branches was refused.
    pub fn next_line(&mut self) -> Result<Option<(Position, &'a Line<A>)>, AllocError>
        ensures { IfOk result (λ given. GivesStanding self.old given self.new) }
    {
        if let Some((position, line)) = self.given {
            self.pass(position, line)?;
        }
        self.given = self.lines.next();
        Ok(self.given)
    }

    /// The branches so far of the conditionals round the line that was given last, in the order of their
    /// lines: the last of them is the one in which the line stands, and those above it in its conditional are
    /// listed too. An `else` and an `endif` stand in the branch that they end.
    pub fn branches(&self) -> &[Branch<'a>] {
        self.branches.as_slice()
    }

    // Passes a line: the branches of the conditionals that are open above it become those of the
    // conditionals that are open below it.
    fn pass(&mut self, position: Position, line: &'a Line<A>) -> Result<(), AllocError>
        ensures { self.new ≡ self.old }
    {
        let above = self.branches.len();
        let innermost = self.branches.last().copied();
        match (line.conditional(), innermost) {
            (Some(Conditional::If), _) => self.branches.push(Branch {
                line: position.number,
                text: text_of_line(line),
                first: position.number,
                depth: usize::from(position.conditionals),
                outer: innermost.map(|branch| branch.line),
                above,
            })?,
            (Some(Conditional::Else), Some(branch)) => self.branches.push(Branch {
                line: position.number,
                text: text_of_line(line),
                ..branch
            })?,
            (Some(Conditional::Endif), Some(branch)) => self.branches.truncate(branch.above),
            _ => {}
        }
        Ok(())
    }
}
