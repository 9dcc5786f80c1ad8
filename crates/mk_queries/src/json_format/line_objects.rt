//! The objects on lines of a makefile, and on the branches in which they stand.
//!
//! A listing goes from rule to rule and knows no conditionals, so a second walk passes the lines
//! above each object. Objects are asked for from the top down, so it passes each line once.

use crate::json_format::object::Object;
use crate::listing::{Branch, LinesInBranches, Position, with_conditionals};
use mk_tree::Doc;
use std::alloc::{AllocError, Allocator};

/// Begins the objects on lines of a document, which are asked for in their order.
#[derive(Drop)]
pub(crate) struct LineObjects<'a, A: Allocator, B: Allocator> {
    alloc: &'a B,
    file: &'a [u8],
    // The lines that are not passed yet, and how many are.
    lines: LinesInBranches<'a, A, &'a B>,
    passed: usize,
    // How many of the branches there have their object.
    told: usize,
}

impl<'a, A: Allocator, B: Allocator + Copy> LineObjects<'a, A, B> {
    /// Those of a document, which is called by this name in them.
    pub(crate) fn new(alloc: &'a B, file: &'a [u8], doc: &'a Doc<A>) -> LineObjects<'a, A, B> {
        LineObjects {
            alloc,
            file,
            lines: with_conditionals(alloc, doc),
            passed: 0,
            told: 0,
        }
    }

    // Goes down to the line at an index.
    fn go_to(&mut self, index: usize) -> Result<(), AllocError> {
        let count = index.saturating_add(1);
        for _ in self.passed..count {
            self.lines.next_line()?;
            self.told = self.told.min(self.lines.branches().len());
        }
        self.passed = self.passed.max(count);
        Ok(())
    }

    /// Begins the object on a line behind a text, with the members that say where the line stands. Before it
    /// come the objects on the branches that have none yet, of the conditionals that are open there.
    ///
    /// # Errors
    ///
    /// [`AllocError`] if a growth was refused.
    pub(crate) fn begin(
        &mut self,
        text: Vec<u8, B>,
        position: Position,
    ) -> Result<Object<B>, AllocError> {
        self.go_to(position.index)?;
        let text = self.put_branches(text)?;
        self.told = self.lines.branches().len();
        let branch = self.lines.branches().last().map(|branch| branch.line);
        let depth = usize::from(position.conditionals);
        self.begin_at(text, position.number, depth, branch)
    }

    // Puts the objects on the branches that have none yet behind a text.
    fn put_branches(&self, mut text: Vec<u8, B>) -> Result<Vec<u8, B>, AllocError> {
        let branches = self.lines.branches();
        for index in self.told..branches.len() {
            text = self.put_branch(text, &branches[index])?;
        }
        Ok(text)
    }

    // Puts the object on a branch behind a text.
    fn put_branch(&self, text: Vec<u8, B>, branch: &Branch<'_>) -> Result<Vec<u8, B>, AllocError> {
        let mut object = self.begin_at(text, branch.line, branch.depth, branch.outer)?;
        object.string("kind", "branch")?;
        object.number("first", branch.first)?;
        object.text("text", branch.text)?;
        object.end()
    }

    // Begins an object behind a text, with the members that say where a line stands.
    fn begin_at(
        &self,
        text: Vec<u8, B>,
        line: usize,
        depth: usize,
        branch: Option<usize>,
    ) -> Result<Object<B>, AllocError> {
        let mut object = Object::begin(*self.alloc, text)?;
        object.text("file", self.file)?;
        object.number("line", line)?;
        object.number("depth", depth)?;
        if let Some(branch) = branch {
            object.number("branch", branch)?;
        }
        Ok(object)
    }
}
