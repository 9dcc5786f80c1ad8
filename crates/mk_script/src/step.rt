//! The steps of a script.
ghost use Rattle.std.specs.Prelude.{◌≡◌, ◌<◌, map, false, vec_len, MatchOption};

use mk_edit_language::{Command, Edit};
use std::alloc::{Allocator, Global};

/// A command with the number of its line in the script, from 1.
#[derive(Drop)]
pub struct NumberedCommand<A: Allocator = Global> {
    /// The number of the line, from 1.
    pub line: u64,
    /// The command of the line.
    pub command: Command<A>,
}

/// An edit with the number of its line in the script, from 1.
#[derive(Drop)]
pub struct NumberedEdit<A: Allocator = Global> {
    /// The number of the line, from 1.
    pub line: u64,
    /// The edit of the line.
    pub edit: Edit<A>,
}

/// An edit and its alternatives: each is for the case that the edits before it have nothing to be
/// made on.
#[derive(Drop)]
pub struct Chain<A: Allocator = Global> {
    /// The edit that is tried first.
    pub first: NumberedEdit<A>,
    /// The alternatives, one or more, in the order in which they are tried.
    pub others: Vec<NumberedEdit<A>, A>,
    ghost some: { 0 < vec_len others },
}

/// A step of a script: the commands that a run takes together, and what it makes of a refusal.
#[derive(Drop)]
pub enum Step<A: Allocator = Global> {
    /// A command alone: each refusal of it is one.
    Alone(NumberedCommand<A>),
    /// An edit behind `try`: if there is nothing that it is to be made on, or nothing that it is to
    /// do, this is no refusal.
    Try(NumberedEdit<A>),
    /// An edit, and below it one or more edits behind `or`.
    Chain(Chain<A>),
}

impl<A: Allocator + Copy> Step<A> {
    ghost use Rattle.mk_script.specs.Scripts.{chain_of, numbered_edit, step_of};
    ghost use Rattle.mk_script.specs.ReaderAnswers.{takes_alternative};

    /// The edit of the step that is tried first, and the alternatives so far. `None` if no `or` may
    /// stand below the step: it is no edit's, or there is a `try`.
    pub(crate) fn into_edits(self, alloc: A) -> Option<(NumberedEdit<A>, Vec<NumberedEdit<A>, A>)>
        ensures { MatchOption result (takes_alternative (step_of self) ≡ false)
            (λ edits. step_of self
            ≡ chain_of (numbered_edit edits.0) (map numbered_edit edits.1.items)) }
    {
        match self {
            Step::Alone(NumberedCommand { line, command }) => match command {
                Command::Apply(edit) => Some((NumberedEdit { line, edit }, Vec::new(alloc))),
                _ => None,
            },
            Step::Try(_tried) => None,
            Step::Chain(Chain { first, others }) => Some((first, others)),
        }
    }
}
