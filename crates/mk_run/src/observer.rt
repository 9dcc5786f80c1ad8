//! Who is told of what a run does, while it does it.
ghost use Rattle.std.specs.Prelude.{◌≡◌, [], ◌∷◌, List, Option, None, Some};
ghost use Rattle.mk_run.specs.Events.{Event, IsTold};

use mk_session::{Edit, Refusal, Session};
use std::alloc::Allocator;

/// A refusal that a run has reported.
#[derive(Clone, Copy)]
pub struct Reported<'a, A: Allocator> {
    /// The number of the line in the script, from 1.
    pub line: u64,
    /// The edit of this line; `None` for `undo`, `redo`, `begin`, `end` and `cancel`.
    pub edit: Option<&'a Edit<A>>,
    /// Why it was refused.
    pub refusal: Refusal,
}

/// Somebody who is told of each refusal that a run reports, and of each edit that it makes.
///
/// An observer has no part in the run: whatever it does, the text, the report and the outcome are what
/// the contract of [`run`](crate::run) says. What it cannot do itself, such as a write, it keeps to
/// itself. The unit type is an observer that does nothing.
pub trait Observer<A: Allocator> {
    // The refusals that it was told of, if the observer says so. The default says nothing.
    ghost told: { Self → Option (List Event) } = { λ _. None };

    /// Is told of a refusal whose line has just gone into the report. The session stands as it did
    /// before and after the refused command, which changed nothing. A refusal that `try` or a chain
    /// makes none is not told.
    fn refused(&mut self, reported: &Reported<'_, A>, session: &Session<A>)
        ensures told { IsTold (told self.old) (told self.new)
            (record { line = reported.now.line; refusal = reported.now.refusal; shown = session.now.shown }
            ∷ []) };

    /// Is told of an edit that was made. The session stands as the edit left it. The number is that
    /// of the edit's line in the script, from 1.
    fn accepted(&mut self, line: u64, edit: &Edit<A>, session: &Session<A>)
        ensures told { told self.new ≡ told self.old };

    /// Is told of an edit behind `try` that is passed over, since there is no line on which it is to be
    /// made. The number is that of the edit's line in the script, from 1. The default does nothing.
    fn passed_over(&mut self, _line: u64, _edit: &Edit<A>, _session: &Session<A>)
        ensures told { told self.new ≡ told self.old }
    {}
}

impl<A: Allocator> Observer<A> for () {
    fn refused(&mut self, _reported: &Reported<'_, A>, _session: &Session<A>) {}

    fn accepted(&mut self, _line: u64, _edit: &Edit<A>, _session: &Session<A>) {}
}

impl<A: Allocator, T: Observer<A>> Observer<A> for Option<T> {
    ghost told = { λ observer. elim observer [ Some one ↦ T.told one | None ↦ None ] };

    fn refused(&mut self, reported: &Reported<'_, A>, session: &Session<A>) {
        if let Some(observer) = self {
            observer.refused(reported, session);
        }
    }

    fn accepted(&mut self, line: u64, edit: &Edit<A>, session: &Session<A>) {
        if let Some(observer) = self {
            observer.accepted(line, edit, session);
        }
    }

    fn passed_over(&mut self, line: u64, edit: &Edit<A>, session: &Session<A>) {
        if let Some(observer) = self {
            observer.passed_over(line, edit, session);
        }
    }
}
