//! One step of a script, executed by a session.
//!
//! What `try` and `or` mean is the run's and not the session's, so a program that drives a session
//! by itself decides for itself. `NoSuch` leads a chain on to its next edit, since there is nothing
//! to edit; `Absent` and `Already` end it, since there is nothing to do. Any other refusal is
//! reported and ends the chain, so that no alternative is made in place of an edit that cannot be
//! made.
ghost use Rattle.std.specs.Prelude.{◌≡◌, ◌≤◌, ◌+◌, OnErr, OnOk, IfErr, Ok, map};
ghost use Rattle.mk_edit_language.specs.Costs.{cost};
ghost use Rattle.mk_edit_language.specs.EditViews.{edit_of};
ghost use Rattle.mk_history.specs.Machine.{Apply};
ghost use Rattle.mk_session.specs.Sessions.{IsEditRefusal, answer};
ghost use Rattle.mk_script.specs.Scripts.{Alone, Tried, numbered, numbered_edit, step_of};
ghost use Rattle.mk_run.specs.ExecutedSteps.{ChainTries, chain_end, is_met, is_missing};
ghost use Rattle.mk_run.specs.RunSteps.{ComesTo, IsExecuted, chain_answer, passes_over};

use crate::observer::Observer;
use mk_script::{NumberedCommand, NumberedEdit, Step};
use mk_session::{Command, Edit, Refusal, Session};
use std::alloc::Allocator;

/// A refusal that a step comes to, with the number of the line in the script.
#[derive(Clone, Copy, Debug)]
pub struct RefusedCommand {
    /// The number of the line, from 1.
    pub line: u64,
    /// Why the command of the line was refused.
    pub refusal: Refusal,
}

/// Executes a step.
///
/// # Errors
///
/// The refusal that is to be told, with the number of its line: that of a command alone; behind
/// `try` one that is not idle; of a chain one that ends it, unless there is nothing to do.
/// [`Refusal::NoMemory`] if a growth was refused.
pub fn execute_step<A: Allocator + Copy, T: Observer<A>>(
    session: &mut Session<A>,
    step: &Step<A>,
    observer: &mut T,
) -> Result<(), RefusedCommand>
    ensures executed { IsExecuted (step_of step.now) result session.old.shown session.new.shown }
    ensures told { T.told observer.new ≡ T.told observer.old }
{
    match step {
        Step::Alone(command) => execute_alone(session, command, observer),
        Step::Try(tried) => execute_try(session, tried, observer),
        Step::Chain(chain) => execute_chain(session, &chain.first, &chain.others, observer),
    }
}

// Whether a refusal says that there is nothing on which the edit is to be made.
fn is_missing(refusal: Refusal) -> bool
    ensures { result ≡ is_missing refusal }
{
    matches!(refusal, Refusal::NoSuch)
}

// Whether a refusal says that there is nothing to do.
fn is_met(refusal: Refusal) -> bool
    ensures { result ≡ is_met refusal }
{
    matches!(refusal, Refusal::Absent | Refusal::Already)
}

// Makes an edit as the session does, and tells the observer if it was made.
fn apply<A: Allocator + Copy, T: Observer<A>>(
    session: &mut Session<A>,
    tried: &NumberedEdit<A>,
    observer: &mut T,
) -> Result<(), Refusal>
    ensures done { OnOk result
        (answer (Apply (edit_of tried.now.edit)) session.old.shown ≡ Ok session.new.shown) }
    ensures refused { IfErr result (λ refusal.
        IsEditRefusal (edit_of tried.now.edit) session.old.shown refusal) }
    ensures same { OnErr result (session.new.shown ≡ session.old.shown) }
    ensures few_read { session.new.rereads
        ≤ session.old.rereads + cost session.old.shown.text (edit_of tried.now.edit) }
    ensures told { T.told observer.new ≡ T.told observer.old }
{
    let answer = session.apply(&tried.edit);
    if answer.is_ok() {
        observer.accepted(tried.line, &tried.edit, session);
    }
    answer
}

/// The edit of the line of this number in a step, if the line has one.
pub(crate) fn edit_at<A: Allocator>(step: &Step<A>, line: u64) -> Option<&Edit<A>> {
    match step {
        Step::Alone(numbered) => match &numbered.command {
            Command::Apply(edit) => Some(edit),
            _ => None,
        },
        Step::Try(tried) => Some(&tried.edit),
        Step::Chain(chain) => {
            for other in &chain.others {
                if other.line == line {
                    return Some(&other.edit);
                }
            }
            Some(&chain.first.edit)
        }
    }
}

// Executes a command alone: each refusal is told.
fn execute_alone<A: Allocator + Copy, T: Observer<A>>(
    session: &mut Session<A>,
    command: &NumberedCommand<A>,
    observer: &mut T,
) -> Result<(), RefusedCommand>
    ensures executed { IsExecuted (Alone (numbered command.now)) result session.old.shown session.new.shown }
    ensures told { T.told observer.new ≡ T.told observer.old }
{
    match session.execute(&command.command) {
        Ok(()) => {
            if let Command::Apply(edit) = &command.command {
                observer.accepted(command.line, edit, session);
            }
            Ok(())
        }
        Err(refusal) => Err(RefusedCommand {
            line: command.line,
            refusal,
        }),
    }
}

// Executes an edit behind `try`: an idle refusal is none.
fn execute_try<A: Allocator + Copy, T: Observer<A>>(
    session: &mut Session<A>,
    tried: &NumberedEdit<A>,
    observer: &mut T,
) -> Result<(), RefusedCommand>
    ensures executed { IsExecuted (Tried (numbered_edit tried.now)) result session.old.shown
        session.new.shown }
    ensures told { T.told observer.new ≡ T.told observer.old }
{
    match apply(session, tried, observer) {
        Ok(()) => Ok(()),
        Err(refusal) if is_missing(refusal) || is_met(refusal) => {
            if is_missing(refusal) {
                observer.passed_over(tried.line, &tried.edit, session);
            }
            Ok(())
        }
        Err(refusal) => Err(RefusedCommand {
            line: tried.line,
            refusal,
        }),
    }
}

// Executes a chain: its edits are tried in order, until one is not passed over.
fn execute_chain<A: Allocator + Copy, T: Observer<A>>(
    session: &mut Session<A>,
    first: &NumberedEdit<A>,
    others: &[NumberedEdit<A>],
    observer: &mut T,
) -> Result<(), RefusedCommand>
    ensures executed { ComesTo
        (chain_end (numbered_edit first.now) (map numbered_edit others.now) session.old.shown)
        (λ command. ChainTries (numbered_edit first.now) (map numbered_edit others.now)
        session.old.shown command) result session.old.shown session.new.shown }
    ensures told { T.told observer.new ≡ T.told observer.old }
{
    let mut tried = first;
    for other in others {
        let answer = apply(session, tried, observer);
        if !passes_over(answer) {
            return chain_answer(tried.line, answer);
        }
        tried = other;
    }
    chain_answer(tried.line, apply(session, tried, observer))
}

// Whether an answer passes an edit of a chain over: there is nothing on which it is to be made.
fn passes_over(answer: Result<(), Refusal>) -> bool
    ensures { result ≡ passes_over answer }
{
    match answer {
        Ok(()) => false,
        Err(refusal) => is_missing(refusal),
    }
}

// What an answer that ends a chain comes to.
fn chain_answer(line: u64, answer: Result<(), Refusal>) -> Result<(), RefusedCommand>
    ensures { result ≡ chain_answer line answer }
{
    match answer {
        Err(refusal) if !is_met(refusal) => Err(RefusedCommand { line, refusal }),
        _ => Ok(()),
    }
}
