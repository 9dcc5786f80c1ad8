//! A script of edits over a makefile: every byte that no edit concerns stays.
//!
//! [`run`] reads a script and a makefile, executes the script's commands, writes the text and a line on
//! each refused command, and hands the session back. Where one script runs over several makefiles,
//! [`read_script`] reads it once, and [`run_steps`] runs its steps over each of them. [`status`] and
//! [`message`] say how a run ended.
//!
//! - `engine`: the run, in its steps.
//! - [`laws`]: what holds for every run.
//! - `outcome`: how a run ends.
//! - `report`: the lines on refused commands.
//! - `step`: one step of a script.
//! - `observer`: who is told of what a run does, while it does it.
#![tactic(auto)]

mod engine;
pub mod laws;
mod observer;
mod outcome;
mod report;
mod step;

pub use engine::{read_script, run, run_steps};
pub use mk_script::{ScriptFault, Step, parse_script};
pub use mk_session::Command;
pub use observer::{Observer, Reported};
pub use outcome::{Outcome, Statuses, message, status};
pub use report::write_refusal;
pub use step::{RefusedCommand, execute_step};
