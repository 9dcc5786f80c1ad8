//! Runs: lines of one kind that stand one after the other, which a walk may pass together.
//!
//! A walk down from the line of a rule asks of each line whether it is a recipe line. Recipe lines
//! change no context below the first of them, and neither do blank lines and comments. So a tree
//! stores of each of its parts whether its lines are a run, and the walk passes such a part in one
//! step: a rule may have many recipe lines, and many blank lines may follow it.
ghost use Rattle.std.specs.Prelude.{◌≡◌, MatchOption, IfSome, Some, false, true};
ghost use Rattle.mk_tree.specs.Runs.{is_in_run};

use mk_class::Class;

/// What the lines of a run are.
#[derive(Clone, Copy, Debug, PartialEq, Eq)]
pub enum Run {
    /// Recipe lines.
    Recipes,
    /// Blank lines and comments.
    Gaps,
}

impl Run {
    /// The run that a line of this class may stand in, if there is one.
    pub fn of(class: &Class) -> Option<Run>
        ensures { MatchOption result ((run : Run) → is_in_run run class.now ≡ false)
            (λ run. is_in_run run class.now ≡ true) }
    {
        match class {
            Class::Recipe => Some(Run::Recipes),
            Class::Blank | Class::Comment => Some(Run::Gaps),
            _ => None,
        }
    }

    /// Whether a line of this class may stand in the run.
    pub(crate) fn has(self, class: &Class) -> bool
        ensures { result ≡ is_in_run self class.now }
    {
        match self {
            Run::Recipes => matches!(class, Class::Recipe),
            Run::Gaps => matches!(class, Class::Blank | Class::Comment),
        }
    }

    /// Whether two runs have the same kind of lines.
    pub(crate) fn is(self, other: Run) -> bool
        ensures { result ≡ true → self ≡ other }
    {
        matches!(
            (self, other),
            (Run::Recipes, Run::Recipes) | (Run::Gaps, Run::Gaps)
        )
    }

    /// The run that a list of lines is known to be once one of its lines is of this class: the run
    /// that it was, if this class may stand in it.
    pub(crate) fn with(run: Option<Run>, class: &Class) -> Option<Run>
        ensures { IfSome result (λ left. (run ≡ Some left) × (is_in_run left class.now ≡ true)) }
    {
        match run {
            Some(run) if run.has(class) => Some(run),
            _ => None,
        }
    }
}
