//! Changes that can be taken back.
ghost use Rattle.std.specs.Prelude.{◌≡◌, Bool, true, IfOk, IfErr, IsOk};

use mk_lines::Fault;

/// A change of a state. Once made, it becomes the change that takes it back.
///
/// A change fits some states. Made in one of them, it leads to a certain state. What it became fits
/// that state and leads back to the first state. So a change that was made and taken back is the
/// change to be made again.
pub trait Change {
    /// What is changed.
    type State;

    // The states that the change fits.
    ghost fits: { Self → Self.State → Type 0 };

    // The state that the change leads to.
    ghost after: { Self → Self.State → Self.State };

    // Whether a change of this type is never refused.
    ghost sure: { Bool };

    /// Makes the change, and gives the change that takes it back.
    ///
    /// # Errors
    ///
    /// [`Fault::NoMemory`] if a growth was refused. The change is handed back, and the state is as
    /// it was. A change of a type that is `sure` is never refused.
    fn apply(self, state: &mut Self::State) -> Result<Self, (Self, Fault)>
        requires { fits self state.old }
        ensures after { IfOk result (λ inverse. state.new ≡ after self state.old) }
        ensures fits_back { IfOk result (λ inverse. fits inverse state.new) }
        ensures leads_back { IfOk result (λ inverse. after inverse state.new ≡ state.old) }
        ensures fault { IfErr result (λ e. e.1 ≡ Fault.NoMemory) }
        ensures same { IfErr result (λ e. (e.0 ≡ self) × (state.new ≡ state.old)) }
        ensures sure { sure ≡ true → IsOk result };
}

/// A change that is never refused.
pub trait SureChange: Change {
    ghost is_sure: { Self.sure ≡ true };
}
