//! All that can be undone, undone.
//!
//! A session does not tell how many edits the depth has dropped, so the text is compared with the
//! one that was opened.
ghost use Rattle.std.specs.Prelude.{◌≡◌, ◌≢◌, IfErr, None, OnErr, OnOk, Ok, is_some, true};
ghost use Rattle.mk_repl.specs.Reverted.{undone};

use mk_session::{Refusal, Session};
use mk_tree::text_of;
use std::alloc::Allocator;

// Undoes all that can be undone.
fn undo_all<A: Allocator + Copy>(session: &mut Session<A>) -> Result<(), Refusal>
    ensures undone { OnOk result (session.new.shown ≡ undone session.old.shown) }
    ensures shut { OnOk result (session.old.shown.begun ≡ None) }
    ensures refused { IfErr result (λ refusal. (refusal ≡ Refusal.GroupOpen)
        × (is_some session.old.shown.begun ≡ true)) }
    ensures same { OnErr result (session.new.shown ≡ session.old.shown) }
{
    if session.has_open_group() {
        return Err(Refusal::GroupOpen);
    }
    while session.can_undo() {
        let _ = session.undo();
    }
    Ok(())
}

/// What came of [`revert`].
#[derive(Clone, Copy, Debug, PartialEq, Eq)]
pub enum Reverted {
    /// The text is the one that was opened.
    Opened,
    /// It is another: more was made than the depth keeps.
    BeyondDepth,
    /// A growth was refused, and it is not known whether the text is the one that was opened.
    Unknown,
}

/// Undoes all that can be undone, and says whether that gives back the text that was opened.
///
/// # Errors
///
/// [`Refusal::GroupOpen`] if a group is open. Nothing has changed then.
pub fn revert<A: Allocator + Copy>(
    alloc: A,
    session: &mut Session<A>,
    opened: &[u8],
) -> Result<Reverted, Refusal>
    ensures undone { OnOk result (session.new.shown ≡ undone session.old.shown) }
    ensures shut { OnOk result (session.old.shown.begun ≡ None) }
    ensures opened { result ≡ Ok Reverted.Opened → session.new.shown.text ≡ opened.now }
    ensures other { result ≡ Ok Reverted.BeyondDepth → session.new.shown.text ≢ opened.now }
    ensures refused { IfErr result (λ refusal. (refusal ≡ Refusal.GroupOpen)
        × (is_some session.old.shown.begun ≡ true)) }
    ensures same { OnErr result (session.new.shown ≡ session.old.shown) }
{
    undo_all(session)?;
    let Ok(text) = text_of(alloc, session.doc()) else {
        return Ok(Reverted::Unknown);
    };
    if text.as_slice() == opened {
        Ok(Reverted::Opened)
    } else {
        Ok(Reverted::BeyondDepth)
    }
}
