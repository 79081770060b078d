//! Whether an opening has to wait still.

ghost use Rattle.std.specs.Prelude.{◌≡◌, false, IfNone, IfSome};
ghost use Rattle.hart_moves.specs.Due.{Due as is_due, due};
ghost use Rattle.hart_moves.specs.Waiting.{is_dying, is_initialising, is_still};
ghost use Rattle.history_state.specs.After.{after};
ghost use Rattle.world_answers.specs.Answers.{is_wait};

use hart_seat::{Due, LinkedHart};
use ld_base::{Loaded, Shown, State};
use link_state::LinkState;

/// What a hart waits for, if its next turn is to wait still. Nothing is read.
pub fn awaited(state: &LinkState, hart: &LinkedHart) -> Option<Shown>
    ensures some { IfSome result (λ shown. due (after state.now.events) hart.now.hart ≡ is_due.wait shown) }
    ensures none { IfNone result (is_wait (due (after state.now.events) hart.now.hart) ≡ false) }
{
    match hart.due() {
        Due::Wait(shown, _) => {
            if is_still(state, &shown) {
                Some(shown)
            } else {
                None
            }
        }
        _ => None,
    }
}

/// Whether what an opening waits for is still so.
pub(crate) fn is_still(state: &LinkState, shown: &Shown) -> bool
    ensures { result ≡ is_still (after state.now.events) shown.now }
{
    match *shown {
        Shown::Initialising(serial) => match state.object(serial) {
            Some(object) => is_initialising(object),
            None => false,
        },
        Shown::Closing(serial) => match state.object(serial) {
            Some(object) => is_dying(object),
            None => false,
        },
        Shown::OpenGrant(_) | Shown::Locked(..) => false,
    }
}

/// Whether an object's constructors run.
fn is_initialising(object: &Loaded) -> bool
    ensures { result ≡ is_initialising object.now }
{
    matches!(object.state, State::Initialising(_))
}

/// Whether its destructors run.
fn is_dying(object: &Loaded) -> bool
    ensures { result ≡ is_dying object.now }
{
    matches!(object.state, State::Dying(_))
}
