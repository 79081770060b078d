//! The turn behind an object's final destructors.

ghost use Rattle.std.specs.Prelude.{◌≡◌, false, IfNone, IfSome};
ghost use Rattle.hart_moves.specs.Harts.{Purpose as purpose_is};
ghost use Rattle.hart_moves.specs.TurnEvents.Appends.{is_of_end};
ghost use Rattle.hart_seat.specs.HartParts.Views.{purpose_of};

use crate::LinkedHart;
use crate::hart_parts::{Due, Purpose};
use ld_base::Serial;

/// An object whose final destructors have run.
#[derive(Clone, Copy)]
pub struct FinalisedObject {
    /// The code with which the run has ended.
    pub code: u64,
    pub object: Serial,
}

impl LinkedHart {
    ghost use Rattle.std.specs.Prelude.{◌≡◌, false, IfNone, IfSome};
    ghost use Rattle.hart_moves.specs.Due.{Due as is_due, due, is_finalising};
    ghost use Rattle.history_state.specs.State.{State};

    /// The object whose final destructors have run, if the hart's next turn is the one behind them.
    pub fn finalised_object(&self) -> Option<FinalisedObject>
        ensures finalised { IfSome result (λ finalised. (s : State) → due s self.now.hart ≡ is_due.finalise finalised.code finalised.object) }
        ensures none { IfNone result ((s : State) → is_finalising (due s self.now.hart) ≡ false) }
    {
        match self.due() {
            Due::Complete(purpose, object, _) => finalised_of(purpose, object),
            _ => None,
        }
    }
}

/// An object, if its functions that have run are final destructors.
fn finalised_of(purpose: &Purpose, object: Serial) -> Option<FinalisedObject>
    ensures finalised { IfSome result (λ finalised. (purpose_of purpose.now ≡ purpose_is.of_end finalised.code) × (object ≡ finalised.object)) }
    ensures none { IfNone result (is_of_end (purpose_of purpose.now) ≡ false) }
{
    match purpose {
        Purpose::End(code) => Some(FinalisedObject {
            code: *code,
            object,
        }),
        _ => None,
    }
}
