//! How calls return.

ghost use Rattle.std.specs.Prelude.{◌≡◌};
ghost use Rattle.world_answers.specs.ReturnsPart.Steps.{ReturnsAs, return_by, return_of};
ghost use Rattle.hart_seat.specs.HartParts.Views.{back_of, call_in};
ghost use Rattle.hart_moves.specs.Harts.{HartState};
ghost use Rattle.hart_moves.specs.Due.{Due as is_due, Return, due};
ghost use Rattle.hart_moves.specs.Moves.{returning};
ghost use Rattle.history_state.specs.State.{State};
ghost use Rattle.history_calls.specs.Call.{Call as is_call};

use hart_seat::{Call, Due, LinkedHart};

/// How a call returns.
#[derive(Clone, Copy, PartialEq, Eq)]
pub(crate) enum CallReturn {
    /// To where its function was called.
    ToCaller,
    /// Behind its ecall.
    BehindEcall,
    /// To where dlclose was called, which leaves the closing's frame.
    FromClosing,
}

/// How the call returns that is due for a hart.
pub(crate) fn due_return(hart: &LinkedHart) -> CallReturn
    ensures { (s : State) (call : is_call) (to : Return) → due s hart.now.hart ≡ is_due.serve call to → ReturnsAs hart.now.hart call to result }
{
    match hart.due() {
        Due::Serve(asked) => kind_of(&asked),
        Due::Wait(_, asked) => kind_of(&asked),
        _ => CallReturn::ToCaller,
    }
}

/// How a call returns.
fn kind_of(asked: &Call<'_>) -> CallReturn
    ensures by_call { (s : State) → result ≡ return_by (call_in s asked.now) }
    ensures at { (b : HartState) → back_of b asked.now ≡ return_of b result }
{
    match asked {
        Call::Write(_) => CallReturn::BehindEcall,
        Call::Unmap(_) => CallReturn::FromClosing,
        _ => CallReturn::ToCaller,
    }
}

/// A call returns with a value.
pub(crate) fn return_by(hart: &mut LinkedHart, by: CallReturn, value: u64)
    ensures { hart.new.hart ≡ returning (return_of hart.old.hart by) value hart.old.hart }
{
    match by {
        CallReturn::ToCaller => hart.return_with(value),
        CallReturn::BehindEcall => hart.pass_ecall(value),
        CallReturn::FromClosing => hart.return_closed(value),
    }
}
