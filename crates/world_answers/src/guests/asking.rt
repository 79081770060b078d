//! What a hart asks the linker for.

ghost use Rattle.std.specs.Prelude.{◌≡◌, ℕ, List, true};
ghost use Rattle.hart_moves.specs.Due.{done, due};
ghost use Rattle.hart_moves.specs.Harts.{Frame};
ghost use Rattle.hart_seat.specs.HartParts.Views.{call_in, purpose_of};
ghost use Rattle.history_event.specs.declared.handed.Function.{Function};
ghost use Rattle.history_state.specs.State.{State};
ghost use Rattle.world_answers.specs.Answers.{is_service};
ghost use Rattle.world_answers.specs.GuestsPart.Asking.{IsAsked, may_run_by, may_run_functions};

use hart_seat::{Call, Due, LinkedHart, Purpose};

/// What a hart asks the linker for.
#[derive(Clone, Copy, PartialEq, Eq)]
pub(crate) enum Asked {
    /// A call, or that it waits with one.
    Call,
    /// That an object passes, whose functions have run.
    Passing,
}

/// What a hart asks the linker for in its next turn, if it asks for something.
pub(crate) fn asked_by(hart: &LinkedHart) -> Option<Asked>
    ensures { (s : State) → IsAsked (due s hart.now.hart) result }
{
    match hart.due() {
        Due::Serve(_) | Due::Wait(..) => Some(Asked::Call),
        Due::Complete(purpose, _, _) => passing_for(purpose),
        _ => None,
    }
}

/// An object passes, unless it is one of the final destructors.
fn passing_for(purpose: &Purpose) -> Option<Asked>
    ensures { (object : ℕ) (rest : List Function) (below : List Frame) → IsAsked (done (purpose_of purpose.now) object rest below) result }
{
    match purpose {
        Purpose::End(_) => None,
        _ => Some(Asked::Passing),
    }
}

/// Whether the linker may have the hart run functions by its call, where that is its next turn.
pub(crate) fn may_run_functions(hart: &LinkedHart) -> bool
    ensures { (s : State) → is_service (due s hart.now.hart) ≡ true → result ≡ may_run_functions (due s hart.now.hart) }
{
    match hart.due() {
        Due::Serve(asked) => may_run_by(&asked),
        Due::Wait(_, asked) => may_run_by(&asked),
        _ => false,
    }
}

/// Whether it may by such a call.
fn may_run_by(asked: &Call<'_>) -> bool
    ensures { (s : State) → result ≡ may_run_by (call_in s asked.now) }
{
    matches!(
        asked,
        Call::Dlopen { .. } | Call::Dlmopen { .. } | Call::Dlclose(_)
    )
}
