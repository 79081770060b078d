//! What a hart's next turn is.

ghost use Rattle.std.specs.Prelude.{◌≡◌, true};
ghost use Rattle.hart_moves.specs.Due.{due};
ghost use Rattle.hart_threads.specs.Next.{IsNext};
ghost use Rattle.hart_threads.specs.Run.{HoldsNoSlot};
ghost use Rattle.history_state.specs.State.{State};

use hart_seat::{Call, Due, LinkedHart, Purpose};
use ld_base::Shown;

/// What a hart's next turn is.
#[derive(Clone, Copy, PartialEq, Eq)]
pub enum Next {
    /// The exchange of a slot that was granted, or the end of its offer.
    Bind,
    /// An instruction, a doubleword that is copied or stored, or the entry of a function.
    Quiet,
    /// A request of thread-local storage: the module's number and the offset.
    Locate(u64, u64),
    /// What asks the linker otherwise.
    Serve,
    /// The final destructors of an object have run.
    Finalise,
    /// The hart's turns are used up.
    FuelOut,
    /// The hart has ended.
    Nothing,
}

/// What the hart's next turn is, whatever the linker's state.
pub fn next_turn(hart: &LinkedHart) -> Next
    ensures { (s : State) → IsNext hart.now.hart (due s hart.now.hart) result }
{
    match hart.due() {
        Due::Nothing => Next::Nothing,
        Due::Exchange(_) | Due::Finish(..) => Next::Bind,
        Due::FuelOut => Next::FuelOut,
        Due::Serve(Call::Locate { number, offset }) => Next::Locate(number, offset),
        Due::Serve(_) => Next::Serve,
        // An object that is started or closed is waited for, and nothing else.
        Due::Wait(Shown::Initialising(_), _) => Next::Serve,
        Due::Wait(Shown::Closing(_), _) => Next::Serve,
        Due::Wait(_, Call::Locate { number, offset }) => Next::Locate(number, offset),
        Due::Wait(_, _) => Next::Serve,
        Due::Complete(Purpose::End(_), ..) => Next::Finalise,
        Due::Complete(..) => Next::Serve,
        Due::Instruction | Due::Copy(..) | Due::Store { .. } | Due::Enter(_) => Next::Quiet,
    }
}

/// Whether the hart holds no slot that was granted.
pub(crate) fn holds_no_slot(hart: &LinkedHart) -> bool
    ensures { result ≡ true → HoldsNoSlot hart.now.hart }
{
    match next_turn(hart) {
        Next::Bind => false,
        _ => true,
    }
}
