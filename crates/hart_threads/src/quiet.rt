//! Turns that ask nothing of the linker.

ghost use Rattle.std.specs.Prelude.{◌≡◌};
ghost use Rattle.hart_moves.specs.Due.{due};
ghost use Rattle.hart_threads.specs.Quiet.{TakesQuiet, end_of};
ghost use Rattle.history_state.specs.State.{State};

use hart_seat::LinkedHart;
use hart_turns::{Turned, take_turn};
use history_event::HartEnd;
use word_memory::{HartSeat, Memory, Naming, TableBus};

/// Takes the turn that is due over shared memory, if it is an instruction, a doubleword that is copied or
/// stored, or the entry of a function. Its calls of the bus are in the trail then.
pub fn take_quiet<J: Naming>(
    memory: &Memory<J>,
    seat: &mut HartSeat<J>,
    hart: &mut LinkedHart,
) -> Option<Turned>
    ensures { (s : State) → TakesQuiet seat.old seat.new (due s hart.old.hart) hart.old.hart hart.new.hart result }
{
    let mut bus = TableBus::new(memory, seat);
    take_turn(hart, &mut bus)
}

/// How a turn ends its hart, if it does.
pub(crate) fn end_of(turned: Option<Turned>) -> Option<HartEnd>
    ensures { result ≡ end_of turned }
{
    match turned {
        Some(Turned::Ends(reason)) => Some(reason),
        Some(Turned::Over | Turned::Again(_)) | None => None,
    }
}
