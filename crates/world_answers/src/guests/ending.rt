//! The end of a hart.

ghost use Rattle.std.specs.Prelude.{◌≡◌, ◌<◌, ◌++◌, [], ◌∷◌, length};
ghost use Rattle.world_answers.specs.GuestsPart.GuestWorlds.Worlds.{MayEndNow};
ghost use Rattle.history_event.specs.declared.event.Event.TheVariants.{Ended};
ghost use Rattle.world_answers.specs.GuestsPart.Ending.{EndsAmong, Stops};
ghost use Rattle.world_answers.specs.ReturnsPart.Settling.{harts_in};
ghost use Rattle.world_memory.specs.TurnAnswers.Following.{MayFollowAll};
ghost use Rattle.world_turns.specs.World.{settling};

use crate::guests::guest_worlds::Turn;
use crate::settle_all;
use hart_seat::LinkedHart;
use history_event::HartEnd;
use ld_base::HartId;
use link_state::LinkState;

/// A hart ends: each grant whose hart is done with it is settled first, and then the end is noted.
pub fn end_hart(
    state: &mut LinkState,
    harts: &mut [LinkedHart],
    id: HartId,
    reason: HartEnd,
) -> Turn
    requires hart { id < length harts.old }
    requires settling { MayFollowAll state.old.harts state.old.events (settling (harts_in harts.old)) }
    requires ends { MayEndNow state.old.harts (state.old.events ++ settling (harts_in harts.old)) id }
    ensures result { result ≡ Turn.Ended reason }
    ensures state { state.new ≡ record state.old { events = (state.old.events ++ settling (harts_in harts.old)) ++ Ended id reason ∷ [] } }
    ensures harts { EndsAmong (harts_in harts.old) (harts_in harts.new) id reason }
{
    settle_all(state, harts);
    stop(harts, id, &reason);
    let came = over(&reason);
    state.ended(id, reason);
    came
}

/// The hart runs no further.
fn stop(harts: &mut [LinkedHart], id: HartId, reason: &HartEnd)
    requires { id < length harts.old }
    ensures { Stops (harts_in harts.old) (harts_in harts.new) id reason.now }
{
    harts[id.number() as usize].stop(*reason);
}

/// So it has ended.
fn over(reason: &HartEnd) -> Turn
    ensures { result ≡ Turn.Ended reason.now }
{
    Turn::Ended(*reason)
}
