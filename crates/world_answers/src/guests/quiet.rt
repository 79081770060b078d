//! Turns that ask nothing of the linker.

ghost use Rattle.std.specs.Prelude.{◌≡◌, ◌<◌, length, IfNone, IfSome, OnSome};
ghost use Rattle.world_answers.specs.GuestsPart.GuestWorlds.Coming.{LeavesHart};
ghost use Rattle.world_answers.specs.GuestsPart.GuestWorlds.Worlds.{IsSomewhere, TakesOn, world_of};
ghost use Rattle.world_answers.specs.GuestsPart.Asking.{NeedsLinker};
ghost use Rattle.world_answers.specs.GuestsPart.Next.{NeverWaits, NextIsNoCall};
ghost use Rattle.world_answers.specs.ReturnsPart.Settling.{harts_in};

use crate::guests::alone::take_alone;
use crate::guests::ending::end_hart;
use crate::guests::guest_worlds::{Turn, guests_take_turns};
use crate::guests::law::ends_are_turns;
use hart_seat::LinkedHart;
use hart_turns::Turned;
use ld_base::HartId;
use link_state::LinkState;
use world_memory::PlainMemory;

/// Takes the next turn of a hart, if it asks nothing of the linker: an instruction, a doubleword that is
/// copied or stored, the entry of a function, the exchange on a granted slot, the end of its offer, or the
/// end of the hart. A hart that has ended takes none. Where the turn asks the linker nothing has changed.
#[inline(always)]
pub fn take_quiet(
    state: &mut LinkState,
    memory: &mut PlainMemory,
    harts: &mut [LinkedHart],
    id: HartId,
) -> Option<Turn>
    requires run { IsSomewhere state.old.harts (world_of state.old memory.old harts.old) }
    requires hart { id < length harts.old }
    ensures turn { IfSome result (λ came. TakesOn state.old.harts id (world_of state.old memory.old harts.old) (world_of state.new memory.new harts.new)) }
    ensures comes { IfSome result (LeavesHart (world_of state.old memory.old harts.old) (world_of state.new memory.new harts.new) id) }
    ensures no_wait { IfSome result NeverWaits }
    ensures no_call { OnSome result (NextIsNoCall (world_of state.old memory.old harts.old) id) }
    ensures other { IfNone result (NeedsLinker (world_of state.old memory.old harts.old) id) }
    ensures unchanged { IfNone result ((state.new ≡ state.old) × (memory.new ≡ memory.old) × (harts_in harts.new ≡ harts_in harts.old)) }
    ensures count { state.new.harts ≡ state.old.harts }
{
    guests_take_turns();
    ends_are_turns();
    let index = id.number() as usize;
    if harts[index].end().is_some() {
        return Some(Turn::Idle);
    }
    let Some(turned) = take_alone(&mut harts[index], memory) else {
        return None;
    };
    match turned {
        Turned::Over => Some(Turn::Stepped),
        // Plain memory has no hart try again.
        Turned::Again(_) => Some(Turn::Stepped),
        Turned::Ends(reason) => Some(end_hart(state, harts, id, reason)),
    }
}
