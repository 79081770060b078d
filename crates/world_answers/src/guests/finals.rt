//! Turns in which final destructors have run.

ghost use Rattle.std.specs.Prelude.{◌≡◌, ◌<◌, List, length, IfNone, IfSome, OnSome};
ghost use Rattle.world_answers.specs.GuestsPart.GuestWorlds.Coming.{LeavesHart};
ghost use Rattle.world_answers.specs.GuestsPart.GuestWorlds.Worlds.{TurnsOn, world_of};
ghost use Rattle.world_answers.specs.GuestsPart.Last.{HasNoFinal, IsLastOfAny, IsSomewhereIn};
ghost use Rattle.world_answers.specs.GuestsPart.Next.{NeverWaits, NextIsNoCall};
ghost use Rattle.rv_hart.specs.declared.doubleword.Doubleword.{Doubleword};
ghost use Rattle.world_answers.specs.ReturnsPart.Settling.{harts_in};

use crate::FinalTurn;
use crate::guests::carrying::carry_out;
use crate::guests::ending::end_hart;
use crate::guests::guest_worlds::{Turn, guests_may_turn};
use crate::guests::law::ends_are_turns;
use hart_seat::LinkedHart;
use history_event::HartEnd;
use ld_base::HartId;
use link_state::LinkState;
use std::alloc::Global;

/// Takes the next turn of a hart, if it is the one in which the final destructors of an object have run. Where
/// there is no memory for it the hart ends. Guest memory stays as it is. If it is another turn, nothing has
/// changed.
pub fn take_final(
    alloc: Global,
    state: &mut LinkState,
    harts: &mut [LinkedHart],
    id: HartId,
) -> Option<Turn>
    requires hart { id < length harts.old }
    requires run { IsSomewhereIn state.old harts.old }
    ensures turn { IfSome result (λ came. (words : List Doubleword)
        → TurnsOn state.old.harts id (world_of state.old words harts.old) (world_of state.new words harts.new)) }
    ensures comes { IfSome result (λ came. (words : List Doubleword)
        → LeavesHart (world_of state.old words harts.old) (world_of state.new words harts.new) id came) }
    ensures no_wait { IfSome result NeverWaits }
    ensures no_call { OnSome result ((words : List Doubleword) → NextIsNoCall (world_of state.old words harts.old) id) }
    ensures other { IfNone result (HasNoFinal state.old.events (harts_in harts.old) id) }
    ensures unchanged { IfNone result ((state.new ≡ state.old) × (harts.new ≡ harts.old)) }
    ensures count { state.new.harts ≡ state.old.harts }
{
    guests_may_turn();
    let index = id.number() as usize;
    let Some(finalised) = harts[index].finalised_object() else {
        return None;
    };
    match FinalTurn::prepare(alloc, state, &mut harts[index], finalised) {
        Ok(plan) => Some(carry_out(plan, state, harts, id)),
        Err(_) => Some(lack_memory(state, harts, id)),
    }
}

/// There is no memory for the turn: its hart ends.
fn lack_memory(state: &mut LinkState, harts: &mut [LinkedHart], id: HartId) -> Turn
    requires hart { id < length harts.old }
    requires run { IsSomewhereIn state.old harts.old }
    requires last { IsLastOfAny (harts_in harts.old) id }
    ensures turn { (words : List Doubleword) → TurnsOn state.old.harts id (world_of state.old words harts.old) (world_of state.new words harts.new) }
    ensures comes { (words : List Doubleword) → LeavesHart (world_of state.old words harts.old) (world_of state.new words harts.new) id result }
    ensures no_wait { NeverWaits result }
    ensures count { state.new.harts ≡ state.old.harts }
{
    guests_may_turn();
    ends_are_turns();
    harts[id.number() as usize].spend();
    end_hart(state, harts, id, HartEnd::Memory)
}
