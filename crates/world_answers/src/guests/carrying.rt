//! A planned turn is carried out.

ghost use Rattle.std.specs.Prelude.{◌≡◌, ℕ, ◌<◌, List, length};
ghost use Rattle.world_answers.specs.ReturnsPart.FinalTurns.Planned.{IsPlanned};
ghost use Rattle.world_answers.specs.ReturnsPart.FinalTurns.Table.{plan_events};
ghost use Rattle.world_answers.specs.GuestsPart.GuestWorlds.Coming.{LeavesHart};
ghost use Rattle.world_answers.specs.GuestsPart.GuestWorlds.Worlds.{TurnsOn, world_of};
ghost use Rattle.hart_moves.specs.Moves.{did_by};
ghost use Rattle.world_answers.specs.GuestsPart.Last.{HasRoom, IsLast, IsSomewhereIn, SettlesFirst, turn_by};
ghost use Rattle.world_answers.specs.GuestsPart.Next.{NeverWaits};
ghost use Rattle.history_state.specs.After.{after};
ghost use Rattle.rv_hart.specs.declared.doubleword.Doubleword.{Doubleword};
ghost use Rattle.world_answers.specs.ReturnsPart.Settling.{harts_in};
ghost use Rattle.world_memory.specs.TurnAnswers.Following.{MayFollowAll};
ghost use Rattle.world_turns.specs.World.{settling};

use crate::guests::guest_worlds::{Turn, guests_may_turn};
use crate::{FinalTurn, settle_all, settling_keeps_finals};
use hart_seat::LinkedHart;
use ld_base::HartId;
use link_state::LinkState;
use world_memory::{freed_harts_move, others_leave_memory};

/// Carries out the turn of a hart that is planned so.
pub(crate) fn carry_out(
    plan: FinalTurn,
    state: &mut LinkState,
    harts: &mut [LinkedHart],
    id: HartId,
) -> Turn
    requires hart { id < length harts.old }
    requires run { IsSomewhereIn state.old harts.old }
    requires last { IsLast (harts_in harts.old) id plan.code plan.object }
    requires planned { IsPlanned (after state.old.events) plan }
    requires room { HasRoom harts.old id }
    ensures turn { (words : List Doubleword) → TurnsOn state.old.harts id (world_of state.old words harts.old) (world_of state.new words harts.new) }
    ensures comes { (words : List Doubleword) → LeavesHart (world_of state.old words harts.old) (world_of state.new words harts.new) id result }
    ensures no_wait { NeverWaits result }
    ensures count { state.new.harts ≡ state.old.harts }
{
    guests_may_turn();
    settling_keeps_finals();
    freed_harts_move();
    others_leave_memory();
    let index = id.number() as usize;
    settle_first(&plan, state, harts);
    plan.carry_out(state, id, &mut harts[index]);
    turn_of(&harts[index])
}

/// Where the planned turn has events, each grant is settled first whose hart is done with it.
fn settle_first(plan: &FinalTurn, state: &mut LinkState, harts: &mut [LinkedHart])
    requires { MayFollowAll state.old.harts state.old.events (settling (harts_in harts.old)) }
    ensures { (h : ℕ) → SettlesFirst (did_by (plan_events h plan.now)) state.old state.new harts.old harts.new }
{
    if plan.has_events() {
        settle_all(state, harts);
    }
}

/// What came of a turn, by how it left its hart.
fn turn_of(hart: &LinkedHart) -> Turn
    ensures { result ≡ turn_by hart.now.hart.«end» }
{
    match hart.end() {
        Some(reason) => Turn::Ended(reason),
        None => Turn::Stepped,
    }
}
