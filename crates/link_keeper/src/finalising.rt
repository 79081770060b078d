//! Turns in which final destructors have run.

ghost use Rattle.std.specs.Prelude.{◌≡◌, ◌⊎◌, ℕ, ◌<◌, true, [], length, drop, Some, Contains, IsTrue};
ghost use Rattle.hart_linker.specs.Between.{IsBetweenTurns};
ghost use Rattle.hart_linker.specs.Serving.{ServesTurn};
ghost use Rattle.hart_moves.specs.Due.{Due as is_due, due, is_finalising};
ghost use Rattle.hart_moves.specs.Harts.{HartState, Resolving};
ghost use Rattle.hart_moves.specs.Moves.{Did, Moves, settled_resolving};
ghost use Rattle.history_calls.specs.Laws.{hart_of};
ghost use Rattle.history_event.specs.declared.event.Event.{Event};
ghost use Rattle.history_state.specs.After.{after};
ghost use Rattle.history_state.specs.Objects.{has};
ghost use Rattle.history_state.specs.State.{State};
ghost use Rattle.link_keeper.specs.Acting.{Acts, OpenNothing};
ghost use Rattle.link_keeper.specs.Finalising.{HasPlan, IsPlannedOr, IsPlannedTurn, MayFinalise};
ghost use Rattle.link_keeper.specs.Keeping.{KeepsState, OpensNothing};
ghost use Rattle.link_keeper.specs.Settling.{SettlesOrRests};
ghost use Rattle.world_answers.specs.ReturnsPart.FinalTurns.Table.{plan_events};

use crate::acting::{Acted, Reply, end_call};
use crate::attending::attend;
use crate::blocks::keep_answer;
use crate::ends::id_of;
use crate::handing::pass;
use crate::hearing::hear;
use hart_fits::{harts_fit, own_moves_fit};
use hart_linker::{HartBlocks, RunNaming};
use hart_moves::turns_append;
use hart_seat::LinkedHart;
use history_event::HartEnd;
use history_state::{modules_are_tidy, nothing_comes_before_startup};
use ld_base::HartId;
use link_state::LinkState;
use std::alloc::Global;
use std::sync::Wait;
use word_memory::{HartSeat, KeeperSeat, Memory};
use world_answers::{FinalTurn, ends_are_few, finals_go_on, settling_keeps_finals};
use world_memory::MemoryChange;
use world_turns::finals_may_pass;

/// The turn in which the final destructors of an object have run.
#[derive(Drop)]
enum LastTurn {
    /// It has no events.
    Quiet(FinalTurn),
    /// It has some: those that are planned, or the end of its hart where memory is wanted.
    Asks(Option<FinalTurn>),
}

/// Takes the turn of the first hart in which the final destructors of an object have run. It is planned over
/// all events; where it has some itself, it is a call as another turn that asks. Where memory is wanted the
/// hart ends.
pub(crate) fn finalise_hart<R: Wait, J: RunNaming>(
    rt: &R,
    alloc: Global,
    memory: &Memory<J>,
    keeper: &mut KeeperSeat<J>,
    state: &mut LinkState,
    seat: &mut HartSeat<J>,
    hart: &mut LinkedHart,
    blocks: &mut HartBlocks,
)
    requires keeps { KeepsState J.setting J.journal state.old keeper.old }
    requires between { IsBetweenTurns J.setting J.journal seat.old hart.old.hart blocks.old }
    requires last { (s : State) → is_finalising (due s hart.old.hart) ≡ true }
    ensures keeps { KeepsState J.setting J.journal state.new keeper.new }
    ensures turn { ServesTurn J.setting seat.old seat.new hart.old.hart hart.new.hart }
    ensures between { IsBetweenTurns J.setting J.journal seat.new hart.new.hart blocks.new }
    ensures opened { OpensNothing keeper.old.events keeper.new.events }
    ensures settled { SettlesOrRests J.setting seat.old.number keeper.old keeper.new }
    ensures only { (keeper.new.events ≡ keeper.old.events)
        ⊎ ((e : Event) × Contains (drop (length keeper.old.events) keeper.new.events) e × (hart_of e ≡ Some 0)) }
{
    harts_fit();
    own_moves_fit();
    turns_append();
    finals_may_pass();
    finals_go_on();
    settling_keeps_finals();
    modules_are_tidy();
    nothing_comes_before_startup();
    let _ = seat.number();
    let id = id_of(seat);
    hear(memory, keeper, seat);
    match plan_turn(alloc, state, hart) {
        LastTurn::Quiet(plan) => {
            go_by::<J>(state, id, hart, plan);
            blocks.begin(state.modules().generation());
        }
        LastTurn::Asks(plan) => {
            attend(rt, memory, keeper, state, seat, id);
            let index = state.journal().as_slice().len();
            let acted = act_last::<J>(state, id, hart, plan);
            let entry = pass(rt, memory, keeper, seat, state, id, index, &acted);
            keep_answer(blocks, state.modules(), entry);
        }
    }
}

/// What the turn comes to in which final destructors have run.
fn plan_turn(alloc: Global, state: &LinkState, hart: &mut LinkedHart) -> LastTurn
    requires last { (s : State) → is_finalising (due s hart.old.hart) ≡ true }
    requires initialised { (code object : ℕ) → ((s : State) → due s hart.old.hart ≡ is_due.finalise code object)
        → IsTrue (has (after state.now.events).inits object) }
    ensures planned { IsPlannedTurn (after state.now.events) hart.old.hart hart.new.spare result }
    ensures hart { hart.new.hart ≡ hart.old.hart }
{
    let Some(finalised) = hart.finalised_object() else {
        unreachable!();
    };
    match FinalTurn::prepare(alloc, state, hart, finalised) {
        Ok(plan) => by_events(plan),
        Err(_) => LastTurn::Asks(None),
    }
}

/// The turn of a plan.
fn by_events(plan: FinalTurn) -> LastTurn
    ensures { (s : State) (b : HartState) (spare : ℕ) → HasPlan s b spare plan → IsPlannedTurn s b spare result }
{
    if plan.has_events() {
        LastTurn::Asks(Some(plan))
    } else {
        LastTurn::Quiet(plan)
    }
}

/// A turn without an event: the linker isn't called.
fn go_by<J: RunNaming>(state: &mut LinkState, id: HartId, hart: &mut LinkedHart, plan: FinalTurn)
    requires may { MayFinalise J.setting state.old.harts state.old.events id hart.old.hart }
    requires plan { HasPlan (after state.old.events) hart.old.hart hart.old.spare plan }
    requires quiet { (h : ℕ) → plan_events h plan ≡ [] }
    ensures moves { Moves J.setting state.old.events id hart.old.hart (Did.quiet []) hart.new.hart }
    ensures rests { settled_resolving hart.new.hart.resolving ≡ Resolving.idle }
    ensures state { state.new ≡ state.old }
{
    plan.carry_out(state, id, hart);
}

/// A turn with events, which are planned, or where memory is wanted the end of the hart.
fn act_last<J: RunNaming>(
    state: &mut LinkState,
    id: HartId,
    hart: &mut LinkedHart,
    plan: Option<FinalTurn>,
) -> Acted
    requires may { MayFinalise J.setting state.old.harts state.old.events id hart.old.hart }
    requires plan { IsPlannedOr (after state.old.events) hart.old.hart hart.old.spare plan }
    ensures acts { (spare : ℕ) → Acts J.setting state.old.events state.new id hart.old.hart hart.new.hart spare result.change result.reply }
    ensures opens { OpenNothing (drop (length state.old.events) state.new.events) }
    ensures own { (e : Event) × Contains (drop (length state.old.events) state.new.events) e × (hart_of e ≡ Some id) }
    ensures harts { state.new.harts ≡ state.old.harts }
{
    ends_are_few();
    harts_fit();
    let Some(plan) = plan else {
        return end_call(state, id, hart, HartEnd::Memory);
    };
    hart.settle();
    plan.carry_out(state, id, hart);
    Acted {
        reply: Reply::Events,
        change: MemoryChange::Nothing,
    }
}
