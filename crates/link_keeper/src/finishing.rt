//! The end of a run.

ghost use Rattle.std.specs.Prelude.{◌≡◌, ℕ, ◌<◌, ◌≤◌, false, length, map, None, Some, All};
ghost use Rattle.std.specs.List.{slice_get};
ghost use Rattle.word_rule.specs.declared.view.HartView.{HartView};
ghost use Rattle.word_rule.specs.KeeperSteps.{AreDecided, AreJoinedOnce, HasEnded, HasTakenAll};
ghost use Rattle.word_rule.specs.Views.{row_of};
ghost use Rattle.word_steps.specs.Knowing.{with_joined};
ghost use Rattle.hart_linker.specs.Between.{HasHeard};
ghost use Rattle.kept_words.specs.Over.{IsOver};
ghost use Rattle.link_keeper.specs.Finishing.{RunIsOver, knows};
ghost use Rattle.link_keeper.specs.Joining.{HasEndedThere, HaveTakenAll, IsFront, SettlesEnded, joins};
ghost use Rattle.link_keeper.specs.Keeping.{KeepsState, KeepsView};
ghost use Rattle.link_keeper.specs.Rounds.{AreAllRounds, AreRounds};
ghost use Rattle.link_keeper.specs.Settling.{SettlesOne};

use crate::hearing::hear;
use crate::settling::settle_one;
use hart_linker::RunNaming;
use history_journal::accepted_object;
use history_memory::slots_stand;
use kept_words::{records_stay, run_is_over};
use ld_base::HartId;
use link_state::LinkState;
use slot_bind::calling;
use word_memory::{HartSeat, KeeperSeat, Memory, Naming, join_hart};

/// Ends a run whose harts have all ended, once its keeper is closed: the harts' seats are joined, which are
/// all harts' in the order of their numbers, and each grant is settled whose fate isn't known yet.
pub fn finish<J: RunNaming>(
    memory: &Memory<J>,
    keeper: &mut KeeperSeat<J>,
    state: &mut LinkState,
    seats: Vec<HartSeat<J>>,
)
    requires keeps { KeepsState J.setting J.journal state.old keeper.old }
    requires some { 0 < J.setting.machine.harts }
    requires all { length seats.items ≡ J.setting.machine.harts }
    requires numbers { (i : ℕ) (seat : HartView) → slice_get seats.items i ≡ Some seat → seat.number ≡ i }
    requires heard { All (HasHeard J.setting J.journal) seats.items }
    requires calling { All (λ seat. seat.lane.calling ≡ false) seats.items }
    requires rounds { AreRounds J.setting J.journal keeper.old.events keeper.old.opens }
    ensures over { RunIsOver J.setting J.journal keeper.old.events keeper.new.events seats.items }
    ensures keeps { KeepsView J.setting J.journal keeper.new }
    ensures known { IsOver keeper.new }
    ensures state { state.new.events ≡ keeper.new.events }
    ensures joined { keeper.new.joined ≡ map (knows keeper.old.events) seats.items }
    ensures rounds { AreAllRounds J.setting J.journal keeper.new.events keeper.new.opens }
{
    records_stay();
    run_is_over();
    accepted_object();
    slots_stand();
    let harts = seats.len() as u32;
    join_all(memory, keeper, seats);
    settle_ended(memory, keeper, state);
    look_over(memory, keeper, harts);
}

/// Joins harts' seats, each of which is told of all events before.
fn join_all<J: RunNaming>(memory: &Memory<J>, keeper: &mut KeeperSeat<J>, seats: Vec<HartSeat<J>>)
    requires keeps { KeepsView J.setting J.journal keeper.old }
    requires heard { All (HasHeard J.setting J.journal) seats.items }
    requires calling { All (λ seat. seat.lane.calling ≡ false) seats.items }
    ensures joined { keeper.new ≡ joins seats.items keeper.old }
    ensures fronts { All (IsFront keeper.old.events) seats.items }
{
    records_stay();
    for seat in seats {
        join(memory, keeper, seat);
    }
}

/// Joins a hart's seat, which is told of all events before.
fn join<J: RunNaming>(memory: &Memory<J>, keeper: &mut KeeperSeat<J>, mut seat: HartSeat<J>)
    requires keeps { KeepsView J.setting J.journal keeper.old }
    requires heard { HasHeard J.setting J.journal seat }
    requires calling { seat.lane.calling ≡ false }
    ensures joined { keeper.new ≡ with_joined (knows keeper.old.events seat) keeper.old }
    ensures front { IsFront keeper.old.events seat }
{
    hear(memory, keeper, &mut seat);
    join_hart(memory, keeper, seat);
}

/// Settles each grant whose fate isn't known yet, once its hart has ended.
fn settle_ended<J: RunNaming>(memory: &Memory<J>, keeper: &mut KeeperSeat<J>, state: &mut LinkState)
    requires keeps { KeepsState J.setting J.journal state.old keeper.old }
    requires ended { (m : ℕ) → m < 16 → HasEndedThere keeper.old m }
    ensures keeps { KeepsState J.setting J.journal state.new keeper.new }
    ensures settled { SettlesEnded 16 keeper.old keeper.new }
{
    for number in 0..16u32 {
        settle_last(memory, keeper, state, HartId::new(number));
    }
}

/// Settles the last grant of a hart, if its fate isn't known yet. The hart has ended: so it was won or lost.
fn settle_last<J: RunNaming>(
    memory: &Memory<J>,
    keeper: &mut KeeperSeat<J>,
    state: &mut LinkState,
    id: HartId,
)
    requires low { id < 16 }
    requires keeps { KeepsState J.setting J.journal state.old keeper.old }
    requires ended { HasEndedThere keeper.old id }
    ensures keeps { KeepsState J.setting J.journal state.new keeper.new }
    ensures settled { SettlesOne id keeper.old keeper.new }
    ensures none { (row_of keeper.new id).pending ≡ None }
{
    slots_stand();
    accepted_object();
    if let Some(grant) = state.open_grant(id) {
        let _ = settle_one(memory, keeper, state, id, grant);
    }
}

/// The first harts, whose seats were joined, have taken all that they were handed, and each slot has the word
/// that is known of it.
fn look_over<J: Naming>(memory: &Memory<J>, keeper: &mut KeeperSeat<J>, harts: u32)
    requires few { harts ≤ 16 }
    requires some { 0 < harts }
    requires ended { (m : ℕ) → m < harts → (j : HartView) × HasEnded keeper.old m j }
    ensures same { keeper.new ≡ keeper.old }
    ensures taken { HaveTakenAll harts keeper.old }
    ensures once { AreJoinedOnce keeper.old }
    ensures decided { AreDecided keeper.old }
{
    for number in 0..harts {
        look_at(memory, keeper, HartId::new(number));
    }
}

/// A hart whose seat was joined has taken all that it was handed, and each slot has the word that is known.
fn look_at<J: Naming>(memory: &Memory<J>, keeper: &mut KeeperSeat<J>, id: HartId)
    requires low { id < 16 }
    requires ended { (j : HartView) × HasEnded keeper.old id j }
    ensures same { keeper.new ≡ keeper.old }
    ensures taken { (j : HartView) → HasEnded keeper.old id j → (state : ℕ) × HasTakenAll keeper.old id state j }
    ensures once { AreJoinedOnce keeper.old }
    ensures decided { AreDecided keeper.old }
{
    let _ = calling(memory, keeper, id);
}
