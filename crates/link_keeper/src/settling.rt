//! Grants are settled whose harts are done with them.

ghost use Rattle.std.specs.Prelude.{◌≡◌, ℕ, ◌<◌, ◌++◌, [], ◌∷◌};
ghost use Rattle.history_event.specs.declared.event.Event.{Event};
ghost use Rattle.word_rule.specs.declared.entry.Grant.{Grant};
ghost use Rattle.word_rule.specs.KeeperSteps.{TellsAsk};
ghost use Rattle.word_rule.specs.Views.{row_of};
ghost use Rattle.slot_bind.specs.Grants.{Says, asked_view};
ghost use Rattle.word_steps.specs.Knowing.{counted};
ghost use Rattle.kept_words.specs.Keeping.{settled_view};
ghost use Rattle.kept_words.specs.Staying.{number_in};
ghost use Rattle.link_keeper.specs.Keeping.{KeepsState};
ghost use Rattle.link_keeper.specs.Settling.{HasSettled, SettlesOne};

use hart_linker::RunNaming;
use history_journal::accepted_object;
use history_memory::slots_stand;
use kept_words::{asks_settle, fates_settle};
use ld_base::{GrantNo, HartId};
use link_state::LinkState;
use slot_bind::{Asked, ask};
use word_memory::{KeeperSeat, Memory, Naming, count_up};

/// Settles each grant whose hart is done with it. The rows of all others are found open.
pub(crate) fn settle_all<J: RunNaming>(
    memory: &Memory<J>,
    keeper: &mut KeeperSeat<J>,
    state: &mut LinkState,
)
    requires { KeepsState J.setting J.journal state.old keeper.old }
    ensures keeps { KeepsState J.setting J.journal state.new keeper.new }
    ensures settled { HasSettled 16 keeper.old keeper.new }
    ensures harts { state.new.harts ≡ state.old.harts }
{
    for number in 0..16u32 {
        settle_hart(memory, keeper, state, HartId::new(number));
    }
}

/// Settles the open grant of a hart, if it has one and is done with it.
fn settle_hart<J: RunNaming>(
    memory: &Memory<J>,
    keeper: &mut KeeperSeat<J>,
    state: &mut LinkState,
    id: HartId,
)
    requires low { id < 16 }
    requires keeps { KeepsState J.setting J.journal state.old keeper.old }
    ensures keeps { KeepsState J.setting J.journal state.new keeper.new }
    ensures settled { SettlesOne id keeper.old keeper.new }
    ensures harts { state.new.harts ≡ state.old.harts }
{
    slots_stand();
    accepted_object();
    match state.open_grant(id) {
        Some(grant) => {
            let _ = settle_one(memory, keeper, state, id, grant);
        }
        None => {}
    }
}

/// Asks for the open grant of a hart, and settles it if its hart is done with it.
pub(crate) fn settle_one<J: RunNaming>(
    memory: &Memory<J>,
    keeper: &mut KeeperSeat<J>,
    state: &mut LinkState,
    id: HartId,
    grant: GrantNo,
) -> Asked
    requires low { id < 16 }
    requires keeps { KeepsState J.setting J.journal state.old keeper.old }
    requires pending { (g : Grant) × ((row_of keeper.old id).pending ≡ Some g) × (grant ≡ number_in keeper.old.events id g) }
    ensures keeps { KeepsState J.setting J.journal state.new keeper.new }
    ensures keeper { keeper.new ≡ settled_view grant result (asked_view id result keeper.old) }
    ensures told { (found : ℕ) × Says found result × TellsAsk keeper.old id found }
    ensures harts { state.new.harts ≡ state.old.harts }
{
    fates_settle();
    asks_settle();
    accepted_object();
    match ask(memory, keeper, id) {
        Asked::Open => Asked::Open,
        Asked::Won => {
            state.settle(grant, true, 0);
            count_last(memory, keeper, state);
            Asked::Won
        }
        Asked::Lost(saw) => {
            state.settle(grant, false, saw);
            count_last(memory, keeper, state);
            Asked::Lost(saw)
        }
    }
}

/// Counts the last event of a journal that is one event ahead.
fn count_last<J: Naming>(memory: &Memory<J>, keeper: &mut KeeperSeat<J>, state: &LinkState)
    requires { (e : Event) × (state.now.events ≡ keeper.old.events ++ e ∷ []) }
    ensures { (e : Event) → state.now.events ≡ keeper.old.events ++ e ∷ [] → keeper.new ≡ counted e keeper.old }
{
    let events = state.journal().as_slice();
    count_up(memory, keeper, &events[events.len() - 1]);
}
