//! What comes before each turn that is taken under the lock.

ghost use Rattle.std.specs.Prelude.{◌≡◌, ◌<◌, false};
ghost use Rattle.link_keeper.specs.Attending.{Attends, NobodysCame};
ghost use Rattle.hart_linker.specs.Between.{HasHeard};
ghost use Rattle.link_keeper.specs.Keeping.{KeepsState};
ghost use Rattle.link_keeper.specs.Settling.{SettlesAll};

use crate::rows::begin;
use crate::settling::settle_all;
use hart_linker::RunNaming;
use history_journal::accepted_object;
use history_memory::slots_stand;
use kept_words::{entries_are_events, records_stay};
use ld_base::HartId;
use link_state::LinkState;
use std::sync::Wait;
use word_memory::{HartSeat, KeeperSeat, Memory, tell};

/// A hart is told of all events and begins a call, and each grant is settled whose hart is done with it.
pub(crate) fn attend<R: Wait, J: RunNaming>(
    rt: &R,
    memory: &Memory<J>,
    keeper: &mut KeeperSeat<J>,
    state: &mut LinkState,
    seat: &mut HartSeat<J>,
    id: HartId,
)
    requires id { id ≡ seat.old.number }
    requires keeps { KeepsState J.setting J.journal state.old keeper.old }
    requires heard { HasHeard J.setting J.journal seat.old }
    requires calling { seat.old.lane.calling ≡ false }
    ensures keeps { KeepsState J.setting J.journal state.new keeper.new }
    ensures attends { Attends keeper.new seat.old seat.new id }
    ensures settled { NobodysCame keeper.old.events keeper.new.events }
    ensures first { SettlesAll keeper.old keeper.new }
    ensures harts { state.new.harts ≡ state.old.harts }
{
    entries_are_events();
    records_stay();
    accepted_object();
    slots_stand();
    let _ = seat.number();
    tell(memory, keeper, seat);
    begin(rt, memory, keeper, seat, id);
    settle_all(memory, keeper, state);
}
