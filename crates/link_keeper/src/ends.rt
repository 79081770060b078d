//! A hart ends.

ghost use Rattle.std.specs.Prelude.{◌≡◌, false};
ghost use Rattle.hart_moves.specs.Moves.{ended};
ghost use Rattle.tls_blocks.specs.Blocks.{BlockTable};
ghost use Rattle.hart_linker.specs.Between.{BlocksFit, HasHeard};
ghost use Rattle.link_keeper.specs.Keeping.{KeepsState, OpensNothing};
ghost use Rattle.link_keeper.specs.Settling.{SettlesFirst};
ghost use Rattle.hart_linker.specs.Serving.{EndsTurn, WasRunning};

use crate::attending::attend;
use crate::passing::pass_next;
use hart_fits::{harts_fit, running_is_not_over};
use hart_linker::RunNaming;
use hart_seat::LinkedHart;
use history_event::HartEnd;
use kept_words::{records_stay, states_stay};
use ld_base::HartId;
use link_state::LinkState;
use std::sync::Wait;
use word_memory::{HartSeat, KeeperSeat, Memory, Naming};
use world_answers::ends_are_few;

/// Ends a hart in a turn whose calls of the bus are over: its end is noted, and it takes the entry.
pub(crate) fn end_hart<R: Wait, J: RunNaming>(
    rt: &R,
    memory: &Memory<J>,
    keeper: &mut KeeperSeat<J>,
    state: &mut LinkState,
    seat: &mut HartSeat<J>,
    hart: &mut LinkedHart,
    reason: HartEnd,
)
    requires keeps { KeepsState J.setting J.journal state.old keeper.old }
    requires heard { HasHeard J.setting J.journal seat.old }
    requires run { WasRunning J.setting seat.old }
    requires calling { seat.old.lane.calling ≡ false }
    ensures keeps { KeepsState J.setting J.journal state.new keeper.new }
    ensures turn { EndsTurn J.setting seat.old seat.new reason hart.old.hart hart.new.hart }
    ensures heard { HasHeard J.setting J.journal seat.new }
    ensures calling { seat.new.lane.calling ≡ false }
    ensures blocks { (d : BlockTable) → BlocksFit d seat.old → BlocksFit d seat.new }
    ensures settled { SettlesFirst J.setting seat.old.number keeper.old keeper.new }
    ensures opened { OpensNothing keeper.old.events keeper.new.events }
{
    ends_are_few();
    harts_fit();
    running_is_not_over();
    states_stay();
    records_stay();
    let _ = seat.number();
    let id = id_of(seat);
    attend(rt, memory, keeper, state, seat, id);
    stop(hart, &reason);
    let index = state.journal().as_slice().len();
    state.ended(id, reason);
    pass_next(rt, memory, keeper, seat, state, id, index);
}

/// Which hart has the seat.
pub(crate) fn id_of<J: Naming>(seat: &HartSeat<J>) -> HartId
    ensures { result ≡ seat.now.number }
{
    HartId::new(seat.number() as u32)
}

/// The hart runs no further.
fn stop(hart: &mut LinkedHart, reason: &HartEnd)
    ensures { hart.new.hart ≡ ended reason.now hart.old.hart }
{
    hart.stop(*reason);
}
