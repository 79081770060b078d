//! Turns that ask.

ghost use Rattle.std.specs.Prelude.{◌≡◌, true, length, drop};
ghost use Rattle.hart_linker.specs.Between.{IsBetweenTurns};
ghost use Rattle.hart_linker.specs.Serving.{ServesTurn, is_asking};
ghost use Rattle.hart_moves.specs.Due.{due};
ghost use Rattle.history_calls.specs.CallLaws.Coming.{IsOver};
ghost use Rattle.history_journal.specs.Following.{machine_of};
ghost use Rattle.history_state.specs.State.{State};
ghost use Rattle.link_keeper.specs.Keeping.{KeepsState};
ghost use Rattle.link_keeper.specs.Serving.{ServedReadsNothing};
ghost use Rattle.link_keeper.specs.Settling.{SettlesFirst};
ghost use Rattle.word_rule.specs.Views.{BeginsWith};
ghost use Rattle.world_turns.specs.Counts.{ShowInCounts};

use crate::acting::act;
use crate::attending::attend;
use crate::blocks::keep_answer;
use crate::ends::id_of;
use crate::handing::pass;
use hart_fits::{harts_fit, own_moves_fit};
use hart_linker::{HartBlocks, RunNaming};
use hart_seat::LinkedHart;
use history_state::{modules_are_tidy, nothing_comes_before_startup};
use ld_base::Names;
use library_source::Library;
use link_state::LinkState;
use std::alloc::Global;
use std::sync::Wait;
use word_memory::{HartSeat, KeeperSeat, Memory};
use world_turns::counts_show;

/// Takes a hart's turn that asks: it hears of all events and calls, grants are settled, the state takes the
/// turn, and the hart gets what that came to.
pub(crate) fn serve_hart<R: Wait, J: RunNaming, L: Library>(
    rt: &R,
    alloc: Global,
    memory: &Memory<J>,
    keeper: &mut KeeperSeat<J>,
    state: &mut LinkState,
    seat: &mut HartSeat<J>,
    hart: &mut LinkedHart,
    blocks: &mut HartBlocks,
    folders: &Names,
    library: &mut L,
)
    requires keeps { KeepsState J.setting J.journal state.old keeper.old }
    requires over { IsOver (machine_of state.old.harts) folders.now (L.files library.old) J.setting }
    requires between { IsBetweenTurns J.setting J.journal seat.old hart.old.hart blocks.old }
    requires asks { (s : State) → is_asking (due s hart.old.hart) ≡ true }
    ensures keeps { KeepsState J.setting J.journal state.new keeper.new }
    ensures settled { SettlesFirst J.setting seat.old.number keeper.old keeper.new }
    ensures longer { BeginsWith keeper.new.events keeper.old.events }
    ensures turn { ServesTurn J.setting seat.old seat.new hart.old.hart hart.new.hart }
    ensures between { IsBetweenTurns J.setting J.journal seat.new hart.new.hart blocks.new }
    ensures shown { ShowInCounts folders.now (drop (length keeper.old.events) keeper.new.events)
        (record { faults = L.faults library.old; misses = L.misses library.old }) (record { faults = L.faults library.new; misses = L.misses library.new }) }
    ensures unread { ServedReadsNothing seat.old.number hart.old.hart keeper.old keeper.new → library.new ≡ library.old }
    ensures files { L.files library.new ≡ L.files library.old }
{
    harts_fit();
    own_moves_fit();
    modules_are_tidy();
    nothing_comes_before_startup();
    counts_show();
    let _ = seat.number();
    let id = id_of(seat);
    attend(rt, memory, keeper, state, seat, id);
    let index = state.journal().as_slice().len();
    let acted = act::<J, L>(alloc, state, id, hart, blocks, folders, library);
    let entry = pass(rt, memory, keeper, seat, state, id, index, &acted);
    keep_answer(blocks, state.modules(), entry);
}
