//! The final destructors begin.

ghost use Rattle.std.specs.Prelude.{◌≡◌, ◌≤◌, ◌<◌, false, IsTrue, Some};
ghost use Rattle.history_event.specs.declared.hart_end.HartEnd.TheVariants.{Exit};
ghost use Rattle.history_journal.specs.Following.{machine_of};
ghost use Rattle.history_state.specs.After.{after};
ghost use Rattle.history_state.specs.Owed.{times_ended};
ghost use Rattle.history_state.specs.Setting.{Setting, are_finals, have_exited};
ghost use Rattle.hart_moves.specs.Starting.{starting_registers};
ghost use Rattle.hart_linker.specs.Between.{HasHeard, IsBetweenTurns};
ghost use Rattle.hart_linker.specs.Finals.{BeginsLast};
ghost use Rattle.link_keeper.specs.Beginning.{EndsAgain, ends_in, first_exited};
ghost use Rattle.link_keeper.specs.Keeping.{KeepsState, OpensNothing};
ghost use Rattle.link_keeper.specs.Settling.{SettlesFirst, SettlesOrRests};
ghost use Rattle.word_rule.specs.Views.{BeginsWith};

use crate::attending::attend;
use crate::ends::id_of;
use crate::hearing::hear;
use crate::passing::pass_next;
use hart_fits::{finals_fit, running_is_not_over};
use hart_linker::{Beginning, HartBlocks, RunNaming};
use hart_seat::LinkedHart;
use history_event::{Event, HartEnd, HartEntry};
use history_state::{modules_are_tidy, nothing_comes_before_startup};
use kept_words::{records_stay, states_stay};
use link_state::LinkState;
use std::alloc::Global;
use std::sync::Wait;
use word_memory::{HartSeat, KeeperSeat, Memory};
use world_answers::{begin, ends_are_few};

/// The final destructors begin, if every hart has ended by exit and an object is left: the first hart, which
/// had ended once, by exit with a code, gets its starting registers again. It has heard of all events then.
pub(crate) fn begin_finals<R: Wait, J: RunNaming>(
    rt: &R,
    alloc: Global,
    memory: &Memory<J>,
    keeper: &mut KeeperSeat<J>,
    state: &mut LinkState,
    seat: &mut HartSeat<J>,
    hart: &mut LinkedHart,
    blocks: &mut HartBlocks,
    entry: HartEntry,
    code: u64,
) -> Beginning
    requires keeps { KeepsState J.setting J.journal state.old keeper.old }
    requires first { seat.old.number ≡ 0 }
    requires some { 0 < J.setting.machine.harts }
    requires between { IsBetweenTurns J.setting J.journal seat.old hart.old.hart blocks.old }
    requires calling { seat.old.lane.calling ≡ false }
    requires exited { hart.old.hart.«end» ≡ Some (Exit code) }
    requires once { times_ended 0 (after seat.old.heard).endings ≤ 1 }
    ensures keeps { KeepsState J.setting J.journal state.new keeper.new }
    ensures settled { SettlesOrRests J.setting seat.old.number keeper.old keeper.new }
    ensures begins { BeginsLast J.setting (starting_registers entry) seat.old seat.new hart.old.hart hart.new.hart result }
    ensures same { seat.new.number ≡ seat.old.number }
    ensures longer { BeginsWith seat.new.heard seat.old.heard }
    ensures calling { seat.new.lane.calling ≡ false }
    ensures between { IsBetweenTurns J.setting J.journal seat.new hart.new.hart blocks.new }
    ensures opened { OpensNothing keeper.old.events keeper.new.events }
{
    running_is_not_over();
    finals_fit();
    nothing_comes_before_startup();
    modules_are_tidy();
    hear(memory, keeper, seat);
    if !have_exited(state) {
        return Beginning::HartsRun;
    }
    match begin(alloc, state, hart, entry, code) {
        Ok(true) => {
            blocks.begin(state.modules().generation());
            Beginning::Begun
        }
        Ok(false) => Beginning::NoneLeft,
        Err(_) => {
            end_again(rt, memory, keeper, state, seat);
            Beginning::Memory
        }
    }
}

/// Whether every hart has ended by exit.
fn have_exited(state: &LinkState) -> bool
    ensures { (w : Setting) → w.machine ≡ machine_of state.now.harts → result ≡ have_exited w (after state.now.events) }
{
    first_exited(state.journal().as_slice(), state.harts())
}

/// Whether as many harts as these have ended, and the first so many by exit.
fn first_exited(events: &[Event], harts: u32) -> bool
    ensures { result ≡ first_exited harts (ends_in events.now) }
{
    let mut left = harts;
    for event in events {
        if left == 0 {
            return true;
        }
        if let Event::Ended { end, .. } = event {
            if !matches!(end, HartEnd::Exit(_)) {
                return false;
            }
            left -= 1;
        }
    }
    left == 0
}

/// The first hart ends once more, since there is no memory to list what is left.
fn end_again<R: Wait, J: RunNaming>(
    rt: &R,
    memory: &Memory<J>,
    keeper: &mut KeeperSeat<J>,
    state: &mut LinkState,
    seat: &mut HartSeat<J>,
)
    requires keeps { KeepsState J.setting J.journal state.old keeper.old }
    requires heard { HasHeard J.setting J.journal seat.old }
    requires calling { seat.old.lane.calling ≡ false }
    requires zeroth { seat.old.number ≡ 0 }
    requires some { 0 < J.setting.machine.harts }
    requires over { IsTrue (are_finals J.setting (after keeper.old.events)) }
    ensures keeps { KeepsState J.setting J.journal state.new keeper.new }
    ensures again { EndsAgain J.setting J.journal seat.old seat.new }
    ensures settled { SettlesFirst J.setting seat.old.number keeper.old keeper.new }
    ensures opened { OpensNothing keeper.old.events keeper.new.events }
{
    ends_are_few();
    states_stay();
    records_stay();
    let _ = seat.number();
    let id = id_of(seat);
    attend(rt, memory, keeper, state, seat, id);
    let index = state.journal().as_slice().len();
    state.ended(id, HartEnd::Memory);
    pass_next(rt, memory, keeper, seat, state, id, index);
}
