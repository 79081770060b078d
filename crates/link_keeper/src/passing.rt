//! The events of a turn are passed to its hart.

ghost use Rattle.std.specs.Prelude.{◌≡◌, ◌<◌, ◌∷◌, [], length, List};
ghost use Rattle.history_event.specs.declared.event.Event.{Event};
ghost use Rattle.link_keeper.specs.Entering.{EntersAt};
ghost use Rattle.link_keeper.specs.Passing.{HasPassed, InStep, IsCalling, IsNext, IsPassing, MayPass, PassesNext, left_of};

use crate::entries::{answer_of, module_of};
use crate::rows::{begin, pass_event};
use hart_linker::RunNaming;
use kept_words::{records_stay, states_stay};
use ld_base::HartId;
use link_state::LinkState;
use std::sync::Wait;
use word_memory::{HartSeat, KeeperSeat, Memory, Naming};
use word_rule::Entry;

/// The entry of the event at a place of the journal, of a turn that is over.
pub(crate) fn entry_at(state: &LinkState, index: usize) -> Entry
    requires { index < length state.now.events }
    ensures { EntersAt state.now.events index result }
{
    let events = state.journal().as_slice();
    let event = &events[index];
    let number = index as u64 + 1;
    let modules = state.modules().as_slice();
    let slot = module_of(modules, event);
    let ranges = state.ranges();
    let value = answer_of(ranges, event);
    let generation = state.modules().generation();
    Entry {
        mark: 1,
        number,
        slot,
        value,
        generation,
    }
}

/// Passes the events that are left of a hart's turn, one after another: each is a call of its own.
pub(crate) fn pass_rest<R: Wait, J: RunNaming>(
    rt: &R,
    memory: &Memory<J>,
    keeper: &mut KeeperSeat<J>,
    seat: &mut HartSeat<J>,
    state: &LinkState,
    id: HartId,
    first: usize,
)
    requires first { first ≡ length keeper.old.events }
    requires passing { IsPassing J.setting J.journal state.now keeper.old seat.old id }
    ensures passing { IsPassing J.setting J.journal state.now keeper.new seat.new id }
    ensures passed { HasPassed (left_of state.now keeper.old) keeper.old keeper.new seat.old seat.new }
{
    for index in first..state.journal().as_slice().len() {
        pass_one(rt, memory, keeper, seat, state, id, index);
    }
}

/// Passes the next event, by a call of its own.
fn pass_one<R: Wait, J: RunNaming>(
    rt: &R,
    memory: &Memory<J>,
    keeper: &mut KeeperSeat<J>,
    seat: &mut HartSeat<J>,
    state: &LinkState,
    id: HartId,
    index: usize,
)
    requires index { index ≡ length keeper.old.events }
    requires left { index < length state.now.events }
    requires passing { IsPassing J.setting J.journal state.now keeper.old seat.old id }
    ensures passing { IsPassing J.setting J.journal state.now keeper.new seat.new id }
    ensures passed { (e : Event) (rest : List Event) → left_of state.now keeper.old ≡ e ∷ rest → HasPassed (e ∷ []) keeper.old keeper.new seat.old seat.new }
{
    states_stay();
    records_stay();
    let _ = seat.number();
    begin(rt, memory, keeper, seat, id);
    pass_next(rt, memory, keeper, seat, state, id, index);
}

/// Passes the next event to a hart that calls.
pub(crate) fn pass_next<R: Wait, J: Naming>(
    rt: &R,
    memory: &Memory<J>,
    keeper: &mut KeeperSeat<J>,
    seat: &mut HartSeat<J>,
    state: &LinkState,
    id: HartId,
    index: usize,
)
    requires hart { id ≡ seat.old.number }
    requires index { index ≡ length keeper.old.events }
    requires calling { IsCalling seat.old }
    requires step { InStep keeper.old seat.old }
    requires may { MayPass keeper.old id }
    requires next { (e : Event) × (rest : List Event) × IsNext state.now keeper.old e rest }
    ensures passed { (e : Event) (rest : List Event) → IsNext state.now keeper.old e rest → PassesNext id e keeper.old keeper.new seat.old seat.new }
{
    let entry = entry_at(state, index);
    let events = state.journal().as_slice();
    let event = &events[index];
    pass_event(rt, memory, keeper, seat, id, event, entry);
}
