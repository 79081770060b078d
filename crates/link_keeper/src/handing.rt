//! What a turn came to is passed to its hart.

ghost use Rattle.std.specs.Prelude.{◌≡◌, ◌⊎◌, ℕ, ◌∷◌, [], false, length, List};
ghost use Rattle.hart_linker.specs.Between.{HasGrant};
ghost use Rattle.hart_moves.specs.Harts.{HartState};
ghost use Rattle.hart_seat.specs.HartParts.Views.{offered_of};
ghost use Rattle.hart_trails.specs.Entries.{again_entry, block_entry, cause_of, entry_behind, number_shown};
ghost use Rattle.hart_trails.specs.Trails.{took_behind};
ghost use Rattle.history_event.specs.declared.event.Event.{Event};
ghost use Rattle.history_journal.specs.Following.{machine_of};
ghost use Rattle.kept_words.specs.Handed.{IsIssued};
ghost use Rattle.kept_words.specs.Posting.{NewGrant, event_of};
ghost use Rattle.link_keeper.specs.Handing.{HasEvents, HasGrantEvent, IsPassed, MayHandOver};
ghost use Rattle.link_keeper.specs.Serving.{IsHandedOver, IsTaken};
ghost use Rattle.word_rule.specs.declared.view.TrailItem.TheVariants.{Took};

use crate::acting::{Acted, Reply};
use crate::passing::{entry_at, pass_next, pass_rest};
use crate::remaking::remake;
use crate::rows::{pass_answer, pass_grant};
use hart_fits::running_is_not_over;
use hart_linker::RunNaming;
use hart_moves::turns_append;
use hart_seat::Offered;
use history_event::Offer;
use history_journal::accepted_object;
use kept_words::{grants_are_posted, records_stay, remade_is_kept, states_stay};
use ld_base::{HartId, Shown};
use link_state::LinkState;
use std::sync::Wait;
use word_memory::{HartSeat, KeeperSeat, Memory};
use word_rule::Entry;
use world_memory::MemoryChange;

/// The mark of an answer on thread-local storage that is no event.
const BLOCK: u8 = 2;
/// The mark of a call that is to be tried again.
const AGAIN: u8 = 6;

/// Passes what a turn came to, to its hart, which calls. Answers the first entry that the hart got.
pub(crate) fn pass<R: Wait, J: RunNaming>(
    rt: &R,
    memory: &Memory<J>,
    keeper: &mut KeeperSeat<J>,
    seat: &mut HartSeat<J>,
    state: &LinkState,
    id: HartId,
    index: usize,
    acted: &Acted,
) -> Entry
    requires index { index ≡ length keeper.old.events }
    requires hand { MayHandOver J.setting J.journal keeper.old seat.old id }
    requires machine { J.setting.machine ≡ machine_of state.now.harts }
    requires taken { (b : HartState) × (c : HartState) × (spare : ℕ)
        × IsTaken J.setting state.now keeper.old id b c spare acted.now.change acted.now.reply }
    ensures { (b c : HartState) (spare : ℕ) (turn : IsTaken J.setting state.now keeper.old id b c spare acted.now.change acted.now.reply)
        → IsHandedOver J.setting J.journal keeper.old keeper.new seat.old seat.new id b c turn.acts.did spare result }
{
    running_is_not_over();
    turns_append();
    match acted.reply {
        Reply::Events => pass_events(rt, memory, keeper, seat, state, id, index, &acted.change),
        Reply::Granted(offered) => {
            pass_offer(rt, memory, keeper, seat, state, id, index, offered)
        }
        Reply::Block(number, block) => {
            let entry = block_entry(state, number, block);
            pass_no_event(rt, memory, keeper, seat, id, entry)
        }
        Reply::Again(shown) => {
            let entry = again_entry(state, &shown);
            pass_no_event(rt, memory, keeper, seat, id, entry)
        }
    }
}

/// Passes the events of a turn, of which the first isn't a grant. Memory gets first what they come to.
fn pass_events<R: Wait, J: RunNaming>(
    rt: &R,
    memory: &Memory<J>,
    keeper: &mut KeeperSeat<J>,
    seat: &mut HartSeat<J>,
    state: &LinkState,
    id: HartId,
    index: usize,
    change: &MemoryChange,
) -> Entry
    requires index { index ≡ length keeper.old.events }
    requires hand { MayHandOver J.setting J.journal keeper.old seat.old id }
    requires events { (e : Event) × (rest : List Event) × HasEvents J.setting state.now keeper.old id e rest change.now }
    ensures passed { (e : Event) (rest : List Event) → HasEvents J.setting state.now keeper.old id e rest change.now
        → IsPassed J.setting J.journal keeper.old keeper.new seat.old seat.new (e ∷ rest) (took_behind keeper.old.events (e ∷ rest)) result }
    ensures entry { (e : Event) (rest : List Event) → HasEvents J.setting state.now keeper.old id e rest change.now
        → result ≡ entry_behind keeper.old.events e }
    ensures calling { seat.new.lane.calling ≡ false }
{
    accepted_object();
    states_stay();
    records_stay();
    remade_is_kept();
    let _ = seat.number();
    remake(rt, memory, keeper, state, change);
    let entry = entry_at(state, index);
    pass_next(rt, memory, keeper, seat, state, id, index);
    pass_rest(rt, memory, keeper, seat, state, id, index + 1);
    entry
}

/// Passes the event of a turn that is a grant: the hart's row is open with it then, and the hart has read it.
fn pass_offer<R: Wait, J: RunNaming>(
    rt: &R,
    memory: &Memory<J>,
    keeper: &mut KeeperSeat<J>,
    seat: &mut HartSeat<J>,
    state: &LinkState,
    id: HartId,
    index: usize,
    offered: Offered,
) -> Entry
    requires index { index ≡ length keeper.old.events }
    requires hand { MayHandOver J.setting J.journal keeper.old seat.old id }
    requires grant { (g : NewGrant) × HasGrantEvent J.setting state.now keeper.old id g (offered_of offered) }
    ensures passed { (g : NewGrant) → HasGrantEvent J.setting state.now keeper.old id g (offered_of offered)
        → IsPassed J.setting J.journal keeper.old keeper.new seat.old seat.new (event_of g ∷ []) [] result }
    ensures grant { HasGrant seat.new (offered_of offered) }
    ensures mark { result.mark ≡ 3 }
    ensures generation { result.generation ≡ keeper.old.generation }
{
    accepted_object();
    grants_are_posted();
    let events = state.journal().as_slice();
    let event = &events[index];
    let offer = Offer {
        event: index as u64 + 1,
        slot: offered.slot,
        lazy: offered.lazy,
        value: offered.value,
    };
    let generation = state.modules().generation();
    pass_grant(rt, memory, keeper, seat, id, event, &offer, generation)
}

/// Passes an answer that is no event.
fn pass_no_event<R: Wait, J: RunNaming>(
    rt: &R,
    memory: &Memory<J>,
    keeper: &mut KeeperSeat<J>,
    seat: &mut HartSeat<J>,
    id: HartId,
    entry: Entry,
) -> Entry
    requires hand { MayHandOver J.setting J.journal keeper.old seat.old id }
    requires mark { (entry.mark ≡ 2) ⊎ (entry.mark ≡ 6) }
    requires number { entry.number ≡ length keeper.old.events }
    requires generation { entry.generation ≡ keeper.old.generation }
    requires issued { IsIssued J.setting keeper.old.events id entry }
    ensures entry { result ≡ entry }
    ensures passed { IsPassed J.setting J.journal keeper.old keeper.new seat.old seat.new [] (Took entry ∷ []) entry }
    ensures calling { seat.new.lane.calling ≡ false }
{
    records_stay();
    pass_answer(rt, memory, keeper, seat, id, entry);
    entry
}

/// The entry of a block that was there.
fn block_entry(state: &LinkState, number: u64, block: u64) -> Entry
    ensures { result ≡ block_entry state.now.events (record { number = number; block = block }) }
{
    Entry {
        mark: BLOCK,
        number: state.journal().as_slice().len() as u64,
        slot: number,
        value: block,
        generation: state.modules().generation(),
    }
}

/// The entry of a call that is to be tried again, for this.
fn again_entry(state: &LinkState, shown: &Shown) -> Entry
    ensures { result ≡ again_entry state.now.events shown.now }
{
    Entry {
        mark: AGAIN,
        number: state.journal().as_slice().len() as u64,
        slot: cause_of(shown),
        value: number_shown(shown),
        generation: state.modules().generation(),
    }
}

/// Which kind of cause it is.
fn cause_of(shown: &Shown) -> u64
    ensures { result ≡ cause_of shown.now }
{
    match shown {
        Shown::Locked(..) => 0,
        Shown::Initialising(_) => 1,
        Shown::Closing(_) => 2,
        Shown::OpenGrant(_) => 3,
    }
}

/// The serial, or the number of a grant, that is shown.
fn number_shown(shown: &Shown) -> u64
    ensures { result ≡ number_shown shown.now }
{
    match shown {
        Shown::Locked(..) => 0,
        Shown::Initialising(serial) | Shown::Closing(serial) => serial.number(),
        Shown::OpenGrant(grant) => grant.number(),
    }
}
