//! Entries go from the keeper to a hart that calls.

ghost use Rattle.std.specs.Prelude.{◌≡◌, ◌≢◌, ◌<◌, ◌++◌, [], ◌∷◌, true, false, length};
ghost use Rattle.word_rule.specs.HartSteps.{IsMark};
ghost use Rattle.word_rule.specs.KeeperSteps.{awaited_if};
ghost use Rattle.word_rule.specs.Views.{IsLong, row_of};
ghost use Rattle.slot_bind.specs.Grants.{MayPost, grant_of, posted};
ghost use Rattle.slot_bind.specs.Rows.{begun, found_state, handed_over};
ghost use Rattle.word_steps.specs.Knowing.{counted};
ghost use Rattle.link_keeper.specs.Passing.{InStep, IsCalling, IsNextEntry, IsNoEvents, MayPass, has_read, took};

use history_event::{Event, Offer};
use ld_base::HartId;
use slot_bind::{accept, arrived, begin_call, calling, hand, post, read_row};
use std::sync::Wait;
use word_memory::{HartSeat, KeeperSeat, Memory, Naming, count_up, tell};
use word_rule::{Entry, Grant};

/// Waits until the hart is known to call.
pub(crate) fn await_call<R: Wait, J: Naming>(
    rt: &R,
    memory: &Memory<J>,
    keeper: &mut KeeperSeat<J>,
    hart: HartId,
)
    requires { hart < 16 }
    ensures known { keeper.new ≡ awaited_if hart true keeper.old }
    ensures long { IsLong keeper.old }
{
    for _ in rt.forever() {
        if calling(memory, keeper, hart) {
            return;
        }
    }
    unreachable!()
}

/// Waits until the hart's row is its own, and answers the row's mark.
fn await_entry<R: Wait, J: Naming>(rt: &R, memory: &Memory<J>, seat: &mut HartSeat<J>) -> u64
    requires calling { seat.old.lane.calling ≡ true }
    ensures mark { IsMark result }
    ensures found { seat.new ≡ found_state result seat.old }
{
    for _ in rt.forever() {
        let state = arrived(memory, seat);
        if state < 8 {
            return state;
        }
    }
    unreachable!()
}

/// A hart that knows all events begins a call, and is found calling.
pub(crate) fn begin<R: Wait, J: Naming>(
    rt: &R,
    memory: &Memory<J>,
    keeper: &mut KeeperSeat<J>,
    seat: &mut HartSeat<J>,
    hart: HartId,
)
    requires hart { hart ≡ seat.old.number }
    requires calling { seat.old.lane.calling ≡ false }
    requires step { InStep keeper.old seat.old }
    ensures keeper { keeper.new ≡ awaited_if hart true keeper.old }
    ensures seat { seat.new ≡ begun seat.new.lane.seen seat.old }
    ensures calling { IsCalling seat.new }
    ensures step { InStep keeper.new seat.new }
    ensures long { IsLong keeper.old }
{
    let _ = seat.number();
    begin_call(memory, seat);
    await_call(rt, memory, keeper, hart);
}

/// Reads the row in which an entry was handed to the hart, which knows all events then.
fn read_handed<R: Wait, J: Naming>(
    rt: &R,
    memory: &Memory<J>,
    keeper: &mut KeeperSeat<J>,
    seat: &mut HartSeat<J>,
    entry: Entry,
) -> Grant
    requires calling { IsCalling seat.old }
    requires handed { (row_of keeper.old seat.old.number).issued ≡ seat.old.lane.taken ++ entry ∷ [] }
    ensures keeper { keeper.new ≡ keeper.old }
    ensures entry { result.entry ≡ entry }
    ensures lazy { result.lazy ≡ (row_of keeper.old seat.old.number).lazy }
    ensures seat { seat.new ≡ has_read result keeper.old.events seat.old }
{
    let _ = await_entry(rt, memory, seat);
    let row = read_row(memory, seat);
    tell(memory, keeper, seat);
    row
}

/// Takes the entry that was handed to the hart, which isn't a grant's.
fn receive<R: Wait, J: Naming>(
    rt: &R,
    memory: &Memory<J>,
    keeper: &mut KeeperSeat<J>,
    seat: &mut HartSeat<J>,
    entry: Entry,
)
    requires calling { IsCalling seat.old }
    requires handed { (row_of keeper.old seat.old.number).issued ≡ seat.old.lane.taken ++ entry ∷ [] }
    requires mark { entry.mark ≢ 3 }
    ensures keeper { keeper.new ≡ keeper.old }
    ensures seat { seat.new ≡ took entry keeper.old.events seat.old }
{
    let _ = read_handed(rt, memory, keeper, seat, entry);
    let _ = accept(memory, seat);
}

/// Counts an event of a hart that is known to call, and hands the hart its entry, which it takes. The hart
/// knows all events then.
pub(crate) fn pass_event<R: Wait, J: Naming>(
    rt: &R,
    memory: &Memory<J>,
    keeper: &mut KeeperSeat<J>,
    seat: &mut HartSeat<J>,
    hart: HartId,
    event: &Event,
    entry: Entry,
)
    requires hart { hart ≡ seat.old.number }
    requires calling { IsCalling seat.old }
    requires step { InStep keeper.old seat.old }
    requires may { MayPass keeper.old hart }
    requires entry { IsNextEntry keeper.old entry }
    requires few { length keeper.old.events < 18446744073709551615 }
    ensures keeper { keeper.new ≡ handed_over hart entry (counted event.now keeper.old) }
    ensures seat { seat.new ≡ took entry keeper.new.events seat.old }
    ensures step { InStep keeper.new seat.new }
{
    let _ = seat.number();
    count_up(memory, keeper, event);
    hand(memory, keeper, hart, entry);
    receive(rt, memory, keeper, seat, entry);
}

/// Hands a hart that is known to call an entry that is no event's, which it takes.
pub(crate) fn pass_answer<R: Wait, J: Naming>(
    rt: &R,
    memory: &Memory<J>,
    keeper: &mut KeeperSeat<J>,
    seat: &mut HartSeat<J>,
    hart: HartId,
    entry: Entry,
)
    requires hart { hart ≡ seat.old.number }
    requires calling { IsCalling seat.old }
    requires step { InStep keeper.old seat.old }
    requires may { MayPass keeper.old hart }
    requires entry { IsNoEvents keeper.old entry }
    ensures keeper { keeper.new ≡ handed_over hart entry keeper.old }
    ensures seat { seat.new ≡ took entry keeper.new.events seat.old }
    ensures step { InStep keeper.new seat.new }
{
    let _ = seat.number();
    hand(memory, keeper, hart, entry);
    receive(rt, memory, keeper, seat, entry);
}

/// Reads the row in which a grant was posted to the hart, which knows all events then.
fn read_grant<R: Wait, J: Naming>(
    rt: &R,
    memory: &Memory<J>,
    keeper: &mut KeeperSeat<J>,
    seat: &mut HartSeat<J>,
    grant: Grant,
)
    requires calling { IsCalling seat.old }
    requires handed { (row_of keeper.old seat.old.number).issued ≡ seat.old.lane.taken ++ grant.entry ∷ [] }
    requires lazy { (row_of keeper.old seat.old.number).lazy ≡ grant.lazy }
    ensures keeper { keeper.new ≡ keeper.old }
    ensures seat { seat.new ≡ has_read grant keeper.old.events seat.old }
{
    let _ = read_handed(rt, memory, keeper, seat, grant.entry);
}

/// Counts the event of a grant to a hart that is known to call, and opens the hart's row with the offer, at
/// this generation. The hart has read it then, and knows all events.
pub(crate) fn pass_grant<R: Wait, J: Naming>(
    rt: &R,
    memory: &Memory<J>,
    keeper: &mut KeeperSeat<J>,
    seat: &mut HartSeat<J>,
    hart: HartId,
    event: &Event,
    offer: &Offer,
    generation: u64,
) -> Entry
    requires hart { hart ≡ seat.old.number }
    requires calling { IsCalling seat.old }
    requires step { InStep keeper.old seat.old }
    requires few { length keeper.old.events < 18446744073709551615 }
    requires may { MayPost (counted event.now keeper.old) hart offer.now }
    requires generation { generation ≡ keeper.old.generation }
    ensures entry { result ≡ (grant_of offer.now keeper.old.generation).entry }
    ensures keeper { keeper.new ≡ posted hart (grant_of offer.now keeper.old.generation) (counted event.now keeper.old) }
    ensures seat { seat.new ≡ has_read (grant_of offer.now keeper.old.generation) keeper.new.events seat.old }
    ensures step { InStep keeper.new seat.new }
{
    let _ = seat.number();
    count_up(memory, keeper, event);
    post(memory, keeper, hart, offer);
    let grant = Grant {
        entry: Entry {
            mark: 3,
            number: offer.event,
            slot: offer.slot,
            value: offer.value,
            generation,
        },
        lazy: offer.lazy,
    };
    read_grant(rt, memory, keeper, seat, grant);
    grant.entry
}
