//! What the keeper and a hart do with a grant of the slot.

ghost use Rattle.std.specs.Prelude.{◌≡◌, ◌≢◌, ◌<◌, ◌+◌, None, Some, IfSome, length};
ghost use Rattle.slot_bind.specs.declared.slot.Asked.TheVariants.{Open};
ghost use Rattle.word_rule.specs.declared.entry.Grant.{Grant};
ghost use Rattle.word_rule.specs.Views.{kept_at, row_of};
ghost use Rattle.test_words.specs.BindTests.Stocked.{HasAsked, HasPosted, IsCalling, IsFor, IsNew, IsStocked};

use crate::bind_tests::words::{LAZY, SLOT};
use history_event::{Event, Offer};
use ld_base::HartId;
use slot_bind::{Asked, Bound, arrived, ask, begin_call, bind, calling, done, post, take};
use word_memory::{HartSeat, KeeperSeat, Memory, Naming, count_up};

/// The grant of the slot that is this event, as its hart gets it.
pub fn granted(number: u64, value: u64) -> Offer
    ensures event { result.event ≡ number }
    ensures slot { (result.slot ≡ 0x37010) × (result.lazy ≡ 0x35000) }
    ensures value { result.value ≡ value }
{
    Offer {
        event: number,
        slot: SLOT,
        lazy: LAZY,
        value,
    }
}

/// A hart calls, and is granted the slot; none where it wasn't found calling.
pub fn grant<J: Naming>(
    memory: &Memory<J>,
    keeper: &mut KeeperSeat<J>,
    seat: &mut HartSeat<J>,
    hart: HartId,
    event: &Event,
    granted: &Offer,
) -> Option<()>
    requires hart { hart < 16 }
    requires new { IsNew seat.old }
    requires stocked { IsStocked (kept_at keeper.old) }
    requires free { (row_of keeper.old hart).pending ≡ None }
    requires granted { IsFor granted.now (length keeper.old.events + 1) }
    requires few { length keeper.old.events < 1000 }
    ensures posted { IfSome result (λ _. HasPosted keeper.old keeper.new hart) }
    ensures calling { IsCalling seat.new }
{
    begin_call(memory, seat);
    if !calling(memory, keeper, hart) {
        return None;
    }
    count_up(memory, keeper, event);
    post(memory, keeper, hart, granted);
    Some(())
}

/// A hart takes its grant, exchanges the slot's word and gives the row back: what came of it, and where it
/// goes on.
pub fn resolve<J: Naming>(memory: &Memory<J>, seat: &mut HartSeat<J>) -> Option<(Bound, u64)>
    requires { IsCalling seat.old }
{
    if arrived(memory, seat) != 3 {
        return None;
    }
    let offer = take(memory, seat);
    let bound = bind(memory, seat, &offer);
    Some((bound, done(memory, seat, offer, bound)))
}

/// What the keeper finds that came of a hart's grant.
pub fn settle<J: Naming>(memory: &Memory<J>, keeper: &mut KeeperSeat<J>, hart: HartId) -> Asked
    requires hart { hart < 16 }
    requires stocked { IsStocked (kept_at keeper.old) }
    requires posted { (g : Grant) × ((row_of keeper.old hart).pending ≡ Some g) }
    ensures { result ≢ Open → HasAsked keeper.old keeper.new hart }
{
    ask(memory, keeper, hart)
}
