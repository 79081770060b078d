//! Grants: a hart exchanges a slot's word, and the keeper asks what came of it.

ghost use Rattle.std.specs.Prelude.{◌≡◌, ◌<◌, ◌%◌, ℕ, None, Some};
ghost use Rattle.rv_hart.specs.declared.bus.Item.{Item};
ghost use Rattle.rv_hart.specs.Buses.{HasValue, Permits, may_read};
ghost use Rattle.word_rule.specs.declared.entry.Grant.{Grant};
ghost use Rattle.word_rule.specs.KeeperSteps.{TellsAsk, TellsSlot};
ghost use Rattle.word_rule.specs.Views.{IsLong, grant_in, kept_at, row_of};
ghost use Rattle.word_rule.specs.Allowed.{IsLost, IsOf};
ghost use Rattle.word_rule.specs.Layout.{place_of};
ghost use Rattle.word_access.specs.Accesses.{Calls};
ghost use Rattle.slot_bind.specs.Grants.{IsBound, IsOffered, Saw, Says, asked_view, exchange_of, exchanged};
ghost use Rattle.slot_bind.specs.Grants.{fated_view, given_back, grant_read, leads_to, with_look};
ghost use Rattle.slot_bind.specs.Rows.{HasRow, IsRowOf, offer_of, with_offer};

use crate::call::{find, read_row};
use history_event::Offer;
use ld_base::HartId;
use rv_hart::{Bus, BusFault};
use word_memory::{
    HartSeat, KeeperSeat, Memory, Naming, TableBus, place_at, row_word, state_word, value_word,
};
use word_rule::{Entry, Grant, HartKind, KeeperKind, RowWord};

/// What came of an exchange.
#[derive(Clone, Copy, PartialEq, Eq)]
pub enum Bound {
    /// The slot held its lazy word.
    Won,
    /// The slot held this word.
    Lost(u64),
}

/// What a hart's row says of its grant.
#[derive(Clone, Copy, PartialEq, Eq)]
pub enum Asked {
    Open,
    Won,
    /// The slot's word.
    Lost(u64),
}

/// The word of a slot, read as any other doubleword is.
///
/// # Errors
///
/// As [`TableBus`] reads.
pub fn look<J: Naming>(
    memory: &Memory<J>,
    seat: &mut HartSeat<J>,
    slot: u64,
) -> Result<u64, BusFault>
    ensures calls { Calls seat.old (Item.Read slot 8 result) seat.new }
    ensures permits { Permits may_read slot 8 result }
    ensures bound { HasValue 8 result }
{
    TableBus::new(memory, seat).read(slot, 8)
}

/// Takes the grant of the row that the hart found its own. The row stays the hart's.
pub fn take<J: Naming>(memory: &Memory<J>, seat: &mut HartSeat<J>) -> Offer
    requires row { HasRow seat.old }
    requires mark { (offer_of seat.old).mark ≡ 3 }
    ensures offered { IsOffered seat.new result }
    ensures read { seat.new ≡ with_offer (offer_of seat.new) seat.old }
    ensures row { IsRowOf (offer_of seat.old) (grant_read seat.new) }
{
    let row = read_row(memory, seat);
    Offer {
        event: row.entry.number,
        slot: row.entry.slot,
        lazy: row.lazy,
        value: row.entry.value,
    }
}

// The grant of the offer that the hart has read, whose generation is in its row.
#[tactic(auto, using(crate::proofs::Grants::same_view, crate::proofs::Grants::same_grant))]
fn offered_grant<J: Naming>(memory: &Memory<J>, seat: &mut HartSeat<J>, offer: &Offer) -> Grant
    requires { IsOffered seat.old offer.now }
    ensures view { seat.new ≡ seat.old }
    ensures grant { result ≡ grant_read seat.old }
{
    let generation = find(memory, seat, RowWord::Generation);
    let entry = Entry {
        mark: 3,
        number: offer.event,
        slot: offer.slot,
        value: offer.value,
        generation,
    };
    Grant {
        entry,
        lazy: offer.lazy,
    }
}

/// Exchanges the slot's word for the grant's value where it is the lazy word.
#[tactic(auto, using(crate::proofs::Grants::binding))]
pub fn bind<J: Naming>(memory: &Memory<J>, seat: &mut HartSeat<J>, offer: &Offer) -> Bound
    requires offered { IsOffered seat.old offer.now }
    requires untried { seat.old.lane.tried ≡ None }
    ensures exchanged { seat.new ≡ exchanged (exchange_of (grant_read seat.old) result) seat.old }
    ensures bound { IsBound offer.now.lazy result }
    ensures offered { IsOffered seat.new offer.now }
    ensures tried { seat.new.lane.tried ≡ Some (exchange_of (grant_read seat.new) result) }
{
    let grant = offered_grant(memory, seat, offer);
    let found = seat.exchange(memory, grant);
    if found == offer.lazy {
        Bound::Won
    } else {
        Bound::Lost(found)
    }
}

/// Gives the row of a grant back whose exchange was made, and answers where the hart goes on.
#[tactic(auto, using(crate::proofs::Grants::done_ready, crate::proofs::Grants::gives_back))]
pub fn done<J: Naming>(
    memory: &Memory<J>,
    seat: &mut HartSeat<J>,
    offer: Offer,
    bound: Bound,
) -> u64
    requires offered { IsOffered seat.old offer }
    requires tried { seat.old.lane.tried ≡ Some (exchange_of (grant_read seat.old) bound) }
    requires bound { IsBound offer.lazy bound }
    ensures back { seat.new ≡ given_back (exchange_of (grant_read seat.old) bound) seat.old }
    ensures next { result ≡ leads_to offer bound }
{
    let number = seat.number();
    let won = matches!(bound, Bound::Won);
    let state = if won { 4 } else { 5 };
    seat.store_word(
        memory,
        state_word(number),
        state,
        HartKind::Finish(number, won),
    );
    match bound {
        Bound::Won => offer.value,
        Bound::Lost(found) => found,
    }
}

// Looks at the slot in the hart's row, and answers its word.
#[tactic(auto, using(crate::proofs::Grants::recalls, crate::proofs::Grants::saws, crate::proofs::Grants::saw_ready, crate::proofs::Grants::slot_at))]
fn saw<J: Naming>(memory: &Memory<J>, keeper: &mut KeeperSeat<J>, hart: u64) -> u64
    requires low { hart < 16 }
    requires lost { IsLost (row_of keeper.old hart) (grant_in (row_of keeper.old hart)) }
    requires of { IsOf (kept_at keeper.old) (place_of (row_of keeper.old hart).slot) (grant_in (row_of keeper.old hart)) }
    ensures keeper { keeper.new ≡ with_look hart (place_of (row_of keeper.old hart).slot) result keeper.old }
    ensures saw { TellsSlot keeper.old (place_of (row_of keeper.old hart).slot) result }
{
    let kind = KeeperKind::Recall(hart, RowWord::Slot);
    let slot = keeper.load_word(memory, row_word(hart, RowWord::Slot), kind);
    let at = place_at(slot);
    keeper.load_word(memory, value_word(at), KeeperKind::Saw(at as u64, hart))
}

/// What the hart's row says of its last grant, whose fate the keeper doesn't know yet. Where it is lost,
/// the grant's slot is looked at for its word.
///
/// Whoever wants to know what came of each slot's grants once all fates are known takes one
/// [`calling`](crate::calling) after the last ask: it tells that this is decided.
pub fn ask<J: Naming>(memory: &Memory<J>, keeper: &mut KeeperSeat<J>, hart: HartId) -> Asked
    requires low { hart < 16 }
    requires posted { (g : Grant) × ((row_of keeper.old hart).pending ≡ Some g) }
    ensures asked { keeper.new ≡ asked_view hart result keeper.old }
    ensures told { (state : ℕ) × Says state result × TellsAsk keeper.old hart state }
    ensures long { IsLong keeper.old }
    ensures saw { (g : Grant) → (row_of keeper.old hart).pending ≡ Some g → Saw (fated_view hart result keeper.old) g result }
{
    ask_row(memory, keeper, u64::from(hart.number()))
}

#[tactic(auto, using(crate::proofs::Grants::asks, crate::proofs::Grants::lost_state, crate::proofs::Grants::lost_view, crate::proofs::Grants::fated_tells))]
fn ask_row<J: Naming>(memory: &Memory<J>, keeper: &mut KeeperSeat<J>, hart: u64) -> Asked
    requires low { hart < 16 }
    requires posted { (g : Grant) × ((row_of keeper.old hart).pending ≡ Some g) }
    ensures asked { keeper.new ≡ asked_view hart result keeper.old }
    ensures told { (state : ℕ) × Says state result × TellsAsk keeper.old hart state }
    ensures long { IsLong keeper.old }
    ensures saw { (g : Grant) → (row_of keeper.old hart).pending ≡ Some g → Saw (fated_view hart result keeper.old) g result }
{
    let state = keeper.load_word(memory, state_word(hart), KeeperKind::Ask(hart));
    match state % 8 {
        3 => Asked::Open,
        4 => Asked::Won,
        _ => Asked::Lost(saw(memory, keeper, hart)),
    }
}
