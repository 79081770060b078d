//! The keeper's side of a call.

ghost use Rattle.std.specs.Prelude.{◌≡◌, ◌<◌, ℕ, nat_le};
ghost use Rattle.word_rule.specs.declared.view.HartView.{HartView};
ghost use Rattle.word_rule.specs.KeeperSteps.{AreDecided, AreJoinedOnce, HasEnded, HasTakenAll, awaited_if, with_row};
ghost use Rattle.word_rule.specs.Views.{IsLong, row_of, with_field};
ghost use Rattle.word_steps.specs.Views.{IsResting};
ghost use Rattle.slot_bind.specs.Grants.{MayPost, grant_of, posted};
ghost use Rattle.slot_bind.specs.Rows.{IsWaiting, MayHand, handed_over, row_with};

use history_event::Offer;
use ld_base::HartId;
use word_memory::{KeeperSeat, Memory, Naming, row_word, state_word};
use word_rule::{Entry, KeeperKind, RowWord};
use word_steps::GENERATION;

/// Whether the hart is calling. The keeper's view then knows it.
pub fn calling<J: Naming>(memory: &Memory<J>, keeper: &mut KeeperSeat<J>, hart: HartId) -> bool
    requires { hart < 16 }
    ensures known { keeper.new ≡ awaited_if hart result keeper.old }
    ensures ended { (state : ℕ) × (result ≡ nat_le 8 state) × ((h : HartView) → HasEnded keeper.old hart h → HasTakenAll keeper.old hart state h) }
    ensures slots { AreDecided keeper.old }
    ensures joined { AreJoinedOnce keeper.old }
    ensures long { IsLong keeper.old }
{
    await_row(memory, keeper, u64::from(hart.number())) >= 8
}

#[tactic(auto, using(crate::proofs::Rows::awaits))]
fn await_row<J: Naming>(memory: &Memory<J>, keeper: &mut KeeperSeat<J>, hart: u64) -> u64
    requires { hart < 16 }
    ensures known { keeper.new ≡ awaited_if hart (nat_le 8 result) keeper.old }
    ensures ended { (h : HartView) → HasEnded keeper.old hart h → HasTakenAll keeper.old hart result h }
    ensures slots { AreDecided keeper.old }
    ensures joined { AreJoinedOnce keeper.old }
    ensures long { IsLong keeper.old }
{
    keeper.load_word(memory, state_word(hart), KeeperKind::Await(hart))
}

// Stores a word of a hart's row.
#[tactic(auto, using(crate::proofs::Rows::fills, crate::proofs::Rows::waits_on))]
fn fill<J: Naming>(
    memory: &Memory<J>,
    keeper: &mut KeeperSeat<J>,
    hart: u64,
    word: RowWord,
    value: u64,
)
    requires low { hart < 16 }
    requires waits { IsWaiting keeper.old hart }
    ensures row { keeper.new ≡ with_row hart (with_field word value (row_of keeper.old hart)) keeper.old }
    ensures waits { IsWaiting keeper.new hart }
    ensures resting { IsResting keeper.old × IsLong keeper.old }
{
    let kind = KeeperKind::Fill(hart, word, value);
    keeper.store_word(memory, row_word(hart, word), value, kind);
}

// Stores an entry's words in a hart's row.
#[tactic(auto, using(crate::proofs::Rows::writes))]
fn write_entry<J: Naming>(memory: &Memory<J>, keeper: &mut KeeperSeat<J>, hart: u64, entry: Entry)
    requires low { hart < 16 }
    requires waits { IsWaiting keeper.old hart }
    ensures row { keeper.new ≡ with_row hart (row_with entry (row_of keeper.old hart)) keeper.old }
    ensures resting { IsResting keeper.old × IsLong keeper.old }
{
    fill(memory, keeper, hart, RowWord::Number, entry.number);
    fill(memory, keeper, hart, RowWord::Slot, entry.slot);
    fill(memory, keeper, hart, RowWord::Value, entry.value);
    fill(memory, keeper, hart, RowWord::Generation, entry.generation);
}

/// Hands an entry that isn't a grant over to the hart.
pub fn hand<J: Naming>(memory: &Memory<J>, keeper: &mut KeeperSeat<J>, hart: HartId, entry: Entry)
    requires low { hart < 16 }
    requires may { MayHand keeper.old hart entry }
    ensures handed { keeper.new ≡ handed_over hart entry keeper.old }
    ensures long { IsLong keeper.old }
{
    hand_row(memory, keeper, u64::from(hart.number()), entry);
}

#[tactic(auto, using(crate::proofs::Rows::hand_ready))]
fn hand_row<J: Naming>(memory: &Memory<J>, keeper: &mut KeeperSeat<J>, hart: u64, entry: Entry)
    requires low { hart < 16 }
    requires may { MayHand keeper.old hart entry }
    ensures handed { keeper.new ≡ handed_over hart entry keeper.old }
    ensures long { IsLong keeper.old }
{
    write_entry(memory, keeper, hart, entry);
    let kind = KeeperKind::Hand(hart, entry.mark);
    keeper.store_word(memory, state_word(hart), u64::from(entry.mark), kind);
}

/// Opens the hart's row with a grant, which is the offer at the keeper's generation.
pub fn post<J: Naming>(memory: &Memory<J>, keeper: &mut KeeperSeat<J>, hart: HartId, offer: &Offer)
    requires low { hart < 16 }
    requires may { MayPost keeper.old hart offer.now }
    ensures posted { keeper.new ≡ posted hart (grant_of offer.now keeper.old.generation) keeper.old }
    ensures long { IsLong keeper.old }
{
    open_row(memory, keeper, u64::from(hart.number()), offer);
}

#[tactic(auto, using(crate::proofs::Rows::open_ready))]
fn open_row<J: Naming>(memory: &Memory<J>, keeper: &mut KeeperSeat<J>, hart: u64, offer: &Offer)
    requires low { hart < 16 }
    requires may { MayPost keeper.old hart offer.now }
    ensures posted { keeper.new ≡ posted hart (grant_of offer.now keeper.old.generation) keeper.old }
    ensures long { IsLong keeper.old }
{
    let generation = keeper.load_word(memory, GENERATION, KeeperKind::RecallGeneration);
    let entry = Entry {
        mark: 3,
        number: offer.event,
        slot: offer.slot,
        value: offer.value,
        generation,
    };
    write_entry(memory, keeper, hart, entry);
    fill(memory, keeper, hart, RowWord::Lazy, offer.lazy);
    keeper.store_word(memory, state_word(hart), 3, KeeperKind::Open(hart));
}
