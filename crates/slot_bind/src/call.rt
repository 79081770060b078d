//! A hart's side of a call.

ghost use Rattle.std.specs.Prelude.{◌≡◌, ◌≢◌, ◌⊎◌, ◌≤◌, ℕ, true, false, Some, length};
ghost use Rattle.word_rule.specs.HartSteps.{Awaits, IsMark};
ghost use Rattle.word_rule.specs.Views.{offered, with_offered};
ghost use Rattle.word_rule.specs.declared.view.Offer.{Offer};
ghost use Rattle.slot_bind.specs.Rows.{HasRow, IsEntryOf, IsRowOf, begun, found_state, full_offer, offer_of, with_offer, with_taken};

use word_memory::{HartSeat, Memory, Naming, row_word, state_word};
use word_rule::{Entry, Grant, HartKind, RowWord};
use word_steps::COUNT;

/// Begins a call: from then on the hart's row awaits an answer.
#[tactic(auto, using(crate::proofs::Harts::begins))]
pub fn begin_call<J: Naming>(memory: &Memory<J>, seat: &mut HartSeat<J>)
    requires { seat.old.lane.calling ≡ false }
    ensures begun { seat.new ≡ begun seat.new.lane.seen seat.old }
    ensures seen { length seat.old.heard ≤ seat.new.lane.seen }
{
    let number = seat.number();
    seat.load_word(memory, COUNT, HartKind::Tally);
    seat.add_word(memory, state_word(number), 8, HartKind::Begin(number));
}

/// The state of the hart's row. Below 8 it is the mark of an entry: 1, 2, 3 or 6, and the row is the
/// hart's own; else the row awaits an answer: 8, 12 or 13. A row that was found its own has its mark still.
#[tactic(auto, using(crate::proofs::Harts::arrives, crate::proofs::Harts::arrived_again))]
pub fn arrived<J: Naming>(memory: &Memory<J>, seat: &mut HartSeat<J>) -> u64
    requires { seat.old.lane.calling ≡ true }
    ensures found { seat.new ≡ found_state result seat.old }
    ensures mark { Awaits result ⊎ IsMark result }
    ensures again { (o : Offer) → seat.old.lane.offer ≡ Some o → result ≡ o.mark }
{
    let number = seat.number();
    seat.load_word(memory, state_word(number), HartKind::Arrive(number))
}

// The mark of the row that the hart found its own.
#[tactic(auto, using(crate::proofs::Harts::arrives_again, crate::proofs::Harts::mark_low, crate::proofs::Harts::row_calls))]
fn mark_of<J: Naming>(memory: &Memory<J>, seat: &mut HartSeat<J>) -> u8
    requires { HasRow seat.old }
    ensures view { seat.new ≡ seat.old }
    ensures mark { result ≡ (offer_of seat.old).mark }
{
    let number = seat.number();
    let state = seat.load_word(memory, state_word(number), HartKind::Arrive(number));
    state as u8
}

// Reads a word of the hart's row, which is the one that was read where it was read before.
#[tactic(auto, using(crate::proofs::Harts::finds, crate::proofs::Harts::find_ready))]
pub(crate) fn find<J: Naming>(memory: &Memory<J>, seat: &mut HartSeat<J>, word: RowWord) -> u64
    requires { HasRow seat.old }
    ensures view { seat.new ≡ with_offer (with_offered word result (offer_of seat.old)) seat.old }
    ensures again { (x : ℕ) → offered word (offer_of seat.old) ≡ Some x → result ≡ x }
{
    let number = seat.number();
    seat.load_word(memory, row_word(number, word), HartKind::Find(number, word))
}

/// Reads the row that the hart found its own: its entry, and a grant's lazy word. It stays the hart's.
pub fn read_row<J: Naming>(memory: &Memory<J>, seat: &mut HartSeat<J>) -> Grant
    requires { HasRow seat.old }
    ensures read { seat.new ≡ with_offer (full_offer result) seat.old }
    ensures row { IsRowOf (offer_of seat.old) result }
{
    let mark = mark_of(memory, seat);
    let number = find(memory, seat, RowWord::Number);
    let slot = find(memory, seat, RowWord::Slot);
    let lazy = find(memory, seat, RowWord::Lazy);
    let value = find(memory, seat, RowWord::Value);
    let generation = find(memory, seat, RowWord::Generation);
    Grant {
        entry: Entry {
            mark,
            number,
            slot,
            value,
            generation,
        },
        lazy,
    }
}

/// Takes the entry of the row that the hart found its own, which isn't a grant, and gives the row back.
#[tactic(auto, using(crate::proofs::Harts::accepts, crate::proofs::Harts::accept_ready))]
pub fn accept<J: Naming>(memory: &Memory<J>, seat: &mut HartSeat<J>) -> Entry
    requires row { HasRow seat.old }
    requires mark { (offer_of seat.old).mark ≢ 3 }
    ensures taken { seat.new ≡ with_taken result seat.old }
    ensures entry { IsEntryOf (offer_of seat.old) result }
{
    let row = read_row(memory, seat);
    let number = seat.number();
    let kind = HartKind::Accept(number, row.entry);
    seat.store_word(memory, state_word(number), 0, kind);
    row.entry
}
