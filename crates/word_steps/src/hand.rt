//! A hart's seat in the middle of an access: its steps, one by one.

ghost use Rattle.std.specs.Prelude.{◌≡◌, ◌<◌, []};
ghost use Rattle.word_rule.specs.Layout.{table_words};
ghost use Rattle.word_rule.specs.Operations.{load, store, exchange, add};
ghost use Rattle.word_rule.specs.declared.view.View.TheVariants.{Hart};
ghost use Rattle.word_rule.specs.Joining.{MayTake, note_of, takes_in};
ghost use Rattle.word_steps.specs.Views.{hart_of};
ghost use Rattle.word_rule.specs.HartSteps.{HartLearns, HartReady, hart_after, hart_op, hart_word};

use crate::memory::seats::{join_seat, split_note};
use crate::memory::steps::{add_as, exchange_as, load_as, store_as};
use crate::{Memory, Naming};
use atomic_table::Seat;
use std::marker::{Brand, Model, PhantomData};
use word_rule::{HartKind, View};

/// Contracts see it as its view.
#[derive(Drop)]
pub struct Hand<J: Naming> {
    seat: Seat<(), View>,
    of: PhantomData<J>,
}

impl<J: Naming> Model for Hand<J> {
    ghost use Rattle.std.specs.Prelude.{◌≡◌, []};
    ghost use Rattle.word_rule.specs.declared.view.HartView.{HartView};
    ghost use Rattle.word_rule.specs.declared.view.View.TheVariants.{Hart};
    ghost use Rattle.word_steps.specs.Views.{hart_of};

    ghost Value = { HartView };

    ghost view = { λ s. hart_of s.seat.me.0 };

    ghost invariant = { λ s. (s.seat.table_id ≡ J.table) × (s.seat.me ≡ (Hart (hart_of s.seat.me.0), [])) };
}

impl<J: Naming> Hand<J> {
    /// Loads a word.
    pub fn load_word(&mut self, memory: &Memory<J>, word: usize, kind: HartKind) -> u64
        requires word { (word ≡ hart_word kind) × (word < table_words) }
        requires kind { hart_op kind ≡ load }
        requires ready { HartReady kind self.old }
        ensures view { self.new ≡ hart_after kind self.old result }
        ensures learns { HartLearns kind self.old result }
    {
        load_as::<J, Brand, HartKind>(memory, &mut self.seat, word, &kind)
    }

    /// Stores a number in a word.
    pub fn store_word(&mut self, memory: &Memory<J>, word: usize, new: u64, kind: HartKind)
        requires word { (word ≡ hart_word kind) × (word < table_words) }
        requires kind { hart_op kind ≡ store new }
        requires ready { HartReady kind self.old }
        ensures view { self.new ≡ hart_after kind self.old new }
        ensures learns { HartLearns kind self.old new }
    {
        store_as::<J, Brand, HartKind>(memory, &mut self.seat, word, new, &kind)
    }

    /// Stores `new` in a word that is `old`.
    pub fn exchange_word(
        &mut self,
        memory: &Memory<J>,
        word: usize,
        old: u64,
        new: u64,
        kind: HartKind,
    ) -> u64
        requires word { (word ≡ hart_word kind) × (word < table_words) }
        requires kind { hart_op kind ≡ exchange old new }
        requires ready { HartReady kind self.old }
        ensures view { self.new ≡ hart_after kind self.old result }
        ensures learns { HartLearns kind self.old result }
    {
        exchange_as::<J, Brand, HartKind>(memory, &mut self.seat, word, old, new, &kind)
    }

    /// Adds to a word.
    pub fn add_word(&mut self, memory: &Memory<J>, word: usize, more: u64, kind: HartKind) -> u64
        requires word { (word ≡ hart_word kind) × (word < table_words) }
        requires kind { hart_op kind ≡ add more }
        requires ready { HartReady kind self.old }
        ensures view { self.new ≡ hart_after kind self.old result }
        ensures learns { HartLearns kind self.old result }
    {
        add_as::<J, Brand, HartKind>(memory, &mut self.seat, word, more, &kind)
    }

    /// The seat of a hart that has done nothing yet.
    pub(crate) fn new(seat: Seat<(), View>) -> Self
        requires table { seat.table_id ≡ J.table }
        requires hart { seat.me ≡ (Hart (hart_of seat.me.0), []) }
        ensures { result ≡ hart_of seat.me.0 }
    {
        Hand {
            seat,
            of: PhantomData,
        }
    }

    /// The seat, to be joined into the keeper's.
    pub(crate) fn into_seat(self) -> Seat<(), View>
        ensures { (result.table_id ≡ J.table) × (result.me ≡ (Hart self, [])) }
    {
        let Hand { seat, of: _ } = self;
        seat
    }

    /// A note of what it knows.
    pub(crate) fn note(&mut self, memory: &Memory<J>) -> Seat<(), View>
        ensures seat { self.new ≡ self.old }
        ensures note { (result.table_id ≡ J.table) × (result.me ≡ (note_of (Hart self.old), [])) }
    {
        split_note(memory, &mut self.seat)
    }

    /// Takes in a note.
    pub(crate) fn take(&mut self, memory: &Memory<J>, other: Seat<(), View>)
        requires table { (other.table_id ≡ J.table) × (other.me.1 ≡ []) }
        requires may { MayTake (Hart self.old) other.me.0 }
        ensures { self.new ≡ hart_of (takes_in (Hart self.old) other.me.0) }
    {
        join_seat(memory, &mut self.seat, other);
    }
}
