//! The keeper's seat in the middle of a call: its steps, one by one.

ghost use Rattle.std.specs.Prelude.{◌≡◌, ◌<◌, ◌+◌, [], length};
ghost use Rattle.word_rule.specs.Layout.{table_words};
ghost use Rattle.word_rule.specs.Operations.{load, store, exchange, add};
ghost use Rattle.word_rule.specs.KeeperSteps.{KeeperLearns, KeeperReady, heeding, keeper_after, keeper_op, keeper_word};
ghost use Rattle.word_rule.specs.declared.view.View.TheVariants.{Keeper};
ghost use Rattle.word_rule.specs.Joining.{MayTake, note_of, takes_in};
ghost use Rattle.word_rule.specs.Views.{IsLong, first_hart};
ghost use Rattle.word_steps.specs.Knowing.{counted, with_joined};
ghost use Rattle.word_steps.specs.Views.{keeper_of};

use crate::hand::Hand;
use crate::layout::COUNT;
use crate::memory::seats::{join_seat, split_hart, split_note};
use crate::memory::steps::{add_as, exchange_as, load_as, store_as};
use crate::trails::Trails;
use crate::{Memory, Naming};
use atomic_table::Seat;
use history_event::Event;
use std::marker::{Brand, Model, PhantomData};
use std::snapshot::Snapshot;
use word_rule::{KeeperKind, View};

/// Contracts see it as its view.
#[derive(Drop)]
pub struct Desk<J: Naming> {
    seat: Seat<(), View>,
    of: PhantomData<J>,
}

impl<J: Naming> Model for Desk<J> {
    ghost use Rattle.std.specs.Prelude.{◌≡◌, []};
    ghost use Rattle.word_rule.specs.declared.view.KeeperView.{KeeperView};
    ghost use Rattle.word_rule.specs.declared.view.View.TheVariants.{Keeper};
    ghost use Rattle.word_rule.specs.Views.{IsLong};
    ghost use Rattle.word_steps.specs.Views.{keeper_of};

    ghost Value = { KeeperView };

    ghost view = { λ s. keeper_of s.seat.me.0 };

    ghost invariant = { λ s. (s.seat.table_id ≡ J.table) × (s.seat.me ≡ (Keeper (keeper_of s.seat.me.0), [])) × IsLong (keeper_of s.seat.me.0) };
}

impl<J: Naming> Desk<J> {
    /// Loads a word.
    pub fn load_word(&mut self, memory: &Memory<J>, word: usize, kind: KeeperKind) -> u64
        requires word { (word ≡ keeper_word kind) × (word < table_words) }
        requires kind { keeper_op kind ≡ load }
        requires ready { KeeperReady kind self.old }
        ensures view { self.new ≡ keeper_after kind self.old result }
        ensures learns { KeeperLearns kind self.old result }
        ensures long { IsLong self.old }
    {
        load_as::<J, Brand, KeeperKind>(memory, &mut self.seat, word, &kind)
    }

    /// Stores a number in a word.
    pub fn store_word(&mut self, memory: &Memory<J>, word: usize, new: u64, kind: KeeperKind)
        requires word { (word ≡ keeper_word kind) × (word < table_words) }
        requires kind { keeper_op kind ≡ store new }
        requires ready { KeeperReady kind self.old }
        ensures view { self.new ≡ keeper_after kind self.old new }
        ensures learns { KeeperLearns kind self.old new }
        ensures long { IsLong self.old }
    {
        store_as::<J, Brand, KeeperKind>(memory, &mut self.seat, word, new, &kind)
    }

    /// Stores `new` in a word that is `old`.
    pub fn exchange_word(
        &mut self,
        memory: &Memory<J>,
        word: usize,
        old: u64,
        new: u64,
        kind: KeeperKind,
    ) -> u64
        requires word { (word ≡ keeper_word kind) × (word < table_words) }
        requires kind { keeper_op kind ≡ exchange old new }
        requires ready { KeeperReady kind self.old }
        ensures view { self.new ≡ keeper_after kind self.old result }
        ensures learns { KeeperLearns kind self.old result }
    {
        exchange_as::<J, Brand, KeeperKind>(memory, &mut self.seat, word, old, new, &kind)
    }

    /// Adds to a word.
    pub fn add_word(&mut self, memory: &Memory<J>, word: usize, more: u64, kind: KeeperKind) -> u64
        requires word { (word ≡ keeper_word kind) × (word < table_words) }
        requires kind { keeper_op kind ≡ add more }
        requires ready { KeeperReady kind self.old }
        ensures view { self.new ≡ keeper_after kind self.old result }
        ensures learns { KeeperLearns kind self.old result }
    {
        add_as::<J, Brand, KeeperKind>(memory, &mut self.seat, word, more, &kind)
    }

    /// Counts an event.
    pub fn count(&mut self, memory: &Memory<J>, event: &Event)
        requires { length self.old.events < 18446744073709551615 }
        ensures { self.new ≡ heeding (counted event.now self.old) }
    {
        self.add_word(memory, COUNT, 1, KeeperKind::Count(Snapshot::of(event)));
    }

    /// The first seat of a memory.
    pub(crate) fn new(seat: Seat<(), View>) -> Self
        requires table { seat.table_id ≡ J.table }
        requires keeper { seat.me ≡ (Keeper (keeper_of seat.me.0), []) }
        requires long { IsLong (keeper_of seat.me.0) }
        ensures { result ≡ keeper_of seat.me.0 }
    {
        Desk {
            seat,
            of: PhantomData,
        }
    }

    /// The seat of the next hart.
    pub fn split_hart(&mut self, memory: &Memory<J>) -> Hand<J>
        requires { self.old.harts < 16 }
        ensures keeper { self.new ≡ record self.old { harts = self.old.harts + 1 } }
        ensures hart { result ≡ first_hart self.old.harts }
    {
        Hand::new(split_hart(memory, &mut self.seat))
    }

    /// A note of what it knows.
    pub(crate) fn note(&mut self, memory: &Memory<J>) -> Seat<(), View>
        ensures seat { self.new ≡ self.old }
        ensures note { (result.table_id ≡ J.table) × (result.me ≡ (note_of (Keeper self.old), [])) }
    {
        split_note(memory, &mut self.seat)
    }

    /// Takes in a hart's seat or a note.
    pub(crate) fn take(&mut self, memory: &Memory<J>, other: Seat<(), View>)
        requires table { (other.table_id ≡ J.table) × (other.me.1 ≡ []) }
        requires may { MayTake (Keeper self.old) other.me.0 }
        ensures { self.new ≡ keeper_of (takes_in (Keeper self.old) other.me.0) }
    {
        join_seat(memory, &mut self.seat, other);
    }

    /// What it knows, without the memory's name.
    pub fn into_trails(self) -> Trails
        ensures { result ≡ self }
    {
        let Desk { seat, of: _ } = self;
        Trails::new(seat)
    }

    /// Joins a hart's seat, whose last view it keeps.
    pub fn join(&mut self, memory: &Memory<J>, hand: Hand<J>)
        ensures { self.new ≡ with_joined hand self.old }
    {
        self.take(memory, hand.into_seat());
    }
}
