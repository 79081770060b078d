//! A hart's seat between its accesses.

ghost use Rattle.std.specs.Prelude.{◌≡◌, ◌<◌, ◌*◌, ◌^◌, IfOk};
ghost use Rattle.rv_isa.specs.Encoding.{IsAtomicSize};
ghost use Rattle.rv_hart.specs.Buses.{HasValue, IsSize, Permits, may_fetch, may_read, may_write};
ghost use Rattle.word_rule.specs.declared.view.TrailItem.TheVariants.{Generation as ReadGeneration};
ghost use Rattle.word_rule.specs.HartSteps.{HartLearns, HartLeaves, HartReady, entered, hart_after, hart_op, hart_word};
ghost use Rattle.word_rule.specs.Layout.{table_words};
ghost use Rattle.word_rule.specs.Operations.{load, store, add};
ghost use Rattle.word_rule.specs.Views.{IsLane, NoneLater, known_of, last_block};
ghost use Rattle.word_access.specs.Accesses.{Calls};
ghost use Rattle.word_steps.specs.Views.{IsIdle};

use rv_hart::{BusFault, Item};
use rv_isa::AmoOp;
use std::marker::Model;
use word_access::{amo, conditional, exchange, fetch, read, reserve, write};
use word_rule::{Grant, HartKind};
use word_steps::{GENERATION, Hand, Memory, Naming};

/// A hart's seat at a memory. Contracts see it as its view: what the hart knows, and its trail.
#[derive(Drop)]
pub struct HartSeat<J: Naming> {
    pub(crate) hand: Hand<J>,
    number: u64,
}

impl<J: Naming> Model for HartSeat<J> {
    ghost use Rattle.word_rule.specs.declared.view.HartView.{HartView};
    ghost use Rattle.std.specs.Prelude.{◌≡◌, ◌<◌};
    ghost use Rattle.word_rule.specs.Views.{IsLane};
    ghost use Rattle.word_steps.specs.Views.{IsIdle};

    ghost Value = { HartView };

    ghost view = { λ s. s.hand };

    ghost invariant = { λ s. (s.number ≡ s.hand.number) × (s.number < 16) × IsIdle s.hand × IsLane s.hand.lane };
}

/// The generation of the TLS modules. The trail gets it with the number of a module, and with the block
/// of the last answer taken for both. No entry that the hart knows of is of a later generation.
pub fn generation<J: Naming>(memory: &Memory<J>, seat: &mut HartSeat<J>, number: u64) -> u64
    ensures view { seat.new ≡ entered (ReadGeneration result number (last_block result number seat.old.lane.taken)) seat.old }
    ensures latest { NoneLater result (known_of seat.old.lane) }
{
    seat.hand
        .load_word(memory, GENERATION, HartKind::Generation(number))
}

impl<J: Naming> HartSeat<J> {
    /// A hart's seat between its accesses.
    pub(crate) fn new(hand: Hand<J>, number: u64) -> Self
        requires number { (number ≡ hand.number) × (number < 16) }
        requires seated { IsIdle hand × IsLane hand.lane }
        ensures { result ≡ hand }
    {
        HartSeat { hand, number }
    }

    /// The seat in the middle of an access, to be joined into the keeper's.
    pub(crate) fn into_hand(self) -> Hand<J>
        ensures { result ≡ self }
    {
        let HartSeat { hand, number: _ } = self;
        hand
    }

    /// The hart's number.
    pub fn number(&self) -> u64
        ensures number { result ≡ self.now.number }
        ensures low { result < 16 }
        ensures lane { IsLane self.now.lane }
    {
        self.number
    }

    /// Loads a word, for a step that locks nothing.
    pub fn load_word(&mut self, memory: &Memory<J>, word: usize, kind: HartKind) -> u64
        requires word { (word ≡ hart_word kind) × (word < table_words) }
        requires kind { hart_op kind ≡ load }
        requires leaves { HartLeaves kind }
        requires ready { HartReady kind self.old }
        ensures view { self.new ≡ hart_after kind self.old result }
        ensures learns { HartLearns kind self.old result }
        ensures seated { IsIdle self.old × IsLane self.old.lane }
    {
        self.hand.load_word(memory, word, kind)
    }

    /// Stores a number in a word, for a step that locks nothing.
    pub fn store_word(&mut self, memory: &Memory<J>, word: usize, new: u64, kind: HartKind)
        requires word { (word ≡ hart_word kind) × (word < table_words) }
        requires kind { hart_op kind ≡ store new }
        requires leaves { HartLeaves kind }
        requires ready { HartReady kind self.old }
        ensures view { self.new ≡ hart_after kind self.old new }
        ensures learns { HartLearns kind self.old new }
        ensures seated { IsIdle self.old × IsLane self.old.lane }
    {
        self.hand.store_word(memory, word, new, kind)
    }

    /// Exchanges the slot of the grant that it has read, and answers the word found.
    pub fn exchange(&mut self, memory: &Memory<J>, grant: Grant) -> u64
        requires { HartReady (HartKind.Exchange grant) self.old }
        ensures view { self.new ≡ hart_after (HartKind.Exchange grant) self.old result }
        ensures seated { IsIdle self.old × IsLane self.old.lane }
    {
        exchange(memory, &mut self.hand, grant)
    }

    /// Adds to a word, for a step that locks nothing.
    pub fn add_word(&mut self, memory: &Memory<J>, word: usize, more: u64, kind: HartKind) -> u64
        requires word { (word ≡ hart_word kind) × (word < table_words) }
        requires kind { hart_op kind ≡ add more }
        requires leaves { HartLeaves kind }
        requires ready { HartReady kind self.old }
        ensures view { self.new ≡ hart_after kind self.old result }
        ensures learns { HartLearns kind self.old result }
        ensures seated { IsIdle self.old × IsLane self.old.lane }
    {
        self.hand.add_word(memory, word, more, kind)
    }

    pub(crate) fn fetch(&mut self, memory: &Memory<J>, address: u64) -> Result<u32, BusFault>
        ensures calls { Calls self.old (Item.Fetch address result) self.new }
        ensures permits { Permits may_fetch address 4 result }
    {
        fetch(memory, &mut self.hand, address)
    }

    pub(crate) fn read(
        &mut self,
        memory: &Memory<J>,
        address: u64,
        size: u8,
    ) -> Result<u64, BusFault>
        requires { IsSize size }
        ensures calls { Calls self.old (Item.Read address size result) self.new }
        ensures permits { Permits may_read address size result }
        ensures bound { HasValue size result }
    {
        read(memory, &mut self.hand, address, size)
    }

    pub(crate) fn reserve(
        &mut self,
        memory: &Memory<J>,
        address: u64,
        size: u8,
    ) -> Result<(u64, u64), BusFault>
        requires { IsAtomicSize size }
        ensures calls { Calls self.old (Item.Reserve address size result) self.new }
        ensures permits { Permits may_read address size result }
        ensures bound { IfOk result (λ found. found.0 < 2 ^ (8 * size)) }
    {
        reserve(memory, &mut self.hand, address, size)
    }

    pub(crate) fn write(
        &mut self,
        memory: &Memory<J>,
        address: u64,
        size: u8,
        value: u64,
    ) -> Result<(), BusFault>
        requires size { IsSize size }
        requires value { value < 2 ^ (8 * size) }
        ensures calls { Calls self.old (Item.Write address size value result) self.new }
        ensures permits { Permits may_write address size result }
    {
        write(memory, &mut self.hand, address, size, value)
    }

    pub(crate) fn amo(
        &mut self,
        memory: &Memory<J>,
        address: u64,
        size: u8,
        op: AmoOp,
        value: u64,
    ) -> Result<u64, BusFault>
        requires size { IsAtomicSize size }
        requires value { value < 2 ^ (8 * size) }
        ensures calls { Calls self.old (Item.Amo address size op value result) self.new }
        ensures permits { Permits may_write address size result }
        ensures bound { HasValue size result }
    {
        amo(memory, &mut self.hand, address, size, op, value)
    }

    pub(crate) fn conditional(
        &mut self,
        memory: &Memory<J>,
        address: u64,
        size: u8,
        value: u64,
        version: u64,
    ) -> Result<bool, BusFault>
        requires size { IsAtomicSize size }
        requires value { value < 2 ^ (8 * size) }
        ensures calls { let call = Item.Conditional address size value version result in Calls self.old call self.new }
        ensures permits { Permits may_write address size result }
    {
        conditional(memory, &mut self.hand, address, size, value, version)
    }
}
