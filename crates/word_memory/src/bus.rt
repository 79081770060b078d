//! The memory as a hart's bus.

ghost use Rattle.std.specs.Prelude.{◌≡◌, ◌<◌};

use crate::HartSeat;
use rv_hart::{Bus, BusFault};
use rv_isa::AmoOp;
use word_steps::{Memory, Naming};

/// A memory as the bus of the hart whose seat this is.
#[derive(Drop)]
pub struct TableBus<'a, J: Naming> {
    /// The memory.
    pub memory: &'a Memory<J>,
    /// The hart's seat, whose trail has the calls.
    pub seat: &'a mut HartSeat<J>,
}

impl<'a, J: Naming> TableBus<'a, J> {
    /// The bus over a memory and a hart's seat.
    pub fn new(memory: &'a Memory<J>, seat: &'a mut HartSeat<J>) -> Self
        ensures memory { result.memory ≡ memory.entry }
        ensures seat { result.seat ≡ seat.entry }
    {
        TableBus { memory, seat }
    }
}

impl<'a, J: Naming> Bus for TableBus<'a, J> {
    ghost use Rattle.std.specs.Prelude.{◌≡◌};
    ghost use Rattle.word_access.specs.Accesses.{Calls};

    ghost does = { λ before item after. (after.seat.ghost_name ≡ before.seat.ghost_name) × Calls before.seat.now item after.seat.now };

    fn fetch(&mut self, address: u64) -> Result<u32, BusFault> {
        self.seat.fetch(self.memory, address)
    }

    fn read(&mut self, address: u64, size: u8) -> Result<u64, BusFault> {
        self.seat.read(self.memory, address, size)
    }

    fn write(&mut self, address: u64, size: u8, value: u64) -> Result<(), BusFault> {
        self.seat.write(self.memory, address, size, value)
    }

    fn amo(&mut self, address: u64, size: u8, op: AmoOp, value: u64) -> Result<u64, BusFault> {
        self.seat.amo(self.memory, address, size, op, value)
    }

    fn reserve(&mut self, address: u64, size: u8) -> Result<(u64, u64), BusFault> {
        self.seat.reserve(self.memory, address, size)
    }

    fn conditional(
        &mut self,
        address: u64,
        size: u8,
        value: u64,
        version: u64,
    ) -> Result<bool, BusFault> {
        self.seat
            .conditional(self.memory, address, size, value, version)
    }
}
