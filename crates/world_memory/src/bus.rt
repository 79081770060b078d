//! Memory as the bus of a hart.

ghost use Rattle.rv_hart.specs.Doublewords.{DoesIn};
ghost use Rattle.world_turns.specs.Memory.{lowest};

use crate::PlainMemory;
use rv_hart::{Bus, BusFault};
use rv_isa::AmoOp;

impl Bus for PlainMemory {
    ghost does = { DoesIn lowest };

    fn fetch(&mut self, address: u64) -> Result<u32, BusFault> {
        self.word(address).fetch(address)
    }

    fn read(&mut self, address: u64, size: u8) -> Result<u64, BusFault> {
        self.word(address).read(address, size)
    }

    fn write(&mut self, address: u64, size: u8, value: u64) -> Result<(), BusFault> {
        let mut word = self.word(address);
        let answer = word.write(address, size, value);
        self.put(address, word);
        answer
    }

    fn amo(&mut self, address: u64, size: u8, op: AmoOp, value: u64) -> Result<u64, BusFault> {
        let mut word = self.word(address);
        let answer = word.amo(address, size, op, value);
        self.put(address, word);
        answer
    }

    fn reserve(&mut self, address: u64, size: u8) -> Result<(u64, u64), BusFault> {
        self.word(address).reserve(address, size)
    }

    fn conditional(
        &mut self,
        address: u64,
        size: u8,
        value: u64,
        version: u64,
    ) -> Result<bool, BusFault> {
        let mut word = self.word(address);
        let answer = word.conditional(address, size, value, version);
        self.put(address, word);
        answer
    }
}
