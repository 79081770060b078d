//! The memory that a hart works on.

use ld_base::{Role, Shown};
use rv_isa::AmoOp;

/// Why a bus doesn't do what it is asked.
#[derive(Clone, Copy, Debug, PartialEq, Eq)]
pub enum BusFault {
    /// The role of the doubleword, which isn't one for this access.
    Role(Role),
    /// The address is no multiple of the size.
    Misaligned,
    /// The doubleword is changing: the access is to be tried again.
    Again(Shown),
}

/// A call of a bus: what it was asked, in the order of the call's parameters, and what it answered.
#[derive(Clone, Copy, Debug, PartialEq, Eq)]
pub enum Item {
    Fetch(u64, Result<u32, BusFault>),
    Read(u64, u8, Result<u64, BusFault>),
    Write(u64, u8, u64, Result<(), BusFault>),
    Amo(u64, u8, AmoOp, u64, Result<u64, BusFault>),
    Reserve(u64, u8, Result<(u64, u64), BusFault>),
    Conditional(u64, u8, u64, u64, Result<bool, BusFault>),
}

/// A memory, as a hart sees it: it says of each call what the call found and did, and nothing of
/// what memory holds between two calls, since other harts may change it then.
///
/// Addresses are bytes. A size is 1, 2, 4 or 8 bytes, that of an access in one step 4 or 8, and
/// values are numbers of so many bytes.
pub trait Bus {
    ghost use Rattle.std.specs.Prelude.{◌<◌, ◌*◌, ◌^◌, IfOk};
    ghost use Rattle.rv_isa.specs.Encoding.{IsAtomicSize};
    ghost use Rattle.rv_hart.specs.declared.bus.Item.{Item};
    ghost use Rattle.rv_hart.specs.Buses.{IsSize, Permits, may_fetch, may_read, may_write, HasValue};

    /// The bus before a call, the call, and the bus after it.
    ghost does: { Self → Item → Self → Type 0 };

    /// The instruction's word at an address, of an executable doubleword.
    fn fetch(&mut self, address: u64) -> Result<u32, BusFault>
        ensures did { does self.old (Item.Fetch address result) self.new }
        ensures permits { Permits may_fetch address 4 result };

    /// The value at an address, of a doubleword that may be read.
    fn read(&mut self, address: u64, size: u8) -> Result<u64, BusFault>
        requires { IsSize size }
        ensures did { does self.old (Item.Read address size result) self.new }
        ensures permits { Permits may_read address size result }
        ensures bound { HasValue size result };

    /// Stores a value at an address, in a doubleword that may be written.
    fn write(&mut self, address: u64, size: u8, value: u64) -> Result<(), BusFault>
        requires size { IsSize size }
        requires value { value < 2 ^ (8 * size) }
        ensures did { does self.old (Item.Write address size value result) self.new }
        ensures permits { Permits may_write address size result };

    /// Stores in one step what an operation makes of the value found and this one, and answers the
    /// value found.
    fn amo(&mut self, address: u64, size: u8, op: AmoOp, value: u64) -> Result<u64, BusFault>
        requires size { IsAtomicSize size }
        requires value { value < 2 ^ (8 * size) }
        ensures did { does self.old (Item.Amo address size op value result) self.new }
        ensures permits { Permits may_write address size result }
        ensures bound { HasValue size result };

    /// The value at an address, and the version of its doubleword.
    fn reserve(&mut self, address: u64, size: u8) -> Result<(u64, u64), BusFault>
        requires { IsAtomicSize size }
        ensures did { does self.old (Item.Reserve address size result) self.new }
        ensures permits { Permits may_read address size result }
        ensures bound { IfOk result (λ found. found.0 < 2 ^ (8 * size)) };

    /// Stores a value where the doubleword still has the version, and answers whether it did.
    fn conditional(
        &mut self,
        address: u64,
        size: u8,
        value: u64,
        version: u64,
    ) -> Result<bool, BusFault>
        requires size { IsAtomicSize size }
        requires value { value < 2 ^ (8 * size) }
        ensures did { does self.old (Item.Conditional address size value version result) self.new }
        ensures permits { Permits may_write address size result };
}
