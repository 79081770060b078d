//! A doubleword of memory: its bytes, its role and its version.

ghost use Rattle.std.specs.Prelude.{◌≡◌, ◌*◌, ◌%◌, ◌<◌, ◌^◌, IfOk};
ghost use Rattle.rv_isa.specs.Encoding.{IsAtomicSize};
ghost use Rattle.rv_hart.specs.Buses.{IsSize, Permits, HasValue, may_fetch, may_read, may_write};
ghost use Rattle.rv_hart.specs.Doublewords.{lane, with_lane, refusal, stored, DoesAt};

use crate::arithmetic::{combined, low_bytes};
use crate::{BusFault, Item};
use ld_base::Role;
use rv_isa::AmoOp;

/// A version counts modulo this.
const VERSIONS: u64 = 1 << 60;

/// What memory holds at an address that is a multiple of 8.
#[derive(Clone, Copy, Debug, PartialEq, Eq)]
pub struct Doubleword {
    pub value: u64,
    pub role: Role,
    /// It rises with each store, and with each mapping and unmapping, modulo 2^60.
    pub version: u64,
}

/// The `size` bytes at an address, of the doubleword that holds them, the lowest first.
#[tactic(auto, unfolding(crate::specs::Doublewords::lane, rv_isa::specs::Word::bits))]
pub fn lane(word: u64, address: u64, size: u8) -> u64
    requires size { IsSize size }
    requires aligned { address % size ≡ 0 }
    ensures value { result ≡ lane word address size }
    ensures bound { result < 2 ^ (8 * size) }
{
    low_bytes(size, word >> (8 * (address % 8)))
}

/// A doubleword with other bytes at an address: the lowest `size` of `value`, which is a number of
/// so many bytes.
#[tactic(auto, unfolding(crate::specs::Doublewords::with_lane))]
pub fn with_lane(word: u64, address: u64, size: u8, value: u64) -> u64
    requires size { IsSize size }
    requires aligned { address % size ≡ 0 }
    requires value { value < 2 ^ (8 * size) }
    ensures { result ≡ with_lane word address size value }
{
    if size == 8 {
        return value;
    }
    let low = 8 * (address % 8);
    let width = 8 * u64::from(size);
    let above = word >> low >> width;
    (above << width | value) << low | word & ((1 << low) - 1)
}

fn may_fetch(role: Role) -> bool
    ensures { result ≡ may_fetch role }
{
    role == Role::Rx
}

fn may_read(role: Role) -> bool
    ensures { result ≡ may_read role }
{
    role != Role::None
}

fn may_write(role: Role) -> bool
    ensures { result ≡ may_write role }
{
    role == Role::Rw
}

// Why a call may not do what it asks: its address isn't aligned, or the role doesn't allow it.
fn refusal(allowed: bool, address: u64, size: u8, role: Role) -> Option<BusFault>
    requires { IsSize size }
    ensures { result ≡ refusal allowed address size role }
{
    if address % u64::from(size) != 0 {
        Some(BusFault::Misaligned)
    } else if allowed {
        None
    } else {
        Some(BusFault::Role(role))
    }
}

impl Doubleword {
    /// A doubleword that isn't there.
    pub const NOWHERE: Doubleword = Doubleword {
        value: 0,
        role: Role::None,
        version: 0,
    };

    /// The instruction's word at an address.
    pub fn fetch(&self, address: u64) -> Result<u32, BusFault>
        ensures did { DoesAt self.now (Item.Fetch address result) self.now }
        ensures permits { Permits may_fetch address 4 result }
    {
        if let Some(fault) = refusal(may_fetch(self.role), address, 4, self.role) {
            return Err(fault);
        }
        Ok(lane(self.value, address, 4) as u32)
    }

    /// The value at an address.
    pub fn read(&self, address: u64, size: u8) -> Result<u64, BusFault>
        requires { IsSize size }
        ensures did { DoesAt self.now (Item.Read address size result) self.now }
        ensures permits { Permits may_read address size result }
        ensures bound { HasValue size result }
    {
        if let Some(fault) = refusal(may_read(self.role), address, size, self.role) {
            return Err(fault);
        }
        Ok(lane(self.value, address, size))
    }

    // Puts a value at an address, and counts the store.
    fn store(&mut self, address: u64, size: u8, value: u64)
        requires size { IsSize size }
        requires aligned { address % size ≡ 0 }
        requires value { value < 2 ^ (8 * size) }
        ensures { self.new ≡ stored self.old address size value }
    {
        self.value = with_lane(self.value, address, size, value);
        self.version = self.version.wrapping_add(1) % VERSIONS;
    }

    /// Stores a value at an address.
    pub fn write(&mut self, address: u64, size: u8, value: u64) -> Result<(), BusFault>
        requires size { IsSize size }
        requires value { value < 2 ^ (8 * size) }
        ensures did { DoesAt self.old (Item.Write address size value result) self.new }
        ensures permits { Permits may_write address size result }
    {
        if let Some(fault) = refusal(may_write(self.role), address, size, self.role) {
            return Err(fault);
        }
        self.store(address, size, value);
        Ok(())
    }

    /// Stores what an operation makes of the value at an address and this one, and answers the
    /// value that was there.
    pub fn amo(&mut self, address: u64, size: u8, op: AmoOp, value: u64) -> Result<u64, BusFault>
        requires size { IsAtomicSize size }
        requires value { value < 2 ^ (8 * size) }
        ensures did { DoesAt self.old (Item.Amo address size op value result) self.new }
        ensures permits { Permits may_write address size result }
        ensures bound { HasValue size result }
    {
        if let Some(fault) = refusal(may_write(self.role), address, size, self.role) {
            return Err(fault);
        }
        let found = lane(self.value, address, size);
        self.store(address, size, combined(op, size, found, value));
        Ok(found)
    }

    /// The value at an address, and the version.
    pub fn reserve(&self, address: u64, size: u8) -> Result<(u64, u64), BusFault>
        requires { IsAtomicSize size }
        ensures did { DoesAt self.now (Item.Reserve address size result) self.now }
        ensures permits { Permits may_read address size result }
        ensures bound { IfOk result (λ found. found.0 < 2 ^ (8 * size)) }
    {
        if let Some(fault) = refusal(may_read(self.role), address, size, self.role) {
            return Err(fault);
        }
        Ok((lane(self.value, address, size), self.version))
    }

    /// Stores a value at an address where the version is still this one.
    pub fn conditional(
        &mut self,
        address: u64,
        size: u8,
        value: u64,
        version: u64,
    ) -> Result<bool, BusFault>
        requires size { IsAtomicSize size }
        requires value { value < 2 ^ (8 * size) }
        ensures did { let call = Item.Conditional address size value version result
            in DoesAt self.old call self.new }
        ensures permits { Permits may_write address size result }
    {
        if let Some(fault) = refusal(may_write(self.role), address, size, self.role) {
            return Err(fault);
        }
        if self.version != version {
            return Ok(false);
        }
        self.store(address, size, value);
        Ok(true)
    }
}
