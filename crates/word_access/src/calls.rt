//! The calls of a bus, by a hart's hand between two accesses.

ghost use Rattle.std.specs.Prelude.{◌<◌, ◌*◌, ◌^◌, IfOk};
ghost use Rattle.rv_isa.specs.Encoding.{IsAtomicSize};
ghost use Rattle.rv_hart.specs.Buses.{HasValue, IsSize, Permits, may_fetch, may_read, may_write};
ghost use Rattle.word_access.specs.Accesses.{Calls};
ghost use Rattle.word_steps.specs.Views.{IsIdle};

use crate::access::{change, load};
use crate::asks::place;
use rv_hart::{BusFault, Item, lane};
use rv_isa::AmoOp;
use word_rule::{LoadAsk, StoreAsk};
use word_steps::{Hand, Memory, Naming, version_of};

/// The instruction word at an address.
///
/// # Errors
///
/// As the crate says.
pub fn fetch<J: Naming>(
    memory: &Memory<J>,
    hand: &mut Hand<J>,
    address: u64,
) -> Result<u32, BusFault>
    requires idle { IsIdle hand.old }
    ensures calls { Calls hand.old (Item.Fetch address result) hand.new }
    ensures permits { Permits may_fetch address 4 result }
{
    let at = place(address, 4)?;
    let (_, value) = load(memory, hand, LoadAsk::Fetch(address), at)?;
    Ok(lane(value, address, 4) as u32)
}

/// The value at an address.
///
/// # Errors
///
/// As the crate says.
pub fn read<J: Naming>(
    memory: &Memory<J>,
    hand: &mut Hand<J>,
    address: u64,
    size: u8,
) -> Result<u64, BusFault>
    requires idle { IsIdle hand.old }
    requires size { IsSize size }
    ensures calls { Calls hand.old (Item.Read address size result) hand.new }
    ensures permits { Permits may_read address size result }
    ensures bound { HasValue size result }
{
    let at = place(address, size)?;
    let (_, value) = load(memory, hand, LoadAsk::Read(address, size), at)?;
    Ok(lane(value, address, size))
}

/// The value at an address, and the version of its doubleword.
///
/// # Errors
///
/// As the crate says.
pub fn reserve<J: Naming>(
    memory: &Memory<J>,
    hand: &mut Hand<J>,
    address: u64,
    size: u8,
) -> Result<(u64, u64), BusFault>
    requires idle { IsIdle hand.old }
    requires size { IsAtomicSize size }
    ensures calls { Calls hand.old (Item.Reserve address size result) hand.new }
    ensures permits { Permits may_read address size result }
    ensures bound { IfOk result (λ found. found.0 < 2 ^ (8 * size)) }
{
    let at = place(address, size)?;
    let (control, value) = load(memory, hand, LoadAsk::Reserve(address, size), at)?;
    Ok((lane(value, address, size), version_of(control)))
}

/// Stores a value.
///
/// # Errors
///
/// As the crate says. Nothing is stored then.
pub fn write<J: Naming>(
    memory: &Memory<J>,
    hand: &mut Hand<J>,
    address: u64,
    size: u8,
    value: u64,
) -> Result<(), BusFault>
    requires idle { IsIdle hand.old }
    requires size { IsSize size }
    requires value { value < 2 ^ (8 * size) }
    ensures calls { Calls hand.old (Item.Write address size value result) hand.new }
    ensures permits { Permits may_write address size result }
{
    let at = place(address, size)?;
    change(memory, hand, StoreAsk::Write(address, size, value), at)?;
    Ok(())
}

/// Stores what the operation makes of the value there and this one, and answers the value there.
///
/// # Errors
///
/// As the crate says. Nothing is stored then.
pub fn amo<J: Naming>(
    memory: &Memory<J>,
    hand: &mut Hand<J>,
    address: u64,
    size: u8,
    op: AmoOp,
    value: u64,
) -> Result<u64, BusFault>
    requires idle { IsIdle hand.old }
    requires size { IsAtomicSize size }
    requires value { value < 2 ^ (8 * size) }
    ensures calls { Calls hand.old (Item.Amo address size op value result) hand.new }
    ensures permits { Permits may_write address size result }
    ensures bound { HasValue size result }
{
    let at = place(address, size)?;
    let ask = StoreAsk::Amo(address, size, op, value);
    let Some(found) = change(memory, hand, ask, at)? else {
        unreachable!();
    };
    Ok(lane(found, address, size))
}

/// Stores a value where the doubleword still has this version, and answers whether it has.
///
/// # Errors
///
/// As the crate says. Nothing is stored then.
pub fn conditional<J: Naming>(
    memory: &Memory<J>,
    hand: &mut Hand<J>,
    address: u64,
    size: u8,
    value: u64,
    version: u64,
) -> Result<bool, BusFault>
    requires idle { IsIdle hand.old }
    requires size { IsAtomicSize size }
    requires value { value < 2 ^ (8 * size) }
    ensures calls { let call = Item.Conditional address size value version result in Calls hand.old call hand.new }
    ensures permits { Permits may_write address size result }
{
    let at = place(address, size)?;
    let ask = StoreAsk::Conditional(address, size, value, version);
    Ok(change(memory, hand, ask, at)?.is_some())
}
