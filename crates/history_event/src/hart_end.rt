//! How a hart ends.

use ld_base::{Sequence, Serial};

/// Why a hart runs no further.
#[derive(Clone, Copy, Debug, PartialEq, Eq)]
pub enum HartEnd {
    /// It asked to, with this code.
    Exit(u64),
    /// Its turns are used up.
    FuelOut,
    /// The pc, and an address that may not be used so.
    NotMapped(u64, u64),
    /// The pc, and the address of a slot, which only the linker stores to.
    SlotStore(u64, u64),
    /// The pc, and the word there.
    BadInstruction(u64, u32),
    /// The pc, and the address.
    Misaligned(u64, u64),
    /// The pc of an ebreak.
    Break(u64),
    /// The number of a module that isn't there.
    BadModule(u64),
    /// The serial that was given for a slot's object; no such object is mapped.
    Unloaded(u64),
    /// The object, and what was given for eight times the number of a slot; it has no such slot.
    NoSlot(Serial, u64),
    /// The object and its slot, which has no definition.
    Unresolved(Serial, u32),
    /// The object and its slot, whose definition isn't code.
    NotCode(Serial, u32),
    /// How many pages there was no room for.
    AddressSpaceFull(u64),
    /// Want of memory.
    Memory,
}

/// Each hart's last end, in order of hart number.
pub type Ends = Sequence<HartEnd>;
