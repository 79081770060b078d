//! What the parts of the linker hand one another.

use crate::{OpenAnswer, OpenAsk, Ranges};
use ld_base::{Added, Choice, GrantNo, HartId, Sequence, Serial, Serials};

/// Choices, one a relocation.
pub type Choices = Sequence<Choice>;
/// Choices, a list an object.
pub type ChoiceLists = Sequence<Choices>;
/// Addresses, in order.
pub type Addresses = Sequence<u64>;

/// An opening that is to be made: the event, but for a refusal, and what the new objects' relocations
/// choose.
#[derive(Drop)]
pub struct Opening {
    pub hart: HartId,
    pub ask: OpenAsk,
    pub answer: OpenAnswer,
    /// A list for each new object: those of its relocations, and then those of its slots.
    pub choices: ChoiceLists,
}

/// The objects of a closing, in load order.
#[derive(Drop)]
pub struct Dying {
    pub list: Serials,
}

/// The objects of an unmapping, and the pages that went with them.
#[derive(Drop)]
pub struct Removed {
    pub objects: Added,
    pub ranges: Ranges,
}

/// A grant that was made.
#[derive(Clone, Copy, PartialEq, Eq)]
pub struct Granted {
    /// The number of its event.
    pub event: u64,
    pub grant: GrantNo,
    pub owner: Serial,
    /// The address of the slot.
    pub slot: u64,
    /// What the slot holds until it is bound.
    pub lazy: u64,
    pub choice: Choice,
    pub value: u64,
}

/// A grant as its hart gets it.
#[derive(Clone, Copy, PartialEq, Eq)]
pub struct Offer {
    /// The number of its event.
    pub event: u64,
    /// The address of the slot.
    pub slot: u64,
    /// What the slot holds until it is bound.
    pub lazy: u64,
    pub value: u64,
}

/// The constructors or destructors of an object, in the order in which they run.
#[derive(Drop)]
pub struct Function {
    pub object: Serial,
    pub addresses: Addresses,
}

/// Objects with their constructors or destructors, in order.
pub type Functions = Sequence<Function>;

/// The registers with which a hart starts, those apart that are the same for each.
#[derive(Clone, Copy, PartialEq, Eq)]
pub struct HartEntry {
    pub pc: u64,
    pub sp: u64,
    pub tp: u64,
    pub a0: u64,
}

/// Starting registers, in order of hart number.
pub type Entries = Sequence<HartEntry>;
