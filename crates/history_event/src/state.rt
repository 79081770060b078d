//! What the lists of the linker's state hold, besides namespaces and ranges.

use crate::HartEnd;
use ld_base::{Choice, DlFault, GrantNo, HartId, Sequence, Serial, Serials};

/// A module of thread-local storage.
#[derive(Clone, Copy, PartialEq, Eq)]
pub struct Module {
    pub number: u64,
    pub serial: Serial,
    /// Where its block stands behind tp, if it was there when the harts started.
    pub offset: Option<u64>,
}

/// A hart's block of a module that came later.
#[derive(Clone, Copy, PartialEq, Eq)]
pub struct Block {
    pub hart: HartId,
    pub serial: Serial,
    pub address: u64,
}

/// What became of a grant.
#[derive(Clone, Copy, PartialEq, Eq)]
pub enum Standing {
    /// It isn't settled yet.
    Open,
    /// The slot got its value.
    Bound,
    /// The slot had this value.
    Lost(u64),
}

/// A grant, with what became of it.
#[derive(Clone, Copy, PartialEq, Eq)]
pub struct Granting {
    pub number: GrantNo,
    pub hart: HartId,
    pub owner: Serial,
    pub slot: u32,
    pub choice: Choice,
    pub value: u64,
    pub standing: Standing,
}

/// What one opening loaded.
#[derive(Drop)]
pub struct Loading {
    pub hart: HartId,
    /// The new objects, in load order.
    pub serials: Serials,
}

/// Choices, none for a slot that isn't bound at load.
pub type BoundChoices = Sequence<Option<Choice>>;
/// Values of slots, none for a slot that isn't bound at load.
pub type BoundValues = Sequence<Option<u64>>;

/// What the relocations of an object chose when it was loaded.
#[derive(Drop)]
pub struct Chosen {
    pub owner: Serial,
    /// One for each relocation, and then one for each slot.
    pub choices: BoundChoices,
    /// One for each slot.
    pub values: BoundValues,
}

/// A closing whose objects aren't unmapped yet.
#[derive(Drop)]
pub struct Closing {
    pub hart: HartId,
    /// Its objects, in load order.
    pub set: Serials,
}

/// The refusal that a hart hasn't been told yet.
#[derive(Drop)]
pub struct Kept {
    pub hart: HartId,
    pub fault: DlFault,
}

/// The end of a hart.
#[derive(Clone, Copy, PartialEq, Eq)]
pub struct Ending {
    pub hart: HartId,
    pub end: HartEnd,
}

/// Modules, in the order of their numbers.
pub type Modules = Sequence<Module>;
/// Blocks, in the order in which harts got them.
pub type Blocks = Sequence<Block>;
/// Grants, in order of their numbers.
pub type Grantings = Sequence<Granting>;
/// Openings that loaded something, in order.
pub type Loadings = Sequence<Loading>;
/// What objects chose, in load order.
pub type ChosenList = Sequence<Chosen>;
/// Closings, in order.
pub type Closings = Sequence<Closing>;
/// Refusals, one a hart at most.
pub type KeptList = Sequence<Kept>;
/// Ends, in order.
pub type Endings = Sequence<Ending>;
