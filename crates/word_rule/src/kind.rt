//! What the steps are for.

use crate::{Entry, Grant, RowWord};
use history_event::Event;
use ld_base::Role;
use rv_isa::AmoOp;
use std::snapshot::Snapshot;

/// A call of the bus that loads. Addresses and sizes are in bytes.
#[derive(Clone, Copy)]
pub enum LoadAsk {
    /// Four bytes to run: their address.
    Fetch(u64),
    /// Bytes to read: address and size.
    Read(u64, u8),
    /// The same of an LR, which keeps the doubleword's version.
    Reserve(u64, u8),
}

/// A call of the bus that stores.
#[derive(Clone, Copy)]
pub enum StoreAsk {
    /// Address, size and value.
    Write(u64, u8, u64),
    /// Address, size, what is done to the value found, and the operand.
    Amo(u64, u8, AmoOp, u64),
    /// Of an SC: address, size, value, and the version that the reservation keeps.
    Conditional(u64, u8, u64, u64),
}

/// What a hart asks of memory.
#[derive(Clone, Copy)]
pub enum Ask {
    /// A fetch, a read or an LR.
    Load(LoadAsk),
    /// A write, an AMO or an SC.
    Store(StoreAsk),
}

/// What a step of a hart is for. After each kind stands the row of the table of kinds that it is of, by
/// what the row does: the kinds of a row differ in what the seat knows before or after.
#[derive(Clone, Copy)]
pub enum HartKind {
    /// To load the control word of the doubleword that it asks for. (Load a control word.)
    Look(Ask),
    /// To load the doubleword's value, which it asks for. (Load a value word.)
    Load(LoadAsk),
    /// To load the doubleword's value under its lock. (Load a value word.)
    Hold(StoreAsk),
    /// To lock the doubleword, whose control word was found to be this. (Lock by compare-exchange.)
    Lock(StoreAsk, u64),
    /// To store this value in the doubleword that it has locked, as asked. (Store under lock.)
    Store(StoreAsk, u64),
    /// To unlock this doubleword. (Unlock.)
    Unlock(u64),
    /// To load the count. (Load the count.)
    Tally,
    /// To begin a call. The hart's number, here and below. (Begin a call.)
    Begin(u64),
    /// To load its row's state. (Load of the own row.)
    Arrive(u64),
    /// To load another word of its row. (Load of the own row.)
    Find(u64, RowWord),
    /// To exchange the slot of the grant in its row. (Exchange of a slot.)
    Exchange(Grant),
    /// To give the row back: the entry is taken. (Give the row back.)
    Accept(u64, Entry),
    /// To give the row of a grant back, as won or else as lost. (Give the row back.)
    Finish(u64, bool),
    /// To load the generation, for a module. (Load the generation.)
    Generation(u64),
    /// To end what it keeps of a note. (A load, which also does this.)
    Listen,
}

/// What a step of the keeper is for.
#[derive(Drop)]
pub enum KeeperKind {
    /// To load the control word of a doubleword. (Load a control word.)
    Look(u64),
    /// To load the value of a doubleword. (Load a value word.)
    Load(u64),
    /// To lock a doubleword, whose control word was found to be this. (Lock by compare-exchange.)
    Lock(u64, u64),
    /// To store this value in the doubleword that it has locked, and that has no role. (Store under lock.)
    Store(u64, u64),
    /// To unlock a doubleword that has no role: the role that it gets, and the lazy word where that is a
    /// slot's. (Unlock, with a new role.)
    Unlock(u64, Role, u64),
    /// To count an event. (Add one to the count.)
    Count(Snapshot<Event>),
    /// To load the state of a hart's row, and see whether it calls. (Ask.)
    Await(u64),
    /// To load the state of a hart's row, and see what came of its grant. (Ask.)
    Ask(u64),
    /// To load the slot of a doubleword, whose grant in this hart's row was lost. (Ask.)
    Saw(u64, u64),
    /// To store a word of a hart's row. (Store a word of a row.)
    Fill(u64, RowWord, u64),
    /// To hand a row over with this mark: 1, 2 or 6. (Hand the row over.)
    Hand(u64, u8),
    /// To hand a row over as open. (Hand the row over.)
    Open(u64),
    /// To take the role from a slot. (Unlock a slot to no role.)
    RetireSlot(u64),
    /// To take the role from another doubleword, which has this one. (Unlock another to no role.)
    Retire(u64, Role),
    /// To set the generation. (Set the generation.)
    Generation(u64),
    /// To load a word of a hart's row, which it put there. (A load that changes nothing.)
    Recall(u64, RowWord),
    /// To load the generation, which it set. (A load that changes nothing.)
    RecallGeneration,
    /// To load the control word of a doubleword, whose role it set. (A load that changes nothing.)
    RecallRole(u64),
    /// To end what it keeps of a note. (A load, which also does this.)
    Listen,
}

/// What a step is for.
#[derive(Drop)]
pub enum Kind {
    /// A step of a hart.
    Hart(HartKind),
    /// A step of the keeper.
    Keeper(KeeperKind),
}
