//! What a seat knows.

use crate::{Entry, Exchange, Grant};
use history_event::Event;
use ld_base::Role;
use rv_hart::Item;
use std::collections::LinkedList;

/// What a hart did, in its order.
#[derive(Clone, Copy)]
pub enum TrailItem {
    /// A call of the bus.
    Call(Item),
    /// An entry that isn't a grant was taken.
    Took(Entry),
    /// A slot was exchanged.
    Exchanged(Exchange),
    /// The last exchange's row was given back.
    Done,
    /// The generation was read, for a module: the generation and the module, and the block of the last
    /// TLS answer taken with these two.
    Generation(u64, u64, Option<u64>),
}

/// What a seat has locked.
#[derive(Clone, Copy)]
pub struct Access {
    /// The doubleword that it has locked.
    pub locked: Option<u64>,
    /// That doubleword's value, from the first load or store of it under the lock.
    pub held: Option<u64>,
    /// The doubleword whose control word was loaded first in the access under way, and what was found.
    pub last: Option<(u64, u64)>,
}

/// What a hart has read of its row while it is its own.
#[derive(Clone, Copy)]
pub struct Offer {
    /// The row's state: the mark of its entry, 1, 2, 3 or 6.
    pub mark: u8,
    /// The entry's number, once read; so with the other words.
    pub number: Option<u64>,
    /// The entry's slot: an address, a module or a cause, by the mark.
    pub slot: Option<u64>,
    /// Of a grant: the word that stands for "not bound yet".
    pub lazy: Option<u64>,
    /// The entry's value.
    pub value: Option<u64>,
    /// The generation of the TLS modules.
    pub generation: Option<u64>,
}

/// Where a hart's calls stand.
pub struct Lane {
    /// It has begun a call, and hasn't given the row back.
    pub calling: bool,
    /// The count that it loaded last.
    pub seen: u64,
    /// The state of its row that it found last.
    pub found: u64,
    /// The entries that it took, in order.
    pub taken: LinkedList<Entry>,
    /// The words of its row that it read, once the row was found its own.
    pub offer: Option<Offer>,
    /// The exchange that it made for the grant in its row, and hasn't given back.
    pub tried: Option<Exchange>,
}

/// A seat that was told of another's list keeps this until its next load.
pub struct Told {
    /// The list that the seat had.
    pub had: LinkedList<Event>,
    /// The list that it was told.
    pub told: LinkedList<Event>,
    /// The hart whose entries these are.
    pub number: u64,
    /// Entries that were handed to this hart, in order, from the first.
    pub entries: LinkedList<Entry>,
    /// The generations that this hart read, where it tells of itself.
    pub readings: LinkedList<u64>,
    /// The lazy word of its row, where the keeper tells.
    pub lazy: u64,
}

/// What a hart knows.
pub struct HartView {
    /// Which hart it is: 0 to 15.
    pub number: u64,
    /// The events that it knows of, from the first.
    pub heard: LinkedList<Event>,
    /// What it has locked, and where its access stands.
    pub access: Access,
    /// Where its calls stand.
    pub lane: Lane,
    /// What it did since its seat was made.
    pub trail: LinkedList<TrailItem>,
    /// What it was told of the keeper's events and of its entries, until its next load.
    pub note: Option<Told>,
}

/// What the keeper knows of a doubleword.
#[derive(Clone, Copy)]
pub struct Kept {
    /// What the doubleword is for.
    pub role: Role,
    /// What the keeper put there last: the word of a RO or RX doubleword, the image's word of a slot.
    pub value: u64,
    /// Of a slot: the word that stands for "not bound yet".
    pub lazy: u64,
    /// Of a slot: how many events there were when it became one.
    pub since: u64,
    /// Of a slot: the word that a look found in it, where that wasn't the lazy word. It stays there.
    pub fixed: Option<u64>,
}

/// What came of a grant.
#[derive(Clone, Copy)]
pub enum Fate {
    /// Its exchange found the lazy word, and left the grant's value.
    Won,
    /// Its exchange found another word, which stays.
    Lost,
}

/// A grant whose fate the keeper knows.
#[derive(Clone, Copy)]
pub struct Settled {
    /// The grant.
    pub grant: Grant,
    /// What came of it.
    pub fate: Fate,
}

/// What the keeper knows of a hart's row.
pub struct Row {
    /// The row's words beside its state, as the keeper put them there: its entry's number.
    pub number: u64,
    /// The entry's slot: an address, a module or a cause, by its mark.
    pub slot: u64,
    /// The lazy word of a grant's slot.
    pub lazy: u64,
    /// The entry's value.
    pub value: u64,
    /// The generation of the TLS modules at the entry's number.
    pub generation: u64,
    /// The entries that were handed to the hart, in order.
    pub issued: LinkedList<Entry>,
    /// The count at which the hart was found calling, while it is known to call.
    pub since: Option<u64>,
    /// The hart's last grant, while its fate isn't known.
    pub pending: Option<Grant>,
    /// The hart's other grants.
    pub settled: LinkedList<Settled>,
    /// The row was found open since a call of any hart came to be known.
    pub found_open: bool,
}

/// What showed the keeper that another seat had locked a doubleword: a control word that had the lock,
/// twice, or the one that was looked at and another that was found after it.
#[derive(Clone, Copy)]
pub struct Sight {
    /// The doubleword's number, which isn't its address.
    pub at: u64,
    /// The control word that was looked at.
    pub first: u64,
    /// The one that was found after it, or the same.
    pub second: u64,
}

/// A doubleword's role that was taken away.
#[derive(Clone, Copy)]
pub struct Retired {
    /// The doubleword's number, which isn't its address.
    pub at: u64,
    /// The role that it had.
    pub role: Role,
    /// The generation of the TLS modules then.
    pub generation: u64,
    /// How many events had been counted then.
    pub number: u64,
    /// The word that the keeper had put there last, as `Kept` says.
    pub value: u64,
}

/// What a lost grant's exchange found, as the slot showed it to the keeper.
#[derive(Clone, Copy)]
pub struct Loss {
    /// The hart whose grant it was.
    pub hart: u64,
    /// The grant, and the slot's word.
    pub exchange: Exchange,
}

/// A hart's row that was asked and found open.
#[derive(Clone, Copy)]
pub struct OpenRow {
    /// The hart whose row it is.
    pub hart: u64,
    /// How many events had been counted then.
    pub number: u64,
}

/// What the keeper knows.
pub struct KeeperView {
    /// Of each doubleword of guest memory, from the first address on.
    pub words: LinkedList<Kept>,
    /// The events that were counted: number n stands at n - 1.
    pub events: LinkedList<Event>,
    /// The generation of the TLS modules.
    pub generation: u64,
    /// How many harts there are: their numbers are those below it.
    pub harts: u64,
    /// Of the row of each of 16 harts, by number.
    pub rows: LinkedList<Row>,
    /// What it has locked, and where its look at a control word stands.
    pub access: Access,
    /// The last views of the harts whose seats were joined.
    pub joined: LinkedList<HartView>,
    /// What a hart told it of the entries that it took and the generations that it read, until the next load.
    pub note: Option<Told>,
    /// Each time that a doubleword was found locked by another seat, in order.
    pub shown: LinkedList<Sight>,
    /// Each time that the slot of a lost grant was looked at, in order.
    pub losses: LinkedList<Loss>,
    /// Each role that was taken away, in order.
    pub retired: LinkedList<Retired>,
    /// Each time that a hart's row was asked and found open, in order.
    pub opens: LinkedList<OpenRow>,
}

/// What a note carries beside a list of events.
pub enum Slip {
    /// A hart's number, the entries that it knows of, and the generations that it read.
    OfHart(u64, LinkedList<Entry>, LinkedList<u64>),
    /// The keeper's rows.
    OfKeeper(LinkedList<Row>),
}

/// The view of a seat.
pub enum View {
    /// The linker's seat.
    Keeper(KeeperView),
    /// A hart's seat.
    Hart(HartView),
    /// A seat that was split off to be joined into another.
    Note(LinkedList<Event>, Slip),
    /// A seat that was joined into another.
    Spent,
}
