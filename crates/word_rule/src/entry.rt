//! What goes between the keeper and a hart.

/// What answers a hart's call.
#[derive(Clone, Copy, PartialEq, Eq)]
pub struct Entry {
    /// 1: an event. 2: a TLS answer that is no event. 3: a grant. 6: the call is to be tried again.
    pub mark: u8,
    /// The event's number, or the count.
    pub number: u64,
    /// The slot's address of a grant, the module of a TLS answer, the cause of mark 6.
    pub slot: u64,
    /// The value to bind of a grant, the block of a TLS answer, the serial or number shown of mark 6, else
    /// what the event answers.
    pub value: u64,
    /// The generation of the TLS modules at that number.
    pub generation: u64,
}

/// A grant as a hart gets it: its entry, of mark 3, and the slot's lazy word.
#[derive(Clone, Copy, PartialEq, Eq)]
pub struct Grant {
    /// Its number, its slot's address, and the value to put there.
    pub entry: Entry,
    /// The word that the slot holds until it is bound.
    pub lazy: u64,
}

/// A compare-exchange of a slot: the grant that it was made for, and the word found.
#[derive(Clone, Copy, PartialEq, Eq)]
pub struct Exchange {
    /// The grant whose lazy word was compared, and whose value was to be put in.
    pub grant: Grant,
    /// The slot's word before: the grant has won where that is its lazy word.
    pub found: u64,
}

/// A word of a hart's row beside its state.
#[derive(Clone, Copy, PartialEq, Eq)]
pub enum RowWord {
    /// The entry's number.
    Number,
    /// The entry's slot.
    Slot,
    /// The lazy word of a grant's slot.
    Lazy,
    /// The entry's value.
    Value,
    /// The entry's generation.
    Generation,
}
