//! What a run records: its events, and what the state after them is made of.
//!
//! A journal is the list of a run's events. Each call of the linker that changes something, or is
//! refused, appends one: an opening, a closing, an unmapping, a grant of a slot and its settling, a
//! look-up, a block of thread-local storage, an object whose constructors or destructors have run,
//! bytes written, a refusal told, and a hart's end. The state of the linker is a few lists, whose
//! elements are plain types here too, so that a definition of the state and the code that keeps it
//! hold the same lists.
//!
//! A contract sees each type as the record of its fields. [`Journal`] alone has code: it keeps room for
//! the events that are owed, so that the calls which append them take no memory.
#![tactic(auto)]

mod event;
mod event_line;
mod handed;
mod hart_end;
mod journal;
mod state;

pub use event::{
    Ask, CloseAnswer, Event, OpenAnswer, OpenAsk, Purpose, Range, Ranges, SymAnswer, SymAsk,
};
pub use event_line::{EventLine, NewLine, NewLines, OpenLine};
pub use handed::{
    Addresses, ChoiceLists, Choices, Dying, Entries, Function, Functions, Granted, HartEntry,
    Offer, Opening, Removed,
};
pub use hart_end::{Ends, HartEnd};
pub use journal::Journal;
pub use state::{
    Block, Blocks, BoundChoices, BoundValues, Chosen, ChosenList, Closing, Closings, Ending,
    Endings, Granting, Grantings, Kept, KeptList, Loading, Loadings, Module, Modules, Standing,
};
