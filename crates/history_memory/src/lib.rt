//! Guest memory is as the journal says.
//!
//! `specs/` says what that is: `Holds`, of a state of the linker, of the grants that have won their
//! slots and aren't settled yet, and of a memory, the value and the role of each doubleword. The role
//! is the state's; a word that may not be written holds what was put there first; a slot holds that, or
//! the value of the one grant that took it.
//!
//! There is no code but laws: functions without a body, whose contract is the law. Every memory of a
//! run is held to the journal by them, be it of plain words or of words that harts share.
#![tactic(auto)]

mod example;
mod law;

pub use example::first_call_is_held;
pub use law::{
    code_is_whole, events_keep, exchanges_keep, grants_settle, memory_begins, slots_are_true,
    slots_enter, slots_stand, slots_stay, stores_keep,
};
