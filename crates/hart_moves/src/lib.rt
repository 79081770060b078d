//! One turn of one hart, of a program that runs with its linker.
//!
//! A hart is its registers and its place: what it has copied of what it passes to the linker, how far
//! it is with a slot, and the constructors and destructors that the linker has it run
//! (`specs/Harts.antt`). Its place and its registers say what its next turn is (`specs/Due.antt`): an
//! instruction, one doubleword of a text, a service, an exchange on a slot. `Moves`
//! (`specs/Moves.antt`) is the table of these turns: what the hart did, and where that leaves it.
//!
//! Nothing here knows memory, nor other harts. What memory answers is in the calls of the bus, what the
//! linker gives in its events. Whoever runs harts adds what memory makes of the one and the journal of
//! the other.
//!
//! There is no code but laws: functions without a body, whose contract is the law.
//!
//! `turn_events` says which events a turn may leave, `turn_frames` what becomes of the functions that a hart runs.
#![tactic(auto)]

mod law;
mod turn_events;
mod turn_frames;
mod worked_turns;

pub use law::{turns_are_counted, turns_are_legal, turns_leave_one_hart};
pub use turn_events::turns_append;
pub use turn_frames::{closings_unmap_first, turns_leave_frames};
pub use worked_turns::{
    ends_are_told, functions_are_entered, functions_return, harts_wait, memory_is_passed,
    names_are_copied, nothing_is_left_out, two_harts_share_a_slot,
};
