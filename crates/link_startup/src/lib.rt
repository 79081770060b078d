//! How a run starts.
//!
//! [`startup`] opens a run's program with all that it needs in a new linker's state, and looks the names of its
//! harts up (gABI, "Program Loading"; psABI). It gives the state, what memory gets, the constructors that the
//! first hart is to run before any other turn, and the registers with which each hart starts; or the first
//! refusal, with the events up to it. Each hart starts in a stack of its own
//! ([`stacks_are_own`]); [`starts_are_worked`] has starts that are worked by hand.
//!
//! `start_parts` has the parts of a start: harts with their stacks and areas, and the functions that run first.
#![tactic(auto)]

mod bringing;
mod law;
mod opening;
mod preinits;
mod start_parts;
mod starting;

pub use law::{stacks_are_own, starts_are_worked};
pub use start_parts::{Unstarted, entries_of, find_harts, program_entry, startup_objects};
pub use starting::startup;
