//! Runs on threads.
//!
//! [`run_program`] starts a run, puts what startup brings into memory that harts share, runs each hart on a
//! thread of its own beside the linker's keeper, and joins them. What is left is the journal, how each hart
//! ended, and what each did, turn after turn. `specs/Threaded.antt` says what these are, and `specs/Slots.antt`
//! what that leaves of each slot.
#![tactic(auto)]

mod ending;
mod law;
mod rising;
mod run;
mod setting_up;

pub use law::slots_end;
pub use run::{Ran, run_program};
