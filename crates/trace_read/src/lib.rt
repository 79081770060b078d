//! The lines of a run's history, read back.
//!
//! [`read_event`] reads the line that `trace_text` writes of an event: what the line says of it, or
//! that no event has this line. It goes over each byte a few times, whatever the line is.
#![tactic(auto)]

mod answers;
mod ends;
mod events;
mod fault;
mod faults;
mod lists;
mod names;
mod numbers;
mod once;
mod pieces;
mod read;
mod steps;

pub use fault::TraceFault;
pub use once::{events_have_lines, lines_say_once};
pub use read::read_event;
