//! Written schedules, read.
//!
//! [`read_turns`] reads the items of a schedule: which hart takes its turns when, or that the text is no
//! schedule of so many harts.
mod fault;
mod items;

pub use fault::TurnsFault;
pub use items::read_turns;
