//! Written schedules: which hart takes its turns when.
//!
//! [`Turns`] are the items of a schedule. `specs/Grammar.antt` says how they are written: `SaysTurns`.
mod law;
mod schedule;

pub use law::{schedules_are_none, schedules_are_written};
pub use schedule::{TurnItem, Turns};
