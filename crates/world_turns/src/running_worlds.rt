//! A run on one thread, as whoever takes its turns keeps it.
//!
//! `IsRunning` (`specs/Running.antt`) joins what holds at each moment of a run: it is sound, its ends are
//! those of its harts, and each frame of a hart is of an opening or a closing, or of the run's end. The
//! laws say that each step of a run keeps it, and which premises of the linker's calls a hart's next turn
//! then meets.
//!
//! There is no code but laws: functions without a body, whose contract is the law.
mod law;

pub use law::{runs_go_on, turns_meet_premises};
