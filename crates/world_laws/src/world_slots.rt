//! Slots of a run on one thread: one that isn't lazy any more reads the same from world to world, as long
//! as its object is mapped.
//!
//! There is no code but laws: functions without a body, whose contract is the law.
mod law;

pub use law::{later_worlds_keep_slots, turns_keep_slots};
