//! Runs on one thread are whole: at the end no grant is open, what each lost grant saw is the value of
//! its slot, and where each hart ended once, by exit, each object that was initialised was finalised.
//!
//! What a lost grant saw isn't told by the journal alone: it was in memory, where the slot keeps it
//! (`specs/Saw.antt`).
//!
//! There is no code but laws: functions without a body, whose contract is the law.
mod law;

pub use law::runs_are_whole;
