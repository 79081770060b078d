//! What the linker answers a hart's call, and what guest memory gets of it: plain types, and what they mean.
//!
//! [`Answered`] is what came of a call: its events stand in the journal. [`MemoryChange`] is what whoever
//! keeps memory has to do with it: put pages there, or take some away. What the answer makes of the hart is
//! the table of `hart_moves`.
mod answered;

pub use answered::{Answered, MemoryChange};
