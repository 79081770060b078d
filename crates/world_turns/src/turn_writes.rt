//! How far a hart is with what it writes.
//!
//! Of a write a hart copies 256 bytes at most, and a write of no byte is answered at once. `HartWrites`
//! (`specs/Writing.antt`) says so of a hart between two turns. It holds of each hart of a run at each of
//! its moments, and so what is served of a write is 1 to 256 bytes.
//!
//! There is no code but laws: functions without a body, whose contract is the law.
mod law;

pub use law::{turns_keep_writes, worlds_keep_writes};
