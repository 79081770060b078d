//! What the linker keeps of each hart: the refusal that it hasn't been told yet.
//!
//! [`KeptFaults`] has the refusals, one a hart at most; a law says how many ends there can be.
mod kept;
mod law;

pub use kept::KeptFaults;
pub use law::each_hart_ends;
