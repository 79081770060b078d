//! The accesses of a hart to guest memory in atomic words.
//!
//! Each is a few of the single steps of `word_steps`, in their order, by the [`Hand`](word_steps::Hand)
//! of the hart, and leaves one item in its trail, or none where the address alone refuses it. None takes
//! memory or waits.
//!
//! Addresses and sizes are in bytes; a value is a number of so many bytes. Each call answers `Misaligned`
//! where the address is no multiple of the size, the role `None` where it isn't one of guest memory, the
//! role found where that permits no such access, and `Again` where another seat has locked the doubleword
//! or it changed under the access.
//!
//! `word_memory` gives a hart its seat and its bus over these.
//!
//! `word_keeping` has what the keeper does in a few steps: it gives a doubleword a value and a role, takes the
//! role away, and tells a hart of its events.
#![tactic(auto)]

mod access;
mod asks;
mod calls;
mod word_keeping;

pub use access::exchange;
pub use calls::{amo, conditional, fetch, read, reserve, write};
pub use word_keeping::{retire, set, tell};
