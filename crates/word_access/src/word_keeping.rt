//! What the linker's keeper does with guest memory in atomic words.
//!
//! It gives a doubleword a value and a role, takes a role away, and tells a hart of its events. Each is
//! a few of the single steps of `word_steps`, in their order, by the keeper's
//! [`Desk`](word_steps::Desk). None takes memory or waits: a doubleword that another seat has locked is
//! left as it is, and shown.
//!
//! `word_memory` gives the keeper its seat over these.
mod keeping;
mod telling;

pub use keeping::{retire, set};
pub use telling::tell;
