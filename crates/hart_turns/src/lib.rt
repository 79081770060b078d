//! The turns of a hart that ask nothing of the linker: an instruction, a doubleword that is copied or
//! stored, over any bus, and the entry of a function.
//!
//! [`take_turn`] takes such a turn, as the table of `hart_moves` has it. It answers whether the turn is
//! over, or how the hart is to end: whoever keeps the journal appends that end, and settles what was done
//! before.
#![tactic(auto)]

mod copying;
mod ending;
mod instructing;
mod storing;
mod trap;
mod turned;
mod turns;
mod watched;

pub use copying::copy;
pub use instructing::instruct;
pub use storing::store;
pub use trap::{Trap, trap_of};
pub use turned::Turned;
pub use turns::{finish, take_turn};
