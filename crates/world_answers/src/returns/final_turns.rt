//! The final destructors of a run (gABI, "Initialization and Termination Functions").
//!
//! When every hart has ended by exit, the first one runs the destructors of all objects that are left, one
//! object at a time, and the next is chosen anew after each event. [`begin`] has it start with the first.
//! [`FinalTurn`] is the turn in which those of an object have run: it is planned first, which takes all its
//! memory but for the hart's room for functions and says whether there will be events, and then carried out.
mod beginning;
mod law;
mod turn;

pub use beginning::begin;
pub use law::{finals_go_on, settling_keeps_finals};
pub use turn::FinalTurn;
