//! Serials of which it is often asked whether one is among them.
//!
//! A closing goes through each list of the linker's state with the objects that it takes: where the question
//! took a step for each of those, a closing would cost their product.
mod set;

pub use set::SerialSet;
