//! Closings whose objects aren't unmapped yet.
//!
//! A [`Pending`] is such a closing with the lists that its unmapping will hand out: both are empty, and
//! have room for the objects that are to go and for the ranges of their pages. So an unmapping takes no
//! memory. [`PendingClosings`] has the closings in order.
mod closings;
mod pending;

pub use closings::PendingClosings;
pub use pending::Pending;
