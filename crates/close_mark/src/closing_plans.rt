//! Closings that are to be made.
//!
//! [`ClosingPlan`] has all the lists that a closing needs, so that it takes no memory once it is made:
//! [`close_in`] changes the namespaces then, and [`wait`] lets the closing wait for its unmapping.
mod closing;
mod planning;

pub use closing::{close_in, wait};
pub use planning::ClosingPlan;
