//! What the graph of a closing decides.
//!
//! `close_mark` makes a graph of the lists that a linker keeps. [`closes_exactly`] says that what nothing
//! reaches in it is what nothing needs in the state with one opening less, and [`first_is_opened`] which
//! handle may be closed.
mod law;

pub use law::{closes_exactly, first_is_opened};
