//! What lines and events say, compared: all of an event, but of an opening neither the records of new objects nor
//! pages.
mod faults;
mod fields;
mod lines;
mod openings;

pub(crate) use faults::same_fault;
pub(crate) use fields::{same_closing, same_found};
pub use lines::says_open;
