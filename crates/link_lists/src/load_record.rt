//! What a linker notes of its openings.
//!
//! [`LoadRecord`] has the serial of the next new object, what startup loaded, which roots stay, and
//! whether the run binds slots when their objects are loaded. What is promised: each opening changes it
//! as the history's state changes (`history_state`), and takes no memory where room was made.
mod record;

pub use record::LoadRecord;
