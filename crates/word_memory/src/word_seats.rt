//! The seats of a new guest memory in atomic words.
//!
//! [`name_memory`] gives a new memory its name, makes the linker's own page in it, and gives the keeper's
//! seat and one of each hart. Nothing else of the memory has a role then.
mod making;

pub use making::{HartSeats, Seats, name_memory};
