//! What is read of a relocated image before it goes into guest memory.
//!
//! [`push_constructors`], [`push_preinits`] and [`destructors`] give the addresses of an object's
//! functions (gABI, "Initialization and Termination Functions"), whose arrays stand in its image. The
//! first two take no memory: [`constructor_count`] and [`preinit_count`] say beforehand, of the file
//! alone, how much room they need. [`part_of`] is what a linker keeps of the image, and [`bytes_of`]
//! gives any bytes of it.
//!
//! What is promised: each is that of the image's record in the history's state (`Linked`), wherever the
//! image is one of that record.
mod bytes;
mod functions;
mod parts;

pub use bytes::{bytes_of, word_at};
pub use functions::{
    constructor_count, destructors, preinit_count, push_constructors, push_preinits,
};
pub use parts::part_of;
