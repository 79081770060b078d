//! Which object a file is that `asm_write` makes, if it is accepted.
//!
//! - [`the_object_is_spelled`]: each field is the one that the object's contents say, and its hash tables are those
//!   of the contents.
mod law;

pub use law::the_object_is_spelled;
