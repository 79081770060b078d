//! What a reader finds of the versions of an object that `asm_write` makes.
//!
//! - [`the_versions_are_spelled`]: the version indexes of the symbols, the versions that are defined, and those
//!   that are needed, of an accepted object.
mod law;

pub use law::the_versions_are_spelled;
