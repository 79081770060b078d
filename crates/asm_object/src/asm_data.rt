//! The numbers that the data of an assembler source's lines holds in the object's file.
//!
//! [`numbers_of`] has one for each line: a number as it is written, an address where the object needs no
//! relocation for it or the packed table names its place, and 0 where a relocation tells it. What that
//! means is in `asm_object`.
mod numbers;

pub use numbers::numbers_of;
