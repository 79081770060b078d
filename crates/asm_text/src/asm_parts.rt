//! The parts of the texts behind an assembler source's words.
//!
//! [`operands_of`] gives what stands between commas, [`words_of`] what stands between blanks, and [`zero`]
//! the number that is meant where none is written.
mod parts;

pub use parts::{operands_of, words_of, zero};
