//! A set of libraries made from a number, and the program that runs them, as sources for the assembler.
//!
//! A number makes 8 to 64 libraries of 4 to 64 functions each. Each function goes on at a function `g`,
//! which every library defines, so that all of them end in the first library's. The program calls each
//! function once, beginning at one that the number gives, adds up what they answer, and exits with the
//! sum, which is how many functions there are.
//!
//! [`sources`] are these files, whose text `specs/Sources.antt` says line by line.
mod shape;
mod writing;

pub use shape::{function_count, library_count};
pub use writing::sources;
