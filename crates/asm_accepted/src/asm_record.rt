//! The record that the statements of a source say: definitions and laws.
//!
//! - `specs/Record`: what a reader is to find in the object that the source denotes, field by field.
//! - [`the_head_is_said`]: the kind, the entry and the program headers are those.
//!
//! [`worked_program`] and [`worked_library`] are records worked by hand.
mod law;

pub use law::{the_head_is_said, worked_library, worked_program};
