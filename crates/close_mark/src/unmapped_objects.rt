//! Objects that are unmapped: they go from their namespaces, as records of their own.
//!
//! [`count_in`] counts those of a set, so that room for them can be kept, and [`take_out`] takes them out.
//! It takes no memory.
mod taking;

pub use taking::{count_in, take_out};
