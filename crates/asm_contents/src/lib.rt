//! What the object of an assembler source holds, before anything has an address.
//!
//! [`contents_of`] makes it from the lines, what they say of names and of versions, and where they stand. What it
//! is, is in `asm_layout`, definitions over the lines; the tables are made in walks over the lines and over what
//! they say of names, and exported symbols are sorted by the buckets of their hashes.
//!
//! `asm_fixes` finds the places that the object's linker fills, in ascending order.
#![tactic(auto)]

mod asm_fixes;
mod contents;
mod needs;
mod object_words;
mod strings;

pub use asm_fixes::{Fixer, addend_of, fixes_of};
pub use contents::contents_of;
