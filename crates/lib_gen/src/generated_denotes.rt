//! The sources of a generated set are accepted: a law.
//!
//! [`sources_denote`]: each of the sources that `lib_gen` makes denotes an object, by the relation
//! that the assembler's contract is about, so the assembler refuses none.
mod law;

pub use law::sources_denote;
