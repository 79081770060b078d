//! What the sources of a generated set say: laws.
//!
//! `specs/Lines` lists the statements of each source line by line. [`sources_say`]: the source's text says them,
//! by the grammar of the assembler.
mod law;

pub use law::sources_say;
