//! The bytes of the sections of an assembler source, and of its procedure linkage table.
//!
//! [`code_of`] gives them, once it is known where the lines stand, which words they have and which
//! numbers their data holds. What all that means is in `asm_layout`, definitions over the lines. Each
//! section takes one walk over the lines.
mod code;
mod plt;
mod sections;

pub use code::code_of;
