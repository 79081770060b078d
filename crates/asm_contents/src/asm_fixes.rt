//! The places of an assembler source's object that the linker fills, in ascending order.
//!
//! [`Fixer`] tells what is put at a place, and how the linker is told of it; [`fixes_of`] has those of the whole
//! object: the global offset table, the arrays, the sections. What all that means is in `asm_layout`,
//! definitions over the lines.
mod fixer;
mod fixes;

pub use fixer::{Fixer, addend_of};
pub use fixes::fixes_of;
