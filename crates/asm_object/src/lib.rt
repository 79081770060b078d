//! The object that an assembler source denotes.
//!
//! [`assemble`] gives its bytes, or the line at which the source is refused and the cause. Its parts are
//! those of the rules: the lines are read (`asm_text`), then [`layout`] judges what they say and places it
//! ([`Code`]), and last the object must not be larger than 8 MiB, which is known before any of its bytes is
//! made. What all that means stands in `asm_grammar` and `asm_layout`, definitions over the
//! source and over its lines.
//!
//! `asm_bytes` makes the bytes of each section, `asm_data` the numbers that its data hold.
#![tactic(auto)]

mod asm_bytes;
mod asm_data;
mod bases;
mod last;
mod object;
mod placing;

pub use asm_bytes::code_of;
pub use asm_data::numbers_of;
pub use asm_statement::AsmFault;
pub use asm_text::parse;
pub use ld_base::AsmCause;
pub use object::assemble;
pub use placing::{Code, layout};
