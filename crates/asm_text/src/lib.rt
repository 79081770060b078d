//! The statements of an assembler source.
//!
//! [`parse`] reads a source line by line. Each line may define a label, and may have one statement: a
//! directive or an instruction, whose operands are read. What they mean together, where labels are
//! and which numbers fit is for those above.
//!
//! What is promised of every source: either each of its lines is one of the grammar, and the answer
//! has them in order, or the answer is the first line that isn't, with its cause; or there was no
//! memory.
//!
//! `asm_parts` splits the text of a line, `asm_operands` and `asm_directives` read its operands.
#![tactic(auto)]

mod asm_directives;
mod asm_operands;
mod asm_parts;
mod lines;

pub use asm_directives::directive;
pub use asm_operands::instruction;
pub use asm_parts::{operands_of, words_of, zero};
pub use asm_statement::AsmFault;
pub use ld_base::AsmCause;
pub use lines::parse;
