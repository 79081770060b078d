//! The operands of an assembler source's instructions.
//!
//! What is promised of each form and all operands: the answer is the instruction that the grammar's table
//! of forms gives them, or nothing where they aren't of that form; or there was no memory.
mod instructions;

pub use instructions::instruction;
