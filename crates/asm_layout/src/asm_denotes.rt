//! The object that an assembler source denotes, and why a source denotes none: definitions and their law; a
//! module without code.
//!
//! `specs/AsmDenotes/Denotes` puts the grammar of the lines (`asm_grammar`) and what they mean together into
//! the two answers that a source has: bytes, or the line at which it is refused and the cause. The parts are in
//! this order: reading, what the lines say, the object's size; in a part the first line that is refused counts.
//!
//! [`one_answer`]: a source denotes one object, or is refused at one line and for one cause; never both.
mod law;

pub use law::one_answer;
