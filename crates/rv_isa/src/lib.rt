//! The instructions of RV64IMA: their type, the instruction of a word, and the word of an
//! instruction.
//!
//! The table is that of the RISC-V Unprivileged ISA 20191213, chapter 24 ("RV32/64G Instruction Set
//! Listings"), for RV64I, the standard extensions M and A, and nothing else. An instruction is a row
//! of fields, the lowest first, each with its width and its value; the immediates stand in parts of
//! their own ("Immediate Encoding Variants"). A word is an instruction's where it has each of these
//! fields at its place.
//!
//! What is promised of every word and every instruction:
//!
//! - [`encode`] gives the instruction's word.
//! - [`decode`] gives the instruction whose word it is, and None exactly for a word that is no
//!   instruction's.
//! - An instruction that is encoded decodes to itself, and a word that decodes is what its
//!   instruction is encoded as: decoding keeps every bit, those of aq and rl and all of a fence
//!   among them.
//!
//! A [`Reg`] is one of x0 to x31. That an immediate, a size or a fence's word is one that the
//! instruction's form can hold is what [`encode`] asks for, and what [`decode`] gives. No call takes
//! memory.
#![tactic(auto)]

mod decoder;
mod encoder;
mod field;
mod instr;
mod laws;
mod operation;
mod register;

pub use decoder::decode;
pub use encoder::encode;
pub use instr::Instr;
pub use laws::{decoding_inverts_encoding, words_have_fields};
pub use operation::{AmoOp, BranchOp, ImmOp, LoadOp, RegOp, StoreOp};
pub use register::Reg;
