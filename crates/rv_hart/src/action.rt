//! What an instruction does beyond its hart, and what it gets for it.

use rv_isa::{AmoOp, Instr};

/// What a hart does with a word: the instruction, where the word is one, and what it needs done.
#[derive(Clone, Copy, Debug, PartialEq, Eq)]
pub struct Action {
    pub instr: Option<Instr>,
    pub access: Access,
}

/// The one access that an instruction makes, or why it makes none. Sizes are in bytes.
#[derive(Clone, Copy, Debug, PartialEq, Eq)]
pub enum Access {
    /// None: the instruction works on registers alone, or is an SC without a fitting reservation.
    Nothing,
    /// The address and the size of a load.
    Read(u64, u8),
    /// The address, the size and the value of a store.
    Write(u64, u8, u64),
    /// The address, the size, the operation and the value of an atomic memory operation.
    Amo(u64, u8, AmoOp, u64),
    /// The address and the size of an LR.
    Reserve(u64, u8),
    /// The address, the size and the value of an SC, and the version that its reservation keeps.
    Conditional(u64, u8, u64, u64),
    /// An ecall, which whoever runs the hart answers.
    Ecall,
    /// An ebreak.
    Break,
    /// The word is no instruction.
    Bad,
    /// The target of a jump, or the address of an SC, is no multiple of what it must be.
    Misaligned(u64),
}

/// What an access gives.
#[derive(Clone, Copy, Debug, PartialEq, Eq)]
pub enum Answer {
    Nothing,
    /// The value that a load or an atomic memory operation found.
    Value(u64),
    /// The value that an LR found, and the version of its doubleword.
    Held(u64, u64),
    /// Whether an SC stored.
    Stored(bool),
}
