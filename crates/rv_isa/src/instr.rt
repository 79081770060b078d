//! Instructions.

use crate::{AmoOp, BranchOp, ImmOp, LoadOp, Reg, RegOp, StoreOp};

/// An instruction of RV64IMA, its operands by position: the destination before the sources (rd, rs1,
/// rs2). An atomic one begins with how many bytes it reaches, 4 or 8, and ends with its acquire and
/// release bits.
#[derive(Clone, Copy, Debug, PartialEq, Eq)]
pub enum Instr {
    Lui(Reg, i32),
    Auipc(Reg, i32),
    Jal(Reg, i32),
    Jalr(Reg, Reg, i32),
    Branch(BranchOp, Reg, Reg, i32),
    Load(LoadOp, Reg, Reg, i32),
    Store(StoreOp, Reg, Reg, i32),
    Imm(ImmOp, Reg, Reg, i32),
    Op(RegOp, Reg, Reg, Reg),
    Amo(AmoOp, u8, Reg, Reg, Reg, bool, bool),
    Lr(u8, Reg, Reg, bool, bool),
    Sc(u8, Reg, Reg, Reg, bool, bool),
    /// A fence keeps its whole word, since none of its bits has an effect.
    Fence(u32),
    Ecall,
    Ebreak,
}
