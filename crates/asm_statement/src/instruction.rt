//! Instructions: those of the machine, and those that stand for others.

use crate::number::Number;
use ld_base::Name;
use rv_isa::{AmoOp, BranchOp, ImmOp, LoadOp, Reg, RegOp, StoreOp};

/// How many bytes an atomic instruction reaches.
#[derive(Clone, Copy, PartialEq, Eq)]
pub enum Width {
    /// Four bytes.
    Word,
    /// Eight bytes.
    Doubleword,
}

/// How an atomic instruction reaches memory.
#[derive(Clone, Copy, PartialEq, Eq)]
pub struct Access {
    /// How many bytes it reaches.
    pub width: Width,
    /// Whether it acquires.
    pub aq: bool,
    /// Whether it releases.
    pub rl: bool,
}

/// What a fence orders on one of its sides.
#[derive(Clone, Copy, PartialEq, Eq)]
pub struct FenceSet {
    /// Input from devices.
    pub input: bool,
    /// Output to devices.
    pub output: bool,
    /// Reads of memory.
    pub reads: bool,
    /// Writes of memory.
    pub writes: bool,
}

/// What a fence orders.
#[derive(Clone, Copy, PartialEq, Eq)]
pub struct Fence {
    /// What has to happen before it.
    pub before: FenceSet,
    /// What has to wait for it.
    pub after: FenceSet,
}

/// An instruction without operands.
#[derive(Clone, Copy, PartialEq, Eq)]
pub enum PlainOp {
    Ecall,
    Ebreak,
    Nop,
    Ret,
}

/// A branch that compares a register with 0.
#[derive(Clone, Copy, PartialEq, Eq)]
pub enum ZeroBranchOp {
    Beqz,
    Bnez,
}

/// What of a name is put into a register.
#[derive(Clone, Copy, PartialEq, Eq)]
pub enum AddressOp {
    /// The address of a label.
    La,
    /// The address of a name, from the global offset table.
    Lga,
    /// The address of a pair of module and offset.
    LaTlsGd,
    /// The offset from the thread pointer.
    LaTlsIe,
}

/// An instruction whose number stands for the upper 20 bits of a word.
#[derive(Clone, Copy, PartialEq, Eq)]
pub enum UpperOp {
    Lui,
    Auipc,
}

/// An instruction of the machine, or one that stands for others, by the form of its operands and what
/// it means. Registers stand in the order rd, rs1, rs2.
#[derive(Drop)]
pub enum Instruction {
    Plain(PlainOp),
    /// A jump to a label, in one instruction.
    Jump(Name),
    /// A call of a name, which may be another object's.
    Call(Name),
    /// A jump to a name, which may be another object's.
    Tail(Name),
    /// A jump to a label, with the address behind it kept in a register.
    Jal(Reg, Name),
    BranchZero(ZeroBranchOp, Reg, Name),
    Branch(BranchOp, Reg, Reg, Name),
    Address(AddressOp, Reg, Name),
    Upper(UpperOp, Reg, Number),
    Li(Reg, Number),
    Load(LoadOp, Reg, Reg, Number),
    Store(StoreOp, Reg, Reg, Number),
    Imm(ImmOp, Reg, Reg, Number),
    Op(RegOp, Reg, Reg, Reg),
    Amo(AmoOp, Access, Reg, Reg, Reg),
    Lr(Access, Reg, Reg),
    Sc(Access, Reg, Reg, Reg),
    Jalr(Reg, Reg, Number),
    Mv(Reg, Reg),
    Jr(Reg),
    Fence(Fence),
}
