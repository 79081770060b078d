//! The word of an instruction.

ghost use Rattle.std.specs.Prelude.{◌≡◌, ◌+◌, ◌<◌, ◌≤◌, ◌^◌, [], ◌∷◌};
ghost use Rattle.std.specs.Int.{from_bool};
ghost use Rattle.rv_isa.specs.Word.{bits, joined, part};
ghost use Rattle.rv_isa.specs.Opcodes.{imm_code};
ghost use Rattle.rv_isa.specs.Encoding.{upper_fields, size_code, word_of, HasForm, HasRegisters};

use crate::field::field;
use crate::{BranchOp, ImmOp, Instr, Reg, RegOp, StoreOp};

// An R-form word.
fn r_word(opcode: u32, rd: u32, funct3: u32, rs1: u32, rs2: u32, funct7: u32) -> u32
    requires opcode { opcode < 2 ^ 7 }
    requires rd { rd < 2 ^ 5 }
    requires funct3 { funct3 < 2 ^ 3 }
    requires rs1 { rs1 < 2 ^ 5 }
    requires rs2 { rs2 < 2 ^ 5 }
    requires funct7 { funct7 < 2 ^ 7 }
    ensures { result
        ≡ joined ((7, opcode) ∷ (5, rd) ∷ (3, funct3) ∷ (5, rs1) ∷ (5, rs2) ∷ (7, funct7) ∷ []) }
{
    opcode | rd << 7 | funct3 << 12 | rs1 << 15 | rs2 << 20 | funct7 << 25
}

// An I-form word.
fn i_word(opcode: u32, rd: Reg, funct3: u32, rs1: Reg, upper: u32) -> u32
    requires opcode { opcode < 2 ^ 7 }
    requires funct3 { funct3 < 2 ^ 3 }
    requires upper { upper < 2 ^ 12 }
    ensures word { result
        ≡ joined ((7, opcode) ∷ (5, rd) ∷ (3, funct3) ∷ (5, rs1) ∷ (12, upper) ∷ []) }
    ensures registers { (rd < 32) × (rs1 < 32) }
{
    let rd = u32::from(rd.number());
    let rs1 = u32::from(rs1.number());
    r_word(opcode, rd, funct3, rs1, upper & 0x1f, upper >> 5)
}

// A U-form word, whose upper twenty bits are these.
fn u_word(opcode: u32, rd: Reg, upper: u32) -> u32
    requires opcode { opcode < 2 ^ 7 }
    requires upper { upper < 2 ^ 20 }
    ensures word { result ≡ joined ((7, opcode) ∷ (5, rd) ∷ (20, upper) ∷ []) }
    ensures register { rd < 32 }
{
    opcode | u32::from(rd.number()) << 7 | upper << 12
}

// So many bits of a signed number, from one on.
fn part(number: i32, low: u32, width: u32) -> u32
    requires inside { low + width ≤ 32 }
    requires below { low < 32 }
    requires narrow { width < 32 }
    ensures value { result ≡ part number low width }
    ensures bound { result < 2 ^ width }
{
    field(number.cast_unsigned(), low, width)
}

fn jump(rd: Reg, offset: i32) -> u32
    ensures word { result ≡ word_of (Instr.Jal rd offset) }
    ensures register { HasRegisters (Instr.Jal rd offset) }
{
    let low = part(offset, 12, 8) | part(offset, 11, 1) << 8;
    u_word(
        0x6f,
        rd,
        low | part(offset, 1, 10) << 9 | part(offset, 20, 1) << 19,
    )
}

fn branch(op: BranchOp, rs1: Reg, rs2: Reg, offset: i32) -> u32
    ensures word { result ≡ word_of (Instr.Branch op rs1 rs2 offset) }
    ensures registers { HasRegisters (Instr.Branch op rs1 rs2 offset) }
{
    let rs1 = u32::from(rs1.number());
    let rs2 = u32::from(rs2.number());
    let low = part(offset, 11, 1) | part(offset, 1, 4) << 1;
    let high = part(offset, 5, 6) | part(offset, 12, 1) << 6;
    r_word(0x63, low, op.code(), rs1, rs2, high)
}

fn store(op: StoreOp, rs1: Reg, rs2: Reg, offset: i32) -> u32
    ensures word { result ≡ word_of (Instr.Store op rs1 rs2 offset) }
    ensures registers { HasRegisters (Instr.Store op rs1 rs2 offset) }
{
    let rs1 = u32::from(rs1.number());
    let rs2 = u32::from(rs2.number());
    r_word(
        0x23,
        part(offset, 0, 5),
        op.code(),
        rs1,
        rs2,
        part(offset, 5, 7),
    )
}

// The upper twelve bits of an instruction with an immediate.
fn upper(op: ImmOp, number: i32) -> u32
    ensures value { let code = imm_code op in result ≡ joined (upper_fields code.2 number) }
    ensures bound { result < 2 ^ 12 }
{
    match op {
        ImmOp::Slli | ImmOp::Srli => part(number, 0, 6),
        ImmOp::Srai => 0x400 | part(number, 0, 6),
        ImmOp::Slliw | ImmOp::Srliw => part(number, 0, 5),
        ImmOp::Sraiw => 0x400 | part(number, 0, 5),
        ImmOp::Addi | ImmOp::Slti | ImmOp::Sltiu | ImmOp::Addiw => part(number, 0, 12),
        ImmOp::Xori | ImmOp::Ori | ImmOp::Andi => part(number, 0, 12),
    }
}

fn with_immediate(op: ImmOp, rd: Reg, rs1: Reg, number: i32) -> u32
    ensures word { result ≡ word_of (Instr.Imm op rd rs1 number) }
    ensures registers { HasRegisters (Instr.Imm op rd rs1 number) }
{
    let (opcode, funct3) = op.code();
    i_word(opcode, rd, funct3, rs1, upper(op, number))
}

fn with_registers(op: RegOp, rd: Reg, rs1: Reg, rs2: Reg) -> u32
    ensures word { result ≡ word_of (Instr.Op op rd rs1 rs2) }
    ensures registers { HasRegisters (Instr.Op op rd rs1 rs2) }
{
    let (opcode, funct7, funct3) = op.code();
    let rd = u32::from(rd.number());
    let rs1 = u32::from(rs1.number());
    let rs2 = u32::from(rs2.number());
    r_word(opcode, rd, funct3, rs1, rs2, funct7)
}

// The size, aq and rl of an access in one step.
struct AtomicForm {
    size: u8,
    aq: bool,
    rl: bool,
}

// The word of an access in one step, whose kind is the funct5.
fn atomic(funct5: u32, form: AtomicForm, rd: Reg, rs1: Reg, rs2: u32) -> u32
    requires kind { funct5 < 2 ^ 5 }
    requires rs2 { rs2 < 2 ^ 5 }
    ensures word { result
        ≡ joined ((7, 0x2f) ∷ (5, rd) ∷ (3, size_code form.size) ∷ (5, rs1) ∷ (5, rs2)
        ∷ (1, from_bool form.rl) ∷ (1, from_bool form.aq) ∷ (5, funct5) ∷ []) }
    ensures registers { (rd < 32) × (rs1 < 32) }
{
    let AtomicForm { size, aq, rl } = form;
    let funct3 = if size == 4 { 2 } else { 3 };
    let rd = u32::from(rd.number());
    let rs1 = u32::from(rs1.number());
    r_word(
        0x2f,
        rd,
        funct3,
        rs1,
        rs2,
        u32::from(rl) | u32::from(aq) << 1 | funct5 << 2,
    )
}

/// The word of an instruction. Each immediate, each size and a fence's word is one that the
/// instruction's form can hold; each register is one of x0 to x31 as it is.
pub fn encode(instr: Instr) -> u32
    requires { HasForm instr }
    ensures word { result ≡ word_of instr }
    ensures registers { HasRegisters instr }
{
    match instr {
        Instr::Lui(rd, number) => u_word(0x37, rd, part(number, 12, 20)),
        Instr::Auipc(rd, number) => u_word(0x17, rd, part(number, 12, 20)),
        Instr::Jal(rd, offset) => jump(rd, offset),
        Instr::Jalr(rd, rs1, offset) => i_word(0x67, rd, 0, rs1, part(offset, 0, 12)),
        Instr::Branch(op, rs1, rs2, offset) => branch(op, rs1, rs2, offset),
        Instr::Load(op, rd, rs1, offset) => i_word(0x03, rd, op.code(), rs1, part(offset, 0, 12)),
        Instr::Store(op, rs1, rs2, offset) => store(op, rs1, rs2, offset),
        Instr::Imm(op, rd, rs1, number) => with_immediate(op, rd, rs1, number),
        Instr::Op(op, rd, rs1, rs2) => with_registers(op, rd, rs1, rs2),
        Instr::Amo(op, size, rd, rs1, rs2, aq, rl) => {
            atomic(
                op.code(),
                AtomicForm { size, aq, rl },
                rd,
                rs1,
                u32::from(rs2.number()),
            )
        }
        Instr::Lr(size, rd, rs1, aq, rl) => atomic(2, AtomicForm { size, aq, rl }, rd, rs1, 0),
        Instr::Sc(size, rd, rs1, rs2, aq, rl) => {
            atomic(
                3,
                AtomicForm { size, aq, rl },
                rd,
                rs1,
                u32::from(rs2.number()),
            )
        }
        Instr::Fence(word) => word,
        Instr::Ecall => 0x0000_0073,
        Instr::Ebreak => 0x0010_0073,
    }
}
