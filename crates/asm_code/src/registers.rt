//! Instructions of registers alone, as the machine has them.

ghost use Rattle.std.specs.Prelude.{◌≡◌, ◌<◌, ℤ, MatchOption, [], ◌∷◌};
ghost use Rattle.asm_layout.specs.Expansions.{size_of_access, set_bits, fence_word, plain_instr, expansion, operand_of, Registers};

use asm_statement::{Fence, FenceSet, Instruction, PlainOp, Width};
use rv_isa::{ImmOp, Instr, Reg};

fn size_of_access(width: Width) -> u8
    ensures { result ≡ size_of_access width }
{
    match width {
        Width::Word => 4,
        Width::Doubleword => 8,
    }
}

fn set_bits(set: FenceSet) -> u32
    ensures value { result ≡ set_bits set }
    ensures bound { result < 16 }
{
    8 * u32::from(set.input)
        + 4 * u32::from(set.output)
        + 2 * u32::from(set.reads)
        + u32::from(set.writes)
}

fn fence_word(fence: Fence) -> u32
    ensures { result ≡ fence_word fence }
{
    0x0f + 0x10_0000 * set_bits(fence.after) + 0x100_0000 * set_bits(fence.before)
}

fn plain_instr(op: PlainOp) -> Instr
    ensures { result ≡ plain_instr op }
{
    let zero = Reg::new(0);
    match op {
        PlainOp::Ecall => Instr::Ecall,
        PlainOp::Ebreak => Instr::Ebreak,
        PlainOp::Nop => Instr::Imm(ImmOp::Addi, zero, zero, 0),
        PlainOp::Ret => Instr::Jalr(zero, Reg::new(1), 0),
    }
}

/// An instruction of registers alone.
#[tactic(auto, unfolding(asm_layout::specs::Expansions::expansion))]
pub(crate) fn fixed(instruction: &Instruction) -> Option<Instr>
    ensures { MatchOption result (operand_of instruction.now ≡ Registers → ⊥)
        (λ instr. (value : ℤ) → (expansion instruction.now).instrs value ≡ instr ∷ []) }
{
    match instruction {
        Instruction::Plain(op) => Some(plain_instr(*op)),
        Instruction::Op(op, rd, rs1, rs2) => Some(Instr::Op(*op, *rd, *rs1, *rs2)),
        Instruction::Amo(op, access, rd, rs1, rs2) => {
            let size = size_of_access(access.width);
            Some(Instr::Amo(*op, size, *rd, *rs1, *rs2, access.aq, access.rl))
        }
        Instruction::Lr(access, rd, rs1) => {
            let size = size_of_access(access.width);
            Some(Instr::Lr(size, *rd, *rs1, access.aq, access.rl))
        }
        Instruction::Sc(access, rd, rs1, rs2) => {
            let size = size_of_access(access.width);
            Some(Instr::Sc(size, *rd, *rs1, *rs2, access.aq, access.rl))
        }
        Instruction::Mv(rd, rs) => Some(Instr::Imm(ImmOp::Addi, *rd, *rs, 0)),
        Instruction::Jr(rs) => Some(Instr::Jalr(Reg::new(0), *rs, 0)),
        Instruction::Fence(fence) => Some(Instr::Fence(fence_word(*fence))),
        _ => None,
    }
}
