//! The words that an instruction stands for.

ghost use Rattle.std.specs.Prelude.{◌≡◌, ◌^◌, ◌-◌, pos, neg_ℤ, ◌≤ℤ◌, false, MatchOption, [], ◌∷◌, option_map};
ghost use Rattle.rv_isa.specs.declared.operation.LoadOp.TheVariants as loads;
ghost use Rattle.rv_isa.specs.declared.operation.ImmOp.TheVariants as imms;
ghost use Rattle.asm_layout.specs.Expansions.{upper, lower, wrapped, upper_instr, li_instrs, address_expansion, zero_branch, operand_of, expansion, Registers};
ghost use Rattle.asm_layout.specs.Numbers.{fits_addi};
ghost use Rattle.asm_layout.specs.Faults.{is_within};
ghost use Rattle.asm_code.specs.Encoded.{encoded, word_list, IsModest, MayBe};

use crate::encoding::LineWords;
use crate::forms::{one, two};
use crate::registers::fixed;
use asm_places::fits_addi;
use asm_statement::{AddressOp, Instruction, Number, UpperOp, ZeroBranchOp};
use rv_isa::{BranchOp, ImmOp, Instr, LoadOp, Reg, StoreOp};

/// A signed number of 32 bits, where it is one.
fn narrow(value: i128) -> Option<i32>
    ensures { MatchOption result (is_within 32 value ≡ false) (λ n. n ≡ value) }
{
    i32::try_from(value).ok()
}

/// A jump.
fn jal(rd: Reg, value: i128) -> Option<LineWords>
    ensures { option_map word_list result ≡ encoded (Instr.Jal rd value ∷ []) }
{
    match narrow(value) {
        Some(offset) => one(Instr::Jal(rd, offset)),
        None => None,
    }
}

/// A jump to a register's address and a number.
fn jalr(rd: Reg, rs1: Reg, value: i128) -> Option<LineWords>
    ensures { option_map word_list result ≡ encoded (Instr.Jalr rd rs1 value ∷ []) }
{
    match narrow(value) {
        Some(offset) => one(Instr::Jalr(rd, rs1, offset)),
        None => None,
    }
}

/// A branch.
fn branch(op: BranchOp, rs1: Reg, rs2: Reg, value: i128) -> Option<LineWords>
    ensures { option_map word_list result ≡ encoded (Instr.Branch op rs1 rs2 value ∷ []) }
{
    match narrow(value) {
        Some(offset) => one(Instr::Branch(op, rs1, rs2, offset)),
        None => None,
    }
}

/// A load.
fn load(op: LoadOp, rd: Reg, rs1: Reg, value: i128) -> Option<LineWords>
    ensures { option_map word_list result ≡ encoded (Instr.Load op rd rs1 value ∷ []) }
{
    match narrow(value) {
        Some(offset) => one(Instr::Load(op, rd, rs1, offset)),
        None => None,
    }
}

/// A store.
fn store(op: StoreOp, rs1: Reg, rs2: Reg, value: i128) -> Option<LineWords>
    ensures { option_map word_list result ≡ encoded (Instr.Store op rs1 rs2 value ∷ []) }
{
    match narrow(value) {
        Some(offset) => one(Instr::Store(op, rs1, rs2, offset)),
        None => None,
    }
}

/// Arithmetic with a number.
fn imm(op: ImmOp, rd: Reg, rs1: Reg, value: i128) -> Option<LineWords>
    ensures { option_map word_list result ≡ encoded (Instr.Imm op rd rs1 value ∷ []) }
{
    match narrow(value) {
        Some(number) => one(Instr::Imm(op, rd, rs1, number)),
        None => None,
    }
}

/// The upper and the lower part of a number; None where the upper part has more than 32 bits.
fn split(number: i128) -> Option<(i32, i32)>
    requires { IsModest number }
    ensures { MatchOption result (is_within 32 (upper number) ≡ false) (λ p. (p.0 ≡ upper number) × (p.1 ≡ lower number)) }
{
    let shifted = number + 0x800;
    let rest = shifted.rem_euclid(0x1000);
    let lower = rest as i32 - 0x800;
    match narrow(shifted - rest) {
        Some(upper) => Some((upper, lower)),
        None => None,
    }
}

/// A jump at a distance, by way of a register.
fn far_jump(link: Reg, by: Reg, distance: i128) -> Option<LineWords>
    requires { IsModest distance }
    ensures { option_map word_list result ≡ encoded (Instr.Auipc by (upper distance) ∷ Instr.Jalr link by (lower distance) ∷ []) }
{
    match split(distance) {
        Some((upper, lower)) => two(Instr::Auipc(by, upper), Instr::Jalr(link, by, lower)),
        None => None,
    }
}

/// An address at a distance.
fn far_address(rd: Reg, distance: i128) -> Option<LineWords>
    requires { IsModest distance }
    ensures { option_map word_list result
        ≡ encoded (Instr.Auipc rd (upper distance) ∷ Instr.Imm imms.Addi rd rd (lower distance) ∷ []) }
{
    match split(distance) {
        Some((upper, lower)) => two(
            Instr::Auipc(rd, upper),
            Instr::Imm(ImmOp::Addi, rd, rd, lower),
        ),
        None => None,
    }
}

/// The doubleword at a distance.
fn far_load(rd: Reg, distance: i128) -> Option<LineWords>
    requires { IsModest distance }
    ensures { option_map word_list result
        ≡ encoded (Instr.Auipc rd (upper distance) ∷ Instr.Load loads.Ld rd rd (lower distance) ∷ []) }
{
    match split(distance) {
        Some((upper, lower)) => two(
            Instr::Auipc(rd, upper),
            Instr::Load(LoadOp::Ld, rd, rd, lower),
        ),
        None => None,
    }
}

/// `lui` or `auipc` of a number that has twenty bits.
fn upper_words(op: UpperOp, rd: Reg, value: i128) -> Option<LineWords>
    requires low { pos 0 ≤ℤ value }
    requires high { value ≤ℤ pos (2 ^ 20 - 1) }
    ensures { option_map word_list result ≡ encoded (upper_instr op rd value ∷ []) }
{
    let bits = 0x1000 * value as u32;
    match op {
        UpperOp::Lui => one(Instr::Lui(rd, bits.cast_signed())),
        UpperOp::Auipc => one(Instr::Auipc(rd, bits.cast_signed())),
    }
}

/// A number as 32 bits hold it, where it is at most one greater than one of 32 bits.
fn wrapped(number: i128) -> i32
    requires low { neg_ℤ (pos (2 ^ 31)) ≤ℤ number }
    requires high { number ≤ℤ pos (2 ^ 31) }
    ensures { result ≡ wrapped number }
{
    if number == 1 << 31 {
        i32::MIN
    } else {
        number as i32
    }
}

/// The upper part of a number of 32 bits, as 32 bits hold it, and its lower part.
fn wrapped_split(number: i128) -> (i32, i32)
    requires low { neg_ℤ (pos (2 ^ 31)) ≤ℤ number }
    requires high { number ≤ℤ pos (2 ^ 31 - 1) }
    ensures { (result.0 ≡ wrapped (upper number)) × (result.1 ≡ lower number) }
{
    let shifted = number + 0x800;
    let rest = shifted.rem_euclid(0x1000);
    (wrapped(shifted - rest), rest as i32 - 0x800)
}

/// `li` of a number of 32 bits.
fn li(rd: Reg, number: Number, value: i128) -> Option<LineWords>
    requires low { neg_ℤ (pos (2 ^ 31)) ≤ℤ value }
    requires high { value ≤ℤ pos (2 ^ 31 - 1) }
    ensures { option_map word_list result ≡ encoded (li_instrs (fits_addi number) rd value) }
{
    if fits_addi(number) {
        return imm(ImmOp::Addi, rd, Reg::new(0), value);
    }
    let (upper, lower) = wrapped_split(value);
    two(
        Instr::Lui(rd, upper),
        Instr::Imm(ImmOp::Addiw, rd, rd, lower),
    )
}

/// What puts something of a name into a register.
fn address(op: AddressOp, rd: Reg, distance: i128) -> Option<LineWords>
    requires { IsModest distance }
    ensures { option_map word_list result ≡ encoded ((address_expansion op rd []).instrs distance) }
{
    match op {
        AddressOp::La | AddressOp::LaTlsGd => far_address(rd, distance),
        AddressOp::Lga | AddressOp::LaTlsIe => far_load(rd, distance),
    }
}

fn zero_branch(op: ZeroBranchOp) -> BranchOp
    ensures { result ≡ zero_branch op }
{
    match op {
        ZeroBranchOp::Beqz => BranchOp::Beq,
        ZeroBranchOp::Bnez => BranchOp::Bne,
    }
}

/// The words of an instruction of registers alone.
#[tactic(auto, unfolding(asm_layout::specs::Expansions::expansion))]
fn fixed_words(instruction: &Instruction, value: i128) -> Option<LineWords>
    ensures { operand_of instruction.now ≡ Registers
        → option_map word_list result ≡ encoded ((expansion instruction.now).instrs value) }
{
    match fixed(instruction) {
        Some(instr) => one(instr),
        None => None,
    }
}

/// The words of an instruction whose number or distance is known; None where a form can't hold it.
#[tactic(auto, unfolding(asm_layout::specs::Expansions::expansion))]
pub(crate) fn words(instruction: &Instruction, value: i128) -> Option<LineWords>
    requires modest { IsModest value }
    requires range { MayBe (operand_of instruction.now) value }
    ensures { option_map word_list result ≡ encoded ((expansion instruction.now).instrs value) }
{
    match instruction {
        Instruction::Jump(_) => jal(Reg::new(0), value),
        Instruction::Jal(rd, _) => jal(*rd, value),
        Instruction::BranchZero(op, rs, _) => branch(zero_branch(*op), *rs, Reg::new(0), value),
        Instruction::Branch(op, rs1, rs2, _) => branch(*op, *rs1, *rs2, value),
        Instruction::Call(_) => far_jump(Reg::new(1), Reg::new(1), value),
        Instruction::Tail(_) => far_jump(Reg::new(0), Reg::new(6), value),
        Instruction::Address(op, rd, _) => address(*op, *rd, value),
        Instruction::Upper(op, rd, _) => upper_words(*op, *rd, value),
        Instruction::Li(rd, number) => li(*rd, *number, value),
        Instruction::Load(op, rd, rs1, _) => load(*op, *rd, *rs1, value),
        Instruction::Store(op, rs1, rs2, _) => store(*op, *rs1, *rs2, value),
        Instruction::Imm(op, rd, rs1, _) => imm(*op, *rd, *rs1, value),
        Instruction::Jalr(rd, rs1, _) => jalr(*rd, *rs1, value),
        Instruction::Plain(_)
        | Instruction::Op(..)
        | Instruction::Amo(..)
        | Instruction::Lr(..)
        | Instruction::Sc(..)
        | Instruction::Mv(..)
        | Instruction::Jr(_)
        | Instruction::Fence(_) => fixed_words(instruction, value),
    }
}
