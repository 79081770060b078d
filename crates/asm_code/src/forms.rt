//! Which instructions have a word.

ghost use Rattle.std.specs.Prelude.{◌≡◌, ◌==◌, ◌&&◌, Some, None, [], ◌∷◌, if◌then◌else◌, option_map};
ghost use Rattle.rv_isa.specs.Encoding.{word_of};
ghost use Rattle.rv_isa.specs.Opcodes.{imm_code};
ghost use Rattle.rv_isa.specs.Word.{bits, part};
ghost use Rattle.asm_layout.specs.Faults.{has_form, is_within, is_distance, is_upper, fits_field, is_atomic_size, is_fence};
ghost use Rattle.asm_code.specs.Encoded.{encoded, word_list};

use crate::encoding::LineWords;
use rv_isa::{ImmOp, Instr, encode};

/// Whether a signed number has twelve bits.
fn is_short(number: i32) -> bool
    ensures { result ≡ is_within 12 number }
{
    -(1 << 11) <= number && number < 1 << 11
}

/// Whether the lowest bit is 0.
#[tactic(auto, unfolding(rv_isa::specs::Word::bits))]
fn is_even(number: i32) -> bool
    ensures { result ≡ (part number 0 1 == 0) }
{
    number.cast_unsigned() % 2 == 0
}

/// Whether a signed number is the distance of a jump: 21 bits, the lowest of them 0.
fn is_jump(number: i32) -> bool
    ensures { result ≡ is_distance 21 number }
{
    -(1 << 20) <= number && number < 1 << 20 && is_even(number)
}

/// Whether a signed number is the distance of a branch: 13 bits, the lowest of them 0.
fn is_branch(number: i32) -> bool
    ensures { result ≡ is_distance 13 number }
{
    -(1 << 12) <= number && number < 1 << 12 && is_even(number)
}

/// Whether the lowest twelve bits are 0.
#[tactic(auto, unfolding(rv_isa::specs::Word::bits))]
fn is_upper(number: i32) -> bool
    ensures { result ≡ is_upper number }
{
    number.cast_unsigned() % 4096 == 0
}

/// Whether the number is one that the upper bits of an instruction with an immediate hold.
fn imm_fits(op: ImmOp, number: i32) -> bool
    ensures { result ≡ fits_field (imm_code op).2 number }
{
    match op {
        ImmOp::Addi
        | ImmOp::Slti
        | ImmOp::Sltiu
        | ImmOp::Xori
        | ImmOp::Ori
        | ImmOp::Andi
        | ImmOp::Addiw => is_short(number),
        ImmOp::Slli | ImmOp::Srli | ImmOp::Srai => 0 <= number && number < 64,
        ImmOp::Slliw | ImmOp::Srliw | ImmOp::Sraiw => 0 <= number && number < 32,
    }
}

/// Whether an atomic instruction may reach so many bytes.
fn is_atomic_size(size: u8) -> bool
    ensures { result ≡ is_atomic_size size }
{
    size == 4 || size == 8
}

/// Whether a fence's word has the opcode and the function of a fence.
#[tactic(auto, unfolding(rv_isa::specs::Word::bits))]
fn is_fence(word: u32) -> bool
    ensures { result ≡ is_fence word }
{
    word % 128 == 0x0f && word / 4096 % 8 == 0
}

/// Whether an instruction's number is one that its form can hold.
#[tactic(auto, unfolding(asm_layout::specs::Faults::has_form))]
fn has_form(instr: &Instr) -> bool
    ensures { result ≡ has_form instr.now }
{
    match instr {
        Instr::Lui(_, number) => is_upper(*number),
        Instr::Auipc(_, number) => is_upper(*number),
        Instr::Jal(_, offset) => is_jump(*offset),
        Instr::Branch(_, _, _, offset) => is_branch(*offset),
        Instr::Jalr(_, _, offset) => is_short(*offset),
        Instr::Load(_, _, _, offset) => is_short(*offset),
        Instr::Store(_, _, _, offset) => is_short(*offset),
        Instr::Imm(op, _, _, number) => imm_fits(*op, *number),
        Instr::Amo(_, size, ..) => is_atomic_size(*size),
        Instr::Lr(size, ..) => is_atomic_size(*size),
        Instr::Sc(size, ..) => is_atomic_size(*size),
        Instr::Fence(word) => is_fence(*word),
        Instr::Op(..) | Instr::Ecall | Instr::Ebreak => true,
    }
}

/// The word of an instruction that has its form.
fn word_of(instr: Instr) -> Option<u32>
    ensures { result ≡ (if has_form instr then Some (word_of instr) else None) }
{
    asm_layout::forms_are_those_of_the_table();
    if has_form(&instr) {
        Some(encode(instr))
    } else {
        None
    }
}

/// The word of one instruction.
pub(crate) fn one(instr: Instr) -> Option<LineWords>
    ensures { option_map word_list result ≡ encoded (instr ∷ []) }
{
    match word_of(instr) {
        Some(word) => Some(LineWords::One(word)),
        None => None,
    }
}

/// The words of two instructions.
pub(crate) fn two(first: Instr, second: Instr) -> Option<LineWords>
    ensures { option_map word_list result ≡ encoded (first ∷ second ∷ []) }
{
    match (word_of(first), word_of(second)) {
        (Some(first), Some(second)) => Some(LineWords::Two(first, second)),
        _ => None,
    }
}
