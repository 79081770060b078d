//! What a hart does with a word.

ghost use Rattle.std.specs.Prelude.{◌≡◌, ◌<◌, ◌%◌, ◌^◌, ◌*◌};
ghost use Rattle.rv_isa.specs.Encoding.{Decodes, HasForm, IsAtomicSize};
ghost use Rattle.rv_hart.specs.Buses.{IsSize};
ghost use Rattle.rv_hart.specs.Registers.{registers_of};
ghost use Rattle.rv_hart.specs.Instructions.{offset_by, jalr_target, is_taken, load_size, store_size, jump_access, sc_access, access_of};
ghost use Rattle.rv_hart.specs.Instructions.{IsPlanned, IsSized};

use crate::arithmetic::low_bytes;
use crate::{Access, Action, Hart, Held};
use rv_isa::{BranchOp, Instr, LoadOp, StoreOp, decode};

/// The address at a distance from another.
#[inline]
pub(crate) fn offset_by(address: u64, offset: i32) -> u64
    ensures { result ≡ offset_by address offset }
{
    address.wrapping_add(i64::from(offset).cast_unsigned())
}

/// The target of a jalr.
#[inline]
#[tactic(auto, using(std::proofs::lemmas::Nat::Bits::and_high_mask))]
pub(crate) fn jalr_target(address: u64, offset: i32) -> u64
    ensures { result ≡ jalr_target address offset }
{
    offset_by(address, offset) & !1
}

/// Whether a branch is taken.
#[inline]
pub(crate) fn is_taken(op: BranchOp, a: u64, b: u64) -> bool
    ensures { result ≡ is_taken op a b }
{
    match op {
        BranchOp::Beq => a == b,
        BranchOp::Bne => a != b,
        BranchOp::Blt => a.cast_signed() < b.cast_signed(),
        BranchOp::Bge => a.cast_signed() >= b.cast_signed(),
        BranchOp::Bltu => a < b,
        BranchOp::Bgeu => a >= b,
    }
}

fn load_size(op: LoadOp) -> u8
    ensures value { result ≡ load_size op }
    ensures size { IsSize result }
{
    match op {
        LoadOp::Lb | LoadOp::Lbu => 1,
        LoadOp::Lh | LoadOp::Lhu => 2,
        LoadOp::Lw | LoadOp::Lwu => 4,
        LoadOp::Ld => 8,
    }
}

fn store_size(op: StoreOp) -> u8
    ensures value { result ≡ store_size op }
    ensures size { IsSize result }
{
    match op {
        StoreOp::Sb => 1,
        StoreOp::Sh => 2,
        StoreOp::Sw => 4,
        StoreOp::Sd => 8,
    }
}

fn jump_access(target: u64) -> Access
    ensures { result ≡ jump_access target }
{
    if target % 4 == 0 {
        Access::Nothing
    } else {
        Access::Misaligned(target)
    }
}

fn sc_access(held: Option<Held>, address: u64, size: u8, value: u64) -> Access
    requires size { IsAtomicSize size }
    requires value { value < 2 ^ (8 * size) }
    ensures value { result ≡ sc_access held address size value }
    ensures sized { IsSized result }
{
    if address % u64::from(size) != 0 {
        return Access::Misaligned(address);
    }
    match held {
        Some(held) if held.address == address && held.size == size => {
            Access::Conditional(address, size, value, held.version)
        }
        _ => Access::Nothing,
    }
}

fn access_of(hart: &Hart, instr: &Instr) -> Access
    requires { HasForm instr.now }
    ensures value { result ≡ access_of (registers_of hart.now) instr.now }
    ensures sized { IsSized result }
{
    match instr {
        Instr::Jal(_, offset) => jump_access(offset_by(hart.pc, *offset)),
        Instr::Jalr(_, rs1, offset) => jump_access(jalr_target(hart.value(*rs1), *offset)),
        Instr::Branch(op, rs1, rs2, offset) if is_taken(*op, hart.value(*rs1), hart.value(*rs2)) =>
            { jump_access(offset_by(hart.pc, *offset)) }
        Instr::Load(op, _, rs1, offset) => {
            Access::Read(offset_by(hart.value(*rs1), *offset), load_size(*op))
        }
        Instr::Store(op, rs1, rs2, offset) => {
            let size = store_size(*op);
            let value = low_bytes(size, hart.value(*rs2));
            Access::Write(offset_by(hart.value(*rs1), *offset), size, value)
        }
        Instr::Amo(op, size, _, rs1, rs2, _, _) => {
            Access::Amo(
                hart.value(*rs1),
                *size,
                *op,
                low_bytes(*size, hart.value(*rs2)),
            )
        }
        Instr::Lr(size, _, rs1, _, _) => Access::Reserve(hart.value(*rs1), *size),
        Instr::Sc(size, _, rs1, rs2, _, _) => {
            let value = low_bytes(*size, hart.value(*rs2));
            sc_access(hart.held, hart.value(*rs1), *size, value)
        }
        Instr::Ecall => Access::Ecall,
        Instr::Ebreak => Access::Break,
        Instr::Branch(..) | Instr::Lui(..) | Instr::Auipc(..) | Instr::Fence(_) => Access::Nothing,
        Instr::Imm(..) | Instr::Op(..) => Access::Nothing,
    }
}

/// What a hart does with a word that it fetched. The hart stays as it is.
pub fn plan(hart: &Hart, word: u32) -> Action
    ensures instr { Decodes word result.instr }
    ensures planned { IsPlanned (registers_of hart.now) result }
    ensures sized { IsSized result.access }
{
    let instr = decode(word);
    let access = match &instr {
        Some(instr) => access_of(hart, instr),
        None => Access::Bad,
    };
    Action { instr, access }
}
