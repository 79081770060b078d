//! What an instruction leaves of its hart.

ghost use Rattle.std.specs.Prelude.{◌≡◌, ◌<◌, ◌^◌, ◌*◌, slice_index};
ghost use Rattle.rv_hart.specs.Registers.{registers_of};
ghost use Rattle.rv_hart.specs.Instructions.{load_size, loaded, atomic_loaded, branched, found_in, reserved, released, access_of, registers_after};
ghost use Rattle.rv_hart.specs.Instructions.{after_action, IsPlanned, IsOfKind, IsValue, IsReservation};

use crate::arithmetic::{imm_result, reg_result};
use crate::planning::{is_taken, jalr_target, offset_by};
use crate::{Action, Answer, Hart, Held};
use rv_isa::{BranchOp, Instr, LoadOp, Reg};

// What a load puts into rd.
fn loaded(op: LoadOp, value: u64) -> u64
    requires { value < 2 ^ (8 * load_size op) }
    ensures { result ≡ loaded op value }
{
    match op {
        LoadOp::Lb => i64::from((value as u8).cast_signed()).cast_unsigned(),
        LoadOp::Lh => i64::from((value as u16).cast_signed()).cast_unsigned(),
        LoadOp::Lw => i64::from((value as u32).cast_signed()).cast_unsigned(),
        LoadOp::Ld | LoadOp::Lbu | LoadOp::Lhu | LoadOp::Lwu => value,
    }
}

// What an atomic access puts into rd.
fn atomic_loaded(size: u8, value: u64) -> u64
    requires { value < 2 ^ (8 * size) }
    ensures { result ≡ atomic_loaded size value }
{
    if size == 4 {
        i64::from((value as u32).cast_signed()).cast_unsigned()
    } else {
        value
    }
}

fn branch(hart: &mut Hart, op: BranchOp, rs1: Reg, rs2: Reg, offset: i32)
    ensures { registers_of hart.new ≡ branched (registers_of hart.old) op rs1 rs2 offset }
{
    if is_taken(op, hart.value(rs1), hart.value(rs2)) {
        hart.pc = offset_by(hart.pc, offset);
    } else {
        hart.pass();
    }
}

fn load(hart: &mut Hart, op: LoadOp, rd: Reg, answer: Answer)
    requires { IsValue (load_size op) answer }
    ensures { registers_of hart.new ≡ found_in (registers_of hart.old) rd (loaded op) answer }
{
    if let Answer::Value(value) = answer {
        hart.finish(rd, loaded(op, value));
    }
}

fn swap(hart: &mut Hart, size: u8, rd: Reg, answer: Answer)
    requires { IsValue size answer }
    ensures { registers_of hart.new
        ≡ found_in (registers_of hart.old) rd (atomic_loaded size) answer }
{
    if let Answer::Value(value) = answer {
        hart.finish(rd, atomic_loaded(size, value));
    }
}

fn reserve(hart: &mut Hart, size: u8, rd: Reg, rs1: Reg, answer: Answer)
    requires { IsReservation size answer }
    ensures { let r = registers_of hart.old
        in registers_of hart.new ≡ reserved r rd (slice_index r.x rs1) size answer }
{
    if let Answer::Held(value, version) = answer {
        let address = hart.value(rs1);
        hart.finish(rd, atomic_loaded(size, value));
        hart.held = Some(Held {
            address,
            size,
            version,
        });
    }
}

fn conditional(hart: &mut Hart, rd: Reg, answer: Answer)
    ensures { registers_of hart.new ≡ released (registers_of hart.old) rd answer }
{
    let code = match answer {
        Answer::Stored(true) => 0,
        _ => 1,
    };
    hart.held = None;
    hart.finish(rd, code);
}

// Does the rest of an instruction.
fn finish_instr(hart: &mut Hart, instr: Instr, answer: Answer)
    requires { IsOfKind (access_of (registers_of hart.old) instr) answer }
    ensures { registers_of hart.new ≡ registers_after (registers_of hart.old) instr answer }
{
    match instr {
        Instr::Lui(rd, number) => hart.finish(rd, i64::from(number).cast_unsigned()),
        Instr::Auipc(rd, number) => hart.finish(rd, offset_by(hart.pc, number)),
        Instr::Jal(rd, offset) => hart.jump(rd, offset_by(hart.pc, offset)),
        Instr::Jalr(rd, rs1, offset) => hart.jump(rd, jalr_target(hart.value(rs1), offset)),
        Instr::Branch(op, rs1, rs2, offset) => branch(hart, op, rs1, rs2, offset),
        Instr::Load(op, rd, _, _) => load(hart, op, rd, answer),
        Instr::Imm(op, rd, rs1, number) => hart.finish(rd, imm_result(op, hart.value(rs1), number)),
        Instr::Op(op, rd, rs1, rs2) => {
            hart.finish(rd, reg_result(op, hart.value(rs1), hart.value(rs2)));
        }
        Instr::Amo(_, size, rd, _, _, _, _) => swap(hart, size, rd, answer),
        Instr::Lr(size, rd, rs1, _, _) => reserve(hart, size, rd, rs1, answer),
        Instr::Sc(_, rd, _, _, _, _) => conditional(hart, rd, answer),
        Instr::Store(..) | Instr::Fence(_) | Instr::Ecall => hart.pass(),
        Instr::Ebreak => {}
    }
}

/// Does the rest of an instruction, once its access has given its answer.
pub fn complete(hart: &mut Hart, action: Action, answer: Answer)
    requires planned { IsPlanned (registers_of hart.old) action }
    requires kind { IsOfKind action.access answer }
    ensures { registers_of hart.new
        ≡ after_action (registers_of hart.old) action.instr answer }
{
    if let Some(instr) = action.instr {
        finish_instr(hart, instr, answer);
    }
}
