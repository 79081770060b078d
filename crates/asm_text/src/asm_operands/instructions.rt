//! The operands of instructions.

ghost use Rattle.std.specs.Prelude.{◌≡◌, IfOk, map};
ghost use Rattle.std.specs.Option.{option_map};
ghost use Rattle.asm_statement.specs.AsmWords.Text.{trimmed};
ghost use Rattle.asm_statement.specs.AsmWords.Registers.{register};
ghost use Rattle.asm_statement.specs.AsmWords.Number.{number};
ghost use Rattle.asm_statement.specs.AsmWords.Names.{name};
ghost use Rattle.asm_grammar.specs.Operands.{zero, everything, parenthesised, offset, address, base, jump_target};
ghost use Rattle.asm_grammar.specs.Operands.{one_register, two_registers, three_registers, registers_number, register_number};
ghost use Rattle.asm_grammar.specs.Operands.{register_address, register_base, registers_base, jump, fence, one_name, register_name, registers_name};
ghost use Rattle.asm_grammar.specs.Operands.{of_registers, of_memory, targeted, addressed, instruction};

use crate::asm_parts::zero;
use asm_statement::{
    AddressForm, Fence, FenceSet, Form, Instruction, MemoryForm, Number, RegisterForm, TargetForm,
    cut, fence_set, name_of, number_of, register, trimmed,
};
use ld_base::Name;
use rv_isa::Reg;
use std::alloc::{AllocError, Global};

#[tactic(auto, unfolding(asm_grammar::specs::Operands::parenthesised))]
fn parenthesised(text: &[u8]) -> Option<(&[u8], &[u8])>
    ensures { option_map (λ p. (p.0.now, p.1.now)) result ≡ parenthesised text.now }
{
    let (front, rest) = cut(text, b'(')?;
    let (inner, behind) = cut(rest, b')')?;
    if trimmed(behind).is_empty() {
        Some((trimmed(front), trimmed(inner)))
    } else {
        None
    }
}

fn offset(text: &[u8]) -> Option<Number>
    ensures { result ≡ offset text.now }
{
    if text.is_empty() {
        Some(zero())
    } else {
        number_of(text)
    }
}

#[tactic(auto, unfolding(asm_grammar::specs::Operands::address))]
fn address(text: &[u8]) -> Option<(Number, Reg)>
    ensures { result ≡ address text.now }
{
    let (front, inner) = parenthesised(text)?;
    Some((offset(front)?, register(inner)?))
}

#[tactic(auto, unfolding(asm_grammar::specs::Operands::base))]
fn base(text: &[u8]) -> Option<Reg>
    ensures { result ≡ base text.now }
{
    let (front, inner) = parenthesised(text)?;
    if front.is_empty() {
        register(inner)
    } else {
        None
    }
}

fn jump_target(text: &[u8]) -> Option<(Number, Reg)>
    ensures { result ≡ jump_target text.now }
{
    match register(text) {
        Some(rs1) => Some((zero(), rs1)),
        None => address(text),
    }
}

fn register_operand(text: &[u8]) -> Option<Reg>
    ensures { result ≡ register (trimmed text.now) }
{
    register(trimmed(text))
}

fn number_operand(text: &[u8]) -> Option<Number>
    ensures { result ≡ number (trimmed text.now) }
{
    number_of(trimmed(text))
}

fn name_operand(alloc: Global, text: &[u8]) -> Result<Option<Name>, AllocError>
    ensures { IfOk result (λ n. n ≡ name (trimmed text.now)) }
{
    name_of(alloc, trimmed(text))
}

fn one_register(operands: &[&[u8]]) -> Option<Reg>
    ensures { result ≡ one_register (map (λ operand. trimmed operand.now) operands.now) }
{
    match operands {
        [rd] => register_operand(rd),
        _ => None,
    }
}

fn two_registers(operands: &[&[u8]]) -> Option<(Reg, Reg)>
    ensures { result ≡ two_registers (map (λ operand. trimmed operand.now) operands.now) }
{
    match operands {
        [first, second] => Some((register_operand(first)?, register_operand(second)?)),
        _ => None,
    }
}

fn three_registers(operands: &[&[u8]]) -> Option<(Reg, Reg, Reg)>
    ensures { result ≡ three_registers (map (λ operand. trimmed operand.now) operands.now) }
{
    match operands {
        [rd, rs1, rs2] => Some((
            register_operand(rd)?,
            register_operand(rs1)?,
            register_operand(rs2)?,
        )),
        _ => None,
    }
}

fn registers_number(operands: &[&[u8]]) -> Option<(Reg, Reg, Number)>
    ensures { result ≡ registers_number (map (λ operand. trimmed operand.now) operands.now) }
{
    match operands {
        [rd, rs1, value] => Some((
            register_operand(rd)?,
            register_operand(rs1)?,
            number_operand(value)?,
        )),
        _ => None,
    }
}

fn register_number(operands: &[&[u8]]) -> Option<(Reg, Number)>
    ensures { result ≡ register_number (map (λ operand. trimmed operand.now) operands.now) }
{
    match operands {
        [rd, value] => Some((register_operand(rd)?, number_operand(value)?)),
        _ => None,
    }
}

fn register_address(operands: &[&[u8]]) -> Option<(Reg, Number, Reg)>
    ensures { result ≡ register_address (map (λ operand. trimmed operand.now) operands.now) }
{
    match operands {
        [first, place] => {
            let first = register_operand(first)?;
            let (distance, base) = address(trimmed(place))?;
            Some((first, distance, base))
        }
        _ => None,
    }
}

fn register_base(operands: &[&[u8]]) -> Option<(Reg, Reg)>
    ensures { result ≡ register_base (map (λ operand. trimmed operand.now) operands.now) }
{
    match operands {
        [rd, rs1] => Some((register_operand(rd)?, base(trimmed(rs1))?)),
        _ => None,
    }
}

fn registers_base(operands: &[&[u8]]) -> Option<(Reg, Reg, Reg)>
    ensures { result ≡ registers_base (map (λ operand. trimmed operand.now) operands.now) }
{
    match operands {
        [rd, rs2, rs1] => {
            let rd = register_operand(rd)?;
            let rs2 = register_operand(rs2)?;
            Some((rd, base(trimmed(rs1))?, rs2))
        }
        _ => None,
    }
}

fn jump(operands: &[&[u8]]) -> Option<(Reg, Reg, Number)>
    ensures { result ≡ jump (map (λ operand. trimmed operand.now) operands.now) }
{
    match operands {
        [rd, target] => {
            let rd = register_operand(rd)?;
            let (distance, rs1) = jump_target(trimmed(target))?;
            Some((rd, rs1, distance))
        }
        _ => registers_number(operands),
    }
}

fn everything() -> FenceSet
    ensures { result ≡ everything }
{
    FenceSet {
        input: true,
        output: true,
        reads: true,
        writes: true,
    }
}

fn fence(operands: &[&[u8]]) -> Option<Fence>
    ensures { result ≡ fence (map (λ operand. trimmed operand.now) operands.now) }
{
    match operands {
        [] => Some(Fence {
            before: everything(),
            after: everything(),
        }),
        [before, after] => Some(Fence {
            before: fence_set(trimmed(before))?,
            after: fence_set(trimmed(after))?,
        }),
        _ => None,
    }
}

fn one_name(alloc: Global, operands: &[&[u8]]) -> Result<Option<Name>, AllocError>
    ensures { IfOk result (λ n. n ≡ one_name (map (λ operand. trimmed operand.now) operands.now)) }
{
    match operands {
        [target] => name_operand(alloc, target),
        _ => Ok(None),
    }
}

fn register_name(alloc: Global, operands: &[&[u8]]) -> Result<Option<(Reg, Name)>, AllocError>
    ensures { IfOk result (λ p. p ≡ register_name (map (λ operand. trimmed operand.now) operands.now)) }
{
    let [rd, target] = operands else {
        return Ok(None);
    };
    let Some(rd) = register_operand(rd) else {
        return Ok(None);
    };
    match name_operand(alloc, target)? {
        Some(target) => Ok(Some((rd, target))),
        None => Ok(None),
    }
}

fn registers_name(alloc: Global, operands: &[&[u8]]) -> Result<Option<(Reg, Reg, Name)>, AllocError>
    ensures { IfOk result (λ p. p ≡ registers_name (map (λ operand. trimmed operand.now) operands.now)) }
{
    let [first, second, target] = operands else {
        return Ok(None);
    };
    let Some(rs1) = register_operand(first) else {
        return Ok(None);
    };
    let Some(rs2) = register_operand(second) else {
        return Ok(None);
    };
    match name_operand(alloc, target)? {
        Some(target) => Ok(Some((rs1, rs2, target))),
        None => Ok(None),
    }
}

/// An instruction of registers and numbers.
#[tactic(auto, unfolding(asm_grammar::specs::Operands::of_registers))]
fn of_registers(form: RegisterForm, operands: &[&[u8]]) -> Option<Instruction>
    ensures { result ≡ of_registers form (map (λ operand. trimmed operand.now) operands.now) }
{
    match form {
        RegisterForm::Plain(op) => operands.is_empty().then_some(Instruction::Plain(op)),
        RegisterForm::Upper(op) => {
            let (rd, value) = register_number(operands)?;
            Some(Instruction::Upper(op, rd, value))
        }
        RegisterForm::Li => {
            let (rd, value) = register_number(operands)?;
            Some(Instruction::Li(rd, value))
        }
        RegisterForm::Imm(op) => {
            let (rd, rs1, value) = registers_number(operands)?;
            Some(Instruction::Imm(op, rd, rs1, value))
        }
        RegisterForm::Op(op) => {
            let (rd, rs1, rs2) = three_registers(operands)?;
            Some(Instruction::Op(op, rd, rs1, rs2))
        }
        RegisterForm::Jalr => {
            let (rd, rs1, distance) = jump(operands)?;
            Some(Instruction::Jalr(rd, rs1, distance))
        }
        RegisterForm::Mv => {
            let (rd, rs1) = two_registers(operands)?;
            Some(Instruction::Mv(rd, rs1))
        }
        RegisterForm::Jr => Some(Instruction::Jr(one_register(operands)?)),
        RegisterForm::Fence => Some(Instruction::Fence(fence(operands)?)),
    }
}

/// An instruction that reaches memory.
#[tactic(auto, unfolding(asm_grammar::specs::Operands::of_memory))]
fn of_memory(form: MemoryForm, operands: &[&[u8]]) -> Option<Instruction>
    ensures { result ≡ of_memory form (map (λ operand. trimmed operand.now) operands.now) }
{
    match form {
        MemoryForm::Load(op) => {
            let (rd, distance, rs1) = register_address(operands)?;
            Some(Instruction::Load(op, rd, rs1, distance))
        }
        MemoryForm::Store(op) => {
            let (rs2, distance, rs1) = register_address(operands)?;
            Some(Instruction::Store(op, rs1, rs2, distance))
        }
        MemoryForm::Amo(op, access) => {
            let (rd, rs1, rs2) = registers_base(operands)?;
            Some(Instruction::Amo(op, access, rd, rs1, rs2))
        }
        MemoryForm::Lr(access) => {
            let (rd, rs1) = register_base(operands)?;
            Some(Instruction::Lr(access, rd, rs1))
        }
        MemoryForm::Sc(access) => {
            let (rd, rs1, rs2) = registers_base(operands)?;
            Some(Instruction::Sc(access, rd, rs1, rs2))
        }
    }
}

fn targeted(form: TargetForm, target: Name) -> Instruction
    ensures { result ≡ targeted form target }
{
    match form {
        TargetForm::Jump => Instruction::Jump(target),
        TargetForm::Call => Instruction::Call(target),
        TargetForm::Tail => Instruction::Tail(target),
    }
}

fn addressed(form: AddressForm, register: Reg, target: Name) -> Instruction
    ensures { result ≡ addressed form (register, target) }
{
    match form {
        AddressForm::Jal => Instruction::Jal(register, target),
        AddressForm::BranchZero(op) => Instruction::BranchZero(op, register, target),
        AddressForm::Address(op) => Instruction::Address(op, register, target),
    }
}

/// The instruction of a form with its operands; None where they aren't of that form.
///
/// # Errors
///
/// Want of memory.
#[tactic(auto, unfolding(asm_grammar::specs::Operands::instruction))]
pub fn instruction(
    alloc: Global,
    form: Form,
    operands: &[&[u8]],
) -> Result<Option<Instruction>, AllocError>
    ensures { IfOk result (λ i. i ≡ instruction form (map (λ operand. trimmed operand.now) operands.now)) }
{
    match form {
        Form::Target(form) => match one_name(alloc, operands)? {
            Some(target) => Ok(Some(targeted(form, target))),
            None => Ok(None),
        },
        Form::Address(form) => match register_name(alloc, operands)? {
            Some((register, target)) => Ok(Some(addressed(form, register, target))),
            None => Ok(None),
        },
        Form::Branch(op) => match registers_name(alloc, operands)? {
            Some((rs1, rs2, target)) => Ok(Some(Instruction::Branch(op, rs1, rs2, target))),
            None => Ok(None),
        },
        Form::Memory(form) => Ok(of_memory(form, operands)),
        Form::Register(form) => Ok(of_registers(form, operands)),
    }
}
