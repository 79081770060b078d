//! What an instruction needs.

ghost use Rattle.std.specs.Prelude.{◌≡◌};
ghost use Rattle.asm_layout.specs.Expansions.{address_expansion, operand_of};
ghost use Rattle.asm_layout.specs.Uses.{line_operand};
ghost use Rattle.asm_uses.specs.Operands.{operand_as};

use asm_layout::GotKind;
use asm_statement::{AddressOp, Instruction, Line, Number, Statement};
use ld_base::Name;

/// What has to be known of an instruction before it has its words.
#[derive(Clone, Copy)]
pub enum Operand<'a> {
    /// Nothing.
    Registers,
    /// A number that the instruction's form holds.
    Immediate(Number),
    /// A number of twenty bits without a sign.
    Upper(Number),
    /// A number of 32 bits with a sign.
    Word(Number),
    /// How far it is to a label.
    Label(&'a [u8]),
    /// How far it is to the code of a name, which another object may have.
    Code(&'a [u8]),
    /// How far it is to what the global offset table has of a name.
    Entry(GotKind, &'a [u8]),
}

/// What an instruction needs that puts something of a name into a register.
fn of_address(op: AddressOp, name: &Name) -> Operand<'_>
    ensures { operand_as result ≡ (address_expansion op 0 name.now).operand }
{
    match op {
        AddressOp::La => Operand::Label(name.as_bytes()),
        AddressOp::Lga => Operand::Entry(GotKind::Address, name.as_bytes()),
        AddressOp::LaTlsGd => Operand::Entry(GotKind::Pair, name.as_bytes()),
        AddressOp::LaTlsIe => Operand::Entry(GotKind::Offset, name.as_bytes()),
    }
}

impl<'a> Operand<'a> {
    /// What an instruction needs.
    #[tactic(auto, unfolding(asm_layout::specs::Expansions::expansion))]
    pub fn of(instruction: &'a Instruction) -> Self
        ensures { operand_as result ≡ operand_of instruction.now }
    {
        match instruction {
            Instruction::Jump(name)
            | Instruction::Jal(_, name)
            | Instruction::BranchZero(_, _, name)
            | Instruction::Branch(_, _, _, name) => Operand::Label(name.as_bytes()),
            Instruction::Call(name) | Instruction::Tail(name) => Operand::Code(name.as_bytes()),
            Instruction::Address(op, _, name) => of_address(*op, name),
            Instruction::Upper(_, _, number) => Operand::Upper(*number),
            Instruction::Li(_, number) => Operand::Word(*number),
            Instruction::Load(_, _, _, number)
            | Instruction::Store(_, _, _, number)
            | Instruction::Imm(_, _, _, number)
            | Instruction::Jalr(_, _, number) => Operand::Immediate(*number),
            Instruction::Plain(_)
            | Instruction::Op(..)
            | Instruction::Amo(..)
            | Instruction::Lr(..)
            | Instruction::Sc(..)
            | Instruction::Mv(..)
            | Instruction::Jr(_)
            | Instruction::Fence(_) => Operand::Registers,
        }
    }

    /// What the instruction of a line needs.
    pub fn of_line(line: &'a Line) -> Self
        ensures { operand_as result ≡ line_operand line.now.statement }
    {
        match &line.statement {
            Some(Statement::Instruction(instruction)) => Operand::of(instruction),
            Some(Statement::Directive(_)) | None => Operand::Registers,
        }
    }
}
