//! How many bytes a line puts into its section.

ghost use Rattle.std.specs.Prelude.{◌≡◌, ◌≤◌, IfSome};
ghost use Rattle.asm_layout.specs.Places.{padding, words_in, directive_size, size_at};
ghost use Rattle.asm_layout.specs.Numbers.{bytes_of};

use crate::numbers::{count_of, fits_addi};
use asm_statement::{Alignment, DataSize, Directive, Instruction, Line, Statement};

/// How many bytes stand between an offset and the next multiple of the alignment.
pub fn padding(offset: u64, alignment: Alignment) -> u64
    ensures { result ≡ padding offset alignment }
{
    let bytes = alignment.bytes();
    (bytes - offset % bytes) % bytes
}

fn bytes_of(size: DataSize) -> u64
    ensures { result ≡ bytes_of size }
{
    match size {
        DataSize::Word => 4,
        DataSize::Half => 2,
        DataSize::Byte => 1,
    }
}

/// How many instructions of the machine the instruction stands for.
#[tactic(auto, unfolding(asm_layout::specs::Places::words_in, asm_layout::specs::Expansions::expansion))]
fn words_in(instruction: &Instruction) -> u64
    ensures value { result ≡ words_in instruction.now }
    ensures few { result ≤ 2 }
{
    match instruction {
        Instruction::Call(_) | Instruction::Tail(_) | Instruction::Address(..) => 2,
        Instruction::Li(_, number) => { if fits_addi(*number) { 1 } else { 2 } }
        Instruction::Plain(_)
        | Instruction::Jump(_)
        | Instruction::Jal(..)
        | Instruction::BranchZero(..)
        | Instruction::Branch(..)
        | Instruction::Upper(..)
        | Instruction::Load(..)
        | Instruction::Store(..)
        | Instruction::Imm(..)
        | Instruction::Op(..)
        | Instruction::Amo(..)
        | Instruction::Lr(..)
        | Instruction::Sc(..)
        | Instruction::Jalr(..)
        | Instruction::Mv(..)
        | Instruction::Jr(_)
        | Instruction::Fence(_) => 1,
    }
}

/// How many bytes the directive puts at an offset; None where that is no number of 64 bits.
#[tactic(auto, unfolding(asm_layout::specs::Places::directive_size))]
fn directive_size(offset: u64, directive: &Directive) -> Option<u64>
    ensures { IfSome result (λ size. size ≡ directive_size offset directive.now) }
{
    match directive {
        Directive::Data(size, _) => Some(bytes_of(*size)),
        Directive::Zero(number) | Directive::Copy(_, number) => Some(count_of(*number)),
        Directive::Dword(_) => Some(8),
        Directive::Asciz(text) => (text.len() as u64).checked_add(1),
        Directive::Align(alignment) => Some(padding(offset, *alignment)),
        Directive::Soname(_)
        | Directive::Needed(_)
        | Directive::Entry(_)
        | Directive::Export(..)
        | Directive::Weak(_)
        | Directive::Version(_)
        | Directive::Entries(..)
        | Directive::Section(_)
        | Directive::Kind(_)
        | Directive::Hash(_)
        | Directive::Flags(_)
        | Directive::Symver(_)
        | Directive::Need(_)
        | Directive::Relr => Some(0),
    }
}

/// How many bytes a line puts at an offset; None where that is no number of 64 bits.
pub(crate) fn size_at(offset: u64, line: &Line) -> Option<u64>
    ensures { IfSome result (λ size. size ≡ size_at offset line.now.statement) }
{
    match &line.statement {
        None => Some(0),
        Some(Statement::Directive(directive)) => directive_size(offset, directive),
        Some(Statement::Instruction(instruction)) => Some(4 * words_in(instruction)),
    }
}
