//! Whether the numbers of statements fit.

ghost use Rattle.std.specs.Prelude.{◌≡◌};
ghost use Rattle.asm_layout.specs.Faults.{dword_fits, directive_fits, number_fits};
ghost use Rattle.asm_uses.specs.Operands.{operand_as};

use asm_places::{fits_addend, fits_count, fits_data, fits_dword, fits_li, fits_upper, value_of};
use asm_statement::{Directive, Doubleword};
use asm_uses::Operand;

fn dword_fits(value: &Doubleword) -> bool
    ensures { result ≡ dword_fits value.now }
{
    match value {
        Doubleword::Number(number) => fits_dword(*number),
        Doubleword::Address(_, addend) => fits_addend(*addend),
    }
}

/// Whether the number of a directive is one that it may have.
pub fn directive_fits(directive: &Directive) -> bool
    ensures { result ≡ directive_fits directive.now }
{
    match directive {
        Directive::Data(size, number) => fits_data(*size, *number),
        Directive::Zero(number) | Directive::Copy(_, number) => fits_count(*number),
        Directive::Dword(value) => dword_fits(value),
        Directive::Soname(_)
        | Directive::Needed(_)
        | Directive::Entry(_)
        | Directive::Export(..)
        | Directive::Weak(_)
        | Directive::Version(_)
        | Directive::Entries(..)
        | Directive::Section(_)
        | Directive::Kind(_)
        | Directive::Hash(_)
        | Directive::Flags(_)
        | Directive::Symver(_)
        | Directive::Need(_)
        | Directive::Asciz(_)
        | Directive::Align(_)
        | Directive::Relr => true,
    }
}

/// Whether the number of an operand is one that may be written. What the instruction's form can hold is
/// asked of the instructions that it stands for.
pub fn number_fits(operand: Operand<'_>) -> bool
    ensures { result ≡ number_fits (operand_as operand.entry) }
{
    match operand {
        Operand::Immediate(number) => value_of(number).is_some(),
        Operand::Upper(number) => fits_upper(number),
        Operand::Word(number) => fits_li(number),
        Operand::Registers | Operand::Label(_) | Operand::Code(_) | Operand::Entry(..) => true,
    }
}
