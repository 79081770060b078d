//! The words of an instruction by itself.

ghost use Rattle.std.specs.Prelude.{◌≡◌, ◌&&◌, ℤ, true, false, Some, None, MatchOption, IfSome};
ghost use Rattle.asm_layout.specs.Expansions.{expansion, operand_of};
ghost use Rattle.asm_layout.specs.Faults.{number_fits, all_have_form};
ghost use Rattle.asm_layout.specs.Words.{instrs_of, words_or_none};
ghost use Rattle.asm_uses.specs.Operands.{operand_as};
ghost use Rattle.asm_code.specs.Encoded.{word_list, IsModest, MayBe};
ghost use Rattle.asm_code.specs.Single.{value_at};

use crate::encoding::LineWords;
use crate::fits::number_fits;
use crate::instructions::words;
use asm_places::value_of;
use asm_statement::Instruction;
use asm_uses::Operand;

/// The number of an operand, or the distance.
fn value_at(distance: i64, operand: Operand<'_>) -> Option<i128>
    ensures value { result ≡ value_at distance (operand_as operand.entry) }
    ensures modest { IfSome result IsModest }
    ensures range { number_fits (operand_as operand.entry) ≡ true → (v : ℤ) → result ≡ Some v → MayBe (operand_as operand.entry) v }
{
    match operand {
        Operand::Registers => Some(0),
        Operand::Immediate(number) => value_of(number),
        Operand::Upper(number) => value_of(number),
        Operand::Word(number) => value_of(number),
        Operand::Label(_) => Some(i128::from(distance)),
        Operand::Code(_) => Some(i128::from(distance)),
        Operand::Entry(..) => Some(i128::from(distance)),
    }
}

/// The words of an instruction whose name, where it has one, is so far away; None where its number or
/// the distance doesn't fit.
pub fn instruction_words(instruction: &Instruction, distance: i64) -> Option<LineWords>
    ensures { let instrs = instrs_of (expansion instruction.now) (value_at distance (operand_of instruction.now)) in
        MatchOption result ((number_fits (operand_of instruction.now) && all_have_form instrs) ≡ false)
        (λ words. ((number_fits (operand_of instruction.now) && all_have_form instrs) ≡ true) × (word_list words ≡ words_or_none instrs)) }
{
    let operand = Operand::of(instruction);
    if !number_fits(operand) {
        return None;
    }
    match value_at(distance, operand) {
        Some(value) => words(instruction, value),
        None => Some(LineWords::Nothing),
    }
}
