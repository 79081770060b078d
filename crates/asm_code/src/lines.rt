//! The words of a line, or why it is refused.

ghost use Rattle.std.specs.Prelude.{◌≡◌, ◌<◌, ◌≤◌, ◌^◌, ℕ, true, false, List, length, Some, None, MatchOption, MatchResult, slice_get};
ghost use Rattle.asm_statement.specs.declared.line.Line.{Line};
ghost use Rattle.asm_layout.specs.Places.{place_at};
ghost use Rattle.asm_layout.specs.Words.{address_at, words_or_none, statement_words, words_at};
ghost use Rattle.asm_layout.specs.Faults.{fault_at, for_statement, statement_fits, statement_is_known, statement_may_stand, line_fault};
ghost use Rattle.asm_uses.specs.Uses.{AreUsesOf};
ghost use Rattle.asm_code.specs.Atlas.{IsAtlasOf};
ghost use Rattle.asm_code.specs.Here.{instrs_here, fits_here};
ghost use Rattle.asm_code.specs.Encoded.{word_list};

use crate::atlas::Atlas;
use crate::encoding::LineWords;
use crate::fits::{directive_fits, number_fits};
use crate::instructions::words;
use crate::known::statement_is_known;
use crate::sections::may_stand;
use crate::versions::version_fits;
use asm_layout::Place;
use asm_statement::{Instruction, Line, Section, Statement};
use asm_uses::{Operand, Uses};
use ld_base::AsmCause;

impl<'a> Atlas<'a> {
    /// The words of an instruction at an address; None where a number or a distance doesn't fit.
    fn instruction_words(self, here: u128, instruction: &Instruction) -> Option<LineWords>
        requires { here < 2 ^ 70 }
        ensures { (lines : List Line) → IsAtlasOf lines self.entry
            → MatchOption result (fits_here lines here instruction.now ≡ false)
            (λ words. (fits_here lines here instruction.now ≡ true) × (word_list words ≡ words_or_none (instrs_here lines here instruction.now))) }
    {
        let operand = Operand::of(instruction);
        if !number_fits(operand) {
            return None;
        }
        match self.value(here, operand) {
            Some(value) => words(instruction, value),
            None => Some(LineWords::Nothing),
        }
    }

    /// The words of a statement at an address; None where a number or a distance doesn't fit.
    fn statement_words(self, here: u128, statement: &Option<Statement>) -> Option<LineWords>
        requires { here < 2 ^ 70 }
        ensures { (lines : List Line) (k : ℕ) → IsAtlasOf lines self.entry → here ≡ address_at lines k
            → MatchOption result (for_statement (statement_fits lines k) statement.now ≡ false)
            (λ words. (for_statement (statement_fits lines k) statement.now ≡ true) × (word_list words ≡ statement_words lines k statement.now)) }
    {
        match statement {
            None => Some(LineWords::Nothing),
            Some(Statement::Directive(directive)) => {
                if directive_fits(directive) && version_fits(self.uses, self.needed, directive) {
                    Some(LineWords::Nothing)
                } else {
                    None
                }
            }
            Some(Statement::Instruction(instruction)) => self.instruction_words(here, instruction),
        }
    }
}

/// Whether a line's statement may stand in its section.
fn line_may_stand(section: Section, line: &Line) -> bool
    ensures { result ≡ for_statement (statement_may_stand section) line.now.statement }
{
    match &line.statement {
        Some(statement) => may_stand(section, statement),
        None => true,
    }
}

/// Whether the labels and versions that a line names are there.
fn line_is_known(uses: &Uses, line: &Line) -> bool
    ensures { (lines : List Line) → AreUsesOf lines uses.now → result ≡ for_statement (statement_is_known lines) line.now.statement }
{
    match &line.statement {
        Some(statement) => statement_is_known(uses, statement),
        None => true,
    }
}

impl<'a> Atlas<'a> {
    /// The words of a line with a number from 0, at its place and its address; or why it is refused.
    fn words_at(
        self,
        number: usize,
        line: &Line,
        place: Place,
        here: u128,
    ) -> Result<LineWords, AsmCause>
        requires { here < 2 ^ 70 }
        ensures { (lines : List Line) → IsAtlasOf lines self.entry → number ≤ length lines → place ≡ place_at lines number
            → here ≡ address_at lines number
            → MatchResult result
            (λ words. (line_fault lines number line.now ≡ None) × (word_list words ≡ statement_words lines number line.now.statement))
            (λ cause. line_fault lines number line.now ≡ Some cause) }
    {
        let Some(words) = self.statement_words(here, &line.statement) else {
            return Err(AsmCause::OutOfRange);
        };
        if self.uses.labels.is_double(line, number) {
            return Err(AsmCause::DoubleLabel);
        }
        if !line_is_known(self.uses, line) {
            return Err(AsmCause::UnknownLabel);
        }
        if !line_may_stand(place.section, line) {
            return Err(AsmCause::WrongSection);
        }
        Ok(words)
    }

    /// The words of a line with a number from 0, or why it is refused.
    ///
    /// # Errors
    ///
    /// The first cause for which the line is refused.
    #[tactic(auto, unfolding(asm_layout::specs::Faults::fault_at, asm_layout::specs::Words::words_at))]
    pub fn judge(self, number: usize, line: &Line) -> Result<LineWords, AsmCause>
        requires { number < length self.places.now.lines }
        ensures { (lines : List Line) → IsAtlasOf lines self.entry → slice_get lines number ≡ Some line.now
            → MatchResult result
            (λ words. (fault_at lines number ≡ None) × (word_list words ≡ words_at lines number))
            (λ cause. fault_at lines number ≡ Some cause) }
    {
        let place = self.places.lines.as_slice()[number];
        self.words_at(number, line, place, self.address(place))
    }
}
