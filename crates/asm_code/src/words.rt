//! The words of all lines.

ghost use Rattle.std.specs.Prelude.{◌≡◌, ◌<◌, ◌+◌, ◌^◌, List, length, Some, None, IfOk, IfErr, MatchResult, slice_get};
ghost use Rattle.asm_layout.specs.Faults.{fault_at, HasNoFault};
ghost use Rattle.asm_layout.specs.Words.{words_at};
ghost use Rattle.asm_statement.specs.declared.line.Line.{Line};
ghost use Rattle.asm_uses.specs.Uses.{AreUsesOf};
ghost use Rattle.asm_places.specs.AsmNeeds.Files.{AreFilesOf};
ghost use Rattle.asm_places.specs.Counts.{ArePlacesOf};
ghost use Rattle.asm_code.specs.Atlas.{AreBasesOf, IsAtlasOf};
ghost use Rattle.asm_code.specs.Code.{AreWordsOf, IsFaultAt, TellsOf};
ghost use Rattle.asm_code.specs.Encoded.{word_list};

use crate::atlas::{Atlas, Bases};
use crate::encoding::LineWords;
use asm_places::{NeededFiles, Places};
use asm_statement::{AsmFault, Line, Statements};
use asm_uses::Uses;
use ld_base::Sequence;
use std::alloc::Global;

/// The words of a line with a number from 0, or the fault that is told of it.
fn words_or_fault(atlas: Atlas<'_>, number: usize, line: &Line) -> Result<LineWords, AsmFault>
    requires inside { number < length atlas.places.now.lines }
    requires counted { number + 1 < 2 ^ 64 }
    ensures { (lines : List Line) → IsAtlasOf lines atlas.entry → slice_get lines number ≡ Some line.now
        → MatchResult result
        (λ words. (fault_at lines number ≡ None) × (word_list words ≡ words_at lines number))
        (λ fault. IsFaultAt lines number fault) }
{
    match atlas.judge(number, line) {
        Ok(words) => Ok(words),
        Err(cause) => Err(AsmFault::At(number as u64 + 1, cause)),
    }
}

/// The words of each line of a source, or the first line that is refused.
///
/// # Errors
///
/// The first line that is refused with its first fault, or want of memory.
pub fn line_words(
    alloc: Global,
    statements: &Statements,
    uses: &Uses,
    needed: &NeededFiles,
    places: &Places,
    bases: &Bases,
) -> Result<Sequence<LineWords>, AsmFault>
    requires uses { AreUsesOf statements.now uses.now }
    requires needed { AreFilesOf statements.now needed.now }
    requires places { ArePlacesOf statements.now places.now }
    requires bases { AreBasesOf statements.now bases.now }
    ensures accepted { IfOk result (λ words. HasNoFault statements.now) }
    ensures words { IfOk result (AreWordsOf statements.now) }
    ensures refused { IfErr result (TellsOf statements.now) }
{
    let atlas = Atlas {
        uses,
        needed,
        places,
        bases,
    };
    let mut words = Sequence::new(alloc);
    for (number, line) in statements.as_slice().iter().enumerate() {
        words.push(words_or_fault(atlas, number, line)?)?;
    }
    Ok(words)
}
