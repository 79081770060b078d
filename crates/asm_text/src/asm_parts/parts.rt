//! Texts that are operands or words, and the number that stands where none is written.

ghost use Rattle.std.specs.Prelude.{◌≡◌, IfOk, map};
ghost use Rattle.asm_statement.specs.AsmWords.Text.{trimmed};
ghost use Rattle.asm_grammar.specs.Operands.{operands_of, zero};
ghost use Rattle.asm_grammar.specs.Directives.{words_of};

use asm_statement::{Number, is_blank, parts_of};
use std::alloc::{AllocError, Global};

/// The operands between the commas of a text, with the blanks around them.
///
/// # Errors
///
/// Want of memory.
pub fn operands_of(alloc: Global, text: &[u8]) -> Result<Vec<&[u8]>, AllocError>
    ensures { IfOk result (λ parts. map (λ part. trimmed part.now) parts.items ≡ operands_of text.now) }
{
    if text.is_empty() {
        Ok(Vec::new(alloc))
    } else {
        parts_of(alloc, text)
    }
}

/// The words between the blanks of a text.
///
/// # Errors
///
/// Want of memory.
pub fn words_of(alloc: Global, text: &[u8]) -> Result<Vec<&[u8]>, AllocError>
    ensures { IfOk result (λ words. map (λ word. word.now) words.items ≡ words_of text.now) }
{
    text.split(|byte| is_blank(*byte))
        .filter(|word| !word.is_empty())
        .collect(alloc)
}

/// The number that an operand stands for where none is written.
pub fn zero() -> Number
    ensures { result ≡ zero }
{
    Number {
        is_negative: false,
        magnitude: Some(0),
    }
}
