//! The indexes of symbols.

ghost use Rattle.std.specs.Prelude.{◌≡◌, ◌&&◌, ℕ, List, Some, None, IfOk, OnOk, if◌then◌else◌};
ghost use Rattle.std.specs.Option.{option_or};
ghost use Rattle.std.specs.Str.{bytes_eq};
ghost use Rattle.asm_statement.specs.declared.line.Line.{Line};
ghost use Rattle.asm_layout.specs.Symbols.{sorted_exports, symbol_index};
ghost use Rattle.asm_uses.specs.Numbers.{number_of};
ghost use Rattle.asm_symbols.specs.Indexes.{AreIndexesOf, AreOwnNumbers, is_own};

use crate::asm_tables::word;
use asm_layout::Exported;
use asm_uses::{FirstNumbers, NameSet};
use std::alloc::{AllocError, Global};

/// Whether the symbol is a label's by its own name: one that `.symver` exports has a version which the
/// object defines.
fn is_own(exported: &Exported) -> bool
    ensures { result ≡ is_own exported.now }
{
    exported.is_needed || exported.version.is_none()
}

/// Notes the number of a symbol for its label, where it is the label's by its own name.
fn note(
    alloc: Global,
    numbers: &mut FirstNumbers,
    exported: &Exported,
    at: usize,
) -> Result<(), AllocError>
    ensures { OnOk result ((name : List ℕ) → number_of numbers.new name
        ≡ option_or (number_of numbers.old name) (if is_own exported.now && bytes_eq name exported.now.label then Some at else None)) }
{
    if !is_own(exported) {
        return Ok(());
    }
    numbers.note(alloc, exported.label.as_bytes(), at)
}

/// The places of labels' own symbols among the exported ones.
///
/// # Errors
///
/// Want of memory.
pub fn own_numbers(alloc: Global, sorted: &[Exported]) -> Result<FirstNumbers, AllocError>
    ensures { IfOk result (λ numbers. (lines : List Line) → sorted.now ≡ sorted_exports lines → AreOwnNumbers lines numbers) }
{
    let mut numbers = FirstNumbers::new(alloc);
    for (at, exported) in sorted.iter().enumerate() {
        note(alloc, &mut numbers, exported, at)?;
    }
    Ok(numbers)
}

/// What tells the index of a symbol: the undefined ones, and the places of labels' own symbols among the
/// exported ones.
#[derive(Clone, Copy)]
pub struct SymbolIndexes<'a> {
    pub imports: &'a NameSet,
    pub own: &'a FirstNumbers,
}

impl<'a> SymbolIndexes<'a> {
    /// The index of the symbol of a name.
    #[tactic(auto, unfolding(asm_layout::specs::Symbols::symbol_index))]
    pub fn index(self, name: &[u8]) -> u32
        ensures { (lines : List Line) → AreIndexesOf lines self.entry → result ≡ symbol_index lines name.now }
    {
        match self.imports.number(name) {
            Some(at) => word(1 + at as u128),
            None => {
                let first = 1 + self.imports.len() as u128;
                word(first + self.own.get(name).unwrap_or(0) as u128)
            }
        }
    }
}
