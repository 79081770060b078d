//! The numbers of lines.

ghost use Rattle.std.specs.Prelude.{◌≡◌, List, length, IfOk};
ghost use Rattle.asm_statement.specs.declared.line.Line.{Line};
ghost use Rattle.asm_layout.specs.Spots.{sections_of};
ghost use Rattle.asm_uses.specs.Uses.{AreUsesOf};
ghost use Rattle.asm_places.specs.Counts.{ArePlacesOf, ArePlacesTo};
ghost use Rattle.asm_contents.specs.AsmFixes.Fixer.{IsFixerOf};
ghost use Rattle.asm_object.specs.AsmBytes.Numbers.{AreNumbersOf, dword_number, directive_number, statement_number};

use asm_contents::{Fixer, addend_of};
use asm_layout::Place;
use asm_places::Places;
use asm_statement::{Directive, Doubleword, Line, Statement, Statements};
use asm_symbols::{Spots, SymbolIndexes, own_numbers, sorted_exports, spot_of};
use asm_uses::Uses;
use asm_write::{Sections, Starts, file_word};
use ld_base::Longs;
use std::alloc::{AllocError, Global};

/// What a doubleword at a place holds.
fn dword_number(fixer: Fixer<'_>, starts: &Starts, place: Place, value: &Doubleword) -> u64
    ensures { (lines : List Line) → IsFixerOf lines fixer.entry → result ≡ dword_number lines starts.now place value.now }
{
    match value {
        Doubleword::Number(number) => addend_of(*number),
        Doubleword::Address(name, addend) => {
            let spot = spot_of(place);
            let fix = fixer.address_fix(spot, name.as_bytes(), addend_of(*addend));
            file_word(starts, &fix)
        }
    }
}

/// What the data of a directive at a place holds.
#[tactic(auto, unfolding(crate::specs::AsmBytes::Numbers::directive_number))]
fn directive_number(fixer: Fixer<'_>, starts: &Starts, place: Place, directive: &Directive) -> u64
    ensures { (lines : List Line) → IsFixerOf lines fixer.entry → result ≡ directive_number lines starts.now place directive.now }
{
    match directive {
        Directive::Data(_, number) => addend_of(*number),
        Directive::Dword(value) => dword_number(fixer, starts, place, value),
        Directive::Soname(_)
        | Directive::Needed(_)
        | Directive::Entry(_)
        | Directive::Export(..)
        | Directive::Weak(_)
        | Directive::Version(_)
        | Directive::Entries(..)
        | Directive::Zero(_)
        | Directive::Section(_)
        | Directive::Kind(_)
        | Directive::Hash(_)
        | Directive::Flags(_)
        | Directive::Symver(_)
        | Directive::Need(_)
        | Directive::Asciz(_)
        | Directive::Align(_)
        | Directive::Relr
        | Directive::Copy(..) => 0,
    }
}

/// What the data of a line at a place holds.
fn line_number(fixer: Fixer<'_>, starts: &Starts, place: Place, line: &Line) -> u64
    ensures { (lines : List Line) → IsFixerOf lines fixer.entry → result ≡ statement_number lines starts.now place line.now.statement }
{
    match &line.statement {
        Some(Statement::Directive(directive)) => directive_number(fixer, starts, place, directive),
        Some(Statement::Instruction(_)) | None => 0,
    }
}

/// What the data of each line holds.
fn each_number(
    alloc: Global,
    statements: &Statements,
    fixer: Fixer<'_>,
    places: &[Place],
    starts: &Starts,
) -> Result<Longs, AllocError>
    requires fixer { IsFixerOf statements.now fixer }
    requires places { ArePlacesTo statements.now (length statements.now) places.now }
    ensures { IfOk result (AreNumbersOf statements.now starts.now) }
{
    let mut numbers = Longs::new(alloc);
    for (number, line) in statements.as_slice().iter().enumerate() {
        numbers.push(line_number(fixer, starts, places[number], line))?;
    }
    Ok(numbers)
}

/// The number that the data of each line of a source holds in the file, by what the lines say of names,
/// where they stand, how large the sections are and where the parts of the object start; 0 for a line
/// without data.
///
/// # Errors
///
/// Want of memory.
pub fn numbers_of(
    alloc: Global,
    statements: &Statements,
    uses: &Uses,
    places: &Places,
    sections: &Sections,
    starts: &Starts,
) -> Result<Longs, AllocError>
    requires uses { AreUsesOf statements.now uses.now }
    requires places { ArePlacesOf statements.now places.now }
    requires sections { sections.now ≡ sections_of statements.now }
    ensures { IfOk result (AreNumbersOf statements.now starts.now) }
{
    let sorted = sorted_exports(alloc, uses.exports.as_slice())?;
    let own = own_numbers(alloc, sorted.as_slice())?;
    let spots = Spots { uses, places };
    let indexes = SymbolIndexes {
        imports: &uses.imports,
        own: &own,
    };
    let fixer = Fixer::of(statements, spots, indexes, sections);
    each_number(alloc, statements, fixer, places.lines.as_slice(), starts)
}
