//! Placed code.

ghost use Rattle.std.specs.Prelude.{◌≡◌, IfOk, IfErr};
ghost use Rattle.asm_write.specs.Starts.{starts_of};
ghost use Rattle.asm_layout.specs.Contents.{contents_of};
ghost use Rattle.asm_layout.specs.Faults.{HasNoFault};
ghost use Rattle.asm_uses.specs.Uses.{AreUsesOf};
ghost use Rattle.asm_places.specs.AsmNeeds.Files.{AreFilesOf};
ghost use Rattle.asm_places.specs.Counts.{ArePlacesOf};
ghost use Rattle.asm_code.specs.Code.{TellsOf, AreWordsOf};
ghost use Rattle.asm_object.specs.Code.{IsCodeOf};

use crate::asm_data::numbers_of;
use crate::bases::bases_of;
use asm_code::{LineWords, line_words};
use asm_contents::contents_of;
use asm_places::{NeededFiles, Places};
use asm_statement::{AsmFault, Statements};
use asm_uses::Uses;
use asm_write::{Contents, Starts};
use ld_base::{Longs, Sequence};
use std::alloc::Global;

/// What the object of a source holds and where it stands, before it has its bytes.
#[derive(Drop)]
pub struct Code {
    /// Where the lines stand.
    pub places: Places,
    /// How many slots the procedure linkage table has.
    pub slots: usize,
    /// What the object holds.
    pub contents: Contents,
    /// Where its parts start.
    pub starts: Starts,
    /// The words of each line.
    pub words: Sequence<LineWords>,
    /// The number that the data of each line holds.
    pub numbers: Longs,
}

/// The code of lines that have these words.
#[tactic(auto, using(crate::proofs::Held::sections_held))]
fn with_words(
    alloc: Global,
    statements: &Statements,
    uses: &Uses,
    places: Places,
    contents: Contents,
    starts: Starts,
    words: Sequence<LineWords>,
) -> Result<Code, AsmFault>
    requires uses { AreUsesOf statements.now uses.now }
    requires places { ArePlacesOf statements.now places }
    requires contents { contents ≡ contents_of statements.now }
    requires starts { starts ≡ starts_of (contents_of statements.now) }
    requires words { AreWordsOf statements.now words }
    ensures placed { IfOk result (IsCodeOf statements.now) }
    ensures refused { IfErr result (TellsOf statements.now) }
{
    match numbers_of(
        alloc,
        statements,
        uses,
        &places,
        &contents.sections,
        &starts,
    ) {
        Ok(numbers) => Ok(Code {
            places,
            slots: uses.slots.len(),
            contents,
            starts,
            words,
            numbers,
        }),
        Err(_) => Err(AsmFault::Memory),
    }
}

/// The code of lines whose object holds this and has its parts there.
fn with_starts(
    alloc: Global,
    statements: &Statements,
    uses: &Uses,
    needed: &NeededFiles,
    places: Places,
    contents: Contents,
    starts: Starts,
) -> Result<Code, AsmFault>
    requires uses { AreUsesOf statements.now uses.now }
    requires needed { AreFilesOf statements.now needed.now }
    requires places { ArePlacesOf statements.now places }
    requires contents { contents ≡ contents_of statements.now }
    requires starts { starts ≡ starts_of (contents_of statements.now) }
    ensures accepted { IfOk result (λ code. HasNoFault statements.now) }
    ensures placed { IfOk result (IsCodeOf statements.now) }
    ensures refused { IfErr result (TellsOf statements.now) }
{
    let bases = bases_of(&starts);
    match line_words(alloc, statements, uses, needed, &places, &bases) {
        Ok(words) => with_words(alloc, statements, uses, places, contents, starts, words),
        Err(fault) => Err(fault),
    }
}

/// The code of lines whose object holds this.
fn with_contents(
    alloc: Global,
    statements: &Statements,
    uses: &Uses,
    needed: &NeededFiles,
    places: Places,
    contents: Contents,
) -> Result<Code, AsmFault>
    requires uses { AreUsesOf statements.now uses.now }
    requires needed { AreFilesOf statements.now needed.now }
    requires places { ArePlacesOf statements.now places }
    requires contents { contents ≡ contents_of statements.now }
    ensures accepted { IfOk result (λ code. HasNoFault statements.now) }
    ensures placed { IfOk result (IsCodeOf statements.now) }
    ensures refused { IfErr result (TellsOf statements.now) }
{
    match Starts::of(alloc, &contents) {
        Ok(starts) => with_starts(alloc, statements, uses, needed, places, contents, starts),
        Err(_) => Err(AsmFault::Memory),
    }
}

/// The code of lines that stand there.
fn with_places(
    alloc: Global,
    statements: &Statements,
    uses: &Uses,
    needed: &NeededFiles,
    places: Places,
) -> Result<Code, AsmFault>
    requires uses { AreUsesOf statements.now uses.now }
    requires needed { AreFilesOf statements.now needed.now }
    requires places { ArePlacesOf statements.now places }
    ensures accepted { IfOk result (λ code. HasNoFault statements.now) }
    ensures placed { IfOk result (IsCodeOf statements.now) }
    ensures refused { IfErr result (TellsOf statements.now) }
{
    match contents_of(alloc, statements, uses, needed, &places) {
        Ok(contents) => with_contents(alloc, statements, uses, needed, places, contents),
        Err(_) => Err(AsmFault::Memory),
    }
}

/// The code of lines that need these versions.
fn with_needed(
    alloc: Global,
    statements: &Statements,
    uses: &Uses,
    needed: &NeededFiles,
) -> Result<Code, AsmFault>
    requires uses { AreUsesOf statements.now uses.now }
    requires needed { AreFilesOf statements.now needed.now }
    ensures accepted { IfOk result (λ code. HasNoFault statements.now) }
    ensures placed { IfOk result (IsCodeOf statements.now) }
    ensures refused { IfErr result (TellsOf statements.now) }
{
    match Places::of(alloc, statements) {
        Ok(places) => with_places(alloc, statements, uses, needed, places),
        Err(_) => Err(AsmFault::Memory),
    }
}

/// The code of lines that say this of names.
fn with_uses(alloc: Global, statements: &Statements, uses: &Uses) -> Result<Code, AsmFault>
    requires { AreUsesOf statements.now uses.now }
    ensures accepted { IfOk result (λ code. HasNoFault statements.now) }
    ensures placed { IfOk result (IsCodeOf statements.now) }
    ensures refused { IfErr result (TellsOf statements.now) }
{
    match NeededFiles::of(alloc, uses.needs.as_slice()) {
        Ok(needed) => with_needed(alloc, statements, uses, &needed),
        Err(_) => Err(AsmFault::Memory),
    }
}

/// The code of the lines of a source, placed; or the first line that is refused, with its first fault.
///
/// # Errors
///
/// Lines count from 1. `OutOfRange`: a number or a distance that doesn't fit. `DoubleLabel`: a name that an
/// earlier line defines. `UnknownLabel`: a label or a version that has to be defined and isn't.
/// `WrongSection`: a statement that may not stand in its section. Or want of memory.
pub fn layout(alloc: Global, statements: &Statements) -> Result<Code, AsmFault>
    ensures accepted { IfOk result (λ code. HasNoFault statements.now) }
    ensures placed { IfOk result (IsCodeOf statements.now) }
    ensures refused { IfErr result (TellsOf statements.now) }
{
    match Uses::of(alloc, statements) {
        Ok(uses) => with_uses(alloc, statements, &uses),
        Err(_) => Err(AsmFault::Memory),
    }
}
