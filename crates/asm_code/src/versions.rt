//! Whether the indexes of versions fit.

ghost use Rattle.std.specs.Prelude.{◌≡◌, List};
ghost use Rattle.asm_statement.specs.declared.line.Line.{Line};
ghost use Rattle.asm_layout.specs.Faults.{is_version_index, need_fits, version_fits};
ghost use Rattle.asm_places.specs.AsmNeeds.Files.{AreFilesOf};
ghost use Rattle.asm_uses.specs.Uses.{AreUsesOf};

use asm_places::{NeededFiles, defined_number, first_needed};
use asm_statement::{Directive, Need};
use asm_uses::Uses;

/// Whether a version may have the index, which has 15 bits.
fn is_version_index(index: u128) -> bool
    ensures { result ≡ is_version_index index }
{
    index < 0x8000
}

/// Whether the index of the version that a line needs is one; a need that a later line replaces has none.
fn need_fits(uses: &Uses, needed: &NeededFiles, need: &Need) -> bool
    ensures { (lines : List Line) → AreUsesOf lines uses.now → AreFilesOf lines needed.now → result ≡ need_fits lines need.now }
{
    match needed.number(need.file.as_bytes(), need.version.as_bytes()) {
        Some(number) => is_version_index(first_needed(uses) + number),
        None => true,
    }
}

/// Whether the index of the version that a directive defines or needs is one.
pub(crate) fn version_fits(uses: &Uses, needed: &NeededFiles, directive: &Directive) -> bool
    ensures { (lines : List Line) → AreUsesOf lines uses.now → AreFilesOf lines needed.now → result ≡ version_fits lines directive.now }
{
    match directive {
        Directive::Version(name) => is_version_index(defined_number(uses, name.as_bytes())),
        Directive::Need(need) => need_fits(uses, needed, need),
        Directive::Soname(_)
        | Directive::Needed(_)
        | Directive::Entry(_)
        | Directive::Export(..)
        | Directive::Weak(_)
        | Directive::Entries(..)
        | Directive::Data(..)
        | Directive::Zero(_)
        | Directive::Section(_)
        | Directive::Kind(_)
        | Directive::Hash(_)
        | Directive::Flags(_)
        | Directive::Symver(_)
        | Directive::Dword(_)
        | Directive::Asciz(_)
        | Directive::Align(_)
        | Directive::Relr
        | Directive::Copy(..) => true,
    }
}
