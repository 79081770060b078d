//! What is put at a place.

ghost use Rattle.std.specs.Prelude.{◌≡◌, ◌%◌, List, option_to_list};
ghost use Rattle.asm_statement.specs.declared.line.Line.{Line};
ghost use Rattle.asm_layout.specs.Fixes.{addend_of, address_fix, address_way, array_fix, array_way, copy_fix, is_at_doubleword, own_way, phase};
ghost use Rattle.asm_layout.specs.Fixes.{statement_fixes, table_spot, target_of, tls_fix};
ghost use Rattle.asm_layout.specs.Names.{is_executable};
ghost use Rattle.asm_layout.specs.Places.{padding};
ghost use Rattle.asm_layout.specs.Spots.{sections_of};
ghost use Rattle.asm_symbols.specs.Indexes.{AreIndexesOf};
ghost use Rattle.asm_symbols.specs.AsmTables.Spots.{AreSpotsOf};
ghost use Rattle.asm_contents.specs.AsmFixes.Fixer.{IsFixerOf};

use asm_places::value_of;
use asm_statement::{Directive, Doubleword, Line, Number, ObjectKind, Statement, Statements};
use asm_symbols::{Spots, SymbolIndexes};
use asm_uses::{is_relr, kind_of};
use asm_write::{Fix, FixKind, Part, Sections, Spot, Target, Way};

/// What tells what is put at a place: where labels stand, the indexes of symbols, what the source asks for.
#[derive(Clone, Copy)]
pub struct Fixer<'a> {
    pub spots: Spots<'a>,
    pub indexes: SymbolIndexes<'a>,
    /// Whether the object's own addresses are final.
    pub is_executable: bool,
    /// Whether relative relocations stand in the packed table.
    pub is_relr: bool,
    /// How far `.tdata` stands behind a multiple of 8.
    pub tdata_phase: u64,
}

fn is_executable(kind: ObjectKind) -> bool
    ensures { result ≡ is_executable kind }
{
    match kind {
        ObjectKind::Executable => true,
        ObjectKind::Library | ObjectKind::Program => false,
    }
}

/// How many bytes stand between an offset and the next multiple of an alignment; 0 asks for none.
fn padding(offset: u64, alignment: u64) -> u64
    ensures { result ≡ padding offset alignment }
{
    if alignment == 0 {
        0
    } else {
        (alignment - offset % alignment) % alignment
    }
}

/// A number as 64 bits hold it; 0 for one that fits nowhere.
pub fn addend_of(number: Number) -> u64
    ensures { result ≡ addend_of number }
{
    match value_of(number) {
        Some(value) => value.rem_euclid(1 << 64) as u64,
        None => 0,
    }
}

/// So far behind the start of a table.
pub(crate) fn table_spot(part: Part, offset: u128) -> Spot
    ensures { result ≡ table_spot part offset }
{
    Spot {
        part,
        offset: (offset % (1 << 64)) as u64,
    }
}

impl<'a> Fixer<'a> {
    /// That of the lines of a source, whose sections are so large.
    pub fn of(
        statements: &Statements,
        spots: Spots<'a>,
        indexes: SymbolIndexes<'a>,
        sections: &Sections,
    ) -> Self
        requires spots { AreSpotsOf statements.now spots }
        requires indexes { AreIndexesOf statements.now indexes }
        requires sections { sections.now ≡ sections_of statements.now }
        ensures { IsFixerOf statements.now result }
    {
        let relro = sections.relro.size;
        let behind = u128::from(relro) + u128::from(padding(relro, sections.tdata.align));
        Fixer {
            spots,
            indexes,
            is_executable: is_executable(kind_of(statements)),
            is_relr: is_relr(statements),
            tdata_phase: (behind % 8) as u64,
        }
    }

    /// How far a part stands behind a multiple of 8: `.relro` and `.data` begin at one.
    fn phase(self, part: Part) -> u64
        ensures { (lines : List Line) → IsFixerOf lines self.entry → result ≡ phase lines part % 8 }
    {
        match part {
            Part::Tdata => self.tdata_phase,
            Part::Head
            | Part::GnuHash
            | Part::SysvHash
            | Part::Symbols
            | Part::Strings
            | Part::Versym
            | Part::Verdef
            | Part::Verneed
            | Part::Rela
            | Part::Relr
            | Part::Jmprel
            | Part::Rodata
            | Part::Plt
            | Part::Text
            | Part::Dynamic
            | Part::Got
            | Part::PreinitArray
            | Part::InitArray
            | Part::FiniArray
            | Part::Relro
            | Part::Tbss
            | Part::GotPlt
            | Part::Data
            | Part::Bss => 0,
        }
    }

    /// Whether a place stands at a multiple of 8.
    fn is_at_doubleword(self, spot: Spot) -> bool
        ensures { (lines : List Line) → IsFixerOf lines self.entry → result ≡ is_at_doubleword lines spot }
    {
        (self.phase(spot.part) % 8 + spot.offset % 8) % 8 == 0
    }

    /// How the linker is told of an address of the object's own.
    fn own_way(self, spot: Spot) -> Way
        ensures { (lines : List Line) → IsFixerOf lines self.entry → result ≡ own_way lines spot }
    {
        if self.is_executable {
            Way::Plain
        } else if self.is_relr && self.is_at_doubleword(spot) {
            Way::Packed
        } else {
            Way::Listed
        }
    }

    /// How the linker is told of an entry of an array.
    fn array_way(self) -> Way
        ensures { (lines : List Line) → IsFixerOf lines self.entry → result ≡ array_way lines }
    {
        if self.is_relr {
            Way::Packed
        } else {
            Way::Listed
        }
    }

    /// What a name is to the linker: a symbol, or a place of the object's own.
    fn target(self, name: &[u8]) -> Target
        ensures { (lines : List Line) → IsFixerOf lines self.entry → result ≡ target_of lines name.now }
    {
        if self.spots.uses.is_preemptible(name) {
            Target::Symbol(self.indexes.index(name))
        } else {
            Target::Own(self.spots.own_spot(name))
        }
    }

    /// How the linker is told of the address of a name.
    fn address_way(self, spot: Spot, name: &[u8]) -> Way
        ensures { (lines : List Line) → IsFixerOf lines self.entry → result ≡ address_way lines spot name.now }
    {
        if self.spots.uses.is_preemptible(name) {
            Way::Listed
        } else {
            self.own_way(spot)
        }
    }

    /// The address of a name and so many bytes more, at a place.
    pub fn address_fix(self, spot: Spot, name: &[u8], addend: u64) -> Fix
        ensures { (lines : List Line) → IsFixerOf lines self.entry → result ≡ address_fix lines spot name.now addend }
    {
        Fix {
            spot,
            way: self.address_way(spot, name),
            kind: FixKind::Address,
            target: self.target(name),
            addend,
        }
    }

    /// What of a thread-local name stands in the global offset table.
    pub(crate) fn tls_fix(self, kind: FixKind, offset: u128, name: &[u8]) -> Fix
        ensures { (lines : List Line) → IsFixerOf lines self.entry → result ≡ tls_fix lines kind offset name.now }
    {
        Fix {
            spot: table_spot(Part::Got, offset),
            way: Way::Listed,
            kind,
            target: self.target(name),
            addend: 0,
        }
    }

    /// The entry of an array.
    pub(crate) fn array_fix(self, part: Part, offset: u128, name: &[u8]) -> Fix
        ensures { (lines : List Line) → IsFixerOf lines self.entry → result ≡ array_fix lines part offset name.now }
    {
        Fix {
            spot: table_spot(part, offset),
            way: self.array_way(),
            kind: FixKind::Address,
            target: Target::Own(self.spots.own_spot(name)),
            addend: 0,
        }
    }

    /// A copy of another object's data.
    fn copy_fix(self, spot: Spot, name: &[u8]) -> Fix
        ensures { (lines : List Line) → IsFixerOf lines self.entry → result ≡ copy_fix lines spot name.now }
    {
        Fix {
            spot,
            way: Way::Listed,
            kind: FixKind::Copy,
            target: Target::Symbol(self.indexes.index(name)),
            addend: 0,
        }
    }

    /// What a line that stands at a place has the linker put there.
    pub(crate) fn statement_fix(self, spot: Spot, line: &Line) -> Option<Fix>
        ensures { (lines : List Line) → IsFixerOf lines self.entry → option_to_list result ≡ statement_fixes lines spot line.now.statement }
    {
        match &line.statement {
            Some(Statement::Directive(Directive::Dword(Doubleword::Address(name, addend)))) => Some(
                self.address_fix(spot, name.as_bytes(), addend_of(*addend)),
            ),
            Some(Statement::Directive(Directive::Copy(name, _))) => Some(self.copy_fix(
                spot,
                name.as_bytes(),
            )),
            _ => None,
        }
    }
}
