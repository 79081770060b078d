//! What the object holds.

ghost use Rattle.std.specs.Prelude.{◌≡◌, ◌++◌, [], List, IfOk, OnOk, map};
ghost use Rattle.asm_write.specs.HashBuild.Hashed.{gnu_of, sysv_of};
ghost use Rattle.asm_statement.specs.declared.line.Line.{Line};
ghost use Rattle.asm_layout.specs.Contents.{contents_of, elf_kind, entry_name, soname_offset};
ghost use Rattle.asm_layout.specs.Contents.{needed_at, offsets_from, strings_of, imports_at, exports_at, versions_at, files_at, needed_versions_at};
ghost use Rattle.asm_layout.specs.Fixes.{fixes_of};
ghost use Rattle.asm_layout.specs.Spots.{label_spot, sections_of};
ghost use Rattle.asm_layout.specs.Symbols.{export_entries, first_export, import_entries, sorted_exports, symbol_index};
ghost use Rattle.asm_layout.specs.Tables.{flags_of, has_gnu, has_sysv, hash_of, needed, soname, versions};
ghost use Rattle.asm_layout.specs.Uses.{imports, slots};
ghost use Rattle.asm_layout.specs.Versions.{first_needed, has_versions, need_records, needed_files, needed_records, records_for, word};
ghost use Rattle.asm_places.specs.AsmNeeds.Files.{AreFilesOf};
ghost use Rattle.asm_places.specs.Counts.{ArePlacesOf};
ghost use Rattle.asm_symbols.specs.Indexes.{AreIndexesOf};
ghost use Rattle.asm_symbols.specs.AsmTables.Spots.{AreSpotsOf};
ghost use Rattle.asm_uses.specs.Uses.{AreUsesOf};
ghost use Rattle.asm_contents.specs.Marks.{AreMarksOf};
ghost use Rattle.asm_contents.specs.Blank.{blank_contents, IsSource, gnu_table, sysv_table, own_records};

use crate::asm_fixes::{Fixer, fixes_of};
use crate::needs::{push_files, push_needed};
use crate::object_words::{elf_kind, entry_name, flags_of, has_gnu, has_sysv, soname};
use crate::strings::{Marks, append_strings, push_offsets};
use asm_layout::Exported;
use asm_places::{NeededFiles, Places};
use asm_statement::Statements;
use asm_symbols::{
    Spots, SymbolFacts, SymbolIndexes, SymbolTable, gnu_hashes, has_versions, own_numbers,
    records_for, sections_of, sorted_exports, sysv_hashes, word,
};
use asm_uses::{Uses, hash_of};
use asm_write::{Contents, Extent, Sections, VersionRecord, gnu_of, sysv_of};
use ld_base::{GnuPart, Ints, Kind, ObjFlags, Sequence, SysvPart};
use std::alloc::{AllocError, Global};

/// The lines of a source, what they say of names and of versions, and where they stand.
#[derive(Clone, Copy)]
struct Source<'a> {
    statements: &'a Statements,
    uses: &'a Uses,
    needed: &'a NeededFiles,
    places: &'a Places,
}

/// Contents without anything, to be filled in.
fn blank(alloc: Global) -> Contents
    ensures { result ≡ blank_contents }
{
    let none = Extent { size: 0, align: 1 };
    Contents {
        kind: Kind::Dyn,
        entry: None,
        strings: Sequence::new(alloc),
        soname: None,
        needed: Sequence::new(alloc),
        flags: ObjFlags {
            symbolic: false,
            bind_now: false,
            nodelete: false,
        },
        symbols: Sequence::new(alloc),
        gnu: None,
        sysv: None,
        has_versions: false,
        versions: Sequence::new(alloc),
        files: Sequence::new(alloc),
        needed_versions: Sequence::new(alloc),
        slots: Sequence::new(alloc),
        fixes: Sequence::new(alloc),
        sections: Sections {
            rodata: none,
            text: none,
            relro: none,
            tdata: none,
            tbss: none,
            data: none,
            bss: none,
        },
    }
}

/// The index of the first exported symbol.
fn first_export(uses: &Uses) -> u32
    ensures { (lines : List Line) → AreUsesOf lines uses.now → result ≡ word (first_export lines) }
{
    word(1 + uses.imports.len() as u128)
}

/// The GNU hash table, where the source asks for it.
fn gnu_table(
    alloc: Global,
    statements: &Statements,
    first: u32,
    sorted: &[Exported],
) -> Result<Option<GnuPart>, AllocError>
    ensures { IfOk result (λ gnu. gnu ≡ gnu_table (hash_of statements.now) first sorted.now) }
{
    if has_gnu(hash_of(statements)) {
        Ok(Some(gnu_of(alloc, first, &gnu_hashes(alloc, sorted)?)?))
    } else {
        Ok(None)
    }
}

/// The System V hash table, where the source asks for it.
fn sysv_table(
    alloc: Global,
    statements: &Statements,
    first: u32,
    sorted: &[Exported],
) -> Result<Option<SysvPart>, AllocError>
    ensures { IfOk result (λ sysv. sysv ≡ sysv_table (hash_of statements.now) first sorted.now) }
{
    if has_sysv(hash_of(statements)) {
        Ok(Some(sysv_of(alloc, first, &sysv_hashes(alloc, sorted)?)?))
    } else {
        Ok(None)
    }
}

/// The symbols of the slots.
fn push_slots(
    slots: &mut Ints,
    names: &[Vec<u8>],
    indexes: SymbolIndexes<'_>,
) -> Result<(), AllocError>
    ensures { OnOk result ((lines : List Line) → AreIndexesOf lines indexes.entry
        → slots.new ≡ slots.old ++ map (symbol_index lines) (map (λ name. name.items) names.now)) }
{
    for name in names {
        slots.push(indexes.index(name))?;
    }
    Ok(())
}

/// The offset of the object's own name in the strings: that of the first of them.
fn soname_offset(statements: &Statements) -> Option<u32>
    ensures { result ≡ soname_offset (soname statements.now) }
{
    match soname(statements) {
        Some(_) => Some(1),
        None => None,
    }
}

/// The records of the versions that the object defines, whose names begin at an offset.
fn own_records(
    alloc: Global,
    statements: &Statements,
    first: u32,
    names: &[Vec<u8>],
) -> Result<Vec<VersionRecord>, AllocError>
    ensures { IfOk result (λ records. records.items ≡ own_records (soname statements.now) first (map (λ name. name.items) names.now)) }
{
    match soname(statements) {
        Some(own) => records_for(alloc, own, 1, first, names),
        None => records_for(alloc, &[], 0, first, names),
    }
}

impl<'a> Source<'a> {
    fn spots(self) -> Spots<'a>
        requires { IsSource self }
        ensures { AreSpotsOf self.entry.statements.now result }
    {
        Spots {
            uses: self.uses,
            places: self.places,
        }
    }

    /// Fills in what takes no memory.
    fn fill_words(self, contents: &mut Contents)
        requires { IsSource self }
        ensures { let lines = self.entry.statements.now in contents.new ≡ record contents.old {
          kind = elf_kind lines;
          entry = label_spot lines (entry_name lines);
          soname = soname_offset (soname lines);
          flags = flags_of lines;
          has_versions = has_versions lines;
          sections = sections_of lines;
        } }
    {
        contents.kind = elf_kind(self.statements);
        contents.entry = self.spots().spot(entry_name(self.statements));
        contents.soname = soname_offset(self.statements);
        contents.flags = flags_of(self.statements);
        contents.has_versions = has_versions(self.uses);
        contents.sections = sections_of(self.statements, &self.places.end);
    }

    /// Appends the strings, and the offsets of the libraries that are needed; tells where names begin.
    fn fill_strings(self, contents: &mut Contents, sorted: &[Exported]) -> Result<Marks, AllocError>
        requires source { IsSource self }
        requires sorted { sorted.now ≡ sorted_exports self.statements.now }
        requires empty { contents.old.strings ≡ [] }
        ensures marks { IfOk result (AreMarksOf self.entry.statements.now (strings_of self.entry.statements.now)) }
        ensures contents { OnOk result (let lines = self.entry.statements.now in contents.new ≡ record contents.old {
          strings = strings_of lines;
          needed = contents.old.needed ++ offsets_from (needed_at lines) (needed lines);
        }) }
    {
        let marks = append_strings(
            &mut contents.strings,
            self.statements,
            self.uses,
            self.needed,
            sorted,
        )?;
        push_offsets(&mut contents.needed, marks.needed, self.statements)?;
        Ok(marks)
    }

    /// Appends the entries of the symbol table.
    fn fill_symbols(
        self,
        alloc: Global,
        contents: &mut Contents,
        sorted: &[Exported],
        marks: Marks,
    ) -> Result<(), AllocError>
        requires source { IsSource self }
        requires sorted { sorted.now ≡ sorted_exports self.statements.now }
        requires marks { AreMarksOf self.statements.now (strings_of self.statements.now) marks }
        ensures { OnOk result (let lines = self.entry.statements.now in contents.new ≡ record contents.old {
          symbols = (contents.old.symbols ++ import_entries lines (imports_at lines) (imports lines))
              ++ export_entries lines (exports_at lines) (sorted_exports lines);
        }) }
    {
        let facts = SymbolFacts::of(alloc, self.statements, self.uses, self.places)?;
        let table = SymbolTable {
            statements: self.statements,
            spots: self.spots(),
            needed: self.needed,
            facts: &facts,
        };
        table.push_imports(
            &mut contents.symbols,
            marks.imports,
            self.uses.imports.as_slice(),
        )?;
        table.push_exports(&mut contents.symbols, marks.exports, sorted)
    }

    /// Fills in the hash tables.
    fn fill_hashes(
        self,
        alloc: Global,
        contents: &mut Contents,
        sorted: &[Exported],
    ) -> Result<(), AllocError>
        requires { IsSource self }
        ensures { OnOk result (let lines = self.entry.statements.now in contents.new ≡ record contents.old {
          gnu = gnu_table (hash_of lines) (word (first_export lines)) sorted.now;
          sysv = sysv_table (hash_of lines) (word (first_export lines)) sorted.now;
        }) }
    {
        let first = first_export(self.uses);
        contents.gnu = gnu_table(alloc, self.statements, first, sorted)?;
        contents.sysv = sysv_table(alloc, self.statements, first, sorted)?;
        Ok(())
    }

    /// Fills in the tables of versions.
    fn fill_versions(
        self,
        alloc: Global,
        contents: &mut Contents,
        marks: Marks,
    ) -> Result<(), AllocError>
        requires source { IsSource self }
        requires marks { AreMarksOf self.statements.now (strings_of self.statements.now) marks }
        ensures { OnOk result (let lines = self.entry.statements.now in contents.new ≡ record contents.old {
          versions = own_records (soname lines) (versions_at lines) (versions lines);
          files = contents.old.files ++ need_records lines 0 (files_at lines) (needed_files lines);
          needed_versions = contents.old.needed_versions
              ++ needed_records lines (first_needed lines) (needed_versions_at lines) (needed_files lines);
        }) }
    {
        let names = self.uses.versions.as_slice();
        let records = own_records(alloc, self.statements, marks.versions, names)?;
        contents.versions = records.into();
        push_files(&mut contents.files, marks.files, self.needed)?;
        push_needed(
            &mut contents.needed_versions,
            marks.needed_versions,
            self.uses,
            self.needed,
        )
    }

    /// Fills in the slots, and the places that the linker fills. The sections are there.
    fn fill_places(
        self,
        alloc: Global,
        contents: &mut Contents,
        sorted: &[Exported],
    ) -> Result<(), AllocError>
        requires source { IsSource self }
        requires sorted { sorted.now ≡ sorted_exports self.statements.now }
        requires sections { contents.old.sections ≡ sections_of self.statements.now }
        ensures { OnOk result (let lines = self.entry.statements.now in contents.new ≡ record contents.old {
          slots = contents.old.slots ++ map (symbol_index lines) (slots lines);
          fixes = fixes_of lines;
        }) }
    {
        let own = own_numbers(alloc, sorted)?;
        let indexes = SymbolIndexes {
            imports: &self.uses.imports,
            own: &own,
        };
        push_slots(&mut contents.slots, self.uses.slots.as_slice(), indexes)?;
        let fixer = Fixer::of(self.statements, self.spots(), indexes, &contents.sections);
        contents.fixes = fixes_of(alloc, self.statements, fixer)?;
        Ok(())
    }

    /// Fills in all of it.
    fn fill(self, alloc: Global, contents: &mut Contents) -> Result<(), AllocError>
        requires source { IsSource self }
        requires blank { contents.old ≡ blank_contents }
        ensures { OnOk result (contents.new ≡ contents_of self.entry.statements.now) }
    {
        let sorted = sorted_exports(alloc, self.uses.exports.as_slice())?;
        let sorted = sorted.as_slice();
        self.fill_words(contents);
        let marks = self.fill_strings(contents, sorted)?;
        self.fill_symbols(alloc, contents, sorted, marks)?;
        self.fill_hashes(alloc, contents, sorted)?;
        self.fill_versions(alloc, contents, marks)?;
        self.fill_places(alloc, contents, sorted)
    }
}

/// What the object of a source holds, by what its lines say of names and of versions, and where they
/// stand.
///
/// # Errors
///
/// Want of memory.
pub fn contents_of(
    alloc: Global,
    statements: &Statements,
    uses: &Uses,
    needed: &NeededFiles,
    places: &Places,
) -> Result<Contents, AllocError>
    requires uses { AreUsesOf statements.now uses.now }
    requires needed { AreFilesOf statements.now needed.now }
    requires places { ArePlacesOf statements.now places.now }
    ensures { IfOk result (λ contents. contents ≡ contents_of statements.now) }
{
    let source = Source {
        statements,
        uses,
        needed,
        places,
    };
    let mut contents = blank(alloc);
    match source.fill(alloc, &mut contents) {
        Ok(()) => Ok(contents),
        Err(error) => Err(error),
    }
}
