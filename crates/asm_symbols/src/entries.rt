//! The entries of the symbol table.

ghost use Rattle.std.specs.Prelude.{◌≡◌, ◌≤◌, ◌<◌, ◌++◌, List, OnOk, Some, find, length, map, option_map, position, slice_get, unwrap_or};
ghost use Rattle.std.specs.Str.{bytes_eq};
ghost use Rattle.asm_statement.specs.declared.line.Line.{Line};
ghost use Rattle.asm_layout.specs.Labels.{defines, label};
ghost use Rattle.asm_layout.specs.Uses.{needs};
ghost use Rattle.asm_layout.specs.Symbols.{binding, copy_size, label_size, size_behind, need_index, own_index, if_versioned, hidden_bit, type_at, type_in};
ghost use Rattle.asm_layout.specs.Symbols.{visibility};
ghost use Rattle.asm_layout.specs.Symbols.{import_entry, import_entries, export_entry, export_entries};
ghost use Rattle.asm_layout.specs.Versions.{has_versions, needed_index};
ghost use Rattle.asm_uses.specs.Uses.{AreUsesOf};
ghost use Rattle.asm_symbols.specs.Facts.{IsTableOf};

use crate::asm_tables::{Spots, half, offset_behind};
use crate::facts::SymbolFacts;
use asm_layout::Exported;
use asm_places::{NeededFiles, count_of, defined_number, first_needed};
use asm_statement::{Directive, Line, Need, Section, Statement, Statements};
use asm_uses::Uses;
use asm_write::SymbolEntry;
use ld_base::{Name, Sequence};
use std::alloc::AllocError;

/// What the entries of the symbol table are made of.
#[derive(Clone, Copy)]
pub struct SymbolTable<'a> {
    pub statements: &'a Statements,
    pub spots: Spots<'a>,
    pub needed: &'a NeededFiles,
    pub facts: &'a SymbolFacts,
}

/// The type of a symbol in a section: STT_FUNC, STT_TLS or STT_OBJECT.
fn type_in(section: Section) -> u8
    ensures value { result ≡ type_in section }
    ensures bound { result ≤ 6 }
{
    match section {
        Section::Text => 2,
        Section::Tdata | Section::Tbss => 6,
        Section::Rodata | Section::Relro | Section::Data | Section::Bss => 1,
    }
}

/// The size of the copy that a line makes, for a name that the line defines: a label beside it has none.
fn copy_size(name: &[u8], line: &Line) -> Option<u64>
    ensures { result ≡ copy_size name.now line.now.statement }
{
    match &line.statement {
        Some(Statement::Directive(Directive::Copy(copy, size))) => Some(if name == copy.as_bytes() {
            count_of(*size)
        } else {
            0
        }),
        _ => None,
    }
}

/// VERSYM_HIDDEN where references without a version don't find the symbol.
fn hidden_bit(is_default: bool) -> u16
    ensures value { result ≡ hidden_bit is_default }
    ensures bound { result ≤ 0x8000 }
{
    if is_default { 0 } else { 0x8000 }
}

/// The line with a number, counted from 0.
fn line_at(lines: &[Line], number: usize) -> Option<&Line>
    ensures { option_map (λ line. line.now) result ≡ slice_get lines.now number }
{
    lines.get(number)
}

/// The need with a number, counted from 0.
fn need_at(needs: &[Need], number: usize) -> Option<&Need>
    ensures { option_map (λ need. need.now) result ≡ slice_get needs.now number }
{
    needs.get(number)
}

/// Whether the object defines or needs versions.
pub fn has_versions(uses: &Uses) -> bool
    ensures { (lines : List Line) → AreUsesOf lines uses.now → result ≡ has_versions lines }
{
    uses.versions.len() > 0 || uses.needs.len() > 0
}

impl<'a> SymbolTable<'a> {
    /// The binding of a name: STB_WEAK or STB_GLOBAL.
    fn binding(self, name: &[u8]) -> u8
        ensures value { (lines : List Line) → IsTableOf lines self.entry → result ≡ binding lines name.now }
        ensures bound { result ≤ 2 }
    {
        if self.facts.weak.contains(name) { 2 } else { 1 }
    }

    /// The type of a label.
    fn label_type(self, name: &[u8]) -> u8
        ensures value { (lines : List Line) → IsTableOf lines self.entry → result ≡ type_at (label lines name.now) }
        ensures bound { result ≤ 6 }
    {
        match self.spots.place(name) {
            Some(place) => type_in(place.section),
            None => 0,
        }
    }

    /// How much of a label other objects see.
    fn visibility(self, name: &[u8]) -> u8
        ensures { (lines : List Line) → IsTableOf lines self.entry → result ≡ visibility lines name.now }
    {
        if self.spots.uses.preemption.exported.contains(name) {
            self.facts.visibilities.get(name).code()
        } else {
            0
        }
    }

    /// How far it is from a line to the next one of its section that defines a name, or to the section's end.
    fn size_behind(self, number: usize) -> u64
        ensures { (lines : List Line) → IsTableOf lines self.entry → number < length lines → result ≡ size_behind lines number }
    {
        self.facts.sizes.sizes.get(number).copied().unwrap_or(0)
    }

    /// How many bytes a label has that the line with this number defines.
    fn size_of_line(self, number: usize, name: &[u8], line: &Line) -> u64
        ensures { (lines : List Line) → IsTableOf lines self.entry → number < length lines
            → result ≡ unwrap_or (copy_size name.now line.now.statement) (size_behind lines number) }
    {
        match copy_size(name, line) {
            Some(size) => size,
            None => self.size_behind(number),
        }
    }

    /// How many bytes a label has whose first line has this number.
    fn size_at(self, number: usize, name: &[u8]) -> u64
        ensures { (lines : List Line) → IsTableOf lines self.entry → Some number ≡ position (defines name.now) lines
            → result ≡ label_size lines name.now }
    {
        match line_at(self.statements.as_slice(), number) {
            Some(line) => self.size_of_line(number, name, line),
            None => 0,
        }
    }

    /// How many bytes a label has.
    fn size(self, name: &[u8]) -> u64
        ensures { (lines : List Line) → IsTableOf lines self.entry → result ≡ label_size lines name.now }
    {
        match self.spots.uses.labels.line(name) {
            Some(number) => self.size_at(number, name),
            None => 0,
        }
    }

    /// What references to a name need.
    fn need_of(self, name: &[u8]) -> Option<&'a Need>
        ensures { (lines : List Line) → IsTableOf lines self.entry
            → option_map (λ need. need.now) result ≡ find (λ need. bytes_eq name.now need.name) (needs lines) }
    {
        match self.facts.needs.get(name) {
            Some(at) => need_at(self.spots.uses.needs.as_slice(), at),
            None => None,
        }
    }

    /// The index of a version that is needed of a file.
    fn needed_index(self, need: &Need) -> u16
        ensures { (lines : List Line) → IsTableOf lines self.entry → result ≡ needed_index lines need.now.file need.now.version }
    {
        let number = self
            .needed
            .number(need.file.as_bytes(), need.version.as_bytes())
            .unwrap_or(0);
        half(first_needed(self.spots.uses) + number)
    }

    /// The index of the version that references to a name need; that of the object where they need none.
    fn need_index(self, name: &[u8]) -> u16
        ensures { (lines : List Line) → IsTableOf lines self.entry → result ≡ need_index lines name.now }
    {
        match self.need_of(name) {
            Some(need) => self.needed_index(need),
            None => 1,
        }
    }

    /// The index of a version that an exported symbol has.
    fn version_index(self, exported: &Exported, version: &Name) -> u16
        ensures { (lines : List Line) → IsTableOf lines self.entry → result ≡ own_index lines exported.now (Some version.now) }
    {
        if exported.is_needed {
            self.need_index(exported.label.as_bytes())
        } else {
            half(defined_number(self.spots.uses, version.as_bytes()))
        }
    }

    /// The index of the version of an exported symbol.
    fn own_index(self, exported: &Exported) -> u16
        ensures { (lines : List Line) → IsTableOf lines self.entry → result ≡ own_index lines exported.now exported.now.version }
    {
        match &exported.version {
            None => 1,
            Some(version) => self.version_index(exported, version),
        }
    }

    /// The entry of the versym table for an index, where there are versions.
    fn if_versioned(self, index: u32) -> u16
        ensures { (lines : List Line) → IsTableOf lines self.entry → result ≡ if_versioned lines index }
    {
        if has_versions(self.spots.uses) {
            half(u128::from(index))
        } else {
            0
        }
    }

    /// The entry of an undefined symbol whose name stands at an offset of the strings.
    fn import_entry(self, at: u32, name: &[u8]) -> SymbolEntry
        ensures { (lines : List Line) → IsTableOf lines self.entry → result ≡ import_entry lines at name.now }
    {
        SymbolEntry {
            name: at,
            info: 16 * self.binding(name),
            other: 0,
            spot: None,
            size: 0,
            version: self.if_versioned(u32::from(self.need_index(name))),
        }
    }

    /// The entry of an exported symbol whose name stands at an offset of the strings.
    fn export_entry(self, at: u32, exported: &Exported) -> SymbolEntry
        ensures { (lines : List Line) → IsTableOf lines self.entry → result ≡ export_entry lines at exported.now }
    {
        let label = exported.label.as_bytes();
        let hidden = u32::from(hidden_bit(exported.is_default));
        SymbolEntry {
            name: at,
            info: 16 * self.binding(label) + self.label_type(label),
            other: self.visibility(label),
            spot: self.spots.spot(label),
            size: self.size(label),
            version: self.if_versioned(u32::from(self.own_index(exported)) + hidden),
        }
    }

    /// Appends the entries of undefined symbols whose names begin at an offset of the strings.
    ///
    /// # Errors
    ///
    /// Want of memory.
    pub fn push_imports(
        self,
        entries: &mut Sequence<SymbolEntry>,
        first: u32,
        names: &[Vec<u8>],
    ) -> Result<(), AllocError>
        ensures { OnOk result ((lines : List Line) → IsTableOf lines self.entry
            → entries.new ≡ entries.old ++ import_entries lines first (map (λ name. name.items) names.now)) }
    {
        let mut at = first;
        for name in names {
            entries.push(self.import_entry(at, name))?;
            at = offset_behind(at, name);
        }
        Ok(())
    }

    /// Appends the entries of exported symbols whose names begin at an offset of the strings.
    ///
    /// # Errors
    ///
    /// Want of memory.
    pub fn push_exports(
        self,
        entries: &mut Sequence<SymbolEntry>,
        first: u32,
        exports: &[Exported],
    ) -> Result<(), AllocError>
        ensures { OnOk result ((lines : List Line) → IsTableOf lines self.entry
            → entries.new ≡ entries.old ++ export_entries lines first exports.now) }
    {
        let mut at = first;
        for exported in exports {
            entries.push(self.export_entry(at, exported))?;
            at = offset_behind(at, exported.name.as_bytes());
        }
        Ok(())
    }
}
