//! The symbols that other objects may find.

ghost use Rattle.std.specs.Prelude.{◌≡◌, ◌≤◌, [], ℕ, List, Some, None, IfOk, OnOk, length, take, option_map, if◌then◌else◌};
ghost use Rattle.std.specs.Option.{option_or};
ghost use Rattle.asm_statement.specs.declared.line.Line.{Line};
ghost use Rattle.asm_layout.specs.Labels.{copy_name};
ghost use Rattle.asm_layout.specs.Uses.{copies as makes_copy, exported_by, exported_by_directive, exports, if_labelled, is_copy_label, needs as needs_of};
ghost use Rattle.asm_layout.specs.Uses.{label_symbol, own_symbol, own_version, same_export};
ghost use Rattle.asm_uses.specs.Exports.{export_as, exported_as, is_copied, IsSourceOf};
ghost use Rattle.asm_uses.specs.Lines.{AreCopiesOf, AreLabelsOf};
ghost use Rattle.asm_uses.specs.Numbers.{number_of};
ghost use Rattle.asm_layout.specs.Once.{added, added_if};

use crate::first_numbers::FirstNumbers;
use crate::labels::{Labels, copy_name};
use crate::need_map::NeedMap;
use asm_layout::Exported;
use asm_statement::{Directive, Export, Line, Statement, Statements};
use indexmap::IndexSet;
use ld_base::{Name, Sequence};
use std::alloc::{AllocError, Global};
use std::marker::Model;

/// A symbol that other objects may find, with its memory lent.
#[derive(Clone, Copy)]
struct Lent<'a> {
    label: &'a [u8],
    name: &'a [u8],
    version: Option<&'a [u8]>,
    is_needed: bool,
    is_default: bool,
}

/// The same, as a key.
#[derive(PartialEq, Eq, Hash, Drop)]
struct Key {
    label: Vec<u8>,
    name: Vec<u8>,
    version: Option<Vec<u8>>,
    is_needed: bool,
    is_default: bool,
}

/// Symbols, each once, in the order in which they came first. Contracts see it as their list.
#[derive(Drop)]
pub(crate) struct ExportSet {
    keys: IndexSet<Key>,
}

impl Model for ExportSet {
    ghost use Rattle.std.specs.Prelude.{List, map};
    ghost use Rattle.asm_layout.specs.declared.uses.Exported.{Exported};
    ghost use Rattle.asm_uses.specs.Exports.{exported_as};

    ghost Value = { List Exported };

    ghost view = { λ s. map exported_as s.keys.keys };
}

/// What is asked of a line that exports: the labels, the first line of each copy, and the versions that
/// copies carry.
#[derive(Clone, Copy)]
struct Source<'a> {
    labels: &'a Labels,
    copies: &'a FirstNumbers,
    needs: &'a NeedMap,
}

fn version_of(alloc: Global, version: Option<&[u8]>) -> Result<Option<Vec<u8>>, AllocError>
    ensures { IfOk result (λ v. option_map (λ n. n.items) v ≡ option_map (λ n. n.now) version.entry) }
{
    match version {
        Some(version) => Ok(Some(Vec::from_slice(alloc, version)?)),
        None => Ok(None),
    }
}

fn key_of(alloc: Global, lent: Lent<'_>) -> Result<Key, AllocError>
    ensures { IfOk result (λ key. exported_as key ≡ export_as lent.entry) }
{
    Ok(Key {
        label: Vec::from_slice(alloc, lent.label)?,
        name: Vec::from_slice(alloc, lent.name)?,
        version: version_of(alloc, lent.version)?,
        is_needed: lent.is_needed,
        is_default: lent.is_default,
    })
}

impl ExportSet {
    /// No symbols.
    fn new(alloc: Global) -> Self
        ensures { result ≡ [] }
    {
        ExportSet {
            keys: IndexSet::new(alloc),
        }
    }

    /// Puts a symbol behind the others, unless it is one of them.
    fn add(&mut self, alloc: Global, symbol: Lent<'_>) -> Result<(), AllocError>
        ensures { OnOk result (self.new ≡ added same_export self.old (export_as symbol.entry)) }
    {
        let key = key_of(alloc, symbol)?;
        self.keys.insert(key)?;
        Ok(())
    }

    /// The same of a symbol that may be there.
    fn add_found(&mut self, alloc: Global, symbol: Option<Lent<'_>>) -> Result<(), AllocError>
        ensures { OnOk result (self.new ≡ added_if same_export self.old (option_map export_as symbol.entry)) }
    {
        match symbol {
            Some(symbol) => self.add(alloc, symbol),
            None => Ok(()),
        }
    }
}

impl<'a> Source<'a> {
    /// Whether a line makes a copy of this name.
    fn is_copy(self, name: &[u8]) -> bool
        ensures { (lines : List Line) → IsSourceOf lines self.entry → result ≡ is_copy_label lines name.now }
    {
        self.copies.contains(name)
    }

    /// Whether a line before this one, counted from 0, makes the copy that this one makes.
    fn is_again(self, line: &Line, number: usize) -> bool
        ensures { (lines : List Line) → IsSourceOf lines self.entry → number ≤ length lines
            → result ≡ is_copied (take number lines) (copy_name line.now.statement) }
    {
        match copy_name(line) {
            Some(name) => self.copies.is_below(name, number),
            None => false,
        }
    }

    /// The version that a label carries: that of a copy is the one that references need.
    fn own_version(self, name: &[u8]) -> Option<&'a [u8]>
        ensures { (lines : List Line) → IsSourceOf lines self.entry → option_map (λ v. v.now) result ≡ own_version lines name.now }
    {
        if self.is_copy(name) {
            self.needs.version(name)
        } else {
            None
        }
    }

    /// The symbol of a label by its own name.
    fn own_symbol(self, name: &'a [u8]) -> Lent<'a>
        ensures { (lines : List Line) → IsSourceOf lines self.entry → export_as result ≡ own_symbol lines name.entry.now }
    {
        let version = self.own_version(name);
        Lent {
            label: name,
            name,
            version,
            is_needed: version.is_some(),
            is_default: true,
        }
    }

    /// The symbol of a label by its own name, unless it is a copy's.
    fn label_symbol(self, name: &'a [u8]) -> Option<Lent<'a>>
        ensures { (lines : List Line) → IsSourceOf lines self.entry
            → option_map export_as result ≡ label_symbol lines name.entry.now }
    {
        if self.is_copy(name) {
            None
        } else {
            Some(self.own_symbol(name))
        }
    }

    /// The symbol that a directive exports.
    fn exported_by(self, directive: &'a Directive) -> Option<Lent<'a>>
        ensures { (lines : List Line) → IsSourceOf lines self.entry
            → option_map export_as result ≡ exported_by_directive lines directive.entry.now }
    {
        match directive {
            Directive::Export(Export::Global, name) | Directive::Weak(name) => {
                self.label_symbol(name.as_bytes())
            }
            Directive::Copy(name, _) => Some(self.own_symbol(name.as_bytes())),
            Directive::Symver(symver) => Some(Lent {
                label: symver.label.as_bytes(),
                name: symver.name.as_bytes(),
                version: Some(symver.version.as_bytes()),
                is_needed: false,
                is_default: symver.is_default,
            }),
            Directive::Export(Export::Hidden | Export::Protected, _)
            | Directive::Soname(_)
            | Directive::Needed(_)
            | Directive::Entry(_)
            | Directive::Version(_)
            | Directive::Entries(..)
            | Directive::Data(..)
            | Directive::Zero(_)
            | Directive::Section(_)
            | Directive::Kind(_)
            | Directive::Hash(_)
            | Directive::Flags(_)
            | Directive::Need(_)
            | Directive::Dword(_)
            | Directive::Asciz(_)
            | Directive::Align(_)
            | Directive::Relr => None,
        }
    }

    /// The symbol that a line exports, whether its label is one or not.
    fn exported_line(self, line: &'a Line) -> Option<Lent<'a>>
        ensures { (lines : List Line) → IsSourceOf lines self.entry
            → option_map export_as result ≡ exported_by lines line.entry.now.statement }
    {
        match &line.statement {
            Some(Statement::Directive(directive)) => self.exported_by(directive),
            Some(Statement::Instruction(_)) | None => None,
        }
    }

    /// The symbol of a label that a line exports.
    fn symbol(self, line: &'a Line) -> Option<Lent<'a>>
        ensures { (lines : List Line) → IsSourceOf lines self.entry
            → option_map export_as result ≡ if_labelled lines (exported_by lines line.entry.now.statement) }
    {
        let symbol = self.exported_line(line)?;
        match self.labels.line(symbol.label) {
            Some(_) => Some(symbol),
            None => None,
        }
    }

    /// The symbol that a line with this number, counted from 0, adds: none where an earlier line makes
    /// the same copy, whose version may be long.
    fn new_symbol(self, line: &'a Line, number: usize) -> Option<Lent<'a>>
        ensures { (lines : List Line) → IsSourceOf lines self.entry → number ≤ length lines
            → option_map export_as result ≡ if is_copied (take number lines) (copy_name line.entry.now.statement) then None
            else if_labelled lines (exported_by lines line.entry.now.statement) }
    {
        if self.is_again(line, number) {
            None
        } else {
            self.symbol(line)
        }
    }
}

/// The symbols that other objects may find, in the order of the lines that first export them.
///
/// # Errors
///
/// Want of memory.
fn symbols_of(
    alloc: Global,
    statements: &Statements,
    source: Source<'_>,
) -> Result<ExportSet, AllocError>
    requires { IsSourceOf statements.now source }
    ensures { IfOk result (λ set. set ≡ exports statements.now) }
{
    let mut set = ExportSet::new(alloc);
    for (number, line) in statements.as_slice().iter().enumerate() {
        set.add_found(alloc, source.new_symbol(line, number))?;
    }
    Ok(set)
}

/// Notes the copy that a line makes.
fn note_copy(
    alloc: Global,
    copies: &mut FirstNumbers,
    line: &Line,
    number: usize,
) -> Result<(), AllocError>
    ensures { OnOk result ((other : List ℕ) →
        number_of copies.new other ≡ option_or (number_of copies.old other) (if makes_copy other line.now.statement then Some number else None)) }
{
    match copy_name(line) {
        Some(name) => copies.note(alloc, name, number),
        None => Ok(()),
    }
}

/// The names of the copies that lines make, each with the first line that makes it.
fn copies_of(alloc: Global, statements: &Statements) -> Result<FirstNumbers, AllocError>
    ensures { IfOk result (AreCopiesOf statements.now) }
{
    let mut copies = FirstNumbers::new(alloc);
    for (number, line) in statements.as_slice().iter().enumerate() {
        note_copy(alloc, &mut copies, line, number)?;
    }
    Ok(copies)
}

fn name_of(alloc: Global, version: &Option<Vec<u8>>) -> Result<Option<Name>, AllocError>
    ensures { IfOk result (λ name. name ≡ option_map (λ n. n.items) version.now) }
{
    match version {
        Some(version) => Ok(Some(Name::new(alloc, version.as_slice())?)),
        None => Ok(None),
    }
}

/// The symbol of a key.
fn exported_of(alloc: Global, key: &Key) -> Result<Exported, AllocError>
    ensures { IfOk result (λ exported. exported ≡ exported_as key.now) }
{
    Ok(Exported {
        label: Name::new(alloc, key.label.as_slice())?,
        name: Name::new(alloc, key.name.as_slice())?,
        version: name_of(alloc, &key.version)?,
        is_needed: key.is_needed,
        is_default: key.is_default,
    })
}

impl ExportSet {
    /// The symbols as a list.
    fn to_list(&self, alloc: Global) -> Result<Sequence<Exported>, AllocError>
        ensures { IfOk result (λ list. list ≡ self.now) }
    {
        let mut list = Sequence::new(alloc);
        for key in self.keys.as_slice() {
            list.push(exported_of(alloc, key)?)?;
        }
        Ok(list)
    }
}

/// The symbols that other objects may find, in the order of the lines that first export them.
///
/// # Errors
///
/// Want of memory.
pub(crate) fn exports_of(
    alloc: Global,
    statements: &Statements,
    labels: &Labels,
    needs: &NeedMap,
) -> Result<Sequence<Exported>, AllocError>
    requires labels { AreLabelsOf statements.now labels.now }
    requires needs { needs.now ≡ needs_of statements.now }
    ensures { IfOk result (λ list. list ≡ exports statements.now) }
{
    let copies = copies_of(alloc, statements)?;
    let source = Source {
        labels,
        copies: &copies,
        needs,
    };
    let set = symbols_of(alloc, statements, source)?;
    set.to_list(alloc)
}
