//! Which names another object may define.

ghost use Rattle.std.specs.Prelude.{◌≡◌, [], ◌&&◌, not, ℕ, List, OnOk, option_map};
ghost use Rattle.asm_statement.specs.declared.line.Line.{Line};
ghost use Rattle.asm_layout.specs.Names.{is_library, is_got_plt, is_foreign, is_preemptible, statement_exports, statement_keeps};
ghost use Rattle.asm_uses.specs.Lines.{AreLabelsOf};
ghost use Rattle.asm_layout.specs.Once.{is_among, is_it};
ghost use Rattle.asm_uses.specs.Preemption.{IsPreemptionOf};

use crate::labels::Labels;
use crate::name_set::NameSet;
use crate::object_words::kind_of;
use asm_statement::{Directive, Export, Line, ObjectKind, Statement, Statements};
use std::alloc::{AllocError, Global};

/// The label that stands for the start of `.got.plt`.
const GOT_PLT: &[u8] = b"_GOTPLT_";

/// What tells whether another object may define a name.
#[derive(Drop)]
pub struct Preemption {
    /// Whether the object is a library.
    pub is_library: bool,
    /// The names that lines export.
    pub exported: NameSet,
    /// The names that lines keep for the object's own references.
    pub kept: NameSet,
}

fn is_library(kind: ObjectKind) -> bool
    ensures { result ≡ is_library kind }
{
    match kind {
        ObjectKind::Library => true,
        ObjectKind::Program | ObjectKind::Executable => false,
    }
}

/// Whether the name is that of the start of `.got.plt`.
pub fn is_got_plt(name: &[u8]) -> bool
    ensures { result ≡ is_got_plt name.now }
{
    name == GOT_PLT
}

/// The name that a line exports.
fn exported_name(line: &Line) -> Option<&[u8]>
    ensures { (name : List ℕ) → statement_exports name line.now.statement ≡ is_it name (option_map (λ n. n.now) result) }
{
    match &line.statement {
        Some(Statement::Directive(Directive::Export(Export::Global, name))) => Some(
            name.as_bytes(),
        ),
        Some(Statement::Directive(Directive::Weak(name))) => Some(name.as_bytes()),
        _ => None,
    }
}

/// The name that a line keeps for the object's own references.
fn kept_name(line: &Line) -> Option<&[u8]>
    ensures { (name : List ℕ) → statement_keeps name line.now.statement ≡ is_it name (option_map (λ n. n.now) result) }
{
    match &line.statement {
        Some(Statement::Directive(Directive::Export(Export::Hidden, name))) => Some(
            name.as_bytes(),
        ),
        Some(Statement::Directive(Directive::Export(Export::Protected, name))) => Some(
            name.as_bytes(),
        ),
        _ => None,
    }
}

impl Preemption {
    /// That of no lines.
    pub(crate) fn new(alloc: Global) -> Self
        ensures exported { result.exported ≡ [] }
        ensures kept { result.kept ≡ [] }
    {
        Preemption {
            is_library: true,
            exported: NameSet::new(alloc),
            kept: NameSet::new(alloc),
        }
    }

    /// Fills in that of the lines of a source.
    ///
    /// # Errors
    ///
    /// Want of memory.
    pub(crate) fn fill(&mut self, alloc: Global, statements: &Statements) -> Result<(), AllocError>
        requires exported { self.old.exported ≡ [] }
        requires kept { self.old.kept ≡ [] }
        ensures { OnOk result (IsPreemptionOf statements.now self.new) }
    {
        for line in statements.as_slice() {
            self.exported.add_found(alloc, exported_name(line))?;
            self.kept.add_found(alloc, kept_name(line))?;
        }
        self.is_library = is_library(kind_of(statements));
        Ok(())
    }

    /// Whether the name of a label is open to others: a library exports it, and doesn't keep it.
    fn is_open(&self, name: &[u8]) -> bool
        ensures { result ≡ (self.now.is_library && is_among self.now.exported name.now && not (is_among self.now.kept name.now)) }
    {
        let is_exported = self.exported.contains(name);
        let is_kept = self.kept.contains(name);
        self.is_library && is_exported && !is_kept
    }

    /// Whether another object may define a name: one that is no label, or a label of a library that
    /// is exported and not kept.
    pub fn is_preemptible(&self, labels: &Labels, name: &[u8]) -> bool
        ensures { (lines : List Line) → AreLabelsOf lines labels.now → IsPreemptionOf lines self.now
            → result ≡ is_preemptible lines name.now }
    {
        match labels.line(name) {
            Some(_) => self.is_open(name),
            None => !is_got_plt(name),
        }
    }
}

/// Whether only another object can define a name: it is no label.
pub fn is_foreign(labels: &Labels, name: &[u8]) -> bool
    ensures { (lines : List Line) → AreLabelsOf lines labels.now → result ≡ is_foreign lines name.now }
{
    match labels.line(name) {
        Some(_) => false,
        None => !is_got_plt(name),
    }
}
