//! Names that the object has to list: slots, undefined symbols, versions.

ghost use Rattle.std.specs.Prelude.{◌≡◌, [], List, OnOk, option_map};
ghost use Rattle.asm_statement.specs.declared.line.Line.{Line};
ghost use Rattle.asm_layout.specs.Uses.{callee, directive_mention, dword_mention, foreign_name, if_foreign, if_preemptible, imports, line_operand, mention};
ghost use Rattle.asm_layout.specs.Uses.{slots};
ghost use Rattle.asm_layout.specs.Tables.{version_defined, versions};
ghost use Rattle.asm_uses.specs.Lines.{AreLabelsOf};
ghost use Rattle.asm_uses.specs.Preemption.{IsPreemptionOf};

use crate::labels::Labels;
use crate::name_set::NameSet;
use crate::operand::Operand;
use crate::preemption::{Preemption, is_foreign};
use asm_statement::{Directive, Doubleword, Line, Statement, Statements};
use std::alloc::{AllocError, Global};

/// The name that a line calls or goes to.
fn callee(line: &Line) -> Option<&[u8]>
    ensures { option_map (λ name. name.now) result ≡ callee line.now.statement }
{
    match Operand::of_line(line) {
        Operand::Code(name) => Some(name),
        Operand::Registers
        | Operand::Immediate(_)
        | Operand::Upper(_)
        | Operand::Word(_)
        | Operand::Label(_)
        | Operand::Entry(..) => None,
    }
}

/// The name of a line that has a slot: what it calls, where another object may define that.
fn slot_name<'a>(labels: &Labels, preemption: &Preemption, line: &'a Line) -> Option<&'a [u8]>
    ensures { (lines : List Line) → AreLabelsOf lines labels.now → IsPreemptionOf lines preemption.now
        → option_map (λ name. name.now) result ≡ if_preemptible lines (callee line.now.statement) }
{
    let name = callee(line)?;
    if preemption.is_preemptible(labels, name) {
        Some(name)
    } else {
        None
    }
}

/// Fills in the names that have a slot, in the order of their slots.
///
/// # Errors
///
/// Want of memory.
pub(crate) fn fill_slots(
    alloc: Global,
    names: &mut NameSet,
    statements: &Statements,
    labels: &Labels,
    preemption: &Preemption,
) -> Result<(), AllocError>
    requires empty { names.old ≡ [] }
    requires labels { AreLabelsOf statements.now labels.now }
    requires preemption { IsPreemptionOf statements.now preemption.now }
    ensures { OnOk result (names.new ≡ slots statements.now) }
{
    for line in statements.as_slice() {
        names.add_found(alloc, slot_name(labels, preemption, line))?;
    }
    Ok(())
}

fn dword_mention(value: &Doubleword) -> Option<&[u8]>
    ensures { option_map (λ name. name.now) result ≡ dword_mention value.now }
{
    match value {
        Doubleword::Number(_) => None,
        Doubleword::Address(name, _) => Some(name.as_bytes()),
    }
}

fn directive_mention(directive: &Directive) -> Option<&[u8]>
    ensures { option_map (λ name. name.now) result ≡ directive_mention directive.now }
{
    match directive {
        Directive::Dword(value) => dword_mention(value),
        Directive::Need(need) => Some(need.name.as_bytes()),
        Directive::Weak(name) => Some(name.as_bytes()),
        Directive::Soname(_)
        | Directive::Needed(_)
        | Directive::Entry(_)
        | Directive::Export(..)
        | Directive::Version(_)
        | Directive::Entries(..)
        | Directive::Data(..)
        | Directive::Zero(_)
        | Directive::Section(_)
        | Directive::Kind(_)
        | Directive::Hash(_)
        | Directive::Flags(_)
        | Directive::Symver(_)
        | Directive::Asciz(_)
        | Directive::Align(_)
        | Directive::Relr
        | Directive::Copy(..) => None,
    }
}

fn instruction_mention(line: &Line) -> Option<&[u8]>
    ensures { option_map (λ name. name.now) result ≡ foreign_name (line_operand line.now.statement) }
{
    match Operand::of_line(line) {
        Operand::Code(name) | Operand::Entry(_, name) => Some(name),
        Operand::Registers
        | Operand::Immediate(_)
        | Operand::Upper(_)
        | Operand::Word(_)
        | Operand::Label(_) => None,
    }
}

/// The name that a line mentions so that another object may define it.
fn mention(line: &Line) -> Option<&[u8]>
    ensures { option_map (λ name. name.now) result ≡ mention line.now.statement }
{
    match &line.statement {
        Some(Statement::Directive(directive)) => directive_mention(directive),
        Some(Statement::Instruction(_)) | None => instruction_mention(line),
    }
}

/// The name that a line mentions, where only another object can define it.
fn import<'a>(labels: &Labels, line: &'a Line) -> Option<&'a [u8]>
    ensures { (lines : List Line) → AreLabelsOf lines labels.now
        → option_map (λ name. name.now) result ≡ if_foreign lines (mention line.now.statement) }
{
    let name = mention(line)?;
    if is_foreign(labels, name) {
        Some(name)
    } else {
        None
    }
}

/// Fills in the undefined symbols, by first mention.
///
/// # Errors
///
/// Want of memory.
pub(crate) fn fill_imports(
    alloc: Global,
    names: &mut NameSet,
    statements: &Statements,
    labels: &Labels,
) -> Result<(), AllocError>
    requires empty { names.old ≡ [] }
    requires labels { AreLabelsOf statements.now labels.now }
    ensures { OnOk result (names.new ≡ imports statements.now) }
{
    for line in statements.as_slice() {
        names.add_found(alloc, import(labels, line))?;
    }
    Ok(())
}

fn version_defined(line: &Line) -> Option<&[u8]>
    ensures { option_map (λ name. name.now) result ≡ version_defined line.now.statement }
{
    match &line.statement {
        Some(Statement::Directive(Directive::Version(name))) => Some(name.as_bytes()),
        _ => None,
    }
}

/// Fills in the versions that the object defines, in order.
///
/// # Errors
///
/// Want of memory.
pub(crate) fn fill_versions(
    alloc: Global,
    names: &mut NameSet,
    statements: &Statements,
) -> Result<(), AllocError>
    requires { names.old ≡ [] }
    ensures { OnOk result (names.new ≡ versions statements.now) }
{
    for line in statements.as_slice() {
        names.add_found(alloc, version_defined(line))?;
    }
    Ok(())
}
