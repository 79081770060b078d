//! Whether the labels and versions that a statement names are there.

ghost use Rattle.std.specs.Prelude.{◌≡◌, List};
ghost use Rattle.asm_statement.specs.declared.line.Line.{Line};
ghost use Rattle.asm_layout.specs.Faults.{has_symbol, is_known, is_usable, operand_is_known, dword_is_known, directive_is_known, statement_is_known};
ghost use Rattle.asm_uses.specs.Operands.{operand_as};
ghost use Rattle.asm_uses.specs.Uses.{AreUsesOf};

use asm_statement::{Directive, Doubleword, Statement, Symver};
use asm_uses::{Operand, Uses, is_got_plt};

/// Whether the name is a label, or the start of `.got.plt` where there is a slot.
fn is_known(uses: &Uses, name: &[u8]) -> bool
    ensures { (lines : List Line) → AreUsesOf lines uses.now → result ≡ is_known lines name.now }
{
    uses.labels.contains(name) || is_got_plt(name) && uses.slots.len() > 0
}

/// Whether the name may be another object's, or is known here.
fn is_usable(uses: &Uses, name: &[u8]) -> bool
    ensures { (lines : List Line) → AreUsesOf lines uses.now → result ≡ is_usable lines name.now }
{
    is_known(uses, name) || !is_got_plt(name)
}

/// Whether the name is one that a symbol may have; the start of `.got.plt` has none.
fn has_symbol(uses: &Uses, name: &[u8]) -> bool
    ensures { (lines : List Line) → AreUsesOf lines uses.now → result ≡ has_symbol lines name.now }
{
    uses.labels.contains(name) || !is_got_plt(name)
}

fn operand_is_known(uses: &Uses, operand: Operand<'_>) -> bool
    ensures { (lines : List Line) → AreUsesOf lines uses.now → result ≡ operand_is_known lines (operand_as operand.entry) }
{
    match operand {
        Operand::Label(name) => is_known(uses, name),
        Operand::Code(name) => is_usable(uses, name),
        Operand::Entry(_, name) => is_usable(uses, name),
        Operand::Registers | Operand::Immediate(_) | Operand::Upper(_) | Operand::Word(_) => true,
    }
}

fn dword_is_known(uses: &Uses, value: &Doubleword) -> bool
    ensures { (lines : List Line) → AreUsesOf lines uses.now → result ≡ dword_is_known lines value.now }
{
    match value {
        Doubleword::Number(_) => true,
        Doubleword::Address(name, _) => is_usable(uses, name.as_bytes()),
    }
}

fn symver_is_known(uses: &Uses, symver: &Symver) -> bool
    ensures { (lines : List Line) → AreUsesOf lines uses.now → result ≡ directive_is_known lines (Directive.Symver symver.now) }
{
    let is_label = uses.labels.contains(symver.label.as_bytes());
    let is_version = uses.versions.contains(symver.version.as_bytes());
    is_label && is_version
}

fn directive_is_known(uses: &Uses, directive: &Directive) -> bool
    ensures { (lines : List Line) → AreUsesOf lines uses.now → result ≡ directive_is_known lines directive.now }
{
    match directive {
        Directive::Entry(name) | Directive::Entries(_, name) => is_known(uses, name.as_bytes()),
        Directive::Export(_, name) => uses.labels.contains(name.as_bytes()),
        Directive::Symver(symver) => symver_is_known(uses, symver),
        Directive::Weak(name) => has_symbol(uses, name.as_bytes()),
        Directive::Need(need) => has_symbol(uses, need.name.as_bytes()),
        Directive::Dword(value) => dword_is_known(uses, value),
        Directive::Soname(_)
        | Directive::Needed(_)
        | Directive::Version(_)
        | Directive::Data(..)
        | Directive::Zero(_)
        | Directive::Section(_)
        | Directive::Kind(_)
        | Directive::Hash(_)
        | Directive::Flags(_)
        | Directive::Asciz(_)
        | Directive::Align(_)
        | Directive::Relr
        | Directive::Copy(..) => true,
    }
}

/// Whether the labels and versions that a statement names are there.
pub(crate) fn statement_is_known(uses: &Uses, statement: &Statement) -> bool
    ensures { (lines : List Line) → AreUsesOf lines uses.now → result ≡ statement_is_known lines statement.now }
{
    match statement {
        Statement::Directive(directive) => directive_is_known(uses, directive),
        Statement::Instruction(instruction) => operand_is_known(uses, Operand::of(instruction)),
    }
}
