//! Which statements may stand in which section.

ghost use Rattle.std.specs.Prelude.{◌≡◌};
ghost use Rattle.asm_statement.specs.declared.directive.Section.TheVariants as Sections;
ghost use Rattle.asm_layout.specs.Places.{is_section};
ghost use Rattle.asm_layout.specs.Faults.{holds_zeros, holds_addresses, directive_may_stand, statement_may_stand};

use asm_statement::{Directive, Doubleword, Section, Statement};

/// Whether a section has no bytes of its own.
fn holds_zeros(section: Section) -> bool
    ensures { result ≡ holds_zeros section }
{
    match section {
        Section::Bss | Section::Tbss => true,
        Section::Text | Section::Rodata | Section::Relro | Section::Data | Section::Tdata => false,
    }
}

/// Whether a section's words may be relocated.
fn holds_addresses(section: Section) -> bool
    ensures { result ≡ holds_addresses section }
{
    match section {
        Section::Relro | Section::Data | Section::Tdata => true,
        Section::Text | Section::Rodata | Section::Bss | Section::Tbss => false,
    }
}

fn is_bss(section: Section) -> bool
    ensures { result ≡ is_section Sections.Bss section }
{
    match section {
        Section::Bss => true,
        Section::Text
        | Section::Rodata
        | Section::Relro
        | Section::Data
        | Section::Tdata
        | Section::Tbss => false,
    }
}

fn is_text(section: Section) -> bool
    ensures { result ≡ is_section Sections.Text section }
{
    match section {
        Section::Text => true,
        Section::Rodata
        | Section::Relro
        | Section::Data
        | Section::Bss
        | Section::Tdata
        | Section::Tbss => false,
    }
}

/// Whether a directive may stand in the section.
fn directive_may_stand(section: Section, directive: &Directive) -> bool
    ensures { result ≡ directive_may_stand section directive.now }
{
    match directive {
        Directive::Data(..) | Directive::Asciz(_) => !holds_zeros(section),
        Directive::Dword(Doubleword::Number(_)) => !holds_zeros(section),
        Directive::Dword(Doubleword::Address(..)) => holds_addresses(section),
        Directive::Copy(..) => is_bss(section),
        Directive::Soname(_)
        | Directive::Needed(_)
        | Directive::Entry(_)
        | Directive::Export(..)
        | Directive::Weak(_)
        | Directive::Version(_)
        | Directive::Entries(..)
        | Directive::Zero(_)
        | Directive::Section(_)
        | Directive::Kind(_)
        | Directive::Hash(_)
        | Directive::Flags(_)
        | Directive::Symver(_)
        | Directive::Need(_)
        | Directive::Align(_)
        | Directive::Relr => true,
    }
}

/// Whether a statement may stand in the section: instructions in `.text`, bytes in no section of
/// zeros, addresses where they may be relocated, copies in `.bss`.
pub fn may_stand(section: Section, statement: &Statement) -> bool
    ensures { result ≡ statement_may_stand section statement.now }
{
    match statement {
        Statement::Directive(directive) => directive_may_stand(section, directive),
        Statement::Instruction(_) => is_text(section),
    }
}
