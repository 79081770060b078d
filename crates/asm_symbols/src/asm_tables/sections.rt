//! The extents of sections.

ghost use Rattle.std.specs.Prelude.{◌≡◌};
ghost use Rattle.asm_statement.specs.declared.directive.Section.TheVariants as sections;
ghost use Rattle.asm_layout.specs.Places.{section_behind};
ghost use Rattle.asm_layout.specs.Spots.{aligned_by, aligning, least_alignment, section_align, extent_of, sections_of};
ghost use Rattle.asm_places.specs.Counts.{Counts};

use asm_places::{Counter, section_number};
use asm_statement::{Directive, Line, Section, Statement, Statements};
use asm_write::{Extent, Sections};

/// The section that follows a line.
fn section_behind(section: Section, line: &Line) -> Section
    ensures { result ≡ section_behind section line.now.statement }
{
    match &line.statement {
        Some(Statement::Directive(Directive::Section(next))) => *next,
        _ => section,
    }
}

/// The greatest alignment so far, with that of a line.
fn aligned_by(greatest: u64, line: &Line) -> u64
    ensures { result ≡ aligned_by greatest line.now.statement }
{
    match &line.statement {
        Some(Statement::Directive(Directive::Align(alignment))) => greatest.max(alignment.bytes()),
        _ => greatest,
    }
}

/// The section behind a line, and the greatest alignment of one section so far.
fn aligning(section: Section, line: &Line, before: (Section, u64)) -> (Section, u64)
    ensures { result ≡ aligning section line.now before }
{
    let greatest = if section_number(section) == section_number(before.0) {
        aligned_by(before.1, line)
    } else {
        before.1
    };
    (section_behind(before.0, line), greatest)
}

fn least_alignment(section: Section) -> u64
    ensures { result ≡ least_alignment section }
{
    match section {
        Section::Text => 16,
        Section::Rodata
        | Section::Relro
        | Section::Data
        | Section::Bss
        | Section::Tdata
        | Section::Tbss => 1,
    }
}

/// What the start of a section is a multiple of.
#[tactic(auto, unfolding(asm_layout::specs::Spots::section_align))]
fn section_align(statements: &Statements, section: Section) -> u64
    ensures { result ≡ section_align statements.now section }
{
    let mut state = (Section::Text, least_alignment(section));
    for line in statements.as_slice() {
        state = aligning(section, line, state);
    }
    state.1
}

/// How large a section is, and what its start is a multiple of.
fn extent_of(statements: &Statements, end: &Counter, section: Section) -> Extent
    requires { Counts statements.now end.now }
    ensures { result ≡ extent_of statements.now section }
{
    Extent {
        size: end.filled(section),
        align: section_align(statements, section),
    }
}

/// How large the sections of a source are that its lines fill so, and what their starts are multiples
/// of.
#[tactic(auto, unfolding(asm_layout::specs::Spots::sections_of))]
pub fn sections_of(statements: &Statements, end: &Counter) -> Sections
    requires { Counts statements.now end.now }
    ensures { result ≡ sections_of statements.now }
{
    Sections {
        rodata: extent_of(statements, end, Section::Rodata),
        text: extent_of(statements, end, Section::Text),
        relro: extent_of(statements, end, Section::Relro),
        tdata: extent_of(statements, end, Section::Tdata),
        tbss: extent_of(statements, end, Section::Tbss),
        data: extent_of(statements, end, Section::Data),
        bss: extent_of(statements, end, Section::Bss),
    }
}
