//! The sections as lines fill them.

ghost use Rattle.std.specs.Prelude.{◌≡◌, ◌<◌, [], IfSome};
ghost use Rattle.asm_layout.specs.Places.{section_number, next_section};
ghost use Rattle.asm_places.specs.Counts.{Counts, Advances, filled_of};

use crate::sizes::size_at;
use asm_statement::{Directive, Line, Section, Statement};

/// The section of the line that comes next, and how many bytes each section has so far.
#[derive(Clone, Copy)]
pub struct Counter {
    /// The section.
    pub section: Section,
    /// How many bytes each section has, in the order of the sections' numbers.
    pub filled: [u64; 7],
}

/// The number of a section, in the order in which lists of sections have them.
pub fn section_number(section: Section) -> usize
    ensures value { result ≡ section_number section }
    ensures bound { result < 7 }
{
    match section {
        Section::Text => 0,
        Section::Rodata => 1,
        Section::Relro => 2,
        Section::Data => 3,
        Section::Bss => 4,
        Section::Tdata => 5,
        Section::Tbss => 6,
    }
}

/// The section that follows a line.
fn next_section(section: Section, line: &Line) -> Section
    ensures { result ≡ next_section section line.now }
{
    match &line.statement {
        Some(Statement::Directive(Directive::Section(next))) => *next,
        _ => section,
    }
}

impl Counter {
    ghost use Rattle.std.specs.Prelude.{◌≡◌, [], IfSome};
    ghost use Rattle.asm_places.specs.Counts.{Counts, Advances, filled_of};

    /// No line stands before the first.
    pub fn new() -> Self
        ensures { Counts [] result }
    {
        Counter {
            section: Section::Text,
            filled: [0; 7],
        }
    }

    /// How many bytes the section has so far.
    pub fn filled(&self, section: Section) -> u64
        ensures { result ≡ filled_of self.now section }
    {
        self.filled[section_number(section)]
    }

    /// What one more line leaves; None where a section would pass 64 bits.
    pub fn advanced(self, line: &Line) -> Option<Self>
        ensures { IfSome result (Advances line.now self) }
    {
        let size = size_at(self.filled(self.section), line)?;
        let end = self.filled(self.section).checked_add(size)?;
        let mut filled = self.filled;
        filled[section_number(self.section)] = end;
        Some(Counter {
            section: next_section(self.section, line),
            filled,
        })
    }
}
