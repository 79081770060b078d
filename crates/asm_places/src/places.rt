//! The place of each line.

ghost use Rattle.std.specs.Prelude.{◌≡◌, IfOk, IfErr};
ghost use Rattle.asm_statement.specs.declared.fault.AsmFault.TheVariants.{Memory};
ghost use Rattle.asm_places.specs.Counts.{ArePlacesOf};

use crate::counter::Counter;
use asm_layout::Place;
use asm_statement::{AsmFault, Statements};
use ld_base::Sequence;
use std::alloc::Global;

/// Where each line of a source stands, and how far the lines fill each section.
#[derive(Drop)]
pub struct Places {
    /// The place of each line: its section, and how many bytes of the section stand before it.
    pub lines: Sequence<Place>,
    /// The section behind the last line, and how many bytes each section has.
    pub end: Counter,
}

impl Places {
    /// Those of the lines of a source.
    ///
    /// # Errors
    ///
    /// Want of memory: there is none to hold the places, or a section passes 2^64 bytes, so that no
    /// memory holds it. Each line adds less than 2^32 bytes beside its text, so that no section of a
    /// source that fits into memory comes near.
    pub fn of(alloc: Global, statements: &Statements) -> Result<Self, AsmFault>
        ensures places { IfOk result (ArePlacesOf statements.now) }
        ensures memory { IfErr result (λ fault. fault ≡ Memory) }
    {
        let mut lines = Sequence::new(alloc);
        let mut end = Counter::new();
        for line in statements.as_slice() {
            lines.push(Place {
                section: end.section,
                offset: end.filled(end.section),
            })?;
            let Some(next) = end.advanced(line) else {
                return Err(AsmFault::Memory);
            };
            end = next;
        }
        Ok(Places { lines, end })
    }
}
