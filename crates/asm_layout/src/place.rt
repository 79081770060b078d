//! Places.

use asm_statement::Section;

/// A place in a section.
#[derive(Clone, Copy)]
pub struct Place {
    /// The section.
    pub section: Section,
    /// How many bytes of the section stand before it.
    pub offset: u64,
}
