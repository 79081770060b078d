//! Where the lines of a source stand, as far as that goes without addresses.
//!
//! [`Places`] tells of each line its section and the offset in it, and how far the lines fill each
//! section. [`fits_data`] and its kin tell which written numbers fit where, [`value_of`] which number one
//! is. What all that means is in `asm_layout`, definitions over the lines.
//!
//! `asm_needs` has which versions a source needs of which files, and the numbers of versions.
#![tactic(auto)]

mod asm_needs;
mod counter;
mod numbers;
mod places;
mod sizes;

pub use asm_needs::{NeededFile, NeededFiles, VersionNumber, defined_number, first_needed};
pub use counter::{Counter, section_number};
pub use numbers::{
    count_of, fits_addend, fits_addi, fits_count, fits_data, fits_dword, fits_li, fits_upper,
    value_of,
};
pub use places::Places;
pub use sizes::padding;
