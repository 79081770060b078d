//! The symbols of an assembler source's object: their indexes, and their entries of the symbol table.
//!
//! [`SymbolIndexes`] tells the index of a name; [`SymbolFacts`] has what the lines say of symbols beside their
//! places (which are weak, how much of them others see, how far they reach, which versions they need);
//! [`SymbolTable`] makes the entries. What all that means is in `asm_layout`, definitions over the lines.
//!
//! `asm_tables` makes what these entries count on: extents of sections, the string table, exported symbols
//! in the order of their buckets, records of versions, where labels stand.
#![tactic(auto)]

mod asm_tables;
mod entries;
mod facts;
mod indexes;
mod label_sizes;
mod visibilities;

pub use asm_tables::{
    Spots, append_exports, append_names, append_needed, append_spelled, append_string, gnu_hashes,
    half, offset_behind, part_of, records_for, sections_of, sorted_exports, spot_of, sysv_hashes,
    word,
};
pub use entries::{SymbolTable, has_versions};
pub use facts::SymbolFacts;
pub use indexes::{SymbolIndexes, own_numbers};
pub use label_sizes::LabelSizes;
pub use visibilities::{Visibilities, Visibility};
