//! Writing the bytes of a linked object (ELF-64 Object File Format 1.5; gABI; psABI).
//!
//! [`Contents`] is what an object holds before anything has an address: its symbols, the places that its
//! linker fills, its hash tables and versions, and how large its sections are. [`Starts`] tells where each
//! [`Part`] of it starts. The records of its tables are lists of little-endian fields.
//!
//! `hash_build` makes the two hash tables of exported symbols, from the hashes of their names.
#![tactic(auto)]

mod contents;
mod dynamic;
mod entries;
mod field;
mod hash_build;
mod object;
mod part;
mod records;
mod relr;
mod segments;
mod sizes;
mod starts;
mod tables;

pub use contents::{
    Contents, Extent, Fix, FixKind, NeedRecord, NeededVersion, SectionBytes, Sections, Spot,
    SymbolEntry, Target, VersionRecord, Way,
};
pub use entries::{DynamicEntry, SegmentKind, Told};
pub use field::Field;
pub use hash_build::{bucket_count, gnu_of, sysv_of};
pub use object::object_bytes;
pub use part::Part;
pub use records::file_word;
pub use segments::file_size;
pub use starts::Starts;
