//! What the object of a source holds, before anything has an address: made from the lines and what they
//! say of names.
//!
//! [`sections_of`] tells how large the sections are and what their starts are multiples of; the functions of
//! strings append the names of each kind to the string table; [`sorted_exports`] puts exported symbols into the
//! order of their buckets; [`records_for`] makes the records of the versions that the object defines; [`Spots`]
//! tells where labels stand. What all that means is in `asm_layout`.
mod numbers;
mod order;
mod sections;
mod sorted;
mod spots;
mod strings;
mod versions;

pub use numbers::{half, offset_behind, word};
pub use sections::sections_of;
pub use sorted::sorted_exports;
pub use spots::{Spots, part_of, spot_of};
pub use strings::{append_exports, append_names, append_needed, append_spelled, append_string};
pub use versions::{gnu_hashes, records_for, sysv_hashes};
