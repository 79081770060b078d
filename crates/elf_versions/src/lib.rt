//! The symbol versions of an ELF file: those that it defines, those that it needs, and the version
//! index of each symbol (Drepper, "ELF Symbol Versioning").
//!
//! [`read_versions`] reads the tables of the tags VERSYM, VERDEF and VERNEED. It answers what they say
//! exactly where they break neither of these rules, and else the first that they break, with a number.
//! [`judge_versions`] does the same before it is asked whether the file has too many bytes of names.
//! [`one_verdict`] says by relations what both answer. Names stand in the memory of the file.
//!
//! 17. Each table is well formed. That of VERSYM has an entry for each symbol. Each Verdef and each
//!     Verneed has version 1 and counts at least one name; each record but the last of its chain
//!     leads to the next one; all records lie in the bytes of a segment, and all names in the string
//!     table, with at most 4,095 bytes. There are at most 32,768 Verdefs, Verneeds and Vernauxs each,
//!     since there are no more version indexes. The number is the tag of the first table that isn't.
//! 18. Each symbol's version index, without the bit 0x8000, is 0, 1 or that of a Verdef or a Vernaux.
//!     The number is the first symbol whose index isn't.
#![tactic(auto)]

mod index;
mod judged;
mod law;
mod reader;
mod records;
mod verdef;
mod verneed;
mod versym;

pub use judged::JudgedVersions;
pub use law::one_verdict;
pub use reader::{judge_versions, read_versions};
