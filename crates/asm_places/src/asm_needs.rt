//! What versions the lines of an assembler source need of which files.
//!
//! [`NeededFiles`] has the files by their first need, the versions that are needed of each ([`NeededFile`]),
//! and numbers all versions, file by file. [`defined_number`] and [`first_needed`] tell the indexes of the
//! versions that the object defines, and where those that it needs begin. What all that means is in `asm_layout`, definitions over the
//! lines. The needs are walked over once, and files and versions are found by their hashes.
mod filling;
mod indexes;
mod needed_file;
mod needed_files;
mod version_number;

pub use indexes::{defined_number, first_needed};
pub use needed_file::NeededFile;
pub use needed_files::NeededFiles;
pub use version_number::VersionNumber;
