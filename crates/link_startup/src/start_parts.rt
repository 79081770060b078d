//! Where the harts of a run start, and with which registers.
//!
//! [`find_harts`] finds the addresses at which harts start, once the program is opened: the first hart at the
//! program's entry point, and each further one at its name (gABI, "Program Loading"). [`entries_of`] gives the
//! registers with which they start there (psABI).
mod entries;
mod harts;

pub use entries::{entries_of, program_entry, startup_objects};
pub use harts::{Unstarted, find_harts};
