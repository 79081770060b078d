//! The set of libraries that a number makes, with the program that runs them, and the line that sums up
//! their run.
//!
//! [`library_set`] assembles the sources of the set (`generated_sources`). [`SetLibrary`] has its files and
//! never fails. [`summary_line`] says how large the set is, how many slots its run was granted and bound,
//! and with which code it exited.
//!
//! `generated_sources` writes the sources, `generated_lines` and `generated_denotes` have their laws: each
//! denotes an object.
#![tactic(auto)]

mod generated_denotes;
mod generated_lines;
mod generated_sources;
mod law;
mod library;
mod set;
mod summary;
mod worked;

pub use generated_denotes::sources_denote;
pub use generated_lines::sources_say;
pub use generated_sources::{function_count, library_count, sources};
pub use law::one_set;
pub use library::SetLibrary;
pub use set::library_set;
pub use summary::summary_line;
pub use worked::runs_are_summed_up;
