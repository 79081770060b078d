//! Openings in a history that is judged: the one event that a line of an opening may be.
//!
//! `failed_paths` says where an opening may be refused for a read that fails.
#![tactic(auto)]

mod failed_paths;
mod opening_rows;

pub use failed_paths::Doubt;
pub use opening_rows::expected_open;
