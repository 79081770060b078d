//! What the tables of a source's object hold is what their fields and strings can hold: laws.
//!
//! - [`numbers_fit_their_fields`]: the numbers of its tables fit the fields that have them.
//! - [`names_stand_at_their_offsets`]: each name stands in the strings where the tables say.
mod law;

pub use law::{names_stand_at_their_offsets, numbers_fit_their_fields};
