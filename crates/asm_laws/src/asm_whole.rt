//! What the laws of objects ask for is so of each source.
//!
//! - [`alignments_divide_pages`]: what a part is aligned to divides a page.
//! - [`sources_are_short`]: a source has a million lines at most, with short texts, names of the grammar, and
//!   alignments that are powers of two.
mod law;

pub use law::{alignments_divide_pages, sources_are_short};
