//! The pages of guest memory that are reserved, and what for.
//!
//! [`ReservedPages`] has the ranges in the order in which they were reserved, with the pages that are free
//! beside them. No two ranges have a page in common.
mod reserved;

pub use reserved::ReservedPages;
