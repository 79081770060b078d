//! Memory that records share with equal ones.
//!
//! The journal keeps each opening's objects for good. Where a file that says the same was opened before, under
//! whichever path, [`KnownObjects`] has the new record share the lists of the record before.
//!
//! What is promised: a record that shares memory is the same value.
mod known;
mod same;
mod shape;
mod sharing;

pub use known::KnownObjects;
