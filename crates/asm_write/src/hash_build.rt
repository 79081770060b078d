//! The hash tables of an object's symbols, made from the hashes of their names (gABI, "Hash Table").
//!
//! [`gnu_of`] and [`sysv_of`] make the two tables of symbols that others may find, which stand behind all
//! others in the symbol table; for the GNU table they stand in the order of their buckets, of which there are
//! [`bucket_count`].
mod chains;
mod tables;

pub use tables::{bucket_count, gnu_of, sysv_of};
