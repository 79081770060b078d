//! The hash tables and symbols of a source's object: laws.
//!
//! - [`hash_tables_fit`]: the numbers of the hash tables fit their words, and nothing but the chain of its greatest
//!   bucket has to tell where the GNU table ends.
//! - [`hash_tables_count_symbols`]: they tell how many symbols there are, and relocations and slots name some of
//!   those.
mod law;

pub use law::{hash_tables_count_symbols, hash_tables_fit};
