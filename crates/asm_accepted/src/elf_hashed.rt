//! What a reader finds of the symbols and hash tables of an object that `asm_write` makes.
//!
//! - [`the_hash_tables_are_spelled`]: the words of its hash tables.
//! - [`the_symbols_are_counted`]: how many symbols it says that it has.
//! - [`the_symbols_are_spelled`]: each of them.
mod law;

pub use law::{the_hash_tables_are_spelled, the_symbols_are_counted, the_symbols_are_spelled};
