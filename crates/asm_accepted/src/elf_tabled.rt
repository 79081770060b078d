//! What a reader finds in the tables of an object that `asm_write` makes.
//!
//! - [`the_relocations_are_spelled`]: the relocations of an accepted object are those of the places that the
//!   linker is told of; [`the_table_of_relocations`] says it of the table's bytes alone.
//! - [`the_slots_are_spelled`]: its slots are one for each symbol that has one.
//! - [`the_packed_places_are_spelled`]: its packed places; [`the_table_of_packed_places`] says it of the table's
//!   bytes, and [`words_name_one_list`] that words name one list of places.
//! - [`the_names_are_spelled`]: its name, and those of the libraries that it needs.
//! - [`the_table_of_symbols`]: the symbols in the bytes of their table.
mod law;

pub use law::{
    the_names_are_spelled, the_packed_places_are_spelled, the_relocations_are_spelled,
    the_slots_are_spelled, the_table_of_packed_places, the_table_of_relocations,
    the_table_of_symbols, words_name_one_list,
};
