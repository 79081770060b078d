//! What the bytes that `asm_write` makes are: laws of its definitions.
//!
//! - [`parts_have_their_sizes`]: a part has as many bytes as its size says, but for the packed table, whose
//!   words are counted before the third segment has its address.
//! - [`packed_table_has_its_size`]: it has as many as were counted.
//! - [`packed_places_read_back`]: its words name the places that they were made from.
//! - [`parts_stand_apart`]: no part reaches into a later one.
//! - [`file_has_its_size`]: the object's bytes are as many as the file's size says.
mod law;

pub use law::{
    file_has_its_size, packed_places_read_back, packed_table_has_its_size, parts_have_their_sizes,
    parts_stand_apart,
};
