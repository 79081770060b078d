//! What a reader finds in an object that `asm_write` makes.
//!
//! - [`parts_stand_at_their_starts`]: the bytes of each part stand where it starts.
//! - [`the_head_is_spelled`]: the kind, the entry and the program headers.
//! - [`the_tags_are_spelled`]: the entries of the dynamic table.
//! - [`the_table_tells`]: what these entries tell of each tag.
//! - [`the_table_says_by_itself`]: the arrays of functions, the flags, the slots' words.
mod law;

pub use law::{
    parts_stand_at_their_starts, the_head_is_spelled, the_table_says_by_itself, the_table_tells,
    the_tags_are_spelled,
};
