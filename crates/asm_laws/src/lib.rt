//! What the object of a source holds is as it has to be: laws of `asm_layout`'s definitions; a crate without code.
//!
//! - [`fixes_ascend`]: the places that the linker fills stand in ascending order of address, and none reaches
//!   into the next.
//! - [`sections_have_their_sizes`]: the bytes of each section are as many as its lines fill.
//! - [`strings_are_said`]: the names in the strings are names that the lines say.
//! - [`sections_are_small`]: no section of a source comes near 2^64 bytes.
//!
//! `elf_written`, `elf_records` and `elf_spelled` say of the writer's bytes how long they are and what a reader
//! finds at each place; `asm_whole` and `asm_bounds` how large a source and its object are.
#![tactic(auto)]

mod asm_bounds;
mod asm_whole;
mod elf_records;
mod elf_spelled;
mod elf_written;
mod law;

pub use asm_bounds::{
    denoted_objects_are_small, object_has_its_size, objects_are_whole, packed_places_stand_behind,
    parts_are_within_the_object, parts_end_low,
};
pub use asm_whole::{alignments_divide_pages, sources_are_short};
pub use elf_records::{
    bytes_are_cut_out, entries_read_back, fields_read_back, headers_read_back, heads_read_back,
    inner_bytes_stand, joined_bytes_stand, needed_versions_read_back, needs_read_back,
    relocations_read_back, slots_read_back, symbols_read_back, versions_read_back,
};
pub use elf_spelled::{
    parts_stand_at_their_starts, the_head_is_spelled, the_table_says_by_itself, the_table_tells,
    the_tags_are_spelled,
};
pub use elf_written::{
    file_has_its_size, packed_places_read_back, packed_table_has_its_size, parts_have_their_sizes,
    parts_stand_apart,
};
pub use law::{fixes_ascend, sections_are_small, sections_have_their_sizes, strings_are_said};
