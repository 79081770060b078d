//! What an object is that a source denotes, if a reader accepts it: a crate without code.
//!
//! - [`the_object_is_the_record`]: it is the record that the statements of the source say.
//! - [`unbroken_bytes_spell_the_record`]: that record spells the bytes, where they break no rule.
//! - [`the_names_are_strings`]: each name of an accepted object is a string of its table.
//!
//! `elf_tabled`, `elf_hashed`, `elf_versioned` and `elf_accepted` say it of whatever `asm_write` makes, table by
//! table; `asm_fields`, `asm_hashed`, `asm_versioned`, `asm_packed` and `asm_record` that a source's contents are such.
#![tactic(auto)]

mod asm_fields;
mod asm_hashed;
mod asm_packed;
mod asm_record;
mod asm_versioned;
mod elf_accepted;
mod elf_hashed;
mod elf_tabled;
mod elf_versioned;
mod law;

pub use asm_fields::{names_stand_at_their_offsets, numbers_fit_their_fields};
pub use asm_hashed::{hash_tables_count_symbols, hash_tables_fit};
pub use asm_packed::packed_places_ascend;
pub use asm_record::{the_head_is_said, worked_library, worked_program};
pub use asm_versioned::versions_lead_on;
pub use elf_accepted::the_object_is_spelled;
pub use elf_hashed::{
    the_hash_tables_are_spelled, the_symbols_are_counted, the_symbols_are_spelled,
};
pub use elf_tabled::{
    the_names_are_spelled, the_packed_places_are_spelled, the_relocations_are_spelled,
    the_slots_are_spelled, the_table_of_packed_places, the_table_of_relocations,
    the_table_of_symbols, words_name_one_list,
};
pub use elf_versioned::the_versions_are_spelled;
pub use law::{the_names_are_strings, the_object_is_the_record, unbroken_bytes_spell_the_record};
