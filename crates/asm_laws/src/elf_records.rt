//! A record that `asm_write` makes reads back, wherever its bytes stand: the writer has lists of fields, the
//! reader places, and these laws tie them.
//!
//! - [`fields_read_back`]: a field has its number as far behind the record's begin as the fields before it take.
//! - [`heads_read_back`], [`headers_read_back`]: the ELF header and program headers.
//! - [`entries_read_back`]: entries of the dynamic table.
//! - [`symbols_read_back`], [`relocations_read_back`], [`slots_read_back`]: entries of the tables.
//! - [`versions_read_back`], [`needs_read_back`], [`needed_versions_read_back`]: the versions.
//! - [`inner_bytes_stand`], [`joined_bytes_stand`], [`bytes_are_cut_out`]: bytes that stand in others.
mod law;

pub use law::{
    bytes_are_cut_out, entries_read_back, fields_read_back, headers_read_back, heads_read_back,
    inner_bytes_stand, joined_bytes_stand, needed_versions_read_back, needs_read_back,
    relocations_read_back, slots_read_back, symbols_read_back, versions_read_back,
};
