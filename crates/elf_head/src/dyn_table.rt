//! The front of the dynamic table of an ELF file: its entries, and the tables that they name as far
//! as more than one reader takes them. No rule of acceptance is here.
//!
//! - [`read_tags`] reads the entries, of which [`last_of`], [`values_of`], [`count_of`], [`value_of`],
//!   [`has`] and [`has_flag`] tell.
//! - [`string_at`] finds a string of a string table.
//! - [`read_symbols`] and [`read_relocs`] give all entries of a table, each at its own place.
//! - [`read_hash_words`] gives the words of the hash tables.
//!
//! [`one_reading`] says by relations what the entries and a string are.
mod hash_words;
mod law;
mod reloc;
mod string;
mod symbol;
mod tag;

pub use hash_words::read_hash_words;
pub use law::one_reading;
pub use reloc::{R_RISCV_JUMP_SLOT, RELOC_SIZE, read_relocs};
pub use string::{STRING_LIMIT, read_string, string_at, with_name};
pub use symbol::{SYMBOL_SIZE, read_symbols};
pub use tag::{
    DT_BIND_NOW, DT_FINI, DT_FINI_ARRAY, DT_FINI_ARRAYSZ, DT_FLAGS, DT_FLAGS_1, DT_GNU_HASH,
    DT_HASH, DT_INIT, DT_INIT_ARRAY, DT_INIT_ARRAYSZ, DT_JMPREL, DT_NEEDED, DT_NULL, DT_PLTGOT,
    DT_PLTREL, DT_PLTRELSZ, DT_PREINIT_ARRAY, DT_PREINIT_ARRAYSZ, DT_REL, DT_RELA, DT_RELAENT,
    DT_RELASZ, DT_RELR, DT_RELRENT, DT_RELRSZ, DT_SONAME, DT_STRSZ, DT_STRTAB, DT_SYMBOLIC,
    DT_SYMENT, DT_SYMTAB, DT_TEXTREL, DT_VERDEF, DT_VERDEFNUM, DT_VERNEED, DT_VERNEEDNUM,
    DT_VERSYM, count_of, has, has_flag, last_of, read_tags, value_of, values_of,
};
