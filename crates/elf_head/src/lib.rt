//! The head of an ELF file: its ELF header and its program headers.
//!
//! [`read_head`] reads both from the bytes of a file. It answers the head exactly where the file
//! breaks none of these rules, and else the first that it breaks, with a number: for rule 8 the
//! index of the program header, for the others 0.
//!
//! 1. The file has the 64 bytes of an ELF header.
//! 2. It begins with the magic number.
//! 3. It is a little-endian file of class 64, of version 1.
//! 4. It is for RISC-V.
//! 5. It is linked: an executable or a shared object.
//! 6. It needs no compressed code, no floating-point registers and no reduced register file.
//! 7. Its table of program headers lies in the file, with 1 to 128 entries of 56 bytes.
//! 8. Its segments can be mapped: each fits its memory, the file, the first 4 GiB of addresses and
//!    its alignment; mapped segments stand in ascending order, on pages of their own, and there is
//!    one; there is at most one dynamic table and one segment of thread-local storage, whose
//!    initial bytes belong to a mapped segment and whose memory and alignment are at most 1 MiB.
//! 9. The file has at most 8 MiB.
//!
//! [`file_bytes`] gives the bytes of the file that stand for a range of addresses, where there are
//! such ([`is_readable`]), [`file_part`] the same in the file's memory, and [`bytes_from`] those from an
//! address to the end of its segment.
//!
//! Beside the head stand what all readers of tables share, as definitions with their lemmas (`acceptance`), and
//! the front of the dynamic table, its entries and the tables that they name, without a rule (`dyn_table`).
#![tactic(auto)]

mod acceptance;
mod dyn_table;
mod elf_header;
mod program_headers;
mod range;
mod reader;
mod segments;
mod verdict;

pub use dyn_table::{
    DT_BIND_NOW, DT_FINI, DT_FINI_ARRAY, DT_FINI_ARRAYSZ, DT_FLAGS, DT_FLAGS_1, DT_GNU_HASH,
    DT_HASH, DT_INIT, DT_INIT_ARRAY, DT_INIT_ARRAYSZ, DT_JMPREL, DT_NEEDED, DT_NULL, DT_PLTGOT,
    DT_PLTREL, DT_PLTRELSZ, DT_PREINIT_ARRAY, DT_PREINIT_ARRAYSZ, DT_REL, DT_RELA, DT_RELAENT,
    DT_RELASZ, DT_RELR, DT_RELRENT, DT_RELRSZ, DT_SONAME, DT_STRSZ, DT_STRTAB, DT_SYMBOLIC,
    DT_SYMENT, DT_SYMTAB, DT_TEXTREL, DT_VERDEF, DT_VERDEFNUM, DT_VERNEED, DT_VERNEEDNUM,
    DT_VERSYM, R_RISCV_JUMP_SLOT, RELOC_SIZE, STRING_LIMIT, SYMBOL_SIZE, count_of, has, has_flag,
    last_of, one_reading, read_hash_words, read_relocs, read_string, read_symbols, read_tags,
    string_at, value_of, values_of, with_name,
};
pub use program_headers::{PT_DYNAMIC, PT_GNU_RELRO, PT_LOAD, PT_TLS};
pub use range::{bytes_from, file_bytes, file_part, is_readable};
pub use reader::read_head;
pub use verdict::{accepted_head, one_verdict};
