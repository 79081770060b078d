//! The dynamic table of an ELF file, and the tables that it names.
//!
//! [`read_dynamic`] reads them from the bytes of a file with an accepted head. It answers what they
//! say exactly where they break none of these rules, and else the first that they break, with a
//! number. [`judge_dynamic`] does the same before it is asked whether the file has too many bytes of names
//! or places of packed relocations. [`one_verdict`] says by relations what both answer, and
//! [`accepted_tables`] what is then kept.
//!
//! 10. There is a dynamic table with bytes in the file, and a DT_NULL ends it.
//! 11. The string table, the symbol table and a hash table are there, and whatever table is named has
//!     its size, entries of the sizes of ELF64 and all its bytes in the file. The number is the tag of
//!     the first table that isn't so; symbols, of which there is at least one, come last.
//! 12. Each needed name, the soname and each symbol's name is a string of the string table, of at most
//!     4,095 bytes. The number is the first offset at which none stands.
//! 13. Each symbol has a known binding, and none defines thread-local storage where there is no segment
//!     of it. The number is the symbol.
//! 14. Each relocation that isn't a slot names a symbol that is there and writable bytes that none
//!     before it names, by doublewords at a multiple of 8, a copy apart. The number is its index, packed
//!     relocations after the others.
//! 15. Nothing is there that isn't linked, as indirect functions, text relocations or other types of
//!     relocations. The number is that of the feature.
//! 16. Each slot is one of a symbol's function, at a doubleword of writable memory that no other
//!     relocation names, whose word in the file leads to code; the first two words of the table of
//!     slots belong to the linker. The number is the slot, or how many there are.
//!
//! Packed relocations are judged as their words name them, with a bit for each doubleword that is
//! named. Too many bytes of names, or places of packed relocations, count as want of memory, which comes
//! after all rules. Names stand in the memory of the file, but for the object's own name, which has memory
//! of its own. No reading takes more than n log n steps in the size of the file, but for names, of which
//! each takes up to 4,096, and for the memory that copies name, 512 bytes of it a step.
#![tactic(auto)]

mod apart;
mod feature;
mod law;
mod marks;
mod memory;
mod naming;
mod reader;
mod reloc_rules;
mod relr;
mod slot_rules;
mod string_rules;
mod symbol_rules;
mod table_rules;
mod tables;

pub use law::{accepted_tables, one_verdict};
pub use reader::{JudgedParts, judge_dynamic, read_dynamic};
