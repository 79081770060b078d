//! Linked objects, read from the bytes of a file (gABI, psABI).
//!
//! [`read_object`] answers the object that a file is, and its hash tables, exactly where the file
//! breaks no rule, and else the first rule that it breaks, with a number. It joins the readers of a
//! file's parts, each of which asks rules of its own:
//!
//! - `elf_head` reads the ELF header and the program headers (rules 1 to 9): the kind, the entry, the
//!   segments, the segment of thread-local storage, the range that is read-only once it is relocated
//!   (the last one that is named), and where the dynamic table stands.
//! - `elf_dynamic` reads the dynamic table and the tables that it names (rules 10 to 16): the names,
//!   the symbols, the relocations, the slots, and what runs at the start and at the end.
//! - `elf_versions` reads the version tables (rules 17 and 18): the versions that are defined and
//!   needed, and the version index of each symbol, 0 where there is no such table.
//! - `sym_hash` reads the hash tables (rule 19).
//!
//! The program may have what no other object may: copy relocations, and addresses of its own.
//!
//! [`one_object`] says what the verdict means: a file is an object where each part of it breaks no
//! rule and says its fields of the record (`Spells`), and then no other record is spelled by it; it
//! is refused where a part breaks a rule and the parts before it break none (`Broken`). An object's
//! hash tables lead to all that it exports, and each of its relocations names one of its symbols.
#![tactic(auto)]

mod law;
mod reader;
mod segment;

pub use law::one_object;
pub use reader::read_object;
