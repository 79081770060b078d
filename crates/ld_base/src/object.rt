//! What a linked object holds, as its reader gives it.

use crate::{Name, Sequence, SharedBytes, SharedList, SharedSymbols};

/// Whether an object stands at its own addresses (ET_EXEC) or anywhere (ET_DYN).
#[derive(Clone, Copy, PartialEq, Eq)]
pub enum Kind {
    Exec,
    Dyn,
}

/// A range of virtual addresses.
#[derive(Clone, Copy, PartialEq, Eq)]
pub struct Span {
    pub start: u64,
    pub size: u64,
}

/// The segment from which each thread's block is made (PT_TLS).
#[derive(Clone, Copy, PartialEq, Eq)]
pub struct TlsSeg {
    pub vaddr: u64,
    pub filesz: u64,
    pub memsz: u64,
    pub align: u64,
}

/// Marks of the dynamic table that change how an object is linked.
#[derive(Clone, Copy, PartialEq, Eq)]
pub struct ObjFlags {
    /// DT_SYMBOLIC or DF_SYMBOLIC: the object's own definitions come first.
    pub symbolic: bool,
    /// DT_BIND_NOW, DF_BIND_NOW or DF_1_NOW: its slots are bound at load.
    pub bind_now: bool,
    /// DF_1_NODELETE: it is never unmapped.
    pub nodelete: bool,
}

/// A segment that is mapped (PT_LOAD), with its bytes of the file, which it may share with the file.
#[derive(Drop)]
pub struct Segment {
    pub vaddr: u64,
    pub memsz: u64,
    pub flags: u32,
    pub align: u64,
    pub bytes: SharedBytes,
}

/// An entry of the symbol table, with its name and its version's index.
#[derive(Drop)]
pub struct Symbol {
    pub name: Name,
    pub value: u64,
    pub size: u64,
    pub shndx: u16,
    /// The entry of the versym table, its hidden bit 0x8000 too; 0 where there is no such table.
    pub version: u16,
    pub info: u8,
    pub other: u8,
}

/// A relocation with its addend.
#[derive(Clone, Copy, PartialEq, Eq)]
pub struct Reloc {
    pub place: u64,
    pub kind: u32,
    pub symbol: u32,
    pub addend: i64,
}

/// A version that an object defines.
#[derive(Drop)]
pub struct Verdef {
    pub index: u16,
    pub flags: u16,
    pub name: Name,
}

/// A version that an object needs of a file.
#[derive(Drop)]
pub struct Verneed {
    pub index: u16,
    pub flags: u16,
    pub file: Name,
    pub name: Name,
}

/// Segments, in ascending order of address.
pub type Segments = Sequence<Segment>;
/// Relocations, in file order.
pub type Relocs = Sequence<Reloc>;
/// Versions that are defined, in file order.
pub type Verdefs = Sequence<Verdef>;
/// Versions that are needed, in file order.
pub type Verneeds = Sequence<Verneed>;
/// Virtual addresses, in order.
pub type Places = Sequence<u64>;

/// A linked object: what the reader takes from a file.
#[derive(Drop)]
pub struct Object {
    pub kind: Kind,
    pub entry: u64,
    pub soname: Option<Name>,
    /// Names of DT_NEEDED, in order.
    pub needed: SharedList<Name>,
    pub segments: SharedList<Segment>,
    pub symbols: SharedSymbols,
    /// The least index that an exported definition may have.
    pub first_exported: u32,
    pub has_versym: bool,
    pub verdefs: SharedList<Verdef>,
    pub verneeds: SharedList<Verneed>,
    /// Relocations of DT_RELA, less those that are the table of DT_JMPREL.
    pub relocs: SharedList<Reloc>,
    /// Relocations of DT_JMPREL, one a procedure linkage slot.
    pub plt_relocs: SharedList<Reloc>,
    pub pltgot: Option<u64>,
    pub preinit: Option<Span>,
    pub init: Option<u64>,
    pub init_array: Option<Span>,
    pub fini: Option<u64>,
    pub fini_array: Option<Span>,
    pub tls: Option<TlsSeg>,
    pub relro: Option<Span>,
    pub flags: ObjFlags,
    /// Places of packed relative relocations (RELR).
    pub relr: SharedList<u64>,
    /// The address of the dynamic table.
    pub dynamic: u64,
}
