//! What the readers of an object's tables hand on to each other.

use crate::{
    Kind, Name, Names, ObjFlags, Places, Relocs, Sequence, SharedList, Span, Symbols, Verdefs,
    Verneeds,
};

/// A program header.
#[derive(Clone, Copy, PartialEq, Eq)]
pub struct Header {
    pub kind: u32,
    pub flags: u32,
    pub offset: u64,
    pub vaddr: u64,
    pub filesz: u64,
    pub memsz: u64,
    pub align: u64,
}

/// Program headers, in file order.
pub type Headers = Sequence<Header>;

/// What the ELF header and the program headers say.
#[derive(Drop)]
pub struct Head {
    pub kind: Kind,
    pub entry: u64,
    pub headers: Headers,
}

/// An entry of the dynamic table.
#[derive(Clone, Copy, PartialEq, Eq)]
pub struct Tag {
    pub tag: u64,
    pub value: u64,
}

/// Entries of the dynamic table before its first NULL, in file order.
pub type Tags = Sequence<Tag>;

/// What the dynamic table and the tables that it names say. Each symbol's version is 0 here.
#[derive(Drop)]
pub struct DynParts {
    pub tags: Tags,
    pub soname: Option<Name>,
    pub needed: Names,
    pub symbols: Symbols,
    pub first_exported: u32,
    pub relocs: Relocs,
    pub plt_relocs: Relocs,
    pub pltgot: Option<u64>,
    pub preinit: Option<Span>,
    pub init: Option<u64>,
    pub init_array: Option<Span>,
    pub fini: Option<u64>,
    pub fini_array: Option<Span>,
    pub flags: ObjFlags,
    pub relr: Places,
}

/// 16-bit words, in order.
pub type Shorts = Sequence<u16>;
/// 32-bit words, in order.
pub type Ints = Sequence<u32>;
/// 64-bit words, in order.
pub type Longs = Sequence<u64>;

/// What the version tables say.
#[derive(Drop)]
pub struct Versions {
    pub has_versym: bool,
    pub versym: Shorts,
    pub verdefs: Verdefs,
    pub verneeds: Verneeds,
}

/// The hash tables of an object, as lists of words.
#[derive(Drop)]
pub struct HashTable {
    pub gnu: Option<GnuPart>,
    pub sysv: Option<SysvPart>,
}

/// A GNU hash table. Chain words stand from the symbol `symoffset` on.
#[derive(Drop)]
pub struct GnuPart {
    pub symoffset: u32,
    pub shift: u32,
    pub bloom: SharedList<u64>,
    pub buckets: SharedList<u32>,
    pub chain: SharedList<u32>,
}

/// A System V hash table.
#[derive(Drop)]
pub struct SysvPart {
    pub buckets: SharedList<u32>,
    pub chain: SharedList<u32>,
}
