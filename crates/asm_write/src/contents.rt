//! What an object holds, before anything has an address.

use crate::part::Part;
use ld_base::{Bytes, GnuPart, Ints, Kind, ObjFlags, Sequence, SysvPart};

/// A place: so many bytes behind the start of a part.
#[derive(Clone, Copy)]
pub struct Spot {
    pub part: Part,
    pub offset: u64,
}

/// An entry of the symbol table.
#[derive(Clone, Copy)]
pub struct SymbolEntry {
    /// The offset of its name in the strings.
    pub name: u32,
    /// Its binding and its type (st_info).
    pub info: u8,
    /// Its visibility (st_other).
    pub other: u8,
    /// Where it is defined; None where another object has to define it.
    pub spot: Option<Spot>,
    /// How many bytes it has.
    pub size: u64,
    /// Its entry of the versym table.
    pub version: u16,
}

/// What a place that the linker fills is about.
#[derive(Clone, Copy)]
pub enum Target {
    /// A place of the object's own.
    Own(Spot),
    /// A symbol, by its index.
    Symbol(u32),
}

/// What the linker puts at a place.
#[derive(Clone, Copy)]
pub enum FixKind {
    /// The target's address.
    Address,
    /// The number of the target's module.
    Module,
    /// The target's offset in the block of its module.
    Offset,
    /// The target's offset from the thread pointer.
    ThreadOffset,
    /// The target's bytes.
    Copy,
}

/// How the linker is told of a place.
#[derive(Clone, Copy)]
pub enum Way {
    /// By a relocation with an addend.
    Listed,
    /// By the table of packed relocations; the file's word is the addend.
    Packed,
    /// Not at all: the file's word is the address.
    Plain,
}

/// A place that the linker fills, or that has an address of the object's own.
#[derive(Clone, Copy)]
pub struct Fix {
    pub spot: Spot,
    pub way: Way,
    pub kind: FixKind,
    pub target: Target,
    /// How much is added, modulo 2^64.
    pub addend: u64,
}

/// A version that the object defines (Elf64_Verdef and its one Elf64_Verdaux).
#[derive(Clone, Copy)]
pub struct VersionRecord {
    pub flags: u16,
    pub index: u16,
    pub hash: u32,
    /// The offset of its name in the strings.
    pub name: u32,
    /// How far behind the record the next one stands, 0 behind the last.
    pub next: u32,
}

/// A file of which versions are needed (Elf64_Verneed).
#[derive(Clone, Copy)]
pub struct NeedRecord {
    /// How many versions are needed of it.
    pub count: u16,
    /// The offset of its name in the strings.
    pub name: u32,
    /// How far behind the record the first of its versions stands.
    pub first: u32,
    /// How far behind the record the next one stands, 0 behind the last.
    pub next: u32,
}

/// A version that is needed of a file (Elf64_Vernaux).
#[derive(Clone, Copy)]
pub struct NeededVersion {
    pub hash: u32,
    pub flags: u16,
    pub index: u16,
    /// The offset of its name in the strings.
    pub name: u32,
    /// How far behind the record the next one stands, 0 behind the file's last.
    pub next: u32,
}

/// How many bytes a section has, and what its start is a multiple of.
#[derive(Clone, Copy)]
pub struct Extent {
    pub size: u64,
    pub align: u64,
}

/// The sections of a source.
#[derive(Clone, Copy)]
pub struct Sections {
    pub rodata: Extent,
    pub text: Extent,
    pub relro: Extent,
    pub tdata: Extent,
    pub tbss: Extent,
    pub data: Extent,
    pub bss: Extent,
}

/// What an object holds, before anything has an address.
#[derive(Drop)]
pub struct Contents {
    pub kind: Kind,
    /// Where a program begins.
    pub entry: Option<Spot>,
    /// The string table.
    pub strings: Bytes,
    /// The offset of the object's own name in the strings.
    pub soname: Option<u32>,
    /// The offsets of the names of the libraries that it needs.
    pub needed: Ints,
    pub flags: ObjFlags,
    /// The symbols behind the null symbol.
    pub symbols: Sequence<SymbolEntry>,
    pub gnu: Option<GnuPart>,
    pub sysv: Option<SysvPart>,
    /// Whether there is a versym table.
    pub has_versions: bool,
    pub versions: Sequence<VersionRecord>,
    pub files: Sequence<NeedRecord>,
    pub needed_versions: Sequence<NeededVersion>,
    /// The symbols of the slots.
    pub slots: Ints,
    /// The places that the linker fills, in ascending order.
    pub fixes: Sequence<Fix>,
    pub sections: Sections,
}

/// The bytes of the sections, and of the procedure linkage table.
#[derive(Drop)]
pub struct SectionBytes {
    pub rodata: Bytes,
    pub plt: Bytes,
    pub text: Bytes,
    pub relro: Bytes,
    pub tdata: Bytes,
    pub data: Bytes,
}
