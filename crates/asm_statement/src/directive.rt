//! Directives: what a line says of the object, or puts into a section.

use crate::alignment::Alignment;
use crate::number::Number;
use ld_base::{Bytes, Name, ObjFlags};

/// Which kind of object is made.
#[derive(Clone, Copy, PartialEq, Eq)]
pub enum ObjectKind {
    /// A shared library.
    Library,
    /// A program that may be loaded anywhere.
    Program,
    /// A program with addresses of its own.
    Executable,
}

/// Which hash tables are made.
#[derive(Clone, Copy, PartialEq, Eq)]
pub enum HashKind {
    /// The GNU table.
    Gnu,
    /// The SysV table.
    Sysv,
    /// The two of them.
    Both,
}

/// Where code and data go.
#[derive(Clone, Copy, PartialEq, Eq)]
pub enum Section {
    /// Code.
    Text,
    /// Data that is only read.
    Rodata,
    /// Data that is only read once it is relocated.
    Relro,
    /// Data.
    Data,
    /// Zeros.
    Bss,
    /// The data that each hart's block begins with.
    Tdata,
    /// The zeros that follow it.
    Tbss,
}

/// How a label is exported, and how much of that others see.
#[derive(Clone, Copy, PartialEq, Eq)]
pub enum Export {
    /// Any object may define it in its place.
    Global,
    /// No other object sees it.
    Hidden,
    /// Others see it, and the object itself always finds its own.
    Protected,
}

/// Which functions of an object an entry belongs to.
#[derive(Clone, Copy, PartialEq, Eq)]
pub enum Array {
    /// Those that are called before all constructors.
    Preinit,
    /// Constructors.
    Init,
    /// Destructors.
    Fini,
}

/// How many bytes a number takes.
#[derive(Clone, Copy, PartialEq, Eq)]
pub enum DataSize {
    /// Four bytes.
    Word,
    /// Two bytes.
    Half,
    /// One byte.
    Byte,
}

/// What a doubleword holds.
#[derive(Drop)]
pub enum Doubleword {
    /// A number.
    Number(Number),
    /// So many bytes after what a name stands for.
    Address(Name, Number),
}

/// A label that is exported in a version.
#[derive(Drop)]
pub struct Symver {
    /// What is exported.
    pub label: Name,
    /// As what.
    pub name: Name,
    /// In which version.
    pub version: Name,
    /// Whether references without a version find it.
    pub is_default: bool,
}

/// A version that the references to a name carry.
#[derive(Drop)]
pub struct Need {
    /// The name.
    pub name: Name,
    /// The version.
    pub version: Name,
    /// The library that has to define it.
    pub file: Name,
    /// Whether the library may lack it.
    pub is_weak: bool,
}

/// What a line says of the object, or puts into a section.
#[derive(Drop)]
pub enum Directive {
    /// The object's own name.
    Soname(Name),
    /// A library that the object needs.
    Needed(Name),
    /// The label at which the program begins.
    Entry(Name),
    /// A label that is exported.
    Export(Export, Name),
    /// A label that is exported, or a name whose references are weak.
    Weak(Name),
    /// A version that the object defines.
    Version(Name),
    /// A label whose address is an entry of an array.
    Entries(Array, Name),
    /// A number in so many bytes.
    Data(DataSize, Number),
    /// So many zero bytes.
    Zero(Number),
    /// The section that follows.
    Section(Section),
    /// Which kind of object is made.
    Kind(ObjectKind),
    /// Which hash tables are made.
    Hash(HashKind),
    /// Flags of the dynamic table.
    Flags(ObjFlags),
    /// An export in a version.
    Symver(Symver),
    /// A version that references carry.
    Need(Need),
    /// Eight bytes.
    Dword(Doubleword),
    /// A text and a zero byte.
    Asciz(Bytes),
    /// Zero bytes up to a multiple of a power of two.
    Align(Alignment),
    /// Relative relocations go into the packed table.
    Relr,
    /// A label at a copy of so many bytes of another object's data.
    Copy(Name, Number),
}
