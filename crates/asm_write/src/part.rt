//! The parts of an object.

ghost use Rattle.std.specs.Prelude.{◌≡◌, ◌<◌};
ghost use Rattle.asm_write.specs.Parts.{number_of};

/// A part of an object, in the order in which they stand.
#[derive(Clone, Copy)]
pub enum Part {
    /// The ELF header and the program headers.
    Head,
    /// The GNU hash table.
    GnuHash,
    /// The SysV hash table.
    SysvHash,
    /// The symbol table.
    Symbols,
    /// The strings.
    Strings,
    /// The versions of the symbols.
    Versym,
    /// The versions that are defined.
    Verdef,
    /// The versions that are needed.
    Verneed,
    /// The relocations, but those of slots.
    Rela,
    /// The packed relative relocations.
    Relr,
    /// The relocations of the slots.
    Jmprel,
    /// `.rodata`.
    Rodata,
    /// The procedure linkage table.
    Plt,
    /// `.text`.
    Text,
    /// The dynamic table.
    Dynamic,
    /// The global offset table.
    Got,
    /// The functions that are called before all constructors.
    PreinitArray,
    /// The constructors.
    InitArray,
    /// The destructors.
    FiniArray,
    /// `.relro`.
    Relro,
    /// `.tdata`.
    Tdata,
    /// `.tbss`, which takes no room in the object's own memory.
    Tbss,
    /// The slots of the procedure linkage table, with two words before them.
    GotPlt,
    /// `.data`.
    Data,
    /// `.bss`.
    Bss,
}

impl Part {
    /// Its number, from 0 in the order in which the parts stand.
    pub fn number(self) -> usize
        ensures value { result ≡ number_of self }
        ensures bound { result < 25 }
    {
        self as usize
    }
}
