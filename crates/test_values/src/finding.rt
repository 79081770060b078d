//! Symbols that hash tables lead to, in an object that exports the functions `f`, of index 1, and `g`,
//! of index 2.

use ld_base::{
    GnuPart, HashTable, Kind, Name, ObjFlags, Object, SharedList, SharedSymbols, Symbol, Symbols,
    SysvPart, Want, pick,
};
use std::alloc::{AllocError, Global};
use sym_lookup::Find;
use test_file::{Fault, Words, show_some};

/// What a scan of the symbols gives for a name.
pub fn picked(alloc: Global, name: &str) -> Result<String, Fault> {
    let object = exporter(alloc)?;
    show_some(alloc, pick(&object, name.as_bytes(), &Want::Plain))
}

/// What a GNU table gives for a name: a word of the bloom filter, a bucket and two chain words.
pub fn in_gnu(alloc: Global, words: &mut Words) -> Result<String, Fault> {
    let name = words.text()?;
    let bloom = Vec::from_slice(alloc, &[words.number()?])?;
    let buckets = Vec::from_slice(alloc, &[words.number32()?])?;
    let chain = Vec::from_slice(alloc, &[words.number32()?, words.number32()?])?;
    let gnu = GnuPart {
        symoffset: 1,
        shift: 6,
        bloom: SharedList::new(alloc, bloom)?,
        buckets: SharedList::new(alloc, buckets)?,
        chain: SharedList::new(alloc, chain)?,
    };
    found(alloc, Some(gnu), None, name)
}

/// What a System V table gives for a name: a bucket and three links.
pub fn in_sysv(alloc: Global, words: &mut Words) -> Result<String, Fault> {
    let name = words.text()?;
    let buckets = Vec::from_slice(alloc, &[words.number32()?])?;
    let chain = [words.number32()?, words.number32()?, words.number32()?];
    let chain = Vec::from_slice(alloc, &chain)?;
    let sysv = SysvPart {
        buckets: SharedList::new(alloc, buckets)?,
        chain: SharedList::new(alloc, chain)?,
    };
    found(alloc, None, Some(sysv), name)
}

fn found(
    alloc: Global,
    gnu: Option<GnuPart>,
    sysv: Option<SysvPart>,
    name: &str,
) -> Result<String, Fault> {
    let table = HashTable { gnu, sysv };
    let object = exporter(alloc)?;
    show_some(alloc, table.find(&object, name.as_bytes(), &Want::Plain))
}

fn function(alloc: Global, name: &[u8], shndx: u16) -> Result<Symbol, AllocError> {
    Ok(Symbol {
        name: Name::new(alloc, name)?,
        info: 0x12,
        other: 0,
        shndx,
        value: 0x1000,
        size: 4,
        version: 0,
    })
}

fn symbols(alloc: Global) -> Result<SharedSymbols, AllocError> {
    let mut symbols = Symbols::new(alloc);
    symbols.push(function(alloc, b"", 0)?)?;
    symbols.push(function(alloc, b"f", 1)?)?;
    symbols.push(function(alloc, b"g", 1)?)?;
    symbols.into_shared(alloc)
}

fn nothing<T: Drop>(alloc: Global) -> Result<SharedList<T>, AllocError> {
    SharedList::new(alloc, Vec::new(alloc))
}

fn exporter(alloc: Global) -> Result<Object, AllocError> {
    Ok(Object {
        kind: Kind::Dyn,
        entry: 0,
        soname: None,
        needed: nothing(alloc)?,
        segments: nothing(alloc)?,
        symbols: symbols(alloc)?,
        first_exported: 1,
        has_versym: false,
        verdefs: nothing(alloc)?,
        verneeds: nothing(alloc)?,
        relocs: nothing(alloc)?,
        plt_relocs: nothing(alloc)?,
        pltgot: None,
        preinit: None,
        init: None,
        init_array: None,
        fini: None,
        fini_array: None,
        tls: None,
        relro: None,
        flags: ObjFlags {
            symbolic: false,
            bind_now: false,
            nodelete: false,
        },
        relr: nothing(alloc)?,
        dynamic: 0,
    })
}
