//! Objects made by hand, without tables of a file.

use crate::lists::push_serials;
use ld_base::{
    Added, HartId, HashTable, Kind, Loaded, Name, ObjFlags, Object, Serial, Serials, SharedList,
    State, Symbol, Symbols, Verdefs,
};
use std::alloc::{AllocError, Global};
use test_file::{Fault, Words, whole};

fn nothing<T: Drop>(alloc: Global) -> Result<SharedList<T>, AllocError> {
    SharedList::new(alloc, Vec::new(alloc))
}

/// A library with these symbols and versions.
pub fn object_with(
    alloc: Global,
    symbols: Symbols,
    verdefs: Verdefs,
) -> Result<Object, AllocError> {
    Ok(Object {
        kind: Kind::Dyn,
        entry: 0,
        soname: None,
        needed: nothing(alloc)?,
        segments: nothing(alloc)?,
        symbols: symbols.into_shared(alloc)?,
        first_exported: 1,
        has_versym: false,
        verdefs: verdefs.into_shared(alloc)?,
        verneeds: nothing(alloc)?,
        relocs: nothing(alloc)?,
        plt_relocs: nothing(alloc)?,
        pltgot: None,
        preinit: None,
        init: None,
        init_array: None,
        fini: None,
        fini_array: None,
        tls: None,
        relro: None,
        flags: ObjFlags {
            symbolic: false,
            bind_now: false,
            nodelete: false,
        },
        relr: nothing(alloc)?,
        dynamic: 0,
    })
}

/// A name, where `-` is none.
fn name_of(alloc: Global, word: &str) -> Result<Option<Name>, Fault> {
    match word {
        "-" => Ok(None),
        _ => Ok(Some(Name::new(alloc, word.as_bytes())?)),
    }
}

/// A global function `f` of four bytes, defined in section `shndx` or needed.
pub fn function(alloc: Global, shndx: u16, version: u16) -> Result<Symbol, Fault> {
    Ok(Symbol {
        name: Name::new(alloc, b"f")?,
        info: 0x12,
        other: 0,
        shndx,
        value: 0x1000,
        size: 4,
        version,
    })
}

/// Puts a symbol at the end.
pub fn push_symbol(symbols: &mut Symbols, symbol: Symbol) -> Result<(), Fault> {
    if symbols.len() < 9 {
        symbols.push(symbol)?;
    }
    Ok(())
}

/// A state: `ready`, or of a hart, as `dying:1`.
fn state(word: &str) -> Result<State, Fault> {
    if word == "ready" {
        return Ok(State::Ready);
    }
    let (state, hart) = word.split_once(':').ok_or(Fault::Unclear)?;
    let hart = whole(hart).ok_or(Fault::Unclear)?;
    let hart = HartId::new(u32::try_from(hart).map_err(|_| Fault::Unclear)?);
    match state {
        "initialising" => Ok(State::Initialising(hart)),
        "dying" => Ok(State::Dying(hart)),
        _ => Err(Fault::Unclear),
    }
}

/// An object that has nothing.
fn bare(alloc: Global, serial: Serial) -> Result<Loaded, AllocError> {
    Ok(Loaded {
        serial,
        path: Name::empty(),
        object: object_with(alloc, Symbols::new(alloc), Verdefs::new(alloc))?,
        table: HashTable {
            gnu: None,
            sysv: None,
        },
        base: 0,
        state: State::Ready,
        module: None,
        deep: false,
        found: Serials::new(alloc),
    })
}

/// The null symbol and the function `f`, defined in this section or needed.
fn symbols(alloc: Global, section: u16) -> Result<Symbols, Fault> {
    let mut symbols = Symbols::new(alloc);
    push_symbol(&mut symbols, function(alloc, 0, 0)?)?;
    push_symbol(&mut symbols, function(alloc, section, 0)?)?;
    Ok(symbols)
}

fn fill(alloc: Global, loaded: &mut Loaded, words: &mut Words) -> Result<(), Fault> {
    loaded.path = Name::new(alloc, words.text()?.as_bytes())?;
    loaded.object.soname = name_of(alloc, words.text()?)?;
    loaded.state = state(words.text()?)?;
    loaded.deep = words.text().unwrap_or("flat") == "deep";
    push_serials(&mut loaded.found, words.text().unwrap_or("-"))?;
    let section = u16::from(words.text().unwrap_or("needs") == "defines");
    loaded.object.symbols = symbols(alloc, section)?.into_shared(alloc)?;
    Ok(())
}

/// Puts an object behind these: of its serial, its path, its own name or `-`, and its state; and, where
/// the line tells more, `deep` or `flat`, the serials that its names found, and whether it `defines` the
/// function `f`, its symbol 1, or `needs` it.
pub fn add_object(alloc: Global, objects: &mut Added, words: &mut Words) -> Result<(), Fault> {
    let mut loaded = bare(alloc, Serial::new(words.number()?))?;
    match fill(alloc, &mut loaded, words) {
        Ok(()) => Ok(objects.push(loaded)?),
        Err(fault) => Err(fault),
    }
}
