//! New objects, as the line of an opening has them: `S:PATH@0xBASE`, and then `/M` for a module, or
//! `/M+0xOFFSET`. The line says no more of them, so their records are empty.

use crate::event_lines::parts::{name_of, number};
use ld_base::{
    Added, HashTable, Kind, Loaded, Name, ObjFlags, Object, Serial, Serials, SharedList, State,
    Symbols, TlsPlace,
};
use std::alloc::{AllocError, Global};
use test_file::Fault;

/// New objects with commas between, or `-`.
pub fn added_of(alloc: Global, list: &str) -> Result<Added, Fault> {
    let mut added = Added::new(alloc);
    match push_all(alloc, &mut added, list) {
        Ok(()) => Ok(added),
        Err(fault) => Err(fault),
    }
}

fn push_all(alloc: Global, added: &mut Added, list: &str) -> Result<(), Fault> {
    if list == "-" {
        return Ok(());
    }
    for entry in list.split(',') {
        push_entry(alloc, added, entry)?;
    }
    Ok(())
}

fn push_entry(alloc: Global, added: &mut Added, entry: &str) -> Result<(), Fault> {
    let (serial, rest) = entry.split_once(':').ok_or(Fault::Unclear)?;
    let (path, place) = rest.split_once('@').ok_or(Fault::Unclear)?;
    let serial = Serial::new(number(serial)?);
    let (base, module) = match place.split_once('/') {
        None => (number(place)?, None),
        Some((base, module)) => (number(base)?, Some(module_of(module)?)),
    };
    let path = name_of(alloc, path)?;
    added.push(loaded(alloc, serial, path, base, module)?)?;
    Ok(())
}

/// A module's number, and its offset where it has one.
fn module_of(word: &str) -> Result<TlsPlace, Fault> {
    match word.split_once('+') {
        None => Ok(TlsPlace {
            number: number(word)?,
            offset: None,
        }),
        Some((word, offset)) => Ok(TlsPlace {
            number: number(word)?,
            offset: Some(number(offset)?),
        }),
    }
}

fn loaded(
    alloc: Global,
    serial: Serial,
    path: Name,
    base: u64,
    module: Option<TlsPlace>,
) -> Result<Loaded, AllocError> {
    Ok(Loaded {
        serial,
        path,
        object: empty(alloc)?,
        table: HashTable {
            gnu: None,
            sysv: None,
        },
        base,
        state: State::Ready,
        module,
        deep: false,
        found: Serials::new(alloc),
    })
}

fn nothing<T: Drop>(alloc: Global) -> Result<SharedList<T>, AllocError> {
    SharedList::new(alloc, Vec::new(alloc))
}

/// An object that has nothing.
fn empty(alloc: Global) -> Result<Object, AllocError> {
    Ok(Object {
        kind: Kind::Dyn,
        entry: 0,
        soname: None,
        needed: nothing(alloc)?,
        segments: nothing(alloc)?,
        symbols: Symbols::new(alloc).into_shared(alloc)?,
        first_exported: 1,
        has_versym: false,
        verdefs: nothing(alloc)?,
        verneeds: nothing(alloc)?,
        relocs: nothing(alloc)?,
        plt_relocs: nothing(alloc)?,
        pltgot: None,
        preinit: None,
        init: None,
        init_array: None,
        fini: None,
        fini_array: None,
        tls: None,
        relro: None,
        flags: ObjFlags {
            symbolic: false,
            bind_now: false,
            nodelete: false,
        },
        relr: nothing(alloc)?,
        dynamic: 0,
    })
}
