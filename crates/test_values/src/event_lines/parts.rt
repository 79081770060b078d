//! What events hold.

use history_event::{HartEnd, OpenAsk, SymAsk};
use ld_base::{DlFault, Name, NotAccepted, NsId, Serial, Serials};
use std::alloc::Global;
use test_file::{Fault, Words, whole};

pub fn open_ask(alloc: Global, words: &mut Words) -> Result<OpenAsk, Fault> {
    let ns = match words.text()? {
        "new" => None,
        word => Some(number(word)?),
    };
    let name = words.text()?;
    let flags = words.number()?;
    let name = some_name(alloc, name)?;
    Ok(OpenAsk { ns, name, flags })
}

pub fn sym_ask(alloc: Global, words: &mut Words) -> Result<SymAsk, Fault> {
    let ns = NsId::new(words.number32()?);
    let handle = words.number()?;
    let (name, version) = (words.text()?, words.text()?);
    let name = name_of(alloc, name)?;
    let version = some_name(alloc, version)?;
    Ok(SymAsk {
        ns,
        handle,
        name,
        version,
    })
}

/// A refusal.
pub fn fault(alloc: Global, kind: &str, words: &mut Words) -> Result<DlFault, Fault> {
    match kind {
        "name-too-long" => Ok(DlFault::NameTooLong),
        "namespaces-full" => Ok(DlFault::NamespacesFull),
        "address-space-full" => Ok(DlFault::AddressSpaceFull(words.number()?)),
        "bad-handle" => Ok(DlFault::BadHandle(words.number()?)),
        "bad-flags" => Ok(DlFault::BadFlags(words.number()?)),
        "bad-namespace" => Ok(DlFault::BadNamespace(words.number()?)),
        _ => fault_of_name(alloc, kind, words),
    }
}

/// A refusal that has a name.
fn fault_of_name(alloc: Global, kind: &str, words: &mut Words) -> Result<DlFault, Fault> {
    let name = words.text()?;
    match kind {
        "missing-library" => Ok(DlFault::MissingLibrary(name_of(alloc, name)?)),
        "read-fault" => Ok(DlFault::ReadFault(name_of(alloc, name)?)),
        "needs-static-tls" => Ok(DlFault::NeedsStaticTls(name_of(alloc, name)?)),
        "closing-here" => Ok(DlFault::ClosingHere(name_of(alloc, name)?)),
        "not-accepted" => {
            let rule = u8::try_from(words.number()?).map_err(|_| Fault::Unclear)?;
            let number = words.number()?;
            let path = name_of(alloc, name)?;
            Ok(DlFault::NotAccepted(path, NotAccepted { rule, number }))
        }
        _ => fault_of_names(alloc, kind, name, words),
    }
}

/// A refusal that has more names than one.
fn fault_of_names(
    alloc: Global,
    kind: &str,
    object: &str,
    words: &mut Words,
) -> Result<DlFault, Fault> {
    let name = words.text()?;
    match kind {
        "not-code" => {
            let object = name_of(alloc, object)?;
            Ok(DlFault::NotCode(object, name_of(alloc, name)?))
        }
        "missing-version" => {
            let version = words.text()?;
            let object = name_of(alloc, object)?;
            let file = name_of(alloc, name)?;
            Ok(DlFault::MissingVersion(object, file, name_of(alloc, version)?))
        }
        "missing-symbol" => {
            let version = words.text()?;
            let object = some_name(alloc, object)?;
            let symbol = name_of(alloc, name)?;
            let version = some_name(alloc, version)?;
            Ok(DlFault::MissingSymbol(object, symbol, version))
        }
        _ => Err(Fault::Unclear),
    }
}

/// How a hart ended.
pub fn end(words: &mut Words) -> Result<HartEnd, Fault> {
    match words.text()? {
        "exit" => Ok(HartEnd::Exit(words.number()?)),
        "fuel" => Ok(HartEnd::FuelOut),
        "memory" => Ok(HartEnd::Memory),
        "break" => Ok(HartEnd::Break(words.number()?)),
        "bad-module" => Ok(HartEnd::BadModule(words.number()?)),
        "unloaded" => Ok(HartEnd::Unloaded(words.number()?)),
        "address-space-full" => Ok(HartEnd::AddressSpaceFull(words.number()?)),
        kind => end_of_two(kind, words.number()?, words),
    }
}

/// An end with two numbers.
fn end_of_two(kind: &str, first: u64, words: &mut Words) -> Result<HartEnd, Fault> {
    let second = words.number()?;
    let object = Serial::new(first);
    match kind {
        "not-mapped" => Ok(HartEnd::NotMapped(first, second)),
        "slot-store" => Ok(HartEnd::SlotStore(first, second)),
        "misaligned" => Ok(HartEnd::Misaligned(first, second)),
        "no-slot" => Ok(HartEnd::NoSlot(object, second)),
        "bad-instruction" => Ok(HartEnd::BadInstruction(first, small(second)?)),
        "unresolved" => Ok(HartEnd::Unresolved(object, small(second)?)),
        "not-code" => Ok(HartEnd::NotCode(object, small(second)?)),
        _ => Err(Fault::Unclear),
    }
}

/// A number of 32 bits.
fn small(number: u64) -> Result<u32, Fault> {
    u32::try_from(number).map_err(|_| Fault::Unclear)
}

/// Serials with commas between, or `-`.
pub fn serials(alloc: Global, list: &str) -> Result<Serials, Fault> {
    let mut serials = Serials::new(alloc);
    push_serials(&mut serials, list)?;
    Ok(serials)
}

fn push_serials(serials: &mut Serials, list: &str) -> Result<(), Fault> {
    if list == "-" {
        return Ok(());
    }
    for word in list.split(',') {
        serials.push(Serial::new(number(word)?))?;
    }
    Ok(())
}

/// The number that a word is.
pub fn number(word: &str) -> Result<u64, Fault> {
    whole(word).ok_or(Fault::Unclear)
}

pub fn name_of(alloc: Global, word: &str) -> Result<Name, Fault> {
    Ok(Name::new(alloc, word.as_bytes())?)
}

/// A name, or none for `none`.
fn some_name(alloc: Global, word: &str) -> Result<Option<Name>, Fault> {
    match word {
        "none" => Ok(None),
        word => Ok(Some(name_of(alloc, word)?)),
    }
}
