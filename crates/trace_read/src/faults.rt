//! Refusals.

ghost use Rattle.std.specs.Prelude.{◌≡◌};
ghost use Rattle.trace_read.specs.Gives.{Gives};
ghost use Rattle.trace_read.specs.Faults.{fault_word, bare_fault, not_accepted, missing_version, missing_symbol, not_code, fault_behind, fault_of};

use crate::fault::TraceFault;
use crate::names::{name, some_name};
use crate::numbers::{decimal, decimal8, hexadecimal};
use crate::pieces::{cut, named};
use ld_base::{DlFault, NotAccepted};
use std::alloc::Global;

/// The first word of a refusal that says more.
#[derive(Clone, Copy)]
enum FaultWord {
    MissingLibrary,
    ReadFault,
    NotAccepted,
    MissingVersion,
    MissingSymbol,
    NotCode,
    NeedsStaticTls,
    AddressSpaceFull,
    BadHandle,
    BadFlags,
    ClosingHere,
    BadNamespace,
}

const FAULT_WORDS: [(&[u8], FaultWord); 12] = [
    (b"missing-library", FaultWord::MissingLibrary),
    (b"read-fault", FaultWord::ReadFault),
    (b"not-accepted", FaultWord::NotAccepted),
    (b"missing-version", FaultWord::MissingVersion),
    (b"missing-symbol", FaultWord::MissingSymbol),
    (b"not-code", FaultWord::NotCode),
    (b"needs-static-tls", FaultWord::NeedsStaticTls),
    (b"address-space-full", FaultWord::AddressSpaceFull),
    (b"bad-handle", FaultWord::BadHandle),
    (b"bad-flags", FaultWord::BadFlags),
    (b"closing-here", FaultWord::ClosingHere),
    (b"bad-namespace", FaultWord::BadNamespace),
];

#[tactic(auto, unfolding(crate::specs::Faults::fault_word))]
fn fault_word(text: &[u8]) -> Option<FaultWord>
    ensures { result ≡ fault_word text.now }
{
    named(&FAULT_WORDS, text)
}

fn bare_fault(text: &[u8]) -> Option<DlFault>
    ensures { result ≡ bare_fault text.now }
{
    if text == b"namespaces-full".as_slice() {
        Some(DlFault::NamespacesFull)
    } else if text == b"name-too-long".as_slice() {
        Some(DlFault::NameTooLong)
    } else {
        None
    }
}

fn not_accepted(alloc: Global, text: &[u8]) -> Result<DlFault, TraceFault>
    ensures { Gives (not_accepted text.now) result }
{
    let (path, rest) = cut(text, b' ').ok_or(TraceFault::NotALine)?;
    let path = name(alloc, path)?;
    let (rule, number) = cut(rest, b' ').ok_or(TraceFault::NotALine)?;
    let rule = decimal8(rule).ok_or(TraceFault::NotALine)?;
    let number = decimal(number).ok_or(TraceFault::NotALine)?;
    Ok(DlFault::NotAccepted(path, NotAccepted { rule, number }))
}

fn missing_version(alloc: Global, text: &[u8]) -> Result<DlFault, TraceFault>
    ensures { Gives (missing_version text.now) result }
{
    let (object, rest) = cut(text, b' ').ok_or(TraceFault::NotALine)?;
    let object = name(alloc, object)?;
    let (file, version) = cut(rest, b' ').ok_or(TraceFault::NotALine)?;
    let file = name(alloc, file)?;
    let version = name(alloc, version)?;
    Ok(DlFault::MissingVersion(object, file, version))
}

fn missing_symbol(alloc: Global, text: &[u8]) -> Result<DlFault, TraceFault>
    ensures { Gives (missing_symbol text.now) result }
{
    let (object, rest) = cut(text, b' ').ok_or(TraceFault::NotALine)?;
    let object = some_name(alloc, object)?;
    let (symbol, version) = cut(rest, b' ').ok_or(TraceFault::NotALine)?;
    let symbol = name(alloc, symbol)?;
    let version = some_name(alloc, version)?;
    Ok(DlFault::MissingSymbol(object, symbol, version))
}

fn not_code(alloc: Global, text: &[u8]) -> Result<DlFault, TraceFault>
    ensures { Gives (not_code text.now) result }
{
    let (object, symbol) = cut(text, b' ').ok_or(TraceFault::NotALine)?;
    let object = name(alloc, object)?;
    let symbol = name(alloc, symbol)?;
    Ok(DlFault::NotCode(object, symbol))
}

fn fault_behind(alloc: Global, word: FaultWord, text: &[u8]) -> Result<DlFault, TraceFault>
    ensures { Gives (fault_behind word text.now) result }
{
    match word {
        FaultWord::MissingLibrary => Ok(DlFault::MissingLibrary(name(alloc, text)?)),
        FaultWord::ReadFault => Ok(DlFault::ReadFault(name(alloc, text)?)),
        FaultWord::NotAccepted => not_accepted(alloc, text),
        FaultWord::MissingVersion => missing_version(alloc, text),
        FaultWord::MissingSymbol => missing_symbol(alloc, text),
        FaultWord::NotCode => not_code(alloc, text),
        FaultWord::NeedsStaticTls => Ok(DlFault::NeedsStaticTls(name(alloc, text)?)),
        FaultWord::AddressSpaceFull => {
            let pages = decimal(text).ok_or(TraceFault::NotALine)?;
            Ok(DlFault::AddressSpaceFull(pages))
        }
        FaultWord::BadHandle => {
            let handle = hexadecimal(text).ok_or(TraceFault::NotALine)?;
            Ok(DlFault::BadHandle(handle))
        }
        FaultWord::BadFlags => {
            let flags = hexadecimal(text).ok_or(TraceFault::NotALine)?;
            Ok(DlFault::BadFlags(flags))
        }
        FaultWord::ClosingHere => Ok(DlFault::ClosingHere(name(alloc, text)?)),
        FaultWord::BadNamespace => {
            let ns = hexadecimal(text).ok_or(TraceFault::NotALine)?;
            Ok(DlFault::BadNamespace(ns))
        }
    }
}

/// A refusal.
///
/// # Errors
///
/// It is none, or want of memory.
#[tactic(auto, unfolding(crate::specs::Faults::fault_of))]
pub(crate) fn fault(alloc: Global, text: &[u8]) -> Result<DlFault, TraceFault>
    ensures { Gives (fault_of text.now) result }
{
    match cut(text, b' ') {
        None => bare_fault(text).ok_or(TraceFault::NotALine),
        Some((word, rest)) => {
            let word = fault_word(word).ok_or(TraceFault::NotALine)?;
            fault_behind(alloc, word, rest)
        }
    }
}
