//! Ends of harts.

ghost use Rattle.std.specs.Prelude.{◌≡◌};
ghost use Rattle.trace_read.specs.Ends.{end_word, bare_end, pc_and_address, pc_and_word, object_and_eights, object_and_slot, end_behind, end_of};

use crate::numbers::{decimal, decimal32, hexadecimal, hexadecimal32};
use crate::pieces::{cut, named};
use history_event::HartEnd;
use ld_base::Serial;

/// The first word of an end that says more.
#[derive(Clone, Copy)]
enum EndWord {
    Exit,
    NotMapped,
    SlotStore,
    BadInstruction,
    Misaligned,
    Break,
    BadModule,
    Unloaded,
    NoSlot,
    Unresolved,
    NotCode,
    AddressSpaceFull,
}

const END_WORDS: [(&[u8], EndWord); 12] = [
    (b"exit", EndWord::Exit),
    (b"not-mapped", EndWord::NotMapped),
    (b"slot-store", EndWord::SlotStore),
    (b"bad-instruction", EndWord::BadInstruction),
    (b"misaligned", EndWord::Misaligned),
    (b"break", EndWord::Break),
    (b"bad-module", EndWord::BadModule),
    (b"unloaded", EndWord::Unloaded),
    (b"no-slot", EndWord::NoSlot),
    (b"unresolved", EndWord::Unresolved),
    (b"not-code", EndWord::NotCode),
    (b"address-space-full", EndWord::AddressSpaceFull),
];

#[tactic(auto, unfolding(crate::specs::Ends::end_word))]
fn end_word(text: &[u8]) -> Option<EndWord>
    ensures { result ≡ end_word text.now }
{
    named(&END_WORDS, text)
}

fn bare_end(text: &[u8]) -> Option<HartEnd>
    ensures { result ≡ bare_end text.now }
{
    if text == b"fuel".as_slice() {
        Some(HartEnd::FuelOut)
    } else if text == b"memory".as_slice() {
        Some(HartEnd::Memory)
    } else {
        None
    }
}

fn pc_and_address(text: &[u8]) -> Option<(u64, u64)>
    ensures { result ≡ pc_and_address text.now }
{
    let (pc, address) = cut(text, b' ')?;
    let pc = hexadecimal(pc)?;
    Some((pc, hexadecimal(address)?))
}

fn pc_and_word(text: &[u8]) -> Option<(u64, u32)>
    ensures { result ≡ pc_and_word text.now }
{
    let (pc, word) = cut(text, b' ')?;
    let pc = hexadecimal(pc)?;
    Some((pc, hexadecimal32(word)?))
}

fn object_and_eights(text: &[u8]) -> Option<(u64, u64)>
    ensures { result ≡ object_and_eights text.now }
{
    let (object, eights) = cut(text, b' ')?;
    let object = decimal(object)?;
    Some((object, hexadecimal(eights)?))
}

fn object_and_slot(text: &[u8]) -> Option<(u64, u32)>
    ensures { result ≡ object_and_slot text.now }
{
    let (object, slot) = cut(text, b' ')?;
    let object = decimal(object)?;
    Some((object, decimal32(slot)?))
}

fn end_behind(word: EndWord, text: &[u8]) -> Option<HartEnd>
    ensures { result ≡ end_behind word text.now }
{
    match word {
        EndWord::Exit => Some(HartEnd::Exit(decimal(text)?)),
        EndWord::NotMapped => {
            let (pc, address) = pc_and_address(text)?;
            Some(HartEnd::NotMapped(pc, address))
        }
        EndWord::SlotStore => {
            let (pc, address) = pc_and_address(text)?;
            Some(HartEnd::SlotStore(pc, address))
        }
        EndWord::BadInstruction => {
            let (pc, word) = pc_and_word(text)?;
            Some(HartEnd::BadInstruction(pc, word))
        }
        EndWord::Misaligned => {
            let (pc, address) = pc_and_address(text)?;
            Some(HartEnd::Misaligned(pc, address))
        }
        EndWord::Break => Some(HartEnd::Break(hexadecimal(text)?)),
        EndWord::BadModule => Some(HartEnd::BadModule(decimal(text)?)),
        EndWord::Unloaded => Some(HartEnd::Unloaded(hexadecimal(text)?)),
        EndWord::NoSlot => {
            let (object, eights) = object_and_eights(text)?;
            Some(HartEnd::NoSlot(Serial::new(object), eights))
        }
        EndWord::Unresolved => {
            let (object, slot) = object_and_slot(text)?;
            Some(HartEnd::Unresolved(Serial::new(object), slot))
        }
        EndWord::NotCode => {
            let (object, slot) = object_and_slot(text)?;
            Some(HartEnd::NotCode(Serial::new(object), slot))
        }
        EndWord::AddressSpaceFull => Some(HartEnd::AddressSpaceFull(decimal(text)?)),
    }
}

/// The end of a hart.
#[tactic(auto, unfolding(crate::specs::Ends::end_of))]
pub(crate) fn end(text: &[u8]) -> Option<HartEnd>
    ensures { result ≡ end_of text.now }
{
    match cut(text, b' ') {
        None => bare_end(text),
        Some((word, rest)) => end_behind(end_word(word)?, rest),
    }
}
