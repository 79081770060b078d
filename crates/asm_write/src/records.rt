//! The records of an object's tables.

ghost use Rattle.std.specs.Prelude.{◌≡◌};
ghost use Rattle.asm_write.specs.Records.{type_of, head_fields, is_tls, offset_in, symbol_value, section_index};
ghost use Rattle.asm_write.specs.Records.{symbol_fields, reloc_type, target_symbol, fix_addend, rela_fields, slot_fields, file_word};
ghost use Rattle.asm_write.specs.Records.{version_fields, need_fields, needed_fields, told_value, dynamic_fields, header_fields};

use crate::contents::{
    Fix, FixKind, NeedRecord, NeededVersion, Spot, SymbolEntry, Target, VersionRecord, Way,
};
use crate::entries::{DynamicEntry, Told};
use crate::field::Field;
use crate::field::Field::{Byte, Doubleword, Half, Word};
use crate::part::Part;
use crate::starts::Starts;
use ld_base::{Header, Kind};

fn type_of(kind: Kind) -> u16
    ensures { result ≡ type_of kind }
{
    match kind {
        Kind::Exec => 2,
        Kind::Dyn => 3,
    }
}

/// The ELF header of an object with so many program headers, which stand right behind it.
#[tactic(auto, unfolding(crate::specs::Records::head_fields))]
pub(crate) fn head_fields(kind: Kind, entry: u64, headers: u16) -> [Field; 22]
    ensures { result ≡ head_fields kind entry headers }
{
    [
        Byte(0x7f),
        Byte(b'E'),
        Byte(b'L'),
        Byte(b'F'),
        Byte(2),
        Byte(1),
        Byte(1),
        Byte(0),
        Doubleword(0),
        Half(type_of(kind)),
        Half(243),
        Word(1),
        Doubleword(entry),
        Doubleword(64),
        Doubleword(0),
        Word(0),
        Half(64),
        Half(56),
        Half(headers),
        Half(64),
        Half(0),
        Half(0),
    ]
}

fn is_tls(part: Part) -> bool
    ensures { result ≡ is_tls part }
{
    matches!(part, Part::Tdata | Part::Tbss)
}

/// The offset of a place in a thread's block, modulo 2^64.
fn offset_in(starts: &Starts, spot: Spot) -> u64
    ensures { result ≡ offset_in starts.now spot }
{
    starts.address(spot).wrapping_sub(starts.part(Part::Tdata))
}

fn symbol_value(starts: &Starts, spot: Option<Spot>) -> u64
    ensures { result ≡ symbol_value starts.now spot }
{
    match spot {
        None => 0,
        Some(spot) if is_tls(spot.part) => offset_in(starts, spot),
        Some(spot) => starts.address(spot),
    }
}

fn section_index(spot: Option<Spot>) -> u16
    ensures { result ≡ section_index spot }
{
    match spot {
        None => 0,
        Some(_) => 1,
    }
}

/// An entry of the symbol table.
#[tactic(auto, unfolding(crate::specs::Records::symbol_fields))]
pub(crate) fn symbol_fields(starts: &Starts, symbol: &SymbolEntry) -> [Field; 6]
    ensures { result ≡ symbol_fields starts.now symbol.now }
{
    [
        Word(symbol.name),
        Byte(symbol.info),
        Byte(symbol.other),
        Half(section_index(symbol.spot)),
        Doubleword(symbol_value(starts, symbol.spot)),
        Doubleword(symbol.size),
    ]
}

fn reloc_type(kind: FixKind, target: Target) -> u32
    ensures { result ≡ reloc_type kind target }
{
    match (kind, target) {
        (FixKind::Address, Target::Own(_)) => 3,
        (FixKind::Address, Target::Symbol(_)) => 2,
        (FixKind::Module, _) => 7,
        (FixKind::Offset, _) => 9,
        (FixKind::ThreadOffset, _) => 11,
        (FixKind::Copy, _) => 4,
    }
}

fn target_symbol(target: Target) -> u32
    ensures { result ≡ target_symbol target }
{
    match target {
        Target::Own(_) => 0,
        Target::Symbol(symbol) => symbol,
    }
}

fn fix_addend(starts: &Starts, kind: FixKind, target: Target, addend: u64) -> u64
    ensures { result ≡ fix_addend starts.now kind target addend }
{
    match (kind, target) {
        (FixKind::Address, Target::Own(spot)) => starts.address(spot).wrapping_add(addend),
        (FixKind::Offset | FixKind::ThreadOffset, Target::Own(spot)) => {
            offset_in(starts, spot).wrapping_add(addend)
        }
        _ => addend,
    }
}

/// A relocation with its addend.
#[tactic(auto, unfolding(crate::specs::Records::rela_fields))]
pub(crate) fn rela_fields(starts: &Starts, fix: &Fix) -> [Field; 4]
    ensures { result ≡ rela_fields starts.now fix.now }
{
    [
        Doubleword(starts.address(fix.spot)),
        Word(reloc_type(fix.kind, fix.target)),
        Word(target_symbol(fix.target)),
        Doubleword(fix_addend(starts, fix.kind, fix.target, fix.addend)),
    ]
}

/// The relocation of a slot at a place.
#[tactic(auto, unfolding(crate::specs::Records::slot_fields))]
pub(crate) fn slot_fields(place: u64, symbol: u32) -> [Field; 4]
    ensures { result ≡ slot_fields place symbol }
{
    [Doubleword(place), Word(5), Word(symbol), Doubleword(0)]
}

/// The word of the file at a place that the linker fills.
#[tactic(auto, unfolding(crate::specs::Records::file_word))]
pub fn file_word(starts: &Starts, fix: &Fix) -> u64
    ensures { result ≡ file_word starts.now fix.now }
{
    match fix.way {
        Way::Listed => 0,
        Way::Packed | Way::Plain => fix_addend(starts, fix.kind, fix.target, fix.addend),
    }
}

/// A version that the object defines, with its name's record behind it.
#[tactic(auto, unfolding(crate::specs::Records::version_fields))]
pub(crate) fn version_fields(version: &VersionRecord) -> [Field; 9]
    ensures { result ≡ version_fields version.now }
{
    [
        Half(1),
        Half(version.flags),
        Half(version.index),
        Half(1),
        Word(version.hash),
        Word(20),
        Word(version.next),
        Word(version.name),
        Word(0),
    ]
}

/// A file of which versions are needed.
#[tactic(auto, unfolding(crate::specs::Records::need_fields))]
pub(crate) fn need_fields(need: &NeedRecord) -> [Field; 5]
    ensures { result ≡ need_fields need.now }
{
    [
        Half(1),
        Half(need.count),
        Word(need.name),
        Word(need.first),
        Word(need.next),
    ]
}

/// A version that is needed of a file.
#[tactic(auto, unfolding(crate::specs::Records::needed_fields))]
pub(crate) fn needed_fields(version: &NeededVersion) -> [Field; 5]
    ensures { result ≡ needed_fields version.now }
{
    [
        Word(version.hash),
        Half(version.flags),
        Half(version.index),
        Word(version.name),
        Word(version.next),
    ]
}

fn told_value(starts: &Starts, told: Told) -> u64
    ensures { result ≡ told_value starts.now told }
{
    match told {
        Told::Number(number) => number,
        Told::Start(part) => starts.part(part),
        Told::Size(part) => starts.size(part),
    }
}

/// An entry of the dynamic table.
#[tactic(auto, unfolding(crate::specs::Records::dynamic_fields))]
pub(crate) fn dynamic_fields(starts: &Starts, entry: &DynamicEntry) -> [Field; 2]
    ensures { result ≡ dynamic_fields starts.now entry.now }
{
    [
        Doubleword(entry.tag),
        Doubleword(told_value(starts, entry.told)),
    ]
}

/// A program header; p_paddr is p_vaddr.
#[tactic(auto, unfolding(crate::specs::Records::header_fields))]
pub(crate) fn header_fields(header: &Header) -> [Field; 8]
    ensures { result ≡ header_fields header.now }
{
    [
        Word(header.kind),
        Word(header.flags),
        Doubleword(header.offset),
        Doubleword(header.vaddr),
        Doubleword(header.vaddr),
        Doubleword(header.filesz),
        Doubleword(header.memsz),
        Doubleword(header.align),
    ]
}
