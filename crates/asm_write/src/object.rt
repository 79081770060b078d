//! The bytes of an object.

ghost use Rattle.std.specs.Prelude.{◌≡◌, ◌++◌, ◌∷◌, ◌-◌, IfOk, OnOk, [], fold, length, replicate};
ghost use Rattle.asm_write.specs.Records.{head_fields};
ghost use Rattle.asm_write.specs.Values.{entry_of, head_bytes, dynamic_bytes, relr_bytes, packed_places, part_bytes, joined, join_part, object_bytes};

use crate::contents::{Contents, Fix, SectionBytes, Spot};
use crate::dynamic::{dynamic_entries, is_packed, segments_of};
use crate::field::append_record;
use crate::part::Part;
use crate::records::{dynamic_fields, head_fields, header_fields};
use crate::relr::relr_words;
use crate::segments::header_of;
use crate::starts::Starts;
use crate::tables::{
    append_doublewords, fixed_bytes, gnu_bytes, jmprel_bytes, rela_bytes, slot_words, symbol_bytes,
    sysv_bytes, verdef_bytes, verneed_bytes, versym_bytes,
};
use std::alloc::{AllocError, Global};

/// The parts of an object.
const PARTS: [Part; 25] = [
    Part::Head,
    Part::GnuHash,
    Part::SysvHash,
    Part::Symbols,
    Part::Strings,
    Part::Versym,
    Part::Verdef,
    Part::Verneed,
    Part::Rela,
    Part::Relr,
    Part::Jmprel,
    Part::Rodata,
    Part::Plt,
    Part::Text,
    Part::Dynamic,
    Part::Got,
    Part::PreinitArray,
    Part::InitArray,
    Part::FiniArray,
    Part::Relro,
    Part::Tdata,
    Part::Tbss,
    Part::GotPlt,
    Part::Data,
    Part::Bss,
];

fn entry_of(starts: &Starts, entry: Option<Spot>) -> u64
    ensures { result ≡ entry_of starts.now entry }
{
    match entry {
        None => 0,
        Some(spot) => starts.address(spot),
    }
}

/// The ELF header and the program headers.
#[tactic(auto, unfolding(crate::specs::Values::head_bytes))]
fn head_bytes(alloc: Global, starts: &Starts, contents: &Contents) -> Result<Vec<u8>, AllocError>
    ensures { IfOk result (λ bytes. bytes.items ≡ head_bytes starts.now contents.now) }
{
    let segments = segments_of(alloc, contents)?;
    let entry = entry_of(starts, contents.entry);
    let count = (segments.len() % 0x1_0000) as u16;
    let mut out = Vec::new(alloc);
    append_record(&mut out, &head_fields(contents.kind, entry, count))?;
    for segment in segments.as_slice() {
        let header = header_of(starts, &contents.sections, *segment);
        append_record(&mut out, &header_fields(&header))?;
    }
    Ok(out)
}

/// The dynamic table.
#[tactic(auto, unfolding(crate::specs::Values::dynamic_bytes))]
fn dynamic_bytes(alloc: Global, starts: &Starts, contents: &Contents) -> Result<Vec<u8>, AllocError>
    ensures { IfOk result (λ bytes. bytes.items ≡ dynamic_bytes starts.now contents.now) }
{
    let entries = dynamic_entries(alloc, contents)?;
    let mut out = Vec::new(alloc);
    for entry in entries.as_slice() {
        append_record(&mut out, &dynamic_fields(starts, entry))?;
    }
    Ok(out)
}

/// The addresses of the packed places.
fn packed_places(alloc: Global, starts: &Starts, fixes: &[Fix]) -> Result<Vec<u64>, AllocError>
    ensures { IfOk result (λ places. places.items ≡ packed_places starts.now fixes.now) }
{
    let mut places = Vec::new(alloc);
    for fix in fixes {
        if is_packed(fix.way) {
            places.push(starts.address(fix.spot))?;
        }
    }
    Ok(places)
}

/// The packed table.
#[tactic(auto, unfolding(crate::specs::Values::relr_bytes))]
fn relr_bytes(alloc: Global, starts: &Starts, fixes: &[Fix]) -> Result<Vec<u8>, AllocError>
    ensures { IfOk result (λ bytes. bytes.items ≡ relr_bytes starts.now fixes.now) }
{
    let places = packed_places(alloc, starts, fixes)?;
    let words = relr_words(alloc, &places)?;
    let mut out = Vec::new(alloc);
    append_doublewords(&mut out, &words)?;
    Ok(out)
}

/// The bytes of a part.
#[tactic(auto, unfolding(crate::specs::Values::part_bytes))]
fn part_bytes(
    alloc: Global,
    starts: &Starts,
    contents: &Contents,
    code: &SectionBytes,
    part: Part,
) -> Result<Vec<u8>, AllocError>
    ensures { IfOk result (λ bytes. bytes.items ≡ part_bytes starts.now contents.now code.now part) }
{
    let fixes = contents.fixes.as_slice();
    let slots = contents.slots.as_slice();
    let symbols = contents.symbols.as_slice();
    match part {
        Part::Head => head_bytes(alloc, starts, contents),
        Part::GnuHash => match &contents.gnu {
            None => Ok(Vec::new(alloc)),
            Some(gnu) => gnu_bytes(alloc, gnu),
        },
        Part::SysvHash => match &contents.sysv {
            None => Ok(Vec::new(alloc)),
            Some(sysv) => sysv_bytes(alloc, sysv),
        },
        Part::Symbols => symbol_bytes(alloc, starts, symbols),
        Part::Strings => Vec::from_slice(alloc, contents.strings.as_slice()),
        Part::Versym => versym_bytes(alloc, contents.has_versions, symbols),
        Part::Verdef => verdef_bytes(alloc, contents.versions.as_slice()),
        Part::Verneed => verneed_bytes(
            alloc,
            contents.files.as_slice(),
            contents.needed_versions.as_slice(),
        ),
        Part::Rela => rela_bytes(alloc, starts, fixes),
        Part::Relr => relr_bytes(alloc, starts, fixes),
        Part::Jmprel => jmprel_bytes(alloc, starts, slots),
        Part::Rodata => Vec::from_slice(alloc, code.rodata.as_slice()),
        Part::Plt => Vec::from_slice(alloc, code.plt.as_slice()),
        Part::Text => Vec::from_slice(alloc, code.text.as_slice()),
        Part::Dynamic => dynamic_bytes(alloc, starts, contents),
        Part::Got | Part::PreinitArray | Part::InitArray | Part::FiniArray => {
            fixed_bytes(alloc, starts, fixes, part)
        }
        Part::Relro => Vec::from_slice(alloc, code.relro.as_slice()),
        Part::Tdata => Vec::from_slice(alloc, code.tdata.as_slice()),
        Part::GotPlt => slot_words(alloc, starts.part(Part::Plt), slots),
        Part::Data => Vec::from_slice(alloc, code.data.as_slice()),
        Part::Tbss | Part::Bss => Ok(Vec::new(alloc)),
    }
}

/// Appends a zero.
fn append_zero(out: &mut Vec<u8>) -> Result<(), AllocError>
    ensures { OnOk result (out.new.items ≡ out.old.items ++ 0 ∷ []) }
{
    out.extend_from_slice(&[0])
}

/// Appends zeros up to an offset.
fn fill(out: &mut Vec<u8>, offset: u64) -> Result<(), AllocError>
    ensures { OnOk result (out.new.items ≡ out.old.items ++ replicate (offset - length out.old.items) 0) }
{
    for _zero in out.len() as u64..offset {
        append_zero(out)?;
    }
    Ok(())
}

/// Appends bytes at an offset, zeros before them; none leave it as it is.
fn join(out: &mut Vec<u8>, offset: u64, bytes: &[u8]) -> Result<(), AllocError>
    ensures { OnOk result (out.new.items ≡ joined out.old.items offset bytes.now) }
{
    if bytes.is_empty() {
        return Ok(());
    }
    fill(out, offset)?;
    out.extend_from_slice(bytes)
}

/// Appends a part.
fn join_part(
    alloc: Global,
    out: &mut Vec<u8>,
    starts: &Starts,
    contents: &Contents,
    code: &SectionBytes,
    part: Part,
) -> Result<(), AllocError>
    ensures { OnOk result (out.new.items ≡ join_part starts.now contents.now code.now out.old.items part) }
{
    let bytes = part_bytes(alloc, starts, contents, code, part)?;
    let offset = starts.part(part).saturating_sub(starts.part(Part::Head));
    join(out, offset, &bytes)
}

/// The bytes of parts, in this order.
fn join_parts(
    alloc: Global,
    starts: &Starts,
    contents: &Contents,
    code: &SectionBytes,
    parts: &[Part],
) -> Result<Vec<u8>, AllocError>
    ensures { IfOk result (λ bytes. bytes.items ≡ fold (join_part starts.now contents.now code.now) [] parts.now) }
{
    let mut out = Vec::new(alloc);
    for part in parts {
        join_part(alloc, &mut out, starts, contents, code, *part)?;
    }
    Ok(out)
}

/// The bytes of an object that holds this, with these bytes of its sections: those of its parts, each
/// as far behind the file's begin as its address is behind the first, and zeros between.
///
/// # Errors
///
/// Want of memory.
#[tactic(auto, unfolding(crate::specs::Values::object_bytes))]
pub fn object_bytes(
    alloc: Global,
    starts: &Starts,
    contents: &Contents,
    code: &SectionBytes,
) -> Result<Vec<u8>, AllocError>
    ensures { IfOk result (λ bytes. bytes.items ≡ object_bytes starts.now contents.now code.now) }
{
    join_parts(alloc, starts, contents, code, &PARTS)
}
