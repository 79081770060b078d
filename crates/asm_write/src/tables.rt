//! The bytes of an object's tables.

ghost use Rattle.std.specs.Prelude.{◌≡◌, ◌++◌, ◌%◌, ◌^◌, OnOk, IfOk, flat_map};
ghost use Rattle.std.specs.Int.{w64, to_le_bytes};
ghost use Rattle.asm_write.specs.Fields.{record_bytes};
ghost use Rattle.asm_write.specs.Records.{version_fields, need_fields, needed_fields, rela_fields, symbol_fields};
ghost use Rattle.asm_write.specs.Values.{words, doublewords, count_word, gnu_bytes, sysv_bytes, symbol_bytes, versym_bytes};
ghost use Rattle.asm_write.specs.Values.{verneed_bytes, listed_bytes, rela_bytes, jmprel_bytes, word_in, fixed_bytes, lazy_words, slot_words};

use crate::contents::{Fix, NeedRecord, NeededVersion, SymbolEntry, VersionRecord, Way};
use crate::field::append_record;
use crate::part::Part;
use crate::records::{
    file_word, need_fields, needed_fields, rela_fields, slot_fields, symbol_fields, version_fields,
};
use crate::starts::Starts;
use ld_base::{GnuPart, SysvPart};
use std::alloc::{AllocError, Global};

/// Appends words of 32 bits.
fn append_words(out: &mut Vec<u8>, numbers: &[u32]) -> Result<(), AllocError>
    ensures { OnOk result (out.new.items ≡ out.old.items ++ words numbers.now) }
{
    for word in numbers {
        out.extend_from_slice(&word.to_le_bytes())?;
    }
    Ok(())
}

/// Appends words of 64 bits.
pub(crate) fn append_doublewords(out: &mut Vec<u8>, numbers: &[u64]) -> Result<(), AllocError>
    ensures { OnOk result (out.new.items ≡ out.old.items ++ doublewords numbers.now) }
{
    for word in numbers {
        out.extend_from_slice(&word.to_le_bytes())?;
    }
    Ok(())
}

/// How many words there are, as a word of 32 bits has it.
fn count_word(words: usize) -> u32
    ensures { result ≡ words % 2 ^ 32 }
{
    (words % 0x1_0000_0000) as u32
}

/// A GNU hash table.
#[tactic(auto, unfolding(crate::specs::Values::gnu_bytes))]
pub(crate) fn gnu_bytes(alloc: Global, gnu: &GnuPart) -> Result<Vec<u8>, AllocError>
    ensures { IfOk result (λ bytes. bytes.items ≡ gnu_bytes gnu.now) }
{
    let buckets = count_word(gnu.buckets.len());
    let bloom = count_word(gnu.bloom.len());
    let mut out = Vec::new(alloc);
    append_words(&mut out, &[buckets, gnu.symoffset, bloom, gnu.shift])?;
    append_doublewords(&mut out, gnu.bloom.as_slice())?;
    append_words(&mut out, gnu.buckets.as_slice())?;
    append_words(&mut out, gnu.chain.as_slice())?;
    Ok(out)
}

/// A System V hash table.
#[tactic(auto, unfolding(crate::specs::Values::sysv_bytes))]
pub(crate) fn sysv_bytes(alloc: Global, sysv: &SysvPart) -> Result<Vec<u8>, AllocError>
    ensures { IfOk result (λ bytes. bytes.items ≡ sysv_bytes sysv.now) }
{
    let buckets = count_word(sysv.buckets.len());
    let chain = count_word(sysv.chain.len());
    let mut out = Vec::new(alloc);
    append_words(&mut out, &[buckets, chain])?;
    append_words(&mut out, sysv.buckets.as_slice())?;
    append_words(&mut out, sysv.chain.as_slice())?;
    Ok(out)
}

/// The symbols, the null symbol first.
#[tactic(auto, unfolding(crate::specs::Values::symbol_bytes))]
pub(crate) fn symbol_bytes(
    alloc: Global,
    starts: &Starts,
    symbols: &[SymbolEntry],
) -> Result<Vec<u8>, AllocError>
    ensures { IfOk result (λ bytes. bytes.items ≡ symbol_bytes starts.now symbols.now) }
{
    let mut out = Vec::from_slice(alloc, &[0; 24])?;
    for symbol in symbols {
        append_record(&mut out, &symbol_fields(starts, symbol))?;
    }
    Ok(out)
}

/// The entries of the versym table.
#[tactic(auto, unfolding(crate::specs::Values::versym_bytes))]
pub(crate) fn versym_bytes(
    alloc: Global,
    has_versions: bool,
    symbols: &[SymbolEntry],
) -> Result<Vec<u8>, AllocError>
    ensures { IfOk result (λ bytes. bytes.items ≡ versym_bytes has_versions symbols.now) }
{
    let mut out = Vec::new(alloc);
    if !has_versions {
        return Ok(out);
    }
    out.extend_from_slice(&[0, 0])?;
    for symbol in symbols {
        out.extend_from_slice(&symbol.version.to_le_bytes())?;
    }
    Ok(out)
}

/// The versions that the object defines.
pub(crate) fn verdef_bytes(alloc: Global, versions: &[VersionRecord]) -> Result<Vec<u8>, AllocError>
    ensures { IfOk result (λ bytes. bytes.items ≡ flat_map (λ version. record_bytes (version_fields version)) versions.now) }
{
    let mut out = Vec::new(alloc);
    for version in versions {
        append_record(&mut out, &version_fields(version))?;
    }
    Ok(out)
}

/// Appends the records of files of which versions are needed.
fn append_files(out: &mut Vec<u8>, files: &[NeedRecord]) -> Result<(), AllocError>
    ensures { OnOk result (out.new.items ≡ out.old.items ++ flat_map (λ need. record_bytes (need_fields need)) files.now) }
{
    for file in files {
        append_record(out, &need_fields(file))?;
    }
    Ok(())
}

/// Appends the records of versions that are needed.
fn append_needed(out: &mut Vec<u8>, versions: &[NeededVersion]) -> Result<(), AllocError>
    ensures { OnOk result (out.new.items ≡ out.old.items ++ flat_map (λ version. record_bytes (needed_fields version)) versions.now) }
{
    for version in versions {
        append_record(out, &needed_fields(version))?;
    }
    Ok(())
}

/// The versions that the object needs: the files, then their versions.
#[tactic(auto, unfolding(crate::specs::Values::verneed_bytes))]
pub(crate) fn verneed_bytes(
    alloc: Global,
    files: &[NeedRecord],
    versions: &[NeededVersion],
) -> Result<Vec<u8>, AllocError>
    ensures { IfOk result (λ bytes. bytes.items ≡ verneed_bytes files.now versions.now) }
{
    let mut out = Vec::new(alloc);
    append_files(&mut out, files)?;
    append_needed(&mut out, versions)?;
    Ok(out)
}

/// Appends a relocation, if the place is listed.
fn append_listed(out: &mut Vec<u8>, starts: &Starts, fix: &Fix) -> Result<(), AllocError>
    ensures { OnOk result (out.new.items ≡ out.old.items ++ listed_bytes starts.now fix.now) }
{
    match fix.way {
        Way::Listed => append_record(out, &rela_fields(starts, fix)),
        Way::Packed | Way::Plain => Ok(()),
    }
}

/// The relocations that are listed.
#[tactic(auto, unfolding(crate::specs::Values::rela_bytes))]
pub(crate) fn rela_bytes(
    alloc: Global,
    starts: &Starts,
    fixes: &[Fix],
) -> Result<Vec<u8>, AllocError>
    ensures { IfOk result (λ bytes. bytes.items ≡ rela_bytes starts.now fixes.now) }
{
    let mut out = Vec::new(alloc);
    for fix in fixes {
        append_listed(&mut out, starts, fix)?;
    }
    Ok(out)
}

/// The relocations of the slots, which stand behind two doublewords.
pub(crate) fn jmprel_bytes(
    alloc: Global,
    starts: &Starts,
    slots: &[u32],
) -> Result<Vec<u8>, AllocError>
    ensures { IfOk result (λ bytes. bytes.items ≡ jmprel_bytes starts.now slots.now) }
{
    let mut out = Vec::new(alloc);
    let mut place = starts.part(Part::GotPlt).wrapping_add(16);
    for symbol in slots {
        append_record(&mut out, &slot_fields(place, *symbol))?;
        place = place.wrapping_add(8);
    }
    Ok(out)
}

/// Appends the file's word of a place, if it stands in the part.
fn append_fixed(out: &mut Vec<u8>, starts: &Starts, fix: &Fix, part: Part) -> Result<(), AllocError>
    ensures { OnOk result (out.new.items ≡ out.old.items ++ word_in starts.now part fix.now) }
{
    if part.number() == fix.spot.part.number() {
        out.extend_from_slice(&file_word(starts, fix).to_le_bytes())
    } else {
        Ok(())
    }
}

/// The words of a part that has nothing but places that the linker fills.
#[tactic(auto, unfolding(crate::specs::Values::fixed_bytes))]
pub(crate) fn fixed_bytes(
    alloc: Global,
    starts: &Starts,
    fixes: &[Fix],
    part: Part,
) -> Result<Vec<u8>, AllocError>
    ensures { IfOk result (λ bytes. bytes.items ≡ fixed_bytes starts.now fixes.now part) }
{
    let mut out = Vec::new(alloc);
    for fix in fixes {
        append_fixed(&mut out, starts, fix, part)?;
    }
    Ok(out)
}

/// Appends a word of 64 bits.
fn append_doubleword(out: &mut Vec<u8>, number: u64) -> Result<(), AllocError>
    ensures { OnOk result (out.new.items ≡ out.old.items ++ to_le_bytes w64 number) }
{
    out.extend_from_slice(&number.to_le_bytes())
}

/// Appends the words of the slots: for each one where the procedure linkage table starts.
fn append_slots(out: &mut Vec<u8>, plt: u64, slots: &[u32]) -> Result<(), AllocError>
    ensures { OnOk result (out.new.items ≡ out.old.items ++ lazy_words plt slots.now) }
{
    for _slot in slots {
        append_doubleword(out, plt)?;
    }
    Ok(())
}

/// The words of the slots, with two for the linker before them.
pub(crate) fn slot_words(alloc: Global, plt: u64, slots: &[u32]) -> Result<Vec<u8>, AllocError>
    ensures { IfOk result (λ bytes. bytes.items ≡ slot_words plt slots.now) }
{
    let mut out = Vec::new(alloc);
    if slots.is_empty() {
        return Ok(out);
    }
    append_doublewords(&mut out, &[0, 0])?;
    append_slots(&mut out, plt, slots)?;
    Ok(out)
}
