//! The versions that an object needs (Drepper, "ELF Symbol Versioning").

ghost use Rattle.std.specs.Prelude.{◌≡◌, ◌+◌, ◌≤◌, IfOk, length, map, sum_by};
ghost use Rattle.std.specs.Result.{result_map_both};
ghost use Rattle.elf_head.specs.AcceptancePart.Gives.{Gives};
ghost use Rattle.elf_versions.specs.Record.{distance};
ghost use Rattle.elf_head.specs.DynTable.Name.{string_in};
ghost use Rattle.elf_versions.specs.Names.{need_of, needed};
ghost use Rattle.elf_versions.specs.Verneed.{is_verneed, need_at, needs_from, vernaux_at, versions_of, versions_of_all, verneeds_from, verneeds_of};

use crate::records::{MAX_RECORDS, Records};
use elf_head::{DT_VERNEED, DT_VERNEEDNUM, last_of, read_string, value_of, with_name};
use ld_base::{ReadFault, SharedBytes, Tag, Verneed, Verneeds, field16, field32};
use std::alloc::{AllocError, Global};

/// The bytes of a Verneed, and those of a Vernaux.
const RECORD_SIZE: u64 = 16;
/// What isn't part of a version's index.
const HIDDEN: u16 = 0x8000;

/// A file of which versions are needed, by the offset of its name: where their records stand, and
/// how many there are.
#[derive(Clone, Copy)]
pub(crate) struct NeedRecord {
    file: u32,
    versions: u64,
    count: u16,
}

/// A version that is needed, with the offsets of its file's name and of its own.
#[derive(Clone, Copy)]
pub(crate) struct VerneedRecord {
    pub(crate) index: u16,
    flags: u16,
    file: u32,
    name: u32,
}

/// Whether the record is of the version that is read, counts a version, and leads on unless it is the
/// last one.
fn is_verneed(entry: &[u8], is_last: bool) -> bool
    requires { 16 ≤ length entry.now }
    ensures { result ≡ is_verneed is_last entry.now }
{
    field16(entry, 0) == 1 && field16(entry, 2) > 0 && (is_last || field32(entry, 12) > 0)
}

/// What the record at an address needs, and the address of the record after it.
#[tactic(auto, using(crate::proofs::Reading::distance_read), unfolding(crate::specs::Verneed::need_at))]
fn need_at(records: &Records, at: u64, is_last: bool) -> Result<(NeedRecord, u64), ReadFault>
    ensures read { Gives (result_map_both (λ r. need_of records.now.strings r.0) (λ fault. fault) result) (need_at records.now is_last at) }
    ensures next { IfOk result (λ r. r.1 ≡ at + distance records.now 16 12 at) }
{
    let entry = records.bytes_at(at, RECORD_SIZE)?;
    if !is_verneed(entry, is_last) {
        return Err(records.fault());
    }
    let need = NeedRecord {
        file: records.named(field32(entry, 4))?,
        versions: at + u64::from(field32(entry, 8)),
        count: field16(entry, 2),
    };
    Ok((need, at + u64::from(field32(entry, 12))))
}

/// The needs of so many records from an address on.
#[tactic(auto, unfolding(crate::specs::Verneed::needs_from))]
fn needs_from(
    alloc: Global,
    records: &Records,
    start: u64,
    count: u64,
) -> Result<Vec<NeedRecord>, ReadFault>
    ensures read { Gives (result_map_both (λ needs. map (need_of records.now.strings) needs.items) (λ fault. fault) result)
        (needs_from records.now start count) }
    ensures count { IfOk result (λ needs. length needs.items ≡ count) }
{
    let mut needs = Vec::new(alloc);
    let mut at = start;
    for index in 0..count {
        let (need, next) = need_at(records, at, index + 1 == count)?;
        needs.push(need)?;
        at = next;
    }
    Ok(needs)
}

/// The version that the record at an address needs of a file, and the address of the record after it.
#[tactic(auto, using(crate::proofs::Reading::distance_read), unfolding(crate::specs::Verneed::vernaux_at))]
fn vernaux_at(
    records: &Records,
    file: u32,
    at: u64,
    is_last: bool,
) -> Result<(VerneedRecord, u64), ReadFault>
    ensures read { Gives (result_map_both (λ r. needed records.now.strings r.0) (λ fault. fault) result)
        (vernaux_at records.now (string_in records.now.strings file) is_last at) }
    ensures next { IfOk result (λ r. r.1 ≡ at + distance records.now 16 12 at) }
{
    let entry = records.bytes_at(at, RECORD_SIZE)?;
    let next = field32(entry, 12);
    if !is_last && next == 0 {
        return Err(records.fault());
    }
    let verneed = VerneedRecord {
        index: field16(entry, 6) % HIDDEN,
        flags: field16(entry, 4),
        file,
        name: records.named(field32(entry, 8))?,
    };
    Ok((verneed, at + u64::from(next)))
}

/// The versions that are needed of one file.
#[tactic(auto, unfolding(crate::specs::Verneed::versions_of))]
fn versions_of(
    alloc: Global,
    records: &Records,
    need: NeedRecord,
) -> Result<Vec<VerneedRecord>, ReadFault>
    ensures { Gives (result_map_both (λ verneeds. map (needed records.now.strings) verneeds.items) (λ fault. fault) result)
        (versions_of records.now (need_of records.now.strings need)) }
{
    let mut verneeds = Vec::new(alloc);
    let mut at = need.versions;
    for index in 0..need.count {
        let is_last = index + 1 == need.count;
        let (verneed, next) = vernaux_at(records, need.file, at, is_last)?;
        verneeds.push(verneed)?;
        at = next;
    }
    Ok(verneeds)
}

/// The versions that are needed of these files, file by file.
fn versions_of_all(
    alloc: Global,
    records: &Records,
    needs: &[NeedRecord],
) -> Result<Vec<VerneedRecord>, ReadFault>
    ensures { Gives (result_map_both (λ verneeds. map (needed records.now.strings) verneeds.items) (λ fault. fault) result)
        (versions_of_all records.now (map (need_of records.now.strings) needs.now)) }
{
    let mut verneeds = Vec::new(alloc);
    for need in needs {
        let mut more = versions_of(alloc, records, *need)?;
        verneeds.append(&mut more)?;
    }
    Ok(verneeds)
}

/// How many versions are needed of these files.
fn total_count(needs: &[NeedRecord]) -> u64
    requires { length needs.now ≤ 32768 }
    ensures { result ≡ sum_by (λ n. n.count) needs.now }
{
    needs.iter().map(|need| u64::from(need.count)).sum()
}

/// The versions that an object needs (rule 17).
#[tactic(auto, using(crate::proofs::Named::counts_same), unfolding(crate::specs::Verneed::verneeds_of, crate::specs::Verneed::verneeds_from))]
pub(crate) fn read_verneeds(
    alloc: Global,
    records: &Records,
    tags: &[Tag],
) -> Result<Vec<VerneedRecord>, ReadFault>
    ensures { Gives (result_map_both (λ verneeds. map (needed records.now.strings) verneeds.items) (λ fault. fault) result) (verneeds_of records.now tags.now) }
{
    let Some(start) = last_of(tags, DT_VERNEED) else {
        return Ok(Vec::new(alloc));
    };
    let count = value_of(tags, DT_VERNEEDNUM);
    if count > MAX_RECORDS {
        return Err(records.fault());
    }
    let needs = needs_from(alloc, records, start, count)?;
    if total_count(&needs) > MAX_RECORDS {
        return Err(records.fault());
    }
    versions_of_all(alloc, records, &needs)
}

/// The versions with their names and those of their files, in the memory of the file. More than 64 MiB of
/// names are want of memory.
pub(crate) fn named_verneeds(
    alloc: Global,
    strings: &SharedBytes,
    records: &[VerneedRecord],
) -> Result<Verneeds, AllocError>
    ensures { IfOk result (λ verneeds. verneeds ≡ map (needed strings.now) records.now) }
{
    let mut verneeds = Verneeds::new(alloc);
    let mut name_bytes = 0;
    for record in records {
        let file = read_string(strings, record.file.into())?;
        let name = read_string(strings, record.name.into())?;
        name_bytes = with_name(with_name(name_bytes, &file)?, &name)?;
        verneeds.push(Verneed {
            index: record.index,
            flags: record.flags,
            file,
            name,
        })?;
    }
    Ok(verneeds)
}
