//! The versions that an object defines (Drepper, "ELF Symbol Versioning").

ghost use Rattle.std.specs.Prelude.{◌≡◌, ◌+◌, ◌≤◌, IfOk, length, map};
ghost use Rattle.std.specs.Result.{result_map_both};
ghost use Rattle.elf_head.specs.AcceptancePart.Gives.{Gives};
ghost use Rattle.elf_versions.specs.Record.{distance};
ghost use Rattle.elf_versions.specs.Names.{defined};
ghost use Rattle.elf_versions.specs.Verdef.{is_verdef, verdef_at, verdefs_from, verdefs_of};

use crate::records::{MAX_RECORDS, Records};
use elf_head::{DT_VERDEF, DT_VERDEFNUM, last_of, read_string, value_of, with_name};
use ld_base::{ReadFault, SharedBytes, Tag, Verdef, Verdefs, field16, field32};
use std::alloc::{AllocError, Global};

/// The bytes of a Verdef and of a Verdaux.
const VERDEF_SIZE: u64 = 20;

const VERDAUX_SIZE: u64 = 8;

/// A version that is defined, with the offset of its name in the string table.
#[derive(Clone, Copy)]
pub(crate) struct VerdefRecord {
    pub(crate) index: u16,
    flags: u16,
    name: u32,
}

/// Whether the record is of the version that is read, counts a name, and leads on unless it is the
/// last one.
fn is_verdef(entry: &[u8], is_last: bool) -> bool
    requires { 20 ≤ length entry.now }
    ensures { result ≡ is_verdef is_last entry.now }
{
    field16(entry, 0) == 1 && field16(entry, 6) > 0 && (is_last || field32(entry, 16) > 0)
}

/// The version that the record at an address defines, and the address of the record after it.
#[tactic(auto, using(crate::proofs::Reading::distance_read), unfolding(crate::specs::Verdef::verdef_at))]
fn verdef_at(records: &Records, at: u64, is_last: bool) -> Result<(VerdefRecord, u64), ReadFault>
    ensures read { Gives (result_map_both (λ r. defined records.now.strings r.0) (λ fault. fault) result) (verdef_at records.now is_last at) }
    ensures next { IfOk result (λ r. r.1 ≡ at + distance records.now 20 16 at) }
{
    let entry = records.bytes_at(at, VERDEF_SIZE)?;
    if !is_verdef(entry, is_last) {
        return Err(records.fault());
    }
    let names = records.bytes_at(at + u64::from(field32(entry, 12)), VERDAUX_SIZE)?;
    let verdef = VerdefRecord {
        index: field16(entry, 4),
        flags: field16(entry, 2),
        name: records.named(field32(names, 0))?,
    };
    Ok((verdef, at + u64::from(field32(entry, 16))))
}

/// The versions of so many records from an address on.
#[tactic(auto, unfolding(crate::specs::Verdef::verdefs_from))]
fn verdefs_from(
    alloc: Global,
    records: &Records,
    start: u64,
    count: u64,
) -> Result<Vec<VerdefRecord>, ReadFault>
    ensures { Gives (result_map_both (λ verdefs. map (defined records.now.strings) verdefs.items) (λ fault. fault) result)
        (verdefs_from records.now start count) }
{
    let mut verdefs = Vec::new(alloc);
    let mut at = start;
    for index in 0..count {
        let (verdef, next) = verdef_at(records, at, index + 1 == count)?;
        verdefs.push(verdef)?;
        at = next;
    }
    Ok(verdefs)
}

/// The versions that an object defines (rule 17).
#[tactic(auto, unfolding(crate::specs::Verdef::verdefs_of))]
pub(crate) fn read_verdefs(
    alloc: Global,
    records: &Records,
    tags: &[Tag],
) -> Result<Vec<VerdefRecord>, ReadFault>
    ensures { Gives (result_map_both (λ verdefs. map (defined records.now.strings) verdefs.items) (λ fault. fault) result) (verdefs_of records.now tags.now) }
{
    let Some(start) = last_of(tags, DT_VERDEF) else {
        return Ok(Vec::new(alloc));
    };
    let count = value_of(tags, DT_VERDEFNUM);
    if count > MAX_RECORDS {
        return Err(records.fault());
    }
    verdefs_from(alloc, records, start, count)
}

/// The versions with their names, in the memory of the file. More than 64 MiB of names are want of memory.
pub(crate) fn named_verdefs(
    alloc: Global,
    strings: &SharedBytes,
    records: &[VerdefRecord],
) -> Result<Verdefs, AllocError>
    ensures { IfOk result (λ verdefs. verdefs ≡ map (defined strings.now) records.now) }
{
    let mut verdefs = Verdefs::new(alloc);
    let mut name_bytes = 0;
    for record in records {
        let name = read_string(strings, record.name.into())?;
        name_bytes = with_name(name_bytes, &name)?;
        verdefs.push(Verdef {
            index: record.index,
            flags: record.flags,
            name,
        })?;
    }
    Ok(verdefs)
}
