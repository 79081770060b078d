//! The records of the versions that the object defines (Drepper, "ELF Symbol Versioning").

ghost use Rattle.std.specs.Prelude.{◌≡◌, ◌+◌, ◌++◌, IfOk, OnOk, map};
ghost use Rattle.sym_hash.specs.Hash.{gnu_hash, sysv_hash};
ghost use Rattle.asm_layout.specs.Versions.{half, word, next_version, version_records, records_for};

use crate::asm_tables::numbers::{half, offset_behind};
use asm_layout::Exported;
use asm_write::VersionRecord;
use std::alloc::{AllocError, Global};
use sym_hash::{gnu_hash, sysv_hash};

/// The hashes of symbols for the GNU table.
///
/// # Errors
///
/// Want of memory.
pub fn gnu_hashes(alloc: Global, exports: &[Exported]) -> Result<Vec<u32>, AllocError>
    ensures { IfOk result (λ hashes. hashes.items ≡ map (λ exported. gnu_hash exported.name) exports.now) }
{
    let mut hashes = Vec::with_capacity(alloc, exports.len())?;
    for exported in exports {
        hashes.push(gnu_hash(exported.name.as_bytes()))?;
    }
    Ok(hashes)
}

/// The hashes of symbols for the System V table.
///
/// # Errors
///
/// Want of memory.
pub fn sysv_hashes(alloc: Global, exports: &[Exported]) -> Result<Vec<u32>, AllocError>
    ensures { IfOk result (λ hashes. hashes.items ≡ map (λ exported. sysv_hash exported.name) exports.now) }
{
    let mut hashes = Vec::with_capacity(alloc, exports.len())?;
    for exported in exports {
        hashes.push(sysv_hash(exported.name.as_bytes()))?;
    }
    Ok(hashes)
}

/// How far behind a record the next one stands.
fn next_version(rest: &[Vec<u8>]) -> u32
    ensures { result ≡ next_version (map (λ name. name.items) rest.now) }
{
    match rest {
        [] => 0,
        [_, ..] => 28,
    }
}

/// The record of a version that is defined.
fn version_record(number: usize, at: u32, name: &[u8], rest: &[Vec<u8>]) -> VersionRecord
    ensures { result ≡ record {
      flags = 0;
      index = half (2 + number);
      hash = sysv_hash name.now;
      name = word at;
      next = next_version (map (λ name. name.items) rest.now);
    } }
{
    VersionRecord {
        flags: 0,
        index: half(2 + number as u128),
        hash: sysv_hash(name),
        name: at,
        next: next_version(rest),
    }
}

/// Appends the records of versions, the first of which has index 2 and its name at this offset of the
/// strings.
fn push_versions(
    records: &mut Vec<VersionRecord>,
    first: u32,
    names: &[Vec<u8>],
) -> Result<(), AllocError>
    ensures { OnOk result (records.new.items ≡ records.old.items ++ version_records 2 first (map (λ name. name.items) names.now)) }
{
    let mut at = first;
    for (number, name) in names.iter().enumerate() {
        records.push(version_record(number, at, name, &names[number + 1..]))?;
        at = offset_behind(at, name);
    }
    Ok(())
}

/// The records of the versions that an object with this name defines, whose names begin at this offset
/// of the strings; its own name stands at the other. None where it defines none.
///
/// # Errors
///
/// Want of memory.
pub fn records_for(
    alloc: Global,
    own: &[u8],
    own_at: u32,
    first: u32,
    names: &[Vec<u8>],
) -> Result<Vec<VersionRecord>, AllocError>
    ensures { IfOk result (λ records. records.items ≡ records_for own.now own_at first (map (λ name. name.items) names.now)) }
{
    let mut records = Vec::new(alloc);
    if names.is_empty() {
        return Ok(records);
    }
    records.push(VersionRecord {
        flags: 1,
        index: 1,
        hash: sysv_hash(own),
        name: own_at,
        next: 28,
    })?;
    push_versions(&mut records, first, names)?;
    Ok(records)
}
