//! The records of needed versions (Drepper, "ELF Symbol Versioning").

ghost use Rattle.std.specs.Prelude.{◌≡◌, ◌+◌, ◌*◌, ◌++◌, ◌^◌, ◌<◌, ℕ, List, OnOk, IfOk, length, map};
ghost use Rattle.asm_statement.specs.declared.line.Line.{Line};
ghost use Rattle.sym_hash.specs.Hash.{sysv_hash};
ghost use Rattle.asm_layout.specs.Versions.{first_needed, half, need_records, needed_of, needed_records, next_need, strings_length, word};
ghost use Rattle.asm_places.specs.AsmNeeds.Files.{AreFilesOf, file_of};
ghost use Rattle.asm_uses.specs.Uses.{AreUsesOf};
ghost use Rattle.asm_contents.specs.Needs.{flags_in};

use asm_places::{NeededFile, NeededFiles, first_needed};
use asm_symbols::{half, offset_behind, word};
use asm_uses::Uses;
use asm_write::{NeedRecord, NeededVersion};
use ld_base::Sequence;
use std::alloc::AllocError;
use sym_hash::sysv_hash;

/// How far behind a record the next one stands.
fn next_need(rest: &[Vec<u8>]) -> u32
    ensures { result ≡ next_need (map (λ name. name.items) rest.now) }
{
    match rest {
        [] => 0,
        [_, ..] => 16,
    }
}

/// How far behind the record of a file those of its versions begin: behind it come the records of so many
/// files less one, and those of the versions before.
fn first_behind(files: usize, before: u128) -> u32
    ensures { result ≡ word (16 * files + 16 * before) }
{
    word(16 * files as u128 + 16 * (before % (1 << 32)))
}

/// The record of a file whose name stands at an offset, and behind which these files stand; so many
/// versions are needed of the files before it.
fn file_record(
    file: &NeededFile,
    at: u32,
    left: usize,
    before: u128,
    rest: &[Vec<u8>],
) -> NeedRecord
    ensures { result ≡ record {
      count = half (length file.now.versions);
      name = word at;
      first = word (16 * left + 16 * before);
      next = next_need (map (λ name. name.items) rest.now);
    } }
{
    NeedRecord {
        count: half(file.versions.len() as u128),
        name: at,
        first: first_behind(left, before),
        next: next_need(rest),
    }
}

/// Appends the records of the files of which versions are needed, whose names begin at an offset.
pub(crate) fn push_files(
    records: &mut Sequence<NeedRecord>,
    first: u32,
    needed: &NeededFiles,
) -> Result<(), AllocError>
    ensures { OnOk result ((lines : List Line) → AreFilesOf lines needed.now
        → records.new ≡ records.old ++ need_records lines 0 first needed.now.names) }
{
    let names = needed.names.as_slice();
    let mut at = first;
    for (number, file) in needed.files.iter().enumerate() {
        let before = needed.firsts[number].get();
        let rest = &names[number + 1..];
        records.push(file_record(file, at, names.len() - number, before, rest))?;
        at = offset_behind(at, &names[number]);
    }
    Ok(())
}

/// VER_FLG_WEAK where the file may lack the version.
fn version_flags(file: &NeededFile, version: &[u8]) -> u16
    ensures { result ≡ flags_in file.now version.now }
{
    if file.strong.contains(version) { 0 } else { 2 }
}

/// The record of a version that is needed of a file, whose name stands at an offset, and behind which these
/// versions stand.
fn version_record(
    file: &NeededFile,
    version: &[u8],
    index: u128,
    at: u32,
    rest: &[Vec<u8>],
) -> NeededVersion
    ensures { result ≡ record {
      hash = sysv_hash version.now;
      flags = flags_in file.now version.now;
      index = half index;
      name = word at;
      next = next_need (map (λ name. name.items) rest.now);
    } }
{
    NeededVersion {
        hash: sysv_hash(version),
        flags: version_flags(file, version),
        index: half(index),
        name: at,
        next: next_need(rest),
    }
}

/// Appends the records of the versions that are needed of a file, the first of which has this index and
/// its name at an offset of the strings, and tells the offset behind their names.
fn push_versions(
    records: &mut Sequence<NeededVersion>,
    file: &NeededFile,
    index: u128,
    first: u32,
) -> Result<u32, AllocError>
    requires { index < 2 ^ 127 + 2 ^ 65 }
    ensures records { OnOk result ((lines : List Line) (name : List ℕ) → file.now ≡ file_of lines name
        → records.new ≡ records.old ++ needed_of lines name index first file.now.versions) }
    ensures next { IfOk result (λ next. next ≡ word (first + strings_length file.now.versions)) }
{
    let versions = file.versions.as_slice();
    let mut at = first;
    for (number, version) in versions.iter().enumerate() {
        let rest = &versions[number + 1..];
        records.push(version_record(file, version, index + number as u128, at, rest))?;
        at = offset_behind(at, version);
    }
    Ok(at)
}

/// Appends the records of the versions that are needed, file by file, whose names begin at an offset.
pub(crate) fn push_needed(
    records: &mut Sequence<NeededVersion>,
    first: u32,
    uses: &Uses,
    needed: &NeededFiles,
) -> Result<(), AllocError>
    ensures { OnOk result ((lines : List Line) → AreUsesOf lines uses.now → AreFilesOf lines needed.now
        → records.new ≡ records.old ++ needed_records lines (first_needed lines) first needed.now.names) }
{
    let mut at = first;
    for (number, file) in needed.files.iter().enumerate() {
        let index = first_needed(uses) + needed.firsts[number].get();
        at = push_versions(records, file, index, at)?;
    }
    Ok(())
}
