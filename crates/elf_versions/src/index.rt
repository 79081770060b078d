//! Which version indexes there are.

ghost use Rattle.std.specs.Prelude.{◌≡◌, ◌==◌, ◌%◌, ◌<◌, ◌&&◌, ◌^◌, ℕ, IfOk, ◌++◌, map, not, nat_le, length, position, slice_index_or, false, ◌≤◌};
ghost use Rattle.std.specs.List.{list_any};
ghost use Rattle.elf_versions.specs.Index.{unknown_index};

use crate::judged::JudgedVersions;
use crate::verdef::VerdefRecord;
use crate::verneed::VerneedRecord;
use std::alloc::{AllocError, Global};

/// How many 16-bit numbers there are.
const SHORTS: usize = 1 << 16;

/// The indexes of these versions.
fn indexes_of(
    alloc: Global,
    verdefs: &[VerdefRecord],
    verneeds: &[VerneedRecord],
) -> Result<Vec<u16>, AllocError>
    ensures { IfOk result (λ indexes. indexes.items ≡ map (λ d. d.index) verdefs.now ++ map (λ n. n.index) verneeds.now) }
{
    let defined = verdefs.iter().map(|verdef| verdef.index);
    let needed = verneeds.iter().map(|verneed| verneed.index);
    defined.chain(needed).collect(alloc)
}

/// For each number below a limit, whether it is one of these.
fn marks_of(alloc: Global, indexes: &[u16], limit: usize) -> Result<Vec<bool>, AllocError>
    requires { 2 ^ 16 ≤ limit }
    ensures length { IfOk result (λ marks. length marks.items ≡ limit) }
    ensures marks { IfOk result (λ marks. (k : ℕ) → k < limit → slice_index_or marks.items k false ≡ list_any (λ i. i == k) indexes.now) }
{
    let mut marks = vec![in alloc; false; limit]?;
    for index in indexes {
        marks[usize::from(*index)] = true;
    }
    Ok(marks)
}

/// Whether the entry has an index of 2 or more that isn't marked.
fn is_unmarked(marks: &[bool], entry: u16) -> bool
    requires { length marks.now ≡ 65536 }
    ensures { result ≡ (nat_le 2 (entry % 0x8000) && not (slice_index_or marks.now (entry % 0x8000) false)) }
{
    let index = entry % 0x8000;
    index >= 2 && !marks[usize::from(index)]
}

fn first_unmarked(marks: &[bool], versym: &[u16]) -> Option<usize>
    requires { length marks.now ≡ 65536 }
    ensures { result ≡ position (λ entry. nat_le 2 (entry % 0x8000) && not (slice_index_or marks.now (entry % 0x8000) false)) versym.now }
{
    versym.iter().position(|entry| is_unmarked(marks, *entry))
}

/// The first symbol whose version index isn't there. Without entries for symbols, as where an object has no
/// versions, nothing is marked.
pub(crate) fn unknown_index(
    alloc: Global,
    versions: &JudgedVersions,
) -> Result<Option<usize>, AllocError>
    ensures { IfOk result (λ symbol. symbol ≡ unknown_index versions.now) }
{
    if versions.versym.is_empty() {
        return Ok(None);
    }
    first_unknown(alloc, versions)
}

/// The same by marks of all numbers that an index may be.
#[tactic(auto, unfolding(crate::specs::Index::unknown_index))]
fn first_unknown(alloc: Global, versions: &JudgedVersions) -> Result<Option<usize>, AllocError>
    ensures { IfOk result (λ symbol. symbol ≡ unknown_index versions.now) }
{
    let indexes = indexes_of(alloc, &versions.verdefs, &versions.verneeds)?;
    let marks = marks_of(alloc, &indexes, SHORTS)?;
    Ok(first_unmarked(&marks, versions.versym.as_slice()))
}
