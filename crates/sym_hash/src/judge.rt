//! Judging the hash tables of an object.

ghost use Rattle.std.specs.Prelude.{◌≡◌, ◌<◌, ◌^◌, ◌∷◌, [], ◌&&◌, false, not, nat_le, ℕ, Ok, Err, Some, IfOk, IfSome, length, map};
ghost use Rattle.std.specs.List.{slice_get};
ghost use Rattle.std.specs.Option.{option_map_or};
ghost use Rattle.ld_base.specs.Symbol.{is_visible_definition};
ghost use Rattle.ld_base.specs.declared.object.Symbol.{Symbol};
ghost use Rattle.elf_head.specs.AcceptancePart.Broken.{first_broken};
ghost use Rattle.elf_head.specs.AcceptancePart.Gives.{Gives};
ghost use Rattle.elf_head.specs.Rules.{head_verdict};
ghost use Rattle.sym_hash.specs.Hashed.{first_lost, hash_by, unmet_by};
ghost use Rattle.elf_dynamic.specs.Verdict.{ArePartsOf};
ghost use Rattle.sym_hash.specs.Verdict.{hash_verdict};

use crate::hash::{gnu_hash, sysv_hash};
use crate::{gnu, sysv};
use elf_dynamic::JudgedParts;
use elf_head::read_hash_words;
use ld_base::{HashTable, Head, NotAccepted, ReadFault, Symbol};
use std::alloc::{AllocError, Global};

/// The hash of a name in the table that counts.
fn hash_of(table: &HashTable, name: &[u8]) -> u32
    ensures { result ≡ hash_by table.now name.now }
{
    match &table.gnu {
        Some(_) => gnu_hash(name),
        None => sysv_hash(name),
    }
}

/// The hashes of the names of symbols.
pub(crate) fn hashes_of(
    alloc: Global,
    table: &HashTable,
    symbols: &[Symbol],
) -> Result<Vec<u32>, AllocError>
    ensures { IfOk result (λ hashes. hashes.items ≡ map (λ s. hash_by table.now s.name) symbols.now) }
{
    symbols
        .iter()
        .map(|symbol| hash_of(table, symbol.name.as_bytes()))
        .collect(alloc)
}

/// Whether the symbol is an exported definition.
fn is_exported(symbol: &Symbol, first: u32, index: usize) -> bool
    ensures { result ≡ (nat_le first index && is_visible_definition symbol.now && not false) }
{
    index >= first as usize && symbol.is_visible_definition()
}

/// The first exported definition.
#[tactic(auto, unfolding(crate::specs::Hashed::first_lost), using(crate::proofs::Following::lost_here, crate::proofs::Following::not_lost))]
fn first_exported(symbols: &[Symbol], first: u32) -> Option<usize>
    ensures { result ≡ first_lost (λ i. false) (map is_visible_definition symbols.now) first }
{
    for (index, symbol) in symbols.iter().enumerate() {
        if is_exported(symbol, first, index) {
            return Some(index);
        }
    }
    None
}

/// The number by which the table breaks rule 19, of symbols whose names have these hashes.
#[tactic(auto, unfolding(crate::specs::Hashed::unmet_by))]
fn unmet(
    alloc: Global,
    table: &HashTable,
    symbols: &[Symbol],
    hashes: &[u32],
    first: u32,
) -> Result<Option<usize>, AllocError>
    requires chain { IfSome table.now.sysv (λ s. length s.chain < 2 ^ 32) }
    requires few { length symbols.now < 2 ^ 32 }
    requires same { length hashes.now ≡ length symbols.now }
    ensures { IfOk result (λ number. number ≡ unmet_by table.now (map is_visible_definition symbols.now) hashes.now first) }
{
    match (&table.gnu, &table.sysv) {
        (Some(gnu), _) => Ok(gnu::unmet(gnu, symbols, hashes, first)),
        (None, Some(sysv)) => sysv::unmet(alloc, sysv, symbols, hashes, first),
        (None, None) => Ok(first_exported(symbols, first)),
    }
}

/// The table, unless it breaks rule 19 for symbols whose names have these hashes.
pub(crate) fn judge(
    alloc: Global,
    table: HashTable,
    symbols: &[Symbol],
    hashes: &[u32],
    first: u32,
) -> Result<HashTable, ReadFault>
    requires chain { IfSome table.sysv (λ s. length s.chain < 2 ^ 32) }
    requires few { length symbols.now < 2 ^ 32 }
    requires same { length hashes.now ≡ length symbols.now }
    ensures { Gives result (option_map_or Err (first_broken 19 (unmet_by table (map is_visible_definition symbols.now) hashes.now first ∷ [])) (Ok table)) }
{
    match unmet(alloc, &table, symbols, hashes, first)? {
        Some(number) => Err(ReadFault::NotAccepted(NotAccepted {
            rule: 19,
            number: number as u64,
        })),
        None => Ok(table),
    }
}

/// Reads the hash tables of an object whose parts are judged.
///
/// # Errors
///
/// Rule 19, where the tables break it, with its number, or want of memory.
#[tactic(auto, unfolding(crate::specs::Verdict::table_verdict))]
pub fn judge_table(
    alloc: Global,
    bytes: &[u8],
    head: &Head,
    parts: &JudgedParts,
) -> Result<HashTable, ReadFault>
    requires head { head_verdict bytes.now ≡ Ok head.now }
    requires parts { ArePartsOf bytes.now head.now parts.now }
    ensures { Gives result (hash_verdict bytes.now head.now parts.now) }
{
    let table = read_hash_words(alloc, bytes, head, parts.tags())?;
    let symbols = parts.symbols().as_slice();
    let hashes = hashes_of(alloc, &table, symbols)?;
    judge(alloc, table, symbols, &hashes, parts.first_exported())
}
