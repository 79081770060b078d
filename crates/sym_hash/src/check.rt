//! Reading hash tables.

ghost use Rattle.std.specs.Prelude.{◌≡◌, Ok};
ghost use Rattle.elf_head.specs.AcceptancePart.Gives.{Answers, Gives};
ghost use Rattle.elf_head.specs.Rules.{head_verdict};
ghost use Rattle.sym_hash.specs.Breaks.{BreaksHash, IsHashTable};
ghost use Rattle.elf_dynamic.specs.Verdict.{ArePartsOf};
ghost use Rattle.elf_versions.specs.Verdict.{versions_verdict};
ghost use Rattle.sym_hash.specs.Verdict.{hash_verdict};

use crate::judge::{hashes_of, judge};
use crate::law::one_verdict;
use elf_head::read_hash_words;
use ld_base::{DynParts, HashTable, Head, ReadFault, Versions};
use std::alloc::Global;

/// Reading hash tables.
pub trait Check {
    /// Reads the hash tables of an object. Its head, its parts and its versions are those that their
    /// readers answer for these bytes, so that each table that is named is there.
    ///
    /// # Errors
    ///
    /// Rule 19, where the tables break it, with its number, or want of memory.
    fn check(
        alloc: Global,
        bytes: &[u8],
        head: &Head,
        parts: &DynParts,
        versions: &Versions,
    ) -> Result<Self, ReadFault>
    where
        Self: Sized,
        requires head { head_verdict bytes.now ≡ Ok head.now }
        requires parts { ArePartsOf bytes.now head.now parts.now }
        requires versions { versions_verdict bytes.now head.now parts.now ≡ Ok versions.now };
}

impl Check for HashTable {
    fn check(
        alloc: Global,
        bytes: &[u8],
        head: &Head,
        parts: &DynParts,
        versions: &Versions,
    ) -> Result<Self, ReadFault>
        requires head { head_verdict bytes.now ≡ Ok head.now }
        requires parts { ArePartsOf bytes.now head.now parts.now }
        requires versions { versions_verdict bytes.now head.now parts.now ≡ Ok versions.now }
        ensures answers { Answers (IsHashTable bytes.now head.now parts.now) (BreaksHash bytes.now head.now parts.now) result }
        ensures verdict { Gives result (hash_verdict bytes.now head.now parts.now) }
    {
        one_verdict();
        checked(alloc, bytes, head, parts)
    }
}

/// The hash tables, unless they break rule 19.
fn checked(
    alloc: Global,
    bytes: &[u8],
    head: &Head,
    parts: &DynParts,
) -> Result<HashTable, ReadFault>
    requires head { head_verdict bytes.now ≡ Ok head.now }
    requires parts { ArePartsOf bytes.now head.now parts.now }
    ensures { Gives result (hash_verdict bytes.now head.now parts.now) }
{
    let table = read_hash_words(alloc, bytes, head, parts.tags.as_slice())?;
    let symbols = parts.symbols.as_slice();
    let hashes = hashes_of(alloc, &table, symbols)?;
    judge(alloc, table, symbols, &hashes, parts.first_exported)
}
