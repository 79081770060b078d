//! Reading the words of hash tables (gABI, "Hash Table").

ghost use Rattle.std.specs.Prelude.{◌≡◌, ◌+◌, ◌*◌, ◌≤◌, ◌<◌, ◌^◌, Ok, IfOk, IfSome, length, fold, max, position};
ghost use Rattle.elf_head.specs.Rules.{head_verdict};
ghost use Rattle.elf_head.specs.DynTable.HashWords.{chain_at, chain_words, gnu_chain, gnu_words, hash_words, ints, is_end, longs, sysv_words};

use crate::bytes_from;
use crate::dyn_table::tag::{DT_GNU_HASH, DT_HASH, last_of};
use ld_base::{GnuPart, HashTable, Head, Ints, Longs, SysvPart, Tag, field32, field64};
use std::alloc::{AllocError, Global};

/// So many 32-bit words from a place on.
fn read_ints(alloc: Global, bytes: &[u8], at: usize, count: usize) -> Result<Ints, AllocError>
    requires { at + 4 * count ≤ length bytes.now }
    ensures words { IfOk result (λ words. words ≡ ints bytes.now at count) }
    ensures count { IfOk result (λ words. length words ≡ count) }
{
    let mut words = Vec::with_capacity(alloc, count)?;
    for index in 0..count {
        words.push(field32(bytes, at + 4 * index))?;
    }
    Ok(Ints::from(words))
}

/// So many 64-bit words from a place on.
fn read_longs(alloc: Global, bytes: &[u8], at: usize, count: usize) -> Result<Longs, AllocError>
    requires { at + 8 * count ≤ length bytes.now }
    ensures { IfOk result (λ words. words ≡ longs bytes.now at count) }
{
    let mut words = Vec::with_capacity(alloc, count)?;
    for index in 0..count {
        words.push(field64(bytes, at + 8 * index))?;
    }
    Ok(Longs::from(words))
}

/// The words of a System V hash table, from the bytes at its address on.
#[tactic(auto, unfolding(crate::specs::DynTable::HashWords::sysv_words))]
fn sysv_words(alloc: Global, bytes: &[u8]) -> Result<Option<SysvPart>, AllocError>
    ensures words { IfOk result (λ part. part ≡ sysv_words bytes.now) }
    ensures few { IfOk result (λ part. IfSome part (λ s. length s.chain < 2 ^ 32)) }
{
    if bytes.len() < 8 {
        return Ok(None);
    }
    let buckets = field32(bytes, 0) as usize;
    let chain = field32(bytes, 4) as usize;
    if bytes.len() < 8 + 4 * buckets + 4 * chain {
        return Ok(None);
    }
    Ok(Some(SysvPart {
        buckets: read_ints(alloc, bytes, 8, buckets)?.into_shared(alloc)?,
        chain: read_ints(alloc, bytes, 8 + 4 * buckets, chain)?.into_shared(alloc)?,
    }))
}

/// The place of the first word that marks an end.
fn first_end(words: &[u32]) -> Option<usize>
    ensures { result ≡ position is_end words.now }
{
    words.iter().position(|word| *word % 2 == 1)
}

/// The greatest of these, 0 where there is none.
fn greatest(buckets: &[u32]) -> u32
    ensures { result ≡ fold max 0 buckets.now }
{
    buckets.iter().fold(0, |most, bucket| most.max(*bucket))
}

/// The chain words from that of the first symbol to the end of the chain that the greatest bucket
/// begins.
fn chain_words(
    alloc: Global,
    symoffset: u32,
    greatest: u32,
    words: &[u32],
) -> Result<Option<Ints>, AllocError>
    ensures words { IfOk result (λ chain. chain ≡ chain_words symoffset greatest words.now) }
    ensures short { IfOk result (λ chain. IfSome chain (λ c. length c ≤ length words.now)) }
{
    if greatest == 0 {
        return Ok(Some(Ints::new(alloc)));
    }
    if greatest < symoffset {
        return Ok(None);
    }
    let first = (greatest - symoffset) as usize;
    if first > words.len() {
        return Ok(None);
    }
    match first_end(&words[first..]) {
        Some(place) => Ok(Some(Ints::from_slice(alloc, &words[..first + place + 1])?)),
        None => Ok(None),
    }
}

/// The words of a GNU hash table, from the bytes at its address on.
#[tactic(auto, unfolding(crate::specs::DynTable::HashWords::gnu_words, crate::specs::DynTable::HashWords::gnu_chain))]
fn gnu_words(alloc: Global, bytes: &[u8]) -> Result<Option<GnuPart>, AllocError>
    ensures words { IfOk result (λ part. part ≡ gnu_words bytes.now) }
    ensures short { IfOk result (λ part. IfSome part (λ g. 4 * length g.chain ≤ length bytes.now)) }
{
    if bytes.len() < 16 {
        return Ok(None);
    }
    let count = field32(bytes, 0) as usize;
    let symoffset = field32(bytes, 4);
    let bloom = field32(bytes, 8) as usize;
    let buckets_at = 16 + 8 * bloom;
    let chain_at = buckets_at + 4 * count;
    if bytes.len() < chain_at {
        return Ok(None);
    }
    let buckets = read_ints(alloc, bytes, buckets_at, count)?;
    let words = read_ints(alloc, bytes, chain_at, (bytes.len() - chain_at) / 4)?;
    let greatest = greatest(buckets.as_slice());
    let Some(chain) = chain_words(alloc, symoffset, greatest, words.as_slice())? else {
        return Ok(None);
    };
    Ok(Some(GnuPart {
        symoffset,
        shift: field32(bytes, 12),
        bloom: read_longs(alloc, bytes, 16, bloom)?.into_shared(alloc)?,
        buckets: buckets.into_shared(alloc)?,
        chain: chain.into_shared(alloc)?,
    }))
}

/// The words of the GNU hash table, where there is one in the file.
#[tactic(auto, unfolding(crate::specs::DynTable::HashWords::hash_words))]
fn gnu_part(
    alloc: Global,
    bytes: &[u8],
    head: &Head,
    tags: &[Tag],
) -> Result<Option<GnuPart>, AllocError>
    requires { head_verdict bytes.now ≡ Ok head.now }
    ensures words { IfOk result (λ part. part ≡ (hash_words bytes.now head.now.headers tags.now).gnu) }
    ensures short { IfOk result (λ part. IfSome part (λ g. length g.chain < 2 ^ 32)) }
{
    match last_of(tags, DT_GNU_HASH) {
        Some(start) => gnu_words(alloc, bytes_from(bytes, head, start)),
        None => Ok(None),
    }
}

/// The words of the System V hash table, where there is one in the file.
#[tactic(auto, unfolding(crate::specs::DynTable::HashWords::hash_words))]
fn sysv_part(
    alloc: Global,
    bytes: &[u8],
    head: &Head,
    tags: &[Tag],
) -> Result<Option<SysvPart>, AllocError>
    requires { head_verdict bytes.now ≡ Ok head.now }
    ensures words { IfOk result (λ part. part ≡ (hash_words bytes.now head.now.headers tags.now).sysv) }
    ensures few { IfOk result (λ part. IfSome part (λ s. length s.chain < 2 ^ 32)) }
{
    match last_of(tags, DT_HASH) {
        Some(start) => sysv_words(alloc, bytes_from(bytes, head, start)),
        None => Ok(None),
    }
}

/// The words of the hash tables that the tags GNU_HASH and HASH name: of each table the buckets and
/// the chain words, of the GNU table the bloom words too. None where the tag doesn't stand, or where
/// not all words are in the file. The chain words of a GNU table end with the chain that its greatest
/// bucket begins.
#[tactic(auto, unfolding(crate::specs::DynTable::HashWords::hash_words))]
pub fn read_hash_words(
    alloc: Global,
    bytes: &[u8],
    head: &Head,
    tags: &[Tag],
) -> Result<HashTable, AllocError>
    requires { head_verdict bytes.now ≡ Ok head.now }
    ensures words { IfOk result (λ t. t ≡ hash_words bytes.now head.now.headers tags.now) }
    ensures few { IfOk result (λ t. IfSome t.sysv (λ s. length s.chain < 2 ^ 32)) }
    ensures short { IfOk result (λ t. IfSome t.gnu (λ g. length g.chain < 2 ^ 32)) }
{
    Ok(HashTable {
        gnu: gnu_part(alloc, bytes, head, tags)?,
        sysv: sysv_part(alloc, bytes, head, tags)?,
    })
}
