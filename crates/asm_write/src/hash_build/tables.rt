//! The two tables.

ghost use Rattle.std.specs.Prelude.{◌≡◌, ◌++◌, ◌<◌, IfOk, replicate};
ghost use Rattle.asm_write.specs.HashBuild.Hashed.{bucket_count, bloom_with, ends_bucket, chain_of, gnu_of, sysv_of};

use crate::hash_build::chains::chains_of;
use ld_base::{GnuPart, SharedList, SysvPart};
use std::alloc::{AllocError, Global};

/// How many buckets so many symbols have.
pub fn bucket_count(exports: usize) -> usize
    ensures value { result ≡ bucket_count exports }
    ensures some { 0 < result }
{
    (exports / 4).max(1)
}

/// The bloom filter with one hash more.
fn bloom_with(bloom: u64, hash: u32) -> u64
    ensures { result ≡ bloom_with bloom hash }
{
    bloom | 1 << (hash % 64) | 1 << (hash / 64 % 64)
}

/// Whether a symbol is the last of its bucket.
fn ends_bucket(buckets: usize, hash: u32, rest: &[u32]) -> bool
    requires { 0 < buckets }
    ensures { result ≡ ends_bucket buckets hash rest.now }
{
    match rest {
        [] => true,
        [next, ..] => *next as usize % buckets != hash as usize % buckets,
    }
}

/// The words of the chains.
fn chain_of(alloc: Global, buckets: usize, hashes: &[u32]) -> Result<Vec<u32>, AllocError>
    requires { 0 < buckets }
    ensures { IfOk result (λ chain. chain.items ≡ chain_of buckets hashes.now) }
{
    let mut chain = Vec::new(alloc);
    for (at, hash) in hashes.iter().enumerate() {
        let is_last = ends_bucket(buckets, *hash, &hashes[at + 1..]);
        chain.push(2 * (hash / 2) + u32::from(is_last))?;
    }
    Ok(chain)
}

/// The GNU hash table of symbols with these hashes, in the order of their buckets; the first of them
/// has this index.
///
/// # Errors
///
/// Want of memory.
#[tactic(auto, unfolding(crate::specs::HashBuild::Hashed::gnu_of))]
pub fn gnu_of(alloc: Global, first: u32, hashes: &[u32]) -> Result<GnuPart, AllocError>
    ensures { IfOk result (λ gnu. gnu ≡ gnu_of first hashes.now) }
{
    let count = bucket_count(hashes.len());
    let bloom = hashes
        .iter()
        .fold(0, |bloom, hash| bloom_with(bloom, *hash));
    let bloom = Vec::from_slice(alloc, &[bloom])?;
    let chain = chain_of(alloc, count, hashes)?;
    let chains = chains_of(alloc, first, count, hashes)?;
    Ok(GnuPart {
        symoffset: first,
        shift: 6,
        bloom: SharedList::new(alloc, bloom)?,
        buckets: SharedList::new(alloc, chains.buckets)?,
        chain: SharedList::new(alloc, chain)?,
    })
}

/// So many zeros and the links behind them.
fn links_behind(alloc: Global, first: u32, links: &[u32]) -> Result<Vec<u32>, AllocError>
    ensures { IfOk result (λ chain. chain.items ≡ replicate first 0 ++ links.now) }
{
    let mut chain = vec![in alloc; 0; first as usize]?;
    chain.extend_from_slice(links)?;
    Ok(chain)
}

/// The System V hash table of symbols with these hashes, the first of which has this index; the
/// symbols before them are in no bucket.
///
/// # Errors
///
/// Want of memory.
#[tactic(auto, unfolding(crate::specs::HashBuild::Hashed::sysv_of))]
pub fn sysv_of(alloc: Global, first: u32, hashes: &[u32]) -> Result<SysvPart, AllocError>
    ensures { IfOk result (λ sysv. sysv ≡ sysv_of first hashes.now) }
{
    let count = bucket_count(hashes.len());
    let chains = chains_of(alloc, first, count, hashes)?;
    let chain = links_behind(alloc, first, &chains.links)?;
    Ok(SysvPart {
        buckets: SharedList::new(alloc, chains.buckets)?,
        chain: SharedList::new(alloc, chain)?,
    })
}
