//! Walks of a GNU table.

ghost use Rattle.std.specs.Prelude.{◌≡◌, ℕ, ◌+◌, ◌/◌, ◌%◌, ◌^◌, ◌<◌, ◌==◌, ◌||◌, List, drop, if◌then◌else◌, length};
ghost use Rattle.std.specs.List.{slice_get};
ghost use Rattle.std.specs.Option.{is_some};
ghost use Rattle.sym_hash.specs.Gnu.{has_bit, is_end};
ghost use Rattle.sym_hash.specs.Hash.{gnu_hash};
ghost use Rattle.sym_hash.specs.Reached.{ReachedByGnu};
ghost use Rattle.sym_lookup.specs.SymFind.Best.{Knows, after};
ghost use Rattle.sym_lookup.specs.SymFind.Walks.{BeginsAt, InBloom, Walked, chain_from};

use crate::sym_find::best::{Best, Search};
use ld_base::GnuPart;

/// Whether a chain word marks the end of its chain.
fn is_end(word: u32) -> bool
    ensures { result ≡ is_end word }
{
    word % 2 == 1
}

/// Whether a word has a bit.
fn has_bit(word: u64, bit: u32) -> bool
    requires { bit < 64 }
    ensures { result ≡ has_bit word bit }
{
    (word >> bit) % 2 == 1
}

/// The hash without its lowest bits.
fn shifted(hash: u32, shift: u32) -> u32
    ensures { result ≡ hash / 2 ^ shift }
{
    if shift < u32::BITS { hash >> shift } else { 0 }
}

/// The remainder by a count of words. Most counts are powers of two, and need no division, which takes long.
fn remainder(number: u32, count: usize) -> usize
    requires { 0 < count }
    ensures { result ≡ number % count }
{
    let bits = count.ilog2();
    if count == 1 << bits {
        number as usize & (count - 1)
    } else {
        number as usize % count
    }
}

/// The word of the bloom filter for a hash, if there is one.
fn bloom_word(bloom: &[u64], hash: u32) -> Option<u64>
    ensures { result ≡ slice_get bloom.now (hash / 64 % length bloom.now) }
{
    if bloom.is_empty() {
        None
    } else {
        Some(bloom[remainder(hash / 64, bloom.len())])
    }
}

/// Whether the bloom filter has both bits of a hash.
pub(crate) fn in_bloom(gnu: &GnuPart, hash: u32) -> bool
    ensures { InBloom gnu.now hash result }
{
    match bloom_word(gnu.bloom.as_slice(), hash) {
        Some(word) => has_bit(word, hash % 64) && has_bit(word, shifted(hash, gnu.shift) % 64),
        None => false,
    }
}

/// The bucket of a hash, if there is one.
pub(crate) fn bucket_of(buckets: &[u32], hash: u32) -> Option<u32>
    ensures { result ≡ slice_get buckets.now (hash % length buckets.now) }
{
    if buckets.is_empty() {
        None
    } else {
        Some(buckets[hash as usize % buckets.len()])
    }
}

/// Where the chain that a bucket begins stands among the chain words; a bucket of 0 begins none.
fn chain_from(symoffset: u32, bucket: Option<u32>) -> Option<u32>
    ensures { result ≡ chain_from symoffset bucket }
{
    match bucket {
        Some(bucket) if bucket != 0 && bucket >= symoffset => Some(bucket - symoffset),
        _ => None,
    }
}

/// Where the chain of a hash begins among the chain words, if it may lead to a symbol.
fn chain_of(gnu: &GnuPart, hash: u32) -> Option<u32>
    ensures { BeginsAt gnu.now hash result }
{
    if in_bloom(gnu, hash) {
        chain_from(gnu.symoffset, bucket_of(gnu.buckets.as_slice(), hash))
    } else {
        None
    }
}

/// What is kept after a chain word: its symbol is a candidate where the word is the hash, but for its
/// lowest bit. No name is read otherwise.
fn after_word(search: &Search, best: Best, word: u32, hash: u32, index: usize) -> Best
    ensures { result ≡ (if word / 2 == hash / 2 then after search.now best index else best) }
{
    if word / 2 == hash / 2 {
        search.after(best, index)
    } else {
        best
    }
}

/// Whether no symbol behind this chain word counts.
fn is_last(word: u32, best: &Best) -> bool
    ensures { result ≡ (is_end word || is_some best.now.first) }
{
    is_end(word) || best.first.is_some()
}

/// The chain words from a place on.
fn words_from(gnu: &GnuPart, first: usize) -> &[u32]
    ensures { result.now ≡ drop first gnu.now.chain }
{
    let words = gnu.chain.as_slice();
    &words[first.min(words.len())..]
}

/// What is kept of a chain, from a place among the chain words on. It is over at the first that fits,
/// since those behind it have greater indexes.
fn walk(gnu: &GnuPart, hash: u32, first: u32, search: &Search) -> Best
    ensures { Knows search.now (Walked gnu.now hash (gnu.now.symoffset + first)) result }
{
    let start = gnu.symoffset as usize + first as usize;
    let mut best = Best::new();
    for (passed, word) in words_from(gnu, first as usize).iter().enumerate() {
        best = after_word(search, best, *word, hash, start + passed);
        if is_last(*word, &best) {
            return best;
        }
    }
    best
}

/// What is kept of the symbols that are reached by a hash.
pub(crate) fn best(gnu: &GnuPart, hash: u32, search: &Search) -> Best
    ensures { (name : List ℕ) → hash ≡ gnu_hash name → Knows search.now (ReachedByGnu gnu.now name) result }
{
    match chain_of(gnu, hash) {
        Some(first) => walk(gnu, hash, first, search),
        None => Best::new(),
    }
}
