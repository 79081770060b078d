//! Walks of a System V table.

ghost use Rattle.std.specs.Prelude.{◌≡◌, ◌==◌, ◌||◌, ℕ, List, if◌then◌else◌, length, slice_index};
ghost use Rattle.sym_hash.specs.Hash.{sysv_hash};
ghost use Rattle.sym_hash.specs.Reached.{ReachedBySysv};
ghost use Rattle.sym_lookup.specs.SymFind.Best.{Knows, after, precedes};
ghost use Rattle.sym_lookup.specs.SymFind.Walks.{Linked};

use crate::sym_find::best::{Best, Search};
use crate::sym_find::gnu::bucket_of;
use ld_base::SysvPart;

/// The link of a symbol, 0 where there is none.
fn link(chain: &[u32], at: u32) -> u32
    ensures { result ≡ slice_index chain.now at }
{
    if (at as usize) < chain.len() {
        chain[at as usize]
    } else {
        0
    }
}

/// What is kept with a symbol on the way more. One behind the first that fits changes nothing: its name
/// isn't read.
fn after_link(search: &Search, best: Best, at: u32) -> Best
    ensures { result ≡ (if precedes best at then best else after search.now best at) }
{
    if best.precedes(at) {
        best
    } else {
        search.after(best, at as usize)
    }
}

/// Whether a walk is at its end, or the first that fits is the first that the object may export.
fn is_over(search: &Search, best: &Best, at: u32) -> bool
    ensures { result ≡ (at == 0 || precedes best.now search.now.object.now.first_exported) }
{
    at == 0 || best.precedes(search.object.first_exported)
}

/// What is kept of the symbols on the way from a bucket, of which there are as many as chain words at
/// most, also where the way leads back.
fn walk(chain: &[u32], bucket: u32, search: &Search) -> Best
    ensures { Knows search.now (Linked chain.now bucket (length chain.now)) result }
{
    let mut best = Best::new();
    let mut at = bucket;
    for passed in 0..chain.len() {
        if is_over(search, &best, at) {
            return best;
        }
        best = after_link(search, best, at);
        at = link(chain, at);
    }
    best
}

/// What is kept of the symbols that are reached by a hash.
pub(crate) fn best(sysv: &SysvPart, hash: u32, search: &Search) -> Best
    ensures { (name : List ℕ) → hash ≡ sysv_hash name → Knows search.now (ReachedBySysv sysv.now name) result }
{
    let buckets = sysv.buckets.as_slice();
    let chain = sysv.chain.as_slice();
    match bucket_of(buckets, hash) {
        Some(bucket) => walk(chain, bucket, search),
        None => Best::new(),
    }
}
