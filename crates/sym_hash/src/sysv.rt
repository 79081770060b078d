//! System V hash tables (gABI, "Hash Table").

ghost use Rattle.std.specs.Prelude.{◌≡◌, ℕ, ◌^◌, ◌<◌, ◌==◌, ◌&&◌, not, nat_le, IfOk, None, Some, if◌then◌else◌, length, map, slice_index};
ghost use Rattle.ld_base.specs.Symbol.{is_visible_definition};
ghost use Rattle.std.specs.List.{list_all, slice_get};
ghost use Rattle.std.specs.Option.{option_or};
ghost use Rattle.sym_hash.specs.Follow.{AreTrips, arrives, start_to, trip_from};
ghost use Rattle.sym_hash.specs.Hashed.{first_lost};
ghost use Rattle.sym_hash.specs.Sysv.{sysv_bucket, sysv_leads, sysv_walks_end};

use crate::follow::{Start, Trip, follow_all};
use crate::gnu::bucket_of;
use ld_base::{Symbol, SysvPart};
use std::alloc::{AllocError, Global};

/// The trips from each symbol of as many links as there are chain words.
fn full_trips(alloc: Global, chain: &[u32]) -> Result<Vec<Trip>, AllocError>
    requires { length chain.now < 2 ^ 32 }
    ensures { IfOk result (λ trips. AreTrips chain.now (length chain.now) trips.items) }
{
    let steps = chain.len() as u32;
    let mut starts = Vec::with_capacity(alloc, chain.len())?;
    for from in 0..steps {
        starts.push(Start { from, steps })?;
    }
    follow_all(alloc, chain, &starts)
}

/// The trip from a symbol.
fn trip_from(trips: &[Trip], at: u32) -> Trip
    ensures { result ≡ trip_from trips.now at }
{
    if (at as usize) < trips.len() {
        trips[at as usize]
    } else {
        Trip { end: at, links: 0 }
    }
}

/// Whether each of these trips comes to 0.
fn all_end(trips: &[Trip], buckets: &[u32]) -> bool
    ensures { result ≡ list_all (λ b. (trip_from trips.now b).end == 0) buckets.now }
{
    buckets
        .iter()
        .all(|bucket| trip_from(trips, *bucket).end == 0)
}

/// The walk from a bucket that comes to a symbol, if any does.
fn start_to(trips: &[Trip], bucket: u32, symbol: u32) -> Start
    requires { (at : ℕ) → (trip_from trips.now at).links < 2 ^ 32 }
    ensures { result ≡ start_to trips.now bucket symbol }
{
    let whole = trip_from(trips, bucket).links;
    let rest = trip_from(trips, symbol).links;
    Start {
        from: bucket,
        steps: whole.saturating_sub(rest) as u32,
    }
}

/// The walks to each symbol, from the bucket of its hash.
fn starts_of(
    alloc: Global,
    sysv: &SysvPart,
    trips: &[Trip],
    hashes: &[u32],
) -> Result<Vec<Start>, AllocError>
    requires short { (at : ℕ) → (trip_from trips.now at).links < 2 ^ 32 }
    requires few { length hashes.now < 2 ^ 32 }
    ensures length { IfOk result (λ starts. length starts.items ≡ length hashes.now) }
    ensures starts { IfOk result (λ starts. (i hash : ℕ) → slice_get hashes.now i ≡ Some hash
        → slice_get starts.items i ≡ Some (start_to trips.now (sysv_bucket sysv.now hash) i)) }
{
    let mut starts = Vec::with_capacity(alloc, hashes.len())?;
    for (index, hash) in hashes.iter().enumerate() {
        let bucket = bucket_of(sysv.buckets.as_slice(), *hash).unwrap_or(0);
        starts.push(start_to(trips, bucket, index as u32))?;
    }
    Ok(starts)
}

/// Whether the walk to a symbol has come to it.
fn arrives(arrived: &[Trip], symbol: u32) -> bool
    ensures { result ≡ arrives arrived.now symbol }
{
    symbol != 0 && trip_from(arrived, symbol).end == symbol
}

/// Whether the symbol is an exported definition to which its walk hasn't come.
fn is_lost(arrived: &[Trip], symbol: &Symbol, first: u32, index: u32) -> bool
    ensures { result ≡ (nat_le first index && is_visible_definition symbol.now && not (arrives arrived.now index)) }
{
    index >= first && symbol.is_visible_definition() && !arrives(arrived, index)
}

/// The first exported definition to which its walk hasn't come.
#[tactic(auto, unfolding(crate::specs::Hashed::first_lost), using(crate::proofs::Following::lost_here, crate::proofs::Following::not_lost))]
fn first_lost(symbols: &[Symbol], arrived: &[Trip], first: u32) -> Option<usize>
    requires { length symbols.now < 2 ^ 32 }
    ensures { result ≡ first_lost (arrives arrived.now) (map is_visible_definition symbols.now) first }
{
    for (index, symbol) in symbols.iter().enumerate() {
        if is_lost(arrived, symbol, first, index as u32) {
            return Some(index);
        }
    }
    None
}

/// What breaks rule 19, of symbols whose names have these hashes.
#[tactic(auto, using(crate::proofs::Following::links_few))]
pub(crate) fn unmet(
    alloc: Global,
    sysv: &SysvPart,
    symbols: &[Symbol],
    hashes: &[u32],
    first: u32,
) -> Result<Option<usize>, AllocError>
    requires chain { length sysv.now.chain < 2 ^ 32 }
    requires few { length symbols.now < 2 ^ 32 }
    requires same { length hashes.now ≡ length symbols.now }
    ensures { IfOk result (λ number. number ≡ option_or (if sysv_walks_end sysv.now then None
        else Some 0) (first_lost (λ i. sysv_leads sysv.now (slice_index hashes.now i) i) (map is_visible_definition symbols.now) first)) }
{
    let chain = sysv.chain.as_slice();
    let trips = full_trips(alloc, chain)?;
    if !all_end(&trips, sysv.buckets.as_slice()) {
        return Ok(Some(0));
    }
    let starts = starts_of(alloc, sysv, &trips, hashes)?;
    let arrived = follow_all(alloc, chain, &starts)?;
    Ok(first_lost(symbols, &arrived, first))
}
