//! The records of new objects.

ghost use Rattle.std.specs.Prelude.{◌≡◌, drop, take, IfOk};
ghost use Rattle.scope_rule.specs.Load.{record_of};
ghost use Rattle.load_walk.specs.Plan.{is_deep};
ghost use Rattle.load_walk.specs.Records.{AddsRecord, IsShare, added_by, preload_count};

use crate::arrivals::Arrivals;
use crate::ask::LoadAsk;
use ld_base::{Added, Loaded, Serial, Serials, State};
use scope_rule::Arrival;
use std::alloc::{AllocError, Global};

/// What is a new object's own, beside the object: its serial, what its names found, and the place of
/// the serials behind these.
pub(crate) struct Share {
    pub serial: Serial,
    pub found: Serials,
    pub end: usize,
}

/// So many of the serials, from a place on.
fn serials_at(
    alloc: Global,
    found: &[Serial],
    start: usize,
    count: usize,
) -> Result<Serials, AllocError>
    ensures { IfOk result (λ serials. serials ≡ take count (drop start found.now)) }
{
    let rest = found.get(start..).ok_or(AllocError)?;
    Serials::from_slice(alloc, rest.get(..count).ok_or(AllocError)?)
}

/// What is the next new object's own, which has so many names more than it needs, and whose names
/// found the serials from a place on.
fn share_of(
    alloc: Global,
    ask: &LoadAsk,
    found: &[Serial],
    start: usize,
    more: usize,
    added: &Added,
    arrival: &Arrival,
) -> Result<Share, AllocError>
    ensures { IfOk result (λ share. IsShare ask.now found.now start more added.now arrival.now share) }
{
    let count = more.checked_add(arrival.object.needed.len());
    let count = count.ok_or(AllocError)?;
    let end = start.checked_add(count).ok_or(AllocError)?;
    let number = ask.next.number().checked_add(added.len() as u64);
    Ok(Share {
        serial: Serial::new(number.ok_or(AllocError)?),
        found: serials_at(alloc, found, start, count)?,
        end,
    })
}

/// The record of a new object, which isn't placed yet.
fn record_of(ask: &LoadAsk, serial: Serial, arrival: Arrival, found: Serials) -> Loaded
    ensures { result ≡ record_of ask.now.hart (is_deep ask.now) serial arrival found }
{
    Loaded {
        serial,
        path: arrival.path,
        object: arrival.object,
        table: arrival.table,
        base: 0,
        state: State::Initialising(ask.hart),
        module: None,
        deep: ask.deep && !ask.program,
        found,
    }
}

/// Adds the record of the next new object. The place of the serials behind its own.
fn add_record(
    alloc: Global,
    ask: &LoadAsk,
    found: &[Serial],
    start: usize,
    more: usize,
    added: &mut Added,
    arrival: Arrival,
) -> Result<usize, AllocError>
    ensures { IfOk result (λ end. AddsRecord ask.now found.now start more added.old arrival added.new end) }
{
    let Share { serial, found, end } = share_of(alloc, ask, found, start, more, added, &arrival)?;
    added.push(record_of(ask, serial, arrival, found))?;
    Ok(end)
}

/// How many names the first object has more than it needs: the preload names of a program.
fn preload_count(ask: &LoadAsk) -> usize
    ensures { result ≡ preload_count ask.now }
{
    if ask.program { ask.preload.len() } else { 0 }
}

/// The records of new objects, each with what its names found: the serials behind the first.
#[tactic(auto, using(crate::proofs::Planning::none_so_far, crate::proofs::Planning::one_more))]
pub(crate) fn records(
    alloc: Global,
    ask: &LoadAsk,
    found: &[Serial],
    arrivals: Arrivals,
) -> Result<Added, AllocError>
    ensures { IfOk result (λ added. added ≡ added_by ask.now found.now arrivals) }
{
    let mut added = Added::new(alloc);
    let mut start = 1;
    let mut more = preload_count(ask);
    for arrival in arrivals.into_vec() {
        start = add_record(alloc, ask, found, start, more, &mut added, arrival)?;
        more = 0;
    }
    Ok(added)
}
