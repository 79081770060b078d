//! Following many links of a System V chain at once.
//!
//! Chains may share their ends, so that walking each of them by itself could take as many steps as
//! there are buckets times symbols. Here all walks go on together: trips of 1, 2, 4 .. links are
//! made from each symbol, and a walk takes those that make up the number of its steps.

ghost use Rattle.std.specs.Prelude.{◌≡◌, ℕ, ◌/◌, ◌%◌, ◌^◌, ◌<◌, ◌==◌, IfOk, Some, if◌then◌else◌, map, length};
ghost use Rattle.std.specs.List.{slice_get};
ghost use Rattle.sym_hash.specs.Follow.{begun, carried, then_trip, trip};

use std::alloc::{AllocError, Global};

/// Links that are followed one after another: where they lead to, and how many there are.
#[derive(Clone, Copy)]
pub(crate) struct Trip {
    pub(crate) end: u32,
    pub(crate) links: u64,
}

/// Where a walk begins, and how many steps it takes.
#[derive(Clone, Copy)]
pub(crate) struct Start {
    pub(crate) from: u32,
    pub(crate) steps: u32,
}

/// A walk of so many steps: how far it has come.
#[derive(Clone, Copy)]
struct Walk {
    trip: Trip,
    steps: u32,
}

impl Start {
    fn begun(self) -> Walk
        ensures { result ≡ begun self }
    {
        Walk {
            trip: Trip {
                end: self.from,
                links: 0,
            },
            steps: self.steps,
        }
    }
}

impl Trip {
    /// This trip, and then the one of these that begins where it ends, if there is one.
    fn then(self, trips: &[Trip]) -> Self
        ensures { result ≡ then_trip trips.now self }
    {
        let end = self.end as usize;
        if end < trips.len() {
            let next = trips[end];
            Trip {
                end: next.end,
                links: self.links.saturating_add(next.links),
            }
        } else {
            self
        }
    }
}

impl Walk {
    /// The walk, gone on by these trips where the number of its steps has this bit.
    fn carried(self, trips: &[Trip], bit: u32) -> Self
        requires { bit < 32 }
        ensures { result ≡ carried trips.now bit self }
    {
        if (self.steps >> bit) % 2 == 1 {
            Walk {
                trip: self.trip.then(trips),
                steps: self.steps,
            }
        } else {
            self
        }
    }
}

/// The trip of one link from a symbol; there is none from 0.
fn first_trip(symbol: usize, link: u32) -> Trip
    ensures { result ≡ (if symbol == 0 then record { end = 0; links = 0 } else record { end = link; links = 1 }) }
{
    if symbol == 0 {
        Trip { end: 0, links: 0 }
    } else {
        Trip {
            end: link,
            links: 1,
        }
    }
}

/// The trips of one link from each symbol.
fn first_trips(alloc: Global, chain: &[u32]) -> Result<Vec<Trip>, AllocError>
    ensures length { IfOk result (λ trips. length trips.items ≡ length chain.now) }
    ensures trips { IfOk result (λ trips. (at : ℕ) → at < length chain.now → slice_get trips.items at ≡ Some (trip chain.now 1 at)) }
{
    let mut trips = Vec::with_capacity(alloc, chain.len())?;
    for (symbol, link) in chain.iter().enumerate() {
        trips.push(first_trip(symbol, *link))?;
    }
    Ok(trips)
}

/// The trips of twice as many links.
fn doubled(alloc: Global, trips: &[Trip]) -> Result<Vec<Trip>, AllocError>
    ensures { IfOk result (λ all. all.items ≡ map (then_trip trips.now) trips.now) }
{
    trips.iter().map(|trip| trip.then(trips)).collect(alloc)
}

fn carry_all(
    alloc: Global,
    walks: &[Walk],
    trips: &[Trip],
    bit: u32,
) -> Result<Vec<Walk>, AllocError>
    requires { bit < 32 }
    ensures { IfOk result (λ all. all.items ≡ map (carried trips.now bit) walks.now) }
{
    walks
        .iter()
        .map(|walk| walk.carried(trips, bit))
        .collect(alloc)
}

/// The walks at their beginnings.
fn begun(alloc: Global, starts: &[Start]) -> Result<Vec<Walk>, AllocError>
    ensures { IfOk result (λ all. all.items ≡ map begun starts.now) }
{
    starts.iter().map(|start| start.begun()).collect(alloc)
}

fn trips_of(alloc: Global, walks: &[Walk]) -> Result<Vec<Trip>, AllocError>
    ensures { IfOk result (λ all. all.items ≡ map (λ w. w.trip) walks.now) }
{
    walks.iter().map(|walk| walk.trip).collect(alloc)
}

/// The trips of all these walks along a chain.
pub(crate) fn follow_all(
    alloc: Global,
    chain: &[u32],
    starts: &[Start],
) -> Result<Vec<Trip>, AllocError>
    ensures { IfOk result (λ all. all.items ≡ map (λ s. trip chain.now (s.steps % 2 ^ 32) s.from) starts.now) }
{
    let mut walks = begun(alloc, starts)?;
    let mut trips = first_trips(alloc, chain)?;
    for bit in 0..u32::BITS {
        walks = carry_all(alloc, &walks, &trips, bit)?;
        trips = doubled(alloc, &trips)?;
    }
    trips_of(alloc, &walks)
}
