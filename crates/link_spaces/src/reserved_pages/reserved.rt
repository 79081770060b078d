//! The ranges and the free pages.

ghost use Rattle.std.specs.Prelude.{◌≡◌, ℕ, ◌+◌, ◌<◌, ◌≤◌, [], ◌∷◌, ◌++◌, count_by, filter, not, IfErr, IfOk, OnErr, OnOk};
ghost use Rattle.std.specs.Vec.{vec_capacity, vec_len};
ghost use Rattle.address_space.specs.Pages.{AllFree, Fits, IsFirstFit, without};
ghost use Rattle.history_state.specs.Areas.{free_pages};
ghost use Rattle.history_state.specs.Step.{goes_with, purpose_goes};
ghost use Rattle.link_spaces.specs.ReservedPagesPart.Laid.{AreLaid};

use address_space::{NoRoom, Regions};
use history_event::{Purpose, Range};
use history_graph::SerialSet;
use ld_base::Serial;
use std::alloc::{AllocError, Global};
use std::marker::Model;

/// Ranges of reserved pages. Contracts see them in the order in which they were reserved, with the room for
/// more; the free pages are those that none of them has.
#[derive(Drop)]
pub struct ReservedPages {
    ranges: Vec<Range>,
    regions: Regions,
}

impl Model for ReservedPages {
    ghost use Rattle.std.specs.Prelude.{◌≡◌, ◌-◌, []};
    ghost use Rattle.std.specs.Vec.{vec_capacity, vec_len};
    ghost use Rattle.history_state.specs.Areas.{free_pages};
    ghost use Rattle.link_spaces.specs.ReservedPagesPart.Laid.{AreLaid, RangeList};

    ghost Value = { RangeList };

    ghost view = { λ r. record { ranges = r.ranges.items; spare = vec_capacity r.ranges - vec_len r.ranges } };

    ghost invariant = { λ r. (r.regions ≡ free_pages r.ranges.items) × AreLaid [] r.ranges.items };
}

impl ReservedPages {
    /// Nothing is reserved.
    pub fn new(alloc: Global) -> Self
        ensures { result.ranges ≡ [] }
    {
        ReservedPages {
            ranges: Vec::new(alloc),
            regions: Regions::new(),
        }
    }

    /// The ranges as a slice.
    pub fn as_slice(&self) -> &[Range]
        ensures { result.now ≡ self.now.ranges }
    {
        self.ranges.as_slice()
    }

    /// The free pages.
    pub fn regions(&self) -> &Regions
        ensures { result.now ≡ free_pages self.now.ranges }
    {
        &self.regions
    }

    /// Makes room for so many ranges more.
    ///
    /// # Errors
    ///
    /// Want of memory.
    pub fn make_room(&mut self, more: usize) -> Result<(), AllocError>
        ensures room { OnOk result (more ≤ self.new.spare) }
        ensures ranges { self.new.ranges ≡ self.old.ranges }
    {
        self.ranges.reserve(more)
    }

    /// Reserves so many pages from an address on, which are free.
    pub fn push(&mut self, address: u64, pages: u64, purpose: Purpose)
        requires room { 0 < self.old.spare }
        requires free { AllFree (free_pages self.old.ranges) address pages }
        ensures ranges { self.new.ranges ≡ self.old.ranges ++ record { address = address; pages = pages; purpose = purpose } ∷ [] }
        ensures spare { self.new.spare + 1 ≡ self.old.spare }
    {
        reserve_at(&mut self.regions, address, pages);
        self.ranges.push_reserved(Range {
            address,
            pages,
            purpose,
        });
    }

    /// Reserves so many pages at the least address that is a multiple of `align` and has room for them.
    ///
    /// # Errors
    ///
    /// That there is no room, with the pages that were asked for. Nothing is reserved then.
    pub fn reserve(&mut self, pages: u64, align: u64, purpose: Purpose) -> Result<u64, NoRoom>
        requires room { 0 < self.old.spare }
        requires some { 0 < pages }
        requires align { 0 < align }
        ensures fit { IfOk result (IsFirstFit (free_pages self.old.ranges) pages align) }
        ensures ranges { IfOk result (λ address.
            self.new.ranges ≡ self.old.ranges ++ record { address = address; pages = pages; purpose = purpose } ∷ []) }
        ensures full { OnErr result ((address : ℕ) → ¬ (Fits (free_pages self.old.ranges) pages align address)) }
        ensures asked { IfErr result (λ e. e.0 ≡ pages) }
        ensures err { OnErr result (self.new ≡ self.old) }
    {
        let address = self.regions.reserve(pages, align)?;
        self.ranges.push_reserved(Range {
            address,
            pages,
            purpose,
        });
        Ok(address)
    }

    /// How many ranges go with some objects, their pages and blocks.
    pub fn count_going(&self, set: &[Serial]) -> usize
        ensures { result ≡ count_by (goes_with set.now) self.now.ranges }
    {
        let set = SerialSet::new(set);
        self.ranges
            .iter()
            .filter(|range| goes_with(range.purpose, &set))
            .count()
    }

    /// Gives back the ranges that go with some objects, their pages and blocks, and puts them behind others.
    pub fn remove(&mut self, set: &[Serial], gone: &mut Vec<Range>)
        requires { vec_len gone.old + count_by (goes_with set.now) self.old.ranges ≤ vec_capacity gone.old }
        ensures ranges { self.new.ranges ≡ filter (λ r. not (goes_with set.now r)) self.old.ranges }
        ensures gone { gone.new.items ≡ gone.old.items ++ filter (goes_with set.now) self.old.ranges }
    {
        let set = SerialSet::new(set);
        push_going(self.ranges.as_slice(), &set, gone);
        self.ranges.retain(|range| !goes_with(range.purpose, &set));
        self.regions = regions_beside(self.ranges.as_slice());
    }
}

/// Reserves so many pages from an address on, which are free.
fn reserve_at(regions: &mut Regions, address: u64, pages: u64)
    requires { AllFree regions.old address pages }
    ensures { regions.new ≡ without regions.old address pages }
{
    let _ = regions.reserve_at(address, pages);
}

/// The pages that no range has.
fn regions_beside(ranges: &[Range]) -> Regions
    requires { AreLaid [] ranges.now }
    ensures { result ≡ free_pages ranges.now }
{
    let mut regions = Regions::new();
    for range in ranges {
        reserve_at(&mut regions, range.address, range.pages);
    }
    regions
}

/// Puts the ranges that go with some objects at the end of others.
fn push_going(ranges: &[Range], set: &SerialSet, gone: &mut Vec<Range>)
    requires { vec_len gone.old + count_by (goes_with set.now) ranges.now ≤ vec_capacity gone.old }
    ensures { gone.new.items ≡ gone.old.items ++ filter (goes_with set.now) ranges.now }
{
    for range in ranges {
        if goes_with(range.purpose, set) {
            gone.push_reserved(*range);
        }
    }
}

/// Whether pages for this go with some objects.
fn goes_with(purpose: Purpose, set: &SerialSet) -> bool
    ensures { result ≡ purpose_goes set.now purpose }
{
    match purpose {
        Purpose::Object(serial) | Purpose::Block(_, serial) => set.has(serial),
        Purpose::Stack(_) | Purpose::StaticTls(_) => false,
    }
}
