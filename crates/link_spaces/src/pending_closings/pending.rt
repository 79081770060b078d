//! One closing.

ghost use Rattle.std.specs.Prelude.{◌≡◌, ◌≤◌, [], IfOk, OnOk, OnErr};
ghost use Rattle.std.specs.Vec.{vec_capacity};
ghost use Rattle.link_spaces.specs.PendingClosingsPart.Pending.{with_more};

use history_event::Range;
use ld_base::{HartId, Loaded, Serial, Serials};
use std::alloc::{AllocError, Global};
use std::marker::Model;

/// A closing whose objects aren't unmapped yet. Contracts see its hart and its objects, and for how many
/// objects and ranges there is room.
#[derive(Drop)]
pub struct Pending {
    hart: HartId,
    set: Serials,
    objects: Vec<Loaded>,
    ranges: Vec<Range>,
    room: usize,
}

impl Model for Pending {
    ghost use Rattle.std.specs.Prelude.{◌≡◌, ◌≤◌, []};
    ghost use Rattle.std.specs.Vec.{vec_capacity};
    ghost use Rattle.link_spaces.specs.PendingClosingsPart.Pending.{PendingClosing};

    ghost Value = { PendingClosing };

    ghost view = { λ p. record { hart = p.hart; set = p.set; objects = vec_capacity p.objects; ranges = p.room } };

    ghost invariant = { λ p. (p.objects.items ≡ []) × (p.ranges.items ≡ []) × (p.room ≤ vec_capacity p.ranges) };
}

impl Pending {
    /// A closing of these objects by a hart, with room for so many objects and ranges.
    ///
    /// # Errors
    ///
    /// Want of memory.
    pub fn new(
        alloc: Global,
        hart: HartId,
        set: Serials,
        objects: usize,
        ranges: usize,
    ) -> Result<Self, AllocError>
        ensures hart { IfOk result (λ p. p.hart ≡ hart) }
        ensures set { IfOk result (λ p. p.set ≡ set) }
        ensures objects { IfOk result (λ p. objects ≤ p.objects) }
        ensures ranges { IfOk result (λ p. p.ranges ≡ ranges) }
    {
        let room = ranges;
        let objects = Vec::with_capacity(alloc, objects)?;
        let ranges = Vec::with_capacity(alloc, room)?;
        Ok(Pending {
            hart,
            set,
            objects,
            ranges,
            room,
        })
    }

    /// Its hart.
    pub fn hart(&self) -> HartId
        ensures { result ≡ self.now.hart }
    {
        self.hart
    }

    /// Its objects.
    pub fn set(&self) -> &[Serial]
        ensures { result.now ≡ self.now.set }
    {
        self.set.as_slice()
    }

    /// Makes room for a range more.
    ///
    /// # Errors
    ///
    /// Want of memory. Nothing has changed then.
    pub fn make_room(&mut self) -> Result<(), AllocError>
        ensures ok { OnOk result (self.new ≡ with_more self.old) }
        ensures err { OnErr result (self.new ≡ self.old) }
    {
        let Some(room) = self.room.checked_add(1) else {
            return Err(AllocError);
        };
        self.ranges.reserve(room)?;
        self.room = room;
        Ok(())
    }

    /// Its objects, and the lists for what goes: they are empty, and have the room.
    pub fn into_lists(self) -> (Serials, Vec<Loaded>, Vec<Range>)
        ensures set { result.0 ≡ self.set }
        ensures no_objects { result.1.items ≡ [] }
        ensures no_ranges { result.2.items ≡ [] }
        ensures objects { self.objects ≤ vec_capacity result.1 }
        ensures ranges { self.ranges ≤ vec_capacity result.2 }
    {
        let Pending {
            set,
            objects,
            ranges,
            ..
        } = self;
        (set, objects, ranges)
    }
}
