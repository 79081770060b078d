//! A run on one thread at a moment.

ghost use Rattle.std.specs.Prelude.{◌≡◌, ◌<◌, ◌≤◌, length, IfSome};
ghost use Rattle.world_answers.specs.GuestsPart.GuestWorlds.Coming.{LeavesHart};
ghost use Rattle.world_answers.specs.GuestsPart.GuestWorlds.Worlds.{TakesOver};
ghost use Rattle.world_answers.specs.GuestsPart.Counting.{IsCounted, counts_at};
ghost use Rattle.world_answers.specs.GuestsPart.Next.{NextOpens, NextReadsNothing, NextTells};
ghost use Rattle.plain_world.specs.Playing.{InEachRun};
ghost use Rattle.plain_world.specs.Stretches.{RunsAlone, TakesNext, TakesStretch};
ghost use Rattle.plain_world.specs.Table.{moved};
ghost use Rattle.world_turns.specs.Run.{have_ended, is_starting};

use crate::harts::{have_ended, is_starting, last_running};
use crate::stretch::take_stretch;
use crate::turn::take_turn;
use hart_seat::LinkedHart;
use history_event::{HartEnd, HartEntry};
use ld_base::{HartId, Names};
use library_source::Library;
use link_state::LinkState;
use std::alloc::Global;
use std::marker::Model;
use world_answers::{Turn, runs_stay};
use world_memory::PlainMemory;

/// A run on one thread at a moment: the linker's state, guest memory, and the harts. Contracts see how many
/// harts it has, where it looks for libraries, with which registers its first hart starts, whether its final
/// destructors have begun, and its world.
#[derive(Drop)]
pub struct World {
    pub(crate) state: LinkState,
    pub(crate) memory: PlainMemory,
    /// In the order of their numbers.
    pub(crate) harts: Vec<LinkedHart>,
    /// Room for how each hart ends.
    pub(crate) ends: Vec<HartEnd>,
    pub(crate) folders: Names,
    /// With which registers the first hart starts.
    pub(crate) entry: HartEntry,
    /// Whether the final destructors have begun, or there are none to begin.
    pub(crate) begun: bool,
}

impl Model for World {
    ghost use Rattle.plain_world.specs.Table.{WorldTable};

    ghost Value = { WorldTable };

    ghost use Rattle.plain_world.specs.Inside.{IsKept, table_of};

    ghost view = { table_of };

    ghost invariant = { IsKept };
}

impl World {
    /// Takes the next turn of a hart. One that has ended is passed over.
    ///
    /// No turn but an opening reads the library. Where the library tells its files and no read fails, an opening
    /// that finds all that it needs opens, or its hart ends for want of memory. One that is refused for a read
    /// that failed, or for a missing library, shows that in the library's counts.
    #[inline(always)]
    pub fn turn<L: Library>(&mut self, alloc: Global, id: HartId, library: &mut L) -> Turn
        requires { id < self.old.count }
        ensures takes { TakesOver self.old.count self.old.folders (L.files library.old) id self.old.world self.new.world }
        ensures comes { LeavesHart self.old.world self.new.world id result }
        ensures tells { NextTells self.old.count self.old.folders (L.files library.old) self.old.world self.new.world.journal id result }
        ensures whole { NextOpens self.old.count self.old.folders (L.files library.old) (L.faults library.old) (L.faults library.new)
            self.old.world self.new.world.journal id result }
        ensures counts { IsCounted self.old.folders self.old.world self.new.world
            (counts_at L.faults L.misses library.old) (counts_at L.faults L.misses library.new) }
        ensures unread { NextReadsNothing self.old.world id → library.new ≡ library.old }
        ensures rest { self.new ≡ moved self.old self.new.world }
        ensures files { L.files library.new ≡ L.files library.old }
        ensures faults { L.faults library.old ≤ L.faults library.new }
        ensures misses { L.misses library.old ≤ L.misses library.new }
    {
        runs_stay();
        let harts = self.harts.as_mut_slice();
        take_turn(
            alloc,
            &mut self.state,
            &mut self.memory,
            harts,
            id,
            &self.folders,
            library,
        )
    }

    /// Takes the next turns of a hart, at most so many, but one at least: instructions, as long as nothing else is
    /// due, or else the next turn, whatever it is. Answers how many; a hart that has ended takes none.
    pub(crate) fn next_turns<L: Library>(
        &mut self,
        alloc: Global,
        id: HartId,
        most: u64,
        library: &mut L,
    ) -> u64
        requires hart { id < self.old.count }
        requires some { 0 < most }
        ensures takes { InEachRun self.old (L.files library.old) (λ w. TakesNext w id result self.old.world self.new.world) }
        ensures most { result ≤ most }
        ensures rest { self.new ≡ moved self.old self.new.world }
        ensures counts { IsCounted self.old.folders self.old.world self.new.world
            (counts_at L.faults L.misses library.old) (counts_at L.faults L.misses library.new) }
        ensures files { L.files library.new ≡ L.files library.old }
        ensures faults { L.faults library.old ≤ L.faults library.new }
        ensures misses { L.misses library.old ≤ L.misses library.new }
    {
        let taken = self.stretch(id, most);
        if taken > 0 {
            return taken;
        }
        match self.turn(alloc, id, library) {
            Turn::Idle => 0,
            _ => 1,
        }
    }

    /// Takes instructions of a hart, one after another, until something else is due or one stops it, and so many at
    /// most. Answers how many.
    fn stretch(&mut self, id: HartId, most: u64) -> u64
        requires { id < self.old.count }
        ensures takes { TakesStretch id result self.old.world self.new.world }
        ensures most { result ≤ most }
        ensures rest { self.new ≡ moved self.old self.new.world }
    {
        runs_stay();
        let harts = self.harts.as_mut_slice();
        take_stretch(&mut self.memory, harts, id, most)
    }

    /// How many harts there are.
    pub fn count(&self) -> u32
        ensures count { result ≡ self.now.count }
        ensures harts { length self.now.world.harts ≡ self.now.count }
    {
        let _ = &self.harts;
        self.state.harts()
    }

    /// Whether the first hart runs constructors of startup still.
    pub(crate) fn is_starting(&self) -> bool
        ensures { result ≡ is_starting self.now.world }
    {
        is_starting(self.harts.as_slice())
    }

    /// The hart that runs on, where each other one has ended.
    pub(crate) fn last_running(&self) -> Option<HartId>
        ensures { IfSome result (RunsAlone self.now.world.harts) }
    {
        let _ = self.count();
        last_running(self.harts.as_slice())
    }

    /// Whether each hart has ended.
    pub(crate) fn have_ended(&self) -> bool
        ensures { result ≡ have_ended self.now.world }
    {
        have_ended(self.harts.as_slice())
    }
}
