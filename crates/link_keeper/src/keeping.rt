//! What the lock keeps.

ghost use Rattle.std.specs.Prelude.{◌≡◌, ◌⊎◌, ◌≤◌, ◌<◌, false, true, drop, length, Some, Contains};
ghost use Rattle.tls_blocks.specs.Blocks.{BlockTable};
ghost use Rattle.hart_linker.specs.Between.{BlocksFit, HasHeard, Hears, IsBetweenTurns};
ghost use Rattle.hart_linker.specs.Finals.{BeginsLast};
ghost use Rattle.hart_moves.specs.Due.{due, is_finalising};
ghost use Rattle.hart_moves.specs.Starting.{starting_registers};
ghost use Rattle.history_calls.specs.Laws.{hart_of};
ghost use Rattle.history_event.specs.declared.event.Event.{Event};
ghost use Rattle.history_event.specs.declared.hart_end.HartEnd.TheVariants.{Exit};
ghost use Rattle.history_state.specs.After.{after};
ghost use Rattle.history_state.specs.Owed.{times_ended};
ghost use Rattle.history_state.specs.State.{State};
ghost use Rattle.link_keeper.specs.Keeping.{IsClosed, LockKeeps};
ghost use Rattle.link_keeper.specs.Settling.{SettlesFirst, SettlesOrRests};
ghost use Rattle.hart_linker.specs.Serving.{EndsTurn, ServesTurn, WasRunning, is_asking};
ghost use Rattle.word_rule.specs.Views.{BeginsWith};

use crate::beginning::begin_finals;
use crate::ends::end_hart;
use crate::finalising::finalise_hart;
use crate::hearing::hear;
use crate::serving::serve_hart;
use hart_linker::{Beginning, HartBlocks, Linker, RunNaming};
use hart_seat::LinkedHart;
use history_event::{HartEnd, HartEntry};
use ld_base::Names;
use library_source::Library;
use link_state::LinkState;
use std::alloc::Global;
use std::marker::Model;
use std::sync::{Mutex, Wait};
use word_memory::{HartSeat, KeeperSeat, Memory};
use world_turns::counts_show;

/// The linker's state, the keeper's seat, and what openings read. Contracts see it as the keeper's view.
#[derive(Drop)]
pub(crate) struct Locked<J: RunNaming, L: Library + Drop> {
    pub(crate) alloc: Global,
    pub(crate) state: LinkState,
    pub(crate) seat: KeeperSeat<J>,
    pub(crate) folders: Names,
    pub(crate) library: L,
}

impl<J: RunNaming, L: Library + Drop> Model for Locked<J, L> {
    ghost use Rattle.word_rule.specs.declared.view.KeeperView.{KeeperView};
    ghost use Rattle.link_keeper.specs.Keeping.{LockKeeps};

    ghost Value = { KeeperView };

    ghost view = { λ s. s.seat };

    ghost invariant = { λ s. LockKeeps J.setting J.journal J.counts s.state s.seat s.folders (L.files s.library)
        (record { faults = L.faults s.library; misses = L.misses s.library }) };
}

impl<J: RunNaming, L: Library + Drop> Locked<J, L> {
    /// Takes a hart's turn that asks.
    fn serve<R: Wait>(
        &mut self,
        rt: &R,
        memory: &Memory<J>,
        seat: &mut HartSeat<J>,
        hart: &mut LinkedHart,
        blocks: &mut HartBlocks,
    )
        requires between { IsBetweenTurns J.setting J.journal seat.old hart.old.hart blocks.old }
        requires asks { (s : State) → is_asking (due s hart.old.hart) ≡ true }
        ensures settled { SettlesFirst J.setting seat.old.number self.old self.new }
        ensures turn { ServesTurn J.setting seat.old seat.new hart.old.hart hart.new.hart }
        ensures between { IsBetweenTurns J.setting J.journal seat.new hart.new.hart blocks.new }
    {
        counts_show();
        serve_hart(
            rt,
            self.alloc,
            memory,
            &mut self.seat,
            &mut self.state,
            seat,
            hart,
            blocks,
            &self.folders,
            &mut self.library,
        );
    }

    /// Takes the turn of the first hart in which the final destructors of an object have run. Nothing is
    /// appended but with an event of that hart.
    fn finalise<R: Wait>(
        &mut self,
        rt: &R,
        memory: &Memory<J>,
        seat: &mut HartSeat<J>,
        hart: &mut LinkedHart,
        blocks: &mut HartBlocks,
    )
        requires between { IsBetweenTurns J.setting J.journal seat.old hart.old.hart blocks.old }
        requires last { (s : State) → is_finalising (due s hart.old.hart) ≡ true }
        ensures turn { ServesTurn J.setting seat.old seat.new hart.old.hart hart.new.hart }
        ensures between { IsBetweenTurns J.setting J.journal seat.new hart.new.hart blocks.new }
        ensures settled { SettlesOrRests J.setting seat.old.number self.old self.new }
        ensures only { (self.new.events ≡ self.old.events)
            ⊎ ((e : Event) × Contains (drop (length self.old.events) self.new.events) e × (hart_of e ≡ Some 0)) }
    {
        counts_show();
        finalise_hart(
            rt,
            self.alloc,
            memory,
            &mut self.seat,
            &mut self.state,
            seat,
            hart,
            blocks,
        );
    }

    /// Ends a hart in a turn whose calls of the bus are over.
    fn end<R: Wait>(
        &mut self,
        rt: &R,
        memory: &Memory<J>,
        seat: &mut HartSeat<J>,
        hart: &mut LinkedHart,
        reason: HartEnd,
    )
        requires heard { HasHeard J.setting J.journal seat.old }
        requires run { WasRunning J.setting seat.old }
        requires calling { seat.old.lane.calling ≡ false }
        ensures settled { SettlesFirst J.setting seat.old.number self.old self.new }
        ensures turn { EndsTurn J.setting seat.old seat.new reason hart.old.hart hart.new.hart }
        ensures heard { HasHeard J.setting J.journal seat.new }
        ensures calling { seat.new.lane.calling ≡ false }
        ensures blocks { (d : BlockTable) → BlocksFit d seat.old → BlocksFit d seat.new }
    {
        counts_show();
        end_hart(
            rt,
            memory,
            &mut self.seat,
            &mut self.state,
            seat,
            hart,
            reason,
        );
    }

    /// Tells two harts of all events: they have heard of the same then.
    fn tell(&mut self, memory: &Memory<J>, one: &mut HartSeat<J>, other: &mut HartSeat<J>)
        requires one { HasHeard J.setting J.journal one.old }
        requires one_calling { one.old.lane.calling ≡ false }
        requires other { HasHeard J.setting J.journal other.old }
        requires other_calling { other.old.lane.calling ≡ false }
        ensures one { Hears J.setting J.journal one.old one.new }
        ensures other { Hears J.setting J.journal other.old other.new }
        ensures same { other.new.heard ≡ one.new.heard }
    {
        hear(memory, &mut self.seat, one);
        hear(memory, &mut self.seat, other);
    }

    /// The final destructors begin, if every hart has ended by exit and an object is left.
    fn begin_finals<R: Wait>(
        &mut self,
        rt: &R,
        memory: &Memory<J>,
        seat: &mut HartSeat<J>,
        hart: &mut LinkedHart,
        blocks: &mut HartBlocks,
        entry: HartEntry,
        code: u64,
    ) -> Beginning
        requires first { seat.old.number ≡ 0 }
        requires some { 0 < J.setting.machine.harts }
        requires between { IsBetweenTurns J.setting J.journal seat.old hart.old.hart blocks.old }
        requires calling { seat.old.lane.calling ≡ false }
        requires exited { hart.old.hart.«end» ≡ Some (Exit code) }
        requires once { times_ended 0 (after seat.old.heard).endings ≤ 1 }
        ensures settled { SettlesOrRests J.setting seat.old.number self.old self.new }
        ensures begins { BeginsLast J.setting (starting_registers entry) seat.old seat.new hart.old.hart hart.new.hart result }
        ensures same { seat.new.number ≡ seat.old.number }
        ensures longer { BeginsWith seat.new.heard seat.old.heard }
        ensures calling { seat.new.lane.calling ≡ false }
        ensures between { IsBetweenTurns J.setting J.journal seat.new hart.new.hart blocks.new }
    {
        counts_show();
        begin_finals(
            rt,
            self.alloc,
            memory,
            &mut self.seat,
            &mut self.state,
            seat,
            hart,
            blocks,
            entry,
            code,
        )
    }
}

/// The keeper behind its lock.
#[derive(Drop)]
pub struct Keeper<J: RunNaming, L: Library + Drop> {
    lock: Mutex<Locked<J, L>>,
}

impl<J: RunNaming, L: Library + Drop> Keeper<J, L> {
    /// A keeper of a state, whose harts' seats were made.
    pub fn new(
        alloc: Global,
        state: LinkState,
        seat: KeeperSeat<J>,
        folders: Names,
        library: L,
    ) -> Self
        requires { LockKeeps J.setting J.journal J.counts state seat folders (L.files library)
            (record { faults = L.faults library; misses = L.misses library }) }
    {
        Keeper {
            lock: Mutex::new(Locked {
                alloc,
                state,
                seat,
                folders,
                library,
            }),
        }
    }

    /// What was behind the lock: the state, the keeper's seat and the library.
    pub fn close(self) -> (LinkState, KeeperSeat<J>, L)
        ensures { IsClosed J.setting J.journal J.counts result.0 result.1 (L.files result.2)
            (record { faults = L.faults result.2; misses = L.misses result.2 }) }
    {
        let Locked {
            alloc: _,
            state,
            seat,
            folders: _,
            library,
        } = self.lock.into_inner();
        (state, seat, library)
    }
}

impl<J: RunNaming, L: Library + Drop> Linker<J> for Keeper<J, L> {
    fn serve<R: Wait>(
        &self,
        rt: &R,
        memory: &Memory<J>,
        seat: &mut HartSeat<J>,
        hart: &mut LinkedHart,
        blocks: &mut HartBlocks,
    ) {
        self.lock.lock(rt).serve(rt, memory, seat, hart, blocks);
    }

    fn finalise<R: Wait>(
        &self,
        rt: &R,
        memory: &Memory<J>,
        seat: &mut HartSeat<J>,
        hart: &mut LinkedHart,
        blocks: &mut HartBlocks,
    ) {
        self.lock.lock(rt).finalise(rt, memory, seat, hart, blocks);
    }

    fn end<R: Wait>(
        &self,
        rt: &R,
        memory: &Memory<J>,
        seat: &mut HartSeat<J>,
        hart: &mut LinkedHart,
        reason: HartEnd,
    ) {
        self.lock.lock(rt).end(rt, memory, seat, hart, reason);
    }

    fn tell<R: Wait>(
        &self,
        rt: &R,
        memory: &Memory<J>,
        one: &mut HartSeat<J>,
        other: &mut HartSeat<J>,
    ) {
        self.lock.lock(rt).tell(memory, one, other);
    }

    fn begin_finals<R: Wait>(
        &self,
        rt: &R,
        memory: &Memory<J>,
        seat: &mut HartSeat<J>,
        hart: &mut LinkedHart,
        blocks: &mut HartBlocks,
        entry: HartEntry,
        code: u64,
    ) -> Beginning {
        self.lock
            .lock(rt)
            .begin_finals(rt, memory, seat, hart, blocks, entry, code)
    }
}
