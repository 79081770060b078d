//! The loop of one hart.

ghost use Rattle.std.specs.Prelude.{◌≡◌, ◌<◌, true, false, None, IsSome};
ghost use Rattle.std.specs.List.{list_any};
ghost use Rattle.hart_moves.specs.Due.{Due as is_due, back, due, is_finalising};
ghost use Rattle.hart_moves.specs.Harts.{is_startup_frame};
ghost use Rattle.hart_threads.specs.Next.{HoldsSlot};
ghost use Rattle.hart_threads.specs.Run.{HoldsNoSlot, IsBegun, IsCalm, RunsOn};
ghost use Rattle.hart_threads.specs.Turns.{SpendsFuel};
ghost use Rattle.hart_trails.specs.Trails.{is_located};
ghost use Rattle.hart_turns.specs.Turns.{is_own};
ghost use Rattle.history_calls.specs.Call.{locates};
ghost use Rattle.history_state.specs.State.{State};
ghost use Rattle.hart_linker.specs.Between.{IsBetweenTurns};
ghost use Rattle.hart_linker.specs.Serving.{is_asking};

use crate::binding::bind_slot;
use crate::keeping::kept_block;
use crate::next::{Next, holds_no_slot, next_turn};
use crate::quiet::{end_of, take_quiet};
use hart_fits::own_moves_fit;
use hart_linker::{HartBlocks, Linker, RunNaming};
use hart_moves::{turns_append, turns_are_counted};
use hart_seat::LinkedHart;
use hart_trails::trails_grow;
use history_event::HartEnd;
use std::sync::Wait;
use word_memory::{HartSeat, Memory};

/// A hart of a run: its seat at memory, its registers and place, and the blocks that it keeps.
#[derive(Drop)]
pub struct HartRun<J: RunNaming> {
    pub seat: HartSeat<J>,
    pub hart: LinkedHart,
    pub blocks: HartBlocks,
}

impl<J: RunNaming> HartRun<J> {
    /// Runs until the constructors of startup are over and no slot is held, or the hart has ended, at the latest for
    /// its fuel.
    pub fn start<R: Wait, K: Linker<J>>(&mut self, rt: &R, linker: &K, memory: &Memory<J>)
        requires between { IsBetweenTurns J.setting J.journal self.old.seat self.old.hart.hart self.old.blocks }
        requires calm { IsCalm self.old.seat self.old.hart.hart }
        ensures runs { RunsOn J.setting J.journal self.old.seat self.new.seat self.old.hart.hart self.new.hart.hart self.new.blocks }
        ensures begun { IsBegun self.new.hart.hart }
    {
        while self.hart.end().is_none() && !self.has_started() {
            self.turn(rt, linker, memory);
        }
    }

    /// Whether the constructors of startup are over, and no slot is held.
    fn has_started(&self) -> bool
        ensures over { result ≡ true → list_any is_startup_frame self.now.hart.hart.frames ≡ false }
        ensures free { result ≡ true → HoldsNoSlot self.now.hart.hart }
    {
        !self.hart.is_starting() && holds_no_slot(&self.hart)
    }

    /// Runs until the hart has ended, at the latest for its fuel.
    pub fn run<R: Wait, K: Linker<J>>(&mut self, rt: &R, linker: &K, memory: &Memory<J>)
        requires between { IsBetweenTurns J.setting J.journal self.old.seat self.old.hart.hart self.old.blocks }
        requires calm { IsCalm self.old.seat self.old.hart.hart }
        ensures runs { RunsOn J.setting J.journal self.old.seat self.new.seat self.old.hart.hart self.new.hart.hart self.new.blocks }
        ensures ended { IsSome self.new.hart.hart.«end» }
    {
        while self.hart.end().is_none() {
            self.turn(rt, linker, memory);
        }
    }

    /// Takes the hart's next turn, if one is due; of a slot that was granted, the two that are.
    fn turn<R: Wait, K: Linker<J>>(&mut self, rt: &R, linker: &K, memory: &Memory<J>)
        requires between { IsBetweenTurns J.setting J.journal self.old.seat self.old.hart.hart self.old.blocks }
        requires runs { self.old.hart.hart.«end» ≡ None }
        ensures runs { RunsOn J.setting J.journal self.old.seat self.new.seat self.old.hart.hart self.new.hart.hart self.new.blocks }
        ensures spends { SpendsFuel self.old.hart.hart self.new.hart.hart }
    {
        match next_turn(&self.hart) {
            Next::Bind => self.bind(memory),
            Next::Quiet => self.quiet(rt, linker, memory),
            Next::Locate(number, offset) => self.locate(rt, linker, memory, number, offset),
            Next::Serve => self.serve(rt, linker, memory),
            Next::Finalise => self.finalise(rt, linker, memory),
            Next::FuelOut => self.run_out(rt, linker, memory),
            Next::Nothing => {}
        }
    }

    /// The exchange of a slot, and the end of its offer.
    fn bind(&mut self, memory: &Memory<J>)
        requires between { IsBetweenTurns J.setting J.journal self.old.seat self.old.hart.hart self.old.blocks }
        requires runs { self.old.hart.hart.«end» ≡ None }
        requires slot { HoldsSlot self.old.hart.hart }
        ensures runs { RunsOn J.setting J.journal self.old.seat self.new.seat self.old.hart.hart self.new.hart.hart self.new.blocks }
        ensures spends { SpendsFuel self.old.hart.hart self.new.hart.hart }
    {
        own_moves_fit();
        trails_grow();
        bind_slot(memory, &mut self.seat, &mut self.hart);
    }

    /// A turn that asks nothing of the linker, but that it may end the hart.
    fn quiet<R: Wait, K: Linker<J>>(&mut self, rt: &R, linker: &K, memory: &Memory<J>)
        requires between { IsBetweenTurns J.setting J.journal self.old.seat self.old.hart.hart self.old.blocks }
        requires runs { self.old.hart.hart.«end» ≡ None }
        requires own { (s : State) → is_own (due s self.old.hart.hart) ≡ true }
        ensures runs { RunsOn J.setting J.journal self.old.seat self.new.seat self.old.hart.hart self.new.hart.hart self.new.blocks }
        ensures spends { SpendsFuel self.old.hart.hart self.new.hart.hart }
    {
        own_moves_fit();
        trails_grow();
        turns_are_counted();
        turns_append();
        let turned = take_quiet(memory, &mut self.seat, &mut self.hart);
        if let Some(reason) = end_of(turned) {
            linker.end(rt, memory, &mut self.seat, &mut self.hart, reason);
        }
    }

    /// A request of thread-local storage: the hart answers itself where it keeps the block.
    fn locate<R: Wait, K: Linker<J>>(
        &mut self,
        rt: &R,
        linker: &K,
        memory: &Memory<J>,
        number: u64,
        offset: u64,
    )
        requires between { IsBetweenTurns J.setting J.journal self.old.seat self.old.hart.hart self.old.blocks }
        requires runs { self.old.hart.hart.«end» ≡ None }
        requires fuel { self.old.hart.hart.turns < self.old.hart.hart.fuel }
        requires asks { (s : State) → due s self.old.hart.hart ≡ is_due.serve (locates number offset) (back self.old.hart.hart) }
        ensures runs { RunsOn J.setting J.journal self.old.seat self.new.seat self.old.hart.hart self.new.hart.hart self.new.blocks }
        ensures spends { SpendsFuel self.old.hart.hart self.new.hart.hart }
    {
        own_moves_fit();
        trails_grow();
        turns_are_counted();
        turns_append();
        let _ = self.seat.number();
        let kept = kept_block(
            memory,
            &mut self.seat,
            &mut self.hart,
            &self.blocks,
            number,
            offset,
        );
        if !kept {
            linker.serve(rt, memory, &mut self.seat, &mut self.hart, &mut self.blocks);
        }
    }

    /// A turn that asks the linker.
    fn serve<R: Wait, K: Linker<J>>(&mut self, rt: &R, linker: &K, memory: &Memory<J>)
        requires between { IsBetweenTurns J.setting J.journal self.old.seat self.old.hart.hart self.old.blocks }
        requires asks { (s : State) → (is_asking (due s self.old.hart.hart) ≡ true) × (is_located (due s self.old.hart.hart) ≡ false) }
        ensures runs { RunsOn J.setting J.journal self.old.seat self.new.seat self.old.hart.hart self.new.hart.hart self.new.blocks }
        ensures spends { SpendsFuel self.old.hart.hart self.new.hart.hart }
    {
        trails_grow();
        turns_are_counted();
        linker.serve(rt, memory, &mut self.seat, &mut self.hart, &mut self.blocks);
    }

    /// The turn in which the final destructors of an object have run.
    fn finalise<R: Wait, K: Linker<J>>(&mut self, rt: &R, linker: &K, memory: &Memory<J>)
        requires between { IsBetweenTurns J.setting J.journal self.old.seat self.old.hart.hart self.old.blocks }
        requires last { (s : State) → is_finalising (due s self.old.hart.hart) ≡ true }
        ensures runs { RunsOn J.setting J.journal self.old.seat self.new.seat self.old.hart.hart self.new.hart.hart self.new.blocks }
        ensures spends { SpendsFuel self.old.hart.hart self.new.hart.hart }
    {
        trails_grow();
        turns_are_counted();
        linker.finalise(rt, memory, &mut self.seat, &mut self.hart, &mut self.blocks);
    }

    /// The end of a hart whose turns are used up.
    fn run_out<R: Wait, K: Linker<J>>(&mut self, rt: &R, linker: &K, memory: &Memory<J>)
        requires between { IsBetweenTurns J.setting J.journal self.old.seat self.old.hart.hart self.old.blocks }
        requires runs { self.old.hart.hart.«end» ≡ None }
        requires out { (s : State) → due s self.old.hart.hart ≡ is_due.fuel_out }
        ensures runs { RunsOn J.setting J.journal self.old.seat self.new.seat self.old.hart.hart self.new.hart.hart self.new.blocks }
        ensures spends { SpendsFuel self.old.hart.hart self.new.hart.hart }
    {
        trails_grow();
        linker.end(rt, memory, &mut self.seat, &mut self.hart, HartEnd::FuelOut);
    }
}
