//! The final destructors.

ghost use Rattle.std.specs.Prelude.{◌≡◌, ◌<◌, ◌≤◌, List, IsSome, Some, length};
ghost use Rattle.hart_moves.specs.Starting.{HartStart, starting_registers};
ghost use Rattle.history_state.specs.After.{after};
ghost use Rattle.history_state.specs.Owed.{times_ended};
ghost use Rattle.hart_threads.specs.Ends.{IsNewAt, IsThrough, RanWhole};
ghost use Rattle.hart_threads.specs.Run.{IsCalm, RunsOn};
ghost use Rattle.hart_threads.specs.Turns.{RunsBy};
ghost use Rattle.hart_linker.specs.Between.{IsBetweenTurns};
ghost use Rattle.word_rule.specs.declared.view.TrailItem.{TrailItem};

use crate::run::HartRun;
use hart_fits::running_is_not_over;
use hart_linker::{Beginning, Linker, RunNaming};
use hart_moves::turns_append;
use hart_trails::trails_grow;
use history_event::{HartEnd, HartEntry};
use std::sync::Wait;
use word_memory::Memory;

impl<J: RunNaming> HartRun<J> {
    /// The first hart, which has ended once, goes on with the final destructors if every hart has ended by exit
    /// and an object is left. Answers the end that counts for it.
    pub fn finish<R: Wait, K: Linker<J>>(
        &mut self,
        rt: &R,
        linker: &K,
        memory: &Memory<J>,
        entry: HartEntry,
    ) -> HartEnd
        requires between { IsBetweenTurns J.setting J.journal self.old.seat self.old.hart.hart self.old.blocks }
        requires calm { IsCalm self.old.seat self.old.hart.hart }
        requires first { self.old.seat.number ≡ 0 }
        requires some { 0 < J.setting.machine.harts }
        requires ended { IsSome self.old.hart.hart.«end» }
        requires once { times_ended 0 (after self.old.seat.heard).endings ≤ 1 }
        ensures through { IsThrough J.setting J.journal self.old.seat self.new.seat }
        ensures whole { (start : HartStart) (begun : List TrailItem) → start.registers ≡ starting_registers entry
            → start.from ≤ length self.old.seat.heard → IsNewAt start self.old.seat
            → RunsBy J.setting start.from start.hart begun self.old.seat self.old.hart.hart → RanWhole J.setting start begun self.new.seat result }
    {
        trails_grow();
        turns_append();
        running_is_not_over();
        let end = self.hart.end().unwrap();
        let HartEnd::Exit(code) = end else {
            return end;
        };
        let beginning = linker.begin_finals(
            rt,
            memory,
            &mut self.seat,
            &mut self.hart,
            &mut self.blocks,
            entry,
            code,
        );
        match beginning {
            Beginning::HartsRun => end,
            Beginning::NoneLeft => end,
            Beginning::Memory => HartEnd::Memory,
            Beginning::Begun => self.run_to_end(rt, linker, memory),
        }
    }

    /// Runs until the hart has ended, and answers how.
    fn run_to_end<R: Wait, K: Linker<J>>(
        &mut self,
        rt: &R,
        linker: &K,
        memory: &Memory<J>,
    ) -> HartEnd
        requires between { IsBetweenTurns J.setting J.journal self.old.seat self.old.hart.hart self.old.blocks }
        requires calm { IsCalm self.old.seat self.old.hart.hart }
        ensures runs { RunsOn J.setting J.journal self.old.seat self.new.seat self.old.hart.hart self.new.hart.hart self.new.blocks }
        ensures ended { self.new.hart.hart.«end» ≡ Some result }
    {
        self.run(rt, linker, memory);
        self.hart.end().unwrap()
    }
}
