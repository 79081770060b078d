//! The linker, as a hart on a thread asks it.

ghost use Rattle.std.specs.Prelude.{◌≡◌, ◌≤◌, ◌<◌, true, false, Some};
ghost use Rattle.word_rule.specs.Views.{BeginsWith};
ghost use Rattle.hart_moves.specs.Due.{due, is_finalising};
ghost use Rattle.hart_moves.specs.Starting.{starting_registers};
ghost use Rattle.history_event.specs.declared.hart_end.HartEnd.TheVariants.{Exit};
ghost use Rattle.history_state.specs.After.{after};
ghost use Rattle.history_state.specs.Owed.{times_ended};
ghost use Rattle.history_state.specs.State.{State};
ghost use Rattle.hart_linker.specs.Between.{BlocksFit, HasHeard, Hears, IsBetweenTurns};
ghost use Rattle.hart_linker.specs.Finals.{BeginsLast};
ghost use Rattle.hart_linker.specs.Serving.{EndsTurn, ServesTurn, WasRunning, is_asking};
ghost use Rattle.tls_blocks.specs.Blocks.{BlockTable};

use crate::{Beginning, HartBlocks};
use hart_seat::LinkedHart;
use history_event::{HartEnd, HartEntry};
use std::marker::Brand;
use std::sync::Wait;
use word_memory::{HartSeat, Memory, Naming};

/// Names a run: what it was given, its journal when its harts' seats were made, and what its library had
/// counted then.
pub trait RunNaming: Naming {
    ghost use Rattle.std.specs.Prelude.{List};
    ghost use Rattle.history_event.specs.declared.event.Event.{Event};
    ghost use Rattle.history_state.specs.Setting.{Setting};
    ghost use Rattle.world_turns.specs.Counts.{Counts};

    ghost setting: { Setting };

    ghost journal: { List Event };

    ghost counts: { Counts };
}

impl RunNaming for Brand {
    ghost use Rattle.std.specs.Prelude.{[]};
    ghost use Rattle.hart_linker.specs.Naming.{no_counts, no_setting};

    ghost setting = { no_setting };

    ghost journal = { [] };

    ghost counts = { no_counts };
}

/// The linker of a run, which harts on threads share. What a hart brings to a call is a fact about what it
/// has heard and its own state, which it has again behind the call.
pub trait Linker<J: RunNaming> {
    /// Takes a hart's turn that asks the linker: a call, one that waits still, or the turn in which the
    /// functions of an object of startup, of an opening or of a closing have run. Where memory is wanted
    /// the hart ends.
    fn serve<R: Wait>(
        &self,
        rt: &R,
        memory: &Memory<J>,
        seat: &mut HartSeat<J>,
        hart: &mut LinkedHart,
        blocks: &mut HartBlocks,
    )
        requires between { IsBetweenTurns J.setting J.journal seat.old hart.old.hart blocks.old }
        requires asks { (s : State) → is_asking (due s hart.old.hart) ≡ true }
        ensures turn { ServesTurn J.setting seat.old seat.new hart.old.hart hart.new.hart }
        ensures between { IsBetweenTurns J.setting J.journal seat.new hart.new.hart blocks.new };

    /// Takes the turn of the first hart in which the final destructors of an object have run. Where memory
    /// is wanted the hart ends.
    fn finalise<R: Wait>(
        &self,
        rt: &R,
        memory: &Memory<J>,
        seat: &mut HartSeat<J>,
        hart: &mut LinkedHart,
        blocks: &mut HartBlocks,
    )
        requires between { IsBetweenTurns J.setting J.journal seat.old hart.old.hart blocks.old }
        requires last { (s : State) → is_finalising (due s hart.old.hart) ≡ true }
        ensures turn { ServesTurn J.setting seat.old seat.new hart.old.hart hart.new.hart }
        ensures between { IsBetweenTurns J.setting J.journal seat.new hart.new.hart blocks.new };

    /// Ends a hart in a turn whose calls of the bus are over.
    fn end<R: Wait>(
        &self,
        rt: &R,
        memory: &Memory<J>,
        seat: &mut HartSeat<J>,
        hart: &mut LinkedHart,
        reason: HartEnd,
    )
        requires heard { HasHeard J.setting J.journal seat.old }
        requires run { WasRunning J.setting seat.old }
        requires calling { seat.old.lane.calling ≡ false }
        ensures turn { EndsTurn J.setting seat.old seat.new reason hart.old.hart hart.new.hart }
        ensures heard { HasHeard J.setting J.journal seat.new }
        ensures calling { seat.new.lane.calling ≡ false }
        ensures blocks { (d : BlockTable) → BlocksFit d seat.old → BlocksFit d seat.new };

    /// Tells two harts of all events: they have heard of the same then.
    fn tell<R: Wait>(
        &self,
        rt: &R,
        memory: &Memory<J>,
        one: &mut HartSeat<J>,
        other: &mut HartSeat<J>,
    )
        requires one { HasHeard J.setting J.journal one.old }
        requires one_calling { one.old.lane.calling ≡ false }
        requires other { HasHeard J.setting J.journal other.old }
        requires other_calling { other.old.lane.calling ≡ false }
        ensures one { Hears J.setting J.journal one.old one.new }
        ensures other { Hears J.setting J.journal other.old other.new }
        ensures same { other.new.heard ≡ one.new.heard };

    /// The final destructors begin, if every hart has ended by exit and an object is left: the first hart,
    /// which had ended once, by exit with a code, gets its starting registers again.
    fn begin_finals<R: Wait>(
        &self,
        rt: &R,
        memory: &Memory<J>,
        seat: &mut HartSeat<J>,
        hart: &mut LinkedHart,
        blocks: &mut HartBlocks,
        entry: HartEntry,
        code: u64,
    ) -> Beginning
        requires first { seat.old.number ≡ 0 }
        requires some { 0 < J.setting.machine.harts }
        requires between { IsBetweenTurns J.setting J.journal seat.old hart.old.hart blocks.old }
        requires calling { seat.old.lane.calling ≡ false }
        requires exited { hart.old.hart.«end» ≡ Some (Exit code) }
        requires once { times_ended 0 (after seat.old.heard).endings ≤ 1 }
        ensures begins { BeginsLast J.setting (starting_registers entry) seat.old seat.new hart.old.hart hart.new.hart result }
        ensures same { seat.new.number ≡ seat.old.number }
        ensures longer { BeginsWith seat.new.heard seat.old.heard }
        ensures calling { seat.new.lane.calling ≡ false }
        ensures between { IsBetweenTurns J.setting J.journal seat.new hart.new.hart blocks.new };
}
