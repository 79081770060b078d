//! How the final destructors of a run begin, and the settling at its end.

ghost use Rattle.std.specs.Prelude.{◌≡◌, ◌<◌, List, length, true};
ghost use Rattle.std.specs.Bool.{OnFalse, OnTrue};
ghost use Rattle.history_calls.specs.CallLaws.Coming.{IsOn};
ghost use Rattle.world_answers.specs.GuestsPart.GuestWorlds.Worlds.{world_of};
ghost use Rattle.world_answers.specs.GuestsPart.Counting.{RefusesNone};
ghost use Rattle.hart_moves.specs.Starting.{starting_registers};
ghost use Rattle.history_journal.specs.Following.{machine_of};
ghost use Rattle.history_state.specs.Setting.{Setting};
ghost use Rattle.plain_world.specs.Finals.{FinalsBegin, FinalsDont, IsAtIn, StaysAt};
ghost use Rattle.plain_world.specs.Playing.{BeginsToFinalise, FinalisesOnce};
ghost use Rattle.plain_world.specs.Table.{moved};
ghost use Rattle.rv_hart.specs.declared.doubleword.Doubleword.{Doubleword};
ghost use Rattle.world_turns.specs.Run.{settled};

use crate::World;
use crate::harts::have_exited;
use hart_seat::LinkedHart;
use history_event::HartEntry;
use link_state::LinkState;
use std::alloc::Global;
use world_answers::{Beginning, begin_finals, guests_may_turn, runs_stay, settle_all};

impl World {
    /// The final destructors begin, where each hart has ended by exit, an object is left, and they haven't begun
    /// before. Answers whether they do. Where there is no memory to list what is left, the first hart ends once
    /// more.
    pub(crate) fn begin_finals(&mut self, alloc: Global) -> bool
        ensures begins { OnTrue result (BeginsToFinalise self.old.begun (starting_registers self.old.entry) self.old.world self.new.world) }
        ensures other { OnFalse result ((w : Setting) → IsOn (machine_of self.old.count) w
            → FinalisesOnce w self.old.begun (starting_registers self.old.entry) self.old.world self.new.world) }
        ensures refuses { RefusesNone self.old.world self.new.world }
        ensures rest { self.new ≡ record self.old { begun = true; world = self.new.world } }
    {
        let begun = self.begun;
        self.begun = true;
        begin(
            alloc,
            &mut self.state,
            self.harts.as_mut_slice(),
            self.entry,
            begun,
        )
    }

    /// Each grant whose hart is done with it is settled.
    pub(crate) fn settle(&mut self)
        ensures { self.new ≡ moved self.old (settled self.old.world) }
    {
        guests_may_turn();
        settle_all(&mut self.state, self.harts.as_mut_slice());
    }
}

/// The final destructors begin, where each hart has ended by exit, an object is left, and they haven't begun
/// before. Answers whether they do.
fn begin(
    alloc: Global,
    state: &mut LinkState,
    harts: &mut [LinkedHart],
    entry: HartEntry,
    begun: bool,
) -> bool
    requires some { 0 < length harts.old }
    requires run { IsAtIn begun state.old harts.old }
    ensures begins { OnTrue result (FinalsBegin begun entry state.old state.new harts.old harts.new) }
    ensures other { OnFalse result (FinalsDont begun entry state.old state.new harts.old harts.new) }
    ensures refuses { (words : List Doubleword) → RefusesNone (world_of state.old words harts.old) (world_of state.new words harts.new) }
    ensures stays { StaysAt begun state.old state.new harts.old harts.new }
    ensures count { state.new.harts ≡ state.old.harts }
{
    runs_stay();
    if begun {
        return false;
    }
    if !have_exited(harts) {
        return false;
    }
    match begin_finals(alloc, state, harts, entry) {
        Beginning::Begun => true,
        Beginning::NoneLeft => false,
        Beginning::Memory => false,
    }
}
