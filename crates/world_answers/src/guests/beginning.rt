//! How the final destructors of a run begin.

ghost use Rattle.std.specs.Prelude.{◌≡◌, ◌<◌, List, length, Some, IsTrue};
ghost use Rattle.std.specs.List.{list_all};
ghost use Rattle.world_answers.specs.GuestsPart.GuestWorlds.Worlds.{world_of};
ghost use Rattle.hart_moves.specs.Starting.{starting_registers};
ghost use Rattle.world_answers.specs.GuestsPart.Begins.{BeginsWith, IsBeforeFinals, LacksMemoryOn, begun_if};
ghost use Rattle.rv_hart.specs.declared.doubleword.Doubleword.{Doubleword};
ghost use Rattle.world_answers.specs.ReturnsPart.Settling.{harts_in};
ghost use Rattle.world_turns.specs.WorldEnds.Ends.{has_exited};
ghost use Rattle.world_turns.specs.Run.{exit_code};

use crate::begin;
use crate::guests::ending::end_hart;
use crate::guests::guest_worlds::guests_may_turn;
use hart_seat::LinkedHart;
use history_event::{HartEnd, HartEntry};
use ld_base::HartId;
use link_state::LinkState;
use std::alloc::Global;

/// How the final destructors of a run begin.
#[derive(Clone, Copy, PartialEq, Eq)]
pub enum Beginning {
    /// No object is left: there is nothing to run.
    NoneLeft,
    /// The first hart is to run those of the object that comes first.
    Begun,
    /// There is no memory to list what is left: the first hart has ended once more.
    Memory,
}

/// The final destructors begin of a run each of whose harts has ended by exit: the first hart gets its starting
/// registers again. Guest memory stays as it is.
pub fn begin_finals(
    alloc: Global,
    state: &mut LinkState,
    harts: &mut [LinkedHart],
    entry: HartEntry,
) -> Beginning
    requires some { 0 < length harts.old }
    requires run { IsBeforeFinals state.old harts.old }
    requires over { IsTrue (list_all has_exited (harts_in harts.old)) }
    ensures begins { (words : List Doubleword)
        → BeginsWith state.old.harts (starting_registers entry) (world_of state.old words harts.old) (world_of state.new words harts.new) result }
    ensures count { state.new.harts ≡ state.old.harts }
{
    guests_may_turn();
    let code = exit_code(&harts[0]);
    match begin(alloc, state, &mut harts[0], entry, code) {
        Ok(some) => begun_if(some),
        Err(_) => lack_memory(state, harts),
    }
}

/// How they begin, by whether an object is left.
fn begun_if(some: bool) -> Beginning
    ensures { result ≡ begun_if some }
{
    if some {
        Beginning::Begun
    } else {
        Beginning::NoneLeft
    }
}

/// There is no memory to list what is left: the first hart ends once more.
fn lack_memory(state: &mut LinkState, harts: &mut [LinkedHart]) -> Beginning
    requires some { 0 < length harts.old }
    requires run { IsBeforeFinals state.old harts.old }
    requires over { IsTrue (list_all has_exited (harts_in harts.old)) }
    ensures result { result ≡ Beginning.Memory }
    ensures lacks { (words : List Doubleword)
        → LacksMemoryOn state.old.harts (world_of state.old words harts.old) (world_of state.new words harts.new) }
    ensures count { state.new.harts ≡ state.old.harts }
{
    guests_may_turn();
    let first = HartId::new(0);
    end_hart(state, harts, first, HartEnd::Memory);
    Beginning::Memory
}

/// The code with which a hart has ended by exit.
fn exit_code(hart: &LinkedHart) -> u64
    requires { IsTrue (has_exited hart.now.hart) }
    ensures { exit_code hart.now.hart ≡ Some result }
{
    match hart.end() {
        Some(HartEnd::Exit(code)) => code,
        _ => unreachable!(),
    }
}
