//! The next turn of a hart.

ghost use Rattle.std.specs.Prelude.{◌≡◌, ◌<◌, ◌≤◌, Bool, length};
ghost use Rattle.world_answers.specs.GuestsPart.GuestWorlds.Coming.{LeavesHart};
ghost use Rattle.world_answers.specs.GuestsPart.GuestWorlds.Worlds.{MayBeAt, TakesOver, world_of};
ghost use Rattle.world_answers.specs.GuestsPart.Counting.{IsCounted, counts_at};
ghost use Rattle.world_answers.specs.GuestsPart.Next.{NextOpens, NextReadsNothing, NextTells};

use hart_seat::LinkedHart;
use ld_base::{HartId, Names};
use library_source::Library;
use link_state::LinkState;
use std::alloc::Global;
use world_answers::{Turn, refusals_are_counted, take_final, take_quiet, take_service};
use world_memory::PlainMemory;

/// Takes the next turn of a hart. One that has ended is passed over.
#[inline(always)]
pub(crate) fn take_turn<L: Library>(
    alloc: Global,
    state: &mut LinkState,
    memory: &mut PlainMemory,
    harts: &mut [LinkedHart],
    id: HartId,
    folders: &Names,
    library: &mut L,
) -> Turn
    requires hart { id < length harts.old }
    requires at { (begun : Bool) × MayBeAt state.old.harts folders.now begun (world_of state.old memory.old harts.old) }
    ensures takes { TakesOver state.old.harts folders.now (L.files library.old) id
        (world_of state.old memory.old harts.old) (world_of state.new memory.new harts.new) }
    ensures comes { LeavesHart (world_of state.old memory.old harts.old) (world_of state.new memory.new harts.new) id result }
    ensures tells { NextTells state.old.harts folders.now (L.files library.old)
        (world_of state.old memory.old harts.old) state.new.events id result }
    ensures whole { NextOpens state.old.harts folders.now (L.files library.old) (L.faults library.old) (L.faults library.new)
        (world_of state.old memory.old harts.old) state.new.events id result }
    ensures counts { IsCounted folders.now (world_of state.old memory.old harts.old) (world_of state.new memory.new harts.new)
        (counts_at L.faults L.misses library.old) (counts_at L.faults L.misses library.new) }
    ensures unread { NextReadsNothing (world_of state.old memory.old harts.old) id → library.new ≡ library.old }
    ensures count { state.new.harts ≡ state.old.harts }
    ensures files { L.files library.new ≡ L.files library.old }
    ensures faults { L.faults library.old ≤ L.faults library.new }
    ensures misses { L.misses library.old ≤ L.misses library.new }
{
    refusals_are_counted();
    if let Some(turn) = take_quiet(state, memory, harts, id) {
        return turn;
    }
    if let Some(turn) = take_service(alloc, state, memory, harts, id, folders, library) {
        return turn;
    }
    match take_final(alloc, state, harts, id) {
        Some(turn) => turn,
        None => unreachable!(),
    }
}
