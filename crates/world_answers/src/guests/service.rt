//! The turn that asks the linker.

ghost use Rattle.std.specs.Prelude.{◌≡◌, ◌<◌, ◌≤◌, length, Bool, IfNone, IfSome};
ghost use Rattle.world_answers.specs.GuestsPart.GuestWorlds.Coming.{LeavesHart};
ghost use Rattle.world_answers.specs.GuestsPart.GuestWorlds.Worlds.{MayBeAt, TurnsOver, world_of};
ghost use Rattle.world_answers.specs.GuestsPart.Asking.{AsksNothing};
ghost use Rattle.world_answers.specs.GuestsPart.Next.{NextOpens, NextReadsNothing, NextRefusalIsCounted, NextTells};

use crate::guests::asking::{Asked, asked_by};
use crate::guests::guest_worlds::{Turn, guests_may_turn, guests_take_turns};
use crate::guests::passing::pass;
use crate::guests::serving::serve;
use crate::settle_all;
use hart_seat::LinkedHart;
use ld_base::{HartId, Names};
use library_source::Library;
use link_state::LinkState;
use std::alloc::Global;
use world_memory::{PlainMemory, freed_harts_move};

/// Takes the next turn of a hart, if it is a call of the linker, or the one in which the functions of an
/// object have run, those of the final destructors apart. Each grant that a hart is done with is settled
/// first. Where it is another turn, nothing is done.
///
/// Want of memory ends the hart. The library's counts show that a read failed, and that paths were missed.
pub fn take_service<L: Library>(
    alloc: Global,
    state: &mut LinkState,
    memory: &mut PlainMemory,
    harts: &mut [LinkedHart],
    id: HartId,
    folders: &Names,
    library: &mut L,
) -> Option<Turn>
    requires hart { id < length harts.old }
    requires at { (begun : Bool) × MayBeAt state.old.harts folders.now begun (world_of state.old memory.old harts.old) }
    ensures turn { IfSome result (λ came. TurnsOver state.old.harts folders.now (L.files library.old) id
        (world_of state.old memory.old harts.old) (world_of state.new memory.new harts.new)) }
    ensures comes { IfSome result (LeavesHart (world_of state.old memory.old harts.old) (world_of state.new memory.new harts.new) id) }
    ensures tells { IfSome result (NextTells state.old.harts folders.now (L.files library.old)
        (world_of state.old memory.old harts.old) state.new.events id) }
    ensures other { IfNone result (AsksNothing (world_of state.old memory.old harts.old) id) }
    ensures unchanged { IfNone result ((state.new ≡ state.old) × (memory.new ≡ memory.old) × (harts.new ≡ harts.old) × (library.new ≡ library.old)) }
    ensures whole { IfSome result (NextOpens state.old.harts folders.now (L.files library.old) (L.faults library.old) (L.faults library.new)
        (world_of state.old memory.old harts.old) state.new.events id) }
    ensures counts { NextRefusalIsCounted folders.now (world_of state.old memory.old harts.old) state.new.events id
        (L.faults library.old) (L.faults library.new) (L.misses library.old) (L.misses library.new) }
    ensures unread { NextReadsNothing (world_of state.old memory.old harts.old) id → library.new ≡ library.old }
    ensures files { L.files library.new ≡ L.files library.old }
    ensures faults { L.faults library.old ≤ L.faults library.new }
    ensures misses { L.misses library.old ≤ L.misses library.new }
    ensures harts { state.new.harts ≡ state.old.harts }
{
    guests_may_turn();
    guests_take_turns();
    freed_harts_move();
    let index = id.number() as usize;
    let asked = asked_by(&harts[index])?;
    settle_all(state, harts);
    let hart = &mut harts[index];
    match asked {
        Asked::Call => Some(serve(alloc, state, memory, hart, id, folders, library)),
        Asked::Passing => Some(pass(state, hart, id)),
    }
}
