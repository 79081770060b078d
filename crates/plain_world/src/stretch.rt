//! Instructions that a hart takes at a stretch.
//!
//! A turn is asked what it is; an instruction behind an instruction need not be, as long as the hart has turns
//! left, its pc is at no service, and the instruction doesn't stop it.

ghost use Rattle.std.specs.Prelude.{◌≡◌, ◌<◌, ◌≤◌, length, None};
ghost use Rattle.std.specs.Bool.{OnFalse, OnTrue};
ghost use Rattle.hart_moves.specs.Due.{Due as is_due, due};
ghost use Rattle.hart_moves.specs.Services.{service_at};
ghost use Rattle.history_state.specs.State.{State};
ghost use Rattle.link_state.specs.Table.{LinkTable};
ghost use Rattle.plain_world.specs.Stretches.{Instructs, StretchesBy, TakesStretch};
ghost use Rattle.world_answers.specs.GuestsPart.GuestWorlds.Worlds.{world_of};

use hart_seat::{LinkedHart, service_at};
use ld_base::HartId;
use world_answers::guests_take_turns;
use world_memory::PlainMemory;

/// Takes instructions of a hart of a run, as [`take_instructions`] does.
pub(crate) fn take_stretch(
    memory: &mut PlainMemory,
    harts: &mut [LinkedHart],
    id: HartId,
    most: u64,
) -> u64
    requires { id < length harts.old }
    ensures takes { (state : LinkTable) → TakesStretch id result (world_of state memory.old harts.old) (world_of state memory.new harts.new) }
    ensures most { result ≤ most }
{
    take_instructions(&mut harts[id.number() as usize], memory, most)
}

/// Takes instructions of a hart, one after another, until something else is due or one stops it, and so many at
/// most. Answers how many.
fn take_instructions(hart: &mut LinkedHart, memory: &mut PlainMemory, most: u64) -> u64
    ensures takes { StretchesBy result memory.old memory.new hart.old.hart hart.new.hart }
    ensures most { result ≤ most }
{
    let left = hart.instructions_left().min(most);
    for taken in 0..left {
        if !take_instruction(hart, memory) {
            return taken;
        }
    }
    left
}

/// Takes a hart's next turn, which is an instruction, unless its pc is at a service or the instruction stops it.
/// Answers whether it did: else nothing has changed.
#[inline(always)]
fn take_instruction(hart: &mut LinkedHart, memory: &mut PlainMemory) -> bool
    requires due { (s : State) → service_at hart.old.hart.registers.pc ≡ None → due s hart.old.hart ≡ is_due.instruction }
    requires fuel { hart.old.hart.turns < hart.old.hart.fuel }
    ensures instructs { OnTrue result (Instructs memory.old memory.new hart.old.hart hart.new.hart) }
    ensures other { OnFalse result ((memory.new ≡ memory.old) × (hart.new.hart ≡ hart.old.hart)) }
{
    guests_take_turns();
    if service_at(hart.registers().pc).is_some() {
        return false;
    }
    if hart.step(memory).is_err() {
        return false;
    }
    hart.spend();
    true
}
