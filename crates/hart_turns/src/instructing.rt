//! The turn of an instruction.

ghost use Rattle.std.specs.Prelude.{◌≡◌, ℕ, ◌<◌, List, OnErr};
ghost use Rattle.std.specs.List.{list_any};
ghost use Rattle.history_event.specs.declared.event.Event.{Event};
ghost use Rattle.history_state.specs.Setting.{Setting};
ghost use Rattle.rv_hart.specs.declared.bus.Item.{Item};
ghost use Rattle.hart_moves.specs.Due.{Due};
ghost use Rattle.hart_moves.specs.Moves.{TurnRefuses, TurnStops, Traps, is_store, trap_of};
ghost use Rattle.hart_turns.specs.Turns.{LeavesSpent, Turns, TurnsTo, Watches};

use crate::ending::{end_with, role_end};
use crate::watched::Watched;
use crate::{Trap, Turned, trap_of};
use hart_seat::LinkedHart;
use history_event::HartEnd;
use rv_hart::{Bus, BusFault, Stop};

/// The turn of an instruction.
pub fn instruct<B: Bus>(hart: &mut LinkedHart, bus: &mut B) -> Turned
    requires { hart.old.hart.turns < hart.old.hart.fuel }
    ensures turn { Turns B.does bus.old bus.new Due.instruction hart.old.hart hart.new.hart result }
    ensures ends { LeavesSpent hart.old.hart result hart.new.hart }
{
    let (stepped, stores) = step(hart, bus);
    match stepped {
        Ok(()) => {
            hart.spend();
            Turned::Over
        }
        Err(stop) => stopped(hart, stop, stores),
    }
}

/// One step, and whether it asked the bus to store something.
fn step<B: Bus>(hart: &mut LinkedHart, bus: &mut B) -> (Result<(), Stop>, bool)
    ensures followed { Watches B.does bus.old bus.new hart.old.hart.registers hart.new.hart.registers result.0 result.1 }
    ensures hart { hart.new.hart ≡ record hart.old.hart { registers = hart.new.hart.registers } }
    ensures stopped { OnErr result.0 (hart.new.hart ≡ hart.old.hart) }
{
    let mut watched = Watched::new(bus);
    let stepped = hart.step(&mut watched);
    (stepped, watched.stores())
}

/// What comes of an instruction that stops its hart.
fn stopped(hart: &mut LinkedHart, stop: Stop, stores: bool) -> Turned
    requires { hart.old.hart.turns < hart.old.hart.fuel }
    ensures turn { (w : Setting) (past : List Event) (h : ℕ) (items : List Item) → stores ≡ list_any is_store items
        → TurnsTo (TurnStops w past h hart.old.hart items stop) w past h items result hart.new.hart }
    ensures ends { LeavesSpent hart.old.hart result hart.new.hart }
{
    let pc = hart.registers().pc;
    match stop {
        Stop::Ecall => trapped(hart),
        Stop::Break => end_with(hart, HartEnd::Break(pc)),
        Stop::Bad(word) => end_with(hart, HartEnd::BadInstruction(pc, word)),
        Stop::Misaligned(address) => end_with(hart, HartEnd::Misaligned(pc, address)),
        Stop::Refused(address, fault) => refused(hart, address, fault, stores),
    }
}

/// What comes of an ecall.
fn trapped(hart: &mut LinkedHart) -> Turned
    requires { hart.old.hart.turns < hart.old.hart.fuel }
    ensures turn { (w : Setting) (past : List Event) (h : ℕ) (items : List Item)
        → TurnsTo (Traps w past h hart.old.hart items (trap_of hart.old.hart.registers)) w past h items result hart.new.hart }
    ensures ends { LeavesSpent hart.old.hart result hart.new.hart }
{
    match trap_of(hart.registers()) {
        Trap::Exits(code) => return end_with(hart, HartEnd::Exit(code)),
        Trap::Gives(value) => hart.pass_ecall(value),
        Trap::Writes => hart.begin_write(),
    }
    hart.spend();
    Turned::Over
}

/// What comes of an access, or a fetch, that the bus refuses.
fn refused(hart: &mut LinkedHart, address: u64, fault: BusFault, stores: bool) -> Turned
    requires { hart.old.hart.turns < hart.old.hart.fuel }
    ensures turn { (w : Setting) (past : List Event) (h : ℕ) (items : List Item) → stores ≡ list_any is_store items
        → TurnsTo (TurnRefuses w past h hart.old.hart items address fault) w past h items result hart.new.hart }
    ensures ends { LeavesSpent hart.old.hart result hart.new.hart }
{
    let pc = hart.registers().pc;
    match fault {
        BusFault::Role(role) => end_with(hart, role_end(pc, address, role, stores)),
        BusFault::Misaligned => end_with(hart, HartEnd::Misaligned(pc, address)),
        BusFault::Again(shown) => {
            hart.spend();
            Turned::Again(shown)
        }
    }
}
