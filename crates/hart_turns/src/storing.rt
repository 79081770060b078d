//! The turn of a doubleword that is stored.

ghost use Rattle.std.specs.Prelude.{◌≡◌, ℕ, ◌+◌, ◌*◌, ◌%◌, ◌<◌, List};
ghost use Rattle.hart_moves.specs.Due.{Due};
ghost use Rattle.hart_moves.specs.Harts.Phase.{storing};
ghost use Rattle.hart_turns.specs.Turns.{LeavesSpent, Turns};

use crate::Turned;
use crate::ending::{end_with, role_end};
use hart_seat::LinkedHart;
use rv_hart::{Bus, BusFault};

/// The turn of a doubleword of dlerror's text, which is stored at an address.
pub fn store<B: Bus>(hart: &mut LinkedHart, bus: &mut B, address: u64, word: u64) -> Turned
    requires fuel { hart.old.hart.turns < hart.old.hart.fuel }
    requires aligned { address % 8 ≡ 0 }
    ensures turn { (text stored : ℕ) (more : List ℕ) → hart.old.hart.phase ≡ storing text stored word more → address ≡ text + 8 * stored
        → Turns B.does bus.old bus.new (Due.store text stored word more) hart.old.hart hart.new.hart result }
    ensures ends { LeavesSpent hart.old.hart result hart.new.hart }
{
    match bus.write(address, 8, word) {
        Ok(()) => {
            hart.stored();
            hart.spend();
            Turned::Over
        }
        Err(BusFault::Role(role)) => {
            let pc = hart.registers().pc;
            end_with(hart, role_end(pc, address, role, true))
        }
        Err(BusFault::Misaligned) => unreachable!(),
        Err(BusFault::Again(shown)) => {
            hart.spend();
            Turned::Again(shown)
        }
    }
}
