//! The turn of a doubleword that is copied.

ghost use Rattle.std.specs.Prelude.{◌≡◌, ℕ, ◌<◌, List};
ghost use Rattle.history_event.specs.declared.event.Event.{Event};
ghost use Rattle.history_state.specs.Setting.{Setting};
ghost use Rattle.history_state.specs.State.{State};
ghost use Rattle.rv_hart.specs.declared.bus.Item.{Item};
ghost use Rattle.hart_moves.specs.Copying.{Copy, first_left};
ghost use Rattle.hart_moves.specs.Due.{Due, due};
ghost use Rattle.hart_moves.specs.Moves.{Unread};
ghost use Rattle.hart_turns.specs.Turns.{LeavesSpent, Turns, TurnsTo, is_text};

use crate::Turned;
use crate::ending::end_with;
use hart_seat::LinkedHart;
use history_event::HartEnd;
use rv_hart::{Bus, BusFault};

/// -14, EFAULT.
const UNREAD: u64 = u64::MAX - 13;

/// The turn of a doubleword that is copied, from the first byte on that isn't copied yet. `text` says
/// whether it is one to be written.
pub fn copy<B: Bus>(hart: &mut LinkedHart, bus: &mut B, first: u64, text: bool) -> Turned
    requires { hart.old.hart.turns < hart.old.hart.fuel }
    ensures turn { (s : State) (copy : Copy) (start : ℕ) (bytes : List ℕ) → due s hart.old.hart ≡ Due.copy copy start bytes
        → first ≡ first_left start bytes → text ≡ is_text copy
        → Turns B.does bus.old bus.new (Due.copy copy start bytes) hart.old.hart hart.new.hart result }
    ensures ends { LeavesSpent hart.old.hart result hart.new.hart }
{
    match bus.read(first / 8 * 8, 8) {
        Ok(word) => {
            hart.copied(word);
            hart.spend();
            Turned::Over
        }
        Err(BusFault::Role(_)) => unread(hart, first, text),
        Err(BusFault::Misaligned) => unreachable!(),
        Err(BusFault::Again(shown)) => {
            hart.spend();
            Turned::Again(shown)
        }
    }
}

/// What comes of a byte that can't be read.
fn unread(hart: &mut LinkedHart, first: u64, text: bool) -> Turned
    requires { hart.old.hart.turns < hart.old.hart.fuel }
    ensures turn { (w : Setting) (past : List Event) (h : ℕ) (items : List Item) (copy : Copy) → text ≡ is_text copy
        → TurnsTo (Unread w past h hart.old.hart items copy first) w past h items result hart.new.hart }
    ensures ends { LeavesSpent hart.old.hart result hart.new.hart }
{
    if !text {
        let pc = hart.registers().pc;
        return end_with(hart, HartEnd::NotMapped(pc, first));
    }
    hart.pass_ecall(UNREAD);
    hart.spend();
    Turned::Over
}
