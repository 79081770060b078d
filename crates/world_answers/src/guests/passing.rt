//! Objects whose functions have run.

ghost use Rattle.std.specs.Prelude.{◌≡◌, true, List};
ghost use Rattle.world_answers.specs.ReturnsPart.Completing.{MayPass, is_complete};
ghost use Rattle.hart_moves.specs.Due.{due};
ghost use Rattle.history_state.specs.After.{after};
ghost use Rattle.rv_hart.specs.declared.doubleword.Doubleword.{Doubleword};
ghost use Rattle.world_answers.specs.GuestsPart.Next.{NeverWaits};
ghost use Rattle.world_answers.specs.GuestsPart.Taking.{HartTurnsOn, IsOutcome};

use crate::complete;
use crate::guests::guest_worlds::Turn;
use crate::guests::outcome::outcome;
use hart_seat::LinkedHart;
use ld_base::HartId;
use link_state::LinkState;
use world_memory::others_leave_memory;

/// The turn in which the functions of an object have run. Memory stays as it is.
pub(crate) fn pass(state: &mut LinkState, hart: &mut LinkedHart, id: HartId) -> Turn
    requires passes { is_complete (due (after state.old.events) hart.old.hart) ≡ true }
    requires may { MayPass state.old.harts state.old.events id (due (after state.old.events) hart.old.hart) }
    ensures turns { (words : List Doubleword) → HartTurnsOn state.old state.new words words id hart.old.hart hart.new.hart }
    ensures outcome { IsOutcome hart.new.hart result }
    ensures no_wait { NeverWaits result }
    ensures harts { state.new.harts ≡ state.old.harts }
{
    others_leave_memory();
    complete(state, id, hart);
    outcome(hart, None)
}
