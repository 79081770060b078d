//! The turn in which the functions of an object have run.

ghost use Rattle.std.specs.Prelude.{◌≡◌, ◌∷◌, false, drop, map, IfNone, IfSome, IsTrue};
ghost use Rattle.world_answers.specs.ReturnsPart.Completing.{MayPass, is_complete};
ghost use Rattle.world_answers.specs.ReturnsPart.Noting.{with_passed};
ghost use Rattle.world_answers.specs.ReturnsPart.Steps.{PassesFirst};
ghost use Rattle.history_calls.specs.CallLaws.Coming.{IsOn};
ghost use Rattle.hart_moves.specs.Due.{due};
ghost use Rattle.hart_moves.specs.Moves.{passing};
ghost use Rattle.hart_seat.specs.HartParts.Views.{purpose_of};
ghost use Rattle.history_journal.specs.Following.{machine_of};
ghost use Rattle.history_state.specs.After.{after};
ghost use Rattle.history_state.specs.Setting.{Setting};
ghost use Rattle.history_calls.specs.Functions.{left, passed};
ghost use Rattle.world_memory.specs.TurnAnswers.Following.{MayFollowAll};
ghost use Rattle.world_memory.specs.TurnAnswers.Turn.{TakesService};
ghost use Rattle.world_memory.specs.declared.turn_answers.answered.MemoryChange.TheVariants.{Nothing};
ghost use Rattle.hart_moves.specs.TurnEvents.Appends.{is_of_end};

use crate::returns::noting::{note, note_front};
use hart_seat::{Due, LinkedHart, Purpose};
use history_event::Function;
use ld_base::{HartId, Serial};
use link_state::LinkState;

/// Takes the turn that is due, if it is the one in which the functions of an object have run, of startup,
/// of an opening or of a closing: the object is initialised or finalised, and those behind it that have no
/// functions pass with it. Answers whether it was this turn. That of the final destructors is not.
pub fn complete(state: &mut LinkState, id: HartId, hart: &mut LinkedHart) -> bool
    requires { MayPass state.old.harts state.old.events id (due (after state.old.events) hart.old.hart) }
    ensures told { result ≡ is_complete (due (after state.old.events) hart.old.hart) }
    ensures turn { IsTrue result → (w : Setting) → IsOn (machine_of state.old.harts) w
        → TakesService w state.old.events state.new.events state.new.made id (due (after state.old.events) hart.old.hart) hart.old.hart hart.new.hart Nothing }
    ensures other { result ≡ false → (state.new ≡ state.old) × (hart.new.hart ≡ hart.old.hart) }
    ensures harts { state.new.harts ≡ state.old.harts }
    ensures made { state.new.made ≡ state.old.made }
{
    let Some(passed) = pass_first(state, id, hart) else {
        return false;
    };
    hart.settle();
    hart.complete(passed);
    hart.spend();
    true
}

/// The first object of the innermost frame passes, whose functions have run, and those behind it that have
/// none. Answers how many these are.
fn pass_first(state: &mut LinkState, id: HartId, hart: &LinkedHart) -> Option<usize>
    requires { MayPass state.old.harts state.old.events id (due (after state.old.events) hart.now.hart) }
    ensures passed { IfSome result (λ count. PassesFirst state.old state.new id hart.now.hart count) }
    ensures other { IfNone result (is_complete (due (after state.old.events) hart.now.hart) ≡ false) }
    ensures same { IfNone result (state.new ≡ state.old) }
{
    match hart.due() {
        Due::Complete(purpose, object, behind) => {
            if is_of_end(purpose) {
                return None;
            }
            Some(pass(state, id, purpose, object, behind))
        }
        _ => None,
    }
}

/// An object passes, and those behind it that have no functions. Answers how many these are.
fn pass(
    state: &mut LinkState,
    id: HartId,
    purpose: &Purpose,
    object: Serial,
    behind: &[Function],
) -> usize
    requires { MayFollowAll state.old.harts state.old.events (map (passing (purpose_of purpose.now) id) (object ∷ passed behind.now)) }
    ensures state { state.new ≡ with_passed state.old (purpose_of purpose.now) id (object ∷ passed behind.now) }
    ensures left { drop result behind.now ≡ left behind.now }
{
    note(state, id, purpose, object);
    note_front(state, id, purpose, behind)
}

/// Whether functions are the final destructors.
fn is_of_end(purpose: &Purpose) -> bool
    ensures { result ≡ is_of_end (purpose_of purpose.now) }
{
    matches!(purpose, Purpose::End(_))
}
